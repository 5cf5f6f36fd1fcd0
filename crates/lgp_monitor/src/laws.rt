//! What follows from the definitions, each law as the contract of a function that does nothing.

ghost use Rattle.std.specs.Prelude.{◌≡◌, ◌-◌, ◌*◌, ◌^◌, ◌≤◌, List, ℕ};
ghost use Rattle.std.specs.Str.Lines.{lines};
ghost use Rattle.lgp_stream.specs.Language.{state_after};
ghost use Rattle.lgp_stream.specs.Transcript.{IsReportedByTranscript, untouched};
ghost use Rattle.lgp_listing.specs.Dump.{IsDrum, dump_of};
ghost use Rattle.lgp_script.specs.Script.{script_language};
ghost use Rattle.lgp_script.specs.LabState.{opening_state};
ghost use Rattle.lgp_monitor.specs.FileTexts.{dumped_words};
ghost use Rattle.lgp_monitor.specs.Monitor.{monitor_language};
ghost use Rattle.lgp_monitor.specs.Scaled.{scaled_text, units_at};
ghost use Rattle.lgp_trace.specs.AccountLines.{number_text};

use std::alloc::Allocator;

/// Whatever is typed, the laboratory is where the script language puts it for the transcript, run as a script from its
/// beginning.
pub fn transcript_is_the_script<A: Allocator>()
    ensures { (typed : List ℕ) → IsReportedByTranscript script_language opening_state
        (state_after monitor_language (untouched opening_state) (lines typed)) }
{}

/// The words that are restored are those of the drum whose dump was handed over.
pub fn restored_words_have_the_dump()
    ensures { (words dump : List ℕ) → IsDrum words → dump_of words ≡ dump
        → words ≡ dumped_words dump }
{}

/// A number whose point is after place 30 is the whole number that traces show of a word.
pub fn numbers_after_place_30_are_whole()
    ensures { (word : ℕ) → scaled_text 30 word ≡ number_text word }
{}

/// A number for which ten decimals are enough is shown exactly; they are where its point is after place 20 or a later one.
pub fn short_numbers_are_exact()
    ensures short { (point size units : ℕ) → size * 10 ^ 10 ≡ units * 2 ^ (30 - point)
        → units_at point size ≡ units }
    ensures late_point { (point size : ℕ) → 20 ≤ point
        → size * 10 ^ 10 ≡ units_at point size * 2 ^ (30 - point) }
{}
