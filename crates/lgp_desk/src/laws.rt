//! What follows from the definitions, each law as the contract of a function that does nothing.

ghost use Rattle.std.specs.Prelude.{◌≡◌, ◌≤◌, All, Bool, List, None, Ok, Option, Some, false, length, ℕ};
ghost use Rattle.lgp_flexo.specs.Code.{IsCode};
ghost use Rattle.lgp_flexo.specs.TapeText.{tape_limit};
ghost use Rattle.lgp_listing.specs.Dump.{IsDrum, dump_of};
ghost use Rattle.lgp_exchange.specs.Deposits.{deposits_of};
ghost use Rattle.std.specs.List.{AllByRecursion};
ghost use Rattle.lgp_stream.specs.Transcript.{IsReportedByTranscript};
ghost use Rattle.lgp_script.specs.Script.{script_language};
ghost use Rattle.lgp_script.specs.LabState.{opening_state};
ghost use Rattle.lgp_desk.specs.Desk.{IsSayable, IsTyped, Seat, Told, all_said, nothing, said_to, taken_seat, wish_at};
ghost use Rattle.lgp_desk.specs.FileForms.{dump_in, tape_of, tape_text};
ghost use Rattle.lgp_desk.specs.Drawers.{Drawer, IsSessionText, drawer_answer, outer_in, told_for};
ghost use Rattle.lgp_desk.specs.Files.{FileCall, HaveAnswered};
ghost use Rattle.lgp_desk.specs.Sessions.{AreWished, IsFirstOf, IsSession, is_wished};
ghost use Rattle.lgp_desk.specs.declared.request.DrumForm.TheVariants as drums;
ghost use Rattle.lgp_desk.specs.declared.request.TapeForm.{TapeForm};
ghost use Rattle.lgp_desk.specs.declared.writing.Manner.{Manner};

use std::alloc::Allocator;

/// What a desk has not wished for changes nothing, and nothing is said to it.
#[tactic(auto, using(crate::proofs::WishLaws::unwished))]
pub fn what_is_not_wished_for_changes_nothing()
    ensures { (seat : Seat) (told : Told) → is_wished (wish_at seat) told ≡ false
        → said_to seat told ≡ nothing seat }
{}

/// Whatever is typed, and whatever files hold that are named: the laboratory is where the script language puts it for the
/// transcript, where no tape was mounted for whose text no line of a script has room. Of such a tape the transcript has the name alone.
pub fn transcript_at_a_desk_is_the_script<A: Allocator>()
    ensures { (manner : Manner) (told : List Told)
        → AllByRecursion IsTyped told
        → AllByRecursion IsSayable (all_said (taken_seat manner) told).handed
        → IsReportedByTranscript script_language opening_state
        (all_said (taken_seat manner) told).seat.recorded }
{}

/// A tape that is kept in any form is read from there as these codes, and the words of a drum from SIMH's form as their dump.
#[tactic(auto, using(crate::proofs::KeptLaws::tapes_are_read, crate::proofs::KeptLaws::drums_are_read))]
pub fn what_is_kept_is_read_back()
    ensures tapes { (form : TapeForm) (tape : List ℕ) → All IsCode tape → length tape ≤ tape_limit
        → tape_of form (tape_text form tape) ≡ Ok tape }
    ensures drums { (words : List ℕ) → IsDrum words
        → dump_in drums.Simh (deposits_of words) ≡ Ok (dump_of words) }
{}

/// Where it is known what files hold at first, and which of them are written: it is known what a desk is told of them. What was kept under
/// a name is what the next read of that name finds. And exactly the session's text is written for these files, names and lines.
#[tactic(auto, using(crate::proofs::DrawerLaws::known_told))]
pub fn what_files_hold_is_what_is_told()
    ensures told { (told : List Told) (before after : Drawer) (seat : Seat)
        (calls : List FileCall) (coming : List Told)
        → AreWished seat told calls → HaveAnswered drawer_answer before calls after
        → before.left ≡ None → IsFirstOf (outer_in told) coming
        → told ≡ told_for (length told) before seat coming }
    ensures written { (calls : List FileCall) (before after : Drawer) (manner : Manner)
        (names : List (List ℕ)) (text : List ℕ) (refused : Bool) (w₀ w : Option (List ℕ))
        → IsSession calls (taken_seat manner) names (Some text) refused w₀ w
        → HaveAnswered drawer_answer before calls after → before.left ≡ None
        → IsSessionText before manner names text refused w₀ w }
{}
