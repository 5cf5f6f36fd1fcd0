//! What follows from the definitions, each law as the contract of a function that does nothing.

ghost use Rattle.std.specs.Prelude.{◌≡◌, ◌≤◌, List, ℕ, length};
ghost use Rattle.std.specs.List.{AllByRecursion};
ghost use Rattle.std.specs.Str.Lines.{lines};
ghost use Rattle.lgp_stream.specs.KeptLine.{kept_of, line_limit};
ghost use Rattle.lgp_stream.specs.Language.{Language, state_after};
ghost use Rattle.lgp_stream.specs.Transcript.{HasMeanings, IsLine, IsReportedByTranscript, Meaning, Recorded, StandForLines, stand_in, untouched};

/// A line that stands in for another one is kept as that is; it is that one, where that is kept whole.
#[tactic(auto, using(crate::proofs::StandIns::stand_ins))]
pub fn stand_in_is_kept_alike()
    ensures kept { (line : List ℕ) → kept_of (stand_in (kept_of line)) ≡ kept_of line }
    ensures whole { (line : List ℕ) → length line ≤ line_limit → stand_in (kept_of line) ≡ line }
{}

/// The lines of a text are lines.
#[tactic(auto, using(crate::proofs::LineLaws::lines_are_lines))]
pub fn text_has_lines()
    ensures { (text : List ℕ) → AllByRecursion IsLine (lines text) }
{}

/// Whatever text is typed, it leads where the other language is led by the transcript.
#[tactic(auto, using(crate::proofs::LineLaws::reported_by_transcript))]
pub fn transcript_tells_all<S>()
    ensures { (language : Language S) (opening : S) (meaning : Recorded S → List ℕ → Meaning)
        (typed : Language (Recorded S)) → HasMeanings language opening meaning typed
        → StandForLines meaning → (text : List ℕ)
        → IsReportedByTranscript language opening
        (state_after typed (untouched opening) (lines text)) }
{}
