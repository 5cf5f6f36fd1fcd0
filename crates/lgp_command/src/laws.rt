//! What follows from the definitions, each law as the contract of a function that does nothing.

ghost use Rattle.lgp_command.specs.ReadBack.{AreOneLine, AreReadBack, AreSaid, TextsAreReadBack};

/// A command is read back from the line that says it, with its text; that line is neither blank nor a comment, and it is one line where
/// the text is.
#[tactic(auto, using(crate::proofs::CommandLines::read_back))]
pub fn commands_are_read_back()
    ensures commands { AreReadBack }
    ensures texts { TextsAreReadBack }
    ensures said { AreSaid }
    ensures one_line { AreOneLine }
{}
