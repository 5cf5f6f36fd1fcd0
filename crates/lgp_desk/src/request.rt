//! What a typed line asks for that names a file.

ghost use Rattle.std.specs.Prelude.{◌≡◌, option_map};
ghost use Rattle.lgp_text.specs.NamedValues.{named};
ghost use Rattle.lgp_desk.specs.Requests.{file_name, is_quit, request_of, trimmed, work_names};

use lgp_stream::{LineBytes, has_no_word, split_word, without_spaces};
use lgp_text::{Named, value_named};

/// How a file has a tape.
#[derive(Clone, Copy, Debug, PartialEq, Eq)]
pub enum TapeForm {
    /// By its text, as a line of a script has it.
    Text,
    /// By the text of an archive, which SIMH reads.
    Archive,
    /// By a byte for each code.
    Bytes,
}

/// How a file has the words of a drum.
#[derive(Clone, Copy, Debug, PartialEq, Eq)]
pub enum DrumForm {
    /// By a dump.
    Dump,
    /// By the commands of SIMH, or the lines that it shows.
    Simh,
}

/// What is kept in a file.
#[derive(Clone, Copy, Debug, PartialEq, Eq)]
pub enum Made {
    /// The words of the drum.
    Drum(DrumForm),
    /// What was printed, as a punch would have it.
    Printed(TapeForm),
    /// The mounted tape, from its first code on.
    Mounted(TapeForm),
}

/// What is done with a file.
#[derive(Clone, Copy, Debug, PartialEq, Eq)]
pub enum Work {
    /// Its lines are typed.
    Lines,
    /// It is typed as a source.
    Source,
    /// Its tape is mounted.
    Tape(TapeForm),
    /// The drum is put back as it tells.
    Restore(DrumForm),
    /// This is kept in it.
    Keep(Made),
}

/// What is done with a file, by the first word of a line.
const WORKS: [Named<Work>; 15] = [
    (b"do", Work::Lines),
    (b"source", Work::Source),
    (b"tape", Work::Tape(TapeForm::Text)),
    (b"archive", Work::Tape(TapeForm::Archive)),
    (b"bytes", Work::Tape(TapeForm::Bytes)),
    (b"copy", Work::Keep(Made::Mounted(TapeForm::Text))),
    (
        b"copy-archive",
        Work::Keep(Made::Mounted(TapeForm::Archive)),
    ),
    (b"copy-bytes", Work::Keep(Made::Mounted(TapeForm::Bytes))),
    (b"punch", Work::Keep(Made::Printed(TapeForm::Text))),
    (
        b"punch-archive",
        Work::Keep(Made::Printed(TapeForm::Archive)),
    ),
    (b"punch-bytes", Work::Keep(Made::Printed(TapeForm::Bytes))),
    (b"save", Work::Keep(Made::Drum(DrumForm::Dump))),
    (b"save-simh", Work::Keep(Made::Drum(DrumForm::Simh))),
    (b"restore", Work::Restore(DrumForm::Dump)),
    (b"restore-simh", Work::Restore(DrumForm::Simh)),
];

/// The work that a line's first word asks for.
fn work_named(name: &[u8]) -> Option<Work>
    ensures { result ≡ named work_names name.now }
{
    value_named(&WORKS, name)
}

/// A text without the spaces at its end.
fn trimmed(text: &[u8]) -> &[u8]
    ensures { result.now ≡ trimmed text.now }
{
    let mut end = text.len();
    while end > 0 && text[end - 1] == b' ' {
        end -= 1;
    }
    &text[..end]
}

/// The name of the file that a line names.
#[tactic(auto, unfolding(crate::specs::Requests::file_name))]
fn file_name(line: &[u8]) -> &[u8]
    ensures { result.now ≡ file_name line.now }
{
    trimmed(without_spaces(split_word(line).rest))
}

/// What a line asks for that names a file.
#[derive(Clone, Copy)]
pub(crate) struct Request<'a> {
    pub(crate) work: Work,
    pub(crate) name: &'a [u8],
}

/// What a line asks for, and the name of the file, if it names one.
#[tactic(auto, unfolding(crate::specs::Requests::request_of))]
pub(crate) fn request_in(line: &[u8]) -> Option<Request<'_>>
    ensures { option_map (λ request. (request.work, request.name.now)) result
        ≡ request_of line.now }
{
    let work = work_named(split_word(line).word)?;
    let name = file_name(line);
    if name.is_empty() {
        return None;
    }
    Some(Request { work, name })
}

/// Whether a line is the word `quit`.
#[tactic(auto, unfolding(crate::specs::Requests::is_quit))]
pub(crate) fn is_quit(line: &LineBytes) -> bool
    ensures { result ≡ is_quit line.now }
{
    let command = split_word(line.front());
    !line.is_longer() && (command.word == b"quit".as_slice() && has_no_word(command.rest))
}
