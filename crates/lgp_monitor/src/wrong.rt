//! What is wrong with a line that is in no command's form.

ghost use Rattle.std.specs.Prelude.{◌≡◌, ◌++◌, OnOk};
ghost use Rattle.lgp_monitor.specs.Wrongs.{line_word, misformed_text, name_wrong, next_word, part_of, wrong_text};

use crate::mistake::{Mistake, has_capital, push_mistake};
use crate::verb::{Verb, operands_form};
use lgp_stream::split_word;
use lgp_text::{Piece, push_pieces};
use std::alloc::{AllocError, Allocator};

/// A word of a line.
#[derive(Clone, Copy)]
pub enum LineWord {
    /// The name of its command.
    Name,
    /// The word after the name.
    First,
    Second,
    Third,
    Fourth,
    Fifth,
    Sixth,
}

impl LineWord {
    /// The word after it.
    pub(crate) fn next(self) -> LineWord
        ensures { result ≡ next_word self }
    {
        match self {
            LineWord::Name => LineWord::First,
            LineWord::First => LineWord::Second,
            LineWord::Second => LineWord::Third,
            LineWord::Third => LineWord::Fourth,
            LineWord::Fourth => LineWord::Fifth,
            LineWord::Fifth | LineWord::Sixth => LineWord::Sixth,
        }
    }
}

/// What is wrong with a line in no command's form.
#[derive(Clone, Copy)]
pub enum Wrong {
    /// There is no such command.
    NoCommand,
    /// A word of it is wrong.
    Word(LineWord, Mistake),
    /// Its operands are not in the form of its command.
    Operands(Verb),
}

/// The part of a line that is in no command's form.
#[derive(Clone, Copy)]
pub enum Part {
    /// All of it.
    Line,
    /// The line after the name of its command, which takes one.
    AfterName,
}

/// A word of a line.
fn line_word(which: LineWord, line: &[u8]) -> &[u8]
    ensures { result.now ≡ line_word which line.now }
{
    let name = split_word(line);
    let first = split_word(name.rest);
    let second = split_word(first.rest);
    let third = split_word(second.rest);
    let fourth = split_word(third.rest);
    let fifth = split_word(fourth.rest);
    match which {
        LineWord::Name => name.word,
        LineWord::First => first.word,
        LineWord::Second => second.word,
        LineWord::Third => third.word,
        LineWord::Fourth => fourth.word,
        LineWord::Fifth => fifth.word,
        LineWord::Sixth => split_word(fifth.rest).word,
    }
}

/// A part of a line.
fn part_of(part: Part, line: &[u8]) -> &[u8]
    ensures { result.now ≡ part_of part line.now }
{
    match part {
        Part::Line => line,
        Part::AfterName => split_word(line).rest,
    }
}

/// What is wrong with a line whose first word is no command's name.
pub(crate) fn name_wrong(word: &[u8]) -> Wrong
    ensures { result ≡ name_wrong word.now }
{
    if has_capital(word) {
        Wrong::Word(LineWord::Name, Mistake::Capital)
    } else {
        Wrong::NoCommand
    }
}

/// Appends what is wrong with a line, and what would be right.
fn push_wrong<A: Allocator>(
    text: &mut Vec<u8, A>,
    line: &[u8],
    wrong: &Wrong,
) -> Result<(), AllocError>
    ensures { OnOk result (text.new.items ≡ text.old.items ++ wrong_text line.now wrong.now) }
{
    match *wrong {
        Wrong::NoCommand => text.extend_from_slice(
            b"there is no such command; help lists them all",
        ),
        Wrong::Word(which, mistake) => push_mistake(text, line_word(which, line), mistake),
        Wrong::Operands(verb) => push_pieces(
            text,
            &[
                Piece::Text(split_word(line).word),
                Piece::Text(operands_form(verb)),
            ],
        ),
    }
}

/// Appends the refusal of a line of which a part is in no command's form: which word is wrong, and what would be right.
#[tactic(auto, unfolding(crate::specs::Wrongs::misformed_text))]
pub(crate) fn push_misformed<A: Allocator>(
    text: &mut Vec<u8, A>,
    line: &[u8],
    part: Part,
    wrong: &Wrong,
) -> Result<(), AllocError>
    ensures { OnOk result (text.new.items
        ≡ text.old.items ++ misformed_text line.now part wrong.now) }
{
    text.extend_from_slice(b"? 1 Form: ")?;
    push_wrong(text, part_of(part, line), wrong)?;
    text.extend_from_slice(b"\n")
}
