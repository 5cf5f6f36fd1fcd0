//! What is said of a file that is refused or kept, and where a line comes from.

ghost use Rattle.std.specs.Prelude.{◌≡◌, ◌++◌, IfOk, OnOk, codes, decimal};
ghost use Rattle.lgp_desk.specs.Desk.{within};
ghost use Rattle.lgp_desk.specs.Troubles.{counted_trouble, fixed_trouble, kept_text, line_note, trouble_text};

use crate::files::FileTrouble;
use lgp_text::{Piece, push_pieces};
use std::alloc::{AllocError, Allocator};

/// Appends which place of a file, in which line, is no sign of a tape.
fn push_bad_sign<A: Allocator>(
    text: &mut Vec<u8, A>,
    place: u64,
    line: u64,
) -> Result<(), AllocError>
    ensures { OnOk result (text.new.items ≡ text.old.items
        ++ counted_trouble (FileTrouble.BadSign place line)) }
{
    push_pieces(
        text,
        &[
            Piece::Text(b"the byte at place "),
            Piece::Number(place),
            Piece::Text(b", counting from 0, in line "),
            Piece::Number(line),
            Piece::Text(b", does not begin a tape sign"),
        ],
    )
}

/// Appends a number between two texts.
fn push_between<A: Allocator>(
    text: &mut Vec<u8, A>,
    front: &'static [u8],
    number: u64,
    end: &'static [u8],
) -> Result<(), AllocError>
    ensures { OnOk result (text.new.items
        ≡ text.old.items ++ (front.now ++ (decimal number ++ end.now))) }
{
    push_pieces(
        text,
        &[Piece::Text(front), Piece::Number(number), Piece::Text(end)],
    )
}

/// Why a file is refused, where no number says it.
fn fixed_trouble(trouble: FileTrouble) -> &'static [u8]
    ensures { result.now ≡ fixed_trouble trouble }
{
    match trouble {
        FileTrouble::NotOpened => b"it cannot be opened",
        FileTrouble::NotRead => b"it cannot be read",
        FileTrouble::TooLong => b"it has more than 16777216 bytes",
        FileTrouble::NotNamed => b"this is not a file name",
        FileTrouble::TooDeep => b"16 files are already open, each from the one before",
        FileTrouble::HasPoint => b"a line with only a point would end the source",
        FileTrouble::BadSign(_, _)
        | FileTrouble::NoCode(_)
        | FileTrouble::BadLine(_)
        | FileTrouble::LowAddress(_) => b"",
        FileTrouble::LongTape => b"it has more than 1048576 codes",
        FileTrouble::NotWritten => b"it cannot be written, and is unchanged",
    }
}

/// Appends what numbers say of a refused file.
fn push_counted_trouble<A: Allocator>(
    text: &mut Vec<u8, A>,
    trouble: FileTrouble,
) -> Result<(), AllocError>
    ensures { OnOk result (text.new.items ≡ text.old.items ++ counted_trouble trouble) }
{
    match trouble {
        FileTrouble::BadSign(place, line) => push_bad_sign(text, place, line),
        FileTrouble::NoCode(place) => push_between(
            text,
            b"the byte at place ",
            place,
            b", counting from 0, is above 63",
        ),
        FileTrouble::BadLine(line) => push_between(
            text,
            b"line ",
            line,
            b" is not a word in the form that SIMH shows or accepts",
        ),
        FileTrouble::LowAddress(line) => push_between(
            text,
            b"the address of line ",
            line,
            b" is not above that of the line before it",
        ),
        _ => Ok(()),
    }
}

/// Appends why a file is refused.
fn push_reason<A: Allocator>(text: &mut Vec<u8, A>, trouble: FileTrouble) -> Result<(), AllocError>
    ensures { OnOk result (text.new.items ≡ text.old.items
        ++ (fixed_trouble trouble ++ counted_trouble trouble)) }
{
    text.extend_from_slice(fixed_trouble(trouble))?;
    push_counted_trouble(text, trouble)
}

/// Appends the front of the refusal of a file.
fn push_front<A: Allocator>(text: &mut Vec<u8, A>, name: &[u8]) -> Result<(), AllocError>
    ensures { OnOk result (text.new.items ≡ text.old.items
        ++ (codes "? 13 File " ++ (name.now ++ codes ": "))) }
{
    push_pieces(
        text,
        &[
            Piece::Text(b"? 13 File "),
            Piece::Text(name),
            Piece::Text(b": "),
        ],
    )
}

/// Appends the refusal of a file.
#[tactic(auto, unfolding(crate::specs::Troubles::trouble_text))]
pub(crate) fn push_trouble<A: Allocator>(
    text: &mut Vec<u8, A>,
    name: &[u8],
    trouble: FileTrouble,
) -> Result<(), AllocError>
    ensures { OnOk result (text.new.items ≡ text.old.items ++ trouble_text name.now trouble) }
{
    push_front(text, name)?;
    push_reason(text, trouble)?;
    text.extend_from_slice(b"\n")
}

/// Appends that something was kept.
#[tactic(auto, unfolding(crate::specs::Troubles::kept_text))]
pub(crate) fn push_kept<A: Allocator>(text: &mut Vec<u8, A>, name: &[u8]) -> Result<(), AllocError>
    ensures { OnOk result (text.new.items ≡ text.old.items ++ kept_text name.now) }
{
    push_pieces(
        text,
        &[
            Piece::Text(b"saved "),
            Piece::Text(name),
            Piece::Text(b"\n"),
        ],
    )
}

/// That a line is this one of a file.
#[tactic(auto, unfolding(crate::specs::Troubles::line_note))]
pub(crate) fn line_note<A: Allocator>(
    alloc: A,
    number: u64,
    name: &[u8],
) -> Result<Vec<u8, A>, AllocError>
    ensures { IfOk result (λ note. note.items ≡ line_note number name.now) }
{
    let mut note = Vec::new(alloc);
    push_pieces(
        &mut note,
        &[
            Piece::Text(b"line "),
            Piece::Number(number),
            Piece::Text(b" of "),
            Piece::Text(name),
        ],
    )?;
    Ok(note)
}

/// Where lines come from that a line names which comes from there itself.
#[tactic(auto, unfolding(crate::specs::Desk::within))]
pub(crate) fn note_within<A: Allocator>(
    alloc: A,
    name: &[u8],
    note: &[u8],
) -> Result<Vec<u8, A>, AllocError>
    ensures { IfOk result (λ text. text.items ≡ within name.now note.now) }
{
    let mut text = Vec::new(alloc);
    text.extend_from_slice(name)?;
    if note.is_empty() {
        return Ok(text);
    }
    text.extend_from_slice(b", ")?;
    text.extend_from_slice(note)?;
    Ok(text)
}
