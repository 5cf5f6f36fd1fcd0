//! A faulty line of a source, with a mark below the part that its fault speaks of.

ghost use Rattle.std.specs.Prelude.{◌≡◌, ◌-◌, ◌++◌, [], OnOk, drop, map, option_map, take};
ghost use Rattle.std.specs.Option.{option_map_or};
ghost use Rattle.lgp_source.specs.Seen.{line_seen, token_seen};
ghost use Rattle.lgp_assembler.specs.Marks.{byte_below, byte_part, shown_line, mark_line, marked_line, marked_text, operands_part, part_of, shown_byte, token_part};

use crate::refusal::FaultKind;
use lgp_source::{Line, Lines, Token};
use std::alloc::{AllocError, Allocator};

/// How many bytes of a line are shown.
const MOST_SHOWN: usize = 200;

/// What comes before a line and before its mark.
const INDENT: &[u8] = b"        ";

/// The span of a token.
fn token_part(token: Option<Token>) -> Option<(usize, usize)>
    ensures { result ≡ token_part (option_map token_seen token.entry) }
{
    let token = token?;
    Some((token.first, token.past))
}

/// From the first operand to the second, if there is one.
fn operands_part(operands: [Option<Token>; 2]) -> Option<(usize, usize)>
    ensures { result ≡ operands_part (map (option_map token_seen) operands.entry) }
{
    match operands {
        [Some(one), Some(two)] => Some((one.first, two.past)),
        [first, _] => token_part(first),
    }
}

/// The span of the byte at a place.
fn byte_part(text: &[u8], place: usize) -> (usize, usize)
    ensures { result ≡ byte_part text.now place }
{
    if place < text.len() {
        (place, place + 1)
    } else {
        (place, place)
    }
}

/// The byte that a line may not have.
fn bad_part(line: &Line) -> Option<(usize, usize)>
    ensures { result ≡ option_map (byte_part line.now.text.now) line.now.bad_byte }
{
    let place = line.bad_byte?;
    Some(byte_part(line.text, place))
}

/// The part of a line that a fault of a kind speaks of: the place of its first byte, and the one after its last.
#[tactic(auto, unfolding(crate::specs::Marks::part_of))]
pub fn part_of(kind: FaultKind, line: &Line) -> Option<(usize, usize)>
    ensures { result ≡ part_of kind (line_seen line.now) }
{
    match kind {
        FaultKind::BadByte => bad_part(line),
        FaultKind::AfterEnd | FaultKind::BadLabel | FaultKind::LabelTwice => {
            token_part(line.label.or(line.operation))
        }
        FaultKind::UnknownOrder
        | FaultKind::MissingOperand
        | FaultKind::PastEnd
        | FaultKind::InLoader
        | FaultKind::PlaceTaken => token_part(line.operation),
        FaultKind::Extra | FaultKind::BadOperand | FaultKind::UnknownName | FaultKind::OutOfRange =>
            operands_part(line.operands),
        FaultKind::NoEnd => None,
    }
}

/// The first bytes: a given number, or all.
fn front_of(bytes: &[u8], count: usize) -> &[u8]
    ensures { result.now ≡ take count bytes.now }
{
    if count < bytes.len() {
        &bytes[..count]
    } else {
        bytes
    }
}

/// What comes after a given number of bytes.
fn rest_of(bytes: &[u8], count: usize) -> &[u8]
    ensures { result.now ≡ drop count bytes.now }
{
    if count < bytes.len() {
        &bytes[count..]
    } else {
        &[]
    }
}

/// A byte as it is shown.
fn shown_byte(byte: u8) -> u8
    ensures { result ≡ shown_byte byte }
{
    if byte == b'\t' || (b' '..=b'~').contains(&byte) {
        byte
    } else {
        b'?'
    }
}

/// What is below a byte that is marked or not.
fn byte_below(marked: bool, byte: u8) -> u8
    ensures { result ≡ byte_below marked byte }
{
    if marked {
        b'^'
    } else if byte == b'\t' {
        b'\t'
    } else {
        b' '
    }
}

/// Appends bytes as they are shown.
fn push_shown<A: Allocator>(text: &mut Vec<u8, A>, bytes: &[u8]) -> Result<(), AllocError>
    ensures { OnOk result (text.new.items ≡ text.old.items ++ map shown_byte bytes.now) }
{
    for byte in bytes {
        text.push(shown_byte(*byte))?;
    }
    Ok(())
}

/// Appends what is below bytes that are marked or not.
fn push_below<A: Allocator>(
    text: &mut Vec<u8, A>,
    marked: bool,
    bytes: &[u8],
) -> Result<(), AllocError>
    ensures { OnOk result (text.new.items ≡ text.old.items ++ map (byte_below marked) bytes.now) }
{
    for byte in bytes {
        text.push(byte_below(marked, *byte))?;
    }
    Ok(())
}

/// Appends a line as it is shown.
fn push_line<A: Allocator>(text: &mut Vec<u8, A>, line: &[u8]) -> Result<(), AllocError>
    ensures { OnOk result (text.new.items ≡ text.old.items ++ shown_line line.now) }
{
    text.extend_from_slice(INDENT)?;
    push_shown(text, front_of(line, MOST_SHOWN))?;
    let end: &[u8] = if MOST_SHOWN < line.len() {
        b" ..\n"
    } else {
        b"\n"
    };
    text.extend_from_slice(end)
}

/// Appends the line of a mark, where the part has a byte.
fn push_mark_line<A: Allocator>(
    text: &mut Vec<u8, A>,
    front: &[u8],
    part: &[u8],
) -> Result<(), AllocError>
    ensures { OnOk result (text.new.items ≡ text.old.items ++ mark_line front.now part.now) }
{
    if part.is_empty() {
        return Ok(());
    }
    text.extend_from_slice(INDENT)?;
    push_below(text, false, front)?;
    push_below(text, true, part)?;
    text.extend_from_slice(b"\n")
}

/// Appends the line of a part's mark.
fn push_mark<A: Allocator>(
    text: &mut Vec<u8, A>,
    part: Option<(usize, usize)>,
    shown: &[u8],
) -> Result<(), AllocError>
    ensures { OnOk result (text.new.items ≡ text.old.items ++ option_map_or (λ it.
        mark_line (take it.0 shown.now) (take (it.1 - it.0) (drop it.0 shown.now))) part []) }
{
    let Some(part) = part else {
        return Ok(());
    };
    push_mark_line(
        text,
        front_of(shown, part.0),
        front_of(rest_of(shown, part.0), part.1.saturating_sub(part.0)),
    )
}

/// Appends a line of a source with its mark.
fn push_marked_line<A: Allocator>(
    text: &mut Vec<u8, A>,
    line: &Line,
    kind: FaultKind,
) -> Result<(), AllocError>
    ensures { OnOk result (text.new.items
        ≡ text.old.items ++ marked_line kind (line_seen line.now)) }
{
    push_line(text, line.text)?;
    push_mark(text, part_of(kind, line), front_of(line.text, MOST_SHOWN))
}

/// Appends a faulty line of a source, and below it a mark under the part that this kind of fault
/// speaks of. The empty text has no line, and nothing is appended for it.
#[tactic(auto, unfolding(crate::specs::Marks::marked_text))]
pub fn push_marked<A: Allocator>(
    text: &mut Vec<u8, A>,
    line: &[u8],
    kind: FaultKind,
) -> Result<(), AllocError>
    ensures { OnOk result (text.new.items ≡ text.old.items ++ marked_text kind line.now) }
{
    match Lines::new(line).next() {
        Some(first) => push_marked_line(text, &first, kind),
        None => Ok(()),
    }
}
