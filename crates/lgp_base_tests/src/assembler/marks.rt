//! A test is a table of lines with the kinds of their faults, and what is shown for each.

use crate::{expect_eq, text_of};
use lgp_assembler::{FaultKind, push_marked};
use std::alloc::{Allocator, Global};

/// A line, the kind of its fault, and what is shown.
type Row = (&'static [u8], FaultKind, &'static [u8]);

static ROWS: [Row; 11] = [
    (
        b" b none",
        FaultKind::UnknownName,
        b"         b none\n           ^^^^\n",
    ),
    (b"9a z", FaultKind::BadLabel, b"        9a z\n        ^^\n"),
    // Below a tab is a tab.
    (
        b"\tb\t0064",
        FaultKind::BadOperand,
        b"        \tb\t0064\n        \t \t^^^^\n",
    ),
    (
        b" z 0000 0001",
        FaultKind::Extra,
        b"         z 0000 0001\n           ^^^^^^^^^\n",
    ),
    // Bytes that no line may have.
    (
        b" z ; caf\xc3\xa9",
        FaultKind::BadByte,
        b"         z ; caf??\n                ^\n",
    ),
    (b"", FaultKind::NoEnd, b""),
    (b" z", FaultKind::NoEnd, b"         z\n"),
    // After the end a label is at fault, or else the operation.
    (
        b"one z",
        FaultKind::AfterEnd,
        b"        one z\n        ^^^\n",
    ),
    (b" z", FaultKind::AfterEnd, b"         z\n         ^\n"),
    (
        b" b 6363+1",
        FaultKind::OutOfRange,
        b"         b 6363+1\n           ^^^^^^\n",
    ),
    (
        b"one z",
        FaultKind::PlaceTaken,
        b"        one z\n            ^\n",
    ),
];

/// Whether this is shown for a line; `None` without memory.
pub fn is_shown<A: Allocator>(
    alloc: A,
    line: &[u8],
    kind: FaultKind,
    wanted: &[u8],
) -> Option<bool> {
    let mut text = Vec::new(alloc);
    match push_marked(&mut text, line, kind) {
        Ok(()) => Some(text.as_slice() == wanted),
        Err(_) => None,
    }
}

/// A text as pieces, with how often each of them comes.
type Pieces = &'static [(&'static [u8], u32)];

/// Long lines with an unknown name, and what is shown of each.
static LONG: [(Pieces, Pieces); 2] = [
    (
        &[(b" b ", 1), (b"a", 300)],
        &[
            (b"         b ", 1),
            (b"a", 197),
            (b" ..\n           ", 1),
            (b"^", 197),
            (b"\n", 1),
        ],
    ),
    (
        &[(b" b", 1), (b" ", 250), (b"none", 1)],
        &[(b"         b", 1), (b" ", 198), (b" ..\n", 1)],
    ),
];

/// Whether of a line with an unknown name this is shown.
fn is_shown_so(alloc: Global, line: Pieces, wanted: Pieces) -> bool {
    match (text_of(alloc, line), text_of(alloc, wanted)) {
        (Some(line), Some(wanted)) => {
            is_shown(alloc, &line, FaultKind::UnknownName, &wanted) == Some(true)
        }
        _ => false,
    }
}

/// Of a line with a name of 300 letters 200 bytes are shown and 197 letters marked. Nothing is
/// marked of an operand after the 200 bytes that are shown.
#[test]
fn faulty_lines_are_marked_and_long_ones_cut(rt: HostRuntime) {
    for (line, kind, wanted) in &ROWS {
        let shown = is_shown(rt.alloc(), line, *kind, wanted);
        expect_eq(&rt, (*line, shown), (*line, Some(true)));
    }
    for (line, wanted) in &LONG {
        expect_eq(&rt, is_shown_so(rt.alloc(), line, wanted), true);
    }
}
