//! What is known of each line of a source, also while it has faults.

use super::*;
use crate::text_of;
use lgp_assembler::{LineSurvey, survey};

/// A source with four faults and words between them.
pub const SURVEYED: &[u8] =
    b"first b two+1 ; begin\n u none\ntwo int 5 30\ntwo z\n h *+1\n x first\nlast z last\n org 6400\n\t; nothing\nover z 0000\n";

/// The place of a line, its word, its fault, the line that its operand names, and the line that had its label before.
pub type Row = (
    Option<u16>,
    Option<u32>,
    Option<FaultKind>,
    [Option<u64>; 2],
);

/// Its lines, and the one that is missing. The order b is number 1, h 12 and u 10; an address has its number four times.
pub fn rows() -> [Row; 11] {
    [
        (Some(0), Some(0x0001_000C), None, [Some(3), None]),
        (Some(1), None, Some(FaultKind::UnknownName), [None, None]),
        (Some(2), Some(10), None, [None, None]),
        (Some(3), None, Some(FaultKind::LabelTwice), [None, Some(3)]),
        (Some(4), Some(0x000C_0014), None, [None, None]),
        (None, None, Some(FaultKind::UnknownOrder), [None, None]),
        (Some(5), Some(0x0000_0014), None, [Some(7), None]),
        (None, None, Some(FaultKind::BadOperand), [None, None]),
        (None, None, None, [None, None]),
        (Some(6), Some(0), None, [None, None]),
        (None, None, Some(FaultKind::NoEnd), [None, None]),
    ]
}

/// The number of a place.
fn number_of(place: Option<Address>) -> Option<u16> {
    match place {
        Some(place) => Some(place.number()),
        None => None,
    }
}

/// The bits of a word.
fn bits_of(word: Option<Word>) -> Option<u32> {
    match word {
        Some(word) => Some(word.get()),
        None => None,
    }
}

/// What is known of a line, as plain values.
fn row_of(known: &LineSurvey) -> Row {
    (
        number_of(known.place),
        bits_of(known.word),
        known.fault,
        [known.declared, known.first],
    )
}

/// The number of the first line of which something else is known, or how many lines there are.
fn first_other(found: &[LineSurvey], wanted: &[Row]) -> usize {
    let mut place = 0usize;
    for known in found {
        match wanted.get(place) {
            Some(row) if row_of(known) == *row => {}
            _ => return place,
        }
        place = place.saturating_add(1);
    }
    place
}

/// Whether this is known of a source; `None` where memory is refused.
pub fn is_surveyed<A: Allocator + Copy>(alloc: A, source: &[u8], wanted: &[Row]) -> Option<bool> {
    match survey(alloc, source) {
        Ok(found) => Some(
            found.len() == wanted.len() && first_other(&found, wanted) == found.len(),
        ),
        Err(_) => None,
    }
}

/// How many lines of a source are known, and how many of them have a fault; `None` where memory is refused.
fn counted(alloc: Global, source: &[u8]) -> Option<(usize, usize)> {
    match survey(alloc, source) {
        Ok(found) => Some((found.len(), faulty(&found))),
        Err(_) => None,
    }
}

fn faulty(found: &[LineSurvey]) -> usize {
    let mut faulty = 0usize;
    for known in found {
        if known.fault.is_some() {
            faulty = faulty.saturating_add(1);
        }
    }
    faulty
}

/// The same of 349,525 lines of two letters, each an operation that there is not.
fn counted_of_many(alloc: Global) -> Option<(usize, usize)> {
    match text_of(alloc, &[(b" x\n", 349_525)]) {
        Some(source) => counted(alloc, &source),
        None => None,
    }
}

#[test]
fn lines_are_known_beside_faults(rt: HostRuntime) {
    let rows = rows();
    let found = (
        is_surveyed(rt.alloc(), SURVEYED, &rows),
        is_surveyed(rt.alloc(), b"", &rows[10..]),
        counted_of_many(rt.alloc()),
    );
    expect_eq(
        &rt,
        found,
        (Some(true), Some(true), Some((349_526, 349_526))),
    );
}
