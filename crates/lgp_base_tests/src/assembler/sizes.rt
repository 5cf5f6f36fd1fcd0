//! The largest program, the largest source, and one of a thousand names.

use super::*;
use crate::text_of;

/// A source of 4,074 words, each of which is four times its place: all places before the loader's
/// and all after it.
pub static FULL_SOURCE: [(&[u8], u32); 4] = [
    (b" z *\n", 4032),
    (b" org 6322\n", 1),
    (b" z *\n", 42),
    (b" end\n", 1),
];

/// How many words are not four times their place.
fn odd_words(cells: &[(Address, Word)]) -> usize {
    let mut odd = 0usize;
    for (place, word) in cells {
        if word.get() != 4 * u32::from(place.number()) {
            odd = odd.saturating_add(1);
        }
    }
    odd
}

/// How many words the largest program has, and how many of them are odd; `None` where it does not assemble.
fn full(alloc: Global) -> Option<[usize; 2]> {
    let source = text_of(alloc, &FULL_SOURCE)?;
    match assemble(alloc, source.as_slice()) {
        Ok(image) => Some([image.cells().len(), odd_words(image.cells())]),
        Err(_) => None,
    }
}

#[test]
fn a_program_of_all_places_but_the_loaders(rt: HostRuntime) {
    expect_eq(&rt, full(rt.alloc()), Some([4074, 0]));
}

/// Lines of 64 bytes: a comment, one with a label that is no name, and the last one.
const COMMENT: &[u8] = b"; a line of sixty-four bytes with its line feed ---------------\n";

const BAD_LABEL: &[u8] = b"9 ; a line of sixty-four bytes with its line feed -------------\n";

const END: &[u8] = b" end ; ---------------------------------------------------------";

/// How many faults there are, and the last one's line, or 0.
fn last_of(faults: &[Fault]) -> (usize, u64) {
    match faults.last() {
        Some(fault) => (faults.len(), fault.line),
        None => (0, 0),
    }
}

/// How many words a source has, or how many faults and the last one's line; none where memory is
/// refused.
fn outcome(alloc: Global, source: &[u8]) -> Option<Result<usize, (usize, u64)>> {
    match assemble(alloc, source) {
        Ok(image) => Some(Ok(image.cells().len())),
        Err(AssembleError::Faults(list)) => Some(Err(last_of(list.faults()))),
        Err(AssembleError::Memory) => None,
    }
}

/// How long a source of 16,383 such lines and the last one is, and what it assembles to.
type Long = (usize, Option<Result<usize, (usize, u64)>>);

fn long_outcome(alloc: Global, line: &[u8]) -> Long {
    match text_of(alloc, &[(line, 16_383), (END, 1)]) {
        Some(source) => (source.len(), outcome(alloc, &source)),
        None => (0, None),
    }
}

#[test]
fn a_source_of_1048576_bytes(rt: HostRuntime) {
    let found = [
        long_outcome(rt.alloc(), COMMENT),
        long_outcome(rt.alloc(), BAD_LABEL),
    ];
    let wanted = [
        (1_048_576, Some(Ok(0))),
        (1_048_576, Some(Err((16_383, 16_383)))),
    ];
    expect_eq(&rt, found, wanted);
}

/// Appends a thousand words, each with a name of three digits and the name of another one, that with each digit taken from 9; and the
/// end. False without memory.
pub fn are_named(source: &mut Vec<u8>) -> bool {
    for number in 0..1000u16 {
        let mut line = *b"n000 z n999\n";
        let digits = [number / 100 % 10, number / 10 % 10, number % 10];
        for place in 0..3usize {
            let digit = digits[place] as u8;
            line[place + 1] = b'0'.saturating_add(digit);
            line[place + 8] = b'9'.saturating_sub(digit);
        }
        if source.extend_from_slice(&line).is_err() {
            return false;
        }
    }
    source.extend_from_slice(b" end\n").is_ok()
}

/// How many words name the place that is as far from the end as theirs from the start, with a name for their own.
fn well_named(cells: &[(Address, Word)], symbols: &[(Name, u16)]) -> usize {
    let mut count = 0usize;
    for (address, word) in cells {
        let place = address.number();
        let named = 4 * u32::from(999u16.saturating_sub(place));
        match symbols.get(usize::from(place)) {
            Some(symbol) if word.get() == named && symbol.1 == place => {
                count = count.saturating_add(1);
            }
            _ => {}
        }
    }
    count
}

/// How many words and names a source has, and how many of them are right.
fn named(alloc: Global, source: &[u8]) -> Option<[usize; 3]> {
    match assemble(alloc, source) {
        Ok(image) => {
            let (cells, symbols) = (image.cells(), image.symbols());
            Some([cells.len(), symbols.len(), well_named(cells, symbols)])
        }
        Err(_) => None,
    }
}

/// The same of a source of a thousand words, of which the first names the last.
fn thousand_named(alloc: Global) -> Option<[usize; 3]> {
    let mut source = Vec::new(alloc);
    if are_named(&mut source) {
        named(alloc, source.as_slice())
    } else {
        None
    }
}

#[test]
fn a_source_of_a_thousand_names(rt: HostRuntime) {
    expect_eq(&rt, thousand_named(rt.alloc()), Some([1000; 3]));
}
