//! Disassembly, listings and dumps.

use crate::assembler::{FIRST_PROGRAM, are_faults};
use crate::expect_eq;
use lgp_assembler::{AssembleError, FaultKind, assemble};
use lgp_drum::Drum;
use lgp_listing::{
    DrumWords, DumpFault, disassemble, listing, listing_from_image, push_cell_line, push_dump,
    read_dump,
};
use lgp_word::{Address, Word, read_digits};
use std::alloc::{AllocError, Allocator, Global};

pub mod dumps;
mod sizes;

const FIRST_LISTING: &[u8] =
    b"0000 0001000j start b one ; take\n0001 000j00j8  h 0050\n0002 00000000  z\n0003 0jjjjjjj one frac .1\n               end start\n";

/// Whether the word of these digits is written so.
fn is_written(digits: &[u8], text: &[u8]) -> bool {
    match read_digits(digits) {
        Some(word) => disassemble(word).as_slice() == text,
        None => false,
    }
}

static WORDS: &[(&[u8], &[u8])] = &[
    (b"800g3w20", b"-t 6308"),
    (b"000g3w20", b"t 6308"),
    (b"00100000", b"word 00100000"),
    (b"80000000", b"word 80000000"),
    (b"00000000", b"z 0000"),
];

#[test]
fn words_as_a_source_has_them(rt: HostRuntime) {
    for (digits, text) in WORDS {
        expect_eq(&rt, (*text, is_written(digits, text)), (*text, true));
    }
}

/// Whether a text is this one.
fn is_text<E: Drop>(text: Result<Vec<u8>, E>, wanted: &[u8]) -> bool {
    match text {
        Ok(text) => text.as_slice() == wanted,
        Err(_) => false,
    }
}

/// Whether a source has this listing.
fn has_listing(alloc: Global, source: &[u8], wanted: &[u8]) -> bool {
    is_text(listing(alloc, source), wanted)
}

/// Whether a source has this listing by its image.
fn has_image_listing(alloc: Global, source: &[u8], wanted: &[u8]) -> bool {
    match assemble(alloc, source) {
        Ok(image) => is_text(listing_from_image(alloc, source, &image), wanted),
        Err(_) => false,
    }
}

#[test]
fn a_listing_of_five_lines_by_source_and_by_image(rt: HostRuntime) {
    let found = [
        has_listing(rt.alloc(), FIRST_PROGRAM, FIRST_LISTING),
        has_image_listing(rt.alloc(), FIRST_PROGRAM, FIRST_LISTING),
    ];
    expect_eq(&rt, found, [true; 2]);
}

/// Whether a source has no listing, for these faults.
fn has_no_listing(alloc: Global, source: &[u8], faults: &[(u64, FaultKind)]) -> bool {
    match listing(alloc, source) {
        Err(AssembleError::Faults(list)) => are_faults(list.faults(), faults),
        _ => false,
    }
}

#[test]
fn a_faulty_source_has_no_listing(rt: HostRuntime) {
    let faults = [(1, FaultKind::UnknownName)];
    let found = has_no_listing(rt.alloc(), b" b none\n end\n", &faults);
    expect_eq(&rt, found, true);
}
