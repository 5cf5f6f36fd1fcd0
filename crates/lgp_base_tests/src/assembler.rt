//! Sources with the words, names and faults that they have.

use crate::expect_eq;
use lgp_assembler::{
    AssembleError, Fault, FaultKind, Image, LOADER_PLACES, Name, assemble, has_word,
};
use lgp_source::Lines;
use lgp_word::{Address, Word, read_digits};
use std::alloc::{AllocError, Allocator, Global};

pub mod marks;
mod patches;
mod sizes;
pub mod surveys;

pub use sizes::{FULL_SOURCE, are_named};

pub const FIRST_PROGRAM: &[u8] = b"start b one ; take\n h 0050\n z\none frac .1\n end start\n";

const FIRST_SYMBOLS: &[(&[u8], u16)] = &[(b"start", 0), (b"one", 3)];

pub const FAULTY_SOURCE: &[u8] =
    b" org 6304\n b 0100\na org 0100\n z\n org 0100\n z\n q 0000\n b\n b none\n b 6363+1\na z\n9a z\n z 0 0\n word 00000001\n end\n z\n";

pub const OPERATIONS: &[u8] =
    b" int 5 10\n int -1 0\n p =a\n -t 6308\n u *+2\n p\n word 7wwwwwwq\n frac -1.0\n i\n c x-1\nx h *\n end";

/// The digits of an address and of its word.
type Cell = ([u8; 4], [u8; 8]);

/// What a source without faults assembles to: its words with their places, its start and its names.
#[derive(Clone, Copy)]
struct Wanted<'a> {
    cells: &'a [Cell],
    start: Option<&'a [u8]>,
    symbols: &'a [(&'a [u8], u16)],
}

/// The address of a text.
fn address(text: Option<&[u8]>) -> Option<Address> {
    match text {
        Some(text) => Address::parse(text),
        None => None,
    }
}

/// Whether a cell has this address and these digits.
fn is_cell(cell: &(Address, Word), address: &[u8], digits: &[u8]) -> bool {
    Some(cell.0) == Address::parse(address) && Some(cell.1) == read_digits(digits)
}

/// Whether cells have these addresses and digits.
fn are_cells(cells: &[(Address, Word)], wanted: &[Cell]) -> bool {
    let mut place = 0usize;
    for (address, digits) in wanted {
        match cells.get(place) {
            Some(cell) if is_cell(cell, address, digits) => {}
            _ => return false,
        }
        place = place.saturating_add(1);
    }
    cells.len() == wanted.len()
}

/// Whether a name and its value are these.
fn is_symbol(symbol: &(Name, u16), name: &[u8], value: u16) -> bool {
    symbol.0.bytes() == name && symbol.1 == value
}

/// Whether names and values are these.
fn are_symbols(symbols: &[(Name, u16)], wanted: &[(&[u8], u16)]) -> bool {
    let mut place = 0usize;
    for (name, value) in wanted {
        match symbols.get(place) {
            Some(symbol) if is_symbol(symbol, name, *value) => {}
            _ => return false,
        }
        place = place.saturating_add(1);
    }
    symbols.len() == wanted.len()
}

/// Whether a source assembles to these words, this start and these names.
fn assembles_to(alloc: Global, source: &[u8], wanted: &Wanted) -> [bool; 3] {
    match assemble(alloc, source) {
        Ok(image) => [
            are_cells(image.cells(), wanted.cells),
            image.start() == address(wanted.start),
            are_symbols(image.symbols(), wanted.symbols),
        ],
        Err(_) => [false; 3],
    }
}

/// Whether faults have these lines and kinds.
pub fn are_faults(faults: &[Fault], wanted: &[(u64, FaultKind)]) -> bool {
    let mut place = 0usize;
    for (line, kind) in wanted {
        match faults.get(place) {
            Some(fault) if fault.line == *line && fault.kind == *kind => {}
            _ => return false,
        }
        place = place.saturating_add(1);
    }
    faults.len() == wanted.len()
}

/// Whether a source has exactly these faults, or is assembled where there are none.
fn has_faults(alloc: Global, source: &[u8], wanted: &[(u64, FaultKind)]) -> bool {
    match assemble(alloc, source) {
        Err(AssembleError::Faults(list)) => are_faults(list.faults(), wanted),
        Err(AssembleError::Memory) => false,
        Ok(_) => wanted.is_empty(),
    }
}

const FIRST_IMAGE: Wanted = Wanted {
    cells: &[
        (*b"0000", *b"0001000j"),
        (*b"0001", *b"000j00j8"),
        (*b"0002", *b"00000000"),
        (*b"0003", *b"0jjjjjjj"),
    ],
    start: Some(b"0000"),
    symbols: FIRST_SYMBOLS,
};

const OPERATION_IMAGE: Wanted = Wanted {
    cells: &[
        (*b"0000", *b"00f00000"),
        (*b"0001", *b"80000000"),
        (*b"0002", *b"00083900"),
        (*b"0003", *b"800g3w20"),
        (*b"0004", *b"000f0018"),
        (*b"0005", *b"00080000"),
        (*b"0006", *b"7wwwwwwq"),
        (*b"0007", *b"80000000"),
        (*b"0008", *b"00040000"),
        (*b"0009", *b"000k0024"),
        (*b"0010", *b"000j0028"),
    ],
    start: None,
    symbols: &[(b"x", 10)],
};

const EMPTY_IMAGE: Wanted = Wanted {
    cells: &[],
    start: None,
    symbols: &[],
};

/// A name of a place past the drum.
const PAST_IMAGE: Wanted = Wanted {
    cells: &[(*b"6363", *b"00000000")],
    start: Some(b"6363"),
    symbols: &[(b"past", 4096)],
};

/// A word at the place before the loader's, and one at the place after it.
const BESIDE_LOADER: Wanted = Wanted {
    cells: &[(*b"6263", *b"00000000"), (*b"6322", *b"00000000")],
    start: None,
    symbols: &[],
};

static SOURCES: [(&[u8], Wanted); 5] = [
    (FIRST_PROGRAM, FIRST_IMAGE),
    (OPERATIONS, OPERATION_IMAGE),
    (b" end", EMPTY_IMAGE),
    (b" org 6363\n z\npast end past-1\n; nothing\n\n", PAST_IMAGE),
    (b" org 6263\n z\n org 6322\n z\n end\n", BESIDE_LOADER),
];

#[test]
fn sources_without_faults(rt: HostRuntime) {
    for (source, wanted) in &SOURCES {
        let right = assembles_to(rt.alloc(), source, wanted);
        expect_eq(&rt, (*source, right), (*source, [true; 3]));
    }
}

static FAULTS_IN_ORDER: &[(u64, FaultKind)] = &[
    (2, FaultKind::InLoader),
    (6, FaultKind::PlaceTaken),
    (7, FaultKind::UnknownOrder),
    (8, FaultKind::MissingOperand),
    (9, FaultKind::UnknownName),
    (10, FaultKind::OutOfRange),
    (11, FaultKind::LabelTwice),
    (12, FaultKind::BadLabel),
    (13, FaultKind::Extra),
    (14, FaultKind::BadOperand),
    (16, FaultKind::AfterEnd),
];

/// Sources with one fault each, its line and its kind.
static ONE_FAULT: [(&[u8], u64, FaultKind); 19] = [
    (b"", 1, FaultKind::NoEnd),
    (b" z\n z", 3, FaultKind::NoEnd),
    (b" org 6363\n z\n z\n end", 3, FaultKind::PastEnd),
    (b" z\x80\n end", 1, FaultKind::BadByte),
    (b" int 1 0\n end", 1, FaultKind::OutOfRange),
    (b" int 1 31\n end", 1, FaultKind::BadOperand),
    (b" int 12345678901 0\n end", 1, FaultKind::BadOperand),
    (b" frac 1.0\n end", 1, FaultKind::OutOfRange),
    (b" frac 1\n end", 1, FaultKind::BadOperand),
    (b" b =a\n end", 1, FaultKind::BadOperand),
    (b" p =aa\n end", 1, FaultKind::BadOperand),
    (b"x b x+\n end", 1, FaultKind::BadOperand),
    (b"x b x+12345\n end", 1, FaultKind::BadOperand),
    (b" b 0000-1\n end", 1, FaultKind::OutOfRange),
    (b"abcdefghi z\n end", 1, FaultKind::BadLabel),
    (b"aB z\n end", 1, FaultKind::BadLabel),
    (b" org 6300\n z\n end\n", 2, FaultKind::InLoader),
    (b" org 6310\n z\n end\n", 2, FaultKind::InLoader),
    (b" org 6321\n z\n end\n", 2, FaultKind::InLoader),
];

#[test]
fn sources_with_faults(rt: HostRuntime) {
    for (source, line, kind) in &ONE_FAULT {
        let found = has_faults(rt.alloc(), source, &[(*line, *kind)]);
        expect_eq(&rt, (*source, found), (*source, true));
    }
    let late = [(1, FaultKind::UnknownName), (3, FaultKind::AfterEnd)];
    let none = [(1, FaultKind::BadByte), (2, FaultKind::NoEnd)];
    let found = [
        has_faults(rt.alloc(), FAULTY_SOURCE, FAULTS_IN_ORDER),
        has_faults(rt.alloc(), b" b late\n end\nlate z", &late),
        has_faults(rt.alloc(), b" end\x80", &none),
    ];
    expect_eq(&rt, found, [true; 3]);
}

/// Whether the next line makes a word; `None` where there is none.
fn next_has_word(lines: &mut Lines) -> Option<bool> {
    match lines.next() {
        Some(line) => Some(has_word(&line)),
        None => None,
    }
}

#[test]
fn lines_that_make_words(rt: HostRuntime) {
    let mut lines = Lines::new(b"a z 1 2 3\n org 0100\nlabel\n end\n");
    let found = [
        next_has_word(&mut lines),
        next_has_word(&mut lines),
        next_has_word(&mut lines),
        next_has_word(&mut lines),
    ];
    let wanted = [Some(true), Some(false), Some(false), Some(false)];
    expect_eq(&rt, found, wanted);
}

/// From 6300 to 6321: tracks of 64 words.
#[test]
fn places_that_the_loader_keeps(rt: HostRuntime) {
    let found = [LOADER_PLACES.start, LOADER_PLACES.end - 1];
    expect_eq(&rt, found, [63 * 64, 63 * 64 + 21]);
}

/// Whether a kind is shown so after its line.
fn is_shown_as(alloc: Global, kind: FaultKind, wanted: &str) -> bool {
    match format!(in alloc; "line 7 {kind}") {
        Ok(text) => text.as_str() == wanted,
        Err(_) => false,
    }
}

#[test]
fn kinds_print_their_names(rt: HostRuntime) {
    let found = is_shown_as(
        rt.alloc(),
        FaultKind::MissingOperand,
        "line 7 MissingOperand",
    );
    expect_eq(&rt, found, true);
}
