//! Calls with each growth refused in turn: each time the answer is that there is no memory, and at last it is what there is with
//! ample memory.

use crate::assembler::{FAULTY_SOURCE, FIRST_PROGRAM, OPERATIONS, are_named, marks, surveys};
use crate::exchange::{codes_of, drums, paper_of};
use crate::listing::dumps;
use crate::{expect_eq, in_turn};
use lgp_assembler::{AssembleError, Fault, FaultKind, Image, assemble};
use lgp_drum::Drum;
use lgp_exchange::{
    BytesFault, ExaminedFault, deposits_of, read_examined, read_tape_bytes, tape_bytes,
    write_archive_text,
};
use lgp_flexo::Code;
use lgp_limited::Limited;
use lgp_listing::{DumpFault, dump, listing, read_dump};
use lgp_word::Address;
use std::alloc::{AllocError, Allocator, Global};

/// In which form a drum or codes are written.
#[derive(Clone, Copy)]
pub enum Made<'a> {
    /// The dump of a drum.
    Dump(&'a Drum),
    /// The deposits of a drum.
    Deposits(&'a Drum),
    /// A tape as the text of an archive.
    Archive(&'a [Code]),
    /// A tape as bytes.
    Bytes(&'a [Code]),
    /// The paper of printed codes.
    Paper(&'a [Code]),
}

/// A drum or codes in this form.
fn written<A: Allocator + Copy>(alloc: A, form: Made) -> Result<Vec<u8, A>, AllocError> {
    match form {
        Made::Dump(drum) => dump(alloc, drum),
        Made::Deposits(drum) => deposits_of(alloc, drum),
        Made::Archive(codes) => write_archive_text(alloc, codes),
        Made::Bytes(codes) => tape_bytes(alloc, codes),
        Made::Paper(codes) => paper_of(alloc, codes),
    }
}

/// Whether words, start and the number of names are those of a source with ample memory.
fn same_image<A: Allocator>(found: &Image<A>, ample: &Result<Image, AssembleError>) -> bool {
    match ample {
        Ok(wanted) => {
            let are_same = [
                found.cells() == wanted.cells(),
                found.start() == wanted.start(),
                found.symbols().len() == wanted.symbols().len(),
            ];
            are_same == [true; 3]
        }
        Err(_) => false,
    }
}

/// Whether a text is that of a listing with ample memory.
fn same_text(found: &[u8], ample: &Result<Vec<u8>, AssembleError>) -> bool {
    match ample {
        Ok(wanted) => found == wanted.as_slice(),
        Err(_) => false,
    }
}

/// Whether faults are those of a source with ample memory.
fn same_faults<T>(found: &[Fault], ample: &Result<T, AssembleError>) -> bool {
    match ample {
        Err(AssembleError::Faults(wanted)) => found == wanted.faults(),
        _ => false,
    }
}

// Whether a call answers as with ample memory; `None` where it says that there is no memory.

fn is_assembled<A: Allocator + Copy>(
    alloc: A,
    source: &[u8],
    ample: &Result<Image, AssembleError>,
) -> Option<bool> {
    match assemble(alloc, source) {
        Ok(image) => Some(same_image(&image, ample)),
        Err(AssembleError::Faults(list)) => Some(same_faults(list.faults(), ample)),
        Err(AssembleError::Memory) => None,
    }
}

fn is_listed_so<A: Allocator + Copy>(
    alloc: A,
    source: &[u8],
    ample: &Result<Vec<u8>, AssembleError>,
) -> Option<bool> {
    match listing(alloc, source) {
        Ok(text) => Some(same_text(text.as_slice(), ample)),
        Err(AssembleError::Faults(list)) => Some(same_faults(list.faults(), ample)),
        Err(AssembleError::Memory) => None,
    }
}

pub fn is_written<A: Allocator + Copy>(alloc: A, form: Made, ample: &[u8]) -> Option<bool> {
    match written(alloc, form) {
        Ok(bytes) => Some(bytes.as_slice() == ample),
        Err(_) => None,
    }
}

pub fn is_dumped_drum<A: Allocator + Copy>(alloc: A, text: &[u8], ample: &Drum) -> Option<bool> {
    match read_dump(alloc, text) {
        Ok(drum) => Some(same_words(&drum, ample)),
        Err(DumpFault::Memory) => None,
        Err(_) => Some(false),
    }
}

pub fn is_examined_drum<A: Allocator + Copy>(alloc: A, text: &[u8], ample: &Drum) -> Option<bool> {
    match read_examined(alloc, text) {
        Ok(drum) => Some(same_words(&drum, ample)),
        Err(ExaminedFault::Memory) => None,
        Err(_) => Some(false),
    }
}

pub fn is_tape_of_bytes<A: Allocator>(alloc: A, bytes: &[u8], ample: &[Code]) -> Option<bool> {
    match read_tape_bytes(alloc, bytes) {
        Ok(codes) => Some(codes.as_slice() == ample),
        Err(BytesFault::Memory(_)) => None,
        Err(_) => Some(false),
    }
}

/// Whether two drums have the same words.
pub fn same_words<A: Allocator, B: Allocator>(drum: &Drum<A>, other: &Drum<B>) -> bool {
    for number in 0..4096 {
        let place = Address::new(number).unwrap_or_default();
        if drum.word(place) != other.word(place) {
            return false;
        }
    }
    true
}

/// How many growths the assembly of a source has, or its listing.
fn growths_of<B: Allocator>(
    limited: &Limited<B>,
    global: Global,
    (is_listed, source): (bool, &[u8]),
) -> u64 {
    if is_listed {
        let ample = listing(global, source);
        in_turn(limited, || is_listed_so(limited, source, &ample))
    } else {
        let ample = assemble(global, source);
        in_turn(limited, || is_assembled(limited, source, &ample))
    }
}

/// Sources, whether they are listed or assembled, and growths that each has at least. The marks of the places that are taken, the
/// names of the lines, the words, the names of the image, the faults and the text of a listing take memory, each where there is one of
/// them; the last source's only fault is reported after its lines. The fourth source has words and names before its fault, which are
/// of no use then.
static SOURCES: [(bool, &[u8], u64); 10] = [
    (false, FIRST_PROGRAM, 4),
    (false, OPERATIONS, 4),
    (false, FAULTY_SOURCE, 5),
    (false, b"one z\ntwo b one\n q\n end\n", 5),
    (false, b" end", 1),
    (false, b"", 2),
    (true, FIRST_PROGRAM, 5),
    (true, b" end", 2),
    (true, b"x b none\nx q 0000\n end\n", 3),
    (true, b"", 2),
];

/// Whether the assembly of a thousand words has at least seven growths, and how many blocks are out at last.
fn growths_of_words(global: Global) -> (bool, u64) {
    let mut source = Vec::new(global);
    let are_named = are_named(&mut source);
    let limited = Limited::new(global);
    let found = growths_of(&limited, global, (false, source.as_slice()));
    (are_named && found >= 7, limited.blocks_out())
}

/// The thousand words, their names and the table of names grow more than once each.
#[test]
fn each_growth_of_an_assembly_and_of_a_listing_is_refused(rt: HostRuntime) {
    let limited = Limited::new(rt.alloc());
    for (is_listed, source, least) in &SOURCES {
        let found = growths_of(&limited, rt.alloc(), (*is_listed, source));
        let seen = (*source, found >= *least, limited.blocks_out());
        expect_eq(&rt, seen, (*source, true, 0));
    }
    expect_eq(&rt, growths_of_words(rt.alloc()), (true, 0));
}

/// How many growths a survey has, and how many blocks are out at last. The marks of the places that are taken, the names with their
/// places and with their lines, and the lines take memory.
fn growths_of_survey(global: Global) -> (bool, u64) {
    let limited = Limited::new(global);
    let rows = surveys::rows();
    let found = in_turn(
        &limited,
        || surveys::is_surveyed(&limited, surveys::SURVEYED, &rows),
    );
    (found >= 4, limited.blocks_out())
}

#[test]
fn each_growth_of_a_survey_is_refused(rt: HostRuntime) {
    expect_eq(&rt, growths_of_survey(rt.alloc()), (true, 0));
}

/// Whether the dump of a drum and the drum read from it have growths.
fn growths_of_dump<B: Allocator>(limited: &Limited<B>, drum: &Drum, text: &[u8]) -> [bool; 2] {
    [
        in_turn(limited, || is_written(limited, Made::Dump(drum), text)) >= 1,
        in_turn(limited, || is_dumped_drum(limited, text, drum)) >= 1,
    ]
}

/// Whether the deposits of a drum have more growths than one, and the drum read from them has one.
fn growths_of_deposits<B: Allocator>(limited: &Limited<B>, drum: &Drum, text: &[u8]) -> [bool; 2] {
    [
        in_turn(limited, || is_written(limited, Made::Deposits(drum), text)) > 1,
        in_turn(limited, || is_examined_drum(limited, text, drum)) == 1,
    ]
}

/// How long both texts of a drum are, the same of them, and how many blocks are out at last.
type Texts = ([usize; 2], [[bool; 2]; 2], u64);

fn growths_of_texts(global: Global, drum: &Drum) -> Option<Texts> {
    let (dumped, deposited) = (dump(global, drum).ok()?, deposits_of(global, drum).ok()?);
    let limited = Limited::new(global);
    let found = [
        growths_of_dump(&limited, drum, dumped.as_slice()),
        growths_of_deposits(&limited, drum, deposited.as_slice()),
    ];
    let lengths = [dumped.len(), deposited.len()];
    Some((lengths, found, limited.blocks_out()))
}

/// The same of a drum without a word of zeros.
fn growths_of_full_drum(global: Global) -> Option<Texts> {
    let drum = drums::full_drum(global)?;
    growths_of_texts(global, &drum)
}

/// A line of a dump has 14 bytes, and a deposit 20.
#[test]
fn each_growth_over_a_full_drum_is_refused(rt: HostRuntime) {
    let wanted = ([4096 * 14, 4096 * 20], [[true; 2]; 2], 0);
    expect_eq(&rt, growths_of_full_drum(rt.alloc()), Some(wanted));
}

/// Whether the text of a tape of a hundred zeros has more growths than one, its bytes and the tape read from these have one each, the
/// mark of a line has more than one, and the paper of a row with a tab and many signs more than five.
fn growths_of_codes<B: Allocator>(limited: &Limited<B>, tape: &[Code], row: &[Code]) -> [bool; 5] {
    let marked = b"         b none\n           ^^^^\n";
    let mut paper = [b'a'; 100];
    paper[..8].copy_from_slice(b"        ");
    [
        in_turn(
            limited,
            || is_written(limited, Made::Archive(tape), &[b'0'; 100]),
        ) > 1,
        in_turn(
            limited,
            || is_written(limited, Made::Bytes(tape), &[2; 100]),
        ) == 1,
        in_turn(limited, || is_tape_of_bytes(limited, &[2; 100], tape)) == 1,
        in_turn(
            limited,
            || marks::is_shown(limited, b" b none", FaultKind::UnknownName, marked),
        ) > 1,
        in_turn(limited, || is_written(limited, Made::Paper(row), &paper)) > 5,
    ]
}

/// The same, and how many blocks are out at last.
fn growths_of_tape_and_row(global: Global) -> Option<([bool; 5], u64)> {
    let mut row = [57; 93];
    row[0] = 24;
    let (tape, row) = (codes_of(global, &[2; 100])?, codes_of(global, &row)?);
    let limited = Limited::new(global);
    let found = growths_of_codes(&limited, tape.as_slice(), row.as_slice());
    Some((found, limited.blocks_out()))
}

#[test]
fn each_growth_over_codes_is_refused(rt: HostRuntime) {
    expect_eq(
        &rt,
        growths_of_tape_and_row(rt.alloc()),
        Some(([true; 5], 0)),
    );
}
