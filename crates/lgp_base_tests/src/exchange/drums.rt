//! Drums as SIMH's deposits, and as it shows them.

use super::*;
use crate::drum::{Cell, put_all};
use crate::growths::{Made, is_examined_drum, is_written};
use crate::text_of;
use lgp_drum::Drum;
use lgp_limited::Limited;

/// A drum with these words and zeros; `None` without memory.
pub fn drum_of(global: Global, cells: &[Cell]) -> Option<Drum> {
    let mut drum = Drum::new(global).ok()?;
    put_all(&mut drum, cells);
    Some(drum)
}

/// Words at the drum's ends and between, with each digit.
const CELLS: [Cell; 4] = [
    (0, 0x0123_4566),
    (1, 2),
    (114, 0x89ab_cdee),
    (4095, 0xffff_fffe),
];

/// The deposits of these words.
const DEPOSITS: &[u8] =
    b"d -lt 0000 01234566\nd -lt 0001 00000002\nd -lt 0150 89fgjkqq\nd -lt 6363 wwwwwwwq\n";

/// Whether a drum of these words has these deposits.
fn has_deposits(global: Global, cells: &[Cell], text: &[u8]) -> bool {
    match drum_of(global, cells) {
        Some(drum) => is_written(global, Made::Deposits(&drum), text) == Some(true),
        None => false,
    }
}

#[test]
fn words_are_deposits(rt: HostRuntime) {
    let found = [
        has_deposits(rt.alloc(), &CELLS, DEPOSITS),
        has_deposits(rt.alloc(), &[], b""),
    ];
    expect_eq(&rt, found, [true; 2]);
}

/// Whether a drum's deposits come after what a text had, which then is this one.
fn come_after(drum: &Drum, text: &mut Vec<u8>, wanted: &[u8]) -> bool {
    push_deposits(text, drum).is_ok() && text.as_slice() == wanted
}

/// The same of a drum with the word 2 at 0001.
fn are_appended(global: Global) -> bool {
    match (drum_of(global, &[(1, 2)]), text_of(global, &[(b"go\n", 1)])) {
        (Some(drum), Some(mut text)) => {
            come_after(&drum, &mut text, b"go\nd -lt 0001 00000002\n")
        }
        _ => false,
    }
}

#[test]
fn deposits_come_after_the_text(rt: HostRuntime) {
    expect_eq(&rt, are_appended(rt.alloc()), true);
}

/// Why a text is refused where the first growth is, and whether one was asked for.
fn refused(global: Global, text: &[u8]) -> (Option<ExaminedFault>, bool) {
    let limited = Limited::new(global);
    limited.refuse(1);
    let fault = read_examined(&limited, text).err();
    (fault, limited.was_refused())
}

/// Whether a text is read as a drum of these words.
fn is_read_as(global: Global, text: &[u8], cells: &[Cell]) -> bool {
    match drum_of(global, cells) {
        Some(wanted) => is_examined_drum(global, text, &wanted) == Some(true),
        None => false,
    }
}

/// Texts, and the words of the drums that are read from them.
static READ: [(&[u8], &[Cell]); 7] = [
    (DEPOSITS, &CELLS),
    (
        b"0000:\t01234566\n0001:\t00000002\n0150:\t89FGJKQQ\n6363:\tWWWWWWWQ\n",
        &CELLS,
    ),
    (b"", &[]),
    (b"0000:\t00000000\n0001:\t00000002\n", &[(1, 2)]),
    (b"0001:\t00000002", &[(1, 2)]),
    (
        b"0001:\t00000002\r\nd -lt 0063 0000000F\r\n",
        &[(1, 2), (63, 10)],
    ),
    (
        b"d -lt 0001 fGjKqW00\n0100:\tfGjKqW00\n",
        &[(1, 0xabcd_ef00), (64, 0xabcd_ef00)],
    ),
];

#[test]
fn deposits_and_shown_words_are_read(rt: HostRuntime) {
    for (text, cells) in &READ {
        let seen = (*text, is_read_as(rt.alloc(), text, cells));
        expect_eq(&rt, seen, (*text, true));
    }
}

/// Texts with a fault, and that fault.
static FAULTY: [(&[u8], ExaminedFault); 16] = [
    (b"\n", ExaminedFault::Form(1)),
    (b"0000:\t0000000\n", ExaminedFault::Form(1)),
    (b"0000:\t00000001\n", ExaminedFault::Form(1)),
    (b"0000:\t0000000a\n", ExaminedFault::Form(1)),
    (b"0000: 00000000\n", ExaminedFault::Form(1)),
    (b"0064:\t00000000\n", ExaminedFault::Form(1)),
    (b"0000:\t00000000 \n", ExaminedFault::Form(1)),
    (b"d -t 0000 00000000\n", ExaminedFault::Form(1)),
    (b"D -lt 0000 00000000\n", ExaminedFault::Form(1)),
    (b"d -lt 0000  00000000\n", ExaminedFault::Form(1)),
    (b"d -lt 0000 00000001\n", ExaminedFault::Form(1)),
    (b"0000:\t00000000\nC:\t0000\n", ExaminedFault::Form(2)),
    (
        b"0100:\t00000000\n0063:\t00000000\n",
        ExaminedFault::Order(2),
    ),
    (
        b"0100:\t00000000\n0100:\t00000000\n",
        ExaminedFault::Order(2),
    ),
    (
        b"0000:\t00000000\n0001:\t00000000\nd -lt 0001 00000000\n",
        ExaminedFault::Order(3),
    ),
    (
        b"0100:\t00000000\n0000:\t0000000\n0000:\t00000000\n",
        ExaminedFault::Form(2),
    ),
];

/// The faults of a text are reported without memory.
#[test]
fn faulty_texts_are_refused(rt: HostRuntime) {
    for (text, fault) in &FAULTY {
        let seen = (*text, refused(rt.alloc(), text));
        expect_eq(&rt, seen, (*text, (Some(*fault), false)));
    }
}

/// A drum without a word of zeros: at the address of number n the word 2 * (n + 1).
pub fn full_drum(global: Global) -> Option<Drum> {
    let mut drum = Drum::new(global).ok()?;
    for number in 0..4096 {
        put_all(&mut drum, &[(number, 2 * u32::from(number) + 2)]);
    }
    Some(drum)
}

/// Why 100,000 lines are refused, the second of which is out of order, and whether memory was asked for.
fn long_refused(global: Global) -> (Option<ExaminedFault>, bool) {
    match text_of(global, &[(b"0000:\t00000000\n", 100_000)]) {
        Some(text) => refused(global, &text),
        None => (None, true),
    }
}

#[test]
fn a_long_text_is_refused_at_its_second_line(rt: HostRuntime) {
    let wanted = (Some(ExaminedFault::Order(2)), false);
    expect_eq(&rt, long_refused(rt.alloc()), wanted);
}
