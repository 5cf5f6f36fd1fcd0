//! What is wanted of a source, by numbers, and with each growth refused in turn. The texts are those of the descriptions of the formats.

use crate::{expect_eq, statuses_in_turn};
use lgp_call::{Outcome, source_into};
use lgp_limited::Limited;
use std::alloc::{Allocator, Global};

/// What is wanted, of at most so many orders of a source; the status and the text.
type Row = (u32, u64, &'static [u8], u32, &'static [u8]);

static ROWS: [Row; 8] = [
    (
        0,
        0,
        b" z\n end 0000",
        0,
        b"0000 00000000  z\n               end 0000\n",
    ),
    (0, 0, b" b none", 1, b"line 1 UnknownName\nline 2 NoEnd\n"),
    (
        1,
        0,
        b" z\n end 0000",
        0,
        b"000k0000'wwwwwwwj'00000000'[16]800f0000'\n",
    ),
    (1, 0, b" b none", 1, b"line 1 UnknownName\nline 2 NoEnd\n"),
    (
        2,
        9,
        b" z\n end 0000",
        0,
        b"printed 0\ncounter 0001 accumulator ",
    ),
    (
        2,
        9,
        b" u 0000\n end 0000",
        0,
        b"printed 0\ncounter 0000 accumulator ",
    ),
    (2, 9, b" b none", 1, b"line 1 UnknownName\nline 2 NoEnd\n"),
    (3, 9, b" b none", 0, b""),
];

/// A status, and what an outcome tells.
type Reported = (u32, u64, u64);

/// Gives what a row wants.
fn give<A: Allocator + Copy>(alloc: A, row: &Row, room: &mut [u8]) -> Reported {
    let (wanted, limit, source, _, _) = *row;
    let mut outcome = Outcome {
        questions: 9,
        length: 9,
    };
    let status = source_into(alloc, wanted, limit, source, room, &mut outcome);
    (status, outcome.questions, outcome.length)
}

/// Whether a row is given its status and a text with this front, and where it is a text of lines nothing else.
fn is_given<A: Allocator + Copy>(alloc: A, row: &Row) -> bool {
    let (wanted, _, _, status, text) = *row;
    let mut room = [b'.'; 160];
    let (given, questions, length) = give(alloc, row, &mut room);
    let is_whole = wanted == 2 && status == 0 || length == text.len() as u64;
    (given, questions) == (status, u64::from(status)) && room.starts_with(text) && is_whole
}

/// How many rows come before the first that is given otherwise.
fn rows_given<A: Allocator + Copy>(alloc: A) -> usize {
    let mut given: usize = 0;
    for row in &ROWS {
        if !is_given(alloc, row) {
            return given;
        }
        given = given.saturating_add(1);
    }
    given
}

#[test]
fn what_is_wanted_of_a_source_is_given(rt: HostRuntime) {
    expect_eq(&rt, rows_given(rt.alloc()), 8);
}

/// The status of a row; 9 where anything is given of one with status 3.
fn status_of(limited: &Limited<Global>, row: &Row) -> u32 {
    let mut room = [b'.'; 8];
    match give(limited, row, &mut room) {
        (3, 0, 0) if room == [b'.'; 8] => 3,
        (3, _, _) => 9,
        (status, _, _) => status,
    }
}

#[test]
fn each_growth_refused_is_reported(rt: HostRuntime) {
    let limited = Limited::new(rt.alloc());
    let listing = statuses_in_turn(&limited, || status_of(&limited, &ROWS[0]));
    let tape = statuses_in_turn(&limited, || status_of(&limited, &ROWS[2]));
    let run = statuses_in_turn(&limited, || status_of(&limited, &ROWS[4]));
    let are_many = listing > 2 && tape > 2 && run > 5;
    expect_eq(&rt, (are_many, limited.blocks_out()), (true, 0));
}
