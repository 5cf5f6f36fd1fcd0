//! What is reported of long runs while they go on.

use super::{answer, few_files};
use crate::expect_eq;
use lgp_desk::Manner;
use lgp_monitor::Progress;
use std::alloc::Global;
use std::cell::Cell;

/// The numbers of orders that were reported, how many they are, and how often a run was reported to have ended.
#[derive(Clone, Copy)]
struct Reported {
    orders: [u64; 4],
    count: usize,
    ended: u64,
}

/// What was reported, and one number of orders more.
fn with_number(reported: Reported, orders: u64) -> Reported {
    let mut numbers = reported.orders;
    let count = reported.count;
    if count < numbers.len() {
        numbers[count] = orders;
    }
    Reported {
        orders: numbers,
        count: count.saturating_add(1),
        ended: reported.ended,
    }
}

/// Learns how far runs are, after each portion of a given number of orders.
#[derive(Drop)]
struct Listener<'a> {
    portion: u64,
    reported: &'a Cell<Reported>,
}

impl Progress for Listener<'_> {
    fn portion(&self) -> u64 {
        self.portion
    }

    fn performed(&self, orders: u64) {
        self.reported.set(with_number(self.reported.get(), orders));
    }

    fn ended(&self) {
        let mut reported = self.reported.get();
        reported.ended = reported.ended.saturating_add(1);
        self.reported.set(reported);
    }
}

/// A loop of four orders that counts, and what is written for the lines.
const LOOP: &[u8] =
    b"put 0000 b 0050\nput 0001 a 0051\nput 0002 h 0050\nput 0003 u 0000\nput 0051 = 1\n";

const LOOP_REPLIES: &[u8] = b"ok\nok\nok\nok\nok\n";

/// A portion, lines after the loop, what is written for them, the numbers of orders that are reported, and how often a run is reported to
/// have ended.
type Row = (u64, &'static [u8], &'static [u8], &'static [u64], u64);

static ROWS: [Row; 10] = [
    // After each portion but the last.
    (
        20,
        b"press start\nrun 45\n",
        b"live\nran 45 limit\n",
        &[20, 40],
        1,
    ),
    (
        20,
        b"press start\n  run   40  \n",
        b"live\nran 40 limit\n",
        &[20],
        1,
    ),
    // A run of one portion, one of no order, and one at rest are not reported.
    (
        20,
        b"press start\nrun 20\nrun 0\n",
        b"live\nran 20 limit\nran 0 limit\n",
        &[],
        0,
    ),
    (20, b"run 45\n", b"ran 0 rest\n", &[], 0),
    // A rule stops it in its first portion, in its second one, and after the last order of the first.
    (
        20,
        b"break 0003\npress start\nrun 45\n",
        b"rule 0\nlive\nran 3 rule 0\n",
        &[],
        0,
    ),
    (
        2,
        b"break 0003\npress start\nrun 45\nwords 0050 1\n",
        b"rule 0\nlive\nran 3 rule 0\n0050 00000002\n",
        &[2],
        1,
    ),
    (
        3,
        b"break 0003\npress start\nrun 45\n",
        b"rule 0\nlive\nran 3 rule 0\n",
        &[],
        0,
    ),
    // It comes to rest after the last order of a portion, which shows when one more is asked for.
    (
        2,
        b"put 0003 z 0000\npress start\nrun 45\n",
        b"ok\nlive\nran 4 rest\n",
        &[2, 4],
        1,
    ),
    // Two runs; a portion of no order is one order.
    (
        0,
        b"press start\nrun 3\nrun 2\n",
        b"live\nran 3 limit\nran 2 limit\n",
        &[1, 2, 1],
        2,
    ),
    // In an open source it is the source's.
    (
        1,
        b"press start\nsource\nrun 45\n.\n",
        b"live\n? 9 Faults\nline 1 UnknownOrder\n        run 45\n            ^^\n        there is no such operation: write one of the sixteen letters, -t, word, frac, int, org or end\nline 2 NoEnd\n        the end line is missing: end with a line that has end and the label of the first order\n",
        &[],
        0,
    ),
];

/// Appends the loop and lines after it; false where memory is refused.
fn push_after_loop(typed: &mut Vec<u8>, lines: &[u8]) -> bool {
    typed.extend_from_slice(LOOP).is_ok() && typed.extend_from_slice(lines).is_ok()
}

/// Whether lines after the loop are answered; what is written comes after `written`.
fn is_answered(
    alloc: Global,
    portion: u64,
    lines: &[u8],
    reported: &Cell<Reported>,
    written: &mut Vec<u8>,
) -> bool {
    let mut typed = Vec::new(alloc);
    let listener = Listener { portion, reported };
    push_after_loop(&mut typed, lines)
        && answer(
            alloc,
            Manner::Bare,
            &mut few_files(),
            listener,
            typed.as_slice(),
            written,
        )
        .is_ok()
}

/// Whether these numbers of orders were reported, and a run was so often reported to have ended.
fn are_reported(reported: Reported, orders: &[u64], ended: u64) -> bool {
    match reported.orders.get(..reported.count) {
        Some(numbers) => numbers == orders && reported.ended == ended,
        None => false,
    }
}

/// Whether this is what is reported and written for lines after the loop.
fn is_row(alloc: Global, row: &Row) -> bool {
    let (portion, lines, text, orders, ended) = *row;
    let reported = Cell::new(Reported {
        orders: [0; 4],
        count: 0,
        ended: 0,
    });
    let mut written = Vec::new(alloc);
    let is_answered = is_answered(alloc, portion, lines, &reported, &mut written);
    let is_text = match written.strip_prefix(LOOP_REPLIES) {
        Some(replies) => replies == text,
        None => false,
    };
    is_answered && is_text && are_reported(reported.get(), orders, ended)
}

/// How many rows come before the first for which anything else is reported or written.
fn rows_reported(alloc: Global) -> usize {
    let mut reported: usize = 0;
    for row in &ROWS {
        if !is_row(alloc, row) {
            return reported;
        }
        reported = reported.saturating_add(1);
    }
    reported
}

#[test]
fn long_runs_are_reported(rt: HostRuntime) {
    expect_eq(&rt, rows_reported(rt.alloc()), 10);
}
