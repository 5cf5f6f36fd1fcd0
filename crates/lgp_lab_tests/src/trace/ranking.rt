//! The words with most to gain and the dearest places, against numbers made by hand.

use super::address;
use super::optimum::optimum_of_a_sum;
use crate::{end_of, expect_eq, in_turn};
use lgp_limited::Limited;
use lgp_optimum::{Freedom, Gain, Optimum, push_optimum, push_word_optimum};
use lgp_trace::{Dear, NoLabels, better_after};
use std::alloc::{Allocator, Global};

/// A word, its best sector, and what it saves there.
type Row = (u16, u16, u64);

/// Whether a word, its best sector and what it saves there are as in a row.
fn is_gain(gain: &Gain, row: Row) -> bool {
    (gain.word.number(), gain.best.sector, gain.best.saved) == row
}

/// Whether these are the words of the rows.
fn are_gains(gains: &[Gain], rows: &[Row]) -> bool {
    let mut left = rows;
    for gain in gains {
        match left {
            [row, rest @ ..] if is_gain(gain, *row) => left = rest,
            _ => return false,
        }
    }
    left.is_empty()
}

/// Whether these are the words of a freedom with most to gain, at most a given number.
fn are_ranked<A: Allocator + Copy, B: Allocator>(
    alloc: A,
    optimum: &Optimum<B>,
    (wanted, most): (Freedom, u64),
    rows: &[Row],
) -> bool {
    match optimum.ranking(alloc, wanted, most) {
        Ok(words) => are_gains(words.as_slice(), rows),
        Err(_) => false,
    }
}

/// Those that save most first, and of those that save as much the one at the lower address.
static FREE: &[Row] = &[
    (21, 0, 256),
    (22, 27, 256),
    (24, 23, 256),
    (20, 19, 64),
    (23, 21, 64),
    (25, 17, 64),
];

static PERFORMED: &[Row] = &[(9, 26, 256), (17, 15, 64)];

/// The first two of four words of the table.
static NAMED_BY_CHANGED: &[Row] = &[(64, 24, 64), (65, 24, 64)];

/// Which rankings are as made by hand.
fn rankings<A: Allocator + Copy, B: Allocator>(alloc: A, optimum: &Optimum<B>) -> [bool; 5] {
    [
        are_ranked(alloc, optimum, (Freedom::Free, 4096), FREE),
        are_ranked(alloc, optimum, (Freedom::Performed, 10), PERFORMED),
        are_ranked(
            alloc,
            optimum,
            (Freedom::NamedByChanged, 2),
            NAMED_BY_CHANGED,
        ),
        are_ranked(alloc, optimum, (Freedom::Unnamed, 10), &[]),
        are_ranked(alloc, optimum, (Freedom::Free, 0), &[]),
    ]
}

/// What is reported of a run, or of one of its words.
#[derive(Clone, Copy)]
enum Part {
    Words,
    Word(u16),
}

/// Appends what is reported of a part of 42 orders; false where it is refused.
fn push_part<A: Allocator + Copy, B: Allocator>(
    alloc: A,
    text: &mut Vec<u8, A>,
    part: Part,
    optimum: &Optimum<B>,
) -> bool {
    let reported = match part {
        Part::Words => push_optimum(alloc, text, 42, optimum, &NoLabels),
        Part::Word(word) => push_word_optimum(text, 42, optimum, address(word), &NoLabels),
    };
    reported.is_ok()
}

#[test]
fn the_words_with_most_to_gain(rt: HostRuntime) {
    let seen = match optimum_of_a_sum(rt.alloc()) {
        Some(optimum) => (
            rankings(rt.alloc(), &optimum),
            optimum.together(Freedom::Free),
        ),
        None => ([false; 5], 0),
    };
    expect_eq(&rt, seen, ([true; 5], 960));
}

/// How many growths were refused before a part was reported as with ample memory.
fn part_in_turn<B: Allocator>(
    (limited, global): (&Limited<Global>, Global),
    part: Part,
    optimum: &Optimum<B>,
) -> Option<u64> {
    let mut ample = Vec::new(global);
    if !push_part(global, &mut ample, part, optimum) {
        return None;
    }
    in_turn(limited, || {
        let mut text = Vec::new(limited);
        let is_pushed = push_part(limited, &mut text, part, optimum);
        end_of(text.as_slice() == ample.as_slice(), !is_pushed)
    })
}

/// Of each of the three freedoms the gains and the ranking take memory, and the text some more.
#[test]
fn each_growth_refused(rt: HostRuntime) {
    let limited = Limited::new(rt.alloc());
    let growths = match optimum_of_a_sum(rt.alloc()) {
        Some(optimum) => [
            part_in_turn((&limited, rt.alloc()), Part::Words, &optimum) > Some(6),
            part_in_turn((&limited, rt.alloc()), Part::Word(8), &optimum) >= Some(1),
        ],
        None => [false; 2],
    };
    expect_eq(&rt, (growths, limited.blocks_out()), ([true; 2], 0));
}

/// The better of the best so far and a place, where none comes before them.
fn better(best: Option<Dear>, here: Dear) -> Option<Dear> {
    better_after(None, best, here)
}

/// The place, if it comes after one.
fn after(last: Dear, here: Dear) -> Option<Dear> {
    better_after(Some(last), None, here)
}

/// A place that has no word times is never the best. One with more is better, and of two with as many the one at the lower address.
#[test]
fn the_better_of_two_places(rt: HostRuntime) {
    let most = u64::MAX;
    let seen = [
        better(None, (5, 3)),
        better(None, (5, 0)),
        better(Some((2, 9)), (5, 10)),
        better(Some((2, 9)), (5, 8)),
        better(Some((2, 9)), (5, 9)),
        better(Some((7, 9)), (5, 9)),
        better(Some((7, 9)), (5, 0)),
        better(Some((4095, most)), (0, most)),
        better(Some((0, most)), (u16::MAX, most)),
    ];
    let wanted = [
        Some((5, 3)),
        None,
        Some((5, 10)),
        Some((2, 9)),
        Some((2, 9)),
        Some((5, 9)),
        Some((7, 9)),
        Some((0, most)),
        Some((0, most)),
    ];
    expect_eq(&rt, seen, wanted);
}

/// Only a place with fewer word times comes after one, or with as many at a higher address.
#[test]
fn the_place_after_one(rt: HostRuntime) {
    let most = u64::MAX;
    let seen = [
        after((3, 9), (5, 9)),
        after((3, 9), (2, 8)),
        after((5, 9), (5, 9)),
        after((7, 9), (5, 9)),
        after((5, 9), (7, 10)),
        after((5, 9), (7, 0)),
        after((0, most), (1, most)),
        better_after(Some((5, 9)), Some((6, 4)), (2, 10)),
        better_after(Some((5, 9)), Some((6, 4)), (7, 8)),
        better_after(Some((5, 9)), Some((6, 8)), (7, 8)),
    ];
    let wanted = [
        Some((5, 9)),
        Some((2, 8)),
        None,
        None,
        None,
        None,
        Some((1, most)),
        Some((6, 4)),
        Some((7, 8)),
        Some((6, 8)),
    ];
    expect_eq(&rt, seen, wanted);
}
