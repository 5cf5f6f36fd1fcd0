//! Growths refused in turn.

use crate::expect_eq;
use lgp_limited::Limited;
use std::alloc::Allocator;
use std::mem::forget;

/// Whether a vector of eight bytes is refused.
fn is_refused<B: Allocator>(limited: &Limited<B>) -> bool {
    Vec::<u8, _>::with_capacity(limited, 8).is_err()
}

/// Four vectors one after the other, each of which takes memory once: which are refused, and after which of them the allocator says
/// that one was.
fn four_growths<B: Allocator>(limited: &Limited<B>, nth: u64) -> [bool; 8] {
    limited.refuse(nth);
    let mut seen = [false; 8];
    for place in 0..4usize {
        seen[place] = is_refused(limited);
        seen[place + 4] = limited.was_refused();
    }
    seen
}

/// None is refused, then each one of the four, and then the fifth, which does not come.
static IN_TURN: [(u64, [bool; 8]); 6] = [
    (0, [false; 8]),
    (1, [true, false, false, false, true, true, true, true]),
    (2, [false, true, false, false, false, true, true, true]),
    (3, [false, false, true, false, false, false, true, true]),
    (4, [false, false, false, true, false, false, false, true]),
    (5, [false; 8]),
];

/// The first of these at which another one is refused, or 6.
fn first_otherwise<B: Allocator>(limited: &Limited<B>) -> u64 {
    for (nth, wanted) in &IN_TURN {
        if four_growths(limited, *nth) != *wanted {
            return *nth;
        }
    }
    6
}

/// Appends what is missing up to 99, as far as there is memory. Whether all of it is there then.
fn fill_up<A: Allocator>(numbers: &mut Vec<u8, A>) -> bool {
    for number in 0..100u8 {
        if usize::from(number) >= numbers.len() && numbers.push(number).is_err() {
            return false;
        }
    }
    true
}

/// Whether these are the numbers from 0 on.
fn are_counted(numbers: &[u8]) -> bool {
    let mut wanted = 0u8;
    for number in numbers {
        if *number != wanted {
            return false;
        }
        wanted = wanted.saturating_add(1);
    }
    true
}

/// Fills a vector up: whether all numbers are there, and those that are there are as they should be.
fn filled<A: Allocator>(numbers: &mut Vec<u8, A>) -> [bool; 2] {
    let is_full = fill_up(numbers);
    [is_full, are_counted(numbers.as_slice())]
}

/// That of a vector whose nth growth is refused, whether a growth was refused, and that of the vector filled up once more.
fn grows<B: Allocator>(limited: &Limited<B>, nth: u64) -> ([bool; 2], bool, [bool; 2]) {
    limited.refuse(nth);
    let mut numbers = Vec::new(limited);
    let first = filled(&mut numbers);
    (first, limited.was_refused(), filled(&mut numbers))
}

/// The capacities of a vector with a number and room for 64 after it was to let go of what it does not need: where that is refused,
/// and where not.
fn capacities<B: Allocator>(limited: &Limited<B>) -> Option<[usize; 2]> {
    let mut numbers = Vec::with_capacity(limited, 64).ok()?;
    numbers.push(7u8).ok()?;
    limited.refuse(1);
    numbers.shrink_to_fit();
    let kept = numbers.capacity();
    numbers.shrink_to_fit();
    Some([kept, numbers.capacity()])
}

/// Where another growth is refused, how vectors grow whose first, second and hundredth growth is refused, and the capacities of
/// another one.
type Seen = (u64, [([bool; 2], bool, [bool; 2]); 3], Option<[usize; 2]>);

fn seen<B: Allocator>(limited: &Limited<B>) -> Seen {
    let otherwise = first_otherwise(limited);
    let grown = [grows(limited, 1), grows(limited, 2), grows(limited, 100)];
    (otherwise, grown, capacities(limited))
}

/// At least two growths of the vector are refused in turn, each with numbers left, and none of the later ones. A smaller block is a
/// growth too.
#[test]
fn the_named_growth_is_refused_and_no_other(rt: HostRuntime) {
    let wanted = (
        6,
        [
            ([false, true], true, [true; 2]),
            ([false, true], true, [true; 2]),
            ([true; 2], false, [true; 2]),
        ],
        Some([64, 1]),
    );
    let limited = Limited::new(rt.alloc());
    let seen = seen(&limited);
    expect_eq(&rt, (seen, limited.blocks_out()), (wanted, 0));
}

/// How many blocks are out beside a vector with room for 8 bytes, when it has grown, and when another one was refused.
fn grown<B: Allocator>(limited: &Limited<B>) -> Option<[u64; 3]> {
    let mut numbers: Vec<u8, _> = Vec::with_capacity(limited, 8).ok()?;
    let made = limited.blocks_out();
    numbers.extend_from_slice(&[7; 100]).ok()?;
    let grown = limited.blocks_out();
    limited.refuse(1);
    is_refused(limited).then_some([made, grown, limited.blocks_out()])
}

/// Forgets a vector, and tells how many blocks are out then.
fn forgotten<B: Allocator>(limited: &Limited<B>) -> Option<u64> {
    forget(Vec::<u8, _>::with_capacity(limited, 8).ok()?);
    Some(limited.blocks_out())
}

#[test]
fn a_block_is_out_until_it_comes_back(rt: HostRuntime) {
    let limited = Limited::new(rt.alloc());
    let first = limited.blocks_out();
    let seen = (
        first,
        grown(&limited),
        limited.blocks_out(),
        forgotten(&limited),
    );
    expect_eq(&rt, seen, (0, Some([1, 1, 1]), 0, Some(1)));
}
