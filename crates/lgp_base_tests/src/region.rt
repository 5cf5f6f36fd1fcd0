//! Which requests a region meets, by vectors over it. Sizes and counts are worked by hand.

use crate::expect_eq;
use lgp_region::{Memory, Region};
use std::alloc::{AllocError, Allocator};

/// A region over a given number of bytes of another allocator.
fn region_of<A: Allocator>(alloc: &A, size: usize) -> Result<Region, AllocError> {
    Ok(Region::new(Memory::taken_for_good(alloc, size)?))
}

/// Whether a request for a given number of bytes is met. They are freed again.
fn is_met(region: &Region, bytes: usize) -> bool {
    Vec::<u8, _>::with_capacity(region, bytes).is_ok()
}

/// How many of three requests for a given number of bytes are met while the earlier ones are in use.
fn met_of_three(region: &Region, bytes: usize) -> usize {
    let Ok(_first) = Vec::<u8, _>::with_capacity(region, bytes) else {
        return 0;
    };
    let Ok(_second) = Vec::<u8, _>::with_capacity(region, bytes) else {
        return 1;
    };
    if is_met(region, bytes) { 3 } else { 2 }
}

/// How many of 1,000 requests are met, each freed before the next.
fn met_one_by_one(region: &Region, bytes: usize) -> usize {
    let mut met = 0_usize;
    for _ in 0..1_000 {
        if is_met(region, bytes) {
            met = met.saturating_add(1);
        }
    }
    met
}

/// How many of three requests are met, each freed before the next: for a number of bytes that takes all memory, for another one, and
/// for the first again; or 0 where they are not the first and the last.
fn met_after(region: &Region, first: usize, second: usize) -> usize {
    if is_met(region, first) && !is_met(region, second) && is_met(region, first) {
        2
    } else {
        0
    }
}

/// Takes blocks of 16 bytes up to a given number at the same time. How many it got.
fn at_once(region: &Region, most: usize) -> usize {
    let Ok(_block) = Vec::<u8, _>::with_capacity(region, 16) else {
        return 0;
    };
    if most <= 1 {
        return 1;
    }
    at_once(region, most - 1).saturating_add(1)
}

/// How many blocks of 16 bytes a region gives out at the same time, up to a given number, when all were freed, and when all were
/// freed again; or 0 where that changes.
fn at_once_again(region: &Region, most: usize) -> usize {
    let first = at_once(region, most);
    if at_once(region, most) == first && at_once(region, most) == first {
        first
    } else {
        0
    }
}

/// What is asked of a region.
#[derive(Clone, Copy)]
enum Asked {
    /// Three requests for a number of bytes.
    Three(usize),
    /// A thousand requests for a number of bytes, one by one.
    OneByOne(usize),
    /// A request for a number of bytes, one for another number, and one for the first again.
    After(usize, usize),
    /// Blocks of 16 bytes, thrice as many as can be up to a number.
    AtOnce(usize),
}

/// How many of these a region meets.
fn met_by(region: &Region, asked: &Asked) -> usize {
    match asked {
        Asked::Three(bytes) => met_of_three(region, *bytes),
        Asked::OneByOne(bytes) => met_one_by_one(region, *bytes),
        Asked::After(first, second) => met_after(region, *first, *second),
        Asked::AtOnce(most) => at_once_again(region, *most),
    }
}

/// How many of these a new region of a given size meets; `None` without memory for it.
fn met<A: Allocator>(alloc: &A, size: usize, asked: &Asked) -> Option<usize> {
    match region_of(alloc, size) {
        Ok(region) => Some(met_by(&region, asked)),
        Err(_) => None,
    }
}

/// Sizes of regions, what is asked of each, and how many are met. A block has 16 bytes, or twice or four times as many, and so on, and
/// 32 bytes beside them: so three requests of a size differ around 16 and 32. What is freed serves the next request of its size, and of
/// no other. A region that has memory for a thousand blocks gives a thousand out; bytes beyond a multiple of 16 are not used; of no
/// memory nothing is given.
static ASKED: [(usize, Asked, usize); 13] = [
    (144, Asked::Three(1), 3),
    (144, Asked::Three(16), 3),
    (144, Asked::Three(17), 2),
    (144, Asked::Three(32), 2),
    (144, Asked::Three(33), 1),
    (144, Asked::Three(113), 0),
    (96, Asked::OneByOne(60), 1_000),
    (96, Asked::After(64, 32), 2),
    (48_000, Asked::AtOnce(2_000), 1_000),
    (111, Asked::AtOnce(5), 2),
    (48, Asked::AtOnce(1), 1),
    (48, Asked::Three(17), 0),
    (48, Asked::Three(1 << 40), 0),
];

/// Appends the numbers from 0 to 99 to one vector and those from 100 to 1 to another, in turn; whether there is memory.
fn push_both(rising: &mut Vec<u16, &Region>, falling: &mut Vec<u16, &Region>) -> bool {
    for number in 0..100_u16 {
        if rising.push(number).is_err() || falling.push(100 - number).is_err() {
            return false;
        }
    }
    true
}

/// Whether a number is at a place.
fn is_at(numbers: &[u16], place: u16, number: u16) -> bool {
    match numbers.get(usize::from(place)) {
        Some(there) => *there == number,
        None => false,
    }
}

/// Whether these are those numbers.
fn are_both(rising: &[u16], falling: &[u16]) -> bool {
    for number in 0..100_u16 {
        if !is_at(rising, number, number) || !is_at(falling, number, 100 - number) {
            return false;
        }
    }
    rising.len() == 100 && falling.len() == 100
}

/// Two vectors that grow so in turn: whether each has its own numbers then.
fn grow_side_by_side(region: &Region) -> bool {
    let (mut rising, mut falling) = (Vec::new(region), Vec::new(region));
    push_both(&mut rising, &mut falling) && are_both(rising.as_slice(), falling.as_slice())
}

/// The same over a new region; false without memory for it.
fn vectors_keep_their_numbers<A: Allocator>(alloc: &A) -> bool {
    match region_of(alloc, 1 << 11) {
        Ok(region) => grow_side_by_side(&region),
        Err(_) => false,
    }
}

/// A region that lasts and lies in a given number of bytes of another allocator.
fn lasting_of<A: Allocator>(alloc: &A, size: usize) -> Result<&'static Region, AllocError> {
    Region::lasting(Memory::taken_for_good(alloc, size)?)
}

/// How many of three requests for 16 bytes such a region meets; `None` where there is none.
fn met_by_lasting<A: Allocator>(alloc: &A, size: usize) -> Option<usize> {
    match lasting_of(alloc, size) {
        Ok(region) => Some(met_of_three(region, 16)),
        Err(_) => None,
    }
}

/// Sizes around the 4,096 bytes that it takes for itself, and how many are met.
static LASTING: [(usize, Option<usize>); 4] = [
    (4_080, None),
    (4_096, Some(0)),
    (4_144, Some(1)),
    (4_240, Some(3)),
];

#[test]
fn requests_are_met_by_their_sizes_and_vectors_keep_their_numbers(rt: HostRuntime) {
    let alloc = rt.alloc();
    for (size, asked, wanted) in &ASKED {
        expect_eq(
            &rt,
            (*size, met(&alloc, *size, asked)),
            (*size, Some(*wanted)),
        );
    }
    for (size, wanted) in &LASTING {
        expect_eq(
            &rt,
            (*size, met_by_lasting(&alloc, *size)),
            (*size, *wanted),
        );
    }
    expect_eq(&rt, vectors_keep_their_numbers(&alloc), true);
}
