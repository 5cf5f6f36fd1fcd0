//! The drum by addresses, by tracks and under its heads.

use crate::{expect_eq, in_turn};
use lgp_drum::Drum;
use lgp_limited::Limited;
use lgp_word::{Address, Word};
use std::alloc::{Allocator, Global};

/// The number of an address, and the bits of its word.
pub type Cell = (u16, u32);

/// The address of that number, or 0000 above all.
fn address(number: u16) -> Address {
    Address::new(number).unwrap_or_default()
}

/// Puts words.
pub fn put_all<A: Allocator>(drum: &mut Drum<A>, cells: &[Cell]) {
    for (number, bits) in cells {
        drum.put(address(*number), Word::of_bits(*bits));
    }
}

/// Whether a drum has these words, and zeros elsewhere as many as wanted.
fn has_words<A: Allocator>(drum: &Drum<A>, cells: &[Cell], blanks: u16) -> bool {
    for (number, bits) in cells {
        if drum.word(address(*number)).get() != *bits {
            return false;
        }
    }
    let mut found = 0u16;
    for number in 0..4096 {
        found = found.saturating_add(u16::from(drum.word(address(number)).get() == 0));
    }
    found == blanks
}

/// The bits of the word under a track's head; `None` where there is no such track.
fn bits_under_head<A: Allocator>(drum: &Drum<A>, clock: u64, track: u16) -> Option<u32> {
    if track >= 64 {
        return None;
    }
    Some(drum.under_head(clock, track).get())
}

/// The first word of track 1, the last one of all, and two of track 0.
static FOUR: [Cell; 4] = [(64, 4), (4095, 0x8000_0000), (1, 0x000e_00cc), (50, 6)];

/// Whether the words of a track are blank but for the two at the positions 2 and 9, which are those of sectors 50 and 1.
fn has_two(track: &[Word]) -> bool {
    let mut wanted = [0; 64];
    (wanted[2], wanted[9]) = (6, 0x000e_00cc);
    let mut place = 0usize;
    for word in track {
        if wanted.get(place) != Some(&word.get()) {
            return false;
        }
        place = place.saturating_add(1);
    }
    place == 64
}

/// Whether a new drum is blank; whether four words are put and none beside them; whether the heads of tracks 0 and 1 read the sector
/// below them; and whether track 0 lies as it passes its head.
fn put_and_read(global: Global) -> Option<[bool; 6]> {
    let mut drum = Drum::new(global).ok()?;
    let is_blank = has_words(&drum, &[], 4096);
    put_all(&mut drum, &FOUR);
    Some([
        is_blank,
        has_words(&drum, &FOUR, 4092),
        bits_under_head(&drum, 73, 0) == Some(0x000e_00cc),
        bits_under_head(&drum, 64, 1) == Some(4),
        bits_under_head(&drum, 65, 1) == Some(0),
        has_two(drum.track(0)),
    ])
}

#[test]
fn words_are_put_and_pass_the_heads(rt: HostRuntime) {
    expect_eq(&rt, put_and_read(rt.alloc()), Some([true; 6]));
}

/// Whether a new drum is blank; `None` without memory.
fn is_made<A: Allocator + Copy>(alloc: A) -> Option<bool> {
    match Drum::new(alloc) {
        Ok(drum) => Some(has_words(&drum, &[], 4096)),
        Err(_) => None,
    }
}

/// Whether a copy has four words, and keeps them where the drum is changed then; `None` without memory.
fn is_copied<A: Allocator + Clone>(drum: &mut Drum<A>) -> Option<bool> {
    put_all(drum, &FOUR);
    match drum.copy() {
        Ok(copy) => {
            drum.put(address(64), Word::of_bits(8));
            Some(has_words(&copy, &FOUR, 4092))
        }
        Err(_) => None,
    }
}

/// How many growths a drum and its copy have, each of which is refused in turn, and how many blocks are out with the drum.
fn growths_of_drums(limited: &Limited<Global>) -> Option<([u64; 2], u64)> {
    let made = in_turn(limited, || is_made(limited));
    let mut drum = Drum::new(limited).ok()?;
    let copied = in_turn(limited, || is_copied(&mut drum));
    Some(([made, copied], limited.blocks_out()))
}

#[test]
fn drums_and_copies_without_room_are_refused(rt: HostRuntime) {
    let limited = Limited::new(rt.alloc());
    let found = growths_of_drums(&limited);
    expect_eq(&rt, (found, limited.blocks_out()), (Some(([1; 2], 1)), 0));
}
