//! Where words came from, over records.

use super::calls::{Button, Row, is_answered, put, with_order};
use crate::history::records;
use crate::{TRANSFER, address, expect_eq};
use lgp_debugger::Debugger;
use lgp_history::{Changer, Origin, PastOrder, Records};
use std::alloc::{Allocator, Global};

/// Holds the accumulator at 0136.
const HOLD: u32 = 0x000c_0190;

/// What an origin says in numbers: where the order was, its word, its clock and how many orders back; a put has its clock alone.
/// Then the lost word.
type Said = (Option<(Option<u16>, u32, u64)>, u64, u32);

fn said(origin: Origin) -> Said {
    let lost = origin.lost.get();
    match origin.changer {
        Changer::Order(
            PastOrder {
                place,
                word,
                clock,
                orders_back,
            },
        ) => {
            let stood = match place {
                Some(place) => Some(place.number()),
                None => None,
            };
            (Some((stood, word.get(), orders_back)), clock, lost)
        }
        Changer::Hand(clock) => (None, clock, lost),
    }
}

/// A call, or what is said of the word at 0136 then.
enum Act {
    Do(Row),
    Says(Option<Said>),
}

const START: Act = Act::Do(Row::Press(Button::Start, true));

const STEP: Act = Act::Do(Row::Steps(1, 1));

/// Whether this is said of the word at 0136.
fn is_said<A: Allocator + Copy>(lab: &Debugger<Records<A>, A>, wanted: &Option<Said>) -> bool {
    match (lab.origin(address(100)), wanted) {
        (Some(origin), Some(wanted)) => said(origin) == *wanted,
        (None, None) => true,
        _ => false,
    }
}

/// Whether a call answers so, or that is said, before the changes of the kept steps are noted and after it.
fn is_so<A: Allocator + Copy>(lab: &mut Debugger<Records<A>, A>, alloc: A, act: &Act) -> bool {
    match act {
        Act::Do(row) => is_answered(lab, alloc, row),
        Act::Says(wanted) => {
            let is_found = is_said(lab, wanted);
            lab.note_changes();
            is_found && is_said(lab, wanted)
        }
    }
}

/// How many acts are so, one after another, with a transfer at 0001.
fn acts_so<A: Allocator + Copy>(
    lab: &mut Debugger<Records<A>, A>,
    alloc: A,
    acts: &[Act],
) -> usize {
    let mut place = 0usize;
    for act in acts {
        if !is_so(lab, alloc, act) {
            return place;
        }
        place = place.saturating_add(1);
    }
    place
}

/// The same on a new machine.
fn acts_on_a_new_one(alloc: Global, capacity: usize, acts: &[Act]) -> Option<usize> {
    let mut lab = with_order(alloc, records(alloc, capacity), HOLD)?;
    put(&mut lab, 1, TRANSFER).ok()?;
    Some(acts_so(&mut lab, alloc, acts))
}

/// What a put of 8 over 0 says at clock 0.
const BY_HAND: Option<Said> = Some((None, 0, 0));

/// What the hold of 0 over 8 says that began at 0000 at clock 5, as the latest order and as the third last.
const HELD: Option<Said> = Some((Some((Some(0), HOLD, 1)), 5, 8));

const HELD_BEFORE: Option<Said> = Some((Some((Some(0), HOLD, 3)), 5, 8));

/// Puts 8, and at clock 5 puts 8 again, starts, and performs three orders, of which the first and the third hold 0. A word that is
/// stored again has not changed. Two orders back and one more the origin is that of then.
const THERE_AND_BACK: &[Act] = &[
    Act::Says(None),
    Act::Do(Row::Put(100, 8, Ok(()))),
    Act::Do(Row::Idle(5, Ok(()))),
    Act::Do(Row::Put(100, 8, Ok(()))),
    Act::Says(BY_HAND),
    START,
    STEP,
    Act::Says(HELD),
    STEP,
    STEP,
    Act::Says(HELD_BEFORE),
    Act::Do(Row::Back(2, Ok(()))),
    Act::Says(HELD),
    Act::Do(Row::Back(1, Ok(()))),
    Act::Says(BY_HAND),
];

/// The same where two steps are kept: one that is forgotten is no origin.
const FORGOTTEN: &[Act] = &[
    Act::Says(None),
    Act::Do(Row::Put(100, 8, Ok(()))),
    Act::Do(Row::Idle(5, Ok(()))),
    Act::Do(Row::Put(100, 8, Ok(()))),
    Act::Says(None),
    START,
    STEP,
    Act::Says(HELD),
    STEP,
    STEP,
    Act::Says(None),
];

/// Puts 8, performs the order at 0000, puts 8 and performs that order again from the instruction register, in One Operation, where it
/// has no place. The order at 0000 is read at clock 64, and the word at 0136, whose position is 4, at 68.
const EXECUTED: &[Act] = &[
    Act::Do(Row::Put(100, 8, Ok(()))),
    Act::Do(Row::Press(Button::OneOperation, true)),
    START,
    STEP,
    Act::Do(Row::Put(100, 8, Ok(()))),
    Act::Do(Row::Press(Button::Execute, true)),
    STEP,
    Act::Says(Some((Some((None, HOLD, 1)), 69, 8))),
];

/// Puts 8, and at clock 5 starts and performs as many orders as are kept, of which the first holds 0 and no other changes that word.
/// After one order more that one is forgotten, and does not come back.
const LONG_AGO: &[Act] = &[
    Act::Do(Row::Put(100, 8, Ok(()))),
    Act::Do(Row::Idle(5, Ok(()))),
    Act::Says(BY_HAND),
    START,
    Act::Do(Row::Steps(5000, 5000)),
    Act::Says(Some((Some((Some(0), HOLD, 5000)), 5, 8))),
    STEP,
    Act::Says(None),
    Act::Do(Row::Back(1, Ok(()))),
    Act::Says(None),
];

/// How many steps are kept at most, and what is done.
static STORIES: [(usize, &'static [Act]); 4] = [
    (9, THERE_AND_BACK),
    (2, FORGOTTEN),
    (9, EXECUTED),
    (5000, LONG_AGO),
];

#[test]
fn words_come_from_kept_steps_that_changed_them(rt: HostRuntime) {
    for (capacity, acts) in &STORIES {
        let found = acts_on_a_new_one(rt.alloc(), *capacity, acts);
        expect_eq(&rt, found, Some(acts.len()));
    }
}
