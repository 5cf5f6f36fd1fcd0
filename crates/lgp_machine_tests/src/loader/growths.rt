//! Calls with each growth refused in turn: each time the answer is that there is no memory, and nothing is pressed; at last all is as
//! with ample memory. Refusals that come before that one take no memory.

use super::*;
use crate::machine::within_a_tape;
use crate::{End, in_turn};
use lgp_limited::Limited;

/// Programs, and how they are taped and loaded; and how many orders that takes, ten for each word, eight for each block and five, or
/// cell by cell eight for each word and five.
static PROGRAMS: [(&[u8], Way<'static>, u64); 5] = [
    (TWO_PLACES, Way::Longest, 69),
    (TWO_PLACES, Way::Cut(&[1, 1, 1, 1]), 77),
    (TWO_PLACES, Way::Single, 37),
    (FIVE_LINES, Way::Longest, 53),
    (NO_WORDS, Way::Single, 5),
];

/// The taping of an image, which has to be this.
fn taped<A: Allocator + Copy>(alloc: A, image: &Image, way: Way, ample: &[Code]) -> End {
    match tape_by(alloc, image, way) {
        Ok(tape) if tape.as_slice() == ample => End::Done,
        Err(CutFault::Memory) => End::Refused,
        _ => End::Otherwise,
    }
}

/// How many growths the tape of a source has.
fn growths_of_tape(
    limited: &Limited<Global>,
    global: Global,
    (source, way): (&[u8], Way),
) -> Option<u64> {
    let image = image(global, source)?;
    match tape_by(global, &image, way) {
        Ok(ample) => in_turn(limited, || taped(limited, &image, way, ample.as_slice())),
        Err(_) => None,
    }
}

#[test]
fn each_growth_of_a_tape_is_refused(rt: HostRuntime) {
    let limited = Limited::new(rt.alloc());
    for (source, way, _) in &PROGRAMS {
        let growths = growths_of_tape(&limited, rt.alloc(), (source, *way));
        expect_eq(&rt, (growths >= Some(1), limited.blocks_out()), (true, 0));
    }
}

/// Whether two machines have the same words.
fn same_words<A: Allocator, B: Allocator>(machine: &Machine<A>, other: &Machine<B>) -> bool {
    for number in 0..4096 {
        let place = address(number);
        if machine.word(place) != other.word(place) {
            return false;
        }
    }
    true
}

/// The codes of the tape that have passed, and those that are left; no codes within an activity.
fn tape<A: Allocator>(machine: &Machine<A>) -> [&[Code]; 2] {
    [
        machine.tape_passed().unwrap_or_default(),
        machine.tape_left().unwrap_or_default(),
    ]
}

/// Whether two machines show the same, and have the same words, tape and prints.
fn are_same<A: Allocator, B: Allocator>(machine: &Machine<A>, other: &Machine<B>) -> bool {
    look(machine) == look(other)
        && same_words(machine, other)
        && machine.printed() == other.printed()
        && tape(machine) == tape(other)
}

/// The load of an image, which leaves a machine as it was where it is refused.
fn loaded_so<A: Allocator + Copy>(
    alloc: A,
    machine: &mut Machine<A>,
    before: &Machine,
    (image, way, orders): (&Image, Way, u64),
) -> End {
    match load_by(alloc, machine, image, way) {
        Ok(done) if done == orders => End::Done,
        Err(LoadFault::Memory) if are_same(machine, before) => End::Refused,
        _ => End::Otherwise,
    }
}

/// How many growths the load of an image has on a machine that has read a tape, as another one has; `None` also where both are not the
/// same after that load with ample memory.
fn growths_beside<A: Allocator + Copy>(
    (limited, alloc, global): (&Limited<Global>, A, Global),
    machine: &mut Machine<A>,
    other: &mut Machine,
    (image, way, orders): (&Image, Way, u64),
) -> Option<u64> {
    let growths = in_turn(
        limited,
        || loaded_so(alloc, machine, other, (image, way, orders)),
    )?;
    let answer = load_by(global, other, image, way);
    (answer == Ok(orders) && are_same(machine, other)).then_some(growths)
}

/// The same on two machines that have read a tape.
fn growths_of_load(
    limited: &Limited<Global>,
    global: Global,
    (source, way, orders): (&[u8], Way, u64),
) -> Option<u64> {
    limited.refuse(0);
    let image = image(global, source)?;
    let mut other = within_a_tape(global)?;
    match within_a_tape(limited) {
        Some(mut machine) => growths_beside(
            (limited, limited, global),
            &mut machine,
            &mut other,
            (&image, way, orders),
        ),
        None => None,
    }
}

#[test]
fn each_growth_of_a_load_is_refused(rt: HostRuntime) {
    let limited = Limited::new(rt.alloc());
    for row in &PROGRAMS {
        let growths = growths_of_load(&limited, rt.alloc(), *row);
        expect_eq(&rt, (growths >= Some(1), limited.blocks_out()), (true, 0));
    }
}

/// What a load answers with its first growth refused, whether that was asked for, and whether the machine is the same as another one
/// then.
type Answer = (Result<u64, LoadFault>, bool, bool);

fn first_refused<B: Allocator, A: Allocator + Copy>(
    (limited, alloc): (&Limited<B>, A),
    machine: &mut Machine<A>,
    before: &Machine,
    (image, way): (&Image, Way),
) -> Answer {
    limited.refuse(1);
    let answer = load_by(alloc, machine, image, way);
    (answer, limited.was_refused(), are_same(machine, before))
}

/// That of a program that is loaded so on a machine that is there.
fn answer_of(
    (limited, global): (&Limited<Global>, Global),
    image: &Image,
    (stand, way): (Stand, Way),
) -> Option<Answer> {
    limited.refuse(0);
    let mut machine = machine_at(limited, stand)?;
    let before = machine_at(global, stand)?;
    Some(first_refused((limited, limited), &mut machine, &before, (image, way)))
}

/// Machines: within an order, at rest, and one word time before the clock's end.
const WITHIN: Stand = (7, true);

const AT_REST: Stand = (7, false);

const AT_END: Stand = (CLOCK_END - 1, false);

/// What loads of two words answer with the first growth refused, and whether that growth is asked for.
static ANSWERS: [(Stand, Way<'static>, LoadFault, bool); 8] = [
    (WITHIN, Way::Longest, LoadFault::Moving, false),
    (WITHIN, Way::Cut(&[1]), LoadFault::Moving, false),
    (WITHIN, Way::Single, LoadFault::Moving, false),
    (AT_REST, Way::Cut(&[2, 0]), LoadFault::BadCut, false),
    (AT_REST, Way::Cut(&[1]), LoadFault::BadCut, false),
    (AT_END, Way::Longest, LoadFault::Memory, true),
    (AT_END, Way::Cut(&[2]), LoadFault::Memory, true),
    (AT_END, Way::Single, LoadFault::Memory, true),
];

/// What a load of two words answers so.
fn answer_for_two(limited: &Limited<Global>, global: Global, so: (Stand, Way)) -> Option<Answer> {
    let image = image(global, TWO_WORDS)?;
    answer_of((limited, global), &image, so)
}

/// Only the refusal for the clock's end comes after that for memory.
#[test]
fn a_load_asks_for_memory_before_it_presses(rt: HostRuntime) {
    let limited = Limited::new(rt.alloc());
    for (stand, way, fault, refused) in &ANSWERS {
        let found = answer_for_two(&limited, rt.alloc(), (*stand, *way));
        expect_eq(
            &rt,
            (found, limited.blocks_out()),
            (Some((Err(*fault), *refused, true)), 0),
        );
    }
}

/// Numbers that do not cut two words at 0100 and 0101 into blocks.
static NO_CUTS: [&[usize]; 6] = [&[2, 0], &[0, 2], &[1], &[3], &[1, 1, 1], &[]];

/// How the tape of two words in blocks of these lengths is refused with the first growth refused, and whether that is asked for.
fn cut_without_memory(global: Global, counts: &[usize]) -> Option<(Option<CutFault>, bool)> {
    let image = image(global, TWO_WORDS)?;
    let limited = Limited::new(global);
    limited.refuse(1);
    let fault = tape_by(&limited, &image, Way::Cut(counts)).err();
    Some((fault, limited.was_refused()))
}

#[test]
fn lengths_that_are_no_cutting_are_reported_without_memory(rt: HostRuntime) {
    for counts in &NO_CUTS {
        let found = cut_without_memory(rt.alloc(), counts);
        expect_eq(&rt, found, Some((Some(CutFault::BadCut), false)));
    }
}
