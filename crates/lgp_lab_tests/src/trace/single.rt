//! What is no activity, what is known of one when it begins, and which orders use a word. What single activities tell is in `texts/`
//! of the tests of the monitor.

use super::{press, with_words};
use crate::expect_eq;
use lgp_flexo::{Code, read_tape_text};
use lgp_machine::Machine;
use lgp_table::{Action, Mode, seeks, stores};
use lgp_trace::{Begun, Found};
use lgp_word::{Address, Op, Word};
use std::alloc::Allocator;

/// Whether an account begins here, and whether one does before its order acts.
fn begins_here<A: Allocator>(machine: &Machine<A>) -> [bool; 2] {
    [
        Begun::of(machine).is_some(),
        Begun::before_acting(machine).is_some(),
    ]
}

/// That at rest, and within an order.
fn begins<A: Allocator>(machine: &mut Machine<A>) -> [[bool; 2]; 2] {
    let at_rest = begins_here(machine);
    press(machine, Action::Start);
    let _turned = machine.turn().is_ok();
    [at_rest, begins_here(machine)]
}

#[test]
fn no_account_begins_within_an_order(rt: HostRuntime) {
    let seen = match with_words(rt.alloc(), &[]) {
        Some(mut machine) => begins(&mut machine),
        None => [[false; 2]; 2],
    };
    expect_eq(&rt, seen, [[true; 2], [false; 2]]);
}

/// What is known of an activity when it begins: the place of its order, the order, the word times of its four phases, the address of
/// the word that it waits for, that word, the code that it prints, and how many codes have passed. What there is not is `NONE`.
type Known = [u64; 10];

/// The number of no address, word or code.
const NONE: u64 = u64::MAX;

/// The number of an address, or of none.
fn number_of(place: Option<Address>) -> u64 {
    match place {
        Some(place) => u64::from(place.number()),
        None => NONE,
    }
}

/// The bits of a word, or of none.
fn bits_of(word: Option<Word>) -> u64 {
    match word {
        Some(word) => u64::from(word.get()),
        None => NONE,
    }
}

/// The number of a code, or of none.
fn code_of(code: Option<Code>) -> u64 {
    match code {
        Some(code) => u64::from(code.number()),
        None => NONE,
    }
}

/// The address of a word that is waited for, and the word.
fn found_of(found: Option<Found>) -> (Option<Address>, Option<Word>) {
    match found {
        Some(found) => (Some(found.address), Some(found.word)),
        None => (None, None),
    }
}

fn known_of(begun: &Begun) -> Known {
    let (sought, word) = found_of(begun.found);
    let phases = begun.phases;
    [
        number_of(begun.place),
        bits_of(begun.order),
        phases.find,
        phases.take,
        phases.seek,
        phases.act,
        number_of(sought),
        bits_of(word),
        code_of(begun.prints),
        begun.passed as u64,
    ]
}

/// The same of an activity that takes so many word times in all and prints this; `None` where its waits alone are longer.
fn until(begun: Begun, times: u64, prints: Option<Code>) -> Option<Begun> {
    let phases = begun.phases;
    let are_few = phases.find <= 64 && phases.take <= 1 && phases.seek <= 64;
    if are_few && phases.find + phases.take + phases.seek <= times {
        Some(begun.until(times, prints))
    } else {
        None
    }
}

/// An activity: what is known before its order acts, how many word times it takes, and what is known then.
type Row = (Known, u64, Known);

/// Whether the activity that begins here is as its row says.
fn is_begun<A: Allocator>(machine: &Machine<A>, (waits, times, begun): &Row) -> bool {
    let (Some(before), Some(whole)) = (Begun::before_acting(machine), Begun::of(machine)) else {
        return false;
    };
    known_of(&before) == *waits
        && known_of(&whole) == *begun
        && until(before, *times, whole.prints) == Some(whole)
}

/// Orders with and without words that they wait for: one prints, one multiplies, one switches the reader on, one reads three codes, one
/// stores after that, and the last stops.
static PROGRAM: &[(u16, u32)] = &[
    (0, 0x0008_2100),
    (1, 0x0007_00c8),
    (2, 0x0008_0000),
    (3, 0x0004_0000),
    (4, 0x000c_00cc),
    (5, 0x0000_0104),
    (50, 0x0000_002a),
    (51, 0x0000_0054),
];

/// The program's orders. The clock is 0, 451, 579, 597, 1758 and 1804 where they begin.
static BEGUN: &[Row] = &[
    (
        [0, 0x0008_2100, 64, 1, 1, 0, NONE, NONE, NONE, 0],
        451,
        [0, 0x0008_2100, 64, 1, 1, 385, NONE, NONE, 33, 0],
    ),
    (
        [1, 0x0007_00c8, 6, 1, 56, 0, 50, 0x2a, NONE, 0],
        128,
        [1, 0x0007_00c8, 6, 1, 56, 65, 50, 0x2a, NONE, 0],
    ),
    (
        [2, 0x0008_0000, 15, 1, 1, 0, NONE, NONE, NONE, 0],
        18,
        [2, 0x0008_0000, 15, 1, 1, 1, NONE, NONE, NONE, 0],
    ),
    (
        [3, 0x0004_0000, 6, 1, 1, 0, NONE, NONE, NONE, 0],
        1161,
        [3, 0x0004_0000, 6, 1, 1, 1153, NONE, NONE, NONE, 0],
    ),
    (
        [4, 0x000c_00cc, 6, 1, 38, 0, 51, 0x54, NONE, 3],
        46,
        [4, 0x000c_00cc, 6, 1, 38, 1, 51, 0x54, NONE, 3],
    ),
    (
        [5, 0x0000_0104, 33, 1, 1, 0, NONE, NONE, NONE, 3],
        36,
        [5, 0x0000_0104, 33, 1, 1, 1, NONE, NONE, NONE, 3],
    ),
];

/// A word time at rest after them.
static AT_REST: Row = (
    [NONE, NONE, 0, 0, 0, 0, NONE, NONE, NONE, 3],
    1,
    [NONE, NONE, 0, 0, 0, 1, NONE, NONE, NONE, 3],
);

/// The last order performed once more, from the register.
static IN_THE_REGISTER: Row = (
    [NONE, 0x0000_0104, 0, 0, 1, 0, NONE, NONE, NONE, 3],
    2,
    [NONE, 0x0000_0104, 0, 0, 1, 1, NONE, NONE, NONE, 3],
);

/// The fourth code read by the operator.
static READ: Row = (
    [NONE, NONE, 0, 0, 0, 0, NONE, NONE, NONE, 3],
    385,
    [NONE, NONE, 0, 0, 0, 385, NONE, NONE, NONE, 3],
);

/// How many orders come before the first that does not begin as its row says.
fn orders_begun<A: Allocator>(machine: &mut Machine<A>) -> usize {
    let mut orders: usize = 0;
    for row in BEGUN {
        if !is_begun(machine, row) || machine.next_order().is_err() {
            return orders;
        }
        orders = orders.saturating_add(1);
    }
    orders
}

/// How many orders begin so, and whether the word time at rest, the order in the register and the reading do.
fn all_begun<A: Allocator>(machine: &mut Machine<A>) -> (usize, [bool; 3]) {
    press(machine, Action::Start);
    let orders = orders_begun(machine);
    let at_rest = is_begun(machine, &AT_REST);
    press(machine, Action::Mode(Mode::OneOperation));
    press(machine, Action::Execute);
    let in_the_register = is_begun(machine, &IN_THE_REGISTER);
    press(machine, Action::Mode(Mode::Manual));
    press(machine, Action::StartRead);
    let is_read = is_begun(machine, &READ);
    (orders, [at_rest, in_the_register, is_read])
}

/// Mounts a tape of four codes, of which the third is the conditional stop; whether it was taken.
fn mount<A: Allocator + Copy>(alloc: A, machine: &mut Machine<A>) -> bool {
    match read_tape_text(alloc, b"12'3") {
        Ok(codes) => machine.mount(codes).is_ok(),
        Err(_) => false,
    }
}

#[test]
fn what_is_known_when_an_activity_begins(rt: HostRuntime) {
    let seen = match with_words(rt.alloc(), PROGRAM) {
        Some(mut machine) => (mount(rt.alloc(), &mut machine), all_begun(&mut machine)),
        None => (false, (0, [false; 3])),
    };
    expect_eq(&rt, seen, (true, (6, [true; 3])));
}

/// How many of the sixteen orders wait for a word, and how many store one.
fn users() -> (usize, usize) {
    let mut waiting: usize = 0;
    let mut storing: usize = 0;
    for letter in b"zbyridnmpeuthcas" {
        if let Some(op) = Op::of_letter(*letter) {
            waiting = waiting.saturating_add(usize::from(seeks(op)));
            storing = storing.saturating_add(usize::from(stores(op)));
        }
    }
    (waiting, storing)
}

#[test]
fn orders_that_use_a_word(rt: HostRuntime) {
    expect_eq(&rt, users(), (11, 4));
}
