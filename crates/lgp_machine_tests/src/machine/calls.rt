//! Single calls, and what shows after each.

use super::{
    CLOCK_END, PRINT, TRANSFER, address, ahead, live, look, mount_codes, mount_text, next_order,
    parts_at, press, printed, put, rest, shown, status_after, tape_left, turn, turns, word_at,
};
use crate::console::key;
use crate::expect_eq;
use lgp_flexo::{Code, TAPE_LIMIT};
use lgp_machine::{Machine, MountFault, OrderFault, Pressed, PutFault, RestFault, TurnFault};
use lgp_table::{Action, Cause, Mode, Status};
use lgp_word::Op;
use std::alloc::{Allocator, Global};

const OPERATOR: Status = Status::Halted(Cause::Operator);

/// A button of the console.
#[derive(Clone, Copy)]
enum Button {
    Start,
    Manual,
}

/// A call or a look, and last what it has to answer.
enum Row {
    /// What shows in Normal with a blank accumulator: counter, register, status and clock.
    Shows(u16, u32, Status, u64),
    /// Within an activity nothing shows, lies ahead or is live, and no tape is seen.
    Hidden,
    WordAt(u16, u32),
    /// The parts of the word at 0000 are those of a transfer to 0000.
    Transfers,
    /// How many codes are printed, and the first one's number.
    Printed(usize, Option<u8>),
    TapeLeft(usize),
    /// What the next activity costs, and the number of the code that it prints.
    Ahead(u64, Option<u8>),
    /// The status after an activity.
    After(Result<Status, OrderFault>),
    Turn(Result<bool, TurnFault>),
    /// Word times until one ends at a boundary or is refused, at most a given number: how many there were, and what the last one
    /// answered.
    Turns(u64, (u64, Result<bool, TurnFault>)),
    Rest(u64, Result<(), RestFault>),
    Put(u16, u32, Result<(), PutFault>),
    Press(Button, Pressed),
    /// A key by the number of its code: whether it is predicted to be live or dead, is so, and leaves this accumulator.
    Strike((u8, Pressed, u32)),
    /// A tape of a given number of codes; a refused one is reported by the number of codes handed back.
    Mount(usize, Result<(), (MountFault, usize)>),
}

fn action_of(button: Button) -> Action {
    match button {
        Button::Start => Action::Start,
        Button::Manual => Action::Mode(Mode::Manual),
    }
}

/// The code of a number.
fn code(number: Option<u8>) -> Option<Code> {
    Code::new(number?)
}

/// The accumulator and the clock; `None` within an activity.
fn accumulator_and_clock<A: Allocator>(machine: &Machine<A>) -> Option<(u32, u64)> {
    let look = look(machine)?;
    Some((look.accumulator, look.clock))
}

/// Whether none of the looks that need a boundary shows anything.
fn is_hidden<A: Allocator>(machine: &Machine<A>) -> bool {
    look(machine).is_none()
        && ahead(machine).is_none()
        && live(machine, Action::Start).is_none()
        && tape_left(machine).is_none()
}

/// Whether a look answers so.
fn is_seen<A: Allocator>(machine: &Machine<A>, row: &Row) -> bool {
    match row {
        Row::Shows(counter, register, status, clock) => {
            look(machine) == shown(*counter, 0, *register, *status, *clock)
        }
        Row::Hidden => is_hidden(machine),
        Row::WordAt(at, wanted) => word_at(machine, *at) == *wanted,
        Row::Transfers => parts_at(machine, 0) == (false, Op::U, address(0)),
        Row::Printed(count, number) => printed(machine) == (*count, code(*number)),
        Row::TapeLeft(wanted) => tape_left(machine) == Some(*wanted),
        Row::Ahead(cost, number) => ahead(machine) == Some((*cost, code(*number))),
        _ => false,
    }
}

/// Whether a key is predicted to be live or dead, is so, and leaves this accumulator at clock 0.
fn strikes<A: Allocator>(
    machine: &mut Machine<A>,
    (number, pressed, accumulator): &(u8, Pressed, u32),
) -> bool {
    live(machine, key(*number)) == Some(*pressed == Pressed::Live)
        && press(machine, key(*number)) == Ok(*pressed)
        && accumulator_and_clock(machine) == Some((*accumulator, 0))
}

/// Whether orders and word times or a look answer so.
fn is_performed<A: Allocator>(machine: &mut Machine<A>, row: &Row) -> bool {
    match row {
        Row::After(wanted) => status_after(machine) == *wanted,
        Row::Turn(wanted) => turn(machine) == *wanted,
        Row::Turns(limit, wanted) => turns(machine, *limit) == *wanted,
        Row::Rest(times, wanted) => rest(machine, *times) == *wanted,
        _ => is_seen(machine, row),
    }
}

/// Whether what an operator does or anything of the above answers so.
fn is_answered(global: Global, machine: &mut Machine, row: &Row) -> bool {
    match row {
        Row::Put(at, bits, wanted) => put(machine, *at, *bits) == *wanted,
        Row::Press(button, wanted) => press(machine, action_of(*button)) == Ok(*wanted),
        Row::Strike(wanted) => strikes(machine, wanted),
        Row::Mount(count, wanted) => mount_codes(machine, global, *count) == Some(*wanted),
        _ => is_performed(machine, row),
    }
}

/// A transfer shows its parts before it is kept decoded and after.
const PARTS: &[Row] = &[
    Row::Put(0, TRANSFER, Ok(())),
    Row::Press(Button::Start, Pressed::Live),
    Row::Transfers,
    Row::After(Ok(Status::Going)),
    Row::Transfers,
];

/// The opening state: the last word is blank, nothing is printed, no tape is there, and a word time at rest lies ahead.
const OPENING: &[Row] = &[
    Row::Shows(0, 0, OPERATOR, 0),
    Row::WordAt(4095, 0),
    Row::Printed(0, None),
    Row::TapeLeft(0),
    Row::Ahead(1, None),
];

/// No order is performed at rest, and the clock goes on by five word times and by one.
const AT_REST: &[Row] = &[
    Row::After(Err(OrderFault::AtRest)),
    Row::Rest(5, Ok(())),
    Row::Shows(0, 0, OPERATOR, 5),
    Row::Turn(Ok(true)),
    Row::Shows(0, 0, OPERATOR, 6),
];

/// The eight digits of a word struck in Manual, and two keys that are dead there.
const KEYS: &[Row] = &[
    Row::Press(Button::Manual, Pressed::Live),
    Row::Strike((2, Pressed::Live, 0)),
    Row::Strike((2, Pressed::Live, 0)),
    Row::Strike((2, Pressed::Live, 0)),
    Row::Strike((2, Pressed::Live, 0)),
    Row::Strike((2, Pressed::Live, 0)),
    Row::Strike((2, Pressed::Live, 0)),
    Row::Strike((2, Pressed::Live, 0)),
    Row::Strike((18, Pressed::Live, 4)),
    Row::Strike((32, Pressed::Dead, 4)),
    Row::Strike((16, Pressed::Dead, 4)),
];

/// Within an order nothing shows. The calls that need a boundary are refused, a tape is handed back, and the word put is not there.
const WITHIN: &[Row] = &[
    Row::Put(0, TRANSFER, Ok(())),
    Row::Press(Button::Start, Pressed::Live),
    Row::Turn(Ok(false)),
    Row::Hidden,
    Row::After(Err(OrderFault::Moving)),
    Row::Put(0, 2, Err(PutFault::Moving)),
    Row::Mount(2, Err((MountFault::Moving, 2))),
    Row::Rest(0, Err(RestFault::AtWork)),
    Row::WordAt(0, TRANSFER),
];

/// An order of seven word times begins four before the clock's end, is refused whole and changes nothing, and within it the fifth
/// word time is refused and a press is kept.
const END_WITHIN: &[Row] = &[
    Row::Put(0, TRANSFER, Ok(())),
    Row::Rest(CLOCK_END - 4, Ok(())),
    Row::Press(Button::Start, Pressed::Live),
    Row::Ahead(7, None),
    Row::Shows(0, 0, Status::Going, CLOCK_END - 4),
    Row::After(Err(OrderFault::ClockEnd)),
    Row::Shows(0, 0, Status::Going, CLOCK_END - 4),
    Row::Turns(7, (5, Err(TurnFault::ClockEnd))),
    Row::Press(Button::Start, Pressed::Kept),
];

/// A machine at rest goes to the clock's end, and no word time further.
const END_AT_REST: &[Row] = &[
    Row::Rest(CLOCK_END, Ok(())),
    Row::Turn(Err(TurnFault::ClockEnd)),
    Row::Rest(1, Err(RestFault::ClockEnd)),
    Row::Rest(0, Ok(())),
    Row::Shows(0, 0, OPERATOR, CLOCK_END),
];

/// A tape that is one code too long is handed back; the longest one is taken.
const LONG_TAPES: &[Row] = &[
    Row::Mount(TAPE_LIMIT + 1, Err((MountFault::TooLong, 1_048_577))),
    Row::TapeLeft(0),
    Row::Mount(1_048_576, Ok(())),
    Row::TapeLeft(1_048_576),
];

/// Each on a new machine.
static STORIES: [&[Row]; 8] = [
    PARTS,
    OPENING,
    AT_REST,
    KEYS,
    WITHIN,
    END_WITHIN,
    END_AT_REST,
    LONG_TAPES,
];

/// The place of the first row that answers otherwise, or how many there are.
fn first_otherwise(global: Global, machine: &mut Machine, rows: &[Row]) -> usize {
    let mut place = 0usize;
    for row in rows {
        if !is_answered(global, machine, row) {
            return place;
        }
        place = place.saturating_add(1);
    }
    place
}

/// The same on a new machine; more than there are without memory.
fn first_on_a_new_one(global: Global, rows: &[Row]) -> usize {
    match Machine::new(global) {
        Ok(mut machine) => first_otherwise(global, &mut machine, rows),
        Err(_) => usize::MAX,
    }
}

#[test]
fn calls_are_answered_at_rest_within_an_order_and_at_the_clocks_end(rt: HostRuntime) {
    for rows in &STORIES {
        expect_eq(&rt, first_on_a_new_one(rt.alloc(), rows), rows.len());
    }
}
