//! The plain types.

use crate::expect_eq;
use lgp_table::{Cause, Ending, Mode, Panel, Status, Switches};
use lgp_word::{Address, Word};

const OPERATOR: Status = Status::Halted(Cause::Operator);

/// Modes, how each goes on, and its status at the end of a tape.
static MODES: [(Mode, Status, Status); 3] = [
    (Mode::Normal, Status::Going, Status::Waiting),
    (
        Mode::OneOperation,
        Status::Halted(Cause::Step),
        Status::Waiting,
    ),
    (Mode::Manual, OPERATOR, OPERATOR),
];

/// Statuses: whether each is halted, waits, and is at rest.
static STATUSES: [(Status, [bool; 3]); 5] = [
    (Status::Halted(Cause::Stop), [true, false, true]),
    (Status::Waiting, [false, true, true]),
    (Status::Going, [false; 3]),
    (Status::Executing, [false; 3]),
    (Status::Reading, [false; 3]),
];

/// How orders end, and the status then.
static ENDINGS: [(Ending, Status); 4] = [
    (Ending::Plain, Status::Going),
    (Ending::Stopped, Status::Halted(Cause::Stop)),
    (Ending::Overflowed, Status::Halted(Cause::Overflow)),
    (Ending::Unfinished, Status::Waiting),
];

#[test]
fn modes_statuses_and_endings(rt: HostRuntime) {
    for (mode, goes_on, at_end) in &MODES {
        let seen = (mode.resume(), mode.status_at_end());
        expect_eq(&rt, seen, (*goes_on, *at_end));
    }
    for (status, wanted) in &STATUSES {
        let seen = [status.is_halted(), status.is_waiting(), status.is_at_rest()];
        expect_eq(&rt, (*status, seen), (*status, *wanted));
    }
    for (ending, wanted) in &ENDINGS {
        expect_eq(&rt, ending.status_after(Status::Going), *wanted);
    }
}

#[test]
fn the_opening_registers(rt: HostRuntime) {
    expect_eq(
        &rt,
        Panel::opening(),
        Panel {
            counter: Address::default(),
            accumulator: 0,
            register: Word::default(),
            status: OPERATOR,
            mode: Mode::Normal,
            switches: Switches::default(),
        },
    );
}
