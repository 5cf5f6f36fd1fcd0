//! What each action does.

use super::key;
use crate::expect_eq;
use lgp_console::{act, is_live};
use lgp_reader::Reader;
use lgp_table::{Action, Cause, Mode, Panel, Status, Switches, Which};
use lgp_word::{Address, Word};
use std::alloc::Global;

const OPERATOR: Status = Status::Halted(Cause::Operator);

const STOPPED: Status = Status::Halted(Cause::Stop);

const STEPPED: Status = Status::Halted(Cause::Step);

static MODES: [Mode; 3] = [Mode::Normal, Mode::OneOperation, Mode::Manual];

const OVERFLOWED: Status = Status::Halted(Cause::Overflow);

const WAITS: Status = Status::Waiting;

const GOING: Status = Status::Going;

const ACTS: Status = Status::Executing;

const READS: Status = Status::Reading;

static STATUSES: [Status; 8] = [
    OPERATOR, STOPPED, OVERFLOWED, STEPPED, WAITS, GOING, ACTS, READS,
];

/// Registers with something in each.
fn panel(status: Status, mode: Mode) -> Panel {
    Panel {
        counter: Address::new(64).unwrap_or_default(),
        accumulator: 0x8000_0013,
        register: Word::of_bits(8),
        status,
        mode,
        switches: Switches::default(),
    }
}

/// What a press answers and leaves, and whether the reader, off before, is on.
fn pressed(global: Global, before: &Panel, action: Action) -> (bool, Panel, bool) {
    let mut reader = Reader::new(global);
    let mut panel = *before;
    let live = act(&mut panel, &mut reader, action);
    (live, panel, reader.is_on())
}

/// Whether a press is live, leaves these registers and leaves the reader off.
fn leaves(global: Global, before: &Panel, action: Action, wanted: &Panel) -> bool {
    let (live, after, on) = pressed(global, before, action);
    live && after == *wanted && !on
}

/// Where an action is live: where the machine has halted in the three modes, where it waits, and at work.
type Living = [bool; 5];

const ALWAYS: Living = [true; 5];

const HALTED: Living = [true, true, true, false, false];

const TAKING_CODES: Living = [false, false, true, true, false];

const WAITING: Living = [false, false, false, true, false];

const NEVER: Living = [false; 5];

const START: Living = [true, true, false, false, false];

const EXECUTE: Living = [false, true, false, false, false];

/// Whether an action is live at a status and in a mode.
fn reported(living: &Living, status: Status, mode: Mode) -> bool {
    match status {
        Status::Halted(_) => living[mode as usize % 3],
        Status::Waiting => living[3],
        Status::Going | Status::Executing | Status::Reading => living[4],
    }
}

/// Whether an action is live or dead as reported, both before it is pressed and then, and changes nothing where it is dead.
fn lives(global: Global, before: &Panel, action: &Action, live: bool) -> bool {
    let (answer, after, on) = pressed(global, before, *action);
    answer == live && is_live(before, action) == live && (live || (after == *before && !on))
}

/// The first status and mode where an action is not live or dead as reported.
fn first_unreported(global: Global, action: &Action, living: &Living) -> Option<(Status, Mode)> {
    for mode in &MODES {
        for status in &STATUSES {
            let live = reported(living, *status, *mode);
            if !lives(global, &panel(*status, *mode), action, live) {
                return Some((*status, *mode));
            }
        }
    }
    None
}

/// Each action, and where it is live.
fn table() -> [(Action, Living); 15] {
    [
        (Action::Mode(Mode::Normal), ALWAYS),
        (Action::Mode(Mode::OneOperation), ALWAYS),
        (Action::Mode(Mode::Manual), ALWAYS),
        (Action::Start, START),
        (Action::ClearCounter, HALTED),
        (Action::Fill, HALTED),
        (Action::Execute, EXECUTE),
        (key(6), TAKING_CODES),
        (key(32), WAITING),
        (key(16), NEVER),
        (Action::StartCompute, WAITING),
        (Action::StartRead, TAKING_CODES),
        (Action::BreakPoint(Which::B8, true), ALWAYS),
        (Action::Transfer(true), ALWAYS),
        (Action::SixBit(true), ALWAYS),
    ]
}

/// Statuses in Normal, and the ones after the three mode buttons.
fn buttons() -> [(Status, [Status; 3]); 5] {
    [
        (STOPPED, [STOPPED; 3]),
        (GOING, [GOING, OPERATOR, OPERATOR]),
        (ACTS, [ACTS, ACTS, OPERATOR]),
        (WAITS, [WAITS, WAITS, OPERATOR]),
        (READS, [READS, READS, OPERATOR]),
    ]
}

/// Whether the three mode buttons set the mode, and nothing else but these statuses.
fn set_modes(global: Global, before: Status, left: &[Status; 3]) -> [bool; 3] {
    let normal = panel(before, Mode::Normal);
    [
        leaves(
            global,
            &normal,
            Action::Mode(MODES[0]),
            &panel(left[0], MODES[0]),
        ),
        leaves(
            global,
            &normal,
            Action::Mode(MODES[1]),
            &panel(left[1], MODES[1]),
        ),
        leaves(
            global,
            &normal,
            Action::Mode(MODES[2]),
            &panel(left[2], MODES[2]),
        ),
    ]
}

/// A break point's switch, put down.
fn breaks(which: Which) -> Action {
    Action::BreakPoint(which, true)
}

/// What sets a switch, or puts one up that is up already, and which of the six is down then.
fn switches() -> [(Action, [bool; 6]); 7] {
    [
        (
            breaks(Which::B32),
            [true, false, false, false, false, false],
        ),
        (
            breaks(Which::B16),
            [false, true, false, false, false, false],
        ),
        (breaks(Which::B8), [false, false, true, false, false, false]),
        (breaks(Which::B4), [false, false, false, true, false, false]),
        (
            Action::Transfer(true),
            [false, false, false, false, true, false],
        ),
        (
            Action::SixBit(true),
            [false, false, false, false, false, true],
        ),
        (Action::BreakPoint(Which::B4, false), [false; 6]),
    ]
}

/// Whether an action at work leaves these switches, and changes nothing else.
fn sets(global: Global, action: Action, down: &[bool; 6]) -> bool {
    let before = panel(GOING, Mode::Normal);
    let mut wanted = before;
    wanted.switches = Switches {
        b32: down[0],
        b16: down[1],
        b8: down[2],
        b4: down[3],
        transfer: down[4],
        six_bit: down[5],
    };
    leaves(global, &before, action, &wanted)
}

#[test]
fn actions_are_live_by_the_table_and_set_modes_and_switches(rt: HostRuntime) {
    let alloc = rt.alloc();
    for (action, living) in &table() {
        let found = first_unreported(alloc, action, living);
        expect_eq(&rt, (*action, found), (*action, None));
    }
    for (status, left) in &buttons() {
        let found = set_modes(alloc, *status, left);
        expect_eq(&rt, (*status, found), (*status, [true; 3]));
    }
    for (action, down) in &switches() {
        expect_eq(&rt, (*action, sets(alloc, *action, down)), (*action, true));
    }
}

/// What a machine that has halted in One Operation is to have after an action.
fn halted_wanted(action: &Action) -> Panel {
    let mut wanted = panel(STEPPED, Mode::OneOperation);
    match *action {
        Action::Start => wanted.status = GOING,
        Action::ClearCounter => wanted.counter = Address::default(),
        Action::Fill => wanted.register = Word::of_bits(0x8000_0012),
        _ => wanted.status = ACTS,
    }
    wanted
}

/// Whether an action leaves that.
fn halted_leaves(global: Global, action: &Action) -> bool {
    let before = panel(STEPPED, Mode::OneOperation);
    leaves(global, &before, *action, &halted_wanted(action))
}

/// Whether the key of code 6 changes the accumulator alone, and to this.
fn enters(global: Global, status: Status, six_bit: bool, accumulator: u32) -> bool {
    let mut before = panel(status, Mode::Manual);
    before.switches.six_bit = six_bit;
    let mut wanted = before;
    wanted.accumulator = accumulator;
    leaves(global, &before, key(6), &wanted)
}

/// Whether both actions that end an input in a mode leave this status, and change nothing else.
fn end_input(global: Global, mode: Mode, status: Status) -> bool {
    let (before, wanted) = (panel(WAITS, mode), panel(status, mode));
    leaves(global, &before, Action::StartCompute, &wanted)
        && leaves(global, &before, key(32), &wanted)
}

/// Whether the tape reader is switched on, and nothing else changes but the status.
fn starts_reading(global: Global, status: Status, mode: Mode) -> bool {
    let before = panel(status, mode);
    let (live, after, on) = pressed(global, &before, Action::StartRead);
    live && on && after == panel(READS, mode)
}

#[test]
fn halted_and_waiting_machines_take_actions(rt: HostRuntime) {
    let alloc = rt.alloc();
    let halted = [
        halted_leaves(alloc, &Action::Start),
        halted_leaves(alloc, &Action::ClearCounter),
        halted_leaves(alloc, &Action::Fill),
        halted_leaves(alloc, &Action::Execute),
    ];
    let entered = [
        enters(alloc, OPERATOR, false, 0x131),
        enters(alloc, WAITS, false, 0x131),
        enters(alloc, WAITS, true, 0x4c6),
    ];
    let ended = [
        end_input(alloc, Mode::Normal, GOING),
        end_input(alloc, Mode::OneOperation, STEPPED),
        end_input(alloc, Mode::Manual, OPERATOR),
    ];
    let reading = [
        starts_reading(alloc, WAITS, Mode::Normal),
        starts_reading(alloc, WAITS, Mode::OneOperation),
        starts_reading(alloc, OPERATOR, Mode::Manual),
    ];
    expect_eq(
        &rt,
        (halted, entered, ended, reading),
        ([true; 4], [true; 3], [true; 3], [true; 3]),
    );
}
