//! Orders that change orders, whichever way they are performed, and marks to return to.

use super::{
    CLOCK_END, PRINT, address, look, mount_text, next_order, press, printed, put, shown, started,
    status_after, tape_left, tape_passed, turns, with_tape, word_at,
};
use crate::expect_eq;
use lgp_flexo::{Code, TAPE_LIMIT, read_tape_text};
use lgp_machine::{Look, Machine, Mark, OrderFault, PressFault, Pressed, PutFault};
use lgp_table::{Action, Cause, Mode, Status};
use lgp_word::{Address, Word};
use std::alloc::{Allocator, Global};

/// A load, an address stored into the order after it, and that order.
static ADDRESS: [(u16, u32); 5] = [
    (0, 0x0001_00c8),
    (1, 0x0002_0008),
    (2, 0x0001_0000),
    (50, 0x0000_0100),
    (64, 0x0000_0022),
];

/// A load, an order that stores the loaded word over itself, and a transfer back to it.
static REPLACED: [(u16, u32); 4] = [
    (0, 0x0001_00c8),
    (1, 0x000d_0004),
    (2, 0x000a_0004),
    (50, 0x000a_0000),
];

/// What shows after some orders, and a word of the drum; `None` where an order was refused.
type After = Option<(Option<Look>, u32)>;

/// One order, in one call or by its word times; whether it came to its end.
fn order<A: Allocator>(machine: &mut Machine<A>, in_one_call: bool) -> bool {
    if in_one_call {
        return next_order(machine).is_ok();
    }
    matches!(turns(machine, 1000), (_, Ok(true)))
}

/// What shows after a given number of orders, and a word.
fn after_orders<A: Allocator>(
    machine: &mut Machine<A>,
    orders: u64,
    at: u16,
    in_one_call: bool,
) -> After {
    for _ in 0..orders {
        if !order(machine, in_one_call) {
            return None;
        }
    }
    Some((look(machine), word_at(machine, at)))
}

/// The same of a program from its start.
fn after_start(
    global: Global,
    words: &[(u16, u32)],
    orders: u64,
    at: u16,
    in_one_call: bool,
) -> After {
    let mut machine = started(global, words)?;
    after_orders(&mut machine, orders, at, in_one_call)
}

/// The same by word times and in one call.
fn both_ways(global: Global, words: &[(u16, u32)], orders: u64, at: u16) -> [After; 2] {
    [
        after_start(global, words, orders, at, false),
        after_start(global, words, orders, at, true),
    ]
}

#[test]
fn changed_orders_both_ways(rt: HostRuntime) {
    let stored = shown(3, 0x22, 0x0001_0100, Status::Going, 193);
    let replaced = shown(0, 0, 0x000a_0000, Status::Going, 204);
    expect_eq(
        &rt,
        (
            both_ways(rt.alloc(), &ADDRESS, 3, 2),
            both_ways(rt.alloc(), &REPLACED, 4, 1),
        ),
        (
            [Some((stored, 0x0001_0100)); 2],
            [Some((replaced, 0x000a_0000)); 2],
        ),
    );
}

/// The mark of a machine at a boundary.
fn mark<A: Allocator>(machine: &Machine<A>) -> Option<Mark> {
    machine.mark()
}

/// Returns to a mark; `None`, and nothing changes, without one, within an activity or with a clock past its end.
fn return_to<A: Allocator>(
    machine: &mut Machine<A>,
    mark: Option<Mark>,
    change: Option<(Address, Word)>,
) -> Option<bool> {
    let mark = mark?;
    if machine.mark().is_none() || mark.clock > CLOCK_END {
        return None;
    }
    Some(machine.return_to(&mark, change))
}

/// What shows, how many codes are printed, and the first one.
type Paper = (Option<Look>, (usize, Option<Code>));

fn paper<A: Allocator>(machine: &Machine<A>) -> Paper {
    (look(machine), printed(machine))
}

/// Before the print.
fn before_print() -> Paper {
    (shown(0, 0, 0, Status::Going, 0), (0, None))
}

/// After it.
fn after_print() -> Paper {
    (shown(1, 0, PRINT, Status::Going, 451), (1, Code::new(57)))
}

/// A print, the way back and the way to a mark further on: whether each way was gone, and what shows before and after each.
type Print = ([Option<bool>; 2], [Paper; 4]);

/// Prints, goes back, and tries to go on to where it has been.
fn print_and_back(global: Global) -> Option<Print> {
    let mut machine = started(global, &[(0, PRINT)])?;
    let first = mark(&machine);
    let before = paper(&machine);
    let _ = next_order(&mut machine);
    let after = paper(&machine);
    let further = mark(&machine);
    let is_back = return_to(
        &mut machine,
        first,
        Some((address(0), Word::of_bits(PRINT))),
    );
    let back = paper(&machine);
    let is_further = return_to(&mut machine, further, None);
    Some((
        [is_back, is_further],
        [before, after, back, paper(&machine)],
    ))
}

#[test]
fn a_printed_code_goes_back(rt: HostRuntime) {
    let papers = [
        before_print(),
        after_print(),
        before_print(),
        before_print(),
    ];
    expect_eq(
        &rt,
        print_and_back(rt.alloc()),
        Some(([Some(true), Some(false)], papers)),
    );
}

/// Sets the tape of a text of which a given number of codes count as passed; false, and nothing changes, where that is no such tape or the
/// machine is within an activity.
fn set_text<A: Allocator + Copy>(
    machine: &mut Machine<A>,
    alloc: A,
    text: &[u8],
    passed: usize,
) -> bool {
    let Ok(codes) = read_tape_text(alloc, text) else {
        return false;
    };
    if machine.mark().is_none() || passed > codes.len() || codes.len() > TAPE_LIMIT {
        return false;
    }
    machine.set_tape(codes, passed);
    true
}

/// A tape that is mounted and another one that is set, whether each was, and how many codes have passed and are left then.
fn mounted_and_set(global: Global) -> Option<([bool; 2], [Option<usize>; 2])> {
    let mut machine = Machine::new(global).ok()?;
    let mounted = mount_text(&mut machine, global, b"123'");
    let set = set_text(&mut machine, global, b"abc", 2);
    Some(([mounted, set], [tape_passed(&machine), tape_left(&machine)]))
}

#[test]
fn a_tape_is_set_within_itself(rt: HostRuntime) {
    expect_eq(
        &rt,
        mounted_and_set(rt.alloc()),
        Some(([true; 2], [Some(2), Some(1)])),
    );
}
