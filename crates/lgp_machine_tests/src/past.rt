//! A debugger with its whole past: every order is gone back to, and what shows there is what showed when it began.

mod growths;

use crate::{TRANSFER, address, expect_eq};
use lgp_debugger::{IdleFault, Ran, RunFault};
use lgp_flexo::{Code, read_tape_text};
use lgp_machine::{Look, MountFault, PutFault};
use lgp_past::{PastFault, Timeline};
use lgp_table::Action;
use lgp_word::Word;
use std::alloc::{AllocError, Allocator};

// The calls without their contracts, which would fill the context of each test.

/// A new machine with its past, of which the debugger itself keeps 64 steps.
fn timeline<A: Allocator + Copy>(alloc: &A) -> Result<Timeline<A>, AllocError> {
    Timeline::new(alloc, 64)
}

fn put<A: Allocator + Copy>(lab: &mut Timeline<A>, at: u16, bits: u32) -> Result<(), PutFault> {
    lab.put(address(at), Word::of_bits(bits))
}

fn press<A: Allocator + Copy>(lab: &mut Timeline<A>, action: Action) -> Result<bool, AllocError> {
    lab.press(action)
}

fn idle<A: Allocator + Copy>(lab: &mut Timeline<A>, times: u64) -> Result<(), IdleFault> {
    lab.idle(times)
}

fn mount<A: Allocator + Copy>(
    lab: &mut Timeline<A>,
    codes: Vec<Code, A>,
) -> Result<(), (MountFault, Vec<Code, A>)> {
    lab.mount(codes)
}

fn run<A: Allocator + Copy>(lab: &mut Timeline<A>, limit: u64) -> Result<Ran, RunFault> {
    lab.run(limit)
}

fn go_to<A: Allocator + Copy>(lab: &mut Timeline<A>, order: u64) -> Result<(), PastFault> {
    lab.go_to(order)
}

fn keep_copy<A: Allocator + Copy>(lab: &mut Timeline<A>) -> Result<(), AllocError> {
    lab.keep_copy()
}

/// What shows at a boundary: the clock, accumulator, counter and register, whether the machine is at rest, two words of the drum, and how
/// many codes are printed and left on the tape.
type Seen = [u64; 9];

fn look<A: Allocator + Copy>(lab: &Timeline<A>) -> Look {
    lab.debugger().look()
}

fn word<A: Allocator + Copy>(lab: &Timeline<A>, at: u16) -> u64 {
    u64::from(lab.debugger().machine().word(address(at)).get())
}

fn lengths<A: Allocator + Copy>(lab: &Timeline<A>) -> (u64, u64) {
    let machine = lab.debugger().machine();
    let left = machine.tape_left().map_or(0, |codes| codes.len());
    (machine.printed().len() as u64, left as u64)
}

fn seen<A: Allocator + Copy>(lab: &Timeline<A>) -> Seen {
    let now = look(lab);
    let (printed, left) = lengths(lab);
    [
        now.clock,
        u64::from(now.accumulator),
        u64::from(now.counter.number()),
        u64::from(now.register.get()),
        u64::from(now.status.is_at_rest()),
        word(lab, 64),
        word(lab, 65),
        printed,
        left,
    ]
}

/// A loop that adds, prints and stops: what is at 0101 is added to what is at 0100.
const LOOP: [u32; 6] = [
    0x0001_0100,
    0x000e_0104,
    0x000c_0100,
    0x0008_3900,
    0x0000_0000,
    TRANSFER,
];

fn write_loop<A: Allocator + Copy>(lab: &mut Timeline<A>) -> Option<()> {
    let mut at = 0;
    for bits in &LOOP {
        put(lab, at, *bits).ok()?;
        at = at.saturating_add(1);
    }
    Some(())
}

/// What an operator does between two rounds: another number to add, a pause, sometimes a tape, a copy at every fourth round.
fn between<A: Allocator + Copy>(lab: &mut Timeline<A>, alloc: A, round: u16) -> Option<()> {
    put(lab, 65, u32::from(round).saturating_mul(8)).ok()?;
    idle(lab, u64::from(round)).ok()?;
    if round % 3 == 0 {
        let codes = read_tape_text(alloc, b"12'").ok()?;
        mount(lab, codes).ok()?;
    }
    if round % 4 == 0 {
        keep_copy(lab).ok()?;
    }
    press(lab, Action::Start).ok()?;
    Some(())
}

/// A round, order by order, with what shows before each.
fn round<A: Allocator + Copy>(lab: &mut Timeline<A>, shown: &mut Vec<Seen, A>) -> Option<()> {
    for _ in 0..8 {
        let before = seen(lab);
        if run(lab, 1).ok()?.orders == 1 {
            shown.push(before).ok()?;
        }
    }
    Some(())
}

/// Rounds of the loop, and what showed before each order.
fn session<A: Allocator + Copy>(
    lab: &mut Timeline<A>,
    alloc: A,
    rounds: u16,
) -> Option<Vec<Seen, A>> {
    let mut shown = Vec::new(alloc);
    write_loop(lab)?;
    for number in 0..rounds {
        between(lab, alloc, number)?;
        round(lab, &mut shown)?;
    }
    Some(shown)
}

/// The number of the first order, from the last one back, that does not show what it showed; of every order, or of one in 64.
fn first_other<A: Allocator + Copy>(
    lab: &mut Timeline<A>,
    shown: &[Seen],
    every: bool,
) -> Option<u64> {
    for back in 0..shown.len() {
        let order = shown.len() - 1 - back;
        if !every && order % 64 != 0 {
            continue;
        }
        if go_to(lab, order as u64) != Ok(()) || seen(lab) != shown[order] {
            return Some(order as u64);
        }
    }
    None
}

/// How many orders there were, whether an order more than all is refused, and the first that is not as it was.
type Answer = (u64, bool, Option<u64>);

fn gone_through<A: Allocator + Copy>(
    lab: &mut Timeline<A>,
    alloc: A,
    rounds: u16,
    every: bool,
) -> Option<Answer> {
    let shown = session(lab, alloc, rounds)?;
    let orders = lab.all_orders();
    let refused = go_to(lab, orders.saturating_add(1)) == Err(PastFault::NotYet(orders));
    let other = first_other(lab, shown.as_slice(), every);
    Some((
        shown.len() as u64,
        refused && orders == shown.len() as u64,
        other,
    ))
}

/// The same of a new one.
fn new_gone_through<A: Allocator + Copy>(alloc: A, rounds: u16, every: bool) -> Option<Answer> {
    let Ok(mut lab) = timeline(&alloc) else {
        return None;
    };
    gone_through(&mut lab, alloc, rounds, every)
}

#[test]
fn every_order_is_gone_back_to(rt: HostRuntime) {
    let alloc = rt.alloc();
    expect_eq(
        &rt,
        new_gone_through(alloc, 20, true),
        Some((119, true, None)),
    );
}

#[test]
fn a_long_past_is_gone_back_through(rt: HostRuntime) {
    let alloc = rt.alloc();
    expect_eq(
        &rt,
        new_gone_through(alloc, 300, false),
        Some((1799, true, None)),
    );
}
