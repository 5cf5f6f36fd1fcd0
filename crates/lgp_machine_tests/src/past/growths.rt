//! Growths refused one after the other: what is refused changes nothing, and no memory is lost.

use super::{Seen, go_to, idle, keep_copy, mount, press, put, run, seen, timeline, write_loop};
use crate::{End, end_of, expect_eq, in_turn};
use lgp_debugger::{IdleFault, RunRefusal};
use lgp_flexo::read_tape_text;
use lgp_limited::Limited;
use lgp_machine::{MountFault, PutFault};
use lgp_past::{PastFault, Timeline};
use lgp_table::Action;
use std::alloc::{Allocator, Global};

/// A call of a debugger with its past.
#[derive(Clone, Copy)]
enum Call {
    Put,
    Idle,
    Press,
    Mount,
    KeepCopy,
    /// The order of a round that prints.
    Print,
    GoTo(u64),
}

/// Mounts the tape of 1 and 2.
fn mount_text<A: Allocator + Copy>(lab: &mut Timeline<A>, alloc: A) -> End {
    let Ok(codes) = read_tape_text(alloc, b"12'") else {
        return End::Refused;
    };
    match mount(lab, codes) {
        Ok(()) => End::Done,
        Err((fault, _codes)) => end_of(false, fault == MountFault::Memory),
    }
}

/// Performs an order.
fn run_one<A: Allocator + Copy>(lab: &mut Timeline<A>) -> End {
    match run(lab, 1) {
        Ok(_) => End::Done,
        Err(fault) => end_of(false, fault.fault == RunRefusal::Memory),
    }
}

/// Makes a call; how it ends.
fn called<A: Allocator + Copy>(lab: &mut Timeline<A>, alloc: A, call: Call) -> End {
    match call {
        Call::Put => {
            let answer = put(lab, 65, 8);
            end_of(answer.is_ok(), answer == Err(PutFault::Memory))
        }
        Call::Idle => {
            let answer = idle(lab, 7);
            end_of(answer.is_ok(), answer == Err(IdleFault::Memory))
        }
        Call::Press => {
            let answer = press(lab, Action::Start);
            end_of(answer == Ok(true), answer.is_err())
        }
        Call::Mount => mount_text(lab, alloc),
        Call::KeepCopy => {
            let answer = keep_copy(lab);
            end_of(answer.is_ok(), answer.is_err())
        }
        Call::Print => run_one(lab),
        Call::GoTo(order) => {
            let answer = go_to(lab, order);
            end_of(answer.is_ok(), answer == Err(PastFault::Memory))
        }
    }
}

/// How a call ends that changes nothing where it is refused, and then keeps as much memory as before.
fn unless_changed<A: Allocator + Copy>(
    ended: End,
    lab: &Timeline<A>,
    before: &(Seen, u64),
    orders: u64,
) -> End {
    match ended {
        End::Refused if seen(lab) != before.0 || orders != before.1 => End::Otherwise,
        _ => ended,
    }
}

/// Makes a call with each growth refused in turn. How many there were.
fn call_in_turn<A: Allocator + Copy>(
    limited: &Limited<Global>,
    alloc: A,
    lab: &mut Timeline<A>,
    call: Call,
) -> Option<u64> {
    let before = (seen(lab), lab.all_orders());
    in_turn(limited, || {
        let ended = called(lab, alloc, call);
        unless_changed(ended, lab, &before, lab.all_orders())
    })
}

/// The same of the order that prints, which is the fourth.
fn print_in_turn<A: Allocator + Copy>(
    limited: &Limited<Global>,
    alloc: A,
    lab: &mut Timeline<A>,
) -> Option<u64> {
    run(lab, 3).ok()?;
    call_in_turn(limited, alloc, lab, Call::Print)
}

/// How a new one ends.
fn made<A: Allocator + Copy>(alloc: A) -> End {
    match timeline(&alloc) {
        Ok(_lab) => End::Done,
        Err(_fault) => End::Refused,
    }
}

/// Whether each of these calls has growths.
fn calls_in_turn<A: Allocator + Copy>(
    limited: &Limited<Global>,
    alloc: A,
    lab: &mut Timeline<A>,
) -> Option<[bool; 7]> {
    write_loop(lab)?;
    let calls = [
        call_in_turn(limited, alloc, lab, Call::Put)?,
        call_in_turn(limited, alloc, lab, Call::Idle)?,
        call_in_turn(limited, alloc, lab, Call::Mount)?,
        call_in_turn(limited, alloc, lab, Call::Press)?,
        print_in_turn(limited, alloc, lab)?,
        call_in_turn(limited, alloc, lab, Call::KeepCopy)?,
        call_in_turn(limited, alloc, lab, Call::GoTo(2))?,
    ];
    let [put, idle, mount, press, print, copy, to] = calls;
    Some([
        put > 0,
        idle > 0,
        mount > 0,
        press > 0,
        print > 0,
        copy > 0,
        to > 0,
    ])
}

/// The same of a new one, which has some as well.
fn in_turns<A: Allocator + Copy>(limited: &Limited<Global>, alloc: A) -> Option<[bool; 7]> {
    if in_turn(limited, || made(alloc))? == 0 {
        return None;
    }
    let Ok(mut lab) = timeline(&alloc) else {
        return None;
    };
    calls_in_turn(limited, alloc, &mut lab)
}

/// The same, and how many blocks are out afterwards.
fn in_turns_and_out(limited: &Limited<Global>) -> (Option<[bool; 7]>, u64) {
    let growths = in_turns(limited, limited);
    (growths, limited.blocks_out())
}

#[test]
fn each_growth_is_refused(rt: HostRuntime) {
    let limited = Limited::new(rt.alloc());
    expect_eq(&rt, in_turns_and_out(&limited), (Some([true; 7]), 0));
}
