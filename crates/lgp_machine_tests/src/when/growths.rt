//! Growths refused one after the other: the orders before the refused one remain, and no memory is lost.

use super::{RETURN, looping, until};
use crate::{End, end_of, expect_eq, in_turn};
use lgp_debugger::{Debugger, RunRefusal};
use lgp_history::Records;
use lgp_limited::Limited;
use lgp_when::Condition;
use std::alloc::{Allocator, Global};

/// Runs until 20 codes more are printed; how that ends.
fn printed<A: Allocator + Copy>(debugger: &mut Debugger<Records<A>, A>) -> End {
    let codes = debugger.machine().printed().len() as u64;
    match until(
        debugger,
        Condition::Printed(codes.saturating_add(20)),
        1,
        1_000,
    ) {
        Ok(ended) => end_of(ended.is_met, false),
        Err(fault) => end_of(false, fault.fault == RunRefusal::Memory),
    }
}

/// Whether such runs have growths.
fn in_turns<A: Allocator + Copy>(limited: &Limited<Global>, alloc: A) -> Option<bool> {
    let mut debugger = looping(alloc, RETURN)?;
    let growths = in_turn(limited, || printed(&mut debugger))?;
    Some(growths > 0)
}

/// The same, and how many blocks are out afterwards.
fn in_turns_and_out(limited: &Limited<Global>) -> (Option<bool>, u64) {
    let growths = in_turns(limited, limited);
    (growths, limited.blocks_out())
}

#[test]
fn each_growth_is_refused(rt: HostRuntime) {
    let limited = Limited::new(rt.alloc());
    expect_eq(&rt, in_turns_and_out(&limited), (Some(true), 0));
}
