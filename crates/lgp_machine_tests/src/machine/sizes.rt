//! A machine with a long tape and many printed codes, and its copy.

use super::{PRINT, TRANSFER, mount_codes, next_order, printed, start, tape_left, with_words};
use crate::expect_eq;
use lgp_flexo::TAPE_LIMIT;
use lgp_machine::{Machine, MountFault};
use std::alloc::{Allocator, Global};

/// A print, and a transfer back to it.
const PRINTS: [(u16, u32); 2] = [(0, PRINT), (1, TRANSFER)];

/// How many of a given number of orders are performed before one is refused.
fn performed<A: Allocator>(machine: &mut Machine<A>, orders: u32) -> u32 {
    for count in 0..orders {
        if next_order(machine).is_err() {
            return count;
        }
    }
    orders
}

/// How many codes are printed, and how many are left on the tape.
type Sizes = (usize, Option<usize>);

fn sizes<A: Allocator>(machine: &Machine<A>) -> Sizes {
    (printed(machine).0, tape_left(machine))
}

/// The same of a copy; `None` where it is refused.
fn sizes_of_copy<A: Allocator + Clone>(machine: &Machine<A>) -> Option<Sizes> {
    let copy = machine.copy().ok()?;
    Some(sizes(&copy))
}

/// What becomes of the longest tape of a machine that prints, whether that is started, how many of 20,000 orders it performs, and
/// the sizes then and of a copy.
type Long = (
    Option<Result<(), (MountFault, usize)>>,
    bool,
    u32,
    [Option<Sizes>; 2],
);

fn mounted_and_printed(global: Global) -> Option<Long> {
    let mut machine = with_words(global, &PRINTS)?;
    let mounted = mount_codes(&mut machine, global, TAPE_LIMIT);
    let started = start(&mut machine);
    let orders = performed(&mut machine, 20_000);
    let sizes = [Some(sizes(&machine)), sizes_of_copy(&machine)];
    Some((mounted, started, orders, sizes))
}

#[test]
fn a_long_tape_and_many_codes_are_copied(rt: HostRuntime) {
    let sizes = Some((10_000, Some(1_048_576)));
    expect_eq(
        &rt,
        mounted_and_printed(rt.alloc()),
        Some((Some(Ok(())), true, 20_000, [sizes; 2])),
    );
}
