//! Orders of a debugger, whose steps are kept.

ghost use Rattle.std.specs.Prelude.{◌≤◌};

use super::{SUM_OF_A_TABLE, address};
use lgp_debugger::Debugger;
use lgp_history::{CAPACITY_LIMIT, History, Records};
use lgp_machine::Machine;
use lgp_table::Action;
use lgp_word::Word;
use std::alloc::Allocator;

/// A debugger over a new machine, which keeps 30 steps; none where memory is refused.
pub fn debugger<A: Allocator + Copy>(alloc: A) -> Option<Debugger<Records<A>, A>> {
    debugger_of(alloc, 30)
}

/// A debugger over a new machine, which keeps a given number of steps; none where memory is refused.
pub fn debugger_of<A: Allocator + Copy>(alloc: A, steps: usize) -> Option<Debugger<Records<A>, A>>
    requires some { 1 ≤ steps }
    requires few { steps ≤ CAPACITY_LIMIT }
{
    let machine = Machine::new(alloc).ok()?;
    match Records::new(alloc, steps) {
        Ok(records) => Some(Debugger::new(machine, records)),
        Err(_) => None,
    }
}

/// Puts words on the drum; false where one is refused.
pub fn put_all<H: History<A>, A: Allocator>(
    lab: &mut Debugger<H, A>,
    words: &[(u16, u32)],
) -> bool {
    for (at, bits) in words {
        if lab.put(address(*at), Word::of_bits(*bits)).is_err() {
            return false;
        }
    }
    true
}

/// Goes back; false where that is refused.
pub fn goes_back<H: History<A>, A: Allocator>(lab: &mut Debugger<H, A>, orders: u64) -> bool {
    lab.back(orders).is_ok()
}

/// Puts the program that sums a table on the drum, and presses START.
pub fn start<H: History<A>, A: Allocator>(lab: &mut Debugger<H, A>) {
    put_all(lab, SUM_OF_A_TABLE);
    let _live = lab.press(Action::Start);
}
