//! Runs that are reported.

ghost use Rattle.std.specs.Prelude.{◌≡◌, ◌++◌, ℕ, List, Option};
ghost use Rattle.lgp_table.specs.State.{State};
ghost use Rattle.lgp_debugger.specs.Debugging.{order_origins, performed};
ghost use Rattle.lgp_debugger.specs.Run.{UnlessMemory, orders_of, run_of};
ghost use Rattle.lgp_history.specs.declared.origin.Origin.{Origin};

use lgp_assembler::Name;
use lgp_debugger::{Debugger, Ran, RunFault};
use lgp_history::Records;
use std::alloc::Allocator;

/// What runs a debugger as `Debugger::run` does, and writes something about the orders.
pub trait Teller {
    /// What is written about a given number of orders from a state on, where names have these values and the orders came from there.
    ghost reported: { Self → List (List ℕ × ℕ) → State → (ℕ → Option Origin) → ℕ → List ℕ };

    /// Runs a debugger, and appends what is written about its orders. Where the clock's end refuses an order, those before it remain
    /// and are reported. Where memory is refused, what remains is not said.
    fn run<A: Allocator + Copy>(
        &self,
        alloc: A,
        debugger: &mut Debugger<Records<A>, A>,
        limit: u64,
        names: &[(Name, u16)],
        text: &mut Vec<u8, A>,
    ) -> Result<Ran, RunFault>
        ensures ran { UnlessMemory result
            (run_of debugger.old.rules limit debugger.old.state ≡ result) }
        ensures performed { UnlessMemory result
            (debugger.new ≡ performed debugger.old (orders_of result)) }
        ensures reported { UnlessMemory result (text.new.items ≡ text.old.items
            ++ reported self.now names.now debugger.old.state (order_origins debugger.old)
            (orders_of result)) };
}
