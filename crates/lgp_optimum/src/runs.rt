//! Runs of a debugger of which is noted where each word would have cost least.

ghost use Rattle.std.specs.Prelude.{◌≡◌, ℕ, ◌+◌, ◌<◌, ◌≤◌, List, Err, IfSome, OnErr, OnOk, slice_index};
ghost use Rattle.lgp_table.specs.After.{after};
ghost use Rattle.lgp_table.specs.State.{State};
ghost use Rattle.lgp_history.specs.declared.rule.Rule.{Rule};
ghost use Rattle.lgp_debugger.specs.Run.{IsOrderOfRun, IsRun, orders_of};
ghost use Rattle.lgp_optimum.specs.OptimumInside.{ShowsSame};
ghost use Rattle.lgp_optimum.specs.OptimumKept.{IsOptimumOf};

use crate::optimum::Optimum;
use lgp_debugger::{Debugger, Ran, Reason, RunFault, RunRefusal, StepFault};
use lgp_history::History;
use lgp_machine::CLOCK_END;
use lgp_trace::{Begun, Found};
use std::alloc::{AllocError, Allocator};

/// Why the next order is not performed for which there is no memory.
#[cold]
#[inline(never)]
fn refusal<H: History<A>, A: Allocator>(debugger: &Debugger<H, A>) -> StepFault
    ensures { (rules : List Rule) → IsOrderOfRun rules debugger.now debugger.now (Err result) }
{
    let look = debugger.look();
    let Some(ahead) = debugger.machine().ahead() else {
        unreachable!()
    };
    if look.status.is_at_rest() {
        StepFault::AtRest
    } else if look.clock.saturating_add(ahead.cost) > CLOCK_END {
        StepFault::ClockEnd
    } else {
        StepFault::Memory
    }
}

/// Makes room for the word that an order will wait for, if it waits for one.
fn make_room<B: Allocator>(
    optimum: &mut Optimum<B>,
    found: &Option<Found>,
) -> Result<(), AllocError>
    ensures room { OnOk result (IfSome found.now (λ found.
        0 < slice_index optimum.new.turned.rows found.address)) }
    ensures same { ShowsSame optimum.old optimum.new }
{
    match found {
        Some(found) => optimum.make_room(found.address),
        None => Ok(()),
    }
}

/// One order of a run, noted, and the number of the first rule that stops the run there. Memory is asked for before the order: where it is
/// refused, the order is not performed.
#[tactic(auto, using(lgp_trace::proofs::PhaseLaws::phases_cost, lgp_trace::proofs::PhaseLaws::phases_last, lgp_table::proofs::Costs::cost_more))]
fn note_order<H: History<A>, A: Allocator, B: Allocator>(
    debugger: &mut Debugger<H, A>,
    optimum: &mut Optimum<B>,
) -> Result<Option<u8>, StepFault>
    requires { optimum.old.took ≤ debugger.old.state.clock }
    ensures order { IsOrderOfRun debugger.old.rules debugger.old debugger.new result }
    ensures noted { OnOk result ((s : State) → (count : ℕ) → IsOptimumOf optimum.old s count
        → debugger.old.state ≡ after s count → IsOptimumOf optimum.new s (count + 1)) }
    ensures same { OnErr result (ShowsSame optimum.old optimum.new) }
{
    let Some(begun) = Begun::before_acting(debugger.machine()) else {
        unreachable!()
    };
    if make_room(optimum, &begun.found).is_err() {
        return Err(refusal(debugger));
    }
    match debugger.go_on() {
        Ok(stop) => {
            let times = debugger.look().clock - begun.before.clock;
            let account = begun.until(times, None).finish(debugger.machine());
            optimum.add(&account);
            Ok(stop)
        }
        Err(fault) => Err(fault),
    }
}

/// Runs a debugger as `Debugger::run` does, and notes what its orders would have taken with words at other sectors. What was noted before
/// is forgotten. Where memory is refused for an order, it is not performed.
pub fn optimum_run<H: History<A>, A: Allocator, B: Allocator>(
    debugger: &mut Debugger<H, A>,
    limit: u64,
    optimum: &mut Optimum<B>,
) -> Result<Ran, RunFault>
    ensures run { IsRun debugger.old.rules limit debugger.old debugger.new result }
    ensures noted { IsOptimumOf optimum.new debugger.old.state (orders_of result) }
{
    optimum.clear();
    for orders in 0..limit {
        match note_order(debugger, optimum) {
            Ok(None) => {}
            Ok(Some(rule)) => {
                return Ok(Ran {
                    orders: orders + 1,
                    reason: Reason::Rule(rule),
                });
            }
            Err(StepFault::AtRest) => {
                return Ok(Ran {
                    orders,
                    reason: Reason::Rest,
                });
            }
            Err(StepFault::ClockEnd) => {
                return Err(RunFault {
                    orders,
                    fault: RunRefusal::ClockEnd,
                });
            }
            Err(StepFault::Memory) => {
                return Err(RunFault {
                    orders,
                    fault: RunRefusal::Memory,
                });
            }
        }
    }
    let reason = if debugger.look().status.is_at_rest() {
        Reason::Rest
    } else {
        Reason::Limit
    };
    Ok(Ran {
        orders: limit,
        reason,
    })
}
