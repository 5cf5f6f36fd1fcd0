//! Runs that end with the order that meets a condition.

ghost use Rattle.std.specs.Prelude.{◌≡◌};
ghost use Rattle.lgp_when.specs.Until.{IsRunUntil};
ghost use Rattle.lgp_when.specs.WhenInside.{end_reason};

use crate::condition::Condition;
use crate::watch::Watch;
use lgp_debugger::{Debugger, Ran, Reason, RunFault, RunRefusal, StepFault};
use lgp_history::History;
use std::alloc::Allocator;

/// What a run waits for: that its orders meet a condition for this number of times. An order meets one that holds after it and not before
/// it, and one of an address by going to it.
#[derive(Clone, Copy, Debug, PartialEq, Eq)]
pub struct Until {
    pub condition: Condition,
    pub times: u64,
}

/// What a run came to, and whether the condition was met as often as was waited for.
#[derive(Clone, Copy, Debug, PartialEq, Eq)]
pub struct RanUntil {
    pub ran: Ran,
    pub is_met: bool,
}

/// A run that ends without a rule.
fn ended<H: History<A>, A: Allocator>(debugger: &Debugger<H, A>, orders: u64) -> Ran
    ensures { result ≡ record {
      orders = orders;
      reason = end_reason debugger.now.state;
    } }
{
    let reason = if debugger.look().status.is_at_rest() {
        Reason::Rest
    } else {
        Reason::Limit
    };
    Ran { orders, reason }
}

/// Runs a debugger as `Debugger::run` does, at most until its orders have met a condition for a number of times.
pub fn run_until<H: History<A>, A: Allocator>(
    debugger: &mut Debugger<H, A>,
    until: &Until,
    limit: u64,
) -> Result<RanUntil, RunFault>
    ensures { IsRunUntil until.now limit debugger.old debugger.new result }
{
    let mut watch = Watch::new(debugger, until);
    for orders in 0..limit {
        if watch.left == 0 {
            let ran = ended(debugger, orders);
            return Ok(RanUntil { ran, is_met: true });
        }
        match watch.order(debugger) {
            Ok(None) => {}
            Ok(Some(rule)) => {
                let ran = Ran {
                    orders: orders + 1,
                    reason: Reason::Rule(rule),
                };
                let is_met = watch.left == 0;
                return Ok(RanUntil { ran, is_met });
            }
            Err(StepFault::AtRest) => {
                let ran = Ran {
                    orders,
                    reason: Reason::Rest,
                };
                return Ok(RanUntil { ran, is_met: false });
            }
            Err(StepFault::ClockEnd) => {
                return Err(RunFault {
                    orders,
                    fault: RunRefusal::ClockEnd,
                });
            }
            Err(StepFault::Memory) => {
                return Err(RunFault {
                    orders,
                    fault: RunRefusal::Memory,
                });
            }
        }
    }
    let ran = ended(debugger, limit);
    Ok(RanUntil {
        ran,
        is_met: watch.left == 0,
    })
}
