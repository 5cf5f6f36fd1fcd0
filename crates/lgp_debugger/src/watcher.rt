//! What watches the orders of a run.

ghost use Rattle.std.specs.Prelude.{◌≡◌, ◌≢◌, Bool, IsTrue, List, OnErr, OnOk, true, Err};
ghost use Rattle.lgp_history.specs.declared.rule.Rule.{Rule};
ghost use Rattle.lgp_debugger.specs.Debugging.{Debugging};
ghost use Rattle.lgp_debugger.specs.Watching.{IsWatchedOrder, rules_in_force};

use crate::debugger::Debugger;
use crate::fault::StepFault;
use lgp_history::History;
use std::alloc::Allocator;
use thiserror::Error;

/// Why an order of a watched run was not performed, or was performed and not seen.
#[derive(Clone, Copy, Debug, PartialEq, Eq, Error)]
pub enum WatchFault {
    #[error("{0}")]
    Refused(StepFault),
    #[error("out of memory for what the order showed")]
    Unseen,
}

/// What watches a run: it has each order performed, and adds what it sees of it to what is kept, a `K`.
pub trait Watcher<H: History<A>, A: Allocator, K> {
    /// Which of the rules may stop the run.
    ghost in_force: { Self → List Rule → List Rule };

    /// Where it can watch the next order.
    ghost ready: { Self → Debugging → K → Type 0 };

    /// What is kept before and after the order that begins there.
    ghost Sees: { Self → Debugging → K → K → Type 0 };

    /// Whether it needs no memory for what it sees.
    ghost never_refused: { Bool };

    /// Has the order performed that begins here, and adds to what is kept. The number is that of the first rule that stops the run after it.
    fn order(
        &mut self,
        debugger: &mut Debugger<H, A>,
        kept: &mut K,
    ) -> Result<Option<u8>, WatchFault>
        requires ready { ready self.old debugger.old kept.old }
        ensures order { IsWatchedOrder (in_force self.old debugger.old.rules) debugger.old
            debugger.new result }
        ensures seen { OnOk result (Sees self.old debugger.old kept.old kept.new) }
        ensures refused { OnErr result (result ≢ Err WatchFault.Unseen
            → kept.new ≡ kept.old) }
        ensures ready { OnOk result (ready self.new debugger.new kept.new) }
        ensures never { IsTrue never_refused → result ≢ Err WatchFault.Unseen }
        ensures same_rules { in_force self.new ≡ in_force self.old }
        ensures same_eyes { (d : Debugging) → (before after : K) → Sees self.new d before after
            → Sees self.old d before after };
}

/// Looks at nothing. Whether rules stop the run is found out once, before it (`Debugger::quiet`), and not at each order.
#[derive(Clone, Copy, Debug, Drop)]
pub struct Quiet {
    /// Whether rules stop the run.
    pub by_rules: bool,
}

impl<H: History<A>, A: Allocator> Watcher<H, A, ()> for Quiet {
    ghost in_force = { λ quiet rules. rules_in_force quiet.by_rules rules };

    ghost ready = { λ _ _ _. Unit {0} };

    ghost Sees = { λ _ _ before after. after ≡ before };

    ghost never_refused = { true };

    #[inline(always)]
    fn order(
        &mut self,
        debugger: &mut Debugger<H, A>,
        _kept: &mut (),
    ) -> Result<Option<u8>, WatchFault> {
        match debugger.run_on(self.by_rules) {
            Ok(stop) => Ok(stop),
            Err(fault) => Err(WatchFault::Refused(fault)),
        }
    }
}
