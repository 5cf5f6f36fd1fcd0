//! Runs of a debugger reported order by order.

ghost use Rattle.std.specs.Prelude.{◌≡◌, ◌++◌, ◌^◌, ◌<◌, ℕ, List, OnOk, Option, false};
ghost use Rattle.lgp_debugger.specs.Debugging.{order_origin, order_origins};
ghost use Rattle.lgp_debugger.specs.Run.{orders_of};
ghost use Rattle.lgp_debugger.specs.Watching.{IsWatchedRun};
ghost use Rattle.lgp_trace.specs.Account.{account_of};
ghost use Rattle.lgp_trace.specs.Phases.{all_phases};
ghost use Rattle.lgp_trace.specs.OriginLines.{reported_account};
ghost use Rattle.lgp_trace.specs.Runs.{reported};

use crate::account::{Account, Begun};
use crate::labels::Labels;
use crate::origin_lines::{order_origin, push_reported};
use lgp_debugger::{Debugger, Ran, RunFault, WatchFault, Watcher};
use lgp_history::{Origin, Origins};
use std::alloc::{AllocError, Allocator};

/// What is written of the orders of a run.
pub trait Accounts {
    ghost use Rattle.lgp_history.specs.declared.origin.Origin.{Origin};
    ghost use Rattle.lgp_trace.specs.declared.account.Account.{Account};

    /// What is written of an order, by its account and where it came from.
    ghost told: { Self → Account → Option Origin → List ℕ };

    /// Appends what is written of an order.
    fn push_order<A: Allocator>(
        &self,
        text: &mut Vec<u8, A>,
        account: &Account,
        origin: Option<Origin>,
    ) -> Result<(), AllocError>
        requires { all_phases account.now.phases < 2 ^ 64 }
        ensures { OnOk result (text.new.items
            ≡ text.old.items ++ told self.now account.now origin) };
}

/// Orders in columns, with labels after addresses.
#[derive(Clone, Copy, Debug, PartialEq, Eq)]
pub struct InColumns<'a, L> {
    pub labels: &'a L,
}

impl<L: Labels> Accounts for InColumns<'_, L> {
    ghost told = { λ columns. reported_account (L.label columns.labels.now) };

    fn push_order<A: Allocator>(
        &self,
        text: &mut Vec<u8, A>,
        account: &Account,
        origin: Option<Origin>,
    ) -> Result<(), AllocError> {
        push_reported(text, account, origin, self.labels)
    }
}

/// Tells each order of a run in a text.
#[derive(Drop)]
struct Tracer<'a, W> {
    accounts: &'a W,
}

impl<H: Origins<A>, W: Accounts, A: Allocator, B: Allocator> Watcher<H, A, Vec<u8, B>>
    for Tracer<'_, W> {
    ghost in_force = { λ _ rules. rules };

    ghost ready = { λ _ _ _. Unit {0} };

    ghost Sees = { λ tracer d before after. after.items ≡ before.items
        ++ W.told tracer.accounts.now (account_of d.state) (order_origin d) };

    ghost never_refused = { false };

    #[tactic(auto, using(crate::proofs::PhaseLaws::phases_cost))]
    fn order(
        &mut self,
        debugger: &mut Debugger<H, A>,
        text: &mut Vec<u8, B>,
    ) -> Result<Option<u8>, WatchFault> {
        let Some(begun) = Begun::of(debugger.machine()) else {
            unreachable!()
        };
        debugger.note_changes();
        let origin = order_origin(debugger);
        let stop = match debugger.go_on() {
            Ok(stop) => stop,
            Err(fault) => return Err(WatchFault::Refused(fault)),
        };
        let account = begun.finish(debugger.machine());
        if self.accounts.push_order(text, &account, origin).is_err() {
            return Err(WatchFault::Unseen);
        }
        Ok(stop)
    }
}

/// Runs a debugger as `Debugger::run` does, and appends what is written of each order. Where the clock's end
/// refuses an order, those before it remain and are reported. Where memory is refused, as many orders remain as the fault says, and what
/// the text has after what it had is not said.
pub fn trace_run<H: Origins<A>, W: Accounts, A: Allocator, B: Allocator>(
    debugger: &mut Debugger<H, A>,
    limit: u64,
    text: &mut Vec<u8, B>,
    accounts: &W,
) -> Result<Ran, RunFault>
    ensures { IsWatchedRun false debugger.old.rules limit debugger.old debugger.new result
        (text.new.items ≡ text.old.items ++ reported (W.told accounts.now) debugger.old.state
        (order_origins debugger.old) (orders_of result)) }
{
    let mut tracer = Tracer { accounts };
    debugger.run_watched(limit, &mut tracer, text)
}
