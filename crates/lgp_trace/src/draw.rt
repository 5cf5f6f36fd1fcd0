//! Runs of a debugger drawn along the drum.

ghost use Rattle.std.specs.Prelude.{◌≡◌, ◌++◌, false};
ghost use Rattle.lgp_debugger.specs.Run.{orders_of};
ghost use Rattle.lgp_debugger.specs.Watching.{IsWatchedRun};
ghost use Rattle.lgp_trace.specs.Account.{account_of};
ghost use Rattle.lgp_trace.specs.DrumRows.{signs_in_rows, signs_of};
ghost use Rattle.lgp_trace.specs.Runs.{drawn};

use crate::account::Begun;
use crate::drum_rows::push_drum;
use lgp_debugger::{Debugger, Ran, RunFault, WatchFault, Watcher};
use lgp_history::History;
use std::alloc::Allocator;

/// Draws each order of a run along the drum.
#[derive(Drop)]
struct Drawer;

impl<H: History<A>, A: Allocator, B: Allocator> Watcher<H, A, Vec<u8, B>> for Drawer {
    ghost in_force = { λ _ rules. rules };

    ghost ready = { λ _ _ _. Unit {0} };

    ghost Sees = { λ _ d before after. after.items
        ≡ before.items ++ signs_in_rows d.state.clock (signs_of (account_of d.state)) };

    ghost never_refused = { false };

    #[tactic(auto, using(crate::proofs::PhaseLaws::phases_cost))]
    fn order(
        &mut self,
        debugger: &mut Debugger<H, A>,
        text: &mut Vec<u8, B>,
    ) -> Result<Option<u8>, WatchFault> {
        let Some(begun) = Begun::of(debugger.machine()) else {
            unreachable!()
        };
        let clock = debugger.look().clock;
        let stop = match debugger.go_on() {
            Ok(stop) => stop,
            Err(fault) => return Err(WatchFault::Refused(fault)),
        };
        let account = begun.finish(debugger.machine());
        if push_drum(text, clock, &account).is_err() {
            return Err(WatchFault::Unseen);
        }
        Ok(stop)
    }
}

/// Runs a debugger as `Debugger::run` does, and appends of each order its signs along the drum. Where the clock's end refuses an
/// order, those before it remain and are drawn. Where memory is refused, as many orders remain as the fault says, and what the text has
/// after what it had is not said.
pub fn draw_run<H: History<A>, A: Allocator, B: Allocator>(
    debugger: &mut Debugger<H, A>,
    limit: u64,
    text: &mut Vec<u8, B>,
) -> Result<Ran, RunFault>
    ensures { IsWatchedRun false debugger.old.rules limit debugger.old debugger.new result
        (text.new.items ≡ text.old.items ++ drawn debugger.old.state (orders_of result)) }
{
    debugger.run_watched(limit, &mut Drawer, text)
}
