//! Runs that tell how far they are.

ghost use Rattle.std.specs.Prelude.{◌≡◌, ◌+◌, ◌-◌, ◌^◌, ◌==◌, [], IfOk, if◌then◌else◌, min, true};
ghost use Rattle.lgp_debugger.specs.Run.{IsRun};
ghost use Rattle.lgp_debugger.specs.Watching.{rules_in_force};
ghost use Rattle.lgp_script.specs.HistoryCommands.{replied_to_run};
ghost use Rattle.lgp_script.specs.Reply.{IsReplied};

use crate::progress::Progress;
use lgp_assembler::Name;
use lgp_debugger::{Debugger, Quiet, Ran, RunFault, WatchFault, Watcher};
use lgp_history::{History, Records};
use lgp_script::{Laboratory, Reply, Teller};
use std::alloc::{AllocError, Allocator};

/// Counts the orders of a run in portions.
#[derive(Drop)]
struct Portions<'a, P: Progress> {
    /// What has each order performed.
    quiet: Quiet,
    progress: &'a P,
    portion: u64,
    /// How many orders of this portion are to come.
    left: u64,
    /// How many of the orders done were reported.
    reported: u64,
}

impl<P: Progress> Portions<'_, P> {
    /// One order more is asked for: where it would be the first of a new portion, the number of those done is reported.
    #[inline(always)]
    fn count(&mut self)
        ensures quiet { self.new.quiet ≡ self.old.quiet }
        ensures left { self.new.left ≡ (if self.old.left == 0
            then self.old.portion - 1 else self.old.left - 1) }
        ensures reported { self.new.reported ≡ (if self.old.left == 0
            then min (self.old.reported + self.old.portion) (2 ^ 64 - 1)
            else self.old.reported) }
    {
        match self.left.checked_sub(1) {
            Some(left) => self.left = left,
            None => {
                self.reported = self.reported.saturating_add(self.portion);
                self.left = self.portion.saturating_sub(1);
                self.progress.performed(self.reported);
            }
        }
    }
}

impl<H: History<A>, A: Allocator, P: Progress> Watcher<H, A, ()> for Portions<'_, P> {
    ghost in_force = { λ portions rules. rules_in_force portions.quiet.by_rules rules };

    ghost ready = { λ _ _ _. Unit {0} };

    ghost Sees = { λ _ _ before after. after ≡ before };

    ghost never_refused = { true };

    #[inline(always)]
    fn order(
        &mut self,
        debugger: &mut Debugger<H, A>,
        kept: &mut (),
    ) -> Result<Option<u8>, WatchFault> {
        self.count();
        let mut quiet = self.quiet;
        quiet.order(debugger, kept)
    }
}

/// Runs a debugger by its rules or without any, and tells after each portion of the orders how many are done.
#[inline(always)]
fn run_counted<A: Allocator + Copy, P: Progress>(
    debugger: &mut Debugger<Records<A>, A>,
    limit: u64,
    progress: &P,
    quiet: Quiet,
) -> Result<Ran, RunFault>
    ensures { IsRun (rules_in_force quiet.by_rules debugger.old.rules) limit debugger.old
        debugger.new result }
{
    let portion = progress.portion().max(1);
    let mut portions = Portions {
        quiet,
        progress,
        portion,
        left: portion,
        reported: 0,
    };
    let outcome = debugger.run_watched(limit, &mut portions, &mut ());
    if portions.reported > 0 {
        progress.ended();
    }
    outcome
}

/// Runs a debugger as `Debugger::run` does, and tells after each portion of the orders how many are done. A run without rules has
/// a loop of its own.
#[inline(never)]
fn run_in_portions<A: Allocator + Copy, P: Progress>(
    debugger: &mut Debugger<Records<A>, A>,
    limit: u64,
    progress: &P,
) -> Result<Ran, RunFault>
    ensures { IsRun debugger.old.rules limit debugger.old debugger.new result }
{
    if debugger.rules().is_empty() {
        run_counted(debugger, limit, progress, Quiet { by_rules: false })
    } else {
        run_counted(debugger, limit, progress, Quiet { by_rules: true })
    }
}

/// Writes nothing about a run, and tells how far it is.
#[derive(Drop)]
struct InPortions<'a, P: Progress> {
    progress: &'a P,
}

impl<P: Progress> Teller for InPortions<'_, P> {
    ghost reported = { λ _ names s origins orders. [] };

    fn run<A: Allocator + Copy>(
        &self,
        _alloc: A,
        debugger: &mut Debugger<Records<A>, A>,
        limit: u64,
        _names: &[(Name, u16)],
        _text: &mut Vec<u8, A>,
    ) -> Result<Ran, RunFault> {
        run_in_portions(debugger, limit, self.progress)
    }
}

/// Does what the command `run` does, and tells how far it is.
pub fn run_shown<A: Allocator + Copy, P: Progress>(
    alloc: A,
    laboratory: &mut Laboratory<A>,
    limit: u64,
    progress: &P,
) -> Result<Reply, AllocError>
    ensures { IfOk result (λ reply. IsReplied reply laboratory.new
        (replied_to_run laboratory.old limit)) }
{
    let mut nothing = Vec::new(alloc);
    laboratory.run_told(&InPortions { progress }, limit, &mut nothing)
}
