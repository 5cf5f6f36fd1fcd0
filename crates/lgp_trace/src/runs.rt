//! Runs of a debugger whose orders are added up.

ghost use Rattle.std.specs.Prelude.{◌≡◌, ◌+◌, ◌≤◌, sum, true};
ghost use Rattle.lgp_debugger.specs.Run.{IsRun, orders_of};
ghost use Rattle.lgp_debugger.specs.Watching.{rules_in_force};
ghost use Rattle.lgp_trace.specs.Account.{place_of};
ghost use Rattle.lgp_trace.specs.Phases.{all_phases, phases_of};
ghost use Rattle.lgp_trace.specs.Profile.{profile_of, with_activity};

use crate::account::place_of;
use crate::phases::Phases;
use crate::profile::Profile;
use lgp_debugger::{Debugger, Quiet, Ran, RunFault, WatchFault, Watcher};
use lgp_history::History;
use std::alloc::Allocator;

/// Adds each order of a run to a profile.
#[derive(Drop)]
struct Profiler {
    /// What has each order performed.
    quiet: Quiet,
}

impl<H: History<A>, A: Allocator, B: Allocator> Watcher<H, A, Profile<B>> for Profiler {
    ghost in_force = { λ profiler rules. rules_in_force profiler.quiet.by_rules rules };

    ghost ready = { λ _ d profile. all_phases profile.phases ≤ d.state.clock };

    ghost Sees = { λ _ d before after.
        after ≡ with_activity before (place_of d.state) (phases_of d.state) };

    ghost never_refused = { true };

    #[tactic(auto, using(crate::proofs::PhaseLaws::phases_cost, crate::proofs::PhaseLaws::phases_last))]
    #[inline(always)]
    fn order(
        &mut self,
        debugger: &mut Debugger<H, A>,
        profile: &mut Profile<B>,
    ) -> Result<Option<u8>, WatchFault> {
        let place = place_of(debugger.machine());
        let Some(phases) = Phases::before_acting(debugger.machine()) else {
            unreachable!()
        };
        let begun = debugger.look().clock;
        let mut quiet = self.quiet;
        match quiet.order(debugger, &mut ()) {
            Ok(stop) => {
                let times = debugger.look().clock - begun;
                profile.add(place, phases.until(times));
                Ok(stop)
            }
            Err(fault) => Err(fault),
        }
    }
}

/// Runs a debugger as `Debugger::run` does, and adds up its orders in a profile. What the profile held before is forgotten.
pub fn profile_run<H: History<A>, A: Allocator, B: Allocator>(
    debugger: &mut Debugger<H, A>,
    limit: u64,
    profile: &mut Profile<B>,
) -> Result<Ran, RunFault>
    ensures run { IsRun debugger.old.rules limit debugger.old debugger.new result }
    ensures noted { profile.new ≡ profile_of debugger.old.state (orders_of result) }
    ensures clock { debugger.new.state.clock
        ≡ debugger.old.state.clock + all_phases profile.new.phases }
    ensures together { sum profile.new.places + profile.new.elsewhere
        ≡ all_phases profile.new.phases }
{
    let outcome = note_orders(debugger, limit, profile);
    // What all places and elsewhere come to is what the phases' clause says.
    let _phases = profile.phases();
    outcome
}

/// The orders of a run by the rules or without any, added up.
#[inline(always)]
fn note_orders_so<H: History<A>, A: Allocator, B: Allocator>(
    debugger: &mut Debugger<H, A>,
    limit: u64,
    profile: &mut Profile<B>,
    quiet: Quiet,
) -> Result<Ran, RunFault>
    ensures run { IsRun (rules_in_force quiet.by_rules debugger.old.rules) limit debugger.old
        debugger.new result }
    ensures noted { profile.new ≡ profile_of debugger.old.state (orders_of result) }
{
    profile.clear();
    debugger.run_watched(limit, &mut Profiler { quiet }, profile)
}

/// The orders of a run, added up. A run without rules has a loop of its own.
fn note_orders<H: History<A>, A: Allocator, B: Allocator>(
    debugger: &mut Debugger<H, A>,
    limit: u64,
    profile: &mut Profile<B>,
) -> Result<Ran, RunFault>
    ensures run { IsRun debugger.old.rules limit debugger.old debugger.new result }
    ensures noted { profile.new ≡ profile_of debugger.old.state (orders_of result) }
{
    if debugger.rules().is_empty() {
        note_orders_so(debugger, limit, profile, Quiet { by_rules: false })
    } else {
        note_orders_so(debugger, limit, profile, Quiet { by_rules: true })
    }
}
