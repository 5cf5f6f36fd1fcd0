//! Runs that are watched: what a watcher keeps, and where the run ends that it cannot keep.

ghost use Rattle.std.specs.Prelude.{◌≡◌, false};

use super::calls::{Button, Named, add_rule, clock, kept, press_button, ran, with_order};
use crate::history::{Job, Kind, over_kind};
use crate::{TRANSFER, expect_eq};
use lgp_debugger::{Debugger, Ran, Reason, RunFault, RunRefusal, WatchFault, Watcher};
use lgp_history::History;
use std::alloc::{AllocError, Allocator};

/// Keeps the clock at which the latest order began, of as many orders as there is room for.
#[derive(Drop)]
struct LatestBeginning {
    room: u64,
}

impl<H: History<A>, A: Allocator> Watcher<H, A, u64> for LatestBeginning {
    ghost in_force = { λ _ rules. rules };

    ghost ready = { λ _ _ _. Unit {0} };

    ghost Sees = { λ _ d _ after. after ≡ d.state.clock };

    ghost never_refused = { false };

    fn order(
        &mut self,
        debugger: &mut Debugger<H, A>,
        kept: &mut u64,
    ) -> Result<Option<u8>, WatchFault> {
        let begun = debugger.look().clock;
        let stop = match debugger.go_on() {
            Ok(stop) => stop,
            Err(fault) => return Err(WatchFault::Refused(fault)),
        };
        if self.room == 0 {
            return Err(WatchFault::Unseen);
        }
        self.room -= 1;
        *kept = begun;
        Ok(stop)
    }
}

/// A run's limit, and how many orders the watcher has room for.
type Asked = (u64, u64);

/// What the run answers, what the watcher keeps, and then the clock and how many orders are kept.
type Answered = (Result<Ran, RunFault>, u64, u64, u64);

fn watched<H: History<A>, A: Allocator>(lab: &mut Debugger<H, A>, asked: Asked) -> Answered {
    let mut latest = 0;
    let mut watcher = LatestBeginning { room: asked.1 };
    let answer = lab.run_watched(asked.0, &mut watcher, &mut latest);
    (answer, latest, clock(lab), kept(lab).1)
}

fn refused(orders: u64) -> Result<Ran, RunFault> {
    Err(RunFault {
        orders,
        fault: RunRefusal::Memory,
    })
}

/// Five runs one after another over a transfer to itself: at rest, of three orders, of none, without room for the third order, and by
/// a rule.
fn five_runs<H: History<A>, A: Allocator>(lab: &mut Debugger<H, A>) -> [Answered; 5] {
    let at_rest = watched(lab, (3, 9));
    let _live = press_button(lab, Button::Start);
    let three = watched(lab, (3, 9));
    let none = watched(lab, (0, 9));
    let unseen = watched(lab, (5, 2));
    let _number = add_rule(lab, Named::At(0));
    [at_rest, three, none, unseen, watched(lab, (5, 2))]
}

/// The same over a new machine.
struct FiveRuns;

impl<A: Allocator + Copy> Job<A> for FiveRuns {
    type Answer = Option<[Answered; 5]>;

    fn over<H: History<A>>(
        &self,
        alloc: A,
        history: Result<H, AllocError>,
    ) -> Option<[Answered; 5]> {
        match with_order(alloc, history, TRANSFER) {
            Some(mut lab) => Some(five_runs(&mut lab)),
            None => None,
        }
    }
}

/// The first transfer ends at 67, and each later one 64 word times after the one before. The order for which there was no room remains.
#[test]
fn what_is_seen_is_kept(rt: HostRuntime) {
    let wanted = [
        (ran(0, Reason::Rest), 0, 0, 0),
        (ran(3, Reason::Limit), 131, 195, 3),
        (ran(0, Reason::Limit), 0, 195, 3),
        (refused(3), 259, 387, 6),
        (ran(1, Reason::Rule(0)), 387, 451, 7),
    ];
    let seen = over_kind(rt.alloc(), (Kind::Records, 4096), &FiveRuns);
    expect_eq(&rt, seen, Some(wanted));
}

/// What the run answers, then the clock and how many orders are kept.
type Ended = (Result<Ran, RunFault>, u64, u64);

fn looked_at_by_nothing<H: History<A>, A: Allocator>(
    lab: &mut Debugger<H, A>,
    limit: u64,
) -> Ended {
    let mut quiet = lab.quiet();
    let answer = lab.run_watched(limit, &mut quiet, &mut ());
    (answer, clock(lab), kept(lab).1)
}

/// Three runs over a transfer to itself: without rules, by a rule, and at rest.
fn three_quiet_runs<H: History<A>, A: Allocator>(lab: &mut Debugger<H, A>) -> [Ended; 3] {
    let _live = press_button(lab, Button::Start);
    let free = looked_at_by_nothing(lab, 3);
    let _number = add_rule(lab, Named::At(0));
    let stopped = looked_at_by_nothing(lab, 5);
    let _live = press_button(lab, Button::Manual);
    [free, stopped, looked_at_by_nothing(lab, 5)]
}

/// The same over a new machine.
struct ThreeQuietRuns;

impl<A: Allocator + Copy> Job<A> for ThreeQuietRuns {
    type Answer = Option<[Ended; 3]>;

    fn over<H: History<A>>(&self, alloc: A, history: Result<H, AllocError>) -> Option<[Ended; 3]> {
        match with_order(alloc, history, TRANSFER) {
            Some(mut lab) => Some(three_quiet_runs(&mut lab)),
            None => None,
        }
    }
}

/// What looks at nothing is stopped by the rules that there are when it is made.
#[test]
fn nothing_looks_by_the_rules(rt: HostRuntime) {
    let wanted = [
        (ran(3, Reason::Limit), 195, 3),
        (ran(1, Reason::Rule(0)), 259, 4),
        (ran(0, Reason::Rest), 259, 4),
    ];
    let seen = over_kind(rt.alloc(), (Kind::Records, 4096), &ThreeQuietRuns);
    expect_eq(&rt, seen, Some(wanted));
}
