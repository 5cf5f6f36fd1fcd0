//! What a run waits for, order by order.

ghost use Rattle.std.specs.Prelude.{◌≡◌, ℕ, ◌+◌, ◌<◌, OnOk};
ghost use Rattle.lgp_table.specs.After.{after};
ghost use Rattle.lgp_table.specs.State.{State};
ghost use Rattle.lgp_debugger.specs.Run.{IsOrderOfRun};
ghost use Rattle.lgp_when.specs.Meeting.{IsMeeting};
ghost use Rattle.lgp_when.specs.WhenInside.{IsWatching};

use crate::meeting::Meeting;
use crate::until::Until;
use lgp_debugger::{Debugger, StepFault};
use lgp_history::History;
use std::alloc::Allocator;

/// What a run waits for, how often that is to be met, and how often still.
#[derive(Drop)]
pub(crate) struct Watch {
    pub(crate) meeting: Meeting,
    pub(crate) times: u64,
    pub(crate) left: u64,
}

impl Watch {
    /// What is waited for before any order.
    pub(crate) fn new<H: History<A>, A: Allocator>(
        debugger: &Debugger<H, A>,
        until: &Until,
    ) -> Watch
        ensures watching { IsWatching result debugger.now.state 0 }
        ensures condition { result.meeting.condition ≡ until.now.condition }
        ensures times { result.times ≡ until.now.times }
    {
        Watch {
            meeting: Meeting::new(until.condition, debugger.machine()),
            times: until.times,
            left: until.times,
        }
    }

    /// One order of a run, and the number of the first rule that stops the run there. It is looked at whether it meets the condition, which
    /// is still to be met.
    pub(crate) fn order<H: History<A>, A: Allocator>(
        &mut self,
        debugger: &mut Debugger<H, A>,
    ) -> Result<Option<u8>, StepFault>
        requires meeting { IsMeeting self.old.meeting debugger.old.state }
        requires left { 0 < self.old.left }
        ensures order { IsOrderOfRun debugger.old.rules debugger.old debugger.new result }
        ensures watched { OnOk result ((s : State) → (count : ℕ) → IsWatching self.old s count
            → debugger.old.state ≡ after s count → IsWatching self.new s (count + 1)) }
        ensures condition { self.new.meeting.condition ≡ self.old.meeting.condition }
        ensures times { self.new.times ≡ self.old.times }
    {
        let quiet = debugger.quiet();
        let met = self.meeting.order(debugger, quiet)?;
        if met.is_met {
            self.left -= 1;
        }
        Ok(met.stop)
    }
}
