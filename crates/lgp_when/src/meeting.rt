//! Orders that are performed one after another, and which of them meet a condition.

ghost use Rattle.std.specs.Prelude.{◌≡◌, IfOk, IsTrue, OnErr, OnOk};
ghost use Rattle.lgp_table.specs.Interleaving.{is_boundary};
ghost use Rattle.lgp_debugger.specs.Run.{IsOrderOfRun};
ghost use Rattle.lgp_debugger.specs.Watching.{rules_in_force};
ghost use Rattle.lgp_when.specs.When.{meets};
ghost use Rattle.lgp_when.specs.Meeting.{IsMeeting, stop_of};

use crate::condition::Condition;
use crate::paper::Paper;
use lgp_debugger::{Debugger, Quiet, StepFault, WatchFault, Watcher};
use lgp_history::History;
use lgp_machine::Machine;
use std::alloc::Allocator;

/// A condition, and what was to be seen of it after the last order.
#[derive(Clone, Copy)]
pub struct Meeting {
    pub(crate) condition: Condition,
    pub(crate) paper: Paper,
    pub(crate) sight: u32,
}

/// What an order came to: whether it met the condition, and the number of the first rule that stops the run after it.
#[derive(Clone, Copy)]
pub struct Met {
    pub is_met: bool,
    pub stop: Option<u8>,
}

impl Meeting {
    /// What is to be seen of a condition where a machine is.
    pub fn new<A: Allocator>(condition: Condition, machine: &Machine<A>) -> Meeting
        requires { IsTrue (is_boundary machine.now) }
        ensures seen { IsMeeting result machine.now.state }
        ensures condition { result.condition ≡ condition }
    {
        let paper = Paper::of(machine.printed());
        Meeting {
            condition,
            paper,
            sight: condition.sight(machine, &paper),
        }
    }

    /// The condition.
    pub fn condition(&self) -> Condition
        ensures { result ≡ self.now.condition }
    {
        self.condition
    }

    /// Has an order performed, and looks at it.
    pub fn order<H: History<A>, A: Allocator>(
        &mut self,
        debugger: &mut Debugger<H, A>,
        quiet: Quiet,
    ) -> Result<Met, StepFault>
        requires { IsMeeting self.old debugger.old.state }
        ensures order { IsOrderOfRun (rules_in_force quiet.by_rules debugger.old.rules)
            debugger.old debugger.new (stop_of result) }
        ensures met { IfOk result (λ met. met.is_met
            ≡ meets debugger.old.state self.old.condition) }
        ensures seen { OnOk result (IsMeeting self.new debugger.new.state) }
        ensures refused { OnErr result (self.new ≡ self.old) }
        ensures condition { self.new.condition ≡ self.old.condition }
    {
        let mut quiet = quiet;
        let stop = match quiet.order(debugger, &mut ()) {
            Ok(stop) => stop,
            Err(WatchFault::Refused(fault)) => return Err(fault),
            Err(WatchFault::Unseen) => unreachable!(),
        };
        let before = self.sight;
        self.paper = self.paper.with_more(debugger.machine().printed());
        self.sight = self.condition.sight(debugger.machine(), &self.paper);
        let is_met = self.condition.is_met(before, self.sight);
        Ok(Met { is_met, stop })
    }
}
