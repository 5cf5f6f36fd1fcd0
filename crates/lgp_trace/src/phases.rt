//! The four phases of an activity.

ghost use Rattle.std.specs.Prelude.{◌≡◌, ◌+◌, ◌-◌, ◌≤◌};
ghost use Rattle.lgp_machine.specs.Look.{seen_at_boundary};
ghost use Rattle.lgp_trace.specs.Phases.{phases_of};

use lgp_machine::Machine;
use lgp_phases::{seek_time, wait};
use lgp_table::Status;
use lgp_word::parts;
use std::alloc::Allocator;

/// The word times of an activity by its four phases. The two waits count the word time that reads the word.
#[derive(Clone, Copy, Debug, Default, PartialEq, Eq)]
pub struct Phases {
    /// Until the order is read: 1 to 64, and 0 where it comes from the register or there is none.
    pub find: u64,
    /// Until it is in the register: 1, or 0 where it is there already.
    pub take: u64,
    /// Until the word at its address is read: 1 to 64, and 1 for the orders that use no word.
    pub seek: u64,
    /// Until the order is done.
    pub act: u64,
}

/// The phases of an activity that only acts.
pub fn only_act(times: u64) -> Phases
    ensures { result ≡ record { find = 0; take = 0; seek = 0; act = times } }
{
    Phases {
        find: 0,
        take: 0,
        seek: 0,
        act: times,
    }
}

impl Phases {
    /// The phases of the activity that begins here; together they are its cost. `None` within an activity.
    #[tactic(auto, using(crate::proofs::PhaseLaws::phases_cost, crate::proofs::PhaseLaws::phases_last))]
    pub fn of<A: Allocator>(machine: &Machine<A>) -> Option<Phases>
        ensures { result ≡ seen_at_boundary machine.now (phases_of machine.now.state) }
    {
        let waits = Phases::before_acting(machine)?;
        let cost = machine.ahead()?.cost;
        Some(waits.until(cost))
    }

    /// The same before the order acts, with no word time in which it does.
    #[inline(always)]
    #[tactic(auto, unfolding(crate::specs::Phases::phases_of))]
    pub fn before_acting<A: Allocator>(machine: &Machine<A>) -> Option<Phases>
        ensures { result
            ≡ seen_at_boundary machine.now (record (phases_of machine.now.state) { act = 0 }) }
    {
        let look = machine.look()?;
        let phases = match look.status {
            Status::Going => {
                let find = wait(look.counter.sector(), look.clock, 0);
                let (_, op, address) = machine.parts(look.counter);
                let seek = seek_time(op, address, look.clock, find + 1);
                Phases {
                    find,
                    take: 1,
                    seek,
                    act: 0,
                }
            }
            Status::Executing => {
                let (_, op, address) = parts(look.register);
                let seek = seek_time(op, address, look.clock, 0);
                Phases {
                    find: 0,
                    take: 0,
                    seek,
                    act: 0,
                }
            }
            Status::Halted(_) | Status::Waiting | Status::Reading => only_act(0),
        };
        Some(phases)
    }

    /// The same with so long a last phase that all four together take a given number of word times.
    #[inline(always)]
    pub fn until(self, times: u64) -> Phases
        requires { self.find + self.take + self.seek ≤ times }
        ensures { result
            ≡ record self { act = times - (self.find + self.take + self.seek) } }
    {
        Phases {
            act: times - (self.find + self.take + self.seek),
            ..self
        }
    }
}
