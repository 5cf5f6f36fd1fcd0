//! Conditions on the machine between two orders.

ghost use Rattle.std.specs.Prelude.{◌≡◌, IsTrue};
ghost use Rattle.lgp_history.specs.Hits.{goes_at};
ghost use Rattle.lgp_table.specs.Activity.{next};
ghost use Rattle.lgp_table.specs.Interleaving.{is_boundary};
ghost use Rattle.lgp_table.specs.State.{State};
ghost use Rattle.lgp_when.specs.When.{holds, meets};
ghost use Rattle.lgp_when.specs.Meeting.{IsPaperOf, sight};

use crate::paper::Paper;
use lgp_machine::Machine;
use lgp_table::Status;
use lgp_word::{Address, Word};
use std::alloc::Allocator;

/// What may be so between two orders, or come about by one.
#[derive(Clone, Copy, Debug, PartialEq, Eq)]
pub enum Condition {
    /// The machine is going, and this address is at its counter.
    At(Address),
    /// At this address is this word.
    Equal(Address, Word),
    /// The word at this address, read with its sign, is less than another.
    Below(Address, Word),
    /// An order leaves another word at this address.
    Changed(Address),
    /// At least this many codes are printed.
    Printed(u64),
    /// At least this many rows are printed: each carriage return ends one.
    Rows(u64),
    /// At least this many word times are over.
    Clock(u64),
}

/// Whether the machine is going with this address at its counter.
fn goes_at<A: Allocator>(machine: &Machine<A>, address: Address) -> bool
    requires { IsTrue (is_boundary machine.now) }
    ensures { result ≡ goes_at machine.now.state address }
{
    let Some(look) = machine.look() else {
        unreachable!()
    };
    matches!(look.status, Status::Going) && look.counter == address
}

/// How many word times are over.
fn clock<A: Allocator>(machine: &Machine<A>) -> u64
    requires { IsTrue (is_boundary machine.now) }
    ensures { result ≡ machine.now.state.clock }
{
    let Some(look) = machine.look() else {
        unreachable!()
    };
    look.clock
}

impl Condition {
    /// Whether it holds where the machine is. A change holds nowhere.
    fn holds<A: Allocator>(&self, machine: &Machine<A>, paper: &Paper) -> bool
        requires boundary { IsTrue (is_boundary machine.now) }
        requires paper { IsPaperOf paper.now machine.now.state.printed }
        ensures { result ≡ holds machine.now.state self.now }
    {
        match *self {
            Condition::At(address) => goes_at(machine, address),
            Condition::Equal(address, word) => machine.word(address) == word,
            Condition::Below(address, bound) => {
                machine.word(address).get().cast_signed() < bound.get().cast_signed()
            }
            Condition::Changed(_) => false,
            Condition::Printed(codes) => codes <= paper.codes as u64,
            Condition::Rows(rows) => rows <= paper.rows as u64,
            Condition::Clock(time) => time <= clock(machine),
        }
    }

    /// What is to be seen of it where the machine is: the word that may change, or 1 where it holds and 0 where it does not.
    pub(crate) fn sight<A: Allocator>(&self, machine: &Machine<A>, paper: &Paper) -> u32
        requires boundary { IsTrue (is_boundary machine.now) }
        requires paper { IsPaperOf paper.now machine.now.state.printed }
        ensures { result ≡ sight machine.now.state self.now }
    {
        match self {
            Condition::Changed(address) => machine.word(*address).get(),
            _ => { if self.holds(machine, paper) { 1 } else { 0 } }
        }
    }

    /// Whether an order meets it, by what was to be seen before the order and after it.
    pub(crate) fn is_met(&self, before: u32, after: u32) -> bool
        ensures { (s : State) → before ≡ sight s self.now → after ≡ sight (next s) self.now
            → result ≡ meets s self.now }
    {
        match self {
            Condition::At(_) => after == 1,
            Condition::Changed(_) => before != after,
            _ => before == 0 && after == 1,
        }
    }
}
