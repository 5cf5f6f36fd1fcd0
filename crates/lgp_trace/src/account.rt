//! Accounts, and what is known of them when their activities begin.

ghost use Rattle.std.specs.Prelude.{◌≡◌, ◌+◌, ◌-◌, ◌≤◌, IsTrue, None, option_map};
ghost use Rattle.lgp_table.specs.Activity.{next};
ghost use Rattle.lgp_table.specs.Interleaving.{at_boundary, is_boundary};
ghost use Rattle.lgp_table.specs.State.{State};
ghost use Rattle.lgp_machine.specs.Look.{seen_at_boundary};
ghost use Rattle.lgp_trace.specs.Account.{account_of, begun_of, finished, found_of, operand_in, order_of, place_of};
ghost use Rattle.lgp_trace.specs.Phases.{only_act, phases_of};

use crate::phases::{Phases, only_act};
use lgp_flexo::Code;
use lgp_machine::{Look, Machine};
use lgp_table::{Status, seeks};
use lgp_word::{Address, Word, parts};
use std::alloc::Allocator;

/// A word of the drum that an order waits for, as it finds it.
#[derive(Clone, Copy, Debug, PartialEq, Eq)]
pub struct Found {
    pub address: Address,
    pub word: Word,
}

/// A word of the drum that an order waited for, before and after it.
#[derive(Clone, Copy, Debug, PartialEq, Eq)]
pub struct Operand {
    pub address: Address,
    /// The word that the order found there.
    pub found: Word,
    /// The word that it left there, the same one unless it stores.
    pub left: Word,
}

/// All that is known of an activity when it begins.
#[derive(Clone, Copy, Debug, PartialEq, Eq)]
pub struct Begun {
    pub before: Look,
    pub place: Option<Address>,
    pub order: Option<Word>,
    pub phases: Phases,
    pub found: Option<Found>,
    pub prints: Option<Code>,
    /// How many codes had passed the reader since the tape was mounted.
    pub passed: usize,
}

/// The account of an activity that was performed.
#[derive(Clone, Copy, Debug, PartialEq, Eq)]
pub struct Account {
    pub before: Look,
    pub after: Look,
    /// Where its order was; none where it was in the register, or the reader was started from the console.
    pub place: Option<Address>,
    /// The order's word; none where the reader was started from the console.
    pub order: Option<Word>,
    /// Its word times by phases.
    pub phases: Phases,
    /// The word of the drum that it waited for, if it did.
    pub operand: Option<Operand>,
    pub printed: Option<Code>,
    /// How many codes passed the reader.
    pub passed: usize,
}

/// Where the order is of the activity that begins here.
#[inline(always)]
pub fn place_of<A: Allocator>(machine: &Machine<A>) -> Option<Address>
    ensures { IsTrue (is_boundary machine.now) → result ≡ place_of machine.now.state }
{
    let look = machine.look()?;
    match look.status {
        Status::Going => Some(look.counter),
        _ => None,
    }
}

/// The word of that order.
#[inline(always)]
fn order_of<A: Allocator>(machine: &Machine<A>) -> Option<Word>
    ensures { IsTrue (is_boundary machine.now) → result ≡ order_of machine.now.state }
{
    let look = machine.look()?;
    match look.status {
        Status::Going => Some(machine.word(look.counter)),
        Status::Executing => Some(look.register),
        _ => None,
    }
}

/// The word that it waits for.
#[inline(always)]
fn found_of<A: Allocator>(machine: &Machine<A>) -> Option<Found>
    ensures { IsTrue (is_boundary machine.now) → result ≡ found_of machine.now.state }
{
    let (_, op, address) = parts(order_of(machine)?);
    if !seeks(op) {
        return None;
    }
    Some(Found {
        address,
        word: machine.word(address),
    })
}

/// A word that was found, if one was, and what is there now.
#[inline(always)]
fn operand_in<A: Allocator>(machine: &Machine<A>, found: Option<Found>) -> Option<Operand>
    ensures { result ≡ option_map (operand_in machine.now.state.core) found }
{
    let found = found?;
    Some(Operand {
        address: found.address,
        found: found.word,
        left: machine.word(found.address),
    })
}

impl Begun {
    /// What is known of the activity that begins here; `None` within an activity.
    #[tactic(auto, using(crate::proofs::PhaseLaws::phases_cost, crate::proofs::PhaseLaws::phases_last))]
    pub fn of<A: Allocator>(machine: &Machine<A>) -> Option<Begun>
        ensures { result ≡ seen_at_boundary machine.now (begun_of machine.now.state) }
    {
        let begun = Begun::before_acting(machine)?;
        let ahead = machine.ahead()?;
        Some(begun.until(ahead.cost, ahead.prints))
    }

    /// The same before the order acts, with no word time in which it does and nothing that it prints.
    #[inline(always)]
    pub fn before_acting<A: Allocator>(machine: &Machine<A>) -> Option<Begun>
        ensures { result ≡ seen_at_boundary machine.now (record (begun_of machine.now.state) {
          phases = record (phases_of machine.now.state) { act = 0 };
          prints = None;
        }) }
    {
        let before = machine.look()?;
        let passed = machine.tape_passed()?.len();
        Some(Begun {
            before,
            place: place_of(machine),
            order: order_of(machine),
            phases: Phases::before_acting(machine)?,
            found: found_of(machine),
            prints: None,
            passed,
        })
    }

    /// The same of an order that takes a given number of word times and prints this.
    #[inline(always)]
    pub fn until(self, times: u64, prints: Option<Code>) -> Begun
        requires { self.phases.find + self.phases.take + self.phases.seek ≤ times }
        ensures { result ≡ record self {
          phases = record self.phases {
            act = times - (self.phases.find + self.phases.take + self.phases.seek);
          };
          prints = prints;
        } }
    {
        Begun {
            phases: self.phases.until(times),
            prints,
            ..self
        }
    }

    /// The account of the activity, with the machine as it is after it.
    #[inline(always)]
    pub fn finish<A: Allocator>(self, machine: &Machine<A>) -> Account
        requires { IsTrue (is_boundary machine.now) }
        ensures exact { result ≡ finished self machine.now.state }
        ensures performed { (s : State) → self ≡ begun_of s → machine.now ≡ at_boundary (next s)
            → result ≡ account_of s }
    {
        let Some(after) = machine.look() else {
            unreachable!()
        };
        let Some(passed) = machine.tape_passed() else {
            unreachable!()
        };
        Account {
            before: self.before,
            after,
            place: self.place,
            order: self.order,
            phases: self.phases,
            operand: operand_in(machine, self.found),
            printed: self.prints,
            passed: passed.len().saturating_sub(self.passed),
        }
    }
}
