//! Copies of the machine, and how it is brought from one of them to a later order.

ghost use Rattle.std.specs.Prelude.{◌≡◌, ◌≤◌, ℕ, All, IfSome, List, OnOk, take};
ghost use Rattle.lgp_table.specs.State.{State};
ghost use Rattle.lgp_table.specs.After.{after};
ghost use Rattle.lgp_table.specs.Interleaving.{at_boundary};
ghost use Rattle.lgp_history.specs.Steps.{CanStep, stepped};
ghost use Rattle.lgp_past.specs.Past.{CanPerform, Event as Done};
ghost use Rattle.lgp_past.specs.PastInside.{IsCopied};

use crate::event::Event;
use lgp_history::perform;
use lgp_machine::Machine;
use std::alloc::{AllocError, Allocator, Global};
use std::marker::Model;

/// A copy of the machine: how many events are before it, how many orders since the last of them, and how many in all.
#[derive(Drop)]
pub(crate) struct Copied<A: Allocator = Global> {
    pub(crate) place: usize,
    pub(crate) within: u64,
    pub(crate) orders: u64,
    pub(crate) machine: Machine<A>,
}

impl<A: Allocator> Model for Copied<A> {
    ghost use Rattle.lgp_past.specs.PastInside.{Copied};

    ghost Value = { Copied };

    ghost view = { λ c. record {
      place = c.place;
      within = c.within;
      orders = c.orders;
      machine = c.machine;
    } };
}

/// Performs a given number of orders.
pub(crate) fn perform_all<A: Allocator>(
    machine: &mut Machine<A>,
    count: u64,
) -> Result<(), AllocError>
    requires boundary { machine.old ≡ at_boundary machine.old.state }
    requires possible { CanPerform machine.old.state count }
    ensures { OnOk result (machine.new ≡ at_boundary (after machine.old.state count)) }
{
    for _ in 0..count {
        perform(machine)?;
    }
    Ok(())
}

/// Performs `count` orders, and then takes the step of an event.
pub(crate) fn pass<A: Allocator + Clone>(
    machine: &mut Machine<A>,
    count: u64,
    event: &Event<A>,
) -> Result<(), AllocError>
    requires boundary { machine.old ≡ at_boundary machine.old.state }
    requires orders { CanPerform machine.old.state count }
    requires step { CanStep event.now.step (after machine.old.state count) }
    ensures { OnOk result (machine.new
        ≡ at_boundary (stepped event.now.step (after machine.old.state count))) }
{
    perform_all(machine, count)?;
    event.step.take(machine)
}

/// The last of these copies that is no later than the beginning of an order.
pub(crate) fn latest<A: Allocator>(copies: &[Copied<A>], order: u64) -> Option<&Copied<A>>
    ensures copied { (start : State) → (events : List Done) → (later : ℕ)
        → All (IsCopied start events later) copies.now
        → IfSome result (λ copy. IsCopied start events later copy.now) }
    ensures no_later { IfSome result (λ copy. copy.now.orders ≤ order) }
{
    let mut left = copies.len();
    while left > 0 {
        left -= 1;
        let copy = &copies[left];
        if copy.orders <= order {
            return Some(copy);
        }
    }
    None
}

/// Keeps the first copies, as far as they are no later than the beginning of an order.
pub(crate) fn keep_until<A: Allocator>(copies: &mut Vec<Copied<A>, A>, order: u64)
    ensures first_ones { (kept : ℕ) × (copies.new.items ≡ take kept copies.old.items) }
    ensures no_later { All (λ copy. copy.orders ≤ order) copies.new.items }
{
    for index in 0..copies.len() {
        if copies[index].orders > order {
            copies.truncate(index);
            return;
        }
    }
}
