//! What an operator did, with the orders before it.

ghost use Rattle.std.specs.Prelude.{◌≡◌};

use lgp_history::Step;
use std::alloc::{Allocator, Global};
use std::marker::Model;

/// A step of the operator, and how many orders came before it, since the step before.
#[derive(Drop)]
pub(crate) struct Event<A: Allocator = Global> {
    pub(crate) orders: u64,
    pub(crate) step: Step<A>,
}

impl<A: Allocator> Model for Event<A> {
    ghost use Rattle.lgp_history.specs.Step.{plain};
    ghost use Rattle.lgp_past.specs.Past.{Event};

    ghost Value = { Event };

    ghost view = { λ e. record { orders = e.orders; step = plain e.step } };
}

impl<A: Allocator> Event<A> {
    /// How many orders came before it.
    pub(crate) fn orders(&self) -> u64
        ensures { result ≡ self.now.orders }
    {
        self.orders
    }
}
