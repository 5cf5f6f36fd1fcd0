//! The past of a machine: what is noted of it, and the way to each of its orders.

ghost use Rattle.std.specs.Prelude.{◌≡◌, ◌↔◌, ◌+◌, ◌-◌, ◌≤◌, ◌<◌, ℕ, [], length, take, IfOk, IsTrue, OnOk, OnErr, Err, true, false};
ghost use Rattle.lgp_table.specs.Interleaving.{at_boundary};
ghost use Rattle.lgp_history.specs.Step.{plain};
ghost use Rattle.lgp_history.specs.Steps.{CanStep};
ghost use Rattle.lgp_past.specs.Past.{CanPerform, all_orders, events_until, present, state_at, story_until, with_event, with_orders};
ghost use Rattle.lgp_past.specs.PastInside.{IsCopiedOf, orders_from, orders_to, state_after};

use crate::copied::{Copied, keep_until, latest, pass, perform_all};
use crate::event::Event;
use lgp_history::Step;
use lgp_machine::Machine;
use std::alloc::{AllocError, Allocator, Global};
use std::marker::Model;
use thiserror::Error;

/// Why an order is not gone to.
#[derive(Clone, Copy, Debug, PartialEq, Eq, Error)]
pub enum PastFault {
    #[error("there were {0} orders")]
    NotYet(u64),
    #[error("out of memory")]
    Memory,
}

/// What was done to a machine since it was in a first state: each step of its operator, and how many orders were performed between
/// them. An order takes no memory. Clauses see just that; copies of the machine only make the way to an order shorter.
pub struct Past<A: Allocator = Global> {
    events: Vec<Event<A>, A>,
    /// How many orders came before the last event.
    before: u64,
    /// How many orders came after it.
    orders: u64,
    first: Copied<A>,
    copies: Vec<Copied<A>, A>,
    /// There is room for one event more.
    has_room: bool,
}

// Written out: a derived drop is copied to each place where one is dropped.
impl<A: Allocator> Drop for Past<A> {
    fn drop(self) {
        let Past {
            events: _,
            before: _,
            orders: _,
            first: _,
            copies: _,
            has_room: _,
        } = self;
    }
}

impl<A: Allocator> Model for Past<A> {
    ghost use Rattle.std.specs.Prelude.{◌<◌, IsTrue, vec_capacity, vec_len};
    ghost use Rattle.lgp_past.specs.Past.{Past};
    ghost use Rattle.lgp_past.specs.PastInside.{IsKept};

    ghost Value = { Past };

    ghost view = { λ past. record {
      story = record {
        first = past.first.machine.state;
        events = past.events.items;
        orders = past.orders;
      };
      has_room = past.has_room;
    } };

    ghost invariant = { λ past.
        IsKept past.first past.events.items past.before past.orders past.copies.items
        × (IsTrue past.has_room → vec_len past.events < vec_capacity past.events) };
}

impl<A: Allocator + Clone> Past<A> {
    /// The past of a machine to which nothing was done yet. The machine is a copy of the one that goes on.
    pub fn new(alloc: &A, first: Machine<A>) -> Result<Past<A>, AllocError>
        requires { first ≡ at_boundary first.state }
        ensures { IfOk result (λ past. past ≡ record {
          story = record { first = first.state; events = []; orders = 0 };
          has_room = false;
        }) }
    {
        Ok(Past {
            events: Vec::new(alloc.clone()?),
            before: 0,
            orders: 0,
            first: Copied {
                place: 0,
                within: 0,
                orders: 0,
                machine: first,
            },
            copies: Vec::new(alloc.clone()?),
            has_room: false,
        })
    }

    /// Keeps a copy of the machine, which is where the past leads; or a refused growth. Then the way to a later order begins here.
    pub fn keep_copy(&mut self, now: &Machine<A>) -> Result<(), AllocError>
        requires { now.now ≡ at_boundary (present self.old.story) }
        ensures { self.new ≡ self.old }
    {
        self.copies.reserve(1)?;
        let copy = Copied {
            place: self.events.len(),
            within: self.orders,
            orders: self.before + self.orders,
            machine: now.copy()?,
        };
        self.copies.push_reserved(copy);
        Ok(())
    }

    /// A machine at the beginning of the order of a number, counted from 0: all steps before that order are done. The number of all
    /// orders leads to where the past ends.
    pub fn machine_at(&self, order: u64) -> Result<Machine<A>, PastFault>
        ensures there { IfOk result
            (λ machine. machine ≡ at_boundary (state_at self.now.story order)) }
        ensures within { OnOk result (order ≤ all_orders self.now.story) }
        ensures not_yet { (orders : ℕ) → (result ≡ Err (PastFault.NotYet orders))
            ↔ ((orders ≡ all_orders self.now.story) × (orders < order)) }
    {
        let orders = self.all_orders();
        if orders < order {
            return Err(PastFault::NotYet(orders));
        }
        match self.performed_again(order) {
            Ok(machine) => Ok(machine),
            Err(AllocError) => Err(PastFault::Memory),
        }
    }

    /// The machine at the beginning of an order that there was.
    fn performed_again(&self, order: u64) -> Result<Machine<A>, AllocError>
        requires { order ≤ all_orders self.now.story }
        ensures { IfOk result
            (λ machine. machine ≡ at_boundary (state_at self.now.story order)) }
    {
        let copy = self.nearest(order);
        let (place, left) = self.place_of(copy.place, order - (copy.orders - copy.within));
        self.brought(copy, place, left)
    }

    /// The machine brought from a copy to a place among the events, and then some orders further.
    fn brought(&self, copy: &Copied<A>, place: usize, left: u64) -> Result<Machine<A>, AllocError>
        requires copied { IsCopiedOf self.now.story copy.now }
        requires later { copy.now.place ≤ place }
        requires place { place ≤ length self.now.story.events }
        requires within { left ≤ orders_from self.now.story place }
        requires further { copy.now.orders ≤ orders_to self.now.story place + left }
        ensures { IfOk result (λ machine. machine
            ≡ at_boundary (state_after self.now.story place left)) }
    {
        let mut machine = copy.machine.copy()?;
        let mut done = copy.within;
        for index in copy.place..place {
            let event = &self.events[index];
            pass(&mut machine, event.orders() - done, event)?;
            done = 0;
        }
        perform_all(&mut machine, left - done)?;
        Ok(machine)
    }
}

impl<A: Allocator> Past<A> {
    /// Makes room for one step more, or a growth is refused.
    pub fn make_room(&mut self) -> Result<(), AllocError>
        ensures room { OnOk result (self.new ≡ record self.old { has_room = true }) }
        ensures unchanged { OnErr result (self.new ≡ self.old) }
    {
        self.events.reserve(1)?;
        self.has_room = true;
        Ok(())
    }

    /// Notes a step of the operator, for which there is room, and which can be done where the past leads.
    pub fn note_step(&mut self, step: Step<A>)
        requires room { IsTrue self.old.has_room }
        requires possible { CanStep (plain step) (present self.old.story) }
        ensures { self.new ≡ record {
          story = with_event self.old.story (plain step);
          has_room = false;
        } }
    {
        let orders = self.orders;
        self.events.push_reserved(Event { orders, step });
        self.has_room = false;
        self.before += orders;
        self.orders = 0;
    }

    /// How many orders there were.
    pub fn all_orders(&self) -> u64
        ensures { result ≡ all_orders self.now.story }
    {
        self.before + self.orders
    }

    /// Notes orders that were performed one after another.
    pub fn note_orders(&mut self, count: u64)
        requires { CanPerform (present self.old.story) count }
        ensures { self.new
            ≡ record self.old { story = with_orders self.old.story count } }
    {
        self.orders += count;
    }

    /// The last copy that is no later than the beginning of an order, or the first.
    fn nearest(&self, order: u64) -> &Copied<A>
        ensures copied { IsCopiedOf self.now.story result.now }
        ensures no_later { result.now.orders ≤ order }
    {
        match latest(&self.copies, order) {
            Some(copy) => copy,
            None => &self.first,
        }
    }

    /// The place of the event after which an order begins, from a place on where `left` orders are left; and how many orders are left
    /// there.
    fn place_of(&self, from: usize, left: u64) -> (usize, u64)
        requires from { from ≤ length self.now.story.events }
        requires left { orders_to self.now.story from + left ≤ all_orders self.now.story }
        ensures later { from ≤ result.0 }
        ensures place { result.0 ≤ length self.now.story.events }
        ensures within { result.1 ≤ orders_from self.now.story result.0 }
        ensures next { result.0 < length self.now.story.events
            → result.1 < orders_from self.now.story result.0 }
        ensures left { orders_to self.now.story result.0 + result.1
            ≡ orders_to self.now.story from + left }
        ensures state { state_at self.now.story (orders_to self.now.story from + left)
            ≡ state_after self.now.story result.0 result.1 }
        ensures until { events_until self.now.story.events
            (orders_to self.now.story from + left) ≡ take result.0 self.now.story.events }
    {
        let mut left = left;
        for place in from..self.events.len() {
            let orders = self.events[place].orders();
            if left < orders {
                return (place, left);
            }
            left -= orders;
        }
        (self.events.len(), left)
    }

    /// Forgets what came after the beginning of an order that there was.
    pub fn forget_after(&mut self, order: u64)
        requires { order ≤ all_orders self.old.story }
        ensures { self.new ≡ record self.old { story = story_until self.old.story order } }
    {
        let (place, left) = self.place_of(0, order);
        keep_until(&mut self.copies, order);
        self.events.truncate(place);
        self.before = order - left;
        self.orders = left;
    }
}
