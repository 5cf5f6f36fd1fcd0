//! What every history does.

ghost use Rattle.std.specs.Prelude.{◌≡◌, ◌↔◌, ◌<◌, ◌≤◌, ℕ, [], List, length, Bool, IfOk, OnOk, OnErr, IsTrue, Err, ◌≢◌};
ghost use Rattle.lgp_table.specs.State.{State};
ghost use Rattle.lgp_table.specs.Interleaving.{at_boundary};
ghost use Rattle.lgp_history.specs.Step.{KeptStep, Step as PlainStep, plain};
ghost use Rattle.lgp_history.specs.Steps.{CanStep, Leads, orders_in, state_back, stepped, steps_back, with_step};
ghost use Rattle.lgp_history.specs.Hits.{last_hit};

use crate::rule::Rule;
use crate::step::Step;
use lgp_machine::Machine;
use std::alloc::{AllocError, Allocator};
use thiserror::Error;

/// Why a history does not go back.
#[derive(Clone, Copy, Debug, PartialEq, Eq, Error)]
pub enum BackFault {
    #[error("only {0} orders are kept")]
    TooFar(u64),
    #[error("out of memory")]
    Memory,
}

/// The latest steps of a machine, at most as many as its capacity. Clauses read them with the machine's state at hand: each step with
/// the state before it, the oldest first.
///
/// A step is kept in two halves. `prepare` comes before the machine is touched, and may be refused for memory; `note` comes after the
/// step and takes none.
pub trait History<A: Allocator>: Drop {
    /// What `prepare` makes for `note`.
    type Note: Drop;

    ghost steps: { Self → State → List KeptStep };

    ghost capacity: { Self → ℕ };

    ghost fits: { Self → Self.Note → State → PlainStep → Type 0 };

    /// Whether going back takes no memory.
    ghost goes_back_freely: { Bool };

    /// Prepares to keep a step that can be done where the machine is.
    fn prepare(&mut self, before: &Machine<A>, step: &Step<A>) -> Result<Self::Note, AllocError>
        requires boundary { before.now ≡ at_boundary before.now.state }
        requires possible { CanStep (plain step.now) before.now.state }
        ensures fits { IfOk result (λ note. fits self.new note before.now.state (plain step.now)) }
        ensures steps { (now : State) → steps self.new now ≡ steps self.old now }
        ensures capacity { capacity self.new ≡ capacity self.old };

    /// Keeps a step for which it was prepared. Where as many are kept as there is room for, the oldest one goes.
    fn note(&mut self, note: Self::Note)
        requires { (before : State) × ((step : PlainStep) × (CanStep step before
            × fits self.old note before step × Leads (steps self.old before) before)) }
        ensures kept { (before : State) → (step : PlainStep) → CanStep step before
            → fits self.old note before step → Leads (steps self.old before) before
            → steps self.new (stepped step before)
            ≡ with_step (capacity self.old) (steps self.old before) before step }
        ensures leads { (before : State) → (step : PlainStep) → CanStep step before
            → fits self.old note before step → Leads (steps self.old before) before
            → Leads (steps self.new (stepped step before)) (stepped step before) }
        ensures capacity { capacity self.new ≡ capacity self.old };

    /// Goes back `orders` orders: to the state in which the first of these orders began. That order and all later steps are forgotten.
    fn back(&mut self, orders: u64, machine: &mut Machine<A>) -> Result<(), BackFault>
        requires boundary { machine.old ≡ at_boundary machine.old.state }
        requires some { 1 ≤ orders }
        requires leads { Leads (steps self.old machine.old.state) machine.old.state }
        ensures state { OnOk result (machine.new ≡ at_boundary
            (state_back orders (steps self.old machine.old.state) machine.old.state)) }
        ensures steps { OnOk result (steps self.new machine.new.state
            ≡ steps_back orders (steps self.old machine.old.state)) }
        ensures leads { Leads (steps self.new machine.new.state) machine.new.state }
        ensures too_far { (kept : ℕ) → (result ≡ Err (BackFault.TooFar kept))
            ↔ ((kept ≡ orders_in (steps self.old machine.old.state)) × (kept < orders)) }
        ensures freely { IsTrue goes_back_freely → result ≢ Err BackFault.Memory }
        ensures unchanged { OnErr result (machine.new ≡ machine.old) }
        ensures steps_stay { OnErr result
            ((now : State) → steps self.new now ≡ steps self.old now) }
        ensures capacity { capacity self.new ≡ capacity self.old };

    /// The latest kept order that a rule hits: how many orders back it is, and the number of the first rule that hits it.
    fn find(&self, now: &Machine<A>, rules: &[Rule]) -> Result<Option<(u64, u8)>, AllocError>
        requires boundary { now.now ≡ at_boundary now.now.state }
        requires few { length rules.now ≤ 256 }
        requires leads { Leads (steps self.now now.now.state) now.now.state }
        ensures { IfOk result (λ hit. hit ≡ last_hit rules.now (steps self.now now.now.state)) };

    /// How many steps are kept.
    fn kept(&self) -> u64
        ensures count { (now : State) → result ≡ length (steps self.now now) }
        ensures within { result ≤ capacity self.now };

    /// How many orders are kept.
    fn orders_kept(&self) -> u64
        ensures { (now : State) → result ≡ orders_in (steps self.now now) };

    /// Forgets all steps.
    fn clear(&mut self)
        ensures steps { (now : State) → steps self.new now ≡ [] }
        ensures capacity { capacity self.new ≡ capacity self.old };
}
