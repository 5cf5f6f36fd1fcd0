//! Steps from one order boundary to another.

ghost use Rattle.std.specs.Prelude.{◌≡◌, ◌≤◌, length, IfOk, IsTrue, OnErr, OnOk};
ghost use Rattle.lgp_flexo.specs.Tape.{all_codes};
ghost use Rattle.lgp_flexo.specs.TapeText.{tape_limit};
ghost use Rattle.lgp_table.specs.Activity.{next};
ghost use Rattle.lgp_table.specs.Interleaving.{at_boundary, is_boundary};
ghost use Rattle.lgp_history.specs.Step.{Mount, Perform, plain};
ghost use Rattle.lgp_history.specs.Steps.{CanStep, is_order, stepped};

use lgp_flexo::Code;
use lgp_machine::{Machine, OrderFault};
use lgp_table::Action;
use lgp_word::{Address, Word};
use std::alloc::{AllocError, Allocator, Global};
use std::marker::Model;

/// A tape to be mounted. Clauses see its codes.
#[derive(Drop)]
pub struct Tape<A: Allocator = Global> {
    codes: Vec<Code, A>,
}

impl<A: Allocator> Model for Tape<A> {
    ghost use Rattle.std.specs.Prelude.{ℕ, List};

    ghost Value = { List ℕ };

    ghost view = { λ tape. tape.codes.items };
}

impl<A: Allocator> Tape<A> {
    /// The tape of these codes.
    pub fn new(codes: Vec<Code, A>) -> Tape<A>
        ensures { result ≡ codes.items }
    {
        Tape { codes }
    }

    /// The codes of the tape, handed out.
    pub fn into_codes(self) -> Vec<Code, A>
        ensures { result.items ≡ self }
    {
        self.codes
    }

    /// The codes of the tape.
    pub fn codes(&self) -> &[Code]
        ensures { result.now ≡ self.now }
    {
        self.codes.as_slice()
    }
}

impl<A: Allocator + Clone> Tape<A> {
    /// A tape of the same codes, or a refused growth.
    pub fn copy(&self) -> Result<Tape<A>, AllocError>
        ensures { IfOk result (λ copy. copy ≡ self.now) }
    {
        let codes = Vec::from_slice(self.codes.allocator().clone()?, self.codes.as_slice())?;
        Ok(Tape { codes })
    }
}

impl<A: Allocator + Clone> Tape<A> {
    /// The tape in the machine's reader, whole, in the allocator of this one; or a refused growth.
    pub(crate) fn beside(&self, machine: &Machine<A>) -> Result<Tape<A>, AllocError>
        requires { IsTrue (is_boundary machine.now) }
        ensures codes { IfOk result (λ tape. tape ≡ all_codes machine.now.state.core.tape) }
        ensures few { length (all_codes machine.now.state.core.tape) ≤ tape_limit }
    {
        let (Some(passed), Some(left)) = (machine.tape_passed(), machine.tape_left()) else {
            unreachable!()
        };
        let mut codes = Vec::from_slice(self.codes.allocator().clone()?, passed)?;
        codes.extend_from_slice(left)?;
        Ok(Tape { codes })
    }
}

/// A step from one order boundary to another.
#[derive(Drop)]
pub enum Step<A: Allocator = Global> {
    /// The activity that begins there, called an order here.
    Perform,
    /// A live press.
    Press(Action),
    /// Word times at rest.
    Idle(u64),
    /// A tape mounted.
    Mount(Tape<A>),
    /// A word put on the drum.
    Put(Address, Word),
}

impl<A: Allocator> Step<A> {
    /// Whether the step is an order.
    pub fn is_order(&self) -> bool
        ensures { result ≡ is_order (plain self.now) }
    {
        matches!(self, Step::Perform)
    }
}

impl<A: Allocator + Clone> Step<A> {
    /// The same step, or a refused growth. Only a `Mount` takes memory.
    pub fn copy(&self) -> Result<Step<A>, AllocError>
        ensures { IfOk result (λ copy. copy ≡ self.now) }
    {
        Ok(match self {
            Step::Perform => Step::Perform,
            Step::Press(action) => Step::Press(*action),
            Step::Idle(times) => Step::Idle(*times),
            Step::Mount(tape) => Step::Mount(tape.copy()?),
            Step::Put(address, word) => Step::Put(*address, *word),
        })
    }
}

impl<A: Allocator + Clone> Step<A> {
    /// Does the step, which can be done where the machine is; or a refused growth, and then the machine may be anywhere.
    pub fn take(&self, machine: &mut Machine<A>) -> Result<(), AllocError>
        requires boundary { machine.old ≡ at_boundary machine.old.state }
        requires possible { CanStep (plain self.now) machine.old.state }
        ensures { OnOk result
            (machine.new ≡ at_boundary (stepped (plain self.now) machine.old.state)) }
    {
        match self {
            Step::Perform => perform(machine),
            Step::Press(action) => {
                let Ok(_) = machine.press(*action) else {
                    unreachable!()
                };
                Ok(())
            }
            Step::Idle(times) => {
                let Ok(()) = machine.rest(*times) else {
                    unreachable!()
                };
                Ok(())
            }
            Step::Mount(tape) => mount(machine, tape.copy()?),
            Step::Put(address, word) => {
                let Ok(()) = machine.put(*address, *word) else {
                    unreachable!()
                };
                Ok(())
            }
        }
    }
}

/// Performs the activity that begins here; where memory is refused for what it prints, the machine stays as it is.
pub fn perform<A: Allocator>(machine: &mut Machine<A>) -> Result<(), AllocError>
    requires boundary { machine.old ≡ at_boundary machine.old.state }
    requires possible { CanStep Perform machine.old.state }
    ensures performed { OnOk result (machine.new ≡ at_boundary (next machine.old.state)) }
    ensures unchanged { OnErr result (machine.new ≡ machine.old) }
{
    match machine.next_order() {
        Ok(_) => Ok(()),
        Err(OrderFault::Memory) => Err(AllocError),
        Err(OrderFault::Moving | OrderFault::AtRest | OrderFault::ClockEnd) => unreachable!(),
    }
}

/// Mounts a tape that can be mounted.
fn mount<A: Allocator>(machine: &mut Machine<A>, tape: Tape<A>) -> Result<(), AllocError>
    requires boundary { machine.old ≡ at_boundary machine.old.state }
    requires possible { CanStep (Mount tape) machine.old.state }
    ensures { machine.new ≡ at_boundary (stepped (Mount tape) machine.old.state) }
{
    let Ok(()) = machine.mount(tape.into_codes()) else {
        unreachable!()
    };
    Ok(())
}
