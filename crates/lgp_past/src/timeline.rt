//! A debugger with its whole past: it can go back to the beginning of each order.

ghost use Rattle.std.specs.Prelude.{◌≡◌, ◌↔◌, ◌+◌, ◌<◌, ◌≤◌, ◌==◌, ℕ, [], false, if◌then◌else◌, IfErr, IfOk, IsTrue, OnErr, OnOk, Err, vec_len};
ghost use Rattle.std.specs.Result.{IsErrAnd};
ghost use Rattle.lgp_table.specs.Console.{is_at_rest, is_live};
ghost use Rattle.lgp_table.specs.Interleaving.{at_boundary};
ghost use Rattle.lgp_flexo.specs.TapeText.{tape_limit};
ghost use Rattle.lgp_machine.specs.Answers.{clock_end};
ghost use Rattle.lgp_history.specs.Step.{Idle, Mount, Press, Put};
ghost use Rattle.lgp_debugger.specs.Run.{IsRun, orders_of};
ghost use Rattle.lgp_past.specs.Past.{all_orders, state_at, with_orders};
ghost use Rattle.lgp_past.specs.Timeline.{after_noted, at_order, opened};

use crate::past::{Past, PastFault};
use lgp_debugger::{Debugger, IdleFault, Ran, RunFault, passes_end};
use lgp_flexo::{Code, TAPE_LIMIT};
use lgp_history::{CAPACITY_LIMIT, Records, Step, Tape};
use lgp_machine::{Machine, MountFault, PutFault};
use lgp_table::Action;
use lgp_word::{Address, Word};
use std::alloc::{AllocError, Allocator};
use std::marker::Model;

/// A debugger with its whole past. Clauses see both; the past leads to where the debugger is.
// Its drop is derived: with a written one the borrow checker does not cover who holds a Timeline.
#[derive(Drop)]
pub struct Timeline<A: Allocator + Clone> {
    debugger: Debugger<Records<A>, A>,
    past: Past<A>,
}

impl<A: Allocator + Clone> Model for Timeline<A> {
    ghost use Rattle.std.specs.Prelude.{◌≡◌};
    ghost use Rattle.lgp_past.specs.Past.{present};
    ghost use Rattle.lgp_past.specs.Timeline.{Timeline};

    ghost Value = { Timeline };

    ghost view = { λ t. record { debugger = t.debugger; story = t.past.story } };

    ghost invariant = { λ t. t.debugger.state ≡ present t.past.story };
}

impl<A: Allocator + Copy> Timeline<A> {
    /// A new machine with its past, of which the debugger keeps at most `capacity` steps itself, 1 to 65,536. Or a refused growth.
    pub fn new(alloc: &A, capacity: usize) -> Result<Timeline<A>, AllocError>
        requires some { 1 ≤ capacity }
        requires few { capacity ≤ CAPACITY_LIMIT }
        ensures { IfOk result (λ t. t ≡ opened capacity) }
    {
        let machine = Machine::new(*alloc)?;
        let past = Past::new(alloc, machine.copy()?)?;
        let history = Records::new(*alloc, capacity)?;
        let debugger = Debugger::new(machine, history);
        Ok(Timeline { debugger, past })
    }
}

impl<A: Allocator + Clone> Timeline<A> {
    /// Makes a copy of the machine here, so that fewer orders are performed again on the way to a later one; or a growth is refused.
    pub fn keep_copy(&mut self) -> Result<(), AllocError>
        ensures { self.new ≡ self.old }
    {
        self.past.keep_copy(self.debugger.machine())
    }

    /// Goes to the beginning of the order of a number, counted from 0; what came after it is forgotten, and the rules stay.
    pub fn go_to(&mut self, order: u64) -> Result<(), PastFault>
        ensures there { OnOk result (self.new ≡ at_order self.old order) }
        ensures not_yet { (orders : ℕ) → (result ≡ Err (PastFault.NotYet orders))
            ↔ ((orders ≡ all_orders self.old.story) × (orders < order)) }
        ensures unchanged { OnErr result (self.new ≡ self.old) }
    {
        match self.past.machine_at(order) {
            Ok(machine) => {
                self.stand_at(machine, order);
                Ok(())
            }
            Err(fault) => Err(fault),
        }
    }

    /// Goes on with a machine at the beginning of an order that there was.
    fn stand_at(&mut self, machine: Machine<A>, order: u64)
        requires there { machine ≡ at_boundary (state_at self.old.story order) }
        requires within { order ≤ all_orders self.old.story }
        ensures { self.new ≡ at_order self.old order }
    {
        self.debugger.go_on_with(machine);
        self.past.forget_after(order);
    }

    /// Mounts a tape, at rest, as one step; the reader is off afterwards. A refused tape is handed back.
    pub fn mount(&mut self, codes: Vec<Code, A>) -> Result<(), (MountFault, Vec<Code, A>)>
        ensures mounted { OnOk result (self.new ≡ after_noted self.old (Mount codes.items)) }
        ensures moving { IsErrAnd result (λ e. e.0 ≡ MountFault.Moving)
            ↔ (is_at_rest self.old.debugger.state.core.panel.status ≡ false) }
        ensures too_long { IsErrAnd result (λ e. e.0 ≡ MountFault.TooLong)
            ↔ (IsTrue (is_at_rest self.old.debugger.state.core.panel.status)
            × (tape_limit < vec_len codes)) }
        ensures handed_back { IfErr result (λ e. e.1.items ≡ codes.items) }
        ensures unchanged { OnErr result (self.new ≡ self.old) }
    {
        if !self.is_at_rest() {
            return Err((MountFault::Moving, codes));
        }
        if codes.len() > TAPE_LIMIT {
            return Err((MountFault::TooLong, codes));
        }
        let tape = Tape::new(codes);
        let Ok(copy) = prepared(&mut self.past, &tape) else {
            return Err((MountFault::Memory, tape.into_codes()));
        };
        self.debugger.mount(tape.into_codes())?;
        let step: Step<A> = Step::Mount(copy);
        self.past.note_step(step);
        Ok(())
    }

    /// Word times at rest, one step. None of them is no step.
    pub fn idle(&mut self, times: u64) -> Result<(), IdleFault>
        ensures rested { OnOk result (self.new ≡ (if times == 0
            then self.old else after_noted self.old (Idle times))) }
        ensures at_work { (result ≡ Err IdleFault.AtWork)
            ↔ (is_at_rest self.old.debugger.state.core.panel.status ≡ false) }
        ensures clock_end { (result ≡ Err IdleFault.ClockEnd)
            ↔ (IsTrue (is_at_rest self.old.debugger.state.core.panel.status)
            × (clock_end < self.old.debugger.state.clock + times)) }
        ensures unchanged { OnErr result (self.new ≡ self.old) }
    {
        let look = self.debugger.look();
        if times == 0 || !look.status.is_at_rest() || passes_end(look.clock, times) {
            return self.debugger.idle(times);
        }
        let Ok(()) = self.past.make_room() else {
            return Err(IdleFault::Memory);
        };
        self.debugger.idle(times)?;
        let step: Step<A> = Step::Idle(times);
        self.past.note_step(step);
        Ok(())
    }

    /// Presses. A live press is a step, a dead one is none; true where it is live.
    pub fn press(&mut self, action: Action) -> Result<bool, AllocError>
        ensures live { IfOk result (λ live.
            live ≡ is_live self.old.debugger.state.core.panel action) }
        ensures pressed { OnOk result (self.new
            ≡ (if is_live self.old.debugger.state.core.panel action
            then after_noted self.old (Press action) else self.old)) }
        ensures unchanged { OnErr result (self.new ≡ self.old) }
    {
        if !self.debugger.is_live(&action) {
            return Ok(false);
        }
        self.press_live(&action)?;
        Ok(true)
    }

    /// A live press.
    fn press_live(&mut self, action: &Action) -> Result<(), AllocError>
        requires { IsTrue (is_live self.old.debugger.state.core.panel action.now) }
        ensures pressed { OnOk result (self.new ≡ after_noted self.old (Press action.now)) }
        ensures unchanged { OnErr result (self.new ≡ self.old) }
    {
        self.past.make_room()?;
        self.debugger.press(*action)?;
        let step: Step<A> = Step::Press(*action);
        self.past.note_step(step);
        Ok(())
    }

    /// Puts a word on the drum, at rest, as one step.
    pub fn put(&mut self, address: Address, word: Word) -> Result<(), PutFault>
        ensures put { OnOk result (self.new ≡ after_noted self.old (Put address word)) }
        ensures moving { (result ≡ Err PutFault.Moving)
            ↔ (is_at_rest self.old.debugger.state.core.panel.status ≡ false) }
        ensures unchanged { OnErr result (self.new ≡ self.old) }
    {
        if !self.is_at_rest() {
            return Err(PutFault::Moving);
        }
        let Ok(()) = self.past.make_room() else {
            return Err(PutFault::Memory);
        };
        self.debugger.put(address, word)?;
        let step: Step<A> = Step::Put(address, word);
        self.past.note_step(step);
        Ok(())
    }

    /// Runs as the debugger does, by its rules.
    pub fn run(&mut self, limit: u64) -> Result<Ran, RunFault>
        ensures run { IsRun self.old.debugger.rules limit self.old.debugger self.new.debugger
            result }
        ensures noted { self.new.story ≡ with_orders self.old.story (orders_of result) }
    {
        let outcome = self.debugger.run(limit);
        self.past.note_orders(orders_of(&outcome));
        outcome
    }

    /// The debugger, to look at.
    pub fn debugger(&self) -> &Debugger<Records<A>, A>
        ensures { result.now ≡ self.now.debugger }
    {
        &self.debugger
    }

    /// Whether the machine is at rest.
    fn is_at_rest(&self) -> bool
        ensures { result ≡ is_at_rest self.now.debugger.state.core.panel.status }
    {
        self.debugger.look().status.is_at_rest()
    }

    /// How many orders there were since the past begins.
    pub fn all_orders(&self) -> u64
        ensures { result ≡ all_orders self.now.story }
    {
        self.past.all_orders()
    }
}

/// How many orders a run performed.
fn orders_of(outcome: &Result<Ran, RunFault>) -> u64
    ensures { result ≡ orders_of outcome.now }
{
    match outcome {
        Ok(ran) => ran.orders,
        Err(fault) => fault.orders,
    }
}

/// A copy of a tape, and room to note it; or a refused growth.
fn prepared<A: Allocator + Clone>(past: &mut Past<A>, tape: &Tape<A>) -> Result<Tape<A>, AllocError>
    ensures copy { IfOk result (λ copy. copy ≡ tape.now) }
    ensures room { OnOk result (IsTrue past.new.has_room) }
    ensures same { past.new.story ≡ past.old.story }
{
    past.make_room()?;
    tape.copy()
}
