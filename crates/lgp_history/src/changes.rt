//! What is recorded of a step, so that it can be undone.

ghost use Rattle.std.specs.Prelude.{◌≡◌, ◌≤◌, ℕ, List, Some, length, option_map, position, slice_index, IfOk, IsTrue};
ghost use Rattle.lgp_flexo.specs.TapeText.{tape_limit};
ghost use Rattle.lgp_table.specs.Activity.{begun_order};
ghost use Rattle.lgp_table.specs.Interleaving.{at_boundary, is_boundary};
ghost use Rattle.lgp_table.specs.declared.panel.Panel.{Panel};
ghost use Rattle.lgp_history.specs.Step.{Perform, plain};
ghost use Rattle.lgp_history.specs.Steps.{is_order};
ghost use Rattle.lgp_history.specs.RecordedInside.{lost_by, lost_by_order, lost_in, lost_of, lost_word, tape_of, tape_or_none, with_tape};
ghost use Rattle.lgp_history.specs.NotingInside.{IsNoted};

use crate::origin::{Changer, PastOrder};
use crate::rule::Rule;
use crate::step::{Step, Tape};
use lgp_machine::{Machine, Mark};
use lgp_table::{Panel, Status};
use lgp_word::{Address, Op, Word, parts, with_address};
use std::alloc::{AllocError, Allocator};
use std::boxed::Box;
use std::marker::Model;

/// What is recorded of a step and of the machine before it. One is written at every order, so its fields are flat and narrow, and
/// what only other steps need lies in a box.
#[derive(Drop)]
pub struct Record<A: Allocator> {
    panel: Panel,
    clock: u64,
    printed: usize,
    passed: usize,
    reader_on: bool,
    lost: Lost,
    /// Nothing for an order.
    other: Option<Box<Other<A>, A>>,
}

/// The word that was at an address before another was stored there, or the same. Clauses see the lost word with its address, and
/// nothing where it was the same.
#[derive(Drop)]
struct Lost {
    differs: bool,
    address: Address,
    word: Word,
}

impl Model for Lost {
    ghost use Rattle.std.specs.Prelude.{ℕ, Option, Some, None, if◌then◌else◌};

    ghost Value = { Option (ℕ × ℕ) };

    ghost view = { λ l. if l.differs then Some (l.address, l.word) else None };
}

impl Lost {
    /// The lost word with its address.
    fn word(&self) -> Option<(Address, Word)>
        ensures { result ≡ self.now }
    {
        if self.differs {
            Some((self.address, self.word))
        } else {
            None
        }
    }

    /// No word is stored.
    fn nothing() -> Lost
        ensures { result ≡ None }
    {
        Lost {
            differs: false,
            address: Address::default(),
            word: Word::default(),
        }
    }
}

/// A step, and the tape that it takes out.
#[derive(Drop)]
struct Other<A: Allocator> {
    step: Step<A>,
    tape: Option<Tape<A>>,
}

impl<A: Allocator> Model for Record<A> {
    ghost use Rattle.std.specs.Prelude.{◌≡◌, ℕ, ◌≤◌, List, length, option_map, Some, None, if◌then◌else◌};
    ghost use Rattle.lgp_flexo.specs.TapeText.{tape_limit};
    ghost use Rattle.lgp_machine.specs.Answers.{clock_end};
    ghost use Rattle.lgp_history.specs.Step.{plain};
    ghost use Rattle.lgp_history.specs.RecordedInside.{Recorded, step_or_order, tape_or_none};

    ghost Value = { Recorded };

    ghost view = { λ r. record {
      step = step_or_order (option_map (λ other. plain other.value.step) r.other);
      mark = record {
        panel = r.panel;
        reader_on = r.reader_on;
        clock = r.clock;
        printed = r.printed;
        passed = r.passed;
      };
      lost = r.lost;
      tape = tape_or_none (option_map (λ other. other.value.tape) r.other);
    } };

    ghost invariant = { λ r. (r.clock ≤ clock_end)
        × ((codes : List ℕ) → tape_or_none (option_map (λ other. other.value.tape) r.other)
        ≡ Some codes
        → (r.passed ≤ length codes) × (length codes ≤ tape_limit)) };
}

impl<A: Allocator> Record<A> {
    ghost use Rattle.lgp_machine.specs.Answers.{clock_end};
    ghost use Rattle.lgp_history.specs.RecordedInside.{recorded, step_or_order, tape_or_none};

    /// What is recorded of the order that begins where the machine is.
    #[inline(always)]
    pub fn of_order(before: &Machine<A>) -> Record<A>
        requires { IsTrue (is_boundary before.now) }
        ensures { result ≡ recorded Perform before.now.state }
    {
        let Some(mark) = before.mark() else {
            unreachable!()
        };
        let lost = lost_in(before);
        Record::at(&mark, lost, None)
    }

    /// The record of a step that begins at a mark: the word that it loses and, in a box, a step that is no order.
    #[inline(always)]
    fn at(mark: &Mark, lost: Lost, other: Option<Box<Other<A>, A>>) -> Record<A>
        requires clock { mark.now.clock ≤ clock_end }
        requires tape { (codes : List ℕ)
            → tape_or_none (option_map (λ other. other.value.tape) other) ≡ Some codes
            → (mark.now.passed ≤ length codes) × (length codes ≤ tape_limit) }
        ensures { result ≡ record {
          step = step_or_order (option_map (λ other. plain other.value.step) other);
          mark = mark.now;
          lost = lost;
          tape = tape_or_none (option_map (λ other. other.value.tape) other);
        } }
    {
        Record {
            panel: mark.panel,
            clock: mark.clock,
            printed: mark.printed,
            passed: mark.passed,
            reader_on: mark.reader_on,
            lost,
            other,
        }
    }
}

impl<A: Allocator + Clone> Record<A> {
    ghost use Rattle.lgp_history.specs.RecordedInside.{recorded};

    /// What is recorded of a step that can be done where the machine is, or a refused growth.
    #[inline(always)]
    pub fn new(alloc: &A, before: &Machine<A>, step: &Step<A>) -> Result<Record<A>, AllocError>
        requires { IsTrue (is_boundary before.now) }
        ensures { IfOk result (λ r. r ≡ recorded (plain step.now) before.now.state) }
    {
        match step {
            Step::Perform => Ok(Record::of_order(before)),
            Step::Press(_) | Step::Idle(_) | Step::Mount(_) | Step::Put(..) => {
                Record::of_other(alloc, before, step)
            }
        }
    }

    /// The same of any step, which is kept in a box.
    #[inline(never)]
    fn of_other(alloc: &A, before: &Machine<A>, step: &Step<A>) -> Result<Record<A>, AllocError>
        requires { IsTrue (is_boundary before.now) }
        ensures { IfOk result (λ r. r ≡ recorded (plain step.now) before.now.state) }
    {
        let Some(mark) = before.mark() else {
            unreachable!()
        };
        let lost = lost_of(before, step);
        let tape = tape_of(before, step)?;
        let step = step.copy()?;
        let other = Box::new(alloc.clone()?, Other { step, tape })?;
        Ok(Record::at(&mark, lost, Some(other)))
    }
}

impl<A: Allocator> Record<A> {
    ghost use Rattle.lgp_history.specs.RecordedInside.{belongs, is_recorded_hit, lost_at, recorded_changer, recorded_order, undone};

    /// Whether the step is an order.
    pub fn is_order(&self) -> bool
        ensures { result ≡ is_order self.now.step }
    {
        match &self.other {
            None => true,
            Some(other) => other.step.is_order(),
        }
    }

    /// Whether a rule hits the order.
    fn is_hit(&self, rule: &Rule) -> bool
        ensures { result ≡ is_recorded_hit self.now rule.now }
    {
        match rule {
            Rule::At(address) => {
                matches!(self.panel.status, Status::Going) && self.panel.counter == *address
            }
            Rule::Changed(address) => self.lost.differs && self.lost.address == *address,
        }
    }

    /// The place of the first rule that hits the order.
    fn first_place(&self, rules: &[Rule]) -> Option<usize>
        ensures { result ≡ position (is_recorded_hit self.now) rules.now }
    {
        rules.iter().position(|rule| self.is_hit(rule))
    }

    /// The number of the first rule that hits the order.
    pub fn first_hit(&self, rules: &[Rule]) -> Option<u8>
        requires { length rules.now ≤ 256 }
        ensures { result ≡ position (is_recorded_hit self.now) rules.now }
    {
        let place = self.first_place(rules)?;
        Some(place as u8)
    }

    /// The word that the step lost at an address, if it changed the one there.
    pub fn lost_at(&self, address: Address) -> Option<Word>
        ensures { result ≡ lost_at self.now.lost address }
    {
        if self.lost.differs && self.lost.address == address {
            Some(self.lost.word)
        } else {
            None
        }
    }

    /// The clock at which the step began.
    #[inline(always)]
    pub fn clock(&self) -> u64
        ensures { result ≡ self.now.mark.clock }
    {
        self.clock
    }

    /// Notes the change of the step, if it changed a word: by address one more than the clock of the latest change.
    pub fn note_change(&self, changes: &mut [u64])
        requires { length changes.old ≡ 4096 }
        ensures noted { IsNoted changes.new self.now }
        ensures grow { (address : ℕ) → slice_index changes.old address
            ≤ slice_index changes.new address }
        ensures places { length changes.new ≡ 4096 }
    {
        let place = usize::from(self.lost.address.number());
        if self.lost.differs && changes[place] <= self.clock {
            changes[place] = self.clock + 1;
        }
    }

    /// The instruction register before the step.
    pub fn register(&self) -> Word
        ensures { result ≡ self.now.mark.panel.register }
    {
        self.panel.register
    }

    /// The order, which is in the instruction register after it, a given number of orders back.
    fn past_order(&self, register: Word, orders_back: u64) -> PastOrder
        ensures { result ≡ recorded_order self.now register orders_back }
    {
        let counter = self.panel.counter;
        let is_going = matches!(self.panel.status, Status::Going);
        PastOrder {
            place: is_going.then_some(counter),
            word: register,
            clock: self.clock,
            orders_back,
        }
    }

    /// What did the step, with the instruction register after it, a given number of orders back.
    pub fn changer(&self, register: Word, orders_back: u64) -> Changer
        ensures { result ≡ recorded_changer self.now register orders_back }
    {
        if self.is_order() {
            Changer::Order(self.past_order(register, orders_back))
        } else {
            Changer::Hand(self.clock)
        }
    }

    /// Takes the machine back from where the step has led to the state before it.
    pub fn undo(self, machine: &mut Machine<A>)
        requires boundary { machine.old ≡ at_boundary machine.old.state }
        requires belongs { IsTrue (belongs self machine.old.state) }
        ensures { machine.new ≡ at_boundary (undone self machine.old.state) }
    {
        let Record {
            panel,
            clock,
            printed,
            passed,
            reader_on,
            lost,
            other,
        } = self;
        let lost = lost.word();
        put_tape(machine, taken_tape(other), passed);
        let mark = Mark {
            panel,
            reader_on,
            clock,
            printed,
            passed,
        };
        let _ = machine.return_to(&mark, lost);
    }
}

/// The tape that is kept with a step.
fn taken_tape<A: Allocator>(other: Option<Box<Other<A>, A>>) -> Option<Tape<A>>
    ensures { result ≡ tape_or_none (option_map (λ other. other.value.tape) other) }
{
    let Other { step: _step, tape } = Box::into_inner(other?);
    tape
}

/// Puts a tape back of which a given number of codes have passed, if there is one.
fn put_tape<A: Allocator>(machine: &mut Machine<A>, tape: Option<Tape<A>>, passed: usize)
    requires boundary { machine.old ≡ at_boundary machine.old.state }
    requires within { (codes : List ℕ) → tape ≡ Some codes
        → (passed ≤ length codes) × (length codes ≤ tape_limit) }
    ensures { machine.new ≡ at_boundary (with_tape tape passed machine.old.state) }
{
    if let Some(tape) = tape {
        machine.set_tape(tape.into_codes(), passed);
    }
}

/// The word that is lost where a word is stored at an address.
fn lost_word<A: Allocator>(machine: &Machine<A>, address: Address, word: Word) -> Lost
    ensures { result ≡ lost_word machine.now.state.core address word }
{
    let old = machine.word(address);
    let _number = address.number();
    Lost {
        differs: old != word,
        address,
        word: old,
    }
}

/// The word that an order loses which begins with these registers.
#[inline(always)]
fn lost_by<A: Allocator>(
    machine: &Machine<A>,
    op: Op,
    address: Address,
    accumulator: u32,
    counter: Address,
) -> Lost
    ensures { (panel : Panel) → panel.accumulator ≡ accumulator → panel.counter ≡ counter
        → result ≡ lost_by op address (record machine.now.state.core { panel = panel }) }
{
    if !matches!(op, Op::Y | Op::R | Op::H | Op::C) {
        return Lost::nothing();
    }
    match op {
        Op::Y => {
            let part = parts(Word::of_bits(accumulator)).2;
            lost_word(machine, address, with_address(machine.word(address), part))
        }
        Op::R => lost_word(
            machine,
            address,
            with_address(machine.word(address), counter.next()),
        ),
        Op::H | Op::C => lost_word(machine, address, Word::of_bits(accumulator)),
        _ => Lost::nothing(),
    }
}

/// The word that the order in the instruction register loses.
#[cold]
#[inline(never)]
fn lost_in_register<A: Allocator>(machine: &Machine<A>) -> Lost
    requires { IsTrue (is_boundary machine.now) }
    ensures { result
        ≡ lost_by_order machine.now.state.core.panel.register machine.now.state.core }
{
    let Some(look) = machine.look() else {
        unreachable!()
    };
    let (_, op, address) = parts(look.register);
    lost_by(machine, op, address, look.accumulator, look.counter)
}

/// The word that the activity loses which begins here.
#[inline(always)]
fn lost_in<A: Allocator>(machine: &Machine<A>) -> Lost
    requires { IsTrue (is_boundary machine.now) }
    ensures { result ≡ lost_in (begun_order machine.now.state.core) }
{
    let Some(look) = machine.look() else {
        unreachable!()
    };
    if matches!(look.status, Status::Going) {
        let (_, op, address) = machine.parts(look.counter);
        return lost_by(machine, op, address, look.accumulator, look.counter.next());
    }
    if !matches!(look.status, Status::Executing) {
        return Lost::nothing();
    }
    lost_in_register(machine)
}

/// The word that a step loses.
fn lost_of<A: Allocator>(machine: &Machine<A>, step: &Step<A>) -> Lost
    requires { IsTrue (is_boundary machine.now) }
    ensures { result ≡ lost_of (plain step.now) machine.now.state }
{
    match step {
        Step::Perform => lost_in(machine),
        Step::Put(address, word) => lost_word(machine, *address, *word),
        Step::Press(_) | Step::Idle(_) | Step::Mount(_) => Lost::nothing(),
    }
}

/// The tape that a step takes out of the reader, or a refused growth.
fn tape_of<A: Allocator + Clone>(
    machine: &Machine<A>,
    step: &Step<A>,
) -> Result<Option<Tape<A>>, AllocError>
    requires { IsTrue (is_boundary machine.now) }
    ensures tape { IfOk result (λ tape. tape ≡ tape_of (plain step.now) machine.now.state) }
    ensures few { IfOk result (λ tape. (codes : List ℕ) → tape ≡ Some codes
        → (length machine.now.state.core.tape.passed ≤ length codes)
        × (length codes ≤ tape_limit)) }
{
    let Step::Mount(mounted) = step else {
        return Ok(None);
    };
    Ok(Some(mounted.beside(machine)?))
}
