//! History by copies of the machine and by doing steps again.

ghost use Rattle.std.specs.Prelude.{◌≡◌, false, ◌<◌, ◌≤◌, ◌+◌, ◌-◌, ◌%◌, ◌==◌, ◌^◌, ◌++◌, ◌∷◌, [], IfOk, OnOk, IsSome, length, drop, take, if◌then◌else◌, Some, None};
ghost use Rattle.lgp_table.specs.State.{State};
ghost use Rattle.lgp_table.specs.Interleaving.{at_boundary};
ghost use Rattle.lgp_history.specs.Step.{plain};
ghost use Rattle.lgp_history.specs.Steps.{CanStep, is_order, orders_in, state_back, stepped, steps_back};
ghost use Rattle.lgp_history.specs.CheckpointsInside.{IsNoted, hit_more, noted_after, played, played_to, start_of};
ghost use Rattle.lgp_history.specs.Hits.{first_hit, last_hit};

use crate::changes::Record;
use crate::history::{BackFault, History};
use crate::records::CAPACITY_LIMIT;
use crate::rule::Rule;
use crate::step::Step;
use circular_buffer::HeapCircularBuffer;
use lgp_machine::Machine;
use std::alloc::{AllocError, Allocator, Global};
use std::boxed::Box;
use std::marker::Model;

/// The machine is copied before every step of this number.
const SPACING: usize = 64;

/// A step, with a copy of the machine before it at every 64th step.
pub struct Checkpoint<A: Allocator> {
    step: Step<A>,
    copy: Option<Box<Machine<A>, A>>,
}

// Written out: a derived drop is copied to each place where one is dropped.
impl<A: Allocator> Drop for Checkpoint<A> {
    fn drop(self) {
        let Checkpoint { step: _, copy: _ } = self;
    }
}

impl<A: Allocator> Model for Checkpoint<A> {
    ghost use Rattle.std.specs.Prelude.{option_map};
    ghost use Rattle.lgp_history.specs.Step.{plain};
    ghost use Rattle.lgp_history.specs.CheckpointsInside.{Noted};

    ghost Value = { Noted };

    ghost view = { λ c. record {
      step = plain c.step;
      copy = option_map (λ copy. copy.value) c.copy;
    } };
}

impl<A: Allocator> Checkpoint<A> {
    /// Whether the step is an order.
    fn is_order(&self) -> bool
        ensures { result ≡ is_order self.now.step }
    {
        self.step.is_order()
    }
}

impl<A: Allocator + Clone> Checkpoint<A> {
    /// What is noted of a step: with a copy of the machine before it or without.
    fn new(
        alloc: &A,
        before: &Machine<A>,
        step: &Step<A>,
        copied: bool,
    ) -> Result<Checkpoint<A>, AllocError>
        requires { before.now ≡ at_boundary before.now.state }
        ensures { IfOk result (λ noted. noted ≡ record {
          step = plain step.now;
          copy = if copied then Some (at_boundary before.now.state) else None;
        }) }
    {
        let step = step.copy()?;
        let copy = if copied {
            Some(Box::new(alloc.clone()?, before.copy()?)?)
        } else {
            None
        };
        Ok(Checkpoint { step, copy })
    }

    /// Another copy of the machine before the step.
    fn machine(&self) -> Result<Machine<A>, AllocError>
        requires { IsSome self.now.copy }
        ensures { IfOk result (λ machine. self.now.copy ≡ Some machine) }
    {
        match &self.copy {
            Some(machine) => machine.copy(),
            None => unreachable!(),
        }
    }

    /// Does the step again.
    fn take_step(&self, machine: &mut Machine<A>) -> Result<(), AllocError>
        requires boundary { machine.old ≡ at_boundary machine.old.state }
        requires possible { CanStep self.now.step machine.old.state }
        ensures { OnOk result
            (machine.new ≡ at_boundary (stepped self.now.step machine.old.state)) }
    {
        self.step.take(machine)
    }
}

/// The machine before the step at a place of a trail where a copy was made.
fn copied<A: Allocator + Clone>(
    trail: &HeapCircularBuffer<Checkpoint<A>, A>,
    place: usize,
) -> Result<Machine<A>, AllocError>
    requires noted { IsNoted trail.now.items }
    requires within { place < length trail.now.items }
    requires copied { place % 64 ≡ 0 }
    ensures { IfOk result (λ machine. machine
        ≡ at_boundary (played_to (start_of trail.now.items) (take place trail.now.items))) }
{
    let Some(noted) = trail.get(place) else {
        unreachable!()
    };
    let machine = noted.machine()?;
    Ok(machine)
}

/// The machine before the step at a place of a trail.
fn replayed<A: Allocator + Clone>(
    trail: &HeapCircularBuffer<Checkpoint<A>, A>,
    place: usize,
) -> Result<Machine<A>, AllocError>
    requires noted { IsNoted trail.now.items }
    requires within { place < length trail.now.items }
    ensures { IfOk result (λ machine. machine
        ≡ at_boundary (played_to (start_of trail.now.items) (take place trail.now.items))) }
{
    let first = place - place % SPACING;
    let mut machine = copied(trail, first)?;
    for index in first..place {
        let Some(noted) = trail.get(index) else {
            unreachable!()
        };
        noted.take_step(&mut machine)?;
    }
    Ok(machine)
}

/// The place of the first of the last `orders` orders of a trail, of those from the place `passed` on.
fn place_of<A: Allocator>(
    trail: &HeapCircularBuffer<Checkpoint<A>, A>,
    passed: usize,
    orders: u64,
) -> usize
    requires some { 1 ≤ orders }
    requires kept { orders
        ≤ orders_in (drop passed (played (start_of trail.now.items) trail.now.items)) }
    ensures within { (passed ≤ result) × (result < length trail.now.items) }
    ensures state { state_back orders
        (drop passed (played (start_of trail.now.items) trail.now.items))
        (played_to (start_of trail.now.items) trail.now.items)
        ≡ played_to (start_of trail.now.items) (take result trail.now.items) }
    ensures steps { steps_back orders
        (drop passed (played (start_of trail.now.items) trail.now.items))
        ≡ drop passed (played (start_of trail.now.items) (take result trail.now.items)) }
{
    let mut place = trail.len();
    let mut left = orders;
    while left > 0 {
        place -= 1;
        let Some(noted) = trail.get(place) else {
            unreachable!()
        };
        left -= u64::from(noted.is_order());
    }
    place
}

/// How many orders there are on a trail from the place `passed` on.
fn orders_from<A: Allocator>(trail: &HeapCircularBuffer<Checkpoint<A>, A>, passed: usize) -> u64
    requires { passed ≤ length trail.now.items }
    ensures { result
        ≡ orders_in (drop passed (played (start_of trail.now.items) trail.now.items)) }
{
    let mut orders = 0;
    for place in passed..trail.len() {
        let Some(noted) = trail.get(place) else {
            unreachable!()
        };
        orders += u64::from(noted.is_order());
    }
    orders
}

/// The latest order of a trail that a rule hits, of those from the place `passed` on: how many orders back it is, and the number of
/// the first rule that hits it.
fn find_from<A: Allocator + Clone>(
    trail: &HeapCircularBuffer<Checkpoint<A>, A>,
    passed: usize,
    rules: &[Rule],
) -> Result<Option<(u64, u8)>, AllocError>
    requires noted { IsNoted trail.now.items }
    requires within { passed < length trail.now.items }
    requires few { length rules.now ≤ 256 }
    ensures { IfOk result (λ hit. hit
        ≡ last_hit rules.now (drop passed (played (start_of trail.now.items) trail.now.items))) }
{
    let mut machine = replayed(trail, passed)?;
    let mut latest = Latest {
        orders: 0,
        rule: None,
    };
    for place in passed..trail.len() {
        let Some(noted) = trail.get(place) else {
            unreachable!()
        };
        if noted.is_order() {
            latest.pass(first_hit(&machine, rules));
        }
        noted.take_step(&mut machine)?;
    }
    Ok(latest.found())
}

/// The number of the first rule that hits the order that begins where the machine is.
fn first_hit<A: Allocator>(machine: &Machine<A>, rules: &[Rule]) -> Option<u8>
    requires boundary { machine.now ≡ at_boundary machine.now.state }
    requires few { length rules.now ≤ 256 }
    ensures { result ≡ first_hit rules.now machine.now.state }
{
    let record = Record::of_order(machine);
    record.first_hit(rules)
}

/// The latest order so far that a rule hits: its rule, and how many orders there have been from it on.
#[derive(Clone, Copy)]
struct Latest {
    orders: u64,
    rule: Option<u8>,
}

impl Latest {
    ghost use Rattle.lgp_history.specs.CheckpointsInside.{hit_of};

    /// Passes an order, which a rule has hit or none.
    fn pass(&mut self, hit: Option<u8>)
        requires { self.old.orders < 2 ^ 63 }
        ensures hit { hit_of self.new.orders self.new.rule
            ≡ hit_more (hit_of self.old.orders self.old.rule) hit }
        ensures orders { self.new.orders ≤ self.old.orders + 1 }
    {
        if hit.is_some() {
            self.rule = hit;
            self.orders = 1;
        } else {
            self.orders += 1;
        }
    }

    /// The latest hit, if there is one.
    fn found(&self) -> Option<(u64, u8)>
        ensures { result ≡ hit_of self.now.orders self.now.rule }
    {
        let rule = self.rule?;
        Some((self.orders, rule))
    }
}

/// A history that keeps the steps, and copies of the machine before the first one and before every 64th after it. It goes back by
/// doing steps again from a copy.
#[derive(Drop)]
pub struct Checkpoints<A: Allocator = Global> {
    trail: HeapCircularBuffer<Checkpoint<A>, A>,
    passed: usize,
}

impl<A: Allocator> Model for Checkpoints<A> {
    ghost use Rattle.std.specs.Prelude.{◌-◌, ◌≡◌, ◌+◌, ◌<◌, drop};
    ghost use Rattle.lgp_history.specs.CheckpointsInside.{IsTrail, Trail, played, start_of};

    ghost Value = { Trail };

    ghost view = { λ h. record {
      steps = drop h.passed (played (start_of h.trail.items) h.trail.items);
      passed = h.passed;
      capacity = h.trail.capacity - 64;
    } };

    ghost invariant = { λ h.
        IsTrail h.trail.items h.passed (h.trail.capacity - 64) × (64 < h.trail.capacity) };
}

impl<A: Allocator + Clone> Checkpoints<A> {
    /// A history that keeps at most `capacity` steps, 1 to 65,536; it has places for all of them. Or a refused growth.
    pub fn new(alloc: A, capacity: usize) -> Result<Checkpoints<A>, AllocError>
        requires some { 1 ≤ capacity }
        requires few { capacity ≤ CAPACITY_LIMIT }
        ensures empty { IfOk result (λ history. (now : State)
            → ⟦<Checkpoints<A> as History<A>>⟧.steps history now ≡ []) }
        ensures capacity { IfOk result (λ history.
            ⟦<Checkpoints<A> as History<A>>⟧.capacity history ≡ capacity) }
    {
        let trail = HeapCircularBuffer::with_capacity(alloc, capacity + SPACING)?;
        Ok(Checkpoints { trail, passed: 0 })
    }
}

/// How many steps in front of a trail do not count once one more is put after it.
fn passed_with_one_more<A: Allocator>(
    trail: &HeapCircularBuffer<Checkpoint<A>, A>,
    passed: usize,
) -> usize
    requires room { 64 < trail.now.capacity }
    requires few { passed < 64 }
    ensures { result ≡ (if length trail.now.items == passed + (trail.now.capacity - 64)
        then passed + 1 else passed) }
{
    if trail.len() == passed + (trail.capacity() - SPACING) {
        passed + 1
    } else {
        passed
    }
}

/// Puts a step after a trail. Answers how many steps in front do not count then: one more where as many count as there is room for.
fn push<A: Allocator>(
    trail: &mut HeapCircularBuffer<Checkpoint<A>, A>,
    passed: usize,
    noted: Checkpoint<A>,
) -> usize
    requires room { 64 < trail.old.capacity }
    requires few { passed < 64 }
    requires within { length trail.old.items ≤ passed + (trail.old.capacity - 64) }
    ensures items { trail.new.items ≡ trail.old.items ++ noted ∷ [] }
    ensures passed { result ≡ (if length trail.old.items == passed + (trail.old.capacity - 64)
        then passed + 1 else passed) }
    ensures capacity { trail.new.capacity ≡ trail.old.capacity }
{
    let passed = passed_with_one_more(trail, passed);
    let _none = trail.push_back(noted);
    passed
}

/// Drops the first 64 steps of a trail where none of them counts. Answers how many steps in front do not count then.
fn cut<A: Allocator>(trail: &mut HeapCircularBuffer<Checkpoint<A>, A>, passed: usize) -> usize
    requires { passed ≡ 64 → 64 ≤ length trail.old.items }
    ensures items { trail.new.items
        ≡ (if passed == 64 then drop 64 trail.old.items else trail.old.items) }
    ensures passed { result ≡ (if passed == 64 then 0 else passed) }
    ensures capacity { trail.new.capacity ≡ trail.old.capacity }
{
    if passed != SPACING {
        return passed;
    }
    trail.truncate_front(trail.len() - SPACING);
    0
}

/// Keeps the steps of a trail before a place; where none of them counts, it is emptied. Answers how many steps in front do not
/// count then.
fn shorten<A: Allocator>(
    trail: &mut HeapCircularBuffer<Checkpoint<A>, A>,
    passed: usize,
    place: usize,
) -> usize
    ensures items { trail.new.items
        ≡ (if place == passed then [] else take place trail.old.items) }
    ensures passed { result ≡ (if place == passed then 0 else passed) }
    ensures capacity { trail.new.capacity ≡ trail.old.capacity }
{
    if place == passed {
        trail.clear();
        return 0;
    }
    trail.truncate_back(place);
    passed
}

/// Puts another machine in the place of this one.
fn replace<A: Allocator>(machine: &mut Machine<A>, other: Machine<A>)
    ensures { machine.new ≡ other }
{
    *machine = other;
}

impl<A: Allocator + Clone> History<A> for Checkpoints<A> {
    type Note = Checkpoint<A>;

    ghost steps = { λ history now. history.steps };

    ghost capacity = { λ history. history.capacity };

    ghost fits = { λ history note before step. note ≡ noted_after history before step };

    ghost goes_back_freely = { false };

    fn prepare(&mut self, before: &Machine<A>, step: &Step<A>) -> Result<Self::Note, AllocError> {
        let copied = self.trail.len() % SPACING == 0;
        let noted = Checkpoint::new(self.trail.allocator(), before, step, copied)?;
        Ok(noted)
    }

    fn note(&mut self, note: Self::Note) {
        let passed = push(&mut self.trail, self.passed, note);
        self.passed = cut(&mut self.trail, passed);
    }

    fn back(&mut self, orders: u64, machine: &mut Machine<A>) -> Result<(), BackFault> {
        let kept = orders_from(&self.trail, self.passed);
        if kept < orders {
            return Err(BackFault::TooFar(kept));
        }
        let place = place_of(&self.trail, self.passed, orders);
        let Ok(earlier) = replayed(&self.trail, place) else {
            return Err(BackFault::Memory);
        };
        replace(machine, earlier);
        self.passed = shorten(&mut self.trail, self.passed, place);
        Ok(())
    }

    fn find(&self, _now: &Machine<A>, rules: &[Rule]) -> Result<Option<(u64, u8)>, AllocError> {
        if self.trail.is_empty() {
            return Ok(None);
        }
        find_from(&self.trail, self.passed, rules)
    }

    fn kept(&self) -> u64 {
        (self.trail.len() - self.passed) as u64
    }

    fn orders_kept(&self) -> u64 {
        orders_from(&self.trail, self.passed)
    }

    fn clear(&mut self) {
        self.trail.clear();
        self.passed = 0;
    }
}
