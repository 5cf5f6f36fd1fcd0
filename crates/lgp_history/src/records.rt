//! History by records.

ghost use Rattle.std.specs.Prelude.{◌≡◌, ◌<◌, ◌≤◌, ℕ, [], Some, None, length, slice_get, true, IfOk};
ghost use Rattle.lgp_table.specs.State.{State};
ghost use Rattle.lgp_table.specs.Interleaving.{at_boundary};
ghost use Rattle.lgp_history.specs.Hits.{last_hit};
ghost use Rattle.lgp_history.specs.NotingInside.{AreInOrder, AreNoted, IsNoted, first_clock, last_clock};
ghost use Rattle.lgp_history.specs.Origins.{latest_change};
ghost use Rattle.lgp_history.specs.Steps.{Leads, state_back, steps_back};
ghost use Rattle.lgp_history.specs.RecordedInside.{Recorded, lost_at, orders_recorded, read, recorded};

use crate::changes::Record;
use crate::history::{BackFault, History};
use crate::origin::{Origin, Origins};
use crate::rule::Rule;
use crate::step::Step;
use circular_buffer::HeapCircularBuffer;
use lgp_machine::Machine;
use lgp_word::Address;
use std::alloc::{AllocError, Allocator, Global};
use std::marker::Model;

/// The most steps that a history can keep.
pub const CAPACITY_LIMIT: usize = 65536;

/// A history that keeps of each step what is needed to undo it: a mark of the machine before the step, the word that the step
/// loses, and the tape that it takes out. No machine is copied, and going back takes no memory. Clauses see the records.
#[derive(Drop)]
pub struct Records<A: Allocator = Global> {
    records: HeapCircularBuffer<Record<A>, A>,
    /// By address one more than the clock of the latest noted step that changed the word there, or 0.
    changes: Vec<u64, A>,
    /// All kept steps that began before this clock are noted.
    noted_before: u64,
}

impl<A: Allocator> Model for Records<A> {
    ghost use Rattle.circular_buffer.specs.Buffer.{Buffer};
    ghost use Rattle.lgp_history.specs.NotingInside.{AreNoted};
    ghost use Rattle.lgp_history.specs.RecordedInside.{Recorded};
    ghost use Rattle.std.specs.Prelude.{◌≤◌};

    ghost Value = { Buffer Recorded };

    ghost view = { λ history. history.records };

    ghost invariant = { λ history. (1 ≤ history.records.capacity)
        × AreNoted history.records.items history.changes.items history.noted_before };
}

impl<A: Allocator + Clone> Records<A> {
    /// A history that keeps at most `capacity` steps, 1 to 65,536; it has places for all of them. Or a refused growth.
    pub fn new(alloc: A, capacity: usize) -> Result<Records<A>, AllocError>
        requires some { 1 ≤ capacity }
        requires few { capacity ≤ CAPACITY_LIMIT }
        ensures empty { IfOk result (λ history. (now : State)
            → ⟦<Records<A> as History<A>>⟧.steps history now ≡ []) }
        ensures capacity { IfOk result (λ history.
            ⟦<Records<A> as History<A>>⟧.capacity history ≡ capacity) }
    {
        let changes = vec![in alloc.clone()?; 0; Address::COUNT]?;
        let records = HeapCircularBuffer::with_capacity(alloc, capacity)?;
        Ok(Records {
            records,
            changes,
            noted_before: 0,
        })
    }
}

impl<A: Allocator> Records<A> {
    /// No kept step that began before this clock changed the word at an address.
    fn unchanged_before(&self, address: Address) -> u64
        ensures { (i : ℕ) → (r : Recorded) → slice_get self.now.items i ≡ Some r
            → r.mark.clock < result → lost_at r.lost address ≡ None }
    {
        if self.changes[usize::from(address.number())] <= first_clock(&self.records) {
            self.noted_before
        } else {
            0
        }
    }
}

/// The clock at which the first recorded step began, or 0.
fn first_clock<A: Allocator>(records: &HeapCircularBuffer<Record<A>, A>) -> u64
    ensures { result ≡ first_clock records.now.items }
{
    match records.front() {
        Some(record) => record.clock(),
        None => 0,
    }
}

/// The clock at which the last recorded step began, or 0.
fn last_clock<A: Allocator>(records: &HeapCircularBuffer<Record<A>, A>) -> u64
    ensures { result ≡ last_clock records.now.items }
{
    match records.back() {
        Some(record) => record.clock(),
        None => 0,
    }
}

/// Undoes steps up to the beginning of the first of the last `orders` orders, of those that are recorded.
fn undo_orders<A: Allocator>(
    records: &mut HeapCircularBuffer<Record<A>, A>,
    orders: u64,
    machine: &mut Machine<A>,
)
    requires boundary { machine.old ≡ at_boundary machine.old.state }
    requires some { 1 ≤ orders }
    requires recorded { orders ≤ orders_recorded records.old.items }
    requires leads { Leads (read records.old.items machine.old.state) machine.old.state }
    ensures state { machine.new ≡ at_boundary
        (state_back orders (read records.old.items machine.old.state) machine.old.state) }
    ensures steps { read records.new.items machine.new.state
        ≡ steps_back orders (read records.old.items machine.old.state) }
    ensures first_ones { (i : ℕ) → (r : Recorded) → slice_get records.new.items i ≡ Some r
        → slice_get records.old.items i ≡ Some r }
    ensures capacity { records.new.capacity ≡ records.old.capacity }
{
    let mut left = orders;
    while left > 0 {
        let Some(record) = records.pop_back() else {
            unreachable!()
        };
        left -= u64::from(record.is_order());
        record.undo(machine);
    }
}

/// How many of the recorded steps are orders.
fn count_orders<A: Allocator>(records: &HeapCircularBuffer<Record<A>, A>) -> u64
    ensures { result ≡ orders_recorded records.now.items }
{
    let mut orders = 0;
    for index in 0..records.len() {
        let Some(record) = records.get(index) else {
            unreachable!()
        };
        orders += u64::from(record.is_order());
    }
    orders
}

/// The latest recorded order that a rule hits: how many orders back it is, and the number of the first rule that hits it.
fn find_hit<A: Allocator>(
    records: &HeapCircularBuffer<Record<A>, A>,
    rules: &[Rule],
) -> Option<(u64, u8)>
    requires { length rules.now ≤ 256 }
    ensures { (now : State) → Leads (read records.now.items now) now
        → result ≡ last_hit rules.now (read records.now.items now) }
{
    let mut orders = 0;
    let mut left = records.len();
    while left > 0 {
        left -= 1;
        let Some(record) = records.get(left) else {
            unreachable!()
        };
        if !record.is_order() {
            continue;
        }
        orders += 1;
        if let Some(number) = record.first_hit(rules) {
            return Some((orders, number));
        }
    }
    None
}

/// The latest recorded step that changed the word at an address, where none did that began before a clock.
fn find_change<A: Allocator>(
    records: &HeapCircularBuffer<Record<A>, A>,
    now: &Machine<A>,
    address: Address,
    unchanged_before: u64,
) -> Option<Origin>
    requires boundary { now.now ≡ at_boundary now.now.state }
    requires leads { Leads (read records.now.items now.now.state) now.now.state }
    requires in_order { AreInOrder records.now.items }
    requires unchanged { (i : ℕ) → (r : Recorded) → slice_get records.now.items i ≡ Some r
        → r.mark.clock < unchanged_before → lost_at r.lost address ≡ None }
    ensures { result ≡ latest_change address (read records.now.items now.now.state) }
{
    let mut register = now.look()?.register;
    let mut orders = 0;
    let mut unread = records.len();
    while unread > 0 {
        unread -= 1;
        let Some(record) = records.get(unread) else {
            unreachable!()
        };
        if record.clock() < unchanged_before {
            return None;
        }
        orders += u64::from(record.is_order());
        if let Some(lost) = record.lost_at(address) {
            let changer = record.changer(register, orders);
            return Some(Origin { changer, lost });
        }
        register = record.register();
    }
    None
}

/// Notes the changes of the recorded steps, of which those that began before a clock are noted.
fn note_later<A: Allocator>(
    records: &HeapCircularBuffer<Record<A>, A>,
    noted_before: u64,
    changes: &mut [u64],
)
    requires { AreNoted records.now.items changes.old noted_before }
    ensures noted { (i : ℕ) → (r : Recorded) → slice_get records.now.items i ≡ Some r
        → IsNoted changes.new r }
    ensures places { length changes.new ≡ 4096 }
{
    let mut left = records.len();
    while left > 0 {
        left -= 1;
        let Some(record) = records.get(left) else {
            unreachable!()
        };
        if record.clock() < noted_before {
            return;
        }
        record.note_change(changes);
    }
}

impl<A: Allocator + Clone> History<A> for Records<A> {
    type Note = Record<A>;

    ghost steps = { λ history now. read history.items now };

    ghost capacity = { λ history. history.capacity };

    ghost fits = { λ history note before step. note ≡ recorded step before };

    ghost goes_back_freely = { true };

    #[inline(always)]
    fn prepare(&mut self, before: &Machine<A>, step: &Step<A>) -> Result<Self::Note, AllocError> {
        Record::new(self.records.allocator(), before, step)
    }

    #[inline(always)]
    fn note(&mut self, note: Self::Note) {
        let _oldest = self.records.push_back(note);
    }

    fn back(&mut self, orders: u64, machine: &mut Machine<A>) -> Result<(), BackFault> {
        let kept = self.orders_kept();
        if kept < orders {
            return Err(BackFault::TooFar(kept));
        }
        undo_orders(&mut self.records, orders, machine);
        self.noted_before = self.noted_before.min(last_clock(&self.records));
        Ok(())
    }

    fn find(&self, _now: &Machine<A>, rules: &[Rule]) -> Result<Option<(u64, u8)>, AllocError> {
        Ok(find_hit(&self.records, rules))
    }

    fn kept(&self) -> u64 {
        self.records.len() as u64
    }

    fn orders_kept(&self) -> u64 {
        count_orders(&self.records)
    }

    fn clear(&mut self) {
        self.records.clear();
        self.noted_before = 0;
    }
}

impl<A: Allocator + Clone> Origins<A> for Records<A> {
    fn note_changes(&mut self) {
        note_later(&self.records, self.noted_before, &mut self.changes);
        self.noted_before = last_clock(&self.records);
    }

    fn origin(&self, now: &Machine<A>, address: Address) -> Option<Origin> {
        find_change(&self.records, now, address, self.unchanged_before(address))
    }
}
