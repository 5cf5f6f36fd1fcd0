//! Turns of the drum that orders lose for a word, by the sector at which it is.

ghost use Rattle.std.specs.Prelude.{◌≡◌, ℕ, ◌+◌, ◌-◌, ◌*◌, ◌^◌, ◌<◌, ◌≤◌, ◌==◌, ◌&&◌, nat_le, nat_lt, length, slice_index, if◌then◌else◌, IfOk, OnOk, OnErr};
ghost use Rattle.lgp_table.specs.Wait.{wait};
ghost use Rattle.lgp_optimum.specs.OptimumKept.{turns_at};
ghost use Rattle.lgp_optimum.specs.TurnsInside.{SameTurns, is_late, no_turns, one_turn_if};

use lgp_phases::wait;
use lgp_word::Address;
use std::alloc::{AllocError, Allocator, Global};
use std::marker::Model;

/// How many sectors a track has.
const SECTORS: usize = Address::SECTORS as usize;

/// How many turns more than they need the orders take that waited for a word, had it been at each of the sectors. Only a word with a row
/// takes memory for its counts.
pub(crate) struct Turns<A: Allocator = Global> {
    /// By address the number of the word's row.
    rows: Vec<usize, A>,
    /// Row after row, a count for each sector. The first row is of no word, and shows for all that have none.
    counts: Vec<u64, A>,
}

// Written out: a derived drop is copied to each place where one is dropped.
impl<A: Allocator> Drop for Turns<A> {
    fn drop(self) {
        let Turns { rows: _, counts: _ } = self;
    }
}

impl<A: Allocator> Model for Turns<A> {
    ghost use Rattle.lgp_optimum.specs.OptimumKept.{IsTurned, Turned};

    ghost Value = { Turned };

    ghost view = { λ turns. record { rows = turns.rows.items; counts = turns.counts.items } };

    ghost invariant = { λ turns. IsTurned turns.rows.items turns.counts.items };
}

impl<A: Allocator + Copy> Turns<A> {
    /// No turn, or a refused growth.
    pub(crate) fn new(alloc: A) -> Result<Turns<A>, AllocError>
        ensures { IfOk result (λ turns. turns ≡ no_turns) }
    {
        Ok(Turns {
            rows: vec![in alloc; 0; Address::COUNT]?,
            counts: vec![in alloc; 0; SECTORS]?,
        })
    }
}

impl<A: Allocator> Turns<A> {
    /// Forgets all turns, and which words have a row.
    pub(crate) fn clear(&mut self)
        ensures { self.new ≡ no_turns }
    {
        self.rows.fill(0);
        self.counts.truncate(SECTORS);
    }

    /// Gives a word a row, unless it has one.
    pub(crate) fn make_room(&mut self, word: Address) -> Result<(), AllocError>
        ensures room { OnOk result (0 < slice_index self.new.rows word) }
        ensures same { SameTurns self.old self.new }
        ensures rows { (other : ℕ) → 0 < slice_index self.old.rows other
            → 0 < slice_index self.new.rows other }
        ensures counts { (at : ℕ) → slice_index self.new.counts at
            ≤ slice_index self.old.counts at }
        ensures unchanged { OnErr result (self.new ≡ self.old) }
    {
        let word = usize::from(word.number());
        if self.rows[word] == 0 {
            let row = self.counts.len() / SECTORS;
            self.counts.extend_from_slice(&[0; SECTORS])?;
            self.rows[word] = row;
        }
        Ok(())
    }

    /// One turn more at each sector that is read too late: when `room` word times have passed since the wait for the word began, the
    /// next order is read, or one turn later.
    pub(crate) fn add(&mut self, word: Address, begun: u64, room: u64)
        requires row { 0 < slice_index self.old.rows word }
        requires few { (at : ℕ) → slice_index self.old.counts at + 1 < 2 ^ 64 }
        ensures rows { self.new.rows ≡ self.old.rows }
        ensures length { length self.new.counts ≡ length self.old.counts }
        ensures turns { (other : ℕ) → (sector : ℕ) → other < 4096 → sector < 64
            → turns_at self.new other sector ≡ turns_at self.old other sector
            + one_turn_if ((word == other) && is_late room begun sector) }
        ensures one { (at : ℕ) → slice_index self.new.counts at
            ≤ slice_index self.old.counts at + 1 }
    {
        let first = self.first_of(word);
        add_turns(&mut self.counts, first, begun, room);
    }

    /// The turns of a word at a sector.
    pub(crate) fn at(&self, word: Address, sector: u16) -> u64
        requires { sector < 64 }
        ensures { result ≡ turns_at self.now word sector }
    {
        self.counts[self.first_of(word) + usize::from(sector)]
    }

    /// Where the counts of a word begin.
    #[inline(always)]
    fn first_of(&self, word: Address) -> usize
        ensures first { result ≡ 64 * slice_index self.now.rows word }
        ensures within { result + 64 ≤ length self.now.counts }
    {
        SECTORS * self.rows[usize::from(word.number())]
    }
}

/// The same in the 64 counts from `first` on.
#[inline(always)]
fn add_turns(counts: &mut [u64], first: usize, begun: u64, room: u64)
    requires row { first + 64 ≤ length counts.old }
    requires few { (at : ℕ) → slice_index counts.old at + 1 < 2 ^ 64 }
    ensures length { length counts.new ≡ length counts.old }
    ensures turns { (at : ℕ) → slice_index counts.new at ≡ slice_index counts.old at
        + one_turn_if (nat_le first at && nat_lt at (first + 64)
        && is_late room begun (at - first)) }
{
    for sector in 0..Address::SECTORS {
        let late = room <= wait(sector, begun, 0);
        counts[first + usize::from(sector)] += u64::from(late);
    }
}
