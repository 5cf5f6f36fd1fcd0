//! Where a word would have cost least: what the orders of a run would have taken, had a word been at another sector.

ghost use Rattle.std.specs.Prelude.{◌≡◌, ℕ, ◌+◌, ◌^◌, ◌<◌, false, option_map, slice_index, IfOk, IfSome, OnOk, OnErr};
ghost use Rattle.lgp_word.specs.Address.{sector_of};
ghost use Rattle.lgp_table.specs.Activity.{next};
ghost use Rattle.lgp_table.specs.After.{after};
ghost use Rattle.lgp_table.specs.Console.{is_at_rest};
ghost use Rattle.lgp_table.specs.State.{State};
ghost use Rattle.lgp_trace.specs.Account.{account_of, found_of, operand_in, place_of};
ghost use Rattle.lgp_optimum.specs.Gains.{best_of, moves_in, times_of};
ghost use Rattle.lgp_optimum.specs.Optimum.{freedom, freedom_of, took_with};
ghost use Rattle.lgp_optimum.specs.OptimumInside.{ShowsSame, seek_with};
ghost use Rattle.lgp_optimum.specs.OptimumKept.{IsBest, IsLeast, IsOptimumOf, share, times_at, turns_at, use_at};
ghost use Rattle.lgp_optimum.specs.TurnsInside.{is_last_late, one_turn_if};
ghost use Rattle.lgp_trace.specs.Phases.{all_phases, phases_of};

use crate::turns::Turns;
use crate::uses::{Freedom, Uses};
use lgp_phases::wait;
use lgp_trace::{Account, Operand};
use lgp_word::Address;
use std::alloc::{AllocError, Allocator, Global};
use std::marker::Model;

/// How many sectors a track has.
const SECTORS: usize = Address::SECTORS as usize;

/// The best sector of a word, and how many word times the same orders would have taken less with it there.
#[derive(Clone, Copy, Debug, PartialEq, Eq)]
pub struct Best {
    pub sector: u16,
    pub saved: u64,
}

/// An order that waited for a word: the clock at which its wait began, and how long it acted after it.
#[derive(Clone, Copy)]
pub struct Seek {
    pub word: Address,
    pub begun: u64,
    pub act: u64,
}

/// What orders one after another would have taken, had one of the words that they name been at another sector. Memory grows with the
/// number of these words, and not with that of the orders.
pub struct Optimum<A: Allocator = Global> {
    took: u64,
    turns: Turns<A>,
    /// The last order, if it waited for a word: how long the next one is waited for is not yet known.
    last: Option<Seek>,
    uses: Uses<A>,
}

// Written out: a derived drop is copied to each place where one is dropped.
impl<A: Allocator> Drop for Optimum<A> {
    fn drop(self) {
        let Optimum {
            took: _,
            turns: _,
            last: _,
            uses: _,
        } = self;
    }
}

impl<A: Allocator> Model for Optimum<A> {
    ghost use Rattle.std.specs.Prelude.{ℕ, ◌<◌, ◌≤◌, IfSome, slice_index};
    ghost use Rattle.lgp_optimum.specs.OptimumKept.{Kept};

    ghost Value = { Kept };

    ghost view = { λ o. record {
      took = o.took;
      turned = o.turns;
      last = o.last;
      uses = o.uses;
    } };

    ghost invariant = { λ o. ((at : ℕ) → slice_index o.turns.counts at ≤ o.took)
        × IfSome o.last (λ seek. 0 < slice_index o.turns.rows seek.word) };
}

impl<A: Allocator + Copy> Optimum<A> {
    /// Of no order, or a refused growth.
    pub fn new(alloc: A) -> Result<Optimum<A>, AllocError>
        ensures { IfOk result (λ optimum. (s : State) → IsOptimumOf optimum s 0) }
    {
        Ok(Optimum {
            took: 0,
            turns: Turns::new(alloc)?,
            last: None,
            uses: Uses::new(alloc)?,
        })
    }
}

impl<A: Allocator> Optimum<A> {
    /// Forgets all orders.
    pub fn clear(&mut self)
        ensures { (s : State) → IsOptimumOf self.new s 0 }
    {
        self.took = 0;
        self.turns.clear();
        self.last = None;
        self.uses.clear();
    }

    /// Adds the order that follows those before it, by its account; or a refused growth, which changes nothing.
    pub fn note(&mut self, account: &Account) -> Result<(), AllocError>
        requires some { 0 < all_phases account.now.phases }
        requires fits { self.old.took + all_phases account.now.phases < 2 ^ 64 }
        requires clock { account.now.before.clock + all_phases account.now.phases < 2 ^ 64 }
        ensures of_run { OnOk result ((s : State) → (count : ℕ) → IsOptimumOf self.old s count
            → is_at_rest (after s count).core.panel.status ≡ false
            → account.now ≡ account_of (after s count) → IsOptimumOf self.new s (count + 1)) }
        ensures unchanged { OnErr result (self.new ≡ self.old) }
    {
        self.make_room_for(&account.operand)?;
        self.add(account);
        Ok(())
    }

    /// Gives the word that an order waited for room for its counts, if it waited for one; or a refused growth.
    fn make_room_for(&mut self, operand: &Option<Operand>) -> Result<(), AllocError>
        ensures room { OnOk result (IfSome operand.now (λ found.
            0 < slice_index self.new.turned.rows found.address)) }
        ensures same { ShowsSame self.old self.new }
        ensures unchanged { OnErr result (self.new ≡ self.old) }
    {
        match operand {
            Some(operand) => self.make_room(operand.address),
            None => Ok(()),
        }
    }

    /// Gives a word room for its counts, unless it has some; or a refused growth.
    pub(crate) fn make_room(&mut self, word: Address) -> Result<(), AllocError>
        ensures room { OnOk result (0 < slice_index self.new.turned.rows word) }
        ensures same { ShowsSame self.old self.new }
        ensures unchanged { OnErr result (self.new ≡ self.old) }
    {
        self.turns.make_room(word)
    }

    /// The same where there is memory. What the order has printed, and how many codes have passed, is not looked at.
    pub(crate) fn add(&mut self, account: &Account)
        requires room { IfSome account.now.operand (λ found.
            0 < slice_index self.old.turned.rows found.address) }
        requires some { 0 < all_phases account.now.phases }
        requires fits { self.old.took + all_phases account.now.phases < 2 ^ 64 }
        requires clock { account.now.before.clock + all_phases account.now.phases < 2 ^ 64 }
        ensures of_run { (s : State) → (count : ℕ) → IsOptimumOf self.old s count
            → is_at_rest (after s count).core.panel.status ≡ false
            → account.now.before.clock ≡ (after s count).clock
            → account.now.place ≡ place_of (after s count)
            → account.now.phases ≡ phases_of (after s count)
            → account.now.operand ≡ option_map (operand_in (next (after s count)).core)
            (found_of (after s count))
            → IsOptimumOf self.new s (count + 1) }
    {
        let phases = &account.phases;
        let times = phases.find + phases.take + phases.seek + phases.act;
        self.settle(&account.place, times);
        self.last = seek_in(account);
        self.uses.note(&account.place, &account.operand);
    }

    /// Adds the word times of an order at a place, and the turns that the last one before it loses until it is read.
    fn settle(&mut self, place: &Option<Address>, times: u64)
        requires some { 0 < times }
        requires fits { self.old.took + times < 2 ^ 64 }
        ensures took { self.new.took ≡ self.old.took + times }
        ensures turns { (word : ℕ) → (sector : ℕ) → word < 4096 → sector < 64
            → turns_at self.new.turned word sector ≡ turns_at self.old.turned word sector
            + one_turn_if (is_last_late self.old.last place.now word sector) }
        ensures rows { self.new.turned.rows ≡ self.old.turned.rows }
        ensures last { self.new.last ≡ self.old.last }
        ensures uses { self.new.uses ≡ self.old.uses }
    {
        self.took += times;
        if let (Some(seek), Some(place)) = (self.last, place) {
            let room = wait(place.sector(), seek.begun % 64, seek.act % 64);
            self.turns.add(seek.word, seek.begun, room);
        }
    }

    /// How many word times all these orders took.
    pub fn took(&self) -> u64
        ensures { result ≡ self.now.took }
    {
        self.took
    }

    /// By sector, how many word times the orders would have taken, had the word been there. At its own it is what they took.
    pub fn at(&self, word: Address) -> [u128; SECTORS]
        ensures exact { (sector : ℕ) → sector < 64
            → slice_index result sector ≡ times_at self.now word sector }
        ensures of_run { (s : State) → (count : ℕ) → IsOptimumOf self.now s count
            → (sector : ℕ) → sector < 64
            → slice_index result sector ≡ took_with s count word sector }
        ensures all { result ≡ times_of (moves_in self.now) word }
    {
        let own = self.share(word, word.sector());
        let mut times = [0; SECTORS];
        for sector in 0..Address::SECTORS {
            let share = self.share(word, sector);
            times[usize::from(sector)] = (u128::from(self.took) + share).saturating_sub(own);
        }
        times
    }

    /// What the orders take for a word at a sector beyond what they take wherever it is.
    fn share(&self, word: Address, sector: u16) -> u128
        requires { sector < 64 }
        ensures share { result ≡ share self.now word sector }
        ensures few { result < 2 ^ 72 }
    {
        let waited = match self.last {
            Some(seek) if seek.word == word => wait(sector, seek.begun, 0),
            _ => 0,
        };
        64 * u128::from(self.turns.at(word, sector)) + u128::from(waited)
    }

    /// The best sector of a word.
    pub fn best(&self, word: Address) -> Best
        ensures exact { IsBest (times_at self.now word) (sector_of word) result }
        ensures of_run { (s : State) → (count : ℕ) → IsOptimumOf self.now s count
            → IsBest (took_with s count word) (sector_of word) result }
        ensures best { result ≡ best_of (moves_in self.now) word }
    {
        let times = self.at(word);
        let sector = least_sector(&times, word.sector());
        let saved = u128::from(self.took) - times[usize::from(sector)];
        Best {
            sector,
            saved: saved as u64,
        }
    }

    /// Whether a word may be elsewhere.
    pub fn freedom(&self, word: Address) -> Freedom
        ensures exact { let used = use_at self.now.uses word in
            result ≡ freedom used.named used.performed used.by_other }
        ensures of_run { (s : State) → (count : ℕ) → IsOptimumOf self.now s count
            → result ≡ freedom_of s count word }
    {
        self.uses.freedom(word)
    }
}

/// The wait of an order for its word, if it waited for one.
fn seek_in(account: &Account) -> Option<Seek>
    requires { account.now.before.clock + all_phases account.now.phases < 2 ^ 64 }
    ensures { result
        ≡ seek_with account.now.operand account.now.before.clock account.now.phases }
{
    let Some(operand) = &account.operand else {
        return None;
    };
    Some(Seek {
        word: operand.address,
        begun: account.before.clock + account.phases.find + account.phases.take,
        act: account.phases.act,
    })
}

/// The sector with the least number: a word's own, or the first one of those that have less than that.
fn least_sector(times: &[u128; SECTORS], own: u16) -> u16
    requires { own < 64 }
    ensures { IsLeast (slice_index times.now) own result }
{
    let mut least = own;
    for sector in 0..Address::SECTORS {
        if times[usize::from(sector)] < times[usize::from(least)] {
            least = sector;
        }
    }
    least
}
