//! The drum in physical order.

ghost use Rattle.std.specs.Prelude.{◌≡◌, ℕ, ◌+◌, ◌*◌, ◌<◌, length, slice_index, slice_set, IfOk};
ghost use Rattle.lgp_word.specs.Drum.{blank_words, position_of, position_under_head};
ghost use Rattle.lgp_drum.specs.DrumInside.{place_of};

use lgp_word::{Address, Word, position_of};
use std::alloc::{AllocError, Allocator, Global};
use std::marker::Model;

/// How many words a track has.
const SECTORS: usize = Address::SECTORS as usize;

/// The drum. Clauses see the list of its 4096 words by address.
#[derive(Drop)]
pub struct Drum<A: Allocator = Global> {
    /// Track after track, on each track in the order in which the sectors pass the head.
    cells: Vec<Word, A>,
}

impl<A: Allocator> Model for Drum<A> {
    ghost use Rattle.std.specs.Prelude.{◌≡◌, ℕ, List, vec_len};
    ghost use Rattle.lgp_drum.specs.DrumInside.{by_address};

    ghost Value = { List ℕ };

    ghost view = { λ drum. by_address drum.cells.items };

    ghost invariant = { λ drum. vec_len drum.cells ≡ 4096 };
}

/// Where the cell of an address is.
fn place(address: Address) -> usize
    ensures place { result ≡ place_of address }
    ensures within { result < 4096 }
{
    usize::from(Address::SECTORS * address.track() + position_of(address.sector()))
}

impl<A: Allocator + Copy> Drum<A> {
    /// A drum of zeros, or a refused growth.
    pub fn new(alloc: A) -> Result<Drum<A>, AllocError>
        ensures blank { IfOk result (λ drum. drum ≡ blank_words) }
    {
        Ok(Drum {
            cells: vec![in alloc; Word::default(); Address::COUNT]?,
        })
    }
}

impl<A: Allocator> Drum<A> {
    /// The word at an address.
    #[tactic(auto, using(crate::proofs::Cells::cells_by_address))]
    pub fn word(&self, address: Address) -> Word
        ensures word { result ≡ slice_index self.now address }
        ensures drum { length self.now ≡ 4096 }
    {
        self.cells[place(address)]
    }

    /// Puts a word at an address; every other word stays.
    #[tactic(auto, using(crate::proofs::Cells::cells_by_address))]
    pub fn put(&mut self, address: Address, word: Word)
        ensures put { self.new ≡ slice_set self.old address word }
        ensures drum { length self.new ≡ 4096 }
    {
        let place = place(address);
        self.cells[place] = word;
    }

    /// The word that the head of this track reads in the word time that ends at this clock.
    #[tactic(auto, using(crate::proofs::Cells::cells_by_address))]
    pub fn under_head(&self, clock: u64, track: u16) -> Word
        requires { track < 64 }
        ensures word { (sector : ℕ) → sector < 64
            → position_of sector ≡ position_under_head clock
            → result ≡ slice_index self.now (64 * track + sector) }
    {
        self.cells[SECTORS * usize::from(track) + (clock % 64) as usize]
    }

    /// The words of a track in the order in which they pass the head: the word of sector `s` is item `9 * s mod 64`.
    #[tactic(auto, using(crate::proofs::Cells::cells_by_address))]
    pub fn track(&self, track: u16) -> &[Word]
        requires { track < 64 }
        ensures whole { length result.now ≡ 64 }
        ensures words { (sector : ℕ) → sector < 64
            → slice_index result.now (position_of sector)
            ≡ slice_index self.now (64 * track + sector) }
    {
        let first = SECTORS * usize::from(track);
        &self.cells[first..first + SECTORS]
    }
}

impl<A: Allocator + Clone> Drum<A> {
    /// A drum with the same words, or a refused growth.
    pub fn copy(&self) -> Result<Drum<A>, AllocError>
        ensures same { IfOk result (λ drum. drum ≡ self.now) }
    {
        Ok(Drum {
            cells: self.cells.clone()?,
        })
    }
}
