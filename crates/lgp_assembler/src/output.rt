//! What a source assembles to.

ghost use Rattle.std.specs.Prelude.{◌≡◌, ◌≤◌, ◌↔◌, [], None, length, IsSome, IfSome};
ghost use Rattle.lgp_word.specs.Address.{IsAddress};
ghost use Rattle.lgp_assembler.specs.Parts.{AreProgramCells, HaveOwnPlaces};

use arrayvec::ArrayVec;
use lgp_word::{Address, Word};
use std::alloc::{Allocator, Global};
use std::marker::Model;
use std::ops::Range;

/// How many places the drum has.
pub const DRUM_SIZE: u64 = 4096;

/// The places of the loader, 6300 to 6321, which no program may take.
pub const LOADER_PLACES: Range<u64> = 4032..4054;

/// The greatest number of bytes of a name.
pub const NAME_LIMIT: usize = 8;

/// A name: one to eight bytes of a source. Clauses see their list.
#[derive(Drop)]
pub struct Name {
    bytes: ArrayVec<u8, NAME_LIMIT>,
}

impl Model for Name {
    ghost use Rattle.std.specs.Prelude.{List, ℕ};

    ghost Value = { List ℕ };

    ghost view = { λ name. name.bytes.items };
}

impl Name {
    /// The name of a text; `None` where the text has more than eight bytes.
    pub(crate) fn new(text: &[u8]) -> Option<Name>
        ensures fits { IsSome result ↔ (length text.now ≤ NAME_LIMIT) }
        ensures value { IfSome result (λ name. name ≡ text.now) }
    {
        let mut bytes = ArrayVec::new();
        match bytes.try_extend_from_slice(text) {
            Ok(()) => Some(Name { bytes }),
            Err(_) => None,
        }
    }

    /// The bytes of the name.
    pub fn bytes(&self) -> &[u8]
        ensures { result.now ≡ self.now }
    {
        self.bytes.as_slice()
    }
}

/// The parts of an image, to which lines are added.
pub struct Parts<A: Allocator> {
    pub cells: Vec<(Address, Word), A>,
    pub start: Option<Address>,
    pub symbols: Vec<(Name, u16), A>,
}

// Written out: a derived drop is copied to each place where one is dropped.
impl<A: Allocator> Drop for Parts<A> {
    fn drop(self) {
        let Parts {
            cells: _,
            start: _,
            symbols: _,
        } = self;
    }
}

impl<A: Allocator + Copy> Parts<A> {
    /// Nothing yet.
    pub fn new(alloc: A) -> Parts<A>
        ensures cells { result.cells.items ≡ [] }
        ensures start { result.start ≡ None }
        ensures symbols { result.symbols.items ≡ [] }
    {
        Parts {
            cells: Vec::new(alloc),
            start: None,
            symbols: Vec::new(alloc),
        }
    }
}

/// What a source assembles to. Clauses see its three parts.
#[derive(Drop)]
pub struct Image<A: Allocator = Global> {
    parts: Parts<A>,
}

impl<A: Allocator> Model for Image<A> {
    ghost use Rattle.lgp_assembler.specs.Parts.{AreProgramCells, HaveOwnPlaces, ImageParts};

    ghost Value = { ImageParts };

    ghost view = { λ image. record {
      cells = image.parts.cells.items;
      start = image.parts.start;
      symbols = image.parts.symbols.items;
    } };

    ghost invariant = { λ image.
        AreProgramCells image.parts.cells.items × HaveOwnPlaces image.parts.cells.items };
}

impl<A: Allocator> Image<A> {
    pub(crate) fn new(parts: Parts<A>) -> Image<A>
        requires program { AreProgramCells parts.cells.items }
        requires places { HaveOwnPlaces parts.cells.items }
        ensures { result ≡ record {
          cells = parts.cells.items;
          start = parts.start;
          symbols = parts.symbols.items;
        } }
    {
        Image { parts }
    }

    /// The words of the program with their addresses, in order of the source's lines. Each has an
    /// address of its own, which is none of the loader's 22 places; so there are at most 4,074.
    pub fn cells(&self) -> &[(Address, Word)]
        ensures value { result.now ≡ self.now.cells }
        ensures program { AreProgramCells self.now.cells }
        ensures places { HaveOwnPlaces self.now.cells }
        ensures few { length self.now.cells ≤ 4096 }
    {
        self.parts.cells.as_slice()
    }

    /// The address at which the program starts, where the source gives one.
    pub fn start(&self) -> Option<Address>
        ensures value { result ≡ self.now.start }
        ensures address { IfSome result IsAddress }
    {
        let start = self.parts.start?;
        // That its number is an address is what the clause says of it.
        let _ = start.number();
        Some(start)
    }

    /// The names with their values, 0 to 4096, in order of the source's lines.
    pub fn symbols(&self) -> &[(Name, u16)]
        ensures { result.now ≡ self.now.symbols }
    {
        self.parts.symbols.as_slice()
    }
}
