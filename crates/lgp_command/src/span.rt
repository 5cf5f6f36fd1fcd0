//! A range of words on the drum.

ghost use Rattle.std.specs.Prelude.{◌≡◌, ◌+◌, ◌<◌};
ghost use Rattle.lgp_command.specs.Operands.{IsRange};
ghost use Rattle.lgp_command.specs.Span.{range_of};

use crate::limits::SHOWN_LIMIT;
use lgp_word::Address;
use std::marker::Model;

/// Words of the drum that follow one another, at most as many as one command shows. Clauses see the first address and the
/// number of words.
#[derive(Clone, Copy)]
pub struct Span {
    first: Address,
    count: u64,
}

impl Model for Span {
    ghost use Rattle.lgp_command.specs.Operands.{IsRange};
    ghost use Rattle.lgp_command.specs.Span.{WordRange};

    ghost Value = { WordRange };

    ghost view = { λ span. record { first = span.first; count = span.count } };

    ghost invariant = { λ span. IsRange (record { first = span.first; count = span.count }) };

    ghost inverse = { λ range. record { first = range.first; count = range.count } };
}

impl Span {
    /// A given number of words from an address on; `None` where these are none, more than 64, or pass the drum's end.
    #[tactic(auto, unfolding(crate::specs::Span::range_of))]
    pub fn new(first: Address, count: u64) -> Option<Span>
        ensures { result ≡ range_of first count }
    {
        if count > 0
            && count <= SHOWN_LIMIT
            && u64::from(first.number()) + count <= Address::COUNT as u64
        {
            Some(Span { first, count })
        } else {
            None
        }
    }

    /// The address of the first word.
    pub fn first(&self) -> Address
        ensures { result ≡ self.now.first }
    {
        self.first
    }

    /// How many words there are.
    pub fn count(&self) -> u64
        ensures value { result ≡ self.now.count }
        ensures range { IsRange self.now }
    {
        self.count
    }

    /// The address of a word by its place in the range.
    pub fn address(&self, place: u64) -> Address
        requires { place < self.now.count }
        ensures { result ≡ self.now.first + place }
    {
        let number = u64::from(self.first.number()) + place;
        let Some(address) = Address::new(number as u16) else {
            unreachable!();
        };
        address
    }
}
