//! Words of 32 bits.

ghost use Rattle.std.specs.Prelude.{◌≡◌, ℕ, ◌*◌, ◌/◌, ◌<◌, ◌↔◌, IsSome, IfSome};
ghost use Rattle.lgp_word.specs.Word.{IsWord, stored};

use std::marker::Model;

/// A word of the machine: 32 bits, of which the last, the spacer, is 0. Clauses see its number.
#[derive(Clone, Copy, Debug, PartialEq, Eq, Hash)]
pub struct Word {
    /// The word as a number. It can be written down, so that tables of words are constants; one whose spacer is set is refused
    /// by the prover.
    pub bits: u32,
}

impl Model for Word {
    ghost Value = { ℕ };

    ghost view = { λ word. word.bits };

    ghost invariant = { λ word. IsWord word.bits };

    ghost inverse = { λ bits. record { bits = bits } };
}

impl Word {
    /// The word of these 32 bits; `None` where the spacer, the last bit, is set.
    pub fn new(bits: u32) -> Option<Word>
        ensures even { IsSome result ↔ IsWord bits }
        ensures value { IfSome result (λ word. word ≡ bits) }
    {
        if bits % 2 == 0 {
            Some(Word { bits })
        } else {
            None
        }
    }

    /// The word that these 32 bits are stored as: the spacer, the last bit, is dropped.
    pub fn of_bits(bits: u32) -> Word
        ensures value { result ≡ stored bits }
    {
        Word {
            bits: 2 * (bits / 2),
        }
    }

    /// The word's 32 bits as a number.
    pub fn get(self) -> u32
        ensures value { result ≡ self }
        ensures word { IsWord result }
    {
        self.bits
    }
}

impl Default for Word {
    ghost is_default = { λ word. word ≡ 0 };

    fn default() -> Self {
        Word { bits: 0 }
    }
}
