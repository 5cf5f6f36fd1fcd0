//! Numbers as lines have them.

ghost use Rattle.std.specs.Prelude.{◌≡◌, ◌≤◌, ◌^◌, None, Some, if◌then◌else◌, nat_lt};
ghost use Rattle.lgp_command.specs.Command.{number_at};
ghost use Rattle.lgp_command.specs.Operands.{IsCount};

use crate::limits::DIGIT_LIMIT;
use lgp_word::read_decimal;
use std::marker::Model;

/// A number of at most ten decimal digits. Clauses see the number.
#[derive(Clone, Copy)]
pub struct Count {
    number: u64,
}

impl Model for Count {
    ghost use Rattle.std.specs.Prelude.{ℕ};
    ghost use Rattle.lgp_command.specs.Operands.{IsCount};

    ghost Value = { ℕ };

    ghost view = { λ count. count.number };

    ghost invariant = { λ count. IsCount count.number };

    ghost inverse = { λ number. record { number = number } };
}

impl Count {
    /// A number, if it has at most ten digits.
    pub fn new(number: u64) -> Option<Count>
        ensures { result ≡ (if nat_lt number (10 ^ 10) then Some number else None) }
    {
        if number < 10_000_000_000 {
            return Some(Count { number });
        }
        None
    }

    /// The number 1.
    pub fn one() -> Count
        ensures { result ≡ 1 }
    {
        Count { number: 1 }
    }

    /// The number that 1 to 10 decimal digits stand for.
    #[tactic(auto, unfolding(crate::specs::Command::number_at))]
    pub fn read(text: &[u8]) -> Option<Count>
        ensures { result ≡ number_at text.now }
    {
        match read_decimal(text, DIGIT_LIMIT) {
            Some(number) => Some(Count { number }),
            None => None,
        }
    }

    /// A number that is no greater.
    pub fn lowered(self, number: u64) -> Count
        requires { number ≤ self }
        ensures { result ≡ number }
    {
        Count { number }
    }

    /// The number.
    pub fn get(self) -> u64
        ensures value { result ≡ self }
        ensures range { IsCount result }
    {
        self.number
    }
}
