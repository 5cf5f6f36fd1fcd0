//! The words of integers and of decimals.

ghost use Rattle.std.specs.Prelude.{◌≡◌, ◌-◌, ◌*◌, ◌≤◌, ◌<◌, ◌^◌};
ghost use Rattle.lgp_fraction.specs.Decimal.{decimal_fraction};
ghost use Rattle.lgp_assembler.specs.Operands as spec;

use crate::operands::{Meaning, OperandFault};
use lgp_fraction::{Fraction, FractionFault};
use lgp_word::{Word, read_decimal};

/// The word of a number whose size, by the place of its point, is `scaled`.
fn scaled_word(minus: bool, scaled: u64) -> Result<Meaning, OperandFault>
    ensures { result ≡ spec.scaled_word minus scaled }
{
    if minus {
        if scaled > 1 << 30 {
            return Err(OperandFault::Outside);
        }
        return Ok(Meaning::Cell(Word::of_bits((((1 << 32) - 2 * scaled) % (1 << 32)) as u32)));
    }
    if scaled >= 1 << 30 {
        return Err(OperandFault::Outside);
    }
    Ok(Meaning::Cell(Word::of_bits((2 * scaled) as u32)))
}

/// A text without one minus in front.
#[tactic(auto, unfolding(crate::specs::Operands::unsigned_part))]
fn unsigned_part(text: &[u8]) -> &[u8]
    ensures { result.now ≡ spec.unsigned_part text.now }
{
    if text.is_empty() || text[0] != b'-' {
        return text;
    }
    let (_, rest) = text.split_at(1);
    rest
}

/// 2 to a power of at most 30.
#[tactic(auto, using(crate::proofs::Decimals::power_bound))]
fn power_of_two(exponent: u64) -> u64
    requires { exponent ≤ 30 }
    ensures value { result ≡ 2 ^ exponent }
    ensures bound { result ≤ 2 ^ 30 }
{
    1 << exponent
}

/// The size of a number by the place of its point.
#[tactic(auto, using(crate::proofs::Decimals::product_bound))]
fn scaled(size: u64, point: u64) -> u64
    requires size { size < 10 ^ 10 }
    requires point { point ≤ 30 }
    ensures { result ≡ size * 2 ^ (30 - point) }
{
    size * power_of_two(30 - point)
}

/// The word of an integer and the place of its point.
#[tactic(auto, unfolding(crate::specs::Operands::integer_word))]
pub fn integer_word(number: &[u8], point: &[u8]) -> Result<Meaning, OperandFault>
    ensures { result ≡ spec.integer_word number.now point.now }
{
    let minus = !number.is_empty() && number[0] == b'-';
    let parts = (
        read_decimal(unsigned_part(number), 10),
        read_decimal(point, 2),
    );
    match parts {
        (Some(size), Some(point)) if point <= 30 => scaled_word(minus, scaled(size, point)),
        _ => Err(OperandFault::Misformed),
    }
}

/// The word of a decimal.
pub fn fraction_word(text: &[u8]) -> Result<Meaning, OperandFault>
    ensures { result ≡ spec.cell_of_fraction (decimal_fraction text.now) }
{
    match Fraction::from_decimal(text) {
        Ok(fraction) => Ok(Meaning::Cell(fraction.word())),
        Err(FractionFault::Form) => Err(OperandFault::Misformed),
        Err(FractionFault::OutOfRange) => Err(OperandFault::Outside),
    }
}
