//! The five arithmetic orders.

ghost use Rattle.std.specs.Prelude.{◌≡◌, ◌^◌, ◌<◌, ◌≤◌, ◌<ℤ◌, ◌+ℤ◌, ◌-ℤ◌, ◌*ℤ◌, ◌↔◌, IsTrue, IsFalse, neg_ℤ, pos, unsigned_abs};
ghost use Rattle.std.specs.Int.{int_div_euclid};
ghost use Rattle.lgp_word.specs.Word.{signed};
ghost use Rattle.lgp_fraction.specs.Arithmetic.{added, divided, half, is_outside, low_bits, multiplied_high, multiplied_low, subtracted};
ghost use Rattle.lgp_fraction.specs.Rounding.{nearest};

use crate::rounding::nearest;
use lgp_word::Word;

/// What an arithmetic order leaves: the accumulator's 32 bits, and whether it overflowed.
#[derive(Clone, Copy, Debug, PartialEq, Eq, Hash)]
pub struct Arith {
    pub accumulator: u32,
    pub overflow: bool,
}

/// Order a: the sum of the accumulator and a word, wrapped to 32 bits; overflow where it lies outside the 32 bits.
#[tactic(auto, unfolding(crate::specs::Arithmetic::added))]
#[inline]
pub fn add(accumulator: u32, word: Word) -> Arith
    ensures value { result ≡ added accumulator word }
    ensures exact { IsFalse result.overflow
        → signed result.accumulator ≡ signed accumulator +ℤ signed word }
{
    let (sum, overflow) = accumulator
        .cast_signed()
        .overflowing_add(word.get().cast_signed());
    Arith {
        accumulator: sum.cast_unsigned(),
        overflow,
    }
}

/// Order s: the accumulator less a word, wrapped to 32 bits; overflow where it lies outside the 32 bits.
#[tactic(auto, unfolding(crate::specs::Arithmetic::subtracted))]
#[inline]
pub fn sub(accumulator: u32, word: Word) -> Arith
    ensures value { result ≡ subtracted accumulator word }
    ensures exact { IsFalse result.overflow
        → signed result.accumulator ≡ signed accumulator -ℤ signed word }
{
    let (difference, overflow) = accumulator
        .cast_signed()
        .overflowing_sub(word.get().cast_signed());
    Arith {
        accumulator: difference.cast_unsigned(),
        overflow,
    }
}

/// Order m: the product of the accumulator and a word as fractions, rounded down; overflow for -1 times -1 alone.
#[tactic(auto, unfolding(crate::specs::Arithmetic::multiplied_high))]
pub fn mul_high(accumulator: u32, word: Word) -> Arith
    ensures value { result ≡ multiplied_high accumulator word }
    ensures exact { IsFalse result.overflow → signed result.accumulator
        ≡ pos 2 *ℤ int_div_euclid (half accumulator *ℤ half word) (pos (2 ^ 30)) }
    ensures exception { IsTrue result.overflow
        ↔ (half accumulator ≡ neg_ℤ (pos (2 ^ 30))) × (half word ≡ neg_ℤ (pos (2 ^ 30))) }
{
    let high = high_part(product(half(accumulator), half(word.get())));
    Arith {
        accumulator: low_bits(high),
        overflow: is_outside(high),
    }
}

/// Order n: the last bits of the product of the accumulator and a word; no overflow.
#[tactic(auto, unfolding(crate::specs::Arithmetic::multiplied_low))]
pub fn mul_low(accumulator: u32, word: Word) -> Arith
    ensures value { result ≡ multiplied_low accumulator word }
    ensures no_overflow { IsFalse result.overflow }
{
    Arith {
        accumulator: low_bits(4 * product(half(accumulator), half(word.get()))),
        overflow: false,
    }
}

/// Order d: the quotient of the accumulator and a word as fractions, to the nearest, ties away from zero. Where it is no
/// fraction, by zero too, there is overflow, and the accumulator stays.
#[tactic(auto, unfolding(crate::specs::Arithmetic::divided))]
pub fn div(accumulator: u32, word: Word) -> Arith
    ensures value { result ≡ divided accumulator word }
    ensures exact { IsFalse result.overflow → signed result.accumulator
        ≡ pos 2 *ℤ nearest (half accumulator *ℤ pos (2 ^ 30)) (half word) }
    ensures unchanged { IsTrue result.overflow → result.accumulator ≡ accumulator }
{
    let dividend = half(accumulator);
    let divisor = half(word.get());
    if divisor.unsigned_abs() <= dividend.unsigned_abs() {
        return Arith {
            accumulator,
            overflow: true,
        };
    }
    Arith {
        accumulator: low_bits(2 * quotient(dividend, divisor)),
        overflow: false,
    }
}

/// Half of what 32 bits are with a sign, rounded down.
pub(crate) fn half(bits: u32) -> i64
    ensures value { result ≡ half bits }
    ensures size { unsigned_abs result ≤ 2 ^ 30 }
    ensures below { result <ℤ pos (2 ^ 30) }
{
    i64::from(bits.cast_signed()).div_euclid(2)
}

/// The product of two numbers of 31 bits.
fn product(left: i64, right: i64) -> i64
    requires left { unsigned_abs left ≤ 2 ^ 30 }
    requires right { unsigned_abs right ≤ 2 ^ 30 }
    ensures value { result ≡ left *ℤ right }
    ensures size { unsigned_abs result ≤ 2 ^ 60 }
{
    left * right
}

/// A product of fractions, rounded down, as 32 bits have it.
fn high_part(product: i64) -> i64
    requires { unsigned_abs product ≤ 2 ^ 60 }
    ensures { result ≡ pos 2 *ℤ int_div_euclid product (pos (2 ^ 30)) }
{
    2 * product.div_euclid(1 << 30)
}

/// The quotient of two numbers as fractions, to the nearest, ties away from zero.
fn quotient(dividend: i64, divisor: i64) -> i64
    requires fraction { unsigned_abs dividend < unsigned_abs divisor }
    requires divisor { unsigned_abs divisor ≤ 2 ^ 30 }
    ensures value { result ≡ nearest (dividend *ℤ pos (2 ^ 30)) divisor }
    ensures size { unsigned_abs result < 2 ^ 30 }
{
    nearest(i128::from(dividend) * (1 << 30), i128::from(divisor)) as i64
}

/// A number is not one of 32 bits with a sign.
fn is_outside(number: i64) -> bool
    ensures { result ≡ is_outside number }
{
    number < -(1 << 31) || 1 << 31 <= number
}

/// What 32 bits keep of a number.
pub(crate) fn low_bits(number: i64) -> u32
    ensures { result ≡ low_bits number }
{
    number.rem_euclid(1 << 32) as u32
}
