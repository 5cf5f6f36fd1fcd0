//! Fractions, and their texts as decimals.

ghost use Rattle.std.specs.Prelude.{◌≡◌, ℕ, ◌+◌, ◌-◌, ◌*◌, ◌/◌, ◌%◌, ◌^◌, ◌<◌, ◌≤◌, ◌↔◌, ◌==◌, ℤ, pos, ◌*ℤ◌, unsigned_abs, IsTrue, IsFalse, IfOk, length, drop, slice_index, Ok, Err, Some, None, if◌then◌else◌};
ghost use Rattle.std.specs.Str.{byte};
ghost use Rattle.lgp_word.specs.Word.{IsWord, signed};
ghost use Rattle.lgp_fraction.specs.Arithmetic.{half, low_bits};
ghost use Rattle.lgp_fraction.specs.Decimal.{decimal_fraction, decimal_text, five_digits, fraction_of, is_fraction, is_fraction_text, last_digit, most_places, places_text, steps_of_text, ten_places, without};
ghost use Rattle.lgp_fraction.specs.Rounding.{nearest, with_sign};

use crate::arithmetic::{half, low_bits};
use crate::rounding::{nearest_size, with_sign};
use lgp_word::{Word, read_decimal};
use std::marker::Model;
use thiserror::Error;

/// The greatest number of digits past the point.
const MOST_PLACES: usize = 12;

/// A fraction from -1 up to just below 1, in steps of 2^-30. Clauses see its number of steps, -2^30 to 2^30 - 1.
#[derive(Clone, Copy, Debug, PartialEq, Eq, Hash)]
pub struct Fraction {
    steps: i32,
}

impl Model for Fraction {
    ghost Value = { ℤ };

    ghost view = { λ fraction. fraction.steps };

    ghost invariant = { λ fraction. IsTrue (is_fraction fraction.steps) };

    ghost inverse = { λ steps. record { steps = steps } };
}

/// Why a text is no fraction.
#[derive(Clone, Copy, Debug, PartialEq, Eq, Error)]
pub enum FractionFault {
    /// The text is not a sign, a digit 0 or 1, a point and one to twelve digits.
    #[error("not a decimal fraction")]
    Form,
    /// The nearest number of steps is no fraction.
    #[error("not from -1 to below 1")]
    OutOfRange,
}

impl Fraction {
    /// The fraction of a word: half of its signed reading, in steps.
    pub fn of_word(word: Word) -> Fraction
        ensures value { result ≡ half word }
        ensures halved { pos 2 *ℤ result ≡ signed word }
    {
        Fraction {
            steps: half(word.get()) as i32,
        }
    }

    /// The word of this fraction.
    pub fn word(self) -> Word
        ensures value { result ≡ low_bits (pos 2 *ℤ self) }
        ensures doubled { signed result ≡ pos 2 *ℤ self }
        ensures undoes_of_word { (word : ℕ) → IsWord word → self ≡ half word → result ≡ word }
    {
        Word::of_bits(low_bits(2 * i64::from(self.steps)))
    }

    /// The fraction of a text: a `-` or one space, which may be missing, a digit `0` or `1`, which may be missing, a point and
    /// one to twelve digits. It is the nearest one.
    #[tactic(auto, unfolding(crate::specs::Decimal::decimal_fraction))]
    pub fn from_decimal(text: &[u8]) -> Result<Fraction, FractionFault>
        ensures value { result ≡ decimal_fraction text.now }
        ensures form { result ≡ Err FractionFault.Form ↔ IsFalse (is_fraction_text text.now) }
        ensures out_of_range { result ≡ Err FractionFault.OutOfRange
            ↔ IsTrue (is_fraction_text text.now) × IsFalse (is_fraction (steps_of_text text.now)) }
        ensures nearest { IfOk result (λ fraction. fraction ≡ steps_of_text text.now) }
    {
        match steps_of_text(text) {
            Some(steps) => Fraction::of_steps(steps),
            None => Err(FractionFault::Form),
        }
    }

    /// The fraction of a number of steps, if it is one.
    fn of_steps(steps: i64) -> Result<Fraction, FractionFault>
        ensures { result ≡ fraction_of steps }
    {
        if -(1 << 30) <= steps && steps < 1 << 30 {
            Ok(Fraction {
                steps: steps as i32,
            })
        } else {
            Err(FractionFault::OutOfRange)
        }
    }

    /// The fraction's text: a minus or a space, a point and the ten digits nearest to it, ties away from zero. For -1 it is
    /// `-1.000000000`.
    pub fn to_decimal(self) -> [u8; 12]
        ensures text { result ≡ decimal_text self }
        ensures reads_back { decimal_fraction result ≡ Ok self }
    {
        decimal_text(self.steps)
    }
}

/// The text of a number of steps.
#[tactic(auto, unfolding(crate::specs::Decimal::decimal_text))]
fn decimal_text(steps: i32) -> [u8; 12]
    requires { IsTrue (is_fraction steps) }
    ensures { result ≡ decimal_text steps }
{
    if steps <= -(1 << 30) {
        *b"-1.000000000"
    } else {
        places_text(steps)
    }
}

/// The text of a number of steps above -2^30.
#[tactic(auto, unfolding(crate::specs::Decimal::places_text, crate::specs::Decimal::five_digits))]
fn places_text(steps: i32) -> [u8; 12]
    requires { unsigned_abs steps < 2 ^ 30 }
    ensures { result ≡ places_text steps }
{
    let sign = sign_byte(steps < 0);
    let places = ten_places(steps);
    let [a, b, c, d, e] = five_digits((places / 100_000) as u32);
    let [f, g, h, i, j] = five_digits((places % 100_000) as u32);
    [sign, b'.', a, b, c, d, e, f, g, h, i, j]
}

/// How a sign is written.
fn sign_byte(negative: bool) -> u8
    ensures { result ≡ (if negative then byte "-" else byte " ") }
{
    if negative { b'-' } else { b' ' }
}

/// The ten-digit number nearest to the size of a number of steps above -2^30.
fn ten_places(steps: i32) -> u64
    requires { unsigned_abs steps < 2 ^ 30 }
    ensures value { result ≡ ten_places steps }
    ensures size { result < 10 ^ 10 }
{
    nearest_size(u128::from(steps.unsigned_abs()) * 10_000_000_000, 1 << 30) as u64
}

/// Five digits of a number.
#[tactic(auto, unfolding(crate::specs::Decimal::five_digits))]
fn five_digits(number: u32) -> [u8; 5]
    requires { number < 100000 }
    ensures { result ≡ five_digits number }
{
    [
        last_digit(number / 10_000),
        last_digit(number / 1000),
        last_digit(number / 100),
        last_digit(number / 10),
        last_digit(number),
    ]
}

/// The last digit of a number.
fn last_digit(number: u32) -> u8
    ensures { result ≡ last_digit number }
{
    b'0' + (number % 10) as u8
}

/// The number of steps nearest to what a text stands for; `None` where it has not the form of a decimal.
#[tactic(auto, unfolding(crate::specs::Decimal::steps_of_text, lgp_word::specs::Decimal::decimal_number))]
fn steps_of_text(text: &[u8]) -> Option<i64>
    ensures { result
        ≡ (if is_fraction_text text.now then Some (steps_of_text text.now) else None) }
{
    let unsigned = without(text, b'-', b' ');
    let after_whole = without(unsigned, b'0', b'1');
    if !begins(after_whole, b'.') {
        return None;
    }
    let places = after_first_byte(after_whole);
    let past_point = read_decimal(places, MOST_PLACES)?;
    let unit = power_of_ten(places.len());
    let whole = if begins(unsigned, b'1') { unit } else { 0 };
    Some(steps_of(begins(text, b'-'), whole + past_point, places.len()))
}

/// The number of steps nearest to a number of units, of which 10^places are 1.
fn steps_of(negative: bool, units: u64, places: usize) -> i64
    requires units { units < 2 * 10 ^ places }
    requires places { places ≤ most_places }
    ensures { result ≡ nearest (with_sign negative (units * 2 ^ 30)) (pos (10 ^ places)) }
{
    let size = nearest_size(
        u128::from(units) * (1 << 30),
        u128::from(power_of_ten(places)),
    );
    with_sign(negative, size) as i64
}

/// A power of ten.
fn power_of_ten(places: usize) -> u64
    requires { places ≤ most_places }
    ensures value { result ≡ 10 ^ places }
    ensures positive { 0 < result }
    ensures size { result ≤ 10 ^ 12 }
{
    10u64.pow(places as u32)
}

/// The text begins with this byte.
fn begins(text: &[u8], byte: u8) -> bool
    requires { 0 < byte }
    ensures value { result ≡ (slice_index text.now 0 == byte) }
    ensures nonempty { IsTrue result → 0 < length text.now }
{
    text.first() == Some(&byte)
}

/// The text without its first byte.
fn after_first_byte(text: &[u8]) -> &[u8]
    requires { 0 < length text.now }
    ensures { result.now ≡ drop 1 text.now }
{
    &text[1..]
}

/// The text without its first byte, where that is one of two.
fn without(text: &[u8], one: u8, other: u8) -> &[u8]
    requires one { 0 < one }
    requires other { 0 < other }
    ensures { result.now ≡ without one other text.now }
{
    if begins(text, one) || begins(text, other) {
        after_first_byte(text)
    } else {
        text
    }
}
