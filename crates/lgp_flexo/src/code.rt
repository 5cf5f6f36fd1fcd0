//! The six-bit codes and their signs.

ghost use Rattle.std.specs.Prelude.{◌≡◌, ◌==◌, ◌<◌, ◌≤◌, ◌↔◌, length, slice_get, position, IsSome, IfSome};
ghost use Rattle.lgp_flexo.specs.Code.{IsCode, sign_at, code_at, code_in_row, digit_at, is_skipped};
ghost use Rattle.lgp_flexo.specs.Input.{accumulator_after};
ghost use Rattle.lgp_flexo.specs.WordCodes.{digit_code};

use lgp_word::{DIGITS, LETTERS};
use std::marker::Model;

/// The greatest number of a code.
const GREATEST_CODE: u8 = 63;

/// One row of holes of the tape: a number from 0 to 63.
#[derive(Clone, Copy, Debug, PartialEq, Eq)]
pub struct Code(u8);

impl Model for Code {
    ghost use Rattle.std.specs.Prelude.{ℕ};
    ghost use Rattle.lgp_flexo.specs.Code.{IsCode};

    ghost Value = { ℕ };

    ghost view = { λ code. code.0 };

    ghost invariant = { λ code. IsCode code.0 };

    ghost inverse = { λ number. record { 0 = number } };
}

/// The signs of the codes `4 * place + 3`. Those of `4 * place + 1` are the letters of the orders, those of `4 * place + 2`
/// the digits.
const OTHER_SIGNS: [u8; 10] = *b" -+;/.,vox";

impl Code {
    /// The conditional stop, whose sign is `'`.
    pub const STOP: Code = Code(32);

    /// The carriage return, which an input skips.
    pub const CARRIAGE_RETURN: Code = Code(16);

    /// The code of the digit 1.
    const ONE: Code = Code(6);

    /// Delete, with all holes punched.
    const DELETE: Code = Code(GREATEST_CODE);

    /// The code of that number, `None` above 63.
    pub fn new(number: u8) -> Option<Code>
        ensures code { IsSome result ↔ IsCode number }
        ensures same { IfSome result (λ code. code ≡ number) }
    {
        if number <= GREATEST_CODE {
            Some(Code(number))
        } else {
            None
        }
    }

    /// The code of the digit that has this value.
    pub fn of_digit(value: u8) -> Code
        requires { value < 16 }
        ensures { result ≡ digit_code value }
    {
        Code(4 * value + 2)
    }

    /// The number of the code, from 0 to 63.
    pub fn number(self) -> u8
        ensures same { result ≡ self }
        ensures range { IsCode result }
    {
        self.0
    }
}

/// The sign at a place of a row.
fn sign_in_row(row: &[u8], place: usize) -> Option<u8>
    ensures { result ≡ slice_get row.now place }
{
    row.get(place).copied()
}

/// The sign that a code prints, as its ASCII byte.
#[tactic(auto, unfolding(crate::specs::Code::sign_at))]
pub(crate) fn sign_byte(code: Code) -> Option<u8>
    ensures { result ≡ sign_at code }
{
    let number = code.number();
    if code == Code::STOP {
        return Some(b'\'');
    }
    let place = usize::from(number / 4);
    match number % 4 {
        1 => sign_in_row(&LETTERS, place),
        2 => sign_in_row(&DIGITS, place),
        3 => sign_in_row(&OTHER_SIGNS, place),
        _ => None,
    }
}

/// The sign that a code prints; the shift and control codes have none.
pub fn sign_of(code: Code) -> Option<char>
    ensures { result ≡ sign_at code }
{
    sign_byte(code).map(char::from)
}

/// The place of a sign in a row.
fn place_in_row(row: &[u8], sign: char) -> Option<usize>
    ensures first { result ≡ position (λ s. s == sign) row.now }
    ensures within { IfSome result (λ place. place < length row.now) }
{
    row.iter().position(|s| char::from(*s) == sign)
}

/// The code `4 * place + kind` of a sign in a row.
fn code_in_row(kind: u8, row: &[u8], sign: char) -> Option<Code>
    requires row { length row.now ≤ 16 }
    requires kind { kind ≤ 3 }
    ensures { result ≡ code_in_row kind row.now sign }
{
    let place = place_in_row(row, sign)?;
    Some(Code(4 * place as u8 + kind))
}

/// The code of a sign; the letter `l` counts as the digit 1.
#[tactic(auto, unfolding(crate::specs::Code::code_at))]
pub fn code_of(sign: char) -> Option<Code>
    ensures { result ≡ code_at sign }
{
    match sign {
        'l' => Some(Code::ONE),
        '\'' => Some(Code::STOP),
        _ => code_in_row(1, &LETTERS, sign)
            .or(code_in_row(2, &DIGITS, sign))
            .or(code_in_row(3, &OTHER_SIGNS, sign)),
    }
}

/// The digit `d` from 0 to 15 that a code `4 * d + 2` stands for.
pub fn digit_of(code: Code) -> Option<u8>
    ensures { result ≡ digit_at code }
{
    let number = code.number();
    if number % 4 == 2 {
        Some(number / 4)
    } else {
        None
    }
}

/// Whether an input passes over the code without entering it.
pub fn skipped(code: Code) -> bool
    ensures { result ≡ is_skipped code }
{
    (code.number() % 4 == 0 && code != Code::STOP) || code == Code::DELETE
}

/// The accumulator after a code has entered: the code's first four bits, or all six where the switch 6 BIT INPUT is down.
pub fn enter(six_bit: bool, accumulator: u32, code: Code) -> u32
    ensures { result ≡ accumulator_after six_bit accumulator code }
{
    let number = u32::from(code.number());
    if six_bit {
        accumulator.wrapping_mul(64).wrapping_add(number)
    } else {
        accumulator.wrapping_mul(16).wrapping_add(number / 4)
    }
}
