//! Words as numbers whose point is after a place.

ghost use Rattle.std.specs.Prelude.{◌≡◌, ℕ, ◌++◌, ◌^◌, ◌<◌, ◌≤◌, ◌==◌, [], OnOk, codes, if◌then◌else◌};
ghost use Rattle.lgp_word.specs.Order.{sign_of};
ghost use Rattle.lgp_trace.specs.AccountLines.{minus_text};
ghost use Rattle.lgp_monitor.specs.Scaled.{decimals, point_of, scaled_text, size_of, units_at, units_text};

use lgp_text::{Piece, push_pieces};
use lgp_word::{Word, read_decimal};
use std::alloc::{AllocError, Allocator};
use std::marker::Model;

/// The units of 10^-10 that make 1.
const UNITS: u64 = 10_000_000_000;

/// The place after which a number's point is, 0 to 30. Clauses see its number.
#[derive(Clone, Copy)]
pub struct Point {
    place: u32,
}

impl Model for Point {
    ghost Value = { ℕ };

    ghost view = { λ point. point.place };

    ghost invariant = { λ point. point.place ≤ 30 };

    ghost inverse = { λ place. record { place = place } };
}

impl Point {
    /// The place that a text says.
    #[tactic(auto, unfolding(crate::specs::Scaled::point_of))]
    pub(crate) fn read(text: &[u8]) -> Option<Point>
        ensures { result ≡ point_of text.now }
    {
        match read_decimal(text, 2) {
            Some(place) if place <= 30 => Some(Point {
                place: place as u32,
            }),
            _ => None,
        }
    }
}

/// A word is below zero.
fn sign_of(word: Word) -> bool
    ensures { result ≡ sign_of word }
{
    word.get() >= 1 << 31
}

/// The minus in front of a number.
fn minus_text(minus: bool) -> &'static [u8]
    ensures { result.now ≡ minus_text minus }
{
    if minus { b"-" } else { b"" }
}

/// A word as a number without its sign, where the point is after place 30.
fn size_of(word: Word) -> u64
    ensures value { result ≡ size_of word }
    ensures bound { result ≤ 2 ^ 30 }
{
    let bits = u64::from(word.get());
    if bits >= 1 << 31 {
        ((1 << 32) - bits) / 2
    } else {
        bits / 2
    }
}

/// The same where the point is after another place, in units of 10^-10, to the nearest.
#[tactic(auto, unfolding(crate::specs::Scaled::units_at))]
fn units_at(point: Point, size: u64) -> u64
    requires { size ≤ 2 ^ 30 }
    ensures { result ≡ units_at point size }
{
    let divisor = 2u128.pow(30 - point.place);
    ((2 * (u128::from(size) * u128::from(UNITS)) + divisor) / (2 * divisor)) as u64
}

/// Appends the digits of a number, the first one first, without the zeros at their end.
fn push_decimals<A: Allocator>(text: &mut Vec<u8, A>, number: u64) -> Result<(), AllocError>
    requires { number < 10 ^ 10 }
    ensures { OnOk result (text.new.items ≡ text.old.items ++ decimals 10 number) }
{
    let mut rest = number;
    let mut more = 10u64;
    while more > 0 && rest > 0 {
        text.push(b'0' + (rest / 1_000_000_000) as u8)?;
        rest = rest % 1_000_000_000 * 10;
        more -= 1;
    }
    Ok(())
}

/// Appends what comes after a whole number for a given number of units.
fn push_after_whole<A: Allocator>(text: &mut Vec<u8, A>, units: u64) -> Result<(), AllocError>
    requires { units < 10 ^ 10 }
    ensures { OnOk result (text.new.items ≡ text.old.items
        ++ (if units == 0 then [] else codes "." ++ decimals 10 units)) }
{
    if units == 0 {
        return Ok(());
    }
    text.push(b'.')?;
    push_decimals(text, units)
}

/// Appends a given number of units of 10^-10 as a number.
#[tactic(auto, unfolding(crate::specs::Scaled::units_text))]
fn push_units<A: Allocator>(text: &mut Vec<u8, A>, units: u64) -> Result<(), AllocError>
    ensures { OnOk result (text.new.items ≡ text.old.items ++ units_text units) }
{
    push_pieces(text, &[Piece::Number(units / UNITS)])?;
    push_after_whole(text, units % UNITS)
}

/// Appends a word as a number whose point is after a place.
#[tactic(auto, unfolding(crate::specs::Scaled::scaled_text))]
pub(crate) fn push_scaled<A: Allocator>(
    text: &mut Vec<u8, A>,
    point: Point,
    word: Word,
) -> Result<(), AllocError>
    ensures { OnOk result (text.new.items ≡ text.old.items ++ scaled_text point word) }
{
    text.extend_from_slice(minus_text(sign_of(word)))?;
    push_units(text, units_at(point, size_of(word)))
}
