//! Quotients to the nearest whole number.

ghost use Rattle.std.specs.Prelude.{◌≡◌, ◌+◌, ◌*◌, ◌/◌, ◌^◌, ◌<◌, ℤ, unsigned_abs};
ghost use Rattle.lgp_fraction.specs.Rounding.{IsNearest, nearest, nearest_size, with_sign};

/// The whole number nearest to a quotient, ties away from zero.
#[tactic(auto, unfolding(crate::specs::Rounding::nearest))]
pub(crate) fn nearest(dividend: i128, divisor: i128) -> i128
    requires dividend { unsigned_abs dividend < 2 ^ 100 }
    requires divisor { unsigned_abs divisor < 2 ^ 100 }
    requires nonzero { 0 < unsigned_abs divisor }
    ensures value { result ≡ nearest dividend divisor }
    ensures size { unsigned_abs result
        ≡ nearest_size (unsigned_abs dividend) (unsigned_abs divisor) }
{
    let size = nearest_size(dividend.unsigned_abs(), divisor.unsigned_abs());
    with_sign((dividend < 0) != (divisor < 0), size)
}

/// The whole number nearest to a quotient of sizes, the greater one of two that are equally near.
pub(crate) fn nearest_size(dividend: u128, divisor: u128) -> u128
    requires dividend { dividend < 2 ^ 100 }
    requires divisor { divisor < 2 ^ 100 }
    requires nonzero { 0 < divisor }
    ensures value { result ≡ nearest_size dividend divisor }
    ensures size { result < 2 ^ 102 }
{
    (2 * dividend + divisor) / (2 * divisor)
}

/// A number of this size, below zero or not.
pub(crate) fn with_sign(negative: bool, size: u128) -> i128
    requires { size < 2 ^ 102 }
    ensures value { result ≡ with_sign negative size }
    ensures size { unsigned_abs result ≡ size }
{
    let number = size as i128;
    if negative { -number } else { number }
}

/// What nearest means: no other whole number is nearer, and one that is as near is no further from zero.
pub fn nearest_is_nearest()
    ensures { (dividend : ℤ) → (divisor : ℤ) → 0 < unsigned_abs divisor
        → IsNearest dividend divisor (nearest dividend divisor) }
{}
