//! Decimal numbers, as scripts, sources and fractions write them.

ghost use Rattle.std.specs.Prelude.{◌≡◌, ◌^◌, ◌<◌, ◌≤◌, length, IfSome, IsTrue, true};
ghost use Rattle.std.specs.Char.{is_ascii_digit};
ghost use Rattle.std.specs.List.{list_all};
ghost use Rattle.lgp_word.specs.Decimal.{decimal_number, decimal_of, readable_digits, is_decimal};

/// The text is one decimal digit or more, and at most a given number of digits.
#[tactic(auto, unfolding(crate::specs::Decimal::is_decimal))]
fn is_decimal(most: usize, text: &[u8]) -> bool
    ensures value { result ≡ is_decimal most text.now }
    ensures short { IsTrue result → length text.now ≤ most }
    ensures digits { IsTrue result → list_all is_ascii_digit text.now ≡ true }
{
    !text.is_empty() && text.len() <= most && are_digits(text)
}

/// All bytes are decimal digits.
pub(crate) fn are_digits(text: &[u8]) -> bool
    ensures { result ≡ list_all is_ascii_digit text.now }
{
    text.iter().all(|byte| byte.is_ascii_digit())
}

/// The number that at most 18 decimal digits stand for.
#[tactic(auto, using(crate::proofs::DecimalLemmas::room, crate::proofs::DecimalLemmas::one_digit_more), unfolding(crate::specs::Decimal::decimal_of))]
fn decimal_of(digits: &[u8]) -> u64
    requires short { length digits.now ≤ readable_digits }
    requires digits { list_all is_ascii_digit digits.now ≡ true }
    ensures value { result ≡ decimal_of digits.now }
    ensures size { result < 10 ^ length digits.now }
{
    let mut number = 0;
    for digit in digits {
        number = 10 * number + u64::from(*digit - b'0');
    }
    number
}

/// The decimal number that a text is; `None` where it is empty, has more than `most` bytes, or has a byte that is no decimal
/// digit. Zeros in front count as digits. `most` is at most 18.
#[tactic(auto, unfolding(crate::specs::Decimal::decimal_number))]
pub fn read_decimal(text: &[u8], most: usize) -> Option<u64>
    requires { most ≤ readable_digits }
    ensures value { result ≡ decimal_number most text.now }
    ensures below { IfSome result (λ number. number < 10 ^ most) }
    ensures digits { IfSome result (λ number.
        (length text.now ≤ most) × (number < 10 ^ length text.now)) }
{
    if is_decimal(most, text) {
        Some(decimal_of(text))
    } else {
        None
    }
}
