//! Numbers and their lists.

ghost use Rattle.std.specs.Prelude.{◌≡◌, ◌++◌, OnOk, codes, decimal, true};
ghost use Rattle.lgp_fields.specs.Printed.{numbers_text, separated, signed_text};

use itoa::Buffer;
use lgp_text::push_decimal;
use std::alloc::{AllocError, Allocator};

/// Appends a number with its sign.
#[tactic(auto, unfolding(crate::specs::Printed::signed_text))]
pub(crate) fn push_signed<A: Allocator>(
    text: &mut Vec<u8, A>,
    minus: bool,
    size: u64,
) -> Result<(), AllocError>
    ensures { OnOk result (text.new.items ≡ text.old.items ++ signed_text minus size) }
{
    let sign: &[u8] = if minus { b"-" } else { b"" };
    text.extend_from_slice(sign)?;
    push_decimal(text, size)
}

/// What is in front of an item of a list.
pub(crate) fn separator(first: bool, separator: &'static [u8]) -> &'static [u8]
    ensures { result.now ≡ separated first separator.now }
{
    if first { b"" } else { separator }
}

/// Appends numbers, with this in front of each but the first.
#[tactic(auto, unfolding(crate::specs::Printed::numbers_text))]
pub(crate) fn push_numbers<A: Allocator>(
    text: &mut Vec<u8, A>,
    between: &'static [u8],
    numbers: &[u64],
) -> Result<(), AllocError>
    ensures { OnOk result (text.new.items
        ≡ text.old.items ++ numbers_text decimal between.now true numbers.now) }
{
    let mut first = true;
    for number in numbers {
        text.extend_from_slice(separator(first, between))?;
        push_decimal(text, *number)?;
        first = false;
    }
    Ok(())
}

/// Appends a number of up to 128 bits in decimal.
pub(crate) fn push_wide<A: Allocator>(text: &mut Vec<u8, A>, number: u128) -> Result<(), AllocError>
    ensures { OnOk result (text.new.items ≡ text.old.items ++ decimal number) }
{
    let mut buffer = Buffer::new();
    text.extend_from_slice(buffer.format(number).as_bytes())
}

/// The same of several, with this in front of each but the first.
#[tactic(auto, unfolding(crate::specs::Printed::numbers_text))]
pub(crate) fn push_wide_numbers<A: Allocator>(
    text: &mut Vec<u8, A>,
    between: &'static [u8],
    numbers: &[u128],
) -> Result<(), AllocError>
    ensures { OnOk result (text.new.items
        ≡ text.old.items ++ numbers_text decimal between.now true numbers.now) }
{
    let mut first = true;
    for number in numbers {
        text.extend_from_slice(separator(first, between))?;
        push_wide(text, *number)?;
        first = false;
    }
    Ok(())
}
