//! Columns of a line.

ghost use Rattle.std.specs.Prelude.{◌≡◌, ◌-◌, ◌++◌, replicate, OnOk, vec_len};
ghost use Rattle.lgp_trace.specs.Columns.{blanks, right_aligned, spaced_number};

use itoa::Buffer;
use std::alloc::{AllocError, Allocator};

/// Appends a byte a given number of times.
#[tactic(auto, using(crate::proofs::TextLemmas::copies))]
pub fn push_copies<A: Allocator>(
    text: &mut Vec<u8, A>,
    byte: u8,
    count: u64,
) -> Result<(), AllocError>
    ensures { OnOk result (text.new.items ≡ text.old.items ++ replicate count byte) }
{
    for done in 0..count {
        text.push(byte)?;
    }
    Ok(())
}

/// Appends a number at the right of its column.
pub fn push_right<A: Allocator>(
    text: &mut Vec<u8, A>,
    width: u64,
    number: u64,
) -> Result<(), AllocError>
    ensures { OnOk result (text.new.items ≡ text.old.items ++ right_aligned width number) }
{
    let mut buffer = Buffer::new();
    let digits = buffer.format(number).as_bytes();
    push_copies(text, b' ', width.saturating_sub(digits.len() as u64))?;
    text.extend_from_slice(digits)
}

/// Appends a number in its column, after a blank.
#[tactic(auto, unfolding(crate::specs::Columns::spaced_number))]
pub fn push_spaced<A: Allocator>(
    text: &mut Vec<u8, A>,
    width: u64,
    number: u64,
) -> Result<(), AllocError>
    ensures { OnOk result (text.new.items ≡ text.old.items ++ spaced_number width number) }
{
    text.push(b' ')?;
    push_right(text, width, number)
}

/// The same of a number of up to 128 bits.
#[tactic(auto, unfolding(crate::specs::Columns::spaced_number))]
pub fn push_wide<A: Allocator>(
    text: &mut Vec<u8, A>,
    width: u64,
    number: u128,
) -> Result<(), AllocError>
    ensures { OnOk result (text.new.items ≡ text.old.items ++ spaced_number width number) }
{
    let mut buffer = Buffer::new();
    let digits = buffer.format(number).as_bytes();
    text.push(b' ')?;
    push_copies(text, b' ', width.saturating_sub(digits.len() as u64))?;
    text.extend_from_slice(digits)
}

/// Appends blanks after what begins at a place of the text, up to the width of its column.
pub fn push_blanks_after<A: Allocator>(
    text: &mut Vec<u8, A>,
    width: u64,
    begins: usize,
) -> Result<(), AllocError>
    ensures { OnOk result (text.new.items
        ≡ text.old.items ++ blanks (width - (vec_len text.old - begins))) }
{
    let long = text.len().saturating_sub(begins) as u64;
    push_copies(text, b' ', width.saturating_sub(long))
}
