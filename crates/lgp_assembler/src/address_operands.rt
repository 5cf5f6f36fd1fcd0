//! Names, and what address operands stand for.

ghost use Rattle.std.specs.Prelude.{◌≡◌, ◌≤◌, Ok, length};
ghost use Rattle.std.specs.List.{list_all, position, position_or_len};
ghost use Rattle.lgp_assembler.specs.AddressOperands as spec;

use crate::name_table::NameValues;
use crate::operands::OperandFault;
use crate::output::{DRUM_SIZE, NAME_LIMIT};
use lgp_word::{Address, read_decimal};

/// What comes after the base of an address operand.
#[derive(Clone, Copy)]
pub struct Offset {
    pub minus: bool,
    pub number: u64,
}

/// Whether a byte may be in a name after its first letter.
fn is_name_byte(byte: u8) -> bool
    ensures { result ≡ spec.is_name_byte byte }
{
    byte.is_ascii_lowercase() || byte.is_ascii_digit()
}

/// Whether all bytes of a text may be in a name.
fn are_name_bytes(text: &[u8]) -> bool
    ensures { result ≡ list_all spec.is_name_byte text.now }
{
    text.iter().all(|byte| is_name_byte(*byte))
}

/// Whether a text is a letter `a` to `z` and then at most seven letters or digits.
#[tactic(auto, unfolding(crate::specs::AddressOperands::is_name))]
pub fn is_name(text: &[u8]) -> bool
    ensures { result ≡ spec.is_name text.now }
{
    if text.is_empty() {
        return false;
    }
    text[0].is_ascii_lowercase() && are_name_bytes(text) && text.len() <= NAME_LIMIT
}

/// Whether a byte is `+` or `-`.
fn is_sign(byte: u8) -> bool
    ensures { result ≡ spec.is_sign byte }
{
    byte == b'+' || byte == b'-'
}

/// The offset that comes after a base, if it is in its form.
#[tactic(auto, unfolding(crate::specs::AddressOperands::offset_of))]
fn offset_of(text: &[u8]) -> Option<Offset>
    ensures { result ≡ spec.offset_of text.now }
{
    if text.is_empty() {
        return Some(Offset {
            minus: false,
            number: 0,
        });
    }
    let (_, digits) = text.split_at(1);
    let number = read_decimal(digits, 4)?;
    Some(Offset {
        minus: text[0] == b'-',
        number,
    })
}

/// The number of a base: the place of the line, an address, or the value of a name.
#[tactic(auto, unfolding(crate::specs::AddressOperands::base_number))]
fn base_number<N: NameValues>(names: &N, place: u64, base: &[u8]) -> Result<u64, OperandFault>
    ensures { result ≡ spec.base_number (N.values names.now) place base.now }
{
    if base == b"*".as_slice() {
        return Ok(place);
    }
    if is_name(base) {
        return names.value(base).ok_or(OperandFault::Unknown);
    }
    match Address::parse(base) {
        Some(address) => Ok(u64::from(address.number())),
        None => Err(OperandFault::Misformed),
    }
}

/// The address of a number on the drum.
pub fn in_range(number: u64) -> Result<Address, OperandFault>
    ensures { result ≡ spec.in_range number }
{
    if number >= DRUM_SIZE {
        return Err(OperandFault::Outside);
    }
    Address::new(number as u16).ok_or(OperandFault::Outside)
}

/// The address that lies an offset from a number.
fn address_beside(offset: Offset, number: u64) -> Result<Address, OperandFault>
    ensures { result ≡ spec.address_beside (Ok number) offset }
{
    if offset.minus {
        match number.checked_sub(offset.number) {
            Some(number) => in_range(number),
            None => Err(OperandFault::Outside),
        }
    } else {
        in_range(number.saturating_add(offset.number))
    }
}

/// The place of the first sign.
fn sign_place(text: &[u8]) -> Option<usize>
    ensures { result ≡ position spec.is_sign text.now }
{
    text.iter().position(|byte| is_sign(*byte))
}

/// How many bytes come before the first sign.
#[tactic(auto, using(lgp_source::proofs::Places::run_lengths))]
pub fn base_len(text: &[u8]) -> usize
    ensures value { result ≡ position_or_len spec.is_sign text.now }
    ensures within { result ≤ length text.now }
{
    sign_place(text).unwrap_or(text.len())
}

/// The address that an operand stands for in a line's place: a name, an address or `*`, the place
/// itself, and after it perhaps a sign and a number. `Misformed` where it is in no such form,
/// `Unknown` where its name has no value, `Outside` where that is no place on the drum.
#[tactic(auto, unfolding(crate::specs::AddressOperands::address_operand))]
pub fn address_operand<N: NameValues>(
    names: &N,
    place: u64,
    text: &[u8],
) -> Result<Address, OperandFault>
    ensures { result ≡ spec.address_operand (N.values names.now) place text.now }
{
    let (base, rest) = text.split_at(base_len(text));
    let Some(offset) = offset_of(rest) else {
        return Err(OperandFault::Misformed);
    };
    match base_number(names, place, base) {
        Ok(number) => address_beside(offset, number),
        Err(fault) => Err(fault),
    }
}
