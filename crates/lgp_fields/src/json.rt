//! Records as objects of JSON.

ghost use Rattle.std.specs.Prelude.{◌≡◌, ◌≤◌, ◌++◌, OnOk, codes, [], ◌∷◌, if◌then◌else◌, length, true};
ghost use Rattle.lgp_text.specs.Pieces.{pieces_text};
ghost use Rattle.lgp_fields.specs.Escaped.{escaped};
ghost use Rattle.lgp_fields.specs.Printed.{field_json, fields_json, number_json, numbers_text, record_json, value_json};
ghost use Rattle.lgp_fields.specs.Seen.{field_seen, fields_seen, label_text, order_text, value_seen};
ghost use Rattle.lgp_word.specs.Digits.{address_digits};

use crate::escaped::push_escaped;
use crate::field::{Field, Value};
use crate::numbers::{push_signed, push_wide, separator};
use crate::texts::{push_escaped_labelled, push_escaped_order, push_escaped_pieces};
use lgp_text::{Piece, push_decimal};
use lgp_word::{Address, write_bits};
use std::alloc::{AllocError, Allocator};

/// The word for yes or no.
fn truth_text(holds: bool) -> &'static [u8]
    ensures { result.now ≡ (if holds then codes "true" else codes "false") }
{
    if holds { b"true" } else { b"false" }
}

/// The quotation mark around a number that many readers do not keep exactly.
fn number_mark(is_large: bool) -> &'static [u8]
    ensures { result.now ≡ (if is_large then codes "\"" else []) }
{
    if is_large { b"\"" } else { b"" }
}

/// Appends a number, from 2^53 on as a string.
#[tactic(auto, unfolding(crate::specs::Printed::number_json))]
fn push_json_number<A: Allocator>(text: &mut Vec<u8, A>, number: u64) -> Result<(), AllocError>
    ensures { OnOk result (text.new.items ≡ text.old.items ++ number_json number) }
{
    let mark = number_mark(number >= 1 << 53);
    text.extend_from_slice(mark)?;
    push_decimal(text, number)?;
    text.extend_from_slice(mark)
}

/// The same of a number of up to 128 bits.
#[tactic(auto, unfolding(crate::specs::Printed::number_json))]
fn push_wide_json_number<A: Allocator>(
    text: &mut Vec<u8, A>,
    number: u128,
) -> Result<(), AllocError>
    ensures { OnOk result (text.new.items ≡ text.old.items ++ number_json number) }
{
    let mark = number_mark(number >= 1 << 53);
    text.extend_from_slice(mark)?;
    push_wide(text, number)?;
    text.extend_from_slice(mark)
}

/// Appends numbers with commas between them.
#[tactic(auto, unfolding(crate::specs::Printed::numbers_text))]
fn push_json_numbers<A: Allocator>(text: &mut Vec<u8, A>, numbers: &[u64]) -> Result<(), AllocError>
    ensures { OnOk result (text.new.items
        ≡ text.old.items ++ numbers_text number_json (codes ",") true numbers.now) }
{
    let mut first = true;
    for number in numbers {
        text.extend_from_slice(separator(first, b","))?;
        push_json_number(text, *number)?;
        first = false;
    }
    Ok(())
}

/// The same of numbers of up to 128 bits.
#[tactic(auto, unfolding(crate::specs::Printed::numbers_text))]
fn push_wide_json_numbers<A: Allocator>(
    text: &mut Vec<u8, A>,
    numbers: &[u128],
) -> Result<(), AllocError>
    ensures { OnOk result (text.new.items
        ≡ text.old.items ++ numbers_text number_json (codes ",") true numbers.now) }
{
    let mut first = true;
    for number in numbers {
        text.extend_from_slice(separator(first, b","))?;
        push_wide_json_number(text, *number)?;
        first = false;
    }
    Ok(())
}

/// Appends numbers as an array.
fn push_array<A: Allocator>(text: &mut Vec<u8, A>, numbers: &[u64]) -> Result<(), AllocError>
    ensures { OnOk result (text.new.items ≡ text.old.items
        ++ (codes "[" ++ (numbers_text number_json (codes ",") true numbers.now ++ codes "]"))) }
{
    text.push(b'[')?;
    push_json_numbers(text, numbers)?;
    Ok(text.push(b']')?)
}

/// Appends numbers of up to 128 bits as an array.
fn push_wide_array<A: Allocator>(text: &mut Vec<u8, A>, numbers: &[u128]) -> Result<(), AllocError>
    ensures { OnOk result (text.new.items ≡ text.old.items
        ++ (codes "[" ++ (numbers_text number_json (codes ",") true numbers.now ++ codes "]"))) }
{
    text.push(b'[')?;
    push_wide_json_numbers(text, numbers)?;
    Ok(text.push(b']')?)
}

/// Appends a text as a string.
fn push_string<A: Allocator>(text: &mut Vec<u8, A>, bytes: &[u8]) -> Result<(), AllocError>
    ensures { OnOk result (text.new.items ≡ text.old.items
        ++ (codes "\"" ++ (escaped bytes.now ++ codes "\""))) }
{
    text.push(b'"')?;
    push_escaped(text, bytes)?;
    Ok(text.push(b'"')?)
}

/// Appends the text of pieces as a string.
fn push_pieces_string<A: Allocator>(
    text: &mut Vec<u8, A>,
    pieces: &[Piece],
) -> Result<(), AllocError>
    ensures { OnOk result (text.new.items ≡ text.old.items
        ++ (codes "\"" ++ (escaped (pieces_text pieces.now) ++ codes "\""))) }
{
    text.push(b'"')?;
    push_escaped_pieces(text, pieces)?;
    Ok(text.push(b'"')?)
}

/// Appends an address with its label as a string.
fn push_labelled_string<A: Allocator>(
    text: &mut Vec<u8, A>,
    address: Address,
    label: &[u8],
) -> Result<(), AllocError>
    ensures { OnOk result (text.new.items ≡ text.old.items
        ++ (codes "\"" ++ (escaped (address_digits address ++ label_text label.now)
        ++ codes "\""))) }
{
    text.push(b'"')?;
    push_escaped_labelled(text, address, label)?;
    Ok(text.push(b'"')?)
}

/// Appends an order with its label as a string.
fn push_order_string<A: Allocator>(
    text: &mut Vec<u8, A>,
    minus: bool,
    letter: u8,
    address: Address,
    label: &[u8],
) -> Result<(), AllocError>
    ensures { OnOk result (text.new.items ≡ text.old.items
        ++ (codes "\"" ++ (escaped (order_text minus letter address ++ label_text label.now)
        ++ codes "\""))) }
{
    text.push(b'"')?;
    push_escaped_order(text, minus, letter, address, label)?;
    Ok(text.push(b'"')?)
}

/// Appends a value.
#[tactic(auto, unfolding(crate::specs::Printed::value_json, crate::specs::Seen::label_text))]
fn push_value<A: Allocator>(text: &mut Vec<u8, A>, value: &Value) -> Result<(), AllocError>
    ensures { OnOk result (text.new.items
        ≡ text.old.items ++ value_json (value_seen value.now)) }
{
    match *value {
        Value::Nothing => text.extend_from_slice(b"null"),
        Value::Number(number) => push_json_number(text, number),
        Value::Signed(minus, size) => push_signed(text, minus, size),
        Value::YesNo(holds) => text.extend_from_slice(truth_text(holds)),
        Value::Wide(number) => push_wide_json_number(text, *number),
        Value::Numbers(numbers) => push_array(text, numbers),
        Value::WideNumbers(numbers) => push_wide_array(text, numbers),
        Value::Span(first, past) => push_array(text, &[first, past]),
        Value::Spans(first, past, next, end) => push_array(text, &[first, past, next, end]),
        Value::Text(bytes) => push_string(text, bytes),
        Value::Byte(byte) => push_string(text, &[byte]),
        Value::Pieces(pieces) => push_pieces_string(text, pieces),
        Value::Digits(bits) => push_string(text, &write_bits(bits)),
        Value::Place(address) => push_string(text, &address.print()),
        Value::Labelled(address, label) => push_labelled_string(text, address, label),
        Value::Order(minus, letter, address) => {
            push_order_string(text, minus, letter, address, b"")
        }
        Value::LabelledOrder(minus, letter, address, label) => {
            push_order_string(text, minus, letter, address, label)
        }
    }
}

/// Appends a key and its value.
#[tactic(auto, unfolding(crate::specs::Printed::field_json))]
fn push_field<A: Allocator>(text: &mut Vec<u8, A>, field: &Field) -> Result<(), AllocError>
    ensures { OnOk result (text.new.items
        ≡ text.old.items ++ field_json (field_seen field.now)) }
{
    text.push(b'"')?;
    push_escaped(text, field.0)?;
    text.extend_from_slice(b"\":")?;
    push_value(text, &field.1)
}

/// Appends fields, with a comma in front of each but the first.
#[tactic(auto, unfolding(crate::specs::Printed::fields_json))]
fn push_fields<A: Allocator>(
    text: &mut Vec<u8, A>,
    begins: bool,
    fields: &[Field],
) -> Result<(), AllocError>
    ensures { OnOk result (text.new.items
        ≡ text.old.items ++ fields_json begins (fields_seen fields.now)) }
{
    let mut first = begins;
    for field in fields {
        text.extend_from_slice(separator(first, b","))?;
        push_field(text, field)?;
        first = false;
    }
    Ok(())
}

/// Appends the object of a record, with all its fields.
#[tactic(auto, unfolding(crate::specs::Printed::record_json))]
pub fn push_object<A: Allocator>(text: &mut Vec<u8, A>, fields: &[Field]) -> Result<(), AllocError>
    ensures { OnOk result (text.new.items
        ≡ text.old.items ++ record_json (fields_seen fields.now)) }
{
    text.push(b'{')?;
    push_fields(text, true, fields)?;
    Ok(text.push(b'}')?)
}

/// Appends the object of a record whose fields come in three parts.
#[tactic(auto, unfolding(crate::specs::Printed::record_json))]
pub(crate) fn push_joined_object<A: Allocator>(
    text: &mut Vec<u8, A>,
    front: &[Field],
    middle: &[Field],
    back: &[Field],
) -> Result<(), AllocError>
    requires { 1 ≤ length front.now }
    ensures { OnOk result (text.new.items ≡ text.old.items ++ record_json
        (fields_seen front.now ++ (fields_seen middle.now ++ fields_seen back.now))) }
{
    text.push(b'{')?;
    push_fields(text, true, front)?;
    push_fields(text, false, middle)?;
    push_fields(text, false, back)?;
    Ok(text.push(b'}')?)
}
