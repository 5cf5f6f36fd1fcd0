//! Records as lines, each a key, a blank and a value.

ghost use Rattle.std.specs.Prelude.{◌≡◌, ◌++◌, OnOk, codes, if◌then◌else◌};
ghost use Rattle.lgp_fields.specs.Printed.{field_line, record_lines, value_text};
ghost use Rattle.lgp_fields.specs.Seen.{field_seen, fields_seen, value_seen};

use crate::escaped::push_escaped;
use crate::field::{Field, Value};
use crate::numbers::{push_numbers, push_signed, push_wide, push_wide_numbers};
use crate::texts::{push_bits, push_escaped_labelled, push_escaped_order, push_escaped_pieces};
use lgp_text::push_decimal;
use std::alloc::{AllocError, Allocator};

/// The word for yes or no.
fn yes_text(holds: bool) -> &'static [u8]
    ensures { result.now ≡ (if holds then codes "yes" else codes "no") }
{
    if holds { b"yes" } else { b"no" }
}

/// Appends a value as it stands in a line.
#[tactic(auto, unfolding(crate::specs::Printed::value_text, crate::specs::Seen::label_text))]
fn push_value<A: Allocator>(text: &mut Vec<u8, A>, value: &Value) -> Result<(), AllocError>
    ensures { OnOk result (text.new.items
        ≡ text.old.items ++ value_text (value_seen value.now)) }
{
    match *value {
        Value::Nothing => Ok(()),
        Value::Number(number) => push_decimal(text, number),
        Value::Signed(minus, size) => push_signed(text, minus, size),
        Value::YesNo(holds) => text.extend_from_slice(yes_text(holds)),
        Value::Wide(number) => push_wide(text, *number),
        Value::Numbers(numbers) => push_numbers(text, b" ", numbers),
        Value::WideNumbers(numbers) => push_wide_numbers(text, b" ", numbers),
        Value::Span(first, past) => push_numbers(text, b" ", &[first, past]),
        Value::Spans(first, past, next, end) => {
            push_numbers(text, b" ", &[first, past, next, end])
        }
        Value::Text(bytes) => push_escaped(text, bytes),
        Value::Byte(byte) => push_escaped(text, &[byte]),
        Value::Pieces(pieces) => push_escaped_pieces(text, pieces),
        Value::Digits(bits) => push_bits(text, bits),
        Value::Place(address) => push_escaped(text, &address.print()),
        Value::Labelled(address, label) => push_escaped_labelled(text, address, label),
        Value::Order(minus, letter, address) => {
            push_escaped_order(text, minus, letter, address, b"")
        }
        Value::LabelledOrder(minus, letter, address, label) => {
            push_escaped_order(text, minus, letter, address, label)
        }
    }
}

/// Appends the line of a field that has a value.
#[tactic(auto, unfolding(crate::specs::Printed::field_line))]
fn push_field<A: Allocator>(text: &mut Vec<u8, A>, field: &Field) -> Result<(), AllocError>
    ensures { OnOk result (text.new.items
        ≡ text.old.items ++ field_line (field_seen field.now)) }
{
    if matches!(field.1, Value::Nothing) {
        return Ok(());
    }
    text.extend_from_slice(field.0)?;
    text.push(b' ')?;
    push_value(text, &field.1)?;
    Ok(text.push(b'\n')?)
}

/// Appends the lines of a record, one for each field that has a value.
#[tactic(auto, unfolding(crate::specs::Printed::record_lines))]
pub fn push_lines<A: Allocator>(text: &mut Vec<u8, A>, fields: &[Field]) -> Result<(), AllocError>
    ensures { OnOk result (text.new.items
        ≡ text.old.items ++ record_lines (fields_seen fields.now)) }
{
    for field in fields {
        push_field(text, field)?;
    }
    Ok(())
}
