//! Words and names as the values of fields.

ghost use Rattle.std.specs.Prelude.{◌≡◌, ◌&&◌, [], if◌then◌else◌};
ghost use Rattle.lgp_word.specs.Order.{op_at, takes_minus};
ghost use Rattle.lgp_fields.specs.Seen.{value_seen};
ghost use Rattle.lgp_data.specs.Words.{bits_order, label_at, labelled_order, labelled_place, name_of, number_size, performed_order, place_value, refers, whole_number, word_order};

use lgp_assembler::Name;
use lgp_fields::Value;
use lgp_word::{Address, Op, Word, decode, parts};

/// 32 bits as a whole number without its sign, with its point after place 30. With its sign it is rounded down.
pub(crate) fn number_size(bits: u32) -> u64
    ensures { result ≡ number_size bits }
{
    let bits = u64::from(bits);
    if bits >= 1 << 31 {
        ((1 << 32) + 1 - bits) / 2
    } else {
        bits / 2
    }
}

/// The same with its sign.
#[tactic(auto, unfolding(crate::specs::Words::whole_number))]
pub(crate) fn whole_number(bits: u32) -> Value<'static>
    ensures { value_seen result ≡ whole_number bits }
{
    Value::Signed(bits >= 1 << 31, number_size(bits))
}

/// Whether a word is performed as an order with a minus.
fn has_minus(minus: bool, op: Op) -> bool
    ensures { result ≡ (takes_minus op && minus) }
{
    matches!(op, Op::T) && minus
}

/// A word as the order that is performed.
#[tactic(auto, unfolding(crate::specs::Words::performed_order))]
pub(crate) fn performed_order(word: Word) -> Value<'static>
    ensures { value_seen result ≡ performed_order word }
{
    let (minus, op, address) = parts(word);
    Value::Order(has_minus(minus, op), op.letter(), address)
}

/// A word as the order that it is, where it is one.
#[tactic(auto, unfolding(crate::specs::Words::word_order))]
pub(crate) fn word_order(word: Word) -> Value<'static>
    ensures { value_seen result ≡ word_order word }
{
    match decode(word) {
        Some(_) => performed_order(word),
        None => Value::Nothing,
    }
}

/// 32 bits as the order that they are, where they are a word that is one.
#[tactic(auto, unfolding(crate::specs::Words::bits_order))]
pub(crate) fn bits_order(bits: u32) -> Value<'static>
    ensures { value_seen result ≡ bits_order bits }
{
    match Word::new(bits) {
        Some(word) => word_order(word),
        None => Value::Nothing,
    }
}

/// The first of the names that have a value.
#[tactic(auto, unfolding(crate::specs::Words::name_of))]
pub(crate) fn name_of(names: &[(Name, u16)], value: u16) -> Value<'_>
    ensures { value_seen result ≡ name_of names.now value }
{
    for name in names {
        if name.1 == value {
            return Value::Text(name.0.bytes());
        }
    }
    Value::Nothing
}

/// The same as a label, which is empty where no name has the value.
#[tactic(auto, unfolding(crate::specs::Words::label_at))]
fn label_at(names: &[(Name, u16)], value: u16) -> &[u8]
    ensures { result.now ≡ label_at names.now value }
{
    for name in names {
        if name.1 == value {
            return name.0.bytes();
        }
    }
    b""
}

/// An address with its label.
pub(crate) fn labelled_place(names: &[(Name, u16)], address: Address) -> Value<'_>
    ensures { value_seen result ≡ labelled_place names.now address }
{
    Value::Labelled(address, label_at(names, address.number()))
}

/// The label of the word that an order refers to.
fn reference_label(names: &[(Name, u16)], op: Op, address: Address) -> &[u8]
    ensures { result.now ≡ (if refers op then label_at names.now address else []) }
{
    match op {
        Op::Z | Op::I | Op::P => b"",
        _ => label_at(names, address.number()),
    }
}

/// A word as the order that is performed, with the label of the word that it refers to.
#[tactic(auto, unfolding(crate::specs::Words::labelled_order))]
pub(crate) fn labelled_order(names: &[(Name, u16)], word: Word) -> Value<'_>
    ensures { value_seen result ≡ labelled_order names.now word }
{
    let (minus, op, address) = parts(word);
    let label = reference_label(names, op, address);
    Value::LabelledOrder(has_minus(minus, op), op.letter(), address, label)
}

/// An address, where there is one.
#[tactic(auto, unfolding(crate::specs::Words::place_value))]
pub(crate) fn place_value(place: &Option<Address>) -> Value<'static>
    ensures { value_seen result ≡ place_value place.now }
{
    match place {
        Some(address) => Value::Place(*address),
        None => Value::Nothing,
    }
}
