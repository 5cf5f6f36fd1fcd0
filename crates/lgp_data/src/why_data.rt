//! Where the word at an address came from, as a record.

ghost use Rattle.std.specs.Prelude.{◌≡◌, ◌++◌, OnOk, true};
ghost use Rattle.std.specs.Option.{option_map, option_map_or};
ghost use Rattle.lgp_word.specs.Digits.{digits_of};
ghost use Rattle.lgp_fields.specs.Plain.{Nothing, Number, Text};
ghost use Rattle.lgp_fields.specs.Printed.{record_in};
ghost use Rattle.lgp_fields.specs.Seen.{fields_seen, value_seen};
ghost use Rattle.lgp_data.specs.WhyData.{changer_fields, clock_of, kind_of, lost_fields, order_of, order_place, place_label, why_of};
ghost use Rattle.lgp_data.specs.Words.{performed_order, whole_number, word_order};

use crate::show_data::word_fields;
use crate::words::{name_of, performed_order, place_value, whole_number, word_order};
use lgp_assembler::Name;
use lgp_debugger::Debugger;
use lgp_fields::{Field, RecordForm, Value, push_joined};
use lgp_history::{Changer, Origin, Origins, PastOrder};
use lgp_word::{Address, Word};
use std::alloc::{AllocError, Allocator};

/// What changed a word.
pub(crate) fn changer_of(origin: &Option<Origin>) -> Option<Changer>
    ensures { result ≡ option_map (λ origin. origin.changer) origin.now }
{
    match origin {
        Some(origin) => Some(origin.changer),
        None => None,
    }
}

/// The word that was there before.
pub(crate) fn lost_of(origin: &Option<Origin>) -> Option<Word>
    ensures { result ≡ option_map (λ origin. origin.lost) origin.now }
{
    match origin {
        Some(origin) => Some(origin.lost),
        None => None,
    }
}

/// What changed a word: an order, a hand, or no kept step.
fn kind_of(changer: &Option<Changer>) -> &'static [u8]
    ensures { result.now ≡ kind_of changer.now }
{
    match changer {
        None => b"none",
        Some(Changer::Order(_)) => b"order",
        Some(Changer::Hand(_)) => b"hand",
    }
}

/// The order that changed a word.
pub(crate) fn order_of(changer: &Option<Changer>) -> Option<PastOrder>
    ensures { result ≡ order_of changer.now }
{
    match changer {
        Some(Changer::Order(order)) => Some(*order),
        _ => None,
    }
}

/// The clock at which a word was changed.
pub(crate) fn clock_of(changer: &Option<Changer>) -> Value<'static>
    ensures { value_seen result ≡ clock_of changer.now }
{
    match changer {
        None => Value::Nothing,
        Some(Changer::Order(order)) => Value::Number(order.clock),
        Some(Changer::Hand(clock)) => Value::Number(*clock),
    }
}

/// Where an order was.
fn order_place(order: &Option<PastOrder>) -> Option<Address>
    ensures { result ≡ order_place order.now }
{
    match order {
        Some(order) => order.place,
        None => None,
    }
}

/// The label of where an order was.
fn place_label<'a>(names: &'a [(Name, u16)], place: &Option<Address>) -> Value<'a>
    ensures { value_seen result ≡ place_label names.now place.now }
{
    match place {
        Some(place) => name_of(names, place.number()),
        None => Value::Nothing,
    }
}

/// The order as it is performed.
fn past_word(order: &Option<PastOrder>) -> Value<'static>
    ensures { value_seen result
        ≡ option_map_or (λ past. performed_order past.word) order.now Nothing }
{
    match order {
        Some(order) => performed_order(order.word),
        None => Value::Nothing,
    }
}

/// How many orders ago it was performed.
pub(crate) fn orders_ago(order: &Option<PastOrder>) -> Value<'static>
    ensures { value_seen result
        ≡ option_map_or (λ past. Number past.orders_back) order.now Nothing }
{
    match order {
        Some(order) => Value::Number(order.orders_back),
        None => Value::Nothing,
    }
}

/// A word that was lost, by its digits.
pub(crate) fn lost_digits(lost: &Option<Word>) -> Value<'static>
    ensures { value_seen result ≡ option_map_or (λ word. Text (digits_of word)) lost.now Nothing }
{
    match lost {
        Some(word) => Value::Digits(word.get()),
        None => Value::Nothing,
    }
}

/// The same as the order that it is.
fn lost_order(lost: &Option<Word>) -> Value<'static>
    ensures { value_seen result ≡ option_map_or word_order lost.now Nothing }
{
    match lost {
        Some(word) => word_order(*word),
        None => Value::Nothing,
    }
}

/// The same as a number.
pub(crate) fn lost_number(lost: &Option<Word>) -> Value<'static>
    ensures { value_seen result ≡ option_map_or whole_number lost.now Nothing }
{
    match lost {
        Some(word) => whole_number(word.get()),
        None => Value::Nothing,
    }
}

/// What changed a word, and when.
#[tactic(auto, unfolding(crate::specs::WhyData::changer_fields))]
fn changer_fields<'a>(names: &'a [(Name, u16)], changer: &Option<Changer>) -> [Field<'a>; 6]
    ensures { fields_seen result ≡ changer_fields names.now changer.now }
{
    let order = order_of(changer);
    let place = order_place(&order);
    [
        (b"changed-by", Value::Text(kind_of(changer))),
        (b"by-order", past_word(&order)),
        (b"by-at", place_value(&place)),
        (b"by-label", place_label(names, &place)),
        (b"by-clock", clock_of(changer)),
        (b"by-ago", orders_ago(&order)),
    ]
}

/// The word that was there before.
#[tactic(auto, unfolding(crate::specs::WhyData::lost_fields))]
fn lost_fields(lost: &Option<Word>) -> [Field<'static>; 3]
    ensures { fields_seen result ≡ lost_fields lost.now }
{
    [
        (b"before", lost_digits(lost)),
        (b"before-order", lost_order(lost)),
        (b"before-number", lost_number(lost)),
    ]
}

/// Appends where the word at an address came from, as a record in a form.
#[tactic(auto, unfolding(crate::specs::WhyData::why_of))]
pub fn push_why_data<H: Origins<B>, A: Allocator, B: Allocator>(
    text: &mut Vec<u8, A>,
    form: RecordForm,
    names: &[(Name, u16)],
    debugger: &Debugger<H, B>,
    address: Address,
) -> Result<(), AllocError>
    ensures { OnOk result (text.new.items ≡ text.old.items
        ++ record_in form (why_of names.now debugger.now address)) }
{
    let word = debugger.machine().word(address);
    let origin = debugger.origin(address);
    let front = word_fields(names, address, word);
    let changer = changer_fields(names, &changer_of(&origin));
    let lost = lost_fields(&lost_of(&origin));
    push_joined(text, form, &front, &changer, &lost)
}
