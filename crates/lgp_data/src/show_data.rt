//! Words as records.

ghost use Rattle.std.specs.Prelude.{◌≡◌, ◌++◌, ◌==◌, ◌+◌, ◌≤◌, ◌∷◌, [], OnOk, codes, is_some};
ghost use Rattle.lgp_fraction.specs.Arithmetic.{half};
ghost use Rattle.lgp_fraction.specs.Decimal.{decimal_text};
ghost use Rattle.lgp_fields.specs.Plain.{field, Text, YesNo};
ghost use Rattle.lgp_fields.specs.Printed.{record_in};
ghost use Rattle.lgp_fields.specs.Seen.{fields_seen};
ghost use Rattle.lgp_history.specs.Origins.{latest_change};
ghost use Rattle.lgp_data.specs.ShowData.{shown_of, shown_record, word_fields};

use crate::words::{name_of, whole_number, word_order};
use lgp_assembler::Name;
use lgp_debugger::Debugger;
use lgp_fields::{Field, RecordForm, Value, push_joined};
use lgp_fraction::Fraction;
use lgp_history::Origins;
use lgp_word::{Address, Word};
use std::alloc::{AllocError, Allocator};

/// A word with its address: by its digits, as the order that it is, and as a whole number.
#[tactic(auto, unfolding(crate::specs::ShowData::word_fields))]
pub(crate) fn word_fields(names: &[(Name, u16)], address: Address, word: Word) -> [Field<'_>; 5]
    ensures { fields_seen result ≡ word_fields names.now address word }
{
    [
        (b"address", Value::Place(address)),
        (b"label", name_of(names, address.number())),
        (b"digits", Value::Digits(word.get())),
        (b"order", word_order(word)),
        (b"number", whole_number(word.get())),
    ]
}

/// The field of a fraction that has this text.
fn fraction_field(fraction: &[u8]) -> [Field<'_>; 1]
    ensures { fields_seen result ≡ field (codes "fraction") (Text fraction.now) ∷ [] }
{
    [(b"fraction", Value::Text(fraction))]
}

/// The field that says whether a word was changed.
fn changed_field(changed: bool) -> [Field<'static>; 1]
    ensures { fields_seen result ≡ field (codes "changed") (YesNo changed) ∷ [] }
{
    [(b"changed", Value::YesNo(changed))]
}

/// Appends the record of a word.
#[tactic(auto, unfolding(crate::specs::ShowData::shown_record))]
fn push_word<A: Allocator>(
    text: &mut Vec<u8, A>,
    form: RecordForm,
    names: &[(Name, u16)],
    address: Address,
    word: Word,
    changed: bool,
) -> Result<(), AllocError>
    ensures { OnOk result (text.new.items ≡ text.old.items ++ record_in form
        (shown_record (word_fields names.now address word) (decimal_text (half word)) changed)) }
{
    let fraction = Fraction::of_word(word).to_decimal();
    let front = word_fields(names, address, word);
    let middle = fraction_field(&fraction);
    let back = changed_field(changed);
    push_joined(text, form, &front, &middle, &back)
}

/// Whether a kept step changed the word at an address.
fn is_changed<H: Origins<B>, B: Allocator>(debugger: &Debugger<H, B>, address: Address) -> bool
    ensures { result ≡ is_some (latest_change address debugger.now.steps) }
{
    debugger.origin(address).is_some()
}

/// Appends the record of the word at an address of a debugger's drum.
#[tactic(auto, unfolding(crate::specs::ShowData::shown_of))]
pub fn push_shown<H: Origins<B>, A: Allocator, B: Allocator>(
    text: &mut Vec<u8, A>,
    form: RecordForm,
    names: &[(Name, u16)],
    debugger: &Debugger<H, B>,
    address: Address,
) -> Result<(), AllocError>
    ensures { OnOk result (text.new.items ≡ text.old.items
        ++ record_in form (shown_of names.now debugger.now address)) }
{
    let word = debugger.machine().word(address);
    let changed = is_changed(debugger, address);
    push_word(text, form, names, address, word, changed)
}
