//! Labels and rules as records.

ghost use Rattle.std.specs.Prelude.{◌≡◌, ◌++◌, ◌==◌, OnOk, Some, if◌then◌else◌, nat_lt, true};
ghost use Rattle.std.specs.Option.{option_map_or};
ghost use Rattle.lgp_assembler.specs.Survey.{line_of_name};
ghost use Rattle.lgp_word.specs.Digits.{address_digits};
ghost use Rattle.lgp_fields.specs.Plain.{Nothing, Number, Text};
ghost use Rattle.lgp_fields.specs.Printed.{record_in};
ghost use Rattle.lgp_fields.specs.Seen.{value_seen};
ghost use Rattle.lgp_data.specs.ShowData.{label_record, labels_in, labels_listed, rule_kind, rule_place, rule_record, rules_in};

use crate::words::name_of;
use lgp_assembler::{Name, NameValues, Names, declared_names};
use lgp_fields::{Field, RecordForm, Value, push_record};
use lgp_history::Rule;
use lgp_word::Address;
use std::alloc::{AllocError, Allocator};

/// The place that is a name's value, if there is such a place.
fn place_of(value: u16) -> Value<'static>
    ensures { value_seen result
        ≡ (if nat_lt value 4096 then Text (address_digits value) else Nothing) }
{
    match Address::new(value) {
        Some(address) => Value::Place(address),
        None => Value::Nothing,
    }
}

/// The line of a name, where a line declares it.
fn line_of<A: Allocator>(declared: &Names<A>, name: &[u8]) -> Value<'static>
    ensures { value_seen result
        ≡ option_map_or Number (line_of_name declared.now (Some name.now)) Nothing }
{
    match declared.value(name) {
        Some(line) => Value::Number(line),
        None => Value::Nothing,
    }
}

/// Appends the record of a name.
#[tactic(auto, unfolding(crate::specs::ShowData::label_record))]
fn push_label<A: Allocator, B: Allocator>(
    text: &mut Vec<u8, A>,
    form: RecordForm,
    declared: &Names<B>,
    symbol: &(Name, u16),
) -> Result<(), AllocError>
    ensures { OnOk result (text.new.items
        ≡ text.old.items ++ record_in form (label_record declared.now symbol.now)) }
{
    let fields: [Field; 3] = [
        (b"name", Value::Text(symbol.0.bytes())),
        (b"place", place_of(symbol.1)),
        (b"line", line_of(declared, symbol.0.bytes())),
    ];
    push_record(text, form, &fields)
}

/// Appends the records of names, each with its line.
#[tactic(auto, unfolding(crate::specs::ShowData::labels_listed))]
fn push_listed<A: Allocator, B: Allocator>(
    text: &mut Vec<u8, A>,
    form: RecordForm,
    declared: &Names<B>,
    symbols: &[(Name, u16)],
) -> Result<(), AllocError>
    ensures { OnOk result (text.new.items
        ≡ text.old.items ++ labels_listed form declared.now symbols.now) }
{
    for symbol in symbols {
        push_label(text, form, declared, symbol)?;
    }
    Ok(())
}

/// Appends the records of a source's names, with their values and the lines that declare them.
#[tactic(auto, unfolding(crate::specs::ShowData::labels_in))]
pub fn push_labels_data<A: Allocator + Copy>(
    alloc: A,
    text: &mut Vec<u8, A>,
    form: RecordForm,
    source: &[u8],
    symbols: &[(Name, u16)],
) -> Result<(), AllocError>
    ensures { OnOk result (text.new.items
        ≡ text.old.items ++ labels_in form source.now symbols.now) }
{
    let declared = declared_names(alloc, source)?;
    push_listed(text, form, &declared, symbols)
}

/// The command that makes a rule.
fn rule_kind(rule: &Rule) -> &'static [u8]
    ensures { result.now ≡ rule_kind rule.now }
{
    match rule {
        Rule::At(_) => b"break",
        Rule::Changed(_) => b"watch",
    }
}

/// A rule's address.
fn rule_place(rule: &Rule) -> Address
    ensures { result ≡ rule_place rule.now }
{
    match rule {
        Rule::At(address) | Rule::Changed(address) => *address,
    }
}

/// Appends the record of a rule.
#[tactic(auto, unfolding(crate::specs::ShowData::rule_record))]
fn push_rule<A: Allocator>(
    text: &mut Vec<u8, A>,
    form: RecordForm,
    names: &[(Name, u16)],
    number: u64,
    rule: &Rule,
) -> Result<(), AllocError>
    ensures { OnOk result (text.new.items ≡ text.old.items
        ++ record_in form (rule_record names.now number rule.now)) }
{
    let address = rule_place(rule);
    let fields: [Field; 4] = [
        (b"rule", Value::Number(number)),
        (b"kind", Value::Text(rule_kind(rule))),
        (b"address", Value::Place(address)),
        (b"label", name_of(names, address.number())),
    ];
    push_record(text, form, &fields)
}

/// Appends the records of rules.
#[tactic(auto, unfolding(crate::specs::ShowData::rules_in))]
pub fn push_rules_data<A: Allocator>(
    text: &mut Vec<u8, A>,
    form: RecordForm,
    names: &[(Name, u16)],
    rules: &[Rule],
) -> Result<(), AllocError>
    ensures { OnOk result (text.new.items
        ≡ text.old.items ++ rules_in form names.now 0 rules.now) }
{
    for (number, rule) in rules.iter().enumerate() {
        push_rule(text, form, names, number as u64, rule)?;
    }
    Ok(())
}
