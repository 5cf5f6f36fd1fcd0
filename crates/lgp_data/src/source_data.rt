//! The lines of a source as records.

ghost use Rattle.std.specs.Prelude.{◌≡◌, ◌++◌, ◌==◌, OnOk, drop, map, option_map};
ghost use Rattle.lgp_source.specs.Seen.{line_seen, token_seen};
ghost use Rattle.lgp_source.specs.Source.{lines_of};
ghost use Rattle.lgp_fields.specs.Printed.{record_in};
ghost use Rattle.lgp_fields.specs.Seen.{fields_seen, value_seen};
ghost use Rattle.lgp_data.specs.SourceData.{comment_value, digits_value, fault_part, fault_value, line_record, missing_record, next_record, number_value, part_value, place_told, source_in, source_lines_in, span_value, spans_value};

use crate::words::place_value;
use lgp_assembler::{FaultKind, LineSurvey, part_of, survey};
use lgp_fields::{Field, RecordForm, Value, push_record};
use lgp_source::{Line, Lines, Token, before_comment};
use lgp_word::{Address, Word};
use std::alloc::{AllocError, Allocator};

/// The columns of a token.
fn span_value(token: Option<Token>) -> Value<'static>
    ensures { value_seen result ≡ span_value (option_map token_seen token.entry) }
{
    match token {
        Some(token) => Value::Span(token.first as u64, token.past as u64),
        None => Value::Nothing,
    }
}

/// The columns of one operand or two.
fn spans_value(operands: [Option<Token>; 2]) -> Value<'static>
    ensures { value_seen result ≡ spans_value (map (option_map token_seen) operands.entry) }
{
    match operands {
        [Some(one), Some(two)] => Value::Spans(
            one.first as u64,
            one.past as u64,
            two.first as u64,
            two.past as u64,
        ),
        [first, _] => span_value(first),
    }
}

/// The columns of a line's comment.
fn comment_value(text: &[u8]) -> Value<'static>
    ensures { value_seen result ≡ comment_value text.now }
{
    let first = before_comment(text).len();
    if first < text.len() {
        Value::Span(first as u64, text.len() as u64)
    } else {
        Value::Nothing
    }
}

/// The columns of what is at fault in a line.
fn fault_part(fault: Option<FaultKind>, line: &Line) -> Option<(usize, usize)>
    ensures { result ≡ fault_part fault (line_seen line.now) }
{
    match fault {
        Some(kind) => part_of(kind, line),
        None => None,
    }
}

/// The columns of a part of a line.
fn part_value(part: Option<(usize, usize)>) -> Value<'static>
    ensures { value_seen result ≡ part_value part }
{
    match part {
        Some((first, past)) => Value::Span(first as u64, past as u64),
        None => Value::Nothing,
    }
}

/// A number, where there is one.
fn number_value(number: Option<u64>) -> Value<'static>
    ensures { value_seen result ≡ number_value number }
{
    match number {
        Some(number) => Value::Number(number),
        None => Value::Nothing,
    }
}

/// A word by its digits, where there is one.
fn digits_value(word: Option<Word>) -> Value<'static>
    ensures { value_seen result ≡ digits_value word }
{
    match word {
        Some(word) => Value::Digits(word.get()),
        None => Value::Nothing,
    }
}

/// The kind of a fault, where there is one.
fn fault_value(fault: Option<FaultKind>) -> Value<'static>
    ensures { value_seen result ≡ fault_value fault }
{
    match fault {
        Some(kind) => Value::Text(kind.name().as_bytes()),
        None => Value::Nothing,
    }
}

/// The place of a line's word or label. A line after the end line has no word, and its label names nothing.
fn place_told(known: &LineSurvey) -> Option<Address>
    ensures { result ≡ place_told known.now.fault known.now.place }
{
    match known.fault {
        Some(FaultKind::AfterEnd) => None,
        _ => known.place,
    }
}

/// What is known of a line.
#[tactic(auto, unfolding(crate::specs::SourceData::line_record))]
fn line_record(line: &Line, known: &LineSurvey) -> [Field<'static>; 11]
    ensures { fields_seen result ≡ line_record (line_seen line.now) known.now }
{
    [
        (b"line", Value::Number(line.number)),
        (b"label", span_value(line.label)),
        (b"operation", span_value(line.operation)),
        (b"operands", spans_value(line.operands)),
        (b"comment", comment_value(line.text)),
        (b"declared", number_value(known.declared)),
        (b"place", place_value(&place_told(known))),
        (b"digits", digits_value(known.word)),
        (b"fault", fault_value(known.fault)),
        (b"at", part_value(fault_part(known.fault, line))),
        (b"first", number_value(known.first)),
    ]
}

/// A line that is missing: its number and its fault.
#[tactic(auto, unfolding(crate::specs::SourceData::missing_record))]
fn missing_record(number: u64, known: &LineSurvey) -> [Field<'static>; 2]
    ensures { fields_seen result ≡ missing_record number known.now }
{
    [
        (b"line", Value::Number(number)),
        (b"fault", fault_value(known.fault)),
    ]
}

/// Appends the record of the next line, or of one that is missing.
fn push_next<A: Allocator>(
    text: &mut Vec<u8, A>,
    form: RecordForm,
    number: u64,
    lines: &mut Lines,
    known: &LineSurvey,
) -> Result<(), AllocError>
    ensures lines { lines.new ≡ drop 1 lines.old }
    ensures text { OnOk result (text.new.items ≡ text.old.items ++ record_in form
        (next_record number lines.old known.now)) }
{
    match lines.next() {
        Some(line) => push_record(text, form, &line_record(&line, known)),
        None => push_record(text, form, &missing_record(number, known)),
    }
}

/// Appends the records of lines, with what is known of each.
#[tactic(auto, unfolding(crate::specs::SourceData::source_lines_in))]
fn push_source_lines<A: Allocator>(
    text: &mut Vec<u8, A>,
    form: RecordForm,
    source: &[u8],
    surveys: &[LineSurvey],
) -> Result<(), AllocError>
    ensures { OnOk result (text.new.items ≡ text.old.items
        ++ source_lines_in form 1 (lines_of source.now) surveys.now) }
{
    let mut lines = Lines::new(source);
    for (place, known) in surveys.iter().enumerate() {
        push_next(text, form, place as u64 + 1, &mut lines, known)?;
    }
    Ok(())
}

/// Appends the lines of a source as records in a form, also while the source has faults; where it has no end line, a record of that line comes last.
#[tactic(auto, unfolding(crate::specs::SourceData::source_in))]
pub fn push_source_data<A: Allocator + Copy>(
    alloc: A,
    text: &mut Vec<u8, A>,
    form: RecordForm,
    source: &[u8],
) -> Result<(), AllocError>
    ensures { OnOk result (text.new.items ≡ text.old.items ++ source_in form source.now) }
{
    let surveys = survey(alloc, source)?;
    push_source_lines(text, form, source, &surveys)
}
