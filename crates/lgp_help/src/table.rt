//! Tables as records for programs.

ghost use Rattle.std.specs.Prelude.{◌≡◌, ◌++◌, OnOk, drop, map};
ghost use Rattle.bstr.specs.Text.{lines_of, without_terminator};
ghost use Rattle.std.specs.List.{position, position_or_len};
ghost use Rattle.lgp_fields.specs.Printed.{record_in};
ghost use Rattle.lgp_fields.specs.Seen.{value_seen};
ghost use Rattle.lgp_help.specs.Tables.{column_value, commands_text, fault_said, faults_text, first_column, is_bar, operations_text, other_columns, row_fields, row_said, rows_text, said_in, table_text};

use crate::tables::{COMMAND_KEYS, COMMANDS, FAULT_KEYS, FAULTS, OPERATION_KEYS, OPERATIONS};
use bstr::ByteSlice;
use lgp_fields::{RecordForm, Value, push_record};
use std::alloc::{AllocError, Allocator};

/// The place of the first bar.
fn bar_place(row: &[u8]) -> Option<usize>
    ensures { result ≡ position is_bar row.now }
{
    row.iter().position(|byte| *byte == b'|')
}

/// All that comes after the first byte.
fn after_first(row: &[u8]) -> &[u8]
    ensures { result.now ≡ drop 1 row.now }
{
    match row {
        [_, rest @ ..] => rest,
        [] => &[],
    }
}

/// The first column of a row, and the others.
#[derive(Clone, Copy)]
struct Columns<'a> {
    first: &'a [u8],
    others: &'a [u8],
}

/// Cuts a row at its first bar.
#[tactic(auto, using(lgp_stream::proofs::PlaceLemmas::places), unfolding(crate::specs::Tables::first_column, crate::specs::Tables::other_columns))]
fn columns_of(row: &[u8]) -> Columns<'_>
    ensures first { result.first.now ≡ first_column row.now }
    ensures others { result.others.now ≡ other_columns row.now }
{
    let (first, rest) = row.split_at(bar_place(row).unwrap_or(row.len()));
    Columns {
        first,
        others: after_first(rest),
    }
}

/// The value of a column.
#[tactic(auto, unfolding(crate::specs::Tables::column_value))]
fn value_of(column: &[u8]) -> Value<'_>
    ensures { value_seen result ≡ column_value column.now }
{
    if column.is_empty() {
        Value::Nothing
    } else {
        Value::Text(column)
    }
}

/// Appends the record of a row.
#[tactic(auto, unfolding(crate::specs::Tables::row_fields))]
fn push_row<A: Allocator>(
    text: &mut Vec<u8, A>,
    form: RecordForm,
    keys: &[u8],
    row: &[u8],
) -> Result<(), AllocError>
    ensures { OnOk result (text.new.items
        ≡ text.old.items ++ record_in form (row_fields keys.now row.now)) }
{
    let (key1, row1) = (columns_of(keys), columns_of(row));
    let (key2, row2) = (columns_of(key1.others), columns_of(row1.others));
    let (key3, row3) = (columns_of(key2.others), columns_of(row2.others));
    let (key4, row4) = (columns_of(key3.others), columns_of(row3.others));
    let (key5, row5) = (columns_of(key4.others), columns_of(row4.others));
    let (key6, row6) = (columns_of(key5.others), columns_of(row5.others));
    let (key7, row7) = (columns_of(key6.others), columns_of(row6.others));
    push_record(
        text,
        form,
        &[
            (key1.first, value_of(row1.first)),
            (key2.first, value_of(row2.first)),
            (key3.first, value_of(row3.first)),
            (key4.first, value_of(row4.first)),
            (key5.first, value_of(row5.first)),
            (key6.first, value_of(row6.first)),
            (key7.first, value_of(row7.first)),
        ],
    )
}

/// Appends the records of a table's rows.
#[tactic(auto, unfolding(crate::specs::Tables::rows_text))]
fn push_rows<A: Allocator>(
    text: &mut Vec<u8, A>,
    form: RecordForm,
    keys: &[u8],
    rows: &[u8],
) -> Result<(), AllocError>
    ensures { OnOk result (text.new.items ≡ text.old.items
        ++ rows_text form keys.now (map without_terminator (lines_of rows.now))) }
{
    for row in rows.lines() {
        push_row(text, form, keys, row)?;
    }
    Ok(())
}

/// Appends a record for each command.
#[tactic(auto, unfolding(crate::specs::Tables::commands_text))]
pub fn push_commands<A: Allocator>(
    text: &mut Vec<u8, A>,
    form: RecordForm,
) -> Result<(), AllocError>
    ensures { OnOk result (text.new.items ≡ text.old.items ++ commands_text form) }
{
    push_rows(text, form, &COMMAND_KEYS, &COMMANDS)
}

/// Appends a record for each operation of the source language.
#[tactic(auto, unfolding(crate::specs::Tables::operations_text))]
pub fn push_operations<A: Allocator>(
    text: &mut Vec<u8, A>,
    form: RecordForm,
) -> Result<(), AllocError>
    ensures { OnOk result (text.new.items ≡ text.old.items ++ operations_text form) }
{
    push_rows(text, form, &OPERATION_KEYS, &OPERATIONS)
}

/// Appends a record for each kind of fault.
#[tactic(auto, unfolding(crate::specs::Tables::faults_text))]
pub fn push_faults<A: Allocator>(text: &mut Vec<u8, A>, form: RecordForm) -> Result<(), AllocError>
    ensures { OnOk result (text.new.items ≡ text.old.items ++ faults_text form) }
{
    push_rows(text, form, &FAULT_KEYS, &FAULTS)
}

/// Appends what is wrong and what would be right, by a row of the table of faults.
fn push_row_said<A: Allocator>(text: &mut Vec<u8, A>, row: &[u8]) -> Result<(), AllocError>
    ensures { OnOk result (text.new.items ≡ text.old.items ++ row_said row.now) }
{
    let wrong = columns_of(columns_of(columns_of(columns_of(row).others).others).others);
    text.extend_from_slice(wrong.first)?;
    text.extend_from_slice(b": ")?;
    text.extend_from_slice(columns_of(wrong.others).first)
}

/// Appends the same by the first of some rows that has this name.
#[tactic(auto, unfolding(crate::specs::Tables::said_in))]
fn push_said_in<A: Allocator>(
    text: &mut Vec<u8, A>,
    rows: &[u8],
    name: &[u8],
) -> Result<(), AllocError>
    ensures { OnOk result (text.new.items ≡ text.old.items
        ++ said_in name.now (map without_terminator (lines_of rows.now))) }
{
    for row in rows.lines() {
        if columns_of(row).first == name {
            return push_row_said(text, row);
        }
    }
    Ok(())
}

/// Appends what is wrong where a source has a kind of fault, and what would be right; nothing if no kind has this name.
#[tactic(auto, unfolding(crate::specs::Tables::fault_said))]
pub fn push_fault_said<A: Allocator>(text: &mut Vec<u8, A>, name: &[u8]) -> Result<(), AllocError>
    ensures { OnOk result (text.new.items ≡ text.old.items ++ fault_said name.now) }
{
    push_said_in(text, &FAULTS, name)
}
