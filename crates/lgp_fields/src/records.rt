//! Records in one of the two forms.

ghost use Rattle.std.specs.Prelude.{◌≡◌, ◌≤◌, ◌++◌, OnOk, codes, length};
ghost use Rattle.lgp_fields.specs.Printed.{record_in, record_json, record_lines};
ghost use Rattle.lgp_fields.specs.Seen.{fields_seen};

use crate::field::Field;
use crate::json::{push_joined_object, push_object};
use crate::lines::push_lines;
use std::alloc::{AllocError, Allocator};

/// The form of a reply for programs.
#[derive(Clone, Copy, Debug, PartialEq, Eq)]
pub enum RecordForm {
    /// A line for each field that has a value.
    Lines,
    /// An object of JSON for each record, on a line of its own.
    Objects,
}

/// Appends the object of a record as a line.
fn push_object_line<A: Allocator>(text: &mut Vec<u8, A>, fields: &[Field]) -> Result<(), AllocError>
    ensures { OnOk result (text.new.items
        ≡ text.old.items ++ (record_json (fields_seen fields.now) ++ codes "\n")) }
{
    push_object(text, fields)?;
    Ok(text.push(b'\n')?)
}

/// Appends the lines of a record whose fields come in three parts.
fn push_joined_lines<A: Allocator>(
    text: &mut Vec<u8, A>,
    front: &[Field],
    middle: &[Field],
    back: &[Field],
) -> Result<(), AllocError>
    ensures { OnOk result (text.new.items ≡ text.old.items ++ record_lines
        (fields_seen front.now ++ (fields_seen middle.now ++ fields_seen back.now))) }
{
    push_lines(text, front)?;
    push_lines(text, middle)?;
    push_lines(text, back)
}

/// Appends the object of a record whose fields come in three parts as a line.
fn push_joined_object_line<A: Allocator>(
    text: &mut Vec<u8, A>,
    front: &[Field],
    middle: &[Field],
    back: &[Field],
) -> Result<(), AllocError>
    requires { 1 ≤ length front.now }
    ensures { OnOk result (text.new.items ≡ text.old.items ++ (record_json
        (fields_seen front.now ++ (fields_seen middle.now ++ fields_seen back.now)) ++ codes "\n")) }
{
    push_joined_object(text, front, middle, back)?;
    Ok(text.push(b'\n')?)
}

/// Appends a record whose fields come in three parts.
#[tactic(auto, unfolding(crate::specs::Printed::record_in))]
pub fn push_joined<A: Allocator>(
    text: &mut Vec<u8, A>,
    form: RecordForm,
    front: &[Field],
    middle: &[Field],
    back: &[Field],
) -> Result<(), AllocError>
    requires { 1 ≤ length front.now }
    ensures { OnOk result (text.new.items ≡ text.old.items ++ record_in form
        (fields_seen front.now ++ (fields_seen middle.now ++ fields_seen back.now))) }
{
    match form {
        RecordForm::Lines => push_joined_lines(text, front, middle, back),
        RecordForm::Objects => push_joined_object_line(text, front, middle, back),
    }
}

/// Appends a record in a form.
#[tactic(auto, unfolding(crate::specs::Printed::record_in))]
pub fn push_record<A: Allocator>(
    text: &mut Vec<u8, A>,
    form: RecordForm,
    fields: &[Field],
) -> Result<(), AllocError>
    ensures { OnOk result (text.new.items
        ≡ text.old.items ++ record_in form (fields_seen fields.now)) }
{
    match form {
        RecordForm::Lines => push_lines(text, fields),
        RecordForm::Objects => push_object_line(text, fields),
    }
}
