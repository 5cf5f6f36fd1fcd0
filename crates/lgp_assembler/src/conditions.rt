//! The conditions of the table of faults.

ghost use Rattle.std.specs.Prelude.{◌≡◌};
ghost use Rattle.std.specs.Option.{option_copied, option_map_or};
ghost use Rattle.lgp_assembler.specs.Faults as spec;
ghost use Rattle.lgp_assembler.specs.Operations.{least_operands, most_operands};
ghost use Rattle.lgp_assembler.specs.Parts.{is_loaders};
ghost use Rattle.lgp_assembler.specs.FieldsSeenInside.{fields_seen};
ghost use Rattle.lgp_assembler.specs.ScanInside.{rows};

use crate::address_operands::is_name;
use crate::line_fields::Fields;
use crate::name_table::{NameValues, Names};
use crate::operands::{Meaning, OperandFault, meaning_of};
use crate::operations::Operation;
use crate::output::{DRUM_SIZE, LOADER_PLACES};
use crate::passes::Scan;
use crate::refusal::FaultKind;
use std::alloc::Allocator;

/// Whether a line has a label or an operation.
fn says_something(fields: &Fields) -> bool
    ensures { result ≡ spec.says_something (fields_seen fields.now) }
{
    fields.label.is_some() || fields.has_operation
}

/// The most operands that a line may have.
fn most_allowed(operation: Option<Operation>) -> usize
    ensures { result ≡ option_map_or most_operands operation 2 }
{
    match operation {
        Some(operation) => operation.most_operands(),
        None => 2,
    }
}

/// The least operands that a line has to have.
fn least_needed(operation: Option<Operation>) -> usize
    ensures { result ≡ option_map_or least_operands operation 0 }
{
    match operation {
        Some(operation) => operation.least_operands(),
        None => 0,
    }
}

/// Whether a label is not in its form.
fn is_bad_label(label: Option<&[u8]>) -> bool
    ensures { result ≡ spec.is_bad_label (option_copied label.entry) }
{
    match label {
        Some(label) => !is_name(label),
        None => false,
    }
}

/// Whether a label is among the names of the lines before.
fn is_label_again<A: Allocator>(label: Option<&[u8]>, names: &Names<A>) -> bool
    ensures { result ≡ spec.is_label_again (option_copied label.entry) names.now }
{
    match label {
        Some(label) => names.value(label).is_some(),
        None => false,
    }
}

/// Whether operands are not in their form.
fn is_misformed(meaning: &Result<Meaning, OperandFault>) -> bool
    ensures { result ≡ spec.is_misformed meaning.now }
{
    matches!(meaning, Err(OperandFault::Misformed))
}

/// Whether operands name what no line has as its label.
fn is_unknown(meaning: &Result<Meaning, OperandFault>) -> bool
    ensures { result ≡ spec.is_unknown meaning.now }
{
    matches!(meaning, Err(OperandFault::Unknown))
}

/// Whether operands stand for a value that does not fit.
fn is_out_of_range(meaning: &Result<Meaning, OperandFault>) -> bool
    ensures { result ≡ spec.is_out_of_range meaning.now }
{
    matches!(meaning, Err(OperandFault::Outside))
}

/// Whether a place is one of the loader's.
fn is_loaders(place: u64) -> bool
    ensures { result ≡ is_loaders place }
{
    LOADER_PLACES.contains(&place)
}

/// What the operands of a line stand for.
pub fn line_meaning<A: Allocator>(
    names: &Names<A>,
    place: u64,
    fields: &Fields,
) -> Result<Meaning, OperandFault>
    ensures { result ≡ spec.line_meaning names.now place (fields_seen fields.now) }
{
    match fields.operation {
        Some(operation) => meaning_of(names, place, operation, fields.first, fields.second),
        None => Ok(Meaning::Nothing),
    }
}

/// The kind of the first row whose condition holds.
fn first_kind(rows: &[(bool, FaultKind)]) -> Option<FaultKind>
    ensures { result ≡ spec.first_kind rows.now }
{
    rows.iter().find(|row| row.0).map(|row| row.1)
}

/// The fault of the line that comes, by its place, whether that is taken, and what its operands
/// stand for.
pub fn fault_of<'a, A: Allocator>(
    scan: &Scan<'a, A>,
    fields: &Fields<'a>,
    place: u64,
    is_taken: bool,
    meaning: &Result<Meaning, OperandFault>,
) -> Option<FaultKind>
    ensures { let line = fields_seen fields.now in
        result ≡ spec.first_kind
        (rows line meaning.now place scan.now.ended scan.now.names is_taken) }
{
    let has_word = fields.has_word();
    first_kind(&[
        (fields.is_bad, FaultKind::BadByte),
        (scan.ended && says_something(fields), FaultKind::AfterEnd),
        (
            most_allowed(fields.operation) < fields.count,
            FaultKind::Extra,
        ),
        (is_bad_label(fields.label), FaultKind::BadLabel),
        (
            is_label_again(fields.label, &scan.names),
            FaultKind::LabelTwice,
        ),
        (
            fields.has_operation && fields.operation.is_none(),
            FaultKind::UnknownOrder,
        ),
        (
            fields.count < least_needed(fields.operation),
            FaultKind::MissingOperand,
        ),
        (is_misformed(meaning), FaultKind::BadOperand),
        (is_unknown(meaning), FaultKind::UnknownName),
        (is_out_of_range(meaning), FaultKind::OutOfRange),
        (has_word && place >= DRUM_SIZE, FaultKind::PastEnd),
        (has_word && is_loaders(place), FaultKind::InLoader),
        (has_word && is_taken, FaultKind::PlaceTaken),
    ])
}
