//! The word of one operation by itself.

ghost use Rattle.std.specs.Prelude.{◌≡◌};
ghost use Rattle.std.specs.Map.{lookup};
ghost use Rattle.std.specs.Option.{option_copied};
ghost use Rattle.std.specs.Str.{bytes_eq};
ghost use Rattle.lgp_assembler.specs.Patch as spec;

use crate::name_table::NameValues;
use crate::operands::{Meaning, OperandFault, meaning_of};
use crate::operations::{Operation, operation_of};
use crate::output::Name;
use lgp_word::Word;

/// How many operands there are.
fn operands_given(first: Option<&[u8]>, second: Option<&[u8]>) -> usize
    ensures { result
        ≡ spec.operands_given (option_copied first.entry) (option_copied second.entry) }
{
    match (first, second) {
        (None, _) => 0,
        (Some(_), None) => 1,
        (Some(_), Some(_)) => 2,
    }
}

impl Operation {
    /// Whether it takes a given number of operands.
    fn takes(self, count: usize) -> bool
        ensures { result ≡ spec.takes self count }
    {
        self.least_operands() <= count && count <= self.most_operands()
    }
}

/// The word that operands stand for.
fn word_meant(meaning: &Result<Meaning, OperandFault>) -> Result<Word, OperandFault>
    ensures { result ≡ spec.word_meant meaning.now }
{
    match meaning {
        Ok(Meaning::Cell(word)) => Ok(*word),
        Ok(_) => Err(OperandFault::Misformed),
        Err(fault) => Err(*fault),
    }
}

/// The word of an operation with its operands in a place, by the names of a source that is already
/// assembled. `Misformed` where there is no such operation, where it makes no word or takes another
/// number of operands, and where an operand is not in its form.
#[tactic(auto, unfolding(crate::specs::Patch::operation_word))]
pub fn operation_word<N: NameValues>(
    names: &N,
    place: u64,
    operation: &[u8],
    first: Option<&[u8]>,
    second: Option<&[u8]>,
) -> Result<Word, OperandFault>
    ensures { result ≡ spec.operation_word (N.values names.now) place operation.now
        (option_copied first.entry) (option_copied second.entry) }
{
    match operation_of(operation) {
        Some(operation) if operation.takes(operands_given(first, second)) => {
            word_meant(&meaning_of(names, place, operation, first, second))
        }
        _ => Err(OperandFault::Misformed),
    }
}

/// The names of an image with their values.
#[derive(Clone, Copy)]
pub struct Symbols<'a> {
    pub names: &'a [(Name, u16)],
}

impl NameValues for Symbols<'_> {
    ghost values = { λ symbols. symbols.names.now };

    fn value(&self, name: &[u8]) -> Option<u64> {
        value_in(self.names, name)
    }
}

/// The value of a name among some.
fn value_in(names: &[(Name, u16)], name: &[u8]) -> Option<u64>
    ensures { result ≡ lookup (bytes_eq name.now) names.now }
{
    for symbol in names {
        if name == symbol.0.bytes() {
            return Some(u64::from(symbol.1));
        }
    }
    None
}
