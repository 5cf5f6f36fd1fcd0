//! A line as the assembler sees it.

ghost use Rattle.std.specs.Prelude.{◌≡◌, ◌<◌, false};
ghost use Rattle.std.specs.Option.{option_copied, option_map, option_map_or};
ghost use Rattle.lgp_source.specs.Seen.{line_seen, token_seen};
ghost use Rattle.lgp_assembler.specs.Fields as spec;
ghost use Rattle.lgp_assembler.specs.FieldsSeenInside.{fields_seen};
ghost use Rattle.lgp_assembler.specs.Operations.{makes_word};
ghost use Rattle.lgp_assembler.specs.Places as places;

use crate::operations::{Operation, operation_of};
use lgp_source::{Line, Token};

/// A line as the assembler sees it.
#[derive(Clone, Copy)]
pub struct Fields<'a> {
    pub number: u64,
    /// Whether a byte of it is bad; it has no tokens then.
    pub is_bad: bool,
    pub label: Option<&'a [u8]>,
    /// Whether it has a token for its operation.
    pub has_operation: bool,
    /// The operation, where that token names one.
    pub operation: Option<Operation>,
    pub first: Option<&'a [u8]>,
    pub second: Option<&'a [u8]>,
    /// How many operands it has; 3 stands for more than two.
    pub count: usize,
}

/// The text of a token.
fn token_text<'a>(token: Option<Token<'a>>) -> Option<&'a [u8]>
    ensures { option_copied result
        ≡ option_map spec.token_text (option_map token_seen token.entry) }
{
    match token {
        Some(token) => Some(token.text),
        None => None,
    }
}

/// The operation that a token names.
fn token_operation(token: Option<Token>) -> Option<Operation>
    ensures { result ≡ spec.token_operation (option_map token_seen token.entry) }
{
    match token {
        Some(token) => operation_of(token.text),
        None => None,
    }
}

/// The first or the second operand of a line.
#[tactic(auto, using(crate::proofs::FieldReads::operand_read))]
fn operand<'a>(line: &Line<'a>, place: usize) -> Option<&'a [u8]>
    requires { place < 2 }
    ensures { option_copied result ≡ spec.operand_at (line_seen line.now) place }
{
    let token = line.operands[place];
    token_text(token)
}

/// How many operands a line has; 3 stands for more than two.
fn operand_count(line: &Line) -> usize
    ensures { result ≡ spec.operand_count (line_seen line.now) }
{
    if line.extra {
        return 3;
    }
    if operand(line, 1).is_some() {
        return 2;
    }
    if operand(line, 0).is_some() {
        return 1;
    }
    0
}

/// The fields of a line.
#[tactic(auto, unfolding(crate::specs::Fields::fields_of))]
pub fn fields_of<'a>(line: &Line<'a>) -> Fields<'a>
    ensures { fields_seen result ≡ spec.fields_of (line_seen line.now) }
{
    Fields {
        number: line.number,
        is_bad: line.bad_byte.is_some(),
        label: token_text(line.label),
        has_operation: line.operation.is_some(),
        operation: token_operation(line.operation),
        first: operand(line, 0),
        second: operand(line, 1),
        count: operand_count(line),
    }
}

/// Whether there is an operation that makes a word.
fn makes_word(operation: Option<Operation>) -> bool
    ensures { result ≡ option_map_or makes_word operation false }
{
    match operation {
        Some(operation) => operation.makes_word(),
        None => false,
    }
}

impl<'a> Fields<'a> {
    /// Whether the line's operation makes a word, whatever else is wrong with the line.
    pub fn has_word(&self) -> bool
        ensures { result ≡ places.has_word (fields_seen self.now) }
    {
        makes_word(self.operation)
    }
}

/// Whether a line's operation makes a word: an order, `-t`, `word`, `frac` or `int`, whatever else
/// is wrong with the line. In a source without a fault these are the lines that have a cell.
#[tactic(auto, unfolding(crate::specs::Fields::fields_of))]
pub fn has_word(line: &Line) -> bool
    ensures { result ≡ places.has_word (spec.fields_of (line_seen line.now)) }
{
    makes_word(token_operation(line.operation))
}
