//! What operands stand for.

ghost use Rattle.std.specs.Prelude.{◌≡◌, IsTrue};
ghost use Rattle.std.specs.Option.{option_copied};
ghost use Rattle.lgp_assembler.specs.Operands as spec;

use crate::address_operands::{address_operand, in_range};
use crate::name_table::NameValues;
use crate::numbers::{fraction_word, integer_word};
use crate::operations::Operation;
use lgp_flexo::code_of;
use lgp_word::{Address, Op, Order, Word, encode, read_digits};

/// Why operands stand for nothing. Of several reasons the first in this order is reported.
#[derive(Clone, Copy, Debug, PartialEq, Eq)]
pub enum OperandFault {
    /// Not in their form.
    Misformed,
    /// A name that no line has.
    Unknown,
    /// A value that does not fit.
    Outside,
}

/// What the operands of a line stand for.
#[derive(Clone, Copy)]
pub enum Meaning {
    /// The line's word.
    Cell(Word),
    /// The address of an `org` or the start of an `end`.
    Place(Address),
    /// No operand is needed.
    Nothing,
}

/// The word of an order with what its operand stands for.
fn cell_of_order(
    minus: bool,
    op: Op,
    operand: Result<Address, OperandFault>,
) -> Result<Meaning, OperandFault>
    requires { IsTrue minus → op ≡ Op.T }
    ensures { result ≡ spec.cell_of_order minus op operand }
{
    match operand {
        Ok(address) => Ok(Meaning::Cell(encode(Order { minus, op, address }))),
        Err(fault) => Err(fault),
    }
}

/// The p that prints the sign after an `=`.
fn sign_operand(op: Op, text: &[u8]) -> Result<Meaning, OperandFault>
    ensures { result ≡ spec.sign_operand op text.now }
{
    if !matches!(op, Op::P) || text.len() != 2 {
        return Err(OperandFault::Misformed);
    }
    let Some(code) = code_of(char::from(text[1])) else {
        return Err(OperandFault::Misformed);
    };
    let number = 64 * u64::from(code.number());
    cell_of_order(false, Op::P, in_range(number))
}

/// What the operand of an order stands for.
#[tactic(auto, unfolding(crate::specs::Operands::order_operand))]
fn order_operand<N: NameValues>(
    names: &N,
    place: u64,
    minus: bool,
    op: Op,
    text: &[u8],
) -> Result<Meaning, OperandFault>
    requires { IsTrue minus → op ≡ Op.T }
    ensures { result ≡ spec.order_operand (N.values names.now) place minus op text.now }
{
    if !text.is_empty() && text[0] == b'=' {
        return sign_operand(op, text);
    }
    cell_of_order(minus, op, address_operand(names, place, text))
}

/// What the operands of a line stand for, in its place and with the names of the source.
#[tactic(auto, unfolding(crate::specs::Operands::meaning_of))]
pub fn meaning_of<N: NameValues>(
    names: &N,
    place: u64,
    operation: Operation,
    first: Option<&[u8]>,
    second: Option<&[u8]>,
) -> Result<Meaning, OperandFault>
    ensures { result ≡ spec.meaning_of (N.values names.now) place operation
        (option_copied first.entry) (option_copied second.entry) }
{
    match (operation, first, second) {
        (Operation::Order(op), None, _) => cell_of_order(false, op, in_range(0)),
        (Operation::Order(op), Some(text), _) => order_operand(names, place, false, op, text),
        (Operation::MinusT, Some(text), _) => order_operand(names, place, true, Op::T, text),
        (Operation::Org, Some(text), _) => match Address::parse(text) {
            Some(address) => Ok(Meaning::Place(address)),
            None => Err(OperandFault::Misformed),
        },
        (Operation::Word, Some(text), _) => match read_digits(text) {
            Some(word) => Ok(Meaning::Cell(word)),
            None => Err(OperandFault::Misformed),
        },
        (Operation::Frac, Some(text), _) => fraction_word(text),
        (Operation::Int, Some(number), Some(point)) => integer_word(number, point),
        (Operation::End, None, _) => Ok(Meaning::Nothing),
        (Operation::End, Some(text), _) => match address_operand(names, place, text) {
            Ok(address) => Ok(Meaning::Place(address)),
            Err(fault) => Err(fault),
        },
        _ => Err(OperandFault::Misformed),
    }
}
