//! The operations of the source language.

ghost use Rattle.std.specs.Prelude.{◌≡◌};
ghost use Rattle.lgp_assembler.specs.Operations as spec;

use lgp_word::Op;

/// What a line does.
#[derive(Clone, Copy)]
pub enum Operation {
    /// An order.
    Order(Op),
    /// The order t with a minus.
    MinusT,
    /// The place becomes an address.
    Org,
    /// A word given by its digits.
    Word,
    /// The word of a fraction.
    Frac,
    /// The word of an integer and the place of its point.
    Int,
    /// The end of the source.
    End,
}

/// The operation of an order's letter.
fn letter_operation(text: &[u8]) -> Option<Operation>
    ensures { result ≡ spec.letter_operation text.now }
{
    if text.len() != 1 {
        return None;
    }
    match Op::of_letter(text[0]) {
        Some(op) => Some(Operation::Order(op)),
        None => None,
    }
}

/// The operation that a token names, if it is in the table.
#[tactic(auto, unfolding(crate::specs::Operations::operation_of))]
pub fn operation_of(text: &[u8]) -> Option<Operation>
    ensures { result ≡ spec.operation_of text.now }
{
    if text == b"org".as_slice() {
        return Some(Operation::Org);
    }
    if text == b"word".as_slice() {
        return Some(Operation::Word);
    }
    if text == b"frac".as_slice() {
        return Some(Operation::Frac);
    }
    if text == b"int".as_slice() {
        return Some(Operation::Int);
    }
    if text == b"end".as_slice() {
        return Some(Operation::End);
    }
    if text == b"-t".as_slice() {
        return Some(Operation::MinusT);
    }
    letter_operation(text)
}

impl Operation {
    /// How many operands it needs.
    pub fn least_operands(self) -> usize
        ensures { result ≡ spec.least_operands self }
    {
        match self {
            Operation::Order(Op::Z | Op::I | Op::P) | Operation::End => 0,
            Operation::Int => 2,
            _ => 1,
        }
    }

    /// How many operands it takes.
    pub fn most_operands(self) -> usize
        ensures { result ≡ spec.most_operands self }
    {
        match self {
            Operation::Int => 2,
            _ => 1,
        }
    }

    /// Whether it makes one word.
    pub fn makes_word(self) -> bool
        ensures { result ≡ spec.makes_word self }
    {
        !matches!(self, Operation::Org | Operation::End)
    }
}
