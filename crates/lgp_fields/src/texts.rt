//! The values that are texts.

ghost use Rattle.std.specs.Prelude.{◌≡◌, ◌++◌, OnOk, decimal};
ghost use Rattle.lgp_text.specs.Pieces.{piece_text, pieces_text};
ghost use Rattle.lgp_fields.specs.Escaped.{escaped};
ghost use Rattle.lgp_fields.specs.Seen.{label_text, order_text};
ghost use Rattle.lgp_word.specs.Digits.{address_digits, digits_of};

use crate::escaped::push_escaped;
use itoa::Buffer;
use lgp_text::Piece;
use lgp_word::{Address, write_bits};
use std::alloc::{AllocError, Allocator};

/// Appends 32 bits as eight digits, each of which is written as itself.
pub(crate) fn push_bits<A: Allocator>(text: &mut Vec<u8, A>, bits: u32) -> Result<(), AllocError>
    ensures { OnOk result (text.new.items ≡ text.old.items ++ escaped (digits_of bits)) }
{
    text.extend_from_slice(&write_bits(bits))
}

/// Appends a number's digits as a text.
fn push_digits<A: Allocator>(text: &mut Vec<u8, A>, number: u64) -> Result<(), AllocError>
    ensures { OnOk result (text.new.items ≡ text.old.items ++ escaped (decimal number)) }
{
    let mut buffer = Buffer::new();
    push_escaped(text, buffer.format(number).as_bytes())
}

/// Appends the text of a piece.
fn push_piece<A: Allocator>(text: &mut Vec<u8, A>, piece: &Piece) -> Result<(), AllocError>
    ensures { OnOk result (text.new.items ≡ text.old.items ++ escaped (piece_text piece.now)) }
{
    match *piece {
        Piece::Text(bytes) => push_escaped(text, bytes),
        Piece::Number(number) => push_digits(text, number),
        Piece::Place(address) => push_escaped(text, &address.print()),
        Piece::Digits(bits) => push_bits(text, bits),
    }
}

/// Appends the text of pieces.
pub(crate) fn push_escaped_pieces<A: Allocator>(
    text: &mut Vec<u8, A>,
    pieces: &[Piece],
) -> Result<(), AllocError>
    ensures { OnOk result (text.new.items ≡ text.old.items ++ escaped (pieces_text pieces.now)) }
{
    for piece in pieces {
        push_piece(text, piece)?;
    }
    Ok(())
}

/// Appends a label after an address, if it is not empty.
#[tactic(auto, unfolding(crate::specs::Seen::label_text))]
fn push_escaped_label<A: Allocator>(text: &mut Vec<u8, A>, label: &[u8]) -> Result<(), AllocError>
    ensures { OnOk result (text.new.items ≡ text.old.items ++ escaped (label_text label.now)) }
{
    if label.is_empty() {
        return Ok(());
    }
    text.push(b' ')?;
    push_escaped(text, label)
}

/// Appends an address with its label.
pub(crate) fn push_escaped_labelled<A: Allocator>(
    text: &mut Vec<u8, A>,
    address: Address,
    label: &[u8],
) -> Result<(), AllocError>
    ensures { OnOk result (text.new.items
        ≡ text.old.items ++ escaped (address_digits address ++ label_text label.now)) }
{
    push_escaped(text, &address.print())?;
    push_escaped_label(text, label)
}

/// Appends an order.
fn push_escaped_parts<A: Allocator>(
    text: &mut Vec<u8, A>,
    minus: bool,
    letter: u8,
    address: Address,
) -> Result<(), AllocError>
    ensures { OnOk result (text.new.items
        ≡ text.old.items ++ escaped (order_text minus letter address)) }
{
    if minus {
        text.push(b'-')?;
    }
    let [a, b, c, d] = address.print();
    push_escaped(text, &[letter, b' ', a, b, c, d])
}

/// Appends an order with its label.
pub(crate) fn push_escaped_order<A: Allocator>(
    text: &mut Vec<u8, A>,
    minus: bool,
    letter: u8,
    address: Address,
    label: &[u8],
) -> Result<(), AllocError>
    ensures { OnOk result (text.new.items ≡ text.old.items
        ++ escaped (order_text minus letter address ++ label_text label.now)) }
{
    push_escaped_parts(text, minus, letter, address)?;
    push_escaped_label(text, label)
}
