//! A line of text is put together of pieces.

ghost use Rattle.std.specs.Prelude.{◌≡◌, ◌++◌, OnOk, decimal};
ghost use Rattle.lgp_text.specs.Pieces.{piece_text, pieces_text};

use itoa::Buffer;
use lgp_word::{Address, write_bits};
use std::alloc::{AllocError, Allocator};

/// A piece of a line.
#[derive(Clone, Copy)]
pub enum Piece<'a> {
    /// The bytes as they are.
    Text(&'a [u8]),
    /// A number in decimal.
    Number(u64),
    /// An address as `ttss`.
    Place(Address),
    /// 32 bits as eight digits.
    Digits(u32),
}

/// Appends a number in decimal.
pub fn push_decimal<A: Allocator>(text: &mut Vec<u8, A>, number: u64) -> Result<(), AllocError>
    ensures { OnOk result (text.new.items ≡ text.old.items ++ decimal number) }
{
    let mut buffer = Buffer::new();
    text.extend_from_slice(buffer.format(number).as_bytes())
}

/// Appends a piece.
fn push_piece<A: Allocator>(text: &mut Vec<u8, A>, piece: &Piece) -> Result<(), AllocError>
    ensures { OnOk result (text.new.items ≡ text.old.items ++ piece_text piece.now) }
{
    match *piece {
        Piece::Text(bytes) => text.extend_from_slice(bytes),
        Piece::Number(number) => push_decimal(text, number),
        Piece::Place(address) => text.extend_from_slice(&address.print()),
        Piece::Digits(bits) => text.extend_from_slice(&write_bits(bits)),
    }
}

/// Appends pieces one after another.
pub fn push_pieces<A: Allocator>(text: &mut Vec<u8, A>, pieces: &[Piece]) -> Result<(), AllocError>
    ensures { OnOk result (text.new.items ≡ text.old.items ++ pieces_text pieces.now) }
{
    for piece in pieces {
        push_piece(text, piece)?;
    }
    Ok(())
}
