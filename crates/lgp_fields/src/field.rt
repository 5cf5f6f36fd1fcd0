//! A field of a record: a key and a plain value.

use lgp_text::Piece;
use lgp_word::Address;

/// A plain value.
#[derive(Clone, Copy)]
pub enum Value<'a> {
    /// No value: such a field has no line, and `null` in JSON.
    Nothing,
    /// A number.
    Number(u64),
    /// Whether a number is below zero, and the number without its sign.
    Signed(bool, u64),
    /// Yes or no.
    YesNo(bool),
    /// A number of up to 128 bits.
    Wide(&'a u128),
    /// Numbers in their order.
    Numbers(&'a [u64]),
    /// Numbers of up to 128 bits in their order.
    WideNumbers(&'a [u128]),
    /// Where something begins, and where it has ended.
    Span(u64, u64),
    /// The same of two things, one after the other.
    Spans(u64, u64, u64, u64),
    /// A text.
    Text(&'a [u8]),
    /// A text of one byte.
    Byte(u8),
    /// The text of pieces, one after another.
    Pieces(&'a [Piece<'a>]),
    /// 32 bits as eight digits.
    Digits(u32),
    /// An address as `ttss`.
    Place(Address),
    /// The same and a label, if that is not empty.
    Labelled(Address, &'a [u8]),
    /// An order: whether it has a minus, its letter and its address.
    Order(bool, u8, Address),
    /// The same and a label, if that is not empty.
    LabelledOrder(bool, u8, Address, &'a [u8]),
}

/// A key and its value. A key has no blanks.
pub type Field<'a> = (&'a [u8], Value<'a>);
