//! What is wrong with a word of a line that is in no command's form.

ghost use Rattle.std.specs.Prelude.{◌≡◌, ◌++◌, OnOk, is_none};
ghost use Rattle.lgp_word.specs.Digits.{word_of_digits};
ghost use Rattle.lgp_monitor.specs.Mistakes.{address_mistake, are_digits, are_word_digits, has_capital, has_l_or_o, is_beyond_63, is_order_with_digits, is_word_digit, meant_text, misformed_address, mistake_text, number_mistake, said_of, takes_numbers, takes_place, value_mistake};

use lgp_assembler::OperandFault;
use lgp_text::{Piece, push_pieces};
use lgp_word::{Op, read_decimal, read_digits};
use std::alloc::{AllocError, Allocator};

/// What is wrong with a word of a line.
#[derive(Clone, Copy)]
pub enum Mistake {
    /// It has a capital letter.
    Capital,
    /// It should be an address, and has digits, but not four.
    Digits,
    /// It should be an address, and there is no such track.
    Track,
    /// It should be an address, and there is no such sector.
    Sector,
    /// It should be an address, and is not written as one.
    Address,
    /// It is no label of the last source.
    Label,
    /// The address lies beyond the drum.
    Drum,
    /// No blank is between an order and its address.
    Blank,
    /// It has `l` or `o`, which are 1 and 0 on a tape alone.
    LetterDigit,
    /// It is the digits of an odd number.
    Odd,
    /// It begins with `=`, and no space is after that.
    Equals,
    /// It is a plain number.
    Number,
    /// It comes after `=`, and is no whole number that fits.
    Whole,
    /// It is `int` without all of its operands.
    Point,
    /// It is no value.
    Value,
}

/// What is said of a word, after it.
fn mistake_text(mistake: Mistake) -> &'static [u8]
    ensures { result.now ≡ mistake_text mistake }
{
    match mistake {
        Mistake::Capital => b" has a capital letter; only small letters are accepted",
        Mistake::Digits =>
            b" is not an address: it needs two digits for the track and two for the sector",
        Mistake::Track => b" is not an address: tracks run from 00 to 63",
        Mistake::Sector => b" is not an address: sectors run from 00 to 63",
        Mistake::Address =>
            b" is not an address: write a label, or a track and a sector, each from 00 to 63",
        Mistake::Label => b" is not a label in the last source",
        Mistake::Drum => b" is not on the drum",
        Mistake::Blank => b" needs a space between the order and its address",
        Mistake::LetterDigit => b" has l or o, which mean 1 and 0 only on a tape",
        Mistake::Odd => b" is odd, but the last bit of a word is always 0",
        Mistake::Equals => b" needs a space after the =",
        Mistake::Number => b" is a plain number, not eight digits: did you mean = ",
        Mistake::Whole =>
            b" is not a whole number that fits with its point; write a fraction without =",
        Mistake::Point => b" needs a number and the place of its point, as in int 5 30",
        Mistake::Value => b" is not eight digits, a fraction or an operation",
    }
}

/// Whether a word has a capital letter.
pub(crate) fn has_capital(word: &[u8]) -> bool
    ensures { result ≡ has_capital word.now }
{
    word.iter().any(|byte| byte.is_ascii_uppercase())
}

/// Whether a word is digits, 18 at most.
fn are_digits(word: &[u8]) -> bool
    ensures { result ≡ are_digits word.now }
{
    read_decimal(word, 18).is_some()
}

/// Whether two digits are a number above 63.
fn is_beyond_63(digits: &[u8]) -> bool
    ensures { result ≡ is_beyond_63 digits.now }
{
    match read_decimal(digits, 2) {
        Some(number) => number > 63,
        None => false,
    }
}

/// What is wrong with a word that is in no address's form.
fn misformed_address(word: &[u8]) -> Mistake
    ensures { result ≡ misformed_address word.now }
{
    if has_capital(word) {
        return Mistake::Capital;
    }
    if !are_digits(word) {
        return Mistake::Address;
    }
    if word.len() != 4 {
        return Mistake::Digits;
    }
    if is_beyond_63(&word[..2]) {
        Mistake::Track
    } else {
        Mistake::Sector
    }
}

/// What is wrong with a word that should be an address.
pub(crate) fn address_mistake(fault: OperandFault, word: &[u8]) -> Mistake
    ensures { result ≡ address_mistake fault word.now }
{
    match fault {
        OperandFault::Misformed => misformed_address(word),
        OperandFault::Unknown => Mistake::Label,
        OperandFault::Outside => Mistake::Drum,
    }
}

/// Whether a word is an order's letter with digits after it.
fn is_order_with_digits(word: &[u8]) -> bool
    ensures { result ≡ is_order_with_digits word.now }
{
    match word {
        [letter, digits @ ..] => Op::of_letter(*letter).is_some() && are_digits(digits),
        [] => false,
    }
}

/// Whether a word has `l` or `o`.
fn has_l_or_o(word: &[u8]) -> bool
    ensures { result ≡ has_l_or_o word.now }
{
    word.iter().any(|byte| *byte == b'l' || *byte == b'o')
}

/// Whether a byte is a digit of a word.
#[tactic(auto, unfolding(crate::specs::Mistakes::is_word_digit))]
fn is_word_digit(byte: u8) -> bool
    ensures { result ≡ is_word_digit byte }
{
    byte.is_ascii_digit() || matches!(byte, b'f' | b'g' | b'j' | b'k' | b'q' | b'w')
}

/// Whether all bytes of a word are digits of one.
fn are_word_digits(word: &[u8]) -> bool
    ensures { result ≡ are_word_digits word.now }
{
    word.iter().all(|byte| is_word_digit(*byte))
}

/// Whether eight digits are those of an odd number.
fn is_odd(digits: &[u8]) -> bool
    ensures { result ≡ is_none (word_of_digits digits.now) }
{
    match read_digits(digits) {
        Some(_) => false,
        None => true,
    }
}

/// What is wrong with a word that is no value of `put`.
pub(crate) fn value_mistake(word: &[u8]) -> Mistake
    ensures { result ≡ value_mistake word.now }
{
    if has_capital(word) {
        return Mistake::Capital;
    }
    if is_order_with_digits(word) {
        return Mistake::Blank;
    }
    if word.len() == 8 && has_l_or_o(word) {
        return Mistake::LetterDigit;
    }
    if word.len() == 8 && are_word_digits(word) && is_odd(word) {
        return Mistake::Odd;
    }
    number_mistake(word)
}

/// What is wrong with a word that is none of the words with which a value may begin.
fn number_mistake(word: &[u8]) -> Mistake
    ensures { result ≡ number_mistake word.now }
{
    if are_digits(word) {
        return Mistake::Number;
    }
    match word {
        [b'=', ..] => Mistake::Equals,
        _ => Mistake::Value,
    }
}

/// Whether a word is an operation with an address.
pub(crate) fn takes_place(word: &[u8]) -> bool
    ensures { result ≡ takes_place word.now }
{
    match word {
        [letter] => Op::of_letter(*letter).is_some(),
        _ => word == b"-t".as_slice(),
    }
}

/// Whether a word is an operation with other operands, or `=`.
pub(crate) fn takes_numbers(word: &[u8]) -> bool
    ensures { result ≡ takes_numbers word.now }
{
    word == b"=".as_slice()
        || word == b"word".as_slice()
        || word == b"frac".as_slice()
        || word == b"int".as_slice()
        || word == b"org".as_slice()
        || word == b"end".as_slice()
}

/// What a plain number may have been meant as, after the words that ask so.
fn push_meant<A: Allocator>(
    text: &mut Vec<u8, A>,
    word: &[u8],
    mistake: Mistake,
) -> Result<(), AllocError>
    ensures { OnOk result (text.new.items ≡ text.old.items ++ meant_text word.now mistake) }
{
    if !matches!(mistake, Mistake::Number) {
        return Ok(());
    }
    push_pieces(
        text,
        &[
            Piece::Text(word),
            Piece::Text(b" or ."),
            Piece::Text(word),
            Piece::Text(b"?"),
        ],
    )
}

/// Appends a word and what is wrong with it.
pub(crate) fn push_mistake<A: Allocator>(
    text: &mut Vec<u8, A>,
    word: &[u8],
    mistake: Mistake,
) -> Result<(), AllocError>
    ensures { OnOk result (text.new.items ≡ text.old.items ++ said_of word.now mistake) }
{
    text.extend_from_slice(word)?;
    text.extend_from_slice(mistake_text(mistake))?;
    push_meant(text, word, mistake)
}
