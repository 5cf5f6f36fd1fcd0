//! The text of a word, as a source has it.

ghost use Rattle.std.specs.Prelude.{◌≡◌, ◌+◌, ◌≤◌, ◌++◌, codes, length};
ghost use Rattle.arrayvec.specs.ArrayVec.{array_vec_len};
ghost use Rattle.lgp_word.specs.Digits.{digits_of};
ghost use Rattle.lgp_listing.specs.Disassembly as spec;

use arrayvec::ArrayVec;
use lgp_word::{Order, Word, decode, write_digits};

/// Adds bytes for which there is room.
fn add(text: &mut ArrayVec<u8, 16>, bytes: &[u8])
    requires { array_vec_len text.old + length bytes.now ≤ 16 }
    ensures items { text.new.items ≡ text.old.items ++ bytes.now }
    ensures len { array_vec_len text.new ≡ array_vec_len text.old + length bytes.now }
{
    let _fits = text.try_extend_from_slice(bytes);
}

/// An order as a source has it.
fn order_text(order: Order) -> ArrayVec<u8, 16>
    ensures { result.items ≡ spec.order_text order }
{
    let mut text = ArrayVec::new();
    if order.minus {
        text.push(b'-');
    }
    text.push(order.op.letter());
    text.push(b' ');
    add(&mut text, &order.address.print());
    text
}

/// Any word as a source has it, by its digits.
fn digits_text(word: Word) -> ArrayVec<u8, 16>
    ensures { result.items ≡ codes "word " ++ digits_of word }
{
    let mut text = ArrayVec::new();
    add(&mut text, b"word ");
    add(&mut text, &write_digits(word));
    text
}

/// A word as an operation and its operand, as a source has them: the order that it is, such as
/// `-t 6308`, or else `word` and its eight digits.
#[tactic(auto, unfolding(crate::specs::Disassembly::disassembly))]
pub fn disassemble(word: Word) -> ArrayVec<u8, 16>
    ensures { result.items ≡ spec.disassembly word }
{
    match decode(word) {
        Some(order) => order_text(order),
        None => digits_text(word),
    }
}
