//! The pieces of the lines that tell of activities.

ghost use Rattle.std.specs.Prelude.{◌≡◌, ◌++◌, OnOk, codes};
ghost use Rattle.lgp_trace.specs.Columns.{left_aligned};
ghost use Rattle.lgp_trace.specs.PhrasesInside.{phrase_text, phrases_text};

use crate::account_lines::{push_performed, push_place, push_word};
use crate::columns::push_blanks_after;
use crate::labels::Labels;
use crate::origin_lines::push_lost;
use crate::profile_lines::push_turns;
use lgp_text::push_decimal;
use lgp_word::{Address, Word};
use std::alloc::{AllocError, Allocator};

/// A piece of a line.
#[derive(Clone, Copy)]
pub(crate) enum Phrase<'a> {
    /// The bytes as they are.
    Text(&'a [u8]),
    /// One byte.
    Byte(u8),
    /// A number in decimal.
    Number(u64),
    /// An address with its label.
    Place(Address),
    /// A word as the order that is performed.
    Order(Word),
    /// A word by its digits, as the order that it is, if it is one, and as a number.
    Word(Word),
    /// A lost word.
    Lost(Word),
    /// Word times in turns of the drum.
    Turns(u64),
}

/// Appends a piece.
#[tactic(auto, unfolding(crate::specs::PhrasesInside::phrase_text))]
fn push_phrase<L: Labels, A: Allocator>(
    text: &mut Vec<u8, A>,
    phrase: &Phrase,
    labels: &L,
) -> Result<(), AllocError>
    ensures { OnOk result (text.new.items
        ≡ text.old.items ++ phrase_text (L.label labels.now) phrase.now) }
{
    match *phrase {
        Phrase::Text(bytes) => text.extend_from_slice(bytes),
        Phrase::Byte(byte) => Ok(text.push(byte)?),
        Phrase::Number(number) => push_decimal(text, number),
        Phrase::Place(address) => push_place(text, address, labels),
        Phrase::Order(word) => push_performed(text, word, labels),
        Phrase::Word(word) => push_word(text, word, labels),
        Phrase::Lost(word) => push_lost(text, word, labels),
        Phrase::Turns(times) => push_turns(text, times),
    }
}

/// Appends pieces one after another.
pub(crate) fn push_phrases<L: Labels, A: Allocator>(
    text: &mut Vec<u8, A>,
    phrases: &[Phrase],
    labels: &L,
) -> Result<(), AllocError>
    ensures { OnOk result (text.new.items
        ≡ text.old.items ++ phrases_text (L.label labels.now) phrases.now) }
{
    for phrase in phrases {
        push_phrase(text, phrase, labels)?;
    }
    Ok(())
}

/// Appends a piece at the left of a column.
#[tactic(auto, using(crate::proofs::TextLemmas::columns))]
pub(crate) fn push_column<L: Labels, A: Allocator>(
    text: &mut Vec<u8, A>,
    width: u64,
    phrase: &Phrase,
    labels: &L,
) -> Result<(), AllocError>
    ensures { OnOk result (text.new.items ≡ text.old.items
        ++ left_aligned width (phrase_text (L.label labels.now) phrase.now)) }
{
    let begins = text.len();
    push_phrase(text, phrase, labels)?;
    push_blanks_after(text, width, begins)
}
