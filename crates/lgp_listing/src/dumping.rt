//! The dump of a drum.

ghost use Rattle.std.specs.Prelude.{◌≡◌, ◌++◌, ◌<◌, ◌+◌, ℕ, List, IfOk, OnOk, slice_index, length, count_by};
ghost use Rattle.lgp_word.specs.Word.{IsWord};
ghost use Rattle.lgp_word.specs.Drum.{drum_size};
ghost use Rattle.lgp_listing.specs.Dump as spec;

use lgp_drum::Drum;
use lgp_word::{Address, Word, write_digits};
use std::alloc::{AllocError, Allocator};

/// What has the words of a drum: a drum, or who lends its words one by one.
pub trait DrumWords {
    /// The words by address.
    ghost words: { Self → List ℕ };

    /// The word at an address.
    fn word_at(&self, address: Address) -> Word
        ensures word { result ≡ slice_index (words self.now) address }
        ensures drum { length (words self.now) ≡ drum_size };
}

impl<A: Allocator> DrumWords for Drum<A> {
    ghost words = { λ drum. drum };

    fn word_at(&self, address: Address) -> Word {
        self.word(address)
    }
}

/// Appends the line of an address and its word: the address, a space and the eight digits.
pub fn push_cell_line<A: Allocator>(
    text: &mut Vec<u8, A>,
    address: Address,
    word: Word,
) -> Result<(), AllocError>
    ensures { OnOk result (text.new.items ≡ text.old.items ++ spec.cell_line address word) }
{
    text.extend_from_slice(&address.print())?;
    text.push(b' ')?;
    text.extend_from_slice(&write_digits(word))?;
    text.push(b'\n')?;
    Ok(())
}

/// Appends the line of a word, if it has one, and says whether it has.
fn push_word<A: Allocator>(
    text: &mut Vec<u8, A>,
    address: Address,
    word: Word,
) -> Result<bool, AllocError>
    ensures text { OnOk result (text.new.items ≡ text.old.items ++ spec.word_line address word) }
    ensures used { IfOk result (λ used. used ≡ spec.is_used word) }
    ensures word { OnOk result (IsWord word) }
{
    if word.get() == 0 {
        return Ok(false);
    }
    push_cell_line(text, address, word)?;
    Ok(true)
}

/// Appends the dump of a drum's words: for each word that is not zero, in order of addresses, its
/// line. The result is how many lines that are.
pub fn push_dump<A: Allocator, W: DrumWords>(
    text: &mut Vec<u8, A>,
    words: &W,
) -> Result<u64, AllocError>
    ensures text { OnOk result
        (text.new.items ≡ text.old.items ++ spec.dump_of (W.words words.now)) }
    ensures count { IfOk result (λ count. count ≡ count_by spec.is_used (W.words words.now)) }
    ensures drum { OnOk result (spec.IsDrum (W.words words.now)) }
{
    let mut count = 0;
    for number in 0..4096 {
        let address = Address::new(number).unwrap();
        count += u64::from(push_word(text, address, words.word_at(address))?);
    }
    Ok(count)
}

/// The dump of a drum: for each word that is not zero, in order of addresses, a line of its
/// address, a space and its eight digits. `read_dump` reads it back.
pub fn dump<A: Allocator, B: Allocator>(alloc: A, drum: &Drum<B>) -> Result<Vec<u8, A>, AllocError>
    ensures text { IfOk result (λ text. text.items ≡ spec.dump_of drum.now) }
    ensures drum { OnOk result (spec.IsDrum drum.now) }
{
    let mut text = Vec::new(alloc);
    push_dump(&mut text, drum)?;
    Ok(text)
}
