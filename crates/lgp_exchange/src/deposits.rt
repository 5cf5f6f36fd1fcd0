//! The words of a drum as commands to SIMH.

ghost use Rattle.std.specs.Prelude.{◌≡◌, ◌++◌, IfOk, OnOk};
ghost use Rattle.lgp_word.specs.Word.{IsWord};
ghost use Rattle.lgp_listing.specs.Dump.{IsDrum};
ghost use Rattle.lgp_exchange.specs.Deposits as spec;

use lgp_listing::{DrumWords, push_cell_line};
use lgp_word::{Address, Word};
use std::alloc::{AllocError, Allocator};

/// Appends the deposit of a word at its address.
fn push_line<A: Allocator>(
    text: &mut Vec<u8, A>,
    address: Address,
    word: Word,
) -> Result<(), AllocError>
    ensures { OnOk result (text.new.items ≡ text.old.items ++ spec.deposit_line address word) }
{
    text.extend_from_slice(b"d -lt ")?;
    push_cell_line(text, address, word)
}

/// Appends the deposit of a word, if it has one.
fn push_word<A: Allocator>(
    text: &mut Vec<u8, A>,
    address: Address,
    word: Word,
) -> Result<(), AllocError>
    ensures text { OnOk result (text.new.items ≡ text.old.items ++ spec.used_deposit address word) }
    ensures word { OnOk result (IsWord word) }
{
    if word.get() == 0 {
        return Ok(());
    }
    push_line(text, address, word)
}

/// Appends the commands by which SIMH's simulator `lgp` puts a drum's words: for each word that is not zero, in order of
/// addresses, `d -lt`, the address, the word's eight digits and a line feed. SIMH's own drum has to be one of zeros.
pub fn push_deposits<A: Allocator, W: DrumWords>(
    text: &mut Vec<u8, A>,
    words: &W,
) -> Result<(), AllocError>
    ensures text { OnOk result (text.new.items
        ≡ text.old.items ++ spec.deposits_of (W.words words.now)) }
    ensures drum { OnOk result (IsDrum (W.words words.now)) }
{
    for number in 0..4096 {
        let address = Address::new(number).unwrap();
        push_word(text, address, words.word_at(address))?;
    }
    Ok(())
}

/// The commands by which SIMH puts a drum's words, as `push_deposits` appends them. `read_examined` reads them back.
pub fn deposits_of<A: Allocator, W: DrumWords>(
    alloc: A,
    words: &W,
) -> Result<Vec<u8, A>, AllocError>
    ensures text { IfOk result (λ text. text.items ≡ spec.deposits_of (W.words words.now)) }
    ensures drum { OnOk result (IsDrum (W.words words.now)) }
{
    let mut text = Vec::new(alloc);
    push_deposits(&mut text, words)?;
    Ok(text)
}
