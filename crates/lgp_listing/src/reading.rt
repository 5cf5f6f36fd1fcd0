//! The drum of a dump.

ghost use Rattle.std.specs.Prelude.{◌≡◌, ◌<◌, ◌+◌, ℕ, IfOk, IfErr, IfSome, IfNone, IsErrOf, MatchResult, None, List};
ghost use Rattle.lgp_word.specs.Drum.{blank_words};
ghost use Rattle.lgp_listing.specs.Dump as spec;

use bstr::ByteSlice;
use lgp_drum::Drum;
use lgp_word::{Address, Word, read_digits};
use std::alloc::{AllocError, Allocator};
use thiserror::Error;

/// Why a text is no drum's dump. Lines are counted from 1.
#[derive(Clone, Copy, Debug, PartialEq, Eq, Error)]
pub enum DumpFault {
    /// The line of this number is not an address, a space, the eight digits of a word that is not
    /// zero, and a line feed.
    #[error("line {0} is no line of a dump")]
    Form(u64),
    /// The address of the line of this number is not above that of the line before it.
    #[error("the address of line {0} is not above that of the line before it")]
    Order(u64),
    /// There was no memory for the drum.
    #[error("no memory for the drum")]
    Memory,
}

impl From<AllocError> for DumpFault {
    ghost use Rattle.std.specs.Prelude.{◌≡◌};
    ghost use Rattle.lgp_listing.specs.declared.reading.DumpFault.TheVariants.{Memory};

    ghost from_gives = { λ _ fault. fault ≡ Memory };

    fn from(_: AllocError) -> Self {
        DumpFault::Memory
    }
}

/// The address and the word of a line in form.
#[tactic(auto, unfolding(crate::specs::Dump::cell_in))]
fn cell_in(line: &[u8]) -> Option<(Address, Word)>
    ensures { result ≡ spec.cell_in line.now }
{
    if line.len() != 14 || line[4] != b' ' || line[13] != b'\n' {
        return None;
    }
    match (Address::parse(&line[..4]), read_digits(&line[5..13])) {
        (Some(address), Some(word)) if word.get() != 0 => Some((address, word)),
        _ => None,
    }
}

/// The first fault of a text.
fn first_fault(text: &[u8]) -> Option<DumpFault>
    ensures { result ≡ spec.first_fault text.now }
{
    let mut number = 0;
    let mut least = 0;
    for line in text.lines_with_terminator() {
        number += 1;
        let Some(cell) = cell_in(line) else {
            return Some(DumpFault::Form(number));
        };
        let address = cell.0.number();
        if address < least {
            return Some(DumpFault::Order(number));
        }
        least = address + 1;
    }
    None
}

/// Puts the words of a text that has no fault on a drum of zeros.
fn put_lines<A: Allocator>(drum: &mut Drum<A>, text: &[u8])
    requires faultless { spec.first_fault text.now ≡ None }
    requires blank { drum.old ≡ blank_words }
    ensures dump { spec.dump_of drum.new ≡ text.now }
    ensures drum { spec.IsDrum drum.new }
{
    for line in text.lines_with_terminator() {
        if let Some(cell) = cell_in(line) {
            drum.put(cell.0, cell.1);
        }
    }
}

/// The drum whose dump a text is. Else `Form` or `Order` of the first faulty line; the form is
/// asked first. `Memory` only where no line is faulty.
pub fn read_dump<A: Allocator + Copy>(alloc: A, text: &[u8]) -> Result<Drum<A>, DumpFault>
    ensures drum { IfOk result (λ drum. spec.dump_of drum ≡ text.now) }
    ensures words { IfOk result (λ drum. spec.IsDrum drum) }
    ensures reads { (words : List ℕ) → spec.IsDrum words → text.now ≡ spec.dump_of words
        → MatchResult result (λ drum. drum ≡ words) (λ fault. fault ≡ DumpFault.Memory) }
    ensures faulty { IfSome (spec.first_fault text.now) (λ fault. IsErrOf result fault) }
    ensures faultless { IfNone (spec.first_fault text.now)
        (IfErr result (λ fault. fault ≡ DumpFault.Memory)) }
{
    if let Some(fault) = first_fault(text) {
        return Err(fault);
    }
    let mut drum = Drum::new(alloc)?;
    put_lines(&mut drum, text);
    Ok(drum)
}
