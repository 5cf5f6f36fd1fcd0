//! The drum of what SIMH shows.

ghost use Rattle.std.specs.Prelude.{◌≡◌, ◌==◌, ◌&&◌, nat_eq, IfOk, IfErr, IfSome, IfNone, IsErrOf, None, codes, length, map, slice_index};
ghost use Rattle.std.specs.List.{starts_with};
ghost use Rattle.std.specs.Str.{byte};
ghost use Rattle.std.specs.Char.{to_ascii_lowercase};
ghost use Rattle.lgp_word.specs.Digits.{word_of_digits};
ghost use Rattle.lgp_exchange.specs.Examined as spec;

use bstr::ByteSlice;
use lgp_drum::Drum;
use lgp_word::{Address, Word, read_digits};
use std::alloc::{AllocError, Allocator};
use thiserror::Error;

/// Why a text was not read as the words of a drum. Lines are counted from 1.
#[derive(Clone, Copy, Debug, PartialEq, Eq, Error)]
pub enum ExaminedFault {
    /// The line of this number is neither a line of `ex -lt` nor a command `d -lt`.
    #[error("line {0} is neither a word that SIMH shows nor one that it is given")]
    Form(u64),
    /// The address of the line of this number is not above that of the line before it.
    #[error("the address of line {0} is not above that of the line before it")]
    Order(u64),
    /// There was no memory for the drum.
    #[error("no memory for the drum")]
    Memory,
}

impl From<AllocError> for ExaminedFault {
    ghost use Rattle.std.specs.Prelude.{◌≡◌};
    ghost use Rattle.lgp_exchange.specs.declared.examined.ExaminedFault.TheVariants.{Memory};

    ghost from_gives = { λ _ fault. fault ≡ Memory };

    fn from(_: AllocError) -> Self {
        ExaminedFault::Memory
    }
}

/// The word of eight digits, capital or small.
fn word_of(digits: &[u8]) -> Option<Word>
    requires { length digits.now ≡ 8 }
    ensures { result ≡ word_of_digits (map to_ascii_lowercase digits.now) }
{
    let mut small = [0; 8];
    small.copy_from_slice(digits);
    small.make_ascii_lowercase();
    read_digits(&small)
}

/// The address and the word of these texts.
fn cell_of(address: &[u8], digits: &[u8]) -> Option<(Address, Word)>
    requires { length digits.now ≡ 8 }
    ensures { result ≡ spec.cell_of address.now digits.now }
{
    match (Address::parse(address), word_of(digits)) {
        (Some(address), Some(word)) => Some((address, word)),
        _ => None,
    }
}

/// Whether a line has the form of those that SIMH shows.
fn is_shown(line: &[u8]) -> bool
    ensures { result ≡ (length line.now == 14 && slice_index line.now 4 == byte ":"
        && slice_index line.now 5 == 9) }
{
    line.len() == 14 && line[4] == b':' && line[5] == b'\t'
}

/// The address and the word of a line that SIMH shows.
#[tactic(auto, unfolding(crate::specs::Examined::shown_cell))]
fn shown_cell(line: &[u8]) -> Option<(Address, Word)>
    ensures { result ≡ spec.shown_cell line.now }
{
    if !is_shown(line) {
        return None;
    }
    cell_of(&line[..4], &line[6..])
}

/// Whether a line has the form of the commands that SIMH is given.
fn is_given(line: &[u8]) -> bool
    ensures { result ≡ (length line.now == 19 && starts_with nat_eq line.now (codes "d -lt ")
        && slice_index line.now 10 == byte " ") }
{
    line.len() == 19 && line.starts_with(b"d -lt ") && line[10] == b' '
}

/// The address and the word of a command that SIMH is given.
#[tactic(auto, unfolding(crate::specs::Examined::given_cell))]
fn given_cell(line: &[u8]) -> Option<(Address, Word)>
    ensures { result ≡ spec.given_cell line.now }
{
    if !is_given(line) {
        return None;
    }
    cell_of(&line[6..10], &line[11..])
}

/// The address and the word of a line in form, without its line feed.
#[tactic(auto, unfolding(crate::specs::Examined::cell_in))]
fn cell_in(line: &[u8]) -> Option<(Address, Word)>
    ensures { result ≡ spec.cell_in line.now }
{
    shown_cell(line).or(given_cell(line))
}

/// The first fault of a text.
fn first_fault(text: &[u8]) -> Option<ExaminedFault>
    ensures { result ≡ spec.first_fault text.now }
{
    let mut number = 0;
    let mut least = 0;
    for line in text.lines() {
        number += 1;
        let Some(cell) = cell_in(line) else {
            return Some(ExaminedFault::Form(number));
        };
        let address = cell.0.number();
        if address < least {
            return Some(ExaminedFault::Order(number));
        }
        least = address + 1;
    }
    None
}

/// Puts the words of the lines of a text.
fn put_lines<A: Allocator>(drum: &mut Drum<A>, text: &[u8])
    ensures { drum.new ≡ spec.words_after drum.old (spec.lines_in text.now) }
{
    for line in text.lines() {
        if let Some(cell) = cell_in(line) {
            drum.put(cell.0, cell.1);
        }
    }
}

/// The drum that SIMH's `ex -lt` shows, or that its commands `d -lt` put. Each line is `ttss:`, a tab and eight digits, or
/// `d -lt ttss` and eight digits; digits are capital or small; a carriage return at its end does not count, and the last line
/// may lack its line feed. Words without a line are zero. Else `Form` or `Order` of the first faulty line; the form is asked first.
/// `Memory` only where no line is faulty.
pub fn read_examined<A: Allocator + Copy>(alloc: A, text: &[u8]) -> Result<Drum<A>, ExaminedFault>
    ensures drum { IfOk result (λ drum. drum ≡ spec.words_of text.now) }
    ensures faulty { IfSome (spec.first_fault text.now) (λ fault. IsErrOf result fault) }
    ensures faultless { IfNone (spec.first_fault text.now)
        (IfErr result (λ fault. fault ≡ ExaminedFault.Memory)) }
{
    if let Some(fault) = first_fault(text) {
        return Err(fault);
    }
    let mut drum = Drum::new(alloc)?;
    put_lines(&mut drum, text);
    Ok(drum)
}
