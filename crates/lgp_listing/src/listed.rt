//! The listing of a source.

ghost use Rattle.std.specs.Prelude.{◌≡◌, ◌≢◌, ◌++◌, [], IfOk, IfErr, OnOk};
ghost use Rattle.lgp_assembler.specs.Answers.{IfFaults};
ghost use Rattle.lgp_assembler.specs.Image.{faults_of, image_of};
ghost use Rattle.lgp_listing.specs.Listing as spec;

use lgp_assembler::{AssembleError, Image, assemble, has_word};
use lgp_source::Lines;
use lgp_word::{Address, Word, write_digits};
use std::alloc::{AllocError, Allocator};

/// Adds what comes before a line's text.
fn add_margin<A: Allocator>(
    text: &mut Vec<u8, A>,
    cell: Option<(Address, Word)>,
) -> Result<(), AllocError>
    ensures { OnOk result (text.new.items ≡ text.old.items ++ spec.margin cell) }
{
    let Some((address, word)) = cell else {
        return text.extend_from_slice(&[b' '; 14]);
    };
    text.extend_from_slice(&address.print())?;
    text.push(b' ')?;
    text.extend_from_slice(&write_digits(word))?;
    text.push(b' ')?;
    Ok(())
}

/// Adds a line of a listing.
fn add_line<A: Allocator>(
    text: &mut Vec<u8, A>,
    cell: Option<(Address, Word)>,
    line: &[u8],
) -> Result<(), AllocError>
    ensures { OnOk result (text.new.items ≡ text.old.items ++ spec.listed_line cell line.now) }
{
    add_margin(text, cell)?;
    text.extend_from_slice(line)?;
    text.push(b'\n')?;
    Ok(())
}

/// The listing of a source by the image that it assembles to: the place and the word's digits come
/// before each line that makes a word, and 14 spaces before any other.
pub fn listing_from_image<A: Allocator, B: Allocator>(
    alloc: A,
    source: &[u8],
    image: &Image<B>,
) -> Result<Vec<u8, A>, AllocError>
    requires faultless { faults_of source.now ≡ [] }
    requires image { image.now ≡ image_of source.now }
    ensures { IfOk result (λ text. text.items ≡ spec.listing_of source.now) }
{
    let mut cells = image.cells().iter().copied();
    let mut text = Vec::new(alloc);
    for line in Lines::new(source) {
        let cell = if has_word(&line) { cells.next() } else { None };
        add_line(&mut text, cell, line.text)?;
    }
    Ok(text)
}

/// The listing of a source that has no fault: its place and the word's digits come before each line
/// that makes a word, and 14 spaces before any other. The refusals are those of `assemble`.
pub fn listing<A: Allocator + Copy>(alloc: A, source: &[u8]) -> Result<Vec<u8, A>, AssembleError<A>>
    ensures text { IfOk result (λ text. text.items ≡ spec.listing_of source.now) }
    ensures faultless { OnOk result (faults_of source.now ≡ []) }
    ensures faults { IfErr result (λ error.
        IfFaults error (λ faults. faults ≡ faults_of source.now)) }
    ensures faulty { IfErr result (λ error. IfFaults error (λ faults. faults ≢ [])) }
{
    let image = assemble(alloc, source)?;
    let text = listing_from_image(alloc, source, &image)?;
    Ok(text)
}
