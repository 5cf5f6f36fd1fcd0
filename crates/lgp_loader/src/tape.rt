//! The tapes of a program.

ghost use Rattle.std.specs.Prelude.{◌≡◌, ◌++◌, [], ◌<◌, ◌≤◌, ◌↔◌, Err, IfOk, OnOk, false, length, map, true};
ghost use Rattle.std.specs.List.{concat};
ghost use Rattle.lgp_word.specs.Order.{};
ghost use Rattle.lgp_loader.specs.BlockLoading.{cut_load, longest_load};
ghost use Rattle.lgp_loader.specs.BlockTape.{block_codes, count_word, word_of_cell};
ghost use Rattle.lgp_loader.specs.Cutting.{is_cutting, longest_blocks, pieces_of};
ghost use Rattle.lgp_loader.specs.LoaderTape.{control_word, end_word, stopped_word};
ghost use Rattle.lgp_loader.specs.SingleTape.{cell_codes, single_tape_codes};

use crate::cutting::{Cell, first_block, is_cutting};
use lgp_assembler::Image;
use lgp_flexo::{Code, codes_of_word};
use lgp_word::{Address, Op, Word, plain_order};
use std::alloc::{AllocError, Allocator};
use thiserror::Error;

/// Why a tape is not cut.
#[derive(Clone, Copy, Debug, PartialEq, Eq, Error)]
pub enum CutFault {
    /// The numbers do not cut the program's words into blocks.
    #[error("these are not the lengths of blocks")]
    BadCut,
    #[error("out of memory for the tape")]
    Memory,
}

/// The order that stores a word.
fn control_word(place: Address) -> Word
    ensures { result ≡ control_word place }
{
    plain_order(Op::C, place)
}

/// The word that ends the tape of a program with this start.
fn end_word(start: Option<Address>) -> Word
    ensures { result ≡ end_word start }
{
    let Some(address) = start else {
        return Word { bits: 1 << 31 };
    };
    Word {
        bits: (1 << 31) + plain_order(Op::U, address).get(),
    }
}

/// The count of a given number of words that are left: the negative of four times as much.
fn count_word(words: usize) -> Word
    requires some { 0 < words }
    requires few { words ≤ 4096 }
    ensures { result ≡ count_word words }
{
    Word {
        bits: (4 * words as u32).wrapping_neg(),
    }
}

/// Punches a word and the conditional stop.
fn push_word<A: Allocator>(codes: &mut Vec<Code, A>, word: Word) -> Result<(), AllocError>
    ensures { OnOk result (codes.new.items ≡ codes.old.items ++ stopped_word word) }
{
    codes.extend_from_slice(&codes_of_word(word))?;
    codes.push(Code::STOP)?;
    Ok(())
}

/// Punches the words of cells.
fn push_words<A: Allocator>(codes: &mut Vec<Code, A>, block: &[Cell]) -> Result<(), AllocError>
    ensures { OnOk result (codes.new.items
        ≡ codes.old.items ++ concat (map word_of_cell block.now)) }
{
    for cell in block {
        push_word(codes, cell.1)?;
    }
    Ok(())
}

/// Punches a block: the order that stores its first word, its count, and its words.
fn push_block<A: Allocator>(codes: &mut Vec<Code, A>, block: &[Cell]) -> Result<(), AllocError>
    requires some { 0 < length block.now }
    requires few { length block.now ≤ 4096 }
    ensures { OnOk result (codes.new.items ≡ codes.old.items ++ block_codes block.now) }
{
    push_word(codes, control_word(block[0].0))?;
    push_word(codes, count_word(block.len()))?;
    push_words(codes, block)?;
    codes.push(Code::CARRIAGE_RETURN)?;
    Ok(())
}

/// Punches cells in the longest blocks.
fn push_longest<A: Allocator>(codes: &mut Vec<Code, A>, cells: &[Cell]) -> Result<(), AllocError>
    requires few { length cells.now ≤ 4096 }
    ensures { OnOk result (codes.new.items
        ≡ codes.old.items ++ concat (map block_codes (longest_blocks cells.now))) }
{
    let mut left = cells;
    while let Some((block, rest)) = first_block(left) {
        push_block(codes, block)?;
        left = rest;
    }
    Ok(())
}

/// Punches an image in the longest blocks, on an empty tape.
#[tactic(auto, unfolding(crate::specs::BlockTape::block_tape_codes))]
fn punch_longest<A: Allocator, B: Allocator>(
    codes: &mut Vec<Code, A>,
    image: &Image<B>,
) -> Result<(), AllocError>
    requires empty { codes.old.items ≡ [] }
    ensures { OnOk result (codes.new.items ≡ (longest_load image.now).codes) }
{
    push_longest(codes, image.cells())?;
    push_word(codes, end_word(image.start()))?;
    Ok(())
}

/// The tape of an image in the longest blocks: for each block the digits of the order that stores its first word, those of its
/// count and of each word, a conditional stop after each, and a carriage return; then the end word's digits and the conditional
/// stop. A block goes on while the next cell lies one place after the last.
pub fn tape_of<A: Allocator + Copy, B: Allocator>(
    alloc: A,
    image: &Image<B>,
) -> Result<Vec<Code, A>, AllocError>
    ensures tape { IfOk result (λ codes. codes.items ≡ (longest_load image.now).codes) }
{
    let mut codes = Vec::new(alloc);
    punch_longest(&mut codes, image)?;
    Ok(codes)
}

/// Punches cells in blocks of a given length.
fn push_blocks<A: Allocator>(
    codes: &mut Vec<Code, A>,
    counts: &[usize],
    cells: &[Cell],
) -> Result<(), AllocError>
    requires cutting { is_cutting counts.now cells.now ≡ true }
    requires few { length cells.now ≤ 4096 }
    ensures { OnOk result (codes.new.items
        ≡ codes.old.items ++ concat (map block_codes (pieces_of counts.now cells.now))) }
{
    let mut left = cells;
    for count in counts {
        let (block, rest) = left.split_at(*count);
        push_block(codes, block)?;
        left = rest;
    }
    Ok(())
}

/// Punches an image in blocks of a given number of cells each, on an empty tape.
#[tactic(auto, unfolding(crate::specs::BlockTape::block_tape_codes))]
fn punch_cut<A: Allocator, B: Allocator>(
    codes: &mut Vec<Code, A>,
    image: &Image<B>,
    counts: &[usize],
) -> Result<(), AllocError>
    requires empty { codes.old.items ≡ [] }
    requires cutting { is_cutting counts.now image.now.cells ≡ true }
    ensures { OnOk result (codes.new.items ≡ (cut_load image.now counts.now).codes) }
{
    push_blocks(codes, counts, image.cells())?;
    push_word(codes, end_word(image.start()))?;
    Ok(())
}

/// The tape of an image in blocks of a given number of cells each.
///
/// Refused, in this order: where the numbers do not cut the cells into blocks (`BadCut`), that is where one is 0, where they are
/// not as many as there are cells, or where the places of a block do not follow one another; where there is no memory for the tape
/// (`Memory`).
pub fn tape_cut<A: Allocator + Copy, B: Allocator>(
    alloc: A,
    image: &Image<B>,
    counts: &[usize],
) -> Result<Vec<Code, A>, CutFault>
    ensures tape { IfOk result (λ codes. codes.items ≡ (cut_load image.now counts.now).codes) }
    ensures bad_cut { (result ≡ Err CutFault.BadCut)
        ↔ (is_cutting counts.now image.now.cells ≡ false) }
{
    if !is_cutting(counts, image.cells()) {
        return Err(CutFault::BadCut);
    }
    let mut codes = Vec::new(alloc);
    if punch_cut(&mut codes, image, counts).is_err() {
        return Err(CutFault::Memory);
    }
    Ok(codes)
}

/// Punches a cell.
fn push_cell<A: Allocator>(codes: &mut Vec<Code, A>, cell: &Cell) -> Result<(), AllocError>
    ensures { OnOk result (codes.new.items ≡ codes.old.items ++ cell_codes cell.now) }
{
    push_word(codes, control_word(cell.0))?;
    push_word(codes, cell.1)?;
    codes.push(Code::CARRIAGE_RETURN)?;
    Ok(())
}

/// Punches cells one by one.
fn push_cells<A: Allocator>(codes: &mut Vec<Code, A>, cells: &[Cell]) -> Result<(), AllocError>
    ensures { OnOk result (codes.new.items
        ≡ codes.old.items ++ concat (map cell_codes cells.now)) }
{
    for cell in cells {
        push_cell(codes, cell)?;
    }
    Ok(())
}

/// Punches an image cell by cell, on an empty tape.
#[tactic(auto, unfolding(crate::specs::SingleTape::single_tape_codes))]
fn punch_single<A: Allocator, B: Allocator>(
    codes: &mut Vec<Code, A>,
    image: &Image<B>,
) -> Result<(), AllocError>
    requires empty { codes.old.items ≡ [] }
    ensures { OnOk result (codes.new.items ≡ single_tape_codes image.now) }
{
    push_cells(codes, image.cells())?;
    push_word(codes, end_word(image.start()))?;
    Ok(())
}

/// The tape of an image cell by cell, for the loader of ten words: for each cell the digits of the order that stores it, the
/// conditional stop, the word's digits, the conditional stop and a carriage return; then the end word's digits and the conditional
/// stop.
pub fn single_tape_of<A: Allocator + Copy, B: Allocator>(
    alloc: A,
    image: &Image<B>,
) -> Result<Vec<Code, A>, AllocError>
    ensures tape { IfOk result (λ codes. codes.items ≡ single_tape_codes image.now) }
{
    let mut codes = Vec::new(alloc);
    punch_single(&mut codes, image)?;
    Ok(codes)
}
