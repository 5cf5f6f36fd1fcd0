//! Tapes that are ready to be read.

ghost use Rattle.std.specs.Prelude.{◌≡◌, ◌≤◌, ◌↔◌, Err, IfOk, IfSome, false, length};
ghost use Rattle.lgp_assembler.specs.Parts.{AreProgramCells, HaveOwnPlaces};
ghost use Rattle.lgp_loader.specs.BlockLoading.{cut_load, longest_load, orders_for};
ghost use Rattle.lgp_loader.specs.BlockPlaces.{block_loader_words};
ghost use Rattle.lgp_loader.specs.Cutting.{is_cutting};
ghost use Rattle.lgp_loader.specs.Loading.{load_with};
ghost use Rattle.lgp_loader.specs.ReadyInside.{GoesThrough, LeavesProgram};
ghost use Rattle.lgp_loader.specs.SingleLoading.{single_load};
ghost use Rattle.lgp_loader.specs.SinglePlaces.{single_loader_words};
ghost use Rattle.lgp_word.specs.Address.{IsAddress};

use crate::cutting::{Cell, count_longest};
use crate::tape::{CutFault, single_tape_of, tape_cut, tape_of};
use lgp_assembler::Image;
use lgp_flexo::Code;
use std::alloc::{AllocError, Allocator};

/// A tape for a loader, and how many orders the loader performs to read it.
#[derive(Drop)]
pub(crate) struct Reading<A: Allocator> {
    pub tape: Vec<Code, A>,
    pub orders: u64,
}

/// The cells of an image.
fn program_cells<A: Allocator>(image: &Image<A>) -> &[Cell]
    ensures cells { result.now ≡ image.now.cells }
    ensures few { length image.now.cells ≤ 4096 }
    ensures program { AreProgramCells image.now.cells }
    ensures places { HaveOwnPlaces image.now.cells }
    ensures start { IfSome image.now.start IsAddress }
{
    // That a start is an address is what the clause of this call says.
    let _ = image.start();
    image.cells()
}

/// How many orders the loader performs for a given number of words in a given number of blocks.
fn orders_for(words: usize, blocks: usize) -> u64
    requires few { words ≤ 4096 }
    requires fewer { blocks ≤ 4096 }
    ensures { result ≡ orders_for words blocks }
{
    10 * words as u64 + 8 * blocks as u64 + 5
}

/// The tape of an image in the longest blocks.
pub(crate) fn in_longest<A: Allocator + Copy, B: Allocator>(
    alloc: A,
    image: &Image<B>,
) -> Result<Reading<A>, AllocError>
    ensures tape { IfOk result (λ reading. reading.tape.items ≡ (longest_load image.now).codes) }
    ensures orders { IfOk result (λ reading. reading.orders ≡ (longest_load image.now).orders) }
    ensures ready { IfOk result (λ reading.
        GoesThrough (load_with block_loader_words reading.tape.items reading.orders)) }
    ensures program { IfOk result (λ reading. LeavesProgram
        (load_with block_loader_words reading.tape.items reading.orders) image.now.cells) }
{
    let cells = program_cells(image);
    let orders = orders_for(cells.len(), count_longest(cells));
    let tape = tape_of(alloc, image)?;
    Ok(Reading { tape, orders })
}

/// The tape of an image in blocks of a given number of words each.
#[tactic(auto, using(crate::proofs::Loads::few_counts))]
pub(crate) fn in_cut<A: Allocator + Copy, B: Allocator>(
    alloc: A,
    image: &Image<B>,
    counts: &[usize],
) -> Result<Reading<A>, CutFault>
    ensures tape { IfOk result (λ reading.
        reading.tape.items ≡ (cut_load image.now counts.now).codes) }
    ensures orders { IfOk result (λ reading.
        reading.orders ≡ (cut_load image.now counts.now).orders) }
    ensures ready { IfOk result (λ reading.
        GoesThrough (load_with block_loader_words reading.tape.items reading.orders)) }
    ensures program { IfOk result (λ reading. LeavesProgram
        (load_with block_loader_words reading.tape.items reading.orders) image.now.cells) }
    ensures bad_cut { (result ≡ Err CutFault.BadCut)
        ↔ (is_cutting counts.now image.now.cells ≡ false) }
{
    let tape = tape_cut(alloc, image, counts)?;
    Ok(Reading {
        tape,
        orders: orders_for(program_cells(image).len(), counts.len()),
    })
}

/// The tape of an image cell by cell.
pub(crate) fn in_single<A: Allocator + Copy, B: Allocator>(
    alloc: A,
    image: &Image<B>,
) -> Result<Reading<A>, AllocError>
    ensures tape { IfOk result (λ reading. reading.tape.items ≡ (single_load image.now).codes) }
    ensures orders { IfOk result (λ reading. reading.orders ≡ (single_load image.now).orders) }
    ensures ready { IfOk result (λ reading.
        GoesThrough (load_with single_loader_words reading.tape.items reading.orders)) }
    ensures program { IfOk result (λ reading. LeavesProgram
        (load_with single_loader_words reading.tape.items reading.orders) image.now.cells) }
{
    let orders = 8 * program_cells(image).len() as u64 + 5;
    let tape = single_tape_of(alloc, image)?;
    Ok(Reading { tape, orders })
}
