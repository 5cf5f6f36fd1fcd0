//! The cells of a program, cut into blocks.

ghost use Rattle.std.specs.Prelude.{◌≡◌, ◌+◌, ◌<◌, ◌≤◌, ◌∷◌, [], IfSome, MatchOption, length};
ghost use Rattle.lgp_loader.specs.Cutting.{follows, is_block, is_cutting, longest_blocks};

use lgp_word::{Address, Word};

/// A word and its place.
pub(crate) type Cell = (Address, Word);

/// Whether a cell lies one place after another.
pub(crate) fn follows(cell: &Cell, next: &Cell) -> bool
    ensures { result ≡ follows cell.now next.now }
{
    next.0.number() == cell.0.number() + 1
}

/// Whether cells are a block: one or more, each one place after the one before it.
fn is_block(cells: &[Cell]) -> bool
    ensures { result ≡ is_block cells.now }
{
    !cells.is_empty() && cells.is_sorted_by(follows)
}

/// The first of the longest blocks, and the cells after it; none where there are no cells.
pub(crate) fn first_block(cells: &[Cell]) -> Option<(&[Cell], &[Cell])>
    ensures parts { MatchOption result (cells.now ≡ [])
        (λ parts. longest_blocks cells.now ≡ parts.0.now ∷ longest_blocks parts.1.now) }
    ensures some { IfSome result (λ parts. 0 < length parts.0.now) }
    ensures lengths { IfSome result
        (λ parts. length parts.0.now + length parts.1.now ≡ length cells.now) }
{
    let block = cells.chunk_by(follows).next()?;
    Some(cells.split_at(block.len()))
}

/// How many blocks the longest ones are.
pub(crate) fn count_longest(cells: &[Cell]) -> usize
    ensures count { result ≡ length (longest_blocks cells.now) }
    ensures few { result ≤ length cells.now }
{
    cells.chunk_by(follows).count()
}

/// Whether the numbers cut the cells into blocks: as many cells as there are, and each piece a block.
pub(crate) fn is_cutting(counts: &[usize], cells: &[Cell]) -> bool
    ensures { result ≡ is_cutting counts.now cells.now }
{
    let mut left = cells;
    for count in counts {
        if *count > left.len() {
            return false;
        }
        let (block, rest) = left.split_at(*count);
        if !is_block(block) {
            return false;
        }
        left = rest;
    }
    left.is_empty()
}
