//! The places of the drum that are taken: words of the lines so far lie there.

ghost use Rattle.std.specs.Prelude.{◌≡◌, ℕ, false, true, slice_index_or, slice_set, IfOk, length};
ghost use Rattle.lgp_word.specs.Drum.{drum_size};

use crate::output::DRUM_SIZE;
use std::alloc::{AllocError, Allocator};

/// For each place of the drum whether it is taken: none is.
pub fn none_taken<A: Allocator>(alloc: A) -> Result<Vec<bool, A>, AllocError>
    ensures size { IfOk result (λ taken. length taken.items ≡ drum_size) }
    ensures clear { IfOk result (λ taken.
        (p : ℕ) → slice_index_or taken.items p false ≡ false) }
{
    vec![in alloc; false; DRUM_SIZE as usize]
}

/// Whether a place is taken.
pub fn is_taken(taken: &[bool], place: u64) -> bool
    ensures { result ≡ slice_index_or taken.now place false }
{
    let place = place as usize;
    place < taken.len() && taken[place]
}

/// Takes a place of the drum.
pub fn take_place(taken: &mut [bool], place: u64)
    ensures { taken.new ≡ slice_set taken.old place true }
{
    let place = place as usize;
    if place < taken.len() {
        taken[place] = true;
    }
}
