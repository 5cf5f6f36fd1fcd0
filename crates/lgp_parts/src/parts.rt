//! The parts of a box.
ghost use Rattle.std.specs.Prelude.{◌≡◌};
ghost use Rattle.std.specs.Box.Ownership.{box_owns};

use std::alloc::Allocator;
use std::marker::Model;

/// A box as its pointer and its allocator. It owns what the box owns.
///
/// Who drops it loses the value and its memory, so it is made a box again first.
#[derive(Drop)]
pub struct BoxParts<T, A: Allocator> {
    /// The place of the value.
    pub at: *mut T,
    /// The allocator of the value's block.
    pub alloc: A,
    /// The value.
    pub ghost value: { T },
}

impl<T, A: Allocator> Model for BoxParts<T, A> {
    ghost also_owns = { λ p. box_owns (A.dealloc_token p.alloc) T.row p.at p.value };
}

impl<T, A: Allocator> BoxParts<T, A> {
    /// Takes a box apart.
    pub fn of(whole: Box<T, A>) -> BoxParts<T, A>
    where
        T: Drop,
        ensures { result.value ≡ whole.value }
    {
        let (at, alloc) = Box::into_raw_with_allocator(whole);
        BoxParts { at, alloc }
    }

    /// Puts the box together again.
    pub fn into_box(self) -> Box<T, A>
        ensures { result.value ≡ self.value }
    {
        let BoxParts { at, alloc } = self;
        unsafe { Box::from_raw(alloc, at) }
    }
}
