//! What is never given back.
ghost use base.Fml.{ftrue};
ghost use Rattle.std.specs.Prelude.{◌≡◌};

use crate::parts::BoxParts;
use std::alloc::{AllocError, Allocator};

/// An allocator that has no memory, and loses what it is given back: for boxes whose memory was handed over for good.
#[derive(Clone, Copy)]
pub struct Unfreed;

unsafe impl Allocator for Unfreed {
    ghost dealloc_token = { λ _ _ _. ftrue };

    fn allocate(&self, _size: usize, _align: usize) -> Result<*mut u8, AllocError> {
        Err(AllocError)
    }

    unsafe fn deallocate(&self, _ptr: *mut u8, _size: usize, _align: usize) {}
}

impl<T, A: Allocator + Copy> BoxParts<T, A> {
    /// The same parts, whose block is never given back to its allocator.
    pub fn unfreed(self) -> BoxParts<T, Unfreed>
        ensures { result.value ≡ self.value }
    {
        let BoxParts { at, alloc: _alloc } = self;
        BoxParts { at, alloc: Unfreed }
    }
}

/// Keeps a boxed value for good: its block is never given back to its allocator.
pub fn for_good<T, A: Allocator + Copy>(whole: Box<T, A>) -> Box<T, Unfreed>
where
    T: Drop,
    ensures { result.value ≡ whole.value }
{
    BoxParts::of(whole).unfreed().into_box()
}
