//! The allocator.

use crate::counts::{Counts, refuses, takes_back};
use std::alloc::{AllocError, Allocator};
use std::cell::Cell;

/// An allocator that passes each call on to another one, and refuses one growth.
///
/// A `&` to it is the allocator that a test hands on. A growth is a call of `allocate`: that of a
/// new block, or of a larger or smaller one in place of a block. What was allocated goes back to
/// the other allocator, whichever growth is refused.
#[derive(Drop)]
pub struct Limited<B: Allocator> {
    inner: B,
    counts: Cell<Counts>,
}

impl<B: Allocator> Limited<B> {
    /// Refuses nothing, before `refuse` says what.
    pub fn new(inner: B) -> Limited<B> {
        Limited {
            inner,
            counts: Cell::new(Counts::none()),
        }
    }

    /// Refuses the nth growth from now on, once, and no other; 0 refuses none. It takes the place
    /// of what was asked for earlier.
    pub fn refuse(&self, nth: u64) {
        self.counts.set(self.counts.get().refusing(nth));
    }

    /// Whether a growth was refused since `refuse` was called last.
    pub fn was_refused(&self) -> bool {
        self.counts.get().has_refused()
    }

    /// How many blocks were handed out and have not come back. A call that is refused and has lost none leaves as many out as
    /// there were, and so does one whose result is dropped. A growth that the other allocator refuses is counted as a block.
    pub fn blocks_out(&self) -> u64 {
        self.counts.get().out()
    }
}

unsafe impl<B: Allocator> Allocator for Limited<B> {
    ghost dealloc_token = { λ limited ty ptr. B.dealloc_token limited.inner ty ptr };

    fn allocate(&self, size: usize, align: usize) -> Result<*mut u8, AllocError> {
        if refuses(&self.counts) {
            return Err(AllocError);
        }
        self.inner.allocate(size, align)
    }

    unsafe fn deallocate(&self, ptr: *mut u8, size: usize, align: usize) {
        takes_back(&self.counts);
        self.inner.deallocate(ptr, size, align);
    }
}
