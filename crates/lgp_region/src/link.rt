//! Chains in which freed blocks are kept.
ghost use Rattle.std.specs.Prelude.{◌≡◌, ◌^◌, ◌<◌, ◌≤◌, IfSome};
ghost use Rattle.lgp_region.specs.Room.{block_size, block_token};

use crate::block::Block;
use crate::memory::Memory;
use crate::shelf::{SHELVES, shelf, size_on};
use lgp_parts::{Unfreed, for_good};
use std::alloc::{AllocError, Allocator};
use std::cell::Cell;

/// How many bytes a link takes.
pub(crate) const LINK_ROOM: usize = 32;

/// A link of a chain, which holds a freed block, or no bytes.
#[derive(Drop)]
pub(crate) struct Link {
    pub(crate) held: Memory,
    next: Option<Box<Link, Unfreed>>,
}

/// Links one after another.
pub(crate) type Chain = Cell<Option<Box<Link, Unfreed>>>;

impl Link {
    /// A link that holds memory, made in a room that was handed over for good: `LINK_ROOM` bytes. Of others there is none.
    pub(crate) fn within(room: Memory, held: Memory) -> Option<Box<Link, Unfreed>> {
        let room = OneBlock {
            memory: Cell::new(Some(room)),
        };
        match Box::new(&room, Link { held, next: None }) {
            Ok(link) => Some(for_good(link)),
            Err(_) => None,
        }
    }
}

/// Takes the first link off a chain.
pub(crate) fn first_of(chain: &Chain) -> Option<Box<Link, Unfreed>> {
    let mut link = chain.take()?;
    chain.set(link.next.take());
    Some(link)
}

/// Puts a link in front of a chain.
pub(crate) fn put(chain: &Chain, mut link: Box<Link, Unfreed>) {
    link.next = chain.take();
    chain.set(Some(link));
}

/// An allocator of one block, and no memory any more when that is given out.
#[derive(Drop)]
pub(crate) struct OneBlock {
    memory: Cell<Option<Memory>>,
}

impl OneBlock {
    /// The block, if it was not given out and is the one for such a request.
    fn take(&self, size: usize, align: usize) -> Option<Block>
        ensures { IfSome result (λ block. (block.size ≡ block_size size)
            × (size ≤ block_size size) × (size < 2 ^ 63) × (align ≤ 16)) }
    {
        let shelf = shelf(size);
        if align > 16 || shelf >= SHELVES {
            return None;
        }
        let memory = self.memory.take()?;
        if memory.size == size_on(shelf) {
            Some(memory.block)
        } else {
            None
        }
    }
}

unsafe impl Allocator for OneBlock {
    ghost dealloc_token = { λ _. block_token };

    fn allocate(&self, size: usize, align: usize) -> Result<*mut u8, AllocError> {
        match self.take(size, align) {
            Some(Block { at }) => Ok(at),
            None => Err(AllocError),
        }
    }

    unsafe fn deallocate(&self, _ptr: *mut u8, _size: usize, _align: usize) {}
}
