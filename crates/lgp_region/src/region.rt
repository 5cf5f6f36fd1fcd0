//! The allocator.
ghost use Rattle.std.specs.Prelude.{◌≡◌, ◌%◌, ◌^◌, ◌<◌, ◌≤◌, IfSome, IsErr};
ghost use Rattle.lgp_region.specs.Room.{block_size, block_token};

use crate::block::Block;
use crate::link::{Chain, LINK_ROOM, Link, first_of, put};
use crate::memory::Memory;
use crate::shelf::{SHELVES, shelf, size_on};
use lgp_parts::{Unfreed, for_good};
use std::alloc::{AllocError, Allocator};
use std::cell::Cell;
use std::mem;

/// How many bytes of its own memory a lasting region takes for itself.
const OWN_ROOM: usize = 4096;

/// An allocator over memory that was handed over for good.
///
/// A block has 16 bytes or twice, four times, .. as many, the smallest of these sizes that the
/// request fits. It is a kept block of that size, or else cut off the front of what was never given
/// out. A freed block is kept for a later request of its size; none is lost. Nothing is ever given back.
///
/// A request for which no block is kept is refused where what was never given out is smaller than its
/// block and 32 bytes more for each block that was ever cut; and each request is refused that names an
/// alignment above 16, or more than 32 gigabytes. A `&` to a region is an allocator too.
#[derive(Drop)]
pub struct Region {
    /// What was never given out.
    rest: Cell<Option<Memory>>,
    /// How many bytes of it are promised for links: a link for each block that was given out, so that it can be kept when it is freed.
    promised: Cell<usize>,
    /// The freed blocks, a chain for each size, the smallest size first.
    kept: [Chain; 32],
    /// The links whose memory is empty.
    spare: Chain,
}

impl Region {
    /// All of the memory, from which nothing was given out.
    pub fn new(memory: Memory) -> Region {
        Region {
            rest: Cell::new(Some(memory)),
            promised: Cell::new(0),
            kept: std::array::from_fn(|_| Cell::new(None)),
            spare: Cell::new(None),
        }
    }

    /// A region that lasts as long as the program. It lies in the first 4,096 bytes of the memory itself, and gives out the bytes
    /// after them. Of less memory there is none.
    pub fn lasting(memory: Memory) -> Result<&'static Region, AllocError>
        ensures { memory.size < 4096 → IsErr result }
    {
        if memory.size < OWN_ROOM {
            return Err(AllocError);
        }
        let (front, left) = memory.cut(OWN_ROOM);
        let room = Region::new(front);
        let whole = Box::new(&room, Region::new(left))?;
        Ok(Box::leak(for_good(whole)))
    }

    /// A block for a request, if there is one.
    fn take(&self, size: usize, align: usize) -> Option<Block>
        ensures { IfSome result (λ block. (block.size ≡ block_size size)
            × (size ≤ block_size size) × (size < 2 ^ 63) × (align ≤ 16)) }
    {
        let shelf = shelf(size);
        if align > 16 || shelf >= SHELVES {
            return None;
        }
        let wanted = size_on(shelf);
        match self.kept_block(shelf, wanted) {
            Some(block) => Some(block),
            None => self.cut(wanted, self.promised.get().saturating_add(LINK_ROOM)),
        }
    }

    /// A kept block of this size, if there is one.
    fn kept_block(&self, shelf: u32, wanted: usize) -> Option<Block>
        requires { shelf < SHELVES }
        ensures { IfSome result (λ block. block.size ≡ wanted) }
    {
        let empty = self.no_bytes()?;
        let mut link = first_of(&self.kept[shelf as usize])?;
        let held = mem::replace(&mut link.held, empty);
        put(&self.spare, link);
        if held.size == wanted {
            Some(held.block)
        } else {
            None
        }
    }

    /// No bytes, from the front of what was never given out.
    fn no_bytes(&self) -> Option<Memory> {
        let (empty, rest) = self.rest.take()?.cut(0);
        self.rest.set(Some(rest));
        Some(empty)
    }

    /// A block from the front of what was never given out, if as much as is promised then is left of it.
    fn cut(&self, wanted: usize, promised: usize) -> Option<Block>
        requires { wanted % 16 ≡ 0 }
        ensures { IfSome result (λ block. block.size ≡ wanted) }
    {
        let memory = self.rest.take()?;
        if memory.size < wanted || memory.size - wanted < promised {
            self.rest.set(Some(memory));
            return None;
        }
        let (front, left) = memory.cut(wanted);
        self.rest.set(Some(left));
        self.promised.set(promised);
        Some(front.block)
    }

    /// A link that holds memory: a spare one, or a new one in the bytes that were promised for it.
    fn link(&self, memory: Memory) -> Option<Box<Link, Unfreed>> {
        if let Some(mut link) = first_of(&self.spare) {
            link.held = memory;
            return Some(link);
        }
        let block = self.cut(LINK_ROOM, self.promised.get().saturating_sub(LINK_ROOM))?;
        let room = Memory {
            block,
            size: LINK_ROOM,
        };
        Link::within(room, memory)
    }

    /// Keeps a block that was given for a request of a given number of bytes.
    fn keep(&self, block: Block, size: usize)
        requires { block.size ≡ block_size size }
    {
        let shelf = shelf(size);
        if shelf >= SHELVES {
            return;
        }
        let size = size_on(shelf);
        if let Some(link) = self.link(Memory { block, size }) {
            put(&self.kept[shelf as usize], link);
        }
    }
}

unsafe impl Allocator for Region {
    ghost dealloc_token = { λ _. block_token };

    fn allocate(&self, size: usize, align: usize) -> Result<*mut u8, AllocError> {
        match self.take(size, align) {
            Some(Block { at }) => Ok(at),
            None => Err(AllocError),
        }
    }

    unsafe fn deallocate(&self, ptr: *mut u8, size: usize, _align: usize) {
        self.keep(Block { at: ptr }, size);
    }
}
