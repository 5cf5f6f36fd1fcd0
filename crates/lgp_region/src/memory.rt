//! Memory that is handed over for good.
ghost use Rattle.std.specs.Prelude.{◌≡◌, ◌-◌, ◌%◌, ◌≤◌, IfOk};
ghost use Rattle.lgp_region.specs.Room.{whole_units};

use crate::block::Block;
use std::alloc::{AllocError, Allocator};

/// Bytes in which nothing lies, and their number. It is handed over for good.
///
/// In C it is a pointer, aligned to 16, and a size in bytes. Who hands one over may not read, write
/// or free the bytes any more.
#[repr(C)]
#[derive(Drop)]
pub struct Memory {
    pub block: Block,
    /// How many bytes. What is beyond the last multiple of 16 is not used.
    pub size: usize,
    pub ghost size_is: { block.size ≡ size },
}

impl Memory {
    /// Takes memory from an allocator, to which it never goes back. Its size is rounded down to a
    /// multiple of 16.
    pub fn taken_for_good<A: Allocator>(alloc: &A, size: usize) -> Result<Memory, AllocError>
        ensures { IfOk result (λ memory. memory.size ≡ whole_units size) }
    {
        let size = size / 16 * 16;
        if size > isize::MAX as usize {
            return Err(AllocError);
        }
        match Block::taken_for_good(alloc, size) {
            Some(block) => Ok(Memory { block, size }),
            None => Err(AllocError),
        }
    }

    /// The first `size` bytes, and those after them.
    pub fn cut(self, size: usize) -> (Memory, Memory)
        requires whole { size % 16 ≡ 0 }
        requires within { size ≤ self.size }
        ensures front { result.0.size ≡ size }
        ensures rest { result.1.size ≡ self.size - size }
    {
        let Memory { block, size: all } = self;
        let (front, rest) = block.cut(size);
        (
            Memory { block: front, size },
            Memory {
                block: rest,
                size: all - size,
            },
        )
    }
}
