//! Bytes in which nothing lies.
ghost use Rattle.std.specs.Prelude.{◌≡◌, ℕ, ◌-◌, ◌%◌, ◌^◌, ◌<◌, ◌≤◌, IfSome};
ghost use Rattle.lgp_region.specs.Room.{bytes_at};

use std::alloc::Allocator;
use std::marker::Model;

/// The place of bytes in which nothing lies, aligned to 16. It is the size of a pointer.
///
/// In C it is the pointer itself. Who hands one over may not use the bytes any more.
#[repr(C)]
#[derive(Drop)]
pub struct Block {
    pub(crate) at: *mut u8,
    /// How many bytes.
    pub ghost size: { ℕ },
}

impl Model for Block {
    ghost also_owns = { λ block. bytes_at block.at block.size };
}

impl Block {
    /// The first `size` bytes, and those after them.
    pub fn cut(self, size: usize) -> (Block, Block)
        requires whole { size % 16 ≡ 0 }
        requires within { size ≤ self.size }
        ensures front { result.0.size ≡ size }
        ensures rest { result.1.size ≡ self.size - size }
    {
        let Block { at } = self;
        let rest = unsafe { at.add(size) };
        (Block { at }, Block { at: rest })
    }

    /// Takes `size` bytes from an allocator, to which they never go back. `None` where it has none.
    pub fn taken_for_good<A: Allocator>(alloc: &A, size: usize) -> Option<Block>
        requires whole { size % 16 ≡ 0 }
        requires below { size < 2 ^ 63 }
        ensures { IfSome result (λ block. block.size ≡ size) }
    {
        match alloc.allocate(size, 16) {
            Ok(at) => Some(Block { at }),
            Err(_) => None,
        }
    }
}
