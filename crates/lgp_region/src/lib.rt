//! An allocator over memory that its caller hands over for good.
//!
//! A `Region` cuts blocks off the front of its memory. A freed block is kept and given to the next
//! request of its size, so that a program which takes and frees the same sizes again and again
//! needs no more memory as it goes on. Nothing is given back to the caller.
#![tactic(auto)]

mod block;
mod link;
mod memory;
mod region;
mod shelf;

pub use block::Block;
pub use memory::Memory;
pub use region::Region;
