//! A box as its pointer, for a place where only a pointer may be.
#![tactic(auto)]

mod parts;
mod unfreed;

pub use parts::BoxParts;
pub use unfreed::{Unfreed, for_good};
