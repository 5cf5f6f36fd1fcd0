//! The LGP-30's console: what each action does, and the latch that keeps actions until an order ends.
#![tactic(auto)]

mod console;
mod latch;

pub use console::{act, is_live};
pub use latch::Latch;
