//! Each action where it is live and where it is dead, and the latch.

mod actions;
mod latch;

use lgp_flexo::Code;
use lgp_table::Action;

/// The key of the code of that number, or of the conditional stop above all.
pub fn key(number: u8) -> Action {
    Action::Key(Code::new(number).unwrap_or(Code::STOP))
}
