//! What shows at an order boundary.

use lgp_table::{Mode, Status, Switches};
use lgp_word::{Address, Word};

/// What the machine shows at an order boundary.
#[derive(Clone, Copy, Debug, PartialEq, Eq)]
pub struct Look {
    /// The address of the next order.
    pub counter: Address,
    /// The accumulator's 32 bits.
    pub accumulator: u32,
    /// The instruction register.
    pub register: Word,
    pub status: Status,
    pub mode: Mode,
    pub switches: Switches,
    /// Whether the reader is on.
    pub reader_on: bool,
    /// The word times since the beginning.
    pub clock: u64,
}
