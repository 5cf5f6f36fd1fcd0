//! Marks to come back to.

use lgp_table::Panel;

/// What is needed to come back to an order boundary, beside the tape, the printed codes and the drum's words themselves.
#[derive(Clone, Copy, Debug, PartialEq, Eq)]
pub struct Mark {
    /// Registers, status, mode and switches.
    pub panel: Panel,
    /// Whether the reader is on.
    pub reader_on: bool,
    /// The word times since the beginning.
    pub clock: u64,
    /// How many codes are printed.
    pub printed: usize,
    /// How many codes have passed the reader since the tape was mounted.
    pub passed: usize,
}
