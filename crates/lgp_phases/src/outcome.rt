//! What activities and word times answer.

use lgp_flexo::Code;
use lgp_table::Status;

/// What an activity took and left.
#[derive(Clone, Copy, Debug, PartialEq, Eq)]
pub struct Outcome {
    /// Its word times.
    pub cost: u64,
    /// The status after it.
    pub status: Status,
    /// The code that it printed.
    pub printed: Option<Code>,
}

/// Whether an activity goes on after a word time.
#[derive(Clone, Copy, Debug, PartialEq, Eq)]
pub enum Progress {
    More,
    Done(Outcome),
}

/// What the activity that begins at a boundary will cost, in word times, and the code that it will print.
#[derive(Clone, Copy, Debug, PartialEq, Eq)]
pub struct Ahead {
    pub cost: u64,
    pub prints: Option<Code>,
}
