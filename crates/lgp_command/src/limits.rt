//! The limits of the commands.

/// How many digits a number may have.
pub const DIGIT_LIMIT: usize = 10;

/// How many words one command may show.
pub const SHOWN_LIMIT: u64 = 64;
