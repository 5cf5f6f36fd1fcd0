//! The limits of the script language.

/// How many bytes a source may have.
pub const SOURCE_LIMIT: usize = 1_048_576;

/// How many steps are kept for going back.
pub const KEPT_LIMIT: usize = 4096;

/// How often the program reads a file or standard input at most.
pub const READS: u64 = 1 << 32;
