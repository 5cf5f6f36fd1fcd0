//! Tapes and drums in the forms of other programs.

use crate::expect_eq;
use lgp_exchange::{
    BytesFault, ExaminedFault, push_deposits, push_paper, read_examined, read_tape_bytes,
    tape_bytes, write_archive_text,
};
use lgp_flexo::{Code, TAPE_LIMIT, read_archive_text};
use std::alloc::{AllocError, Allocator, Global};

pub mod drums;
mod papers;
mod tapes;

pub use papers::paper_of;
pub use tapes::codes_of;
