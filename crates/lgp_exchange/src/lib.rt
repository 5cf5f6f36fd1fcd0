//! Tapes, drums and printed codes in the forms of other programs.
#![tactic(auto)]

pub use archive_text::write_archive_text;
pub use code_bytes::{BytesFault, read_tape_bytes, tape_bytes};
pub use deposits::{deposits_of, push_deposits};
pub use examined::{ExaminedFault, read_examined};
pub use paper::push_paper;

mod archive_text;
mod carriage;
mod code_bytes;
mod deposits;
mod examined;
pub mod laws;
mod paper;
