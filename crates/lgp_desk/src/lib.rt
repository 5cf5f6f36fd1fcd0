//! The monitor at a desk: lines that are typed until `quit`, and the lines of files that they name. The desk is a value that is told what
//! happens and says what is written; over it, what the monitor's program does with the words of its command line.
#![tactic(auto)]

pub use answering::attend;
pub use desk::Desk;
pub use files::{FILE_LIMIT, FileTrouble, Files};
pub use request::{DrumForm, Made, TapeForm, Work};
pub use session::{hold_session, obey_session};
pub use wish::Wish;
pub use writing::Manner;

mod answering;
mod desk;
mod file_forms;
mod files;
mod json;
mod keeping;
pub mod laws;
mod open_file;
mod request;
mod session;
mod trouble;
mod wish;
mod writing;
