//! The monitor: the program through which a person works the machine.
#![tactic(auto)]

pub use answered::Answered;
pub use data_question::DataQuestion;
pub use entry::Entry;
pub use mistake::Mistake;
pub use monitor::Monitor;
pub use progress::{Progress, Silence};
pub use question::Question;
pub use scaled::Point;
pub use telling::{Report, Telling};
pub use verb::{AddressCommand, LoneCommand, NumberCommand, RangeCommand, Verb};
pub use way::Way;
pub use wrong::{LineWord, Part, Wrong};

mod answered;
mod closing;
mod condition;
mod data_question;
mod entry;
mod file_texts;
mod form;
mod going;
mod labels;
pub mod laws;
mod mistake;
mod moment;
mod monitor;
mod operating;
mod performing;
mod portions;
mod progress;
mod question;
mod reason;
mod run_end;
mod scaled;
mod telling;
mod until;
mod value;
mod verb;
mod way;
mod wrong;
