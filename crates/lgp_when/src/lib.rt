//! Conditions on the counter, on words, on what was printed and on the clock, and runs that end with the order that meets one.
#![tactic(auto)]

mod condition;
mod meeting;
mod paper;
mod until;
mod watch;

pub use condition::Condition;
pub use meeting::{Meeting, Met};
pub use until::{RanUntil, Until, run_until};
