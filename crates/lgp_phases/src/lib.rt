//! The LGP-30's processor: one activity, from an order boundary to the next, word time by word time or in one call.
#![tactic(auto)]

mod activity;
mod decoded;
pub mod laws;
mod orders;
mod outcome;
mod phase;
mod processor;
mod short_order;
mod times;

pub use outcome::{Ahead, Outcome, Progress};
pub use processor::Processor;
pub use short_order::ShortOrder;
pub use times::{act_time, ahead, seek_time, wait};
