//! The whole past of a machine: what the operator did, with the orders between, so that every order can be gone back to.
#![tactic(auto)]

mod copied;
mod event;
mod past;
mod timeline;

pub use past::{Past, PastFault};
pub use timeline::Timeline;
