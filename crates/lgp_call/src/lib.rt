//! The laboratory for callers that give the room for its replies: a whole script or source in one call, and sessions of the monitor.
#![tactic(auto)]

pub mod laws;
mod replies;
mod room;
mod script;
mod session;
mod source;

pub use script::{Outcome, run_into};
pub use session::{Session, refuse};
pub use source::source_into;
