//! What the Royal McBee LGP-30 does: its plain types, and in `specs/` the definitions that all other crates are proved
//! against. Words, addresses, orders and codes are those of the crates below.
#![tactic(auto)]

mod action;
pub mod laws;
mod panel;
mod uses;
pub mod worked;

pub use action::{Action, Event};
pub use panel::{Cause, Ending, Mode, Panel, Status, Switches, Which};
pub use uses::{seeks, stores};
