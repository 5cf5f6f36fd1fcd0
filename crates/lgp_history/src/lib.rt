//! The steps that took the machine where it is, kept so that it can go back to the beginning of an earlier order.
#![tactic(auto)]

mod changes;
mod checkpoints;
mod history;
pub mod laws;
mod origin;
mod records;
mod rule;
mod step;

pub use checkpoints::Checkpoints;
pub use history::{BackFault, History};
pub use origin::{Changer, Origin, Origins, PastOrder};
pub use records::{CAPACITY_LIMIT, Records};
pub use rule::Rule;
pub use step::{Step, Tape, perform};
