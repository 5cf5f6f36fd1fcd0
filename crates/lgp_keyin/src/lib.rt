//! Storing words and starting a program by the console's keys, as an operator does.
#![tactic(auto)]

mod actions;
mod keying;
pub mod laws;
mod operate;

pub use actions::{actions_to_jump, actions_to_start, actions_to_store};
pub use keying::{KeyFault, key_in};
pub use operate::{Operate, press_all};
