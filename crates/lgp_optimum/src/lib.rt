//! Where each word of a run would have cost least: what the orders would have taken, had it been at another sector.
#![tactic(auto)]

pub use lines::{push_optimum, push_word_optimum};
pub use optimum::{Best, Optimum};
pub use ranking::Gain;
pub use runs::optimum_run;
pub use uses::Freedom;

pub mod laws;
mod lines;
mod optimum;
mod ranking;
mod runs;
mod turns;
mod uses;
