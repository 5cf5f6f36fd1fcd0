//! Loading a program from paper tape, by a program of 22 words that counts up the order it is about to perform, or by one of ten
//! words that writes it.
#![tactic(auto)]

mod cutting;
pub mod laws;
mod loading;
mod reading;
mod tape;
mod words;

pub use loading::{LoadFault, load, load_cut, load_single};
pub use tape::{CutFault, single_tape_of, tape_cut, tape_of};
pub use words::{LOADER, LOADER_10};
