//! Pieces of lines, the words for what a panel shows, and lists of names.
#![tactic(auto)]

pub use names::{Named, value_named};
pub use panel::{mode_text, on_text, status_text, switches_text};
pub use pieces::{Piece, push_decimal, push_pieces};

mod names;
mod panel;
mod pieces;
