//! What a desk wishes for.

use crate::request::Made;

/// What is to be done next by who holds a desk.
#[derive(Clone, Copy, Debug, PartialEq, Eq)]
pub enum Wish {
    /// The next line is to be typed, after the prompt, or the end of the lines to be said.
    Line,
    /// It is to go on with the lines of a file.
    Onward,
    /// The file of the name that it gives is to be read.
    Read,
    /// This is to be kept in the file of the name that it gives.
    Keep(Made),
    /// Nothing more: it was left.
    Nothing,
}
