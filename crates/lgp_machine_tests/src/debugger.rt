//! The debugger by its calls. A test is a table of calls and their answers.

mod calls;
mod growths;
mod large;
mod origins;
mod rows;
mod watched;
