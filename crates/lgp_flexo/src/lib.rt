//! The codes of the Flexowriter's paper tape, and tapes written as text: in a form of this project's own, and in that of archives.
#![tactic(auto)]

mod archive_text;
mod code;
pub mod laws;
mod pieces;
mod tape_text;
mod word_codes;

pub use archive_text::read_archive_text;
pub use code::{Code, code_of, digit_of, enter, sign_of, skipped};
pub use tape_text::{TAPE_LIMIT, TextFault, read_tape_text, write_tape_text};
pub use word_codes::codes_of_word;
