//! The commands of scripts: each is read from its line, and written as one.
#![tactic(auto)]

pub use button::Button;
pub use command::{
    Asked, Command, asked_in, is_command, is_comment, lone_count, lone_number, text_after_word,
};
pub use count::Count;
pub use line::push_command;
pub use names::BUTTONS;
pub use span::Span;

mod button;
mod command;
mod count;
pub mod laws;
mod limits;
mod line;
mod names;
mod span;
