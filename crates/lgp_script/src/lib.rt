//! The LGP-30 laboratory: scripts, and what is written for whole files.
#![tactic(auto)]

pub use files::{asm_file, run_file, tape_file};
pub use laboratory::{Laboratory, push_fault_line};
pub use lgp_command::{
    BUTTONS, Button, Command, Count, Span, is_command, is_comment, lone_count, lone_number,
    push_command, text_after_word,
};
pub use limits::READS;
pub use program::Faulty;
pub use refusal::{Refusal, push_refusal_words};
pub use reply::Reply;
pub use run_part::RunPart;
pub use script::{batch_part, run_script};
pub use teller::Teller;
pub use until_reply::UntilReply;

mod files;
mod laboratory;
pub mod laws;
mod limits;
mod program;
mod refusal;
mod reply;
mod run_part;
mod script;
mod source_text;
mod teller;
mod until_reply;
