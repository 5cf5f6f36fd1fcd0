//! The words of the command line, read as a task.
#![tactic(auto)]

mod command_line;
mod files;
mod session;
mod task;

pub use files::{FileName, FileNames};
pub use session::{SessionTask, ask_for_session};
pub use task::{Task, TaskFault, task_of};
