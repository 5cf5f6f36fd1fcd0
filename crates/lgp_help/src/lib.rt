//! What helps people and programs: each command, each operation of the source language and each kind of fault, told in a sentence.
#![tactic(auto)]

pub use table::{push_commands, push_fault_said, push_faults, push_operations};
pub use tables::{COMMAND_KEYS, COMMANDS, FAULT_KEYS, FAULTS, OPERATION_KEYS, OPERATIONS};

mod table;
mod tables;
