//! Replies for programs: records of fields, each a key and a plain value, printed as lines or as objects of JSON.
#![tactic(auto)]

pub use escaped::push_escaped;
pub use field::{Field, Value};
pub use json::push_object;
pub use lines::push_lines;
pub use records::{RecordForm, push_joined, push_record};

mod escaped;
mod field;
mod json;
pub mod laws;
mod lines;
mod numbers;
mod records;
mod texts;
