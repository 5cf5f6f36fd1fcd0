//! The paper tape reader of the LGP-30.
#![tactic(auto)]

mod reader;

pub use reader::{Input, Reader};
