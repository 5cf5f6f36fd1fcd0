//! Where a session was when an order began: it is brought there anew, by the lines of its transcript; and which of its orders meet a condition.
#![tactic(auto)]

mod fault;
pub mod laws;
mod moment;
mod search;

pub use fault::MomentFault;
pub use moment::moment_of;
pub use search::{Sought, Which, order_sought};
