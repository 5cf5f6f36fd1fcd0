//! What is answered to a run that ends with the order that meets a condition.

use crate::reply::Reply;

/// The reply to such a run, how many orders it performed, broken off or not, and whether the condition was met.
#[derive(Clone, Copy)]
pub struct UntilReply {
    pub reply: Reply,
    pub orders: u64,
    pub is_met: bool,
}
