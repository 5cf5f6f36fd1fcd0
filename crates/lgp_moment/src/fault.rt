//! Why a session is not brought to an order.

use thiserror::Error;

/// Why a session is not brought to the beginning of an order.
#[derive(Clone, Copy, Debug, PartialEq, Eq, Error)]
pub enum MomentFault {
    #[error("there were {0} orders")]
    NotYet(u64),
    #[error("out of memory")]
    Memory,
}
