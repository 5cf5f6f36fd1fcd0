//! What the debugger answers, and its refusals.

use thiserror::Error;

/// Why an order is refused.
#[derive(Clone, Copy, Debug, PartialEq, Eq, Error)]
pub enum StepFault {
    #[error("the machine is at rest")]
    AtRest,
    #[error("the clock would pass its end")]
    ClockEnd,
    #[error("out of memory")]
    Memory,
}

/// Why word times at rest are refused.
#[derive(Clone, Copy, Debug, PartialEq, Eq, Error)]
pub enum IdleFault {
    #[error("the machine is at work")]
    AtWork,
    #[error("the clock would pass its end")]
    ClockEnd,
    #[error("out of memory")]
    Memory,
}

/// Why a rule is refused.
#[derive(Clone, Copy, Debug, PartialEq, Eq, Error)]
pub enum RuleFault {
    #[error("there are 64 rules already")]
    Full,
}

/// Why no hit is gone back to.
#[derive(Clone, Copy, Debug, PartialEq, Eq, Error)]
pub enum HitFault {
    #[error("no rule hits any of the {0} orders that are kept")]
    NoHit(u64),
    #[error("out of memory")]
    Memory,
}

/// Why a run ended.
#[derive(Clone, Copy, Debug, PartialEq, Eq)]
pub enum Reason {
    /// The machine is at rest.
    Rest,
    /// As many orders were performed as the limit allows.
    Limit,
    /// The rule of this number stopped it.
    Rule(u8),
}

/// What a run came to: how many orders it performed, and why it ended.
#[derive(Clone, Copy, Debug, PartialEq, Eq)]
pub struct Ran {
    pub orders: u64,
    pub reason: Reason,
}

/// Why an order of a run is refused.
#[derive(Clone, Copy, Debug, PartialEq, Eq, Error)]
pub enum RunRefusal {
    #[error("the clock would pass its end")]
    ClockEnd,
    #[error("out of memory")]
    Memory,
}

/// Why a run was broken off; the orders before it remain.
#[derive(Clone, Copy, Debug, PartialEq, Eq, Error)]
#[error("after {orders} orders: {fault}")]
pub struct RunFault {
    pub orders: u64,
    pub fault: RunRefusal,
}
