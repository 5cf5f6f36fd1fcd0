//! How far long runs are.

/// What learns how far a long run is while it goes on.
pub trait Progress: Drop {
    /// After how many orders the next report comes; 0 is taken as 1.
    fn portion(&self) -> u64;

    /// A given number of orders of a run are done, and it goes on.
    fn performed(&self, orders: u64);

    /// A run has ended of which `performed` has reported.
    fn ended(&self);
}

/// Learns nothing.
#[derive(Clone, Copy, Debug, Drop)]
pub struct Silence;

impl Progress for Silence {
    fn portion(&self) -> u64 {
        u64::MAX
    }

    fn performed(&self, _orders: u64) {}

    fn ended(&self) {}
}
