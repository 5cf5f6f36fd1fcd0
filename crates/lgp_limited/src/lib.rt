//! An allocator for tests, in which memory runs out at the growth that a test names.
//!
//! A test lets a call run again and again, and has its first growth refused, then its second,
//! until the call has fewer growths than that and succeeds. So each place at which the call takes
//! memory is met, however much it takes there.
#![tactic(auto)]

mod counts;
mod limited;

pub use limited::Limited;
