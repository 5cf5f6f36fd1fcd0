//! Histories by themselves: their making, copies of steps and the laws. Their other calls are made by the debugger, over both kinds.

mod growths;

use lgp_history::laws::{last_hits, orders_again, origins_go_back, words_come};
use lgp_history::{CAPACITY_LIMIT, Checkpoints, History, Records};
use std::alloc::{AllocError, Allocator};

// New histories without the contracts of their calls, which would fill the context of each test.

/// Records of at most a given number of steps, which is at least 1 and at most the limit.
pub fn records<A: Allocator + Clone>(alloc: A, capacity: usize) -> Result<Records<A>, AllocError> {
    Records::new(alloc, capacity.clamp(1, CAPACITY_LIMIT))
}

/// The same with checkpoints.
pub fn checkpoints<A: Allocator + Clone>(
    alloc: A,
    capacity: usize,
) -> Result<Checkpoints<A>, AllocError> {
    Checkpoints::new(alloc, capacity.clamp(1, CAPACITY_LIMIT))
}

/// A kind of history.
#[derive(Clone, Copy)]
pub enum Kind {
    Records,
    Checkpoints,
}

/// What is done over a history, whichever kind it is of.
pub trait Job<A: Allocator> {
    type Answer;

    fn over<H: History<A>>(&self, alloc: A, history: Result<H, AllocError>) -> Self::Answer;
}

/// Does a job over a new history of a kind, which keeps at most a given number of steps.
pub fn over_kind<A: Allocator + Copy, J: Job<A>>(
    alloc: A,
    (kind, capacity): (Kind, usize),
    job: &J,
) -> J::Answer {
    match kind {
        Kind::Records => job.over(alloc, records(alloc, capacity)),
        Kind::Checkpoints => job.over(alloc, checkpoints(alloc, capacity)),
    }
}

#[test]
fn the_laws_do_nothing(_rt: HostRuntime) {
    last_hits();
    orders_again();
    origins_go_back();
    words_come();
}
