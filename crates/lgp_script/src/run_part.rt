//! The first orders of a run.

/// How many orders of a run were performed, and whether the run goes on after them.
#[derive(Clone, Copy)]
pub struct RunPart {
    pub orders: u64,
    pub goes_on: bool,
}
