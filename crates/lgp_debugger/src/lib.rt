//! The machine with its latest steps: rules that stop a run, and the way back.
#![tactic(auto)]

mod debugger;
mod fault;
mod watch;
mod watcher;

pub use debugger::{Debugger, passes_end};
pub use fault::{HitFault, IdleFault, Ran, Reason, RuleFault, RunFault, RunRefusal, StepFault};
pub use watcher::{Quiet, WatchFault, Watcher};
