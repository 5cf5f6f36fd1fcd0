//! The whole LGP-30: drum, reader, console and printer, by word times and presses in any order.
#![tactic(auto)]

mod fault;
pub mod laws;
mod look;
mod machine;
mod mark;

pub use fault::{
    MountFault, OrderFault, PlayFault, PressFault, Pressed, PutFault, RestFault, TurnFault,
};
pub use look::Look;
pub use machine::{CLOCK_END, Machine};
pub use mark::Mark;
