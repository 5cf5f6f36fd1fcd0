//! The drum of the LGP-30: 4096 words on 64 tracks, each in the order in which its sectors pass the head.
#![tactic(auto)]

mod drum;

pub use drum::Drum;
