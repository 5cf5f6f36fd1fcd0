//! What the operator does, and what happens to the machine.

use crate::panel::{Mode, Which};
use lgp_flexo::Code;

/// What the operator can do at the console.
#[derive(Clone, Copy, Debug, Default, PartialEq, Eq)]
pub enum Action {
    /// Press a mode button.
    Mode(Mode),
    #[default]
    Start,
    ClearCounter,
    /// Fill the instruction register from the accumulator.
    Fill,
    /// Execute the order in the instruction register.
    Execute,
    /// Strike a key of the Flexowriter.
    Key(Code),
    StartCompute,
    StartRead,
    /// Set a BREAK POINT switch; true is down.
    BreakPoint(Which, bool),
    /// Set TRANSFER CONTROL; true is down.
    Transfer(bool),
    /// Set 6 BIT INPUT; true is down.
    SixBit(bool),
}

/// What can happen to the machine next.
#[derive(Clone, Copy, Debug, PartialEq, Eq)]
pub enum Event {
    WordTime,
    Press(Action),
}
