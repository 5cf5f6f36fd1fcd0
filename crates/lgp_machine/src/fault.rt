//! What the machine answers, and its refusals.

use thiserror::Error;

/// What became of a press.
#[derive(Clone, Copy, Debug, PartialEq, Eq)]
pub enum Pressed {
    /// It acted.
    Live,
    /// It changed nothing.
    Dead,
    /// It acts at the end of the present activity.
    Kept,
}

/// Why a press is refused.
#[derive(Clone, Copy, Debug, PartialEq, Eq, Error)]
pub enum PressFault {
    #[error("16 actions are kept already")]
    Full,
}

/// Why a word time is refused.
#[derive(Clone, Copy, Debug, PartialEq, Eq, Error)]
pub enum TurnFault {
    #[error("the clock has ended")]
    ClockEnd,
    #[error("out of memory for a printed code")]
    Memory,
}

/// Why a list of events stopped, and how many of them remain.
#[derive(Clone, Copy, Debug, PartialEq, Eq, Error)]
#[error("event {done}: {fault}")]
pub struct PlayFault {
    pub done: usize,
    pub fault: TurnFault,
}

/// Why a whole activity is refused.
#[derive(Clone, Copy, Debug, PartialEq, Eq, Error)]
pub enum OrderFault {
    #[error("the machine is at rest")]
    AtRest,
    #[error("the clock would pass its end")]
    ClockEnd,
    #[error("out of memory for a printed code")]
    Memory,
    #[error("an activity has been begun")]
    Moving,
}

/// Why word times at rest are refused.
#[derive(Clone, Copy, Debug, PartialEq, Eq, Error)]
pub enum RestFault {
    #[error("the machine is at work")]
    AtWork,
    #[error("the clock would pass its end")]
    ClockEnd,
}

/// Why a tape is refused. The machine itself takes no memory for it, so it never answers `Memory`; a debugger does.
#[derive(Clone, Copy, Debug, PartialEq, Eq, Error)]
pub enum MountFault {
    #[error("the machine is not at rest")]
    Moving,
    #[error("the tape has more than 1048576 codes")]
    TooLong,
    #[error("out of memory")]
    Memory,
}

/// Why a word is not put on the drum. The machine itself takes no memory for it, so it never answers `Memory`; a debugger does.
#[derive(Clone, Copy, Debug, PartialEq, Eq, Error)]
pub enum PutFault {
    #[error("the machine is not at rest")]
    Moving,
    #[error("out of memory")]
    Memory,
}
