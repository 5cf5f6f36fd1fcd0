//! The tests of the monitor, of the desk and of calls for other languages, over their public calls.
#![tactic(auto)]

#[cfg(test)]
mod call;
#[cfg(test)]
mod desk;
#[cfg(test)]
mod monitor;
#[cfg(test)]
mod source;
#[cfg(test)]
mod telling;

#[cfg(test)]
use lgp_limited::Limited;
#[cfg(test)]
use lgp_stream::StreamFault;
#[cfg(test)]
use std::alloc::Global;
#[cfg(test)]
use std::fmt::Debug;
#[cfg(test)]
use std::process::Abort;

/// Expects a value in a function of its own, so that a test needs no more than the call.
#[cfg(test)]
fn expect_eq<T: PartialEq + Debug + Drop>(rt: &impl Abort, seen: T, wanted: T) {
    assert_eq!(rt; seen, wanted);
}

/// Whether this is what a call answers: how many lines are refused, or whether one is.
#[cfg(test)]
fn is_done<T: PartialEq + Drop>(answer: Result<T, StreamFault>, refused: T) -> bool {
    match answer {
        Ok(seen) => seen == refused,
        Err(_) => false,
    }
}

/// How lines end where a growth is refused: for want of memory, or as a whole where it was not met, or otherwise.
#[cfg(test)]
#[derive(Clone, Copy)]
enum End {
    Refused,
    Done,
    Otherwise,
}

/// How lines ended, of which so many were to be refused in all, or any.
#[cfg(test)]
fn ended<T: PartialEq + Drop>(
    has_refused: bool,
    answer: Result<T, StreamFault>,
    refused: T,
) -> End {
    match answer {
        Err(StreamFault::Memory) if has_refused => End::Refused,
        Ok(seen) if !has_refused && seen == refused => End::Done,
        _ => End::Otherwise,
    }
}

/// Makes a call for another language with each growth refused in turn, until none is. How many there are, each with status 3; 0 where one has
/// another status.
#[cfg(test)]
fn statuses_in_turn<F: FnMut() -> u32>(limited: &Limited<Global>, mut call: F) -> u64
    requires { F.IsAlwaysCallable call }
{
    for nth in 0..2000 {
        limited.refuse(nth + 1);
        match (call(), limited.was_refused()) {
            (_, false) => return nth,
            (3, true) => {}
            _ => return 0,
        }
    }
    0
}
