//! The tests of accounts, of the command line and of the laboratory, over their public calls, and of the texts of all crates' faults.
#![tactic(auto)]

#[cfg(test)]
mod count;
#[cfg(test)]
mod faults;
#[cfg(test)]
mod lab;
#[cfg(test)]
mod task;
#[cfg(test)]
mod trace;

#[cfg(test)]
use lgp_limited::Limited;
#[cfg(test)]
use std::alloc::Allocator;
#[cfg(test)]
use std::fmt::Debug;
#[cfg(test)]
use std::process::Abort;

/// Expects a value in a function of its own, so that a test needs no more than the call.
#[cfg(test)]
fn expect_eq<T: PartialEq + Debug + Drop>(rt: &impl Abort, seen: T, wanted: T) {
    assert_eq!(rt; seen, wanted);
}

/// How a call that takes memory ends.
#[cfg(test)]
#[derive(Clone, Copy)]
enum End {
    Done,
    Refused,
    Otherwise,
}

/// How a call ends that is done, that is refused for memory, or neither.
#[cfg(test)]
fn end_of(done: bool, refused: bool) -> End {
    if done {
        End::Done
    } else if refused {
        End::Refused
    } else {
        End::Otherwise
    }
}

/// Makes a call with each growth refused in turn, until none is. How many there are; `None` where the call ends otherwise than refused
/// where a growth was, or than done where none was.
#[cfg(test)]
fn in_turn<B: Allocator, F: FnMut() -> End>(limited: &Limited<B>, mut call: F) -> Option<u64>
    requires { F.IsAlwaysCallable call }
{
    for nth in 0..5000 {
        limited.refuse(nth + 1);
        match (call(), limited.was_refused()) {
            (End::Refused, true) => {}
            (End::Done, false) => {
                limited.refuse(0);
                return Some(nth);
            }
            _ => return None,
        }
    }
    None
}
