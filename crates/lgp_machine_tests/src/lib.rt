//! The tests of the machine, of loading, of histories and of the debugger, over their public calls.
#![tactic(auto)]

#[cfg(test)]
mod console;
#[cfg(test)]
mod debugger;
#[cfg(test)]
mod history;
#[cfg(test)]
mod keyin;
#[cfg(test)]
mod loader;
#[cfg(test)]
mod machine;
#[cfg(test)]
mod past;
#[cfg(test)]
mod phases;
#[cfg(test)]
mod when;

#[cfg(test)]
use lgp_limited::Limited;
#[cfg(test)]
use lgp_word::{Address, Word, read_digits};
#[cfg(test)]
use std::alloc::Allocator;
#[cfg(test)]
use std::fmt::Debug;
#[cfg(test)]
use std::process::Abort;

/// The last clock.
#[cfg(test)]
const CLOCK_END: u64 = 1 << 62;

/// A transfer to 0000.
#[cfg(test)]
const TRANSFER: u32 = 0x000a_0000;

/// An order that prints the code 57.
#[cfg(test)]
const PRINT: u32 = 0x0008_3900;

/// Expects a value in a function of its own, so that a test needs no more than the call.
#[cfg(test)]
fn expect_eq<T: PartialEq + Debug + Drop>(rt: &impl Abort, seen: T, wanted: T) {
    assert_eq!(rt; seen, wanted);
}

/// The address of that number, or 0000 above all.
#[cfg(test)]
fn address(number: u16) -> Address {
    Address::new(number).unwrap_or_default()
}

/// The address of this text, or 0000 where it is none.
#[cfg(test)]
fn at(text: &[u8]) -> Address {
    Address::parse(text).unwrap_or_default()
}

/// The word of these digits, or 0 where they are none.
#[cfg(test)]
fn word(digits: &[u8]) -> Word {
    read_digits(digits).unwrap_or_default()
}

/// How a call that takes memory ends.
#[cfg(test)]
#[derive(Clone, Copy)]
enum End {
    Done,
    Refused,
    Otherwise,
}

/// How a call ends that is done, that is refused for memory, or neither.
#[cfg(test)]
fn end_of(done: bool, refused: bool) -> End {
    if done {
        End::Done
    } else if refused {
        End::Refused
    } else {
        End::Otherwise
    }
}

/// Makes a call with each growth refused in turn, until none is. How many there are; `None` where the call ends otherwise than refused
/// where a growth was, or than done where none was.
#[cfg(test)]
fn in_turn<B: Allocator, F: FnMut() -> End>(limited: &Limited<B>, mut call: F) -> Option<u64>
    requires { F.IsAlwaysCallable call }
{
    for nth in 0..200 {
        limited.refuse(nth + 1);
        match (call(), limited.was_refused()) {
            (End::Refused, true) => {}
            (End::Done, false) => {
                limited.refuse(0);
                return Some(nth);
            }
            _ => return None,
        }
    }
    None
}
