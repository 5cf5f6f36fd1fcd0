//! The tests of the crates below the machine, over their public calls: words, tapes and drums, sources, listings and the forms of other
//! programs.
#![tactic(auto)]

#[cfg(test)]
mod assembler;
#[cfg(test)]
mod drum;
#[cfg(test)]
mod exchange;
#[cfg(test)]
mod flexo;
#[cfg(test)]
mod fraction;
#[cfg(test)]
mod growths;
#[cfg(test)]
mod limited;
#[cfg(test)]
mod listing;
#[cfg(test)]
mod reader;
#[cfg(test)]
mod region;
#[cfg(test)]
mod source;
#[cfg(test)]
mod stream;
#[cfg(test)]
mod table;
#[cfg(test)]
mod word;

#[cfg(test)]
use lgp_limited::Limited;
#[cfg(test)]
use std::alloc::{Allocator, Global};
#[cfg(test)]
use std::fmt::Debug;
#[cfg(test)]
use std::process::Abort;

/// Expects a value in a function of its own, so that a test needs no more than the call.
#[cfg(test)]
fn expect_eq<T: PartialEq + Debug + Drop>(rt: &impl Abort, seen: T, wanted: T) {
    assert_eq!(rt; seen, wanted);
}

/// How many growths a call has, each of which is refused in turn. It has to say so, by `None`, where one is refused, and to answer what
/// is right where none is; else the number is 0.
#[cfg(test)]
fn in_turn<B: Allocator, F: FnMut() -> Option<bool>>(limited: &Limited<B>, mut is_right: F) -> u64
    requires { F.IsAlwaysCallable is_right }
{
    for nth in 0..200 {
        limited.refuse(nth + 1);
        match (is_right(), limited.was_refused()) {
            (None, true) => {}
            (Some(true), false) => {
                limited.refuse(0);
                return nth;
            }
            _ => return 0,
        }
    }
    0
}

/// Appends texts, each a given number of times; false without memory.
#[cfg(test)]
fn is_appended(text: &mut Vec<u8>, pieces: &[(&[u8], u32)]) -> bool {
    for (piece, times) in pieces {
        for _ in 0..*times {
            if text.extend_from_slice(piece).is_err() {
                return false;
            }
        }
    }
    true
}

/// A text of texts, each a given number of times; `None` without memory.
#[cfg(test)]
fn text_of(alloc: Global, pieces: &[(&[u8], u32)]) -> Option<Vec<u8>> {
    let mut text = Vec::new(alloc);
    if is_appended(&mut text, pieces) {
        Some(text)
    } else {
        None
    }
}
