//! Growths refused one after the other.

use super::{Job, Kind, over_kind};
use crate::{End, end_of, expect_eq, in_turn};
use lgp_flexo::{Code, read_tape_text};
use lgp_history::{History, Step, Tape};
use lgp_limited::Limited;
use std::alloc::{AllocError, Allocator, Global};

/// The number of a code, or 0 where there is none.
fn number(code: Option<&Code>) -> u8 {
    match code {
        Some(code) => code.number(),
        None => 0,
    }
}

/// How many codes there are, and the numbers of the first three.
fn numbers(codes: &[Code]) -> (usize, [u8; 3]) {
    let first = [codes.get(0), codes.get(1), codes.get(2)];
    (
        codes.len(),
        [number(first[0]), number(first[1]), number(first[2])],
    )
}

/// The tape of 1 and 2.
const FIRST_TAPE: (usize, [u8; 3]) = (3, [6, 10, 32]);

/// The copy of a step that mounts that tape, which has to show its codes and to hand them out.
fn copied<A: Allocator + Clone>(step: &Step<A>) -> End {
    match step.copy() {
        Ok(Step::Mount(copy)) => {
            let shown = numbers(copy.codes());
            let codes = copy.into_codes();
            let are_right = shown == FIRST_TAPE && numbers(codes.as_slice()) == FIRST_TAPE;
            end_of(are_right, false)
        }
        Ok(_) => End::Otherwise,
        Err(_) => End::Refused,
    }
}

/// How many growths the copy has, whether that step is an order, and how many blocks are out then.
fn copied_step(limited: &Limited<Global>) -> Option<(Option<u64>, bool, u64)> {
    let Ok(codes) = read_tape_text(limited, b"12'") else {
        return None;
    };
    let step = Step::Mount(Tape::new(codes));
    let copied = in_turn(limited, || copied(&step));
    Some((copied, step.is_order(), limited.blocks_out()))
}

#[test]
fn each_growth_of_a_copied_step_is_refused(rt: HostRuntime) {
    let limited = Limited::new(rt.alloc());
    expect_eq(&rt, copied_step(&limited), Some((Some(1), false, 1)));
}

/// How the making of a history ends, which has to be empty.
struct Make;

impl<A: Allocator + Copy> Job<A> for Make {
    type Answer = End;

    fn over<H: History<A>>(&self, _alloc: A, history: Result<H, AllocError>) -> End {
        match history {
            Ok(history) => end_of(history.kept() == 0, false),
            Err(_) => End::Refused,
        }
    }
}

/// The debugger's tests have each growth of `prepare`, `back` and `find` refused, over both kinds.
#[test]
fn each_growth_of_a_new_history_is_refused(rt: HostRuntime) {
    let limited = Limited::new(rt.alloc());
    let made = [
        in_turn(
            &limited,
            || over_kind(&limited, (Kind::Records, 130), &Make),
        ) >= Some(2),
        in_turn(
            &limited,
            || over_kind(&limited, (Kind::Checkpoints, 130), &Make),
        ) >= Some(1),
    ];
    expect_eq(&rt, (made, limited.blocks_out()), ([true; 2], 0));
}
