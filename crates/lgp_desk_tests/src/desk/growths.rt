//! Each growth of a session is refused in turn.

use super::run;
use crate::{End, ended, expect_eq};
use lgp_desk::Manner;
use lgp_limited::Limited;
use std::alloc::Global;

/// A word that goes and one that comes, a source, tapes, a file whose lines name another one, a refused file, and the drum that is kept.
const EACH: &[u8] =
    b"put 0000 = 1\nrestore drum\nsource program\ntape tape\ntape longer\ndo outer\ndo none\nsave kept\nquit\n";

/// What SIMH has, and what is kept of a tape and for SIMH.
const SHARED: &[u8] =
    b"bytes coded\nrestore-simh shown\nsave-simh kept\ncopy kept\ncopy-archive kept\ncopy-bytes kept\nquit\n";

/// More growths than those lines take.
const MOST: u64 = 5000;

/// Answers lines, of which a given number are refused, with the nth growth refused.
fn end_of(
    limited: &Limited<Global>,
    global: Global,
    (lines, refused): (&[u8], bool),
    nth: u64,
) -> End {
    let mut written = Vec::new(global);
    limited.refuse(nth);
    let answer = run(limited, Manner::Prompting, lines, &mut written);
    ended(limited.was_refused(), answer, refused)
}

/// How many growths there are, where each that is refused in turn ends the lines for want of memory; 0 where one does not.
fn refusals(limited: &Limited<Global>, global: Global, lines: (&[u8], bool)) -> u64 {
    for nth in 1..MOST {
        match end_of(limited, global, lines, nth) {
            End::Refused => {}
            End::Done => return nth - 1,
            End::Otherwise => return 0,
        }
    }
    0
}

#[test]
fn each_growth_is_refused(rt: HostRuntime) {
    let limited = Limited::new(rt.alloc());
    let are_refused = [
        refusals(&limited, rt.alloc(), (EACH, true)) > 60,
        refusals(&limited, rt.alloc(), (SHARED, false)) > 20,
    ];
    expect_eq(&rt, (are_refused, limited.blocks_out()), ([true; 2], 0));
}
