//! Typed lines and what is written for them. Each call is made by a helper without clauses, and a test is a table of texts with what
//! is written for each.

use crate::{End, ended, expect_eq, is_done};
use lgp_lab::{FeedOf, READS, SinkOf};
use lgp_limited::Limited;
use lgp_monitor::Monitor;
use lgp_stream::{StreamFault, run_text};
use std::alloc::{Allocator, Global};

/// Typed lines, what is written for them, and how many replies begin with a question mark.
type Row = (&'static [u8], &'static [u8], u64);

/// Others are in `texts/` and `examples/`, and the monitor's proved program answers those.
static ROWS: [Row; 4] = [
    // Words by order, number and fraction: the machine's word of n at 30 is 2n, and -.5 is -2^30 of 2^31 steps.
    (
        b"put 0050 = 385\nput 0051 = -1\nput 0052 -.5\nput 0053 h 6363\nwords 0050 4\n",
        b"ok\nok\nok\nok\n0050 00000302\n0051 wwwwwwwq\n0052 j0000000\n0053 000j3wwj\n",
        0,
    ),
    // Faults of three kinds, each with its line and a mark; the line without one is not shown, nor is any where the source has no end. The
    // source from before stays.
    (
        b"source\nold z\n end\n.\nsource\nstart b none\n\n q 0100 ; no such order\r\nstart\tz\n end\n.\nlabels\ntranscript\n",
        b"cells 1 start none\n? 9 Faults\nline 1 UnknownName\n        start b none\n                ^^^^\n        no line has this label: check the spelling, or give a line this label\nline 3 UnknownOrder\n         q 0100 ; no such order\n         ^\n        there is no such operation: write one of the sixteen letters, -t, word, frac, int, org or end\nline 4 LabelTwice\n        start\tz\n        ^^^^^\n        an earlier line has the same label: give one of the two lines a different label\nold 0000\nsource\nold z\n end\n.\nsource\nstart b none\n\n q 0100 ; no such order\nstart\tz\n end\n.\n",
        1,
    ),
    // No order, one that a rule stops after, one before rest, and none at rest. The transcript has one space before each operand.
    (
        b"put 0000 b 0003\nput 0001 z 0000\nbreak 0001\npress start\ntrace 0\ntrace   9  \ntrace 9999999999\ntrace 3\ntranscript\n",
        b"ok\nok\nrule 0\nlive\n  clock  at           order           find take seek  act   sum  accumulator\nran 0 limit\n  clock  at           order           find take seek  act   sum  accumulator\n      0  0000         b 0003            64    1   26    1    92  00000000\n        this order was put there by hand, clock 0; before it was z 0000\nran 1 rule 0\n        the machine is still going: use run to continue, or press manual to halt it\n  clock  at           order           find take seek  act   sum  accumulator\n     92  0001         z 0000            45    1    1    1    48  00000000\nran 1 rest\n  clock  at           order           find take seek  act   sum  accumulator\nran 0 rest\n        a stop order halted the machine: press start to continue\nput 0000 0001000j\nput 0001 00000000\nbreak 0001\npress start\nrun 0\nrun 9\nrun 9999999999\nrun 3\n",
        0,
    ),
    // The last line of a listing that reads like a run.
    (
        b"source\nrule z\nran end rule\n.\nlist\nquit\nhelp quit\n",
        b"cells 1 start 0000\n0000 00000000 rule z\n              ran end rule\n? 1 Form: quit, which ends the program lgp_monitor\nquit, which ends the program lgp_monitor\n",
        1,
    ),
];

/// Answers typed lines; what is written comes after `written`.
fn run<A: Allocator + Copy>(
    alloc: A,
    typed: &[u8],
    written: &mut Vec<u8>,
) -> Result<u64, StreamFault> {
    let Ok(monitor) = Monitor::new(alloc) else {
        return Err(StreamFault::Memory);
    };
    let mut feed = FeedOf::new(typed, READS);
    let mut sink = SinkOf::new(written);
    run_text(alloc, monitor, &mut feed, &mut sink)
}

/// Whether this is written for typed lines, and a given number of replies begin with a question mark.
fn is_answered(alloc: Global, typed: &[u8], replies: &[u8], faults: u64) -> bool {
    let mut written = Vec::new(alloc);
    let answer = run(alloc, typed, &mut written);
    is_done(answer, faults) && written.as_slice() == replies
}

/// How many rows come before the first that is answered otherwise.
fn rows_answered(alloc: Global) -> usize {
    let mut answered: usize = 0;
    for (typed, replies, faults) in &ROWS {
        if !is_answered(alloc, typed, replies, *faults) {
            return answered;
        }
        answered = answered.saturating_add(1);
    }
    answered
}

#[test]
fn typed_lines_are_answered(rt: HostRuntime) {
    expect_eq(&rt, rows_answered(rt.alloc()), 4);
}

/// Appends parts one after another; false where memory is refused.
fn push_parts(text: &mut Vec<u8>, parts: [&[u8]; 3]) -> bool {
    for part in parts {
        if text.extend_from_slice(part).is_err() {
            return false;
        }
    }
    true
}

/// Whether this is written for a source of these lines between a short one and its point.
fn is_marked(alloc: Global, lines: &[u8], text: &[u8]) -> bool {
    let mut typed = Vec::new(alloc);
    push_parts(&mut typed, [b"source\n q\n", lines, b"\n.\n"])
        && is_answered(alloc, &typed, text, 1)
}

/// A line of a source as long as a line may be, and one that is longer.
const LONGEST: [u8; 4096] = [b' '; 4096];

const TOO_LONG: [u8; 4097] = [b' '; 4097];

#[test]
fn a_source_that_is_too_long_has_no_marks(rt: HostRuntime) {
    let marked =
        b"? 9 Faults\nline 1 UnknownOrder\n         q\n         ^\n        there is no such operation: write one of the sixteen letters, -t, word, frac, int, org or end\nline 3 NoEnd\n        the end line is missing: end with a line that has end and the label of the first order\n";
    let refused = b"? 11 TooLong: a line may have at most 4096 bytes, a source at most 1048576\n";
    let answered = [
        is_marked(rt.alloc(), &LONGEST, marked),
        is_marked(rt.alloc(), &TOO_LONG, refused),
    ];
    expect_eq(&rt, answered, [true, true]);
}

/// Runs that are reported in each way, with labels.
const EACH: &[u8] =
    b"source\nfirst z\n end\n.\nput 0000 b 0003\npress start\ntrace 1\nprofile 1\npress start\ndrum 2\nback 2\ntrace-data 1\nprofile-data 1\npanel-data\nlive\npress start\noptimum 1\npress start\noptimum 1 0000\noperate 1\nat 3 panel\nat 1 trace 2\nnew\nput 0000 p 0600\npress start\nrun 9 until printed 1\npaper\nto 1\nto last printed 1\nto 0\n";

/// Questions of programs, each of which is answered by records.
const ASKED: &[u8] =
    b"source\nfirst y 0005\n p =a\n z\n end first\n.\nload\nbreak first\nrun 1\nrun 9\nmount 12'\nstate-data\nshow-data first 3\nwhy-data 0005\nlabels-data\nrules-data\npaper-data 0\ntape-data\nsource-data\ncost first\noptimum-data 1\noptimum-data 1 0005\ncommands-data\noperations-data\nfaults-data\nlook first 3 0\njson look first 3 0\njson optimum-data 1\nback 1\njson trace-data 1\nback 1\njson profile-data 1\njson source-data\n";

/// Two sources with faults.
const FAULTY: &[u8] = b"source\n q\n b none\n end\n.\nsource\n z\n.\n";

/// More growths than those lines take.
const MOST: u64 = 1000;

/// Answers lines with the nth growth refused.
fn end_of(limited: &Limited<Global>, global: Global, lines: &[u8], faults: u64, nth: u64) -> End {
    let mut written = Vec::new(global);
    limited.refuse(nth);
    let answer = run(limited, lines, &mut written);
    ended(limited.was_refused(), answer, faults)
}

/// How many growths are refused in turn until none is left, where each ends the lines for want of memory; 0 where one does not.
fn refusals(limited: &Limited<Global>, global: Global, lines: &[u8], faults: u64) -> u64 {
    for nth in 1..MOST {
        match end_of(limited, global, lines, faults, nth) {
            End::Refused => {}
            End::Done => return nth - 1,
            End::Otherwise => return 0,
        }
    }
    0
}

#[test]
fn each_growth_of_reported_runs_and_of_marked_faults_is_refused(rt: HostRuntime) {
    let limited = Limited::new(rt.alloc());
    let are_refused = [
        refusals(&limited, rt.alloc(), EACH, 0) > 20,
        refusals(&limited, rt.alloc(), ASKED, 0) > 40,
        refusals(&limited, rt.alloc(), FAULTY, 2) > 20,
    ];
    expect_eq(&rt, (are_refused, limited.blocks_out()), ([true; 3], 0));
}
