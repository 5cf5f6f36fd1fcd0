//! Scripts and files by what is written for them. Each call is made by a helper without clauses, and a test is a table of texts
//! with what is written for each.

mod files;
mod growths;
mod lengths;
mod scripts;
mod streams;
mod tasks;
mod words;

use lgp_lab::{Feed, FeedOf, LabFault, READS, Sink, SinkOf, run_script};
use std::alloc::{Allocator, Global};
use std::io::{Read, Write};

const FIRST_RUN: &[u8] =
    b"put 0000 000100j8\nput 0001 000q00jj\nput 0002 000j00k0\nput 0050 00000006\nput 0051 0000000f\npress start\norders 10\npanel\nwords 0052 1\n";

const FIRST_RUN_REPLIES: &[u8] =
    b"ok\nok\nok\nok\nok\nlive\norders 4 halted stop\ncounter 0004 accumulator 00000010 register 00000000 status halted stop mode normal switches uuuuuu reader off tape 0 clock 94\n0052 00000010\n";

/// How a call ended: its answer, and whether the reader and the writer have failed.
type Ended = (Result<u64, LabFault>, bool, bool);

/// Runs a script that is read at most so often; and how many reads are left.
fn run_reads<A: Allocator + Copy, R: Read + Drop, W: Write + Drop>(
    alloc: A,
    reads: u64,
    reader: R,
    writer: W,
) -> (Ended, u64) {
    let mut feed = FeedOf::new(reader, reads);
    let mut sink = SinkOf::new(writer);
    let answer = run_script(alloc, &mut feed, &mut sink);
    let ended = (answer, feed.has_failed(), sink.has_failed());
    (ended, feed.reads_left())
}

/// Runs a script.
fn run_between<A: Allocator + Copy, R: Read + Drop, W: Write + Drop>(
    alloc: A,
    reader: R,
    writer: W,
) -> Ended {
    run_reads(alloc, READS, reader, writer).0
}

/// Runs a script; its replies are written after `written`.
fn run(alloc: Global, script: &[u8], written: &mut Vec<u8>) -> Result<u64, LabFault> {
    run_between(alloc, script, written).0
}

/// A script, its replies, and how many of those begin with a question mark.
type Row<'a> = (&'a [u8], &'a [u8], u64);

/// Whether a script is answered as its row says.
fn is_answered(alloc: Global, (script, replies, faults): Row<'_>) -> bool {
    let mut written = Vec::new(alloc);
    let answer = run(alloc, script, &mut written);
    is_done(answer, faults) && written.as_slice() == replies
}

/// Whether this is the number that a call answers.
fn is_done(answer: Result<u64, LabFault>, number: u64) -> bool {
    match answer {
        Ok(answer) => answer == number,
        Err(_) => false,
    }
}

/// Whether a call answers that a write has failed after n bytes.
fn is_cut_off(answer: Result<u64, LabFault>, taken: u64) -> bool {
    match answer {
        Err(LabFault::Write(bytes)) => bytes == taken,
        _ => false,
    }
}

/// A text: its front, a part with how many times it stands there, and the rest.
type Parts<'a> = (&'a [u8], &'a [u8], usize, &'a [u8]);

/// A text of these parts; none where memory is refused.
fn built(alloc: Global, (front, part, times, rest): Parts<'_>) -> Option<Vec<u8>> {
    let mut text = Vec::new(alloc);
    let is_built = push_times(&mut text, front, 1)
        && push_times(&mut text, part, times)
        && push_times(&mut text, rest, 1);
    if is_built { Some(text) } else { None }
}

/// Appends a part a given number of times; false where memory is refused.
fn push_times(text: &mut Vec<u8>, part: &[u8], times: usize) -> bool {
    for _ in 0..times {
        if text.extend_from_slice(part).is_err() {
            return false;
        }
    }
    true
}
