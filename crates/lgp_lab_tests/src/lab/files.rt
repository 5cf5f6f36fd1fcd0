//! What is written for files.

use super::streams::{Failing, Pieces};
use super::{FIRST_RUN, built, is_cut_off, is_done};
use crate::expect_eq;
use lgp_lab::{FeedOf, LabFault, READS, SinkOf, asm_file, batch_part, run_file, tape_file};
use std::alloc::{Allocator, Global};
use std::io::{Read, Write};

/// A call on a source file.
#[derive(Clone, Copy)]
pub enum FileCall {
    Listing,
    Tape,
    /// Without further orders.
    Run,
}

/// Writes what a call writes for a source.
pub fn write_between<A: Allocator + Copy, R: Read + Drop, W: Write + Drop>(
    call: FileCall,
    alloc: A,
    reader: R,
    writer: W,
) -> Result<u64, LabFault> {
    let mut feed = FeedOf::new(reader, READS);
    let mut sink = SinkOf::new(writer);
    match call {
        FileCall::Listing => asm_file(alloc, &mut feed, &mut sink),
        FileCall::Tape => tape_file(alloc, &mut feed, &mut sink),
        FileCall::Run => run_file(alloc, &mut feed, 0, &mut sink),
    }
}

/// A call and a source, what is written for it, and the status.
pub type FileRow<'a> = (FileCall, &'a [u8], &'a [u8], u64);

/// A source of four words.
const SOURCE: &[u8] = b"start b one ; take\n h 0050\n z\none frac .1\n end start\n";

/// Calls and sources. Each is made with each of its growths refused, and last of all with none.
pub static FILES: [FileRow<'static>; 8] = [
    (
        FileCall::Listing,
        SOURCE,
        b"0000 0001000j start b one ; take\n0001 000j00j8  h 0050\n0002 00000000  z\n0003 0jjjjjjj one frac .1\n               end start\n",
        0,
    ),
    (
        FileCall::Listing,
        b" q\n",
        b"line 1 UnknownOrder\nline 2 NoEnd\n",
        1,
    ),
    (FileCall::Listing, b"", b"line 1 NoEnd\n", 1),
    (
        FileCall::Tape,
        SOURCE,
        b"000k0000'wwwwwww0'0001000j'000j00j8'00000000'0jjjjjjj'[16]800f0000'\n",
        0,
    ),
    (FileCall::Tape, b" end 0100\n", b"800f0100'\n", 0),
    (
        FileCall::Tape,
        b" q\n",
        b"line 1 UnknownOrder\nline 2 NoEnd\n",
        1,
    ),
    (
        FileCall::Run,
        b" org 0100\n word 00000004\n end\n",
        b"printed 0\ncounter 6320 accumulator 80000000 register 80000000 status halted stop mode normal switches uuuuuu reader off tape 0 clock 15342\n",
        0,
    ),
    (
        FileCall::Run,
        b" q\n",
        b"line 1 UnknownOrder\nline 2 NoEnd\n",
        1,
    ),
];

/// Whether a listing of a source that is too long is refused.
fn is_long_refused(alloc: Global, source: &[u8]) -> bool {
    let mut written = Vec::new(alloc);
    let answer = write_between(FileCall::Listing, alloc, source, &mut written);
    is_done(answer, 1) && written.as_slice() == b"? 11 TooLong\n".as_slice()
}

#[test]
fn a_source_file_has_at_most_1048576_bytes(rt: HostRuntime) {
    let is_refused = match built(rt.alloc(), (b"", b";", 1_048_577, b"")) {
        Some(long) => is_long_refused(rt.alloc(), &long),
        None => false,
    };
    expect_eq(&rt, is_refused, true);
}

/// Runs a script of several.
pub fn run_part<A: Allocator + Copy, R: Read + Drop, W: Write + Drop>(
    alloc: A,
    name: &'static str,
    reader: R,
    writer: W,
) -> Result<u64, LabFault> {
    let mut feed = FeedOf::new(reader, READS);
    let mut sink = SinkOf::new(writer);
    batch_part(alloc, name, &mut feed, &mut sink)
}

/// What is written for the first script, with its name above its replies.
pub const FIRST_PART: &[u8] =
    b"file first run\nok\nok\nok\nok\nok\nlive\norders 4 halted stop\ncounter 0004 accumulator 00000010 register 00000000 status halted stop mode normal switches uuuuuu reader off tape 0 clock 94\n0052 00000010\n";

/// Whether the first of two scripts has no fault and the other one has one, and whether both are answered so.
fn two_parts(alloc: Global) -> (bool, bool, bool) {
    let mut written = Vec::new(alloc);
    let first = Pieces::whole(FIRST_RUN, 5000);
    let first = run_part(alloc, "first run", first, &mut written);
    let other = run_part(alloc, "other", Pieces::whole(b"foo", 3), &mut written);
    (
        is_done(first, 0),
        is_done(other, 1),
        written.as_slice().strip_prefix(FIRST_PART) == Some(b"file other\n? 1 Form\n".as_slice()),
    )
}

#[test]
fn a_script_of_several_has_a_line_with_its_name(rt: HostRuntime) {
    expect_eq(&rt, two_parts(rt.alloc()), (true, true, true));
}

/// Whether a write that fails after a given number of bytes is reported so.
fn is_part_cut_off(alloc: Global, bytes: usize) -> bool {
    let script = Pieces::whole(b"turn 5\n", 7);
    let answer = run_part(alloc, "name", script, Failing::after(alloc, bytes, 1));
    is_cut_off(answer, bytes as u64)
}

#[test]
fn the_line_of_a_name_is_counted_where_a_write_fails(rt: HostRuntime) {
    let are_reported = [
        is_part_cut_off(rt.alloc(), 0),
        is_part_cut_off(rt.alloc(), 3),
        is_part_cut_off(rt.alloc(), 12),
    ];
    expect_eq(&rt, are_reported, [true; 3]);
}
