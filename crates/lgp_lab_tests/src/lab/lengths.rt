//! Lines and sources that are just short enough, and just too long.

use super::{Parts, built, is_answered};
use crate::expect_eq;
use std::alloc::Global;

/// The parts of a script, its replies, and how many of those begin with a question mark.
type LongRow = (Parts<'static>, &'static [u8], u64);

/// Whether a script of these parts is answered as its row says.
fn is_long_answered(alloc: Global, (script, replies, faults): &LongRow) -> bool {
    match built(alloc, *script) {
        Some(script) => is_answered(alloc, (&script, replies, *faults)),
        None => false,
    }
}

/// A comment of 64 bytes with its line feed. A source has room for 16,384 of them.
const COMMENT: &[u8] = b";;;;;;;;;;;;;;;;;;;;;;;;;;;;;;;;;;;;;;;;;;;;;;;;;;;;;;;;;;;;;;;\n";

static ROWS: [LongRow; 13] = [
    // The line `turn 5` with spaces after it, up to a given number of bytes, how it ends, and a line after it.
    (
        (b"turn 5", b" ", 4090, b"\nturn 1\n"),
        b"clock 5\nclock 6\n",
        0,
    ),
    (
        (b"turn 5", b" ", 4090, b"\r\nturn 1\n"),
        b"clock 5\nclock 6\n",
        0,
    ),
    (
        (b"turn 5", b" ", 4091, b"\nturn 1\n"),
        b"? 11 TooLong\nclock 1\n",
        1,
    ),
    (
        (b"turn 5", b" ", 4090, b"\r\r\nturn 1\n"),
        b"? 11 TooLong\nclock 1\n",
        1,
    ),
    (
        (b"turn 5", b" ", 8994, b"\nturn 1\n"),
        b"? 11 TooLong\nclock 1\n",
        1,
    ),
    // A blank line and a comment have any length.
    ((b"", b" ", 9000, b"\nturn 1"), b"clock 1\n", 0),
    ((b"", b";", 9000, b"\nturn 1"), b"clock 1\n", 0),
    // A source with a comment of 4,096 bytes, and one whose comment has a byte more.
    (
        (b"source\n;", b"a", 4095, b"\n end\n.\nturn 1\n"),
        b"cells 0 start none\nclock 1\n",
        0,
    ),
    (
        (b"source\n;", b"a", 4096, b"\n end\n.\nturn 1\n"),
        b"? 11 TooLong\nclock 1\n",
        1,
    ),
    // A source of 1,048,576 bytes without an end line, one byte more, an end line more, and one with an end line that fits.
    (
        (b"source\n", COMMENT, 16_384, b".\nturn 1\n"),
        b"? 9 Faults\nline 16385 NoEnd\nclock 1\n",
        1,
    ),
    (
        (b"source\n", COMMENT, 16_384, b"\n.\nturn 1\n"),
        b"? 11 TooLong\nclock 1\n",
        1,
    ),
    (
        (b"source\n", COMMENT, 16_384, b" end\n.\nturn 1\n"),
        b"? 11 TooLong\nclock 1\n",
        1,
    ),
    (
        (
            b"source\n",
            COMMENT,
            16_383,
            b";;;;;;;;;;;;;;;;;;;;;;;;;;;;;;;;;;;;;;;;;;;;;;;;;;;;;;;;;;\n end\n.\nturn 1\n",
        ),
        b"cells 0 start none\nclock 1\n",
        0,
    ),
];

#[test]
fn lines_have_at_most_4096_bytes_and_sources_1048576(rt: HostRuntime) {
    for row in &ROWS {
        expect_eq(
            &rt,
            (row.1, is_long_answered(rt.alloc(), row)),
            (row.1, true),
        );
    }
}
