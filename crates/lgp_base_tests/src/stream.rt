//! A language that gives each line back as far as it is kept.

ghost use Rattle.std.specs.Prelude.{◌++◌, codes};
ghost use Rattle.lgp_stream.specs.KeptLine.{kept_of};

use crate::{expect_eq, text_of};
use lgp_stream::{
    Answers, Failed, Feed, FeedOf, LineBytes, LineReader, SinkOf, StreamFault, run_text,
    write_whole,
};
use std::alloc::{AllocError, Allocator, Global};
use std::io::{Read, Write};

/// Answers a line by its front, and the text's end by a point.
#[derive(Drop)]
struct Echo;

impl<A: Allocator> Answers<A> for Echo {
    ghost language = { record {
      reply = λ echo text. (kept_of text).front ++ codes "\n";
      after = λ echo text. echo;
      closing = λ echo. codes ".\n";
    } };

    fn answer(&mut self, line: &LineBytes, reply: &mut Vec<u8, A>) -> Result<(), AllocError> {
        reply.extend_from_slice(line.front())?;
        reply.extend_from_slice(b"\n")
    }

    fn close(&mut self, reply: &mut Vec<u8, A>) -> Result<(), AllocError> {
        reply.extend_from_slice(b".\n")
    }
}

/// What is answered to a text: how many replies begin with a question mark.
fn echoed<A: Allocator + Copy, R: Read + Drop, W: Write + Drop>(
    alloc: A,
    text: R,
    replies: W,
) -> Result<u64, StreamFault> {
    let mut feed = FeedOf::new(text, 1000);
    let mut sink = SinkOf::new(replies);
    run_text(alloc, Echo, &mut feed, &mut sink)
}

/// A text, its replies, and how many of those begin with a question mark.
static TEXTS: [(&[u8], &[u8], u64); 5] = [
    (b"", b".\n", 0),
    (b"ab\n?\r\n\n?c", b"ab\n?\n\n?c\n.\n", 2),
    (b"one\n", b"one\n.\n", 0),
    (b"two\r", b"two\r\n.\n", 0),
    (b"\r\r\n", b"\r\n.\n", 0),
];

/// Whether a text has these replies, of which a given number begin with a question mark.
fn is_echoed(alloc: Global, text: &[u8], wanted: &[u8], questions: u64) -> bool {
    let mut replies = Vec::new(alloc);
    echoed(alloc, text, &mut replies) == Ok(questions) && replies.as_slice() == wanted
}

#[test]
fn each_line_has_its_reply(rt: HostRuntime) {
    for (text, wanted, questions) in &TEXTS {
        let seen = (*text, is_echoed(rt.alloc(), text, wanted, *questions));
        expect_eq(&rt, seen, (*text, true));
    }
}

/// How many replies to a text begin with a question mark, and how many bytes the replies have; `None` where it is not read whole.
fn counted(alloc: Global, text: &[u8]) -> Option<(u64, usize)> {
    let mut replies = Vec::new(alloc);
    match echoed(alloc, text, &mut replies) {
        Ok(questions) => Some((questions, replies.len())),
        Err(_) => None,
    }
}

/// The same of a text of a given number of lines of fifteen bytes, after a line of a given length; `None` without memory.
fn long_echoed(alloc: Global, first: u32, lines: u32) -> Option<(u64, usize)> {
    let pieces: [(&[u8], u32); 3] = [(b"x", first), (b"\n", 1), (b"0123456789abcde\n", lines)];
    match text_of(alloc, &pieces) {
        Some(text) => counted(alloc, &text),
        None => None,
    }
}

#[test]
fn of_a_line_4096_bytes_are_kept(rt: HostRuntime) {
    expect_eq(
        &rt,
        [
            long_echoed(rt.alloc(), 4096, 1),
            long_echoed(rt.alloc(), 4097, 1),
            long_echoed(rt.alloc(), 10_000, 4_096),
        ],
        [
            Some((0, 4097 + 16 + 2)),
            Some((0, 4097 + 16 + 2)),
            Some((0, 4097 + 65_536 + 2)),
        ],
    );
}

/// What is kept of bytes: whether they are longer, whether all are spaces, whether they are the word `ab`, and whether their
/// front is a text.
fn kept(text: &[u8], front: &[u8]) -> [bool; 4] {
    let mut bytes = LineBytes::new();
    for byte in text {
        bytes.push(*byte);
    }
    [
        bytes.is_longer(),
        bytes.has_no_word(),
        bytes.is_word(b"ab"),
        bytes.front() == front,
    ]
}

#[test]
fn bytes_are_kept_in_their_order(rt: HostRuntime) {
    let rows = [
        kept(b"", b""),
        kept(b"  ", b"  "),
        kept(b"ab", b"ab"),
        kept(b"ab ", b"ab "),
    ];
    let wanted = [
        [false, true, false, true],
        [false, true, false, true],
        [false, false, true, true],
        [false, false, false, true],
    ];
    expect_eq(&rt, rows, wanted);
}

/// Writes a text whole; false where that fails.
fn write_into<W: Write + Drop>(writer: W, text: &[u8]) -> bool {
    let mut sink = SinkOf::new(writer);
    write_whole(&mut sink, text).is_ok()
}

/// Whether a text is written whole.
fn is_written(alloc: Global, text: &[u8]) -> bool {
    let mut written = Vec::new(alloc);
    write_into(&mut written, text) && written.as_slice() == text
}

#[test]
fn a_write_is_counted_after_what_was_written(rt: HostRuntime) {
    expect_eq(
        &rt,
        (
            is_written(rt.alloc(), b"file a\n"),
            [
                StreamFault::Read.after_bytes(7),
                StreamFault::Write(2).after_bytes(7),
                StreamFault::Memory.after_bytes(7),
            ],
        ),
        (
            true,
            [
                StreamFault::Read,
                StreamFault::Write(9),
                StreamFault::Memory,
            ],
        ),
    );
}

/// Appends each line that is read, and a line feed; answers how many there were. `None` where memory is refused.
fn append_lines<R: Feed>(feed: &mut R, text: &mut Vec<u8, Global>) -> Option<Result<u32, Failed>> {
    let mut lines = LineReader::new();
    for count in 0..u32::MAX {
        match lines.next_line(feed) {
            Ok(true) => {
                text.extend_from_slice(lines.line().front()).ok()?;
                text.push(b'\n').ok()?;
            }
            Ok(false) => return Some(Ok(count)),
            Err(failed) => return Some(Err(failed)),
        }
    }
    None
}

/// A text, how many reads are left, the lines that are read then, and how many they are.
type Reading = (&'static [u8], u64, &'static [u8], Result<u32, Failed>);

static READINGS: [Reading; 7] = [
    (b"", 1000, b"", Ok(0)),
    (b"\n", 1000, b"\n", Ok(1)),
    (b"one\r\n\ntwo", 1000, b"one\n\ntwo\n", Ok(3)),
    (b"\r\r\ntwo\r", 1000, b"\r\ntwo\r\n", Ok(2)),
    (b"one\ntwo\n", 1, b"one\ntwo\n", Err(Failed)),
    (b"one\ntwo", 1, b"one\n", Err(Failed)),
    (b"one\n", 0, b"", Err(Failed)),
];

/// Whether these lines are read of a text, and so many.
fn is_read(
    alloc: Global,
    text: &[u8],
    reads: u64,
    wanted: &[u8],
    count: Result<u32, Failed>,
) -> bool {
    let mut lines = Vec::new(alloc);
    append_lines(&mut FeedOf::new(text, reads), &mut lines) == Some(count)
        && lines.as_slice() == wanted
}

#[test]
fn lines_are_read_one_after_another(rt: HostRuntime) {
    for (text, reads, wanted, count) in &READINGS {
        let seen = is_read(rt.alloc(), text, *reads, wanted, *count);
        expect_eq(&rt, (*text, seen), (*text, true));
    }
}

/// How many lines are read of a line of 10,000 bytes and 4,096 lines of fifteen, and how many bytes are kept of them.
fn long_read(alloc: Global) -> Option<(Result<u32, Failed>, usize)> {
    let pieces: [(&[u8], u32); 3] = [(b"x", 10_000), (b"\n", 1), (b"0123456789abcde\n", 4_096)];
    let text = text_of(alloc, &pieces)?;
    let mut lines = Vec::new(alloc);
    let count = append_lines(&mut FeedOf::new(text.as_slice(), 1000), &mut lines)?;
    Some((count, lines.len()))
}

#[test]
fn long_lines_are_read(rt: HostRuntime) {
    expect_eq(&rt, long_read(rt.alloc()), Some((Ok(4097), 4097 + 65_536)));
}
