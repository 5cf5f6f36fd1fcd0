//! Readers and writers that fail, and how often they are read.

use super::{FIRST_RUN, FIRST_RUN_REPLIES, built, is_cut_off, is_done, run_between, run_reads};
use crate::expect_eq;
use lgp_lab::{Feed, FeedOf, LabFault, READS, Sink, SinkOf};
use std::alloc::Global;
use std::io;
use std::io::{Read, Write};

/// Gives a text in pieces of at most a given number of bytes. Then it ends, or fails once and ends after that.
#[derive(Drop)]
pub struct Pieces {
    text: &'static [u8],
    most: usize,
    fails: bool,
}

impl Pieces {
    /// Gives a text, and then ends or fails.
    pub fn new(text: &'static [u8], most: usize, fails: bool) -> Pieces {
        Pieces { text, most, fails }
    }

    /// Gives a text and then ends.
    pub fn whole(text: &'static [u8], most: usize) -> Pieces {
        Pieces {
            text,
            most,
            fails: false,
        }
    }
}

impl Read for Pieces {
    fn read(&mut self, buffer: &mut [u8]) -> io::Result<usize> {
        if self.text.is_empty() && self.fails {
            self.fails = false;
            return Err(io::ErrorKind::Other.into());
        }
        let count = self.text.len().min(self.most).min(buffer.len());
        buffer[..count].copy_from_slice(&self.text[..count]);
        self.text = &self.text[count..];
        Ok(count)
    }
}

/// Gives what another reader gives, and fails once where a given number of calls were answered.
#[derive(Drop)]
struct Torn {
    pieces: Pieces,
    calls: usize,
}

impl Read for Torn {
    fn read(&mut self, buffer: &mut [u8]) -> io::Result<usize> {
        if self.calls == 0 {
            self.calls = usize::MAX;
            return Err(io::ErrorKind::Other.into());
        }
        self.calls -= 1;
        self.pieces.read(buffer)
    }
}

/// Gives semicolons for ever, one a call.
#[derive(Drop)]
struct Semicolons;

impl Read for Semicolons {
    fn read(&mut self, buffer: &mut [u8]) -> io::Result<usize> {
        if buffer.is_empty() {
            return Ok(0);
        }
        buffer[0] = b';';
        Ok(1)
    }
}

/// Takes at most a given number of bytes a call, fails once where a given number of calls were answered, and takes bytes again after that.
#[derive(Drop)]
pub struct Failing {
    taken: Vec<u8>,
    most: usize,
    calls: usize,
}

impl Failing {
    /// Fails once a given number of calls were answered, and has taken nothing yet.
    pub fn after(alloc: Global, calls: usize, most: usize) -> Failing {
        Failing {
            taken: Vec::new(alloc),
            most,
            calls,
        }
    }

    /// The bytes that were taken.
    pub fn taken(&self) -> &[u8] {
        &self.taken
    }
}

impl Write for Failing {
    fn write(&mut self, buffer: &[u8]) -> io::Result<usize> {
        if self.calls == 0 {
            self.calls = usize::MAX;
            return Err(io::ErrorKind::Other.into());
        }
        self.calls -= 1;
        let count = buffer.len().min(self.most);
        self.taken.extend_from_slice(&buffer[..count])?;
        Ok(count)
    }

    fn flush(&mut self) -> io::Result<()> {
        Ok(())
    }
}

/// Takes nothing in its first call, and all bytes after that.
#[derive(Drop)]
struct Busy {
    taken: Vec<u8>,
    is_busy: bool,
}

impl Write for Busy {
    fn write(&mut self, buffer: &[u8]) -> io::Result<usize> {
        if self.is_busy {
            self.is_busy = false;
            return Ok(0);
        }
        self.taken.extend_from_slice(buffer)?;
        Ok(buffer.len())
    }

    fn flush(&mut self) -> io::Result<()> {
        Ok(())
    }
}

/// A text, whether a read fails after it, the replies, and the answer; none where it is that a read has failed.
static OPEN_LINES: [(&[u8], bool, &[u8], Option<u64>); 4] = [
    (b"put 0000 000100j8\npan", true, b"ok\n", None),
    (b"put 0000 000100j8\npan", false, b"ok\n? 1 Form\n", Some(1)),
    (b"source\n z", true, b"", None),
    (b"source\n z", false, b"? 9 Faults\nline 2 NoEnd\n", Some(1)),
];

/// Whether this is what a call answers; none is that a read has failed.
fn is_read(answer: Result<u64, LabFault>, wanted: Option<u64>) -> bool {
    match wanted {
        Some(number) => is_done(answer, number),
        None => matches!(answer, Err(LabFault::Read)),
    }
}

/// Whether a text is answered so, and only the reader has failed, if it was to.
fn is_open_line_answered(
    alloc: Global,
    reader: Pieces,
    replies: &[u8],
    wanted: Option<u64>,
) -> bool {
    let mut written = Vec::new(alloc);
    let fails = reader.fails;
    let (answer, has_read_failed, has_write_failed) = run_between(alloc, reader, &mut written);
    let are_so = has_read_failed == fails && !has_write_failed;
    is_read(answer, wanted) && are_so && written.as_slice() == replies
}

#[test]
fn a_read_that_fails_drops_the_open_line(rt: HostRuntime) {
    for (text, fails, replies, wanted) in &OPEN_LINES {
        for most in [1, 7] {
            let reader = Pieces::new(text, most, *fails);
            let seen = is_open_line_answered(rt.alloc(), reader, replies, *wanted);
            expect_eq(&rt, (*replies, seen), (*replies, true));
        }
    }
}

/// How many bytes a read gives, with whether a read has failed by then and how many are left; none where it fails.
fn next_read<R: Read + Drop>(feed: &mut FeedOf<R>) -> (Option<usize>, bool, u64) {
    let mut buffer = [0; 4];
    let count = feed.read(&mut buffer).ok();
    (count, feed.has_failed(), feed.reads_left())
}

/// That of two reads.
fn two_reads<R: Read + Drop>(reader: R, reads: u64) -> [(Option<usize>, bool, u64); 2] {
    let mut feed = FeedOf::new(reader, reads);
    [next_read(&mut feed), next_read(&mut feed)]
}

/// A feed reads again after a failed read, and fails with no read left.
#[test]
fn a_feed_counts_its_reads(rt: HostRuntime) {
    let reads = [
        two_reads(Pieces::new(b"", 1, true), 3),
        two_reads(Pieces::whole(b"12", 2), 1),
    ];
    let wanted = [
        [(None, true, 2), (Some(0), true, 1)],
        [(Some(2), false, 0), (None, true, 0)],
    ];
    expect_eq(&rt, reads, wanted);
}

/// Appends the first bytes of a buffer, and tells how many; `None` where that is refused.
fn take_front(buffer: &[u8], count: usize, taken: &mut Vec<u8>) -> Option<usize> {
    match buffer.get(..count) {
        Some(bytes) if taken.extend_from_slice(bytes).is_ok() => Some(count),
        _ => None,
    }
}

/// How many bytes a read into a buffer of such a length, 5,000 at most, gives, which go to the end of `taken`; `None` where it fails.
fn read_into<R: Read + Drop>(
    feed: &mut FeedOf<R>,
    length: usize,
    taken: &mut Vec<u8>,
) -> Option<usize> {
    let mut buffer = [0; 5000];
    match feed.read(&mut buffer[..length.min(5000)]) {
        Ok(count) => take_front(&buffer, count, taken),
        Err(_) => None,
    }
}

/// That of four reads one after another.
fn four_reads<R: Read + Drop>(
    reader: R,
    [first, second, third, fourth]: [usize; 4],
    taken: &mut Vec<u8>,
) -> [Option<usize>; 4] {
    let mut feed = FeedOf::new(reader, READS);
    [
        read_into(&mut feed, first, taken),
        read_into(&mut feed, second, taken),
        read_into(&mut feed, third, taken),
        read_into(&mut feed, fourth, taken),
    ]
}

/// That of four reads, and whether they give this text in all.
fn four_reads_of<R: Read + Drop>(
    alloc: Global,
    reader: R,
    lengths: [usize; 4],
    text: &[u8],
) -> ([Option<usize>; 4], bool) {
    let mut taken = Vec::new(alloc);
    let counts = four_reads(reader, lengths, &mut taken);
    (counts, taken.as_slice() == text)
}

/// It fails on a body that answers an empty buffer with an error, that reads a byte at a time, and that reads no more than 4,096
/// bytes at once.
#[test]
fn a_feed_fills_a_buffer_of_any_length(rt: HostRuntime) {
    let seen = match built(rt.alloc(), (b"", b"0123456789a", 500, b"")) {
        Some(text) => four_reads_of(rt.alloc(), text.as_slice(), [0, 1, 5000, 5000], &text),
        None => ([None; 4], false),
    };
    expect_eq(&rt, seen, ([Some(0), Some(1), Some(5000), Some(499)], true));
}

/// It fails on a body that reads again itself after an error, that takes an error for the end, and that has failed for good.
#[test]
fn a_feed_goes_on_after_an_error_in_its_midst(rt: HostRuntime) {
    let torn = Torn {
        pieces: Pieces::whole(b"abcdef", 3),
        calls: 1,
    };
    let seen = four_reads_of(rt.alloc(), torn, [4; 4], b"abcdef");
    expect_eq(&rt, seen, ([Some(3), None, Some(3), Some(0)], true));
}

/// How many bytes a write takes, with whether a write has failed by then; none where it fails.
fn next_write<W: Write + Drop>(sink: &mut SinkOf<W>, text: &[u8]) -> (Option<usize>, bool) {
    let count = sink.write(text).ok();
    (count, sink.has_failed())
}

/// That of three writes.
fn three_writes<W: Write + Drop>(
    writer: W,
    [first, second, third]: [&[u8]; 3],
) -> [(Option<usize>, bool); 3] {
    let mut sink = SinkOf::new(writer);
    [
        next_write(&mut sink, first),
        next_write(&mut sink, second),
        next_write(&mut sink, third),
    ]
}

/// What three writes give, where the second one fails, and whether `1` was taken in all.
fn written_after_failure(alloc: Global) -> ([(Option<usize>, bool); 3], bool) {
    let mut failing = Failing::after(alloc, 1, 1);
    let writes = three_writes(&mut failing, [b"", b"1", b"12"]);
    (writes, failing.taken() == b"1".as_slice())
}

#[test]
fn a_sink_takes_an_empty_write(rt: HostRuntime) {
    let wanted = [(Some(0), false), (None, true), (Some(1), true)];
    expect_eq(&rt, written_after_failure(rt.alloc()), (wanted, true));
}

/// What is given by two writes of the same bytes and an empty one, where nothing is taken at first, and whether the bytes were
/// taken once in all.
fn written_when_busy(alloc: Global) -> ([(Option<usize>, bool); 3], bool) {
    let mut busy = Busy {
        taken: Vec::new(alloc),
        is_busy: true,
    };
    let writes = three_writes(&mut busy, [b"12", b"12", b""]);
    (writes, busy.taken.as_slice() == b"12".as_slice())
}

/// It fails on a body that tries again itself where nothing was taken, and that has failed for good.
#[test]
fn a_write_that_took_nothing_is_tried_again_by_its_caller(rt: HostRuntime) {
    let wanted = [(None, true), (Some(2), true), (Some(0), true)];
    expect_eq(&rt, written_when_busy(rt.alloc()), (wanted, true));
}

/// What is given by two writes of a text and an empty one, and whether the text was taken twice in all.
fn written_twice(alloc: Global, text: &[u8]) -> ([(Option<usize>, bool); 3], bool) {
    let mut written = Vec::new(alloc);
    let writes = three_writes(&mut written, [text, text, b""]);
    let is_twice = match written.as_slice().strip_prefix(text) {
        Some(second) => second == text,
        None => false,
    };
    (writes, is_twice)
}

/// It fails on a body that hands on no more than 65,536 bytes at once, and that refuses more.
#[test]
fn a_sink_takes_more_than_65536_bytes_at_once(rt: HostRuntime) {
    let seen = match built(rt.alloc(), (b"", b"0123456789a", 10_000, b"")) {
        Some(text) => written_twice(rt.alloc(), &text),
        None => ([(None, false); 3], false),
    };
    let long = (Some(110_000), false);
    expect_eq(&rt, seen, ([long, long, (Some(0), false)], true));
}

/// How a script of semicolons without an end goes that is read 10 times: how many reads are left, whether the answer is that a read
/// has failed, whether the reader and the writer have failed, and how many bytes are written.
fn run_semicolons(alloc: Global) -> (u64, bool, bool, bool, usize) {
    let mut written = Vec::new(alloc);
    let ((answer, has_read_failed, has_write_failed), left) = run_reads(
        alloc,
        10,
        Semicolons,
        &mut written,
    );
    (
        left,
        is_read(answer, None),
        has_read_failed,
        has_write_failed,
        written.len(),
    )
}

#[test]
fn reads_are_counted_down(rt: HostRuntime) {
    expect_eq(&rt, run_semicolons(rt.alloc()), (0, true, true, false, 0));
}

/// Whether as many bytes as are reported to be taken are those of the replies, where a write fails.
fn is_taken(alloc: Global, most: usize, calls: usize) -> bool {
    let mut failing = Failing::after(alloc, calls, most);
    let (answer, has_read_failed, has_write_failed) = run_between(alloc, FIRST_RUN, &mut failing);
    let taken = most.saturating_mul(calls);
    let are_so = is_cut_off(answer, taken as u64) && !has_read_failed && has_write_failed;
    are_so && failing.taken() == FIRST_RUN_REPLIES.get(..taken).unwrap_or_default()
}

/// After how many calls of a writer that takes at most n bytes a failure is reported otherwise.
fn reported_otherwise(alloc: Global, most: usize) -> Option<usize> {
    for calls in 0..FIRST_RUN_REPLIES.len() {
        if !is_taken(alloc, most, calls) {
            return Some(calls);
        }
    }
    None
}

#[test]
fn a_write_that_fails_tells_how_many_bytes_were_taken(rt: HostRuntime) {
    let seen = [
        reported_otherwise(rt.alloc(), 0),
        reported_otherwise(rt.alloc(), 1),
    ];
    expect_eq(&rt, seen, [None; 2]);
}
