//! Lines typed at a desk, and the lines of files that a test makes: a test is a table of texts with what is written for each.

mod growths;
mod json;
mod kept;
mod known;
mod progress;
mod sessions;
mod steps;

ghost use Rattle.std.specs.Io.{ReadsAtMost};

use crate::{expect_eq, is_done};
use lgp_desk::{FileTrouble, Files, Manner, attend};
use lgp_lab::{Feed, FeedOf, FileNames, READS, SinkOf};
use lgp_monitor::{Progress, Silence};
use lgp_stream::{Failed, StreamFault};
use std::alloc::{Allocator, Global};

/// A few files, of which `kept` may be written, and what the open one has left.
#[derive(Drop)]
pub(crate) struct Made {
    left: Option<FeedOf<&'static [u8]>>,
}

/// A few files, of which none is open.
pub(crate) fn few_files() -> Made {
    Made { left: None }
}

/// Reads on in a file, if one is open.
pub(crate) fn read_on<R: Feed>(left: &mut Option<R>, buffer: &mut [u8]) -> Result<usize, Failed>
    ensures { ReadsAtMost result buffer.new }
{
    match left {
        Some(feed) => feed.read(buffer),
        None => Err(Failed),
    }
}

/// A tape as long as a line has room for, one that is longer by a code, and one of carriage returns.
const FITTING: [u8; 4090] = [b'f'; 4090];

const LONGER: [u8; 4091] = [b'f'; 4091];

const RETURNS: [u8; 1023] = [b'\r'; 1023];

/// Blank tape, of which a line has no room for the text.
const BLANK: [u8; 1024] = [0; 1024];

/// The names of files and their bytes. First come those of lines.
static FILES: [(&str, &[u8]); 24] = [
    ("two lines", b"put 0000 = 1\nwords 0000 1"),
    (
        "outer",
        b"put 0001 = 1\r\ndo two lines\nwords 0001 1\nfoo\n",
    ),
    ("itself", b"do itself\n"),
    (
        "naming",
        b"foo\nsource program\nrestore torn\ntape torn\narchive torn\nsource faulty\nbar\n",
    ),
    ("leaving", b"do quitting\nwords 0000 1\n"),
    ("quitting", b"quit\nwords 0000 1\n"),
    ("opening", b"source\n start z\n"),
    ("lesson.txt", b"put 0001 = 2\nfoo"),
    ("empty", b""),
    ("program", b"start z\n end start"),
    ("faulty", b" foo\n"),
    ("pointed", b" z\n.\n z\n"),
    ("tape", b"12[16]\n3'"),
    ("torn", b"12A"),
    ("later", b"12\n[16]\n3A"),
    ("strange", b"12@"),
    ("drum", b"0100 00000004\r\n0101 00000008"),
    ("coded", b"\x06\x0a\x10\x0e\x20"),
    ("shown", b"0100:\t0000000J\r\nd -lt 0101 00000008\n"),
    ("backwards", b"0101:\t00000004\n0100:\t00000008\n"),
    ("fitting", &FITTING),
    ("longer", &LONGER),
    ("returns", &RETURNS),
    ("blank", &BLANK),
];

/// The bytes of a file.
fn bytes_of(name: &str) -> Option<&'static [u8]> {
    for (known, bytes) in &FILES {
        if *known == name {
            return Some(*bytes);
        }
    }
    None
}

impl Files for Made {
    ghost answer = { λ files call after. Unit {0} };

    fn open(&mut self, name: &str) -> bool {
        self.left = None;
        if let Some(bytes) = bytes_of(name) {
            self.left = Some(FeedOf::new(bytes, READS));
        }
        self.left.is_some()
    }

    fn read(&mut self, buffer: &mut [u8]) -> Result<usize, Failed> {
        read_on(&mut self.left, buffer)
    }

    fn close(&mut self) {
        self.left = None;
    }

    fn keep(&mut self, name: &str, _text: &[u8]) -> bool {
        name == "kept"
    }
}

/// Answers the lines of a reader at a desk with these files; what is written comes after `written`.
fn answer_read<A: Allocator + Copy, F: Files, P: Progress, R: Feed>(
    alloc: A,
    manner: Manner,
    files: &mut F,
    progress: P,
    reader: &mut R,
    written: &mut Vec<u8>,
) -> Result<bool, StreamFault> {
    let mut sink = SinkOf::new(&mut *written);
    let names = FileNames::new(alloc);
    attend(
        alloc,
        manner,
        names.names(),
        files,
        progress,
        reader,
        &mut sink,
    )
}

/// The same with typed lines.
pub(crate) fn answer<A: Allocator + Copy, F: Files, P: Progress>(
    alloc: A,
    manner: Manner,
    files: &mut F,
    progress: P,
    typed: &[u8],
    written: &mut Vec<u8>,
) -> Result<bool, StreamFault> {
    let mut feed = FeedOf::new(typed, READS);
    answer_read(alloc, manner, files, progress, &mut feed, written)
}

/// The same with a few files.
pub(crate) fn run<A: Allocator + Copy>(
    alloc: A,
    manner: Manner,
    typed: &[u8],
    written: &mut Vec<u8>,
) -> Result<bool, StreamFault> {
    answer(alloc, manner, &mut few_files(), Silence, typed, written)
}

/// Typed lines, how they are written, what is written, and whether a reply is a refusal.
pub(crate) type Row = (Manner, &'static [u8], &'static [u8], bool);

/// Whether typed lines are answered as their row says.
fn is_answered(alloc: Global, row: &Row) -> bool {
    let (manner, typed, text, refused) = *row;
    let mut written = Vec::new(alloc);
    let answer = run(alloc, manner, typed, &mut written);
    is_done(answer, refused) && written.as_slice() == text
}

/// How many rows come before the first that is answered otherwise.
pub(crate) fn rows_answered(alloc: Global, rows: &[Row]) -> usize {
    let mut answered: usize = 0;
    for row in rows {
        if !is_answered(alloc, row) {
            return answered;
        }
        answered = answered.saturating_add(1);
    }
    answered
}

/// Lines without prompts are in `texts/` and `examples/`, and the proved program answers those.
static LINES: [Row; 8] = [
    // Counter and status come before each line but those of a source, in which quit is a line as others.
    (
        Manner::Prompting,
        b"put 0003 u 0102\ngo 0003\nrun 1\nsource\nquit z\n end\n.\nlabels\nquit\nlabels\n",
        b"0000 halted operator> ok\n0000 halted operator> live\nlive 8 dead 0\nlive\nlive\nlive\norders 1 halted step\nlive\nlive\n0003 going> ran 1 limit\n0102 going> source> source> source> cells 1 start none\n0102 going> quit 0000\n0102 going> ",
        false,
    ),
    // Which rest it is: after an overflow, an input without a tape, one operation and a stop, and an order at the register.
    (
        Manner::Prompting,
        b"put 0000 d 0010\nput 0001 i\npress start\nrun 9\npress start\nrun 9\npress oneop\npress compute\npress start\nrun 9\npress execute\nquit\n",
        b"0000 halted operator> ok\n0000 halted operator> ok\n0000 halted operator> live\n0000 going> ran 1 rest\n0001 halted overflow> live\n0001 going> ran 1 rest\n0002 waiting> live\n0002 waiting> live\n0002 halted step> live\n0002 going> ran 1 rest\n0003 halted stop> live\n0003 executing> ",
        false,
    ),
    // After a rule the machine is still going; a reader that was started.
    (
        Manner::Prompting,
        b"put 0000 u 0001\nput 0001 i\nbreak 0001\npress start\nrun 9\nrun 1\npress read\nquit\n",
        b"0000 halted operator> ok\n0000 halted operator> ok\n0000 halted operator> rule 0\n0000 halted operator> live\n0000 going> ran 1 rule 0\n0001 going> ran 1 rest\n0002 waiting> live\n0002 reading> ",
        false,
    ),
    (
        Manner::Prompting,
        b"panels\n",
        b"0000 halted operator> ? 1 Form: there is no such command; help lists them all\n0000 halted operator> \n",
        true,
    ),
    (Manner::Prompting, b"quit", b"0000 halted operator> ", false),
    // A transcript that begins with a refused line is no refusal.
    (
        Manner::Echoing,
        b"? foo\ntranscript\n",
        b"? ? foo\n? 1 Form: there is no such command; help lists them all\n> transcript\n? foo\n",
        true,
    ),
    (Manner::Prompting, b"", b"0000 halted operator> \n", false),
    (
        Manner::Echoing,
        b"put 0000 = 1\npanels\n quit \nlabels\n",
        b"> put 0000 = 1\nok\n? panels\n? 1 Form: there is no such command; help lists them all\n>  quit \n",
        true,
    ),
];

#[test]
fn lines_at_a_desk_are_answered(rt: HostRuntime) {
    expect_eq(&rt, rows_answered(rt.alloc(), &LINES), 8);
}

/// What is written where a read fails after two lines and a part of one: their replies, and each prompt.
const READ_ONCE: &[u8] =
    b"0000 halted operator> ok\n0000 halted operator> 0000 00000002\n0000 halted operator> ";

/// What becomes of a session whose reader fails after one read, and whether that is written.
fn read_once(alloc: Global) -> (Result<bool, StreamFault>, bool) {
    let mut written = Vec::new(alloc);
    let mut feed = FeedOf::new(b"put 0000 = 1\nwords 0000 1\nfoo".as_slice(), 1);
    let answer = answer_read(
        alloc,
        Manner::Prompting,
        &mut few_files(),
        Silence,
        &mut feed,
        &mut written,
    );
    (answer, written.as_slice() == READ_ONCE)
}

#[test]
fn a_read_that_fails_breaks_a_session_off(rt: HostRuntime) {
    expect_eq(&rt, read_once(rt.alloc()), (Err(StreamFault::Read), true));
}

/// Files of lines and of sources.
static LINES_AND_SOURCES: [Row; 10] = [
    (
        Manner::Bare,
        b"do two lines\ntranscript\n",
        b"ok\n0000 00000002\nput 0000 00000002\nwords 0000 1\n",
        false,
    ),
    (
        Manner::Prompting,
        b"  do   two lines  \r\nquit",
        b"0000 halted operator> ok\n0000 00000002\n0000 halted operator> ",
        false,
    ),
    (
        Manner::Echoing,
        b"do outer\nfoo\n",
        b"> put 0001 = 1\nok\n> put 0000 = 1\nok\n> words 0000 1\n0000 00000002\n> words 0001 1\n0001 00000002\n? foo\n? 1 Form: there is no such command; help lists them all\n        line 4 of outer\n? foo\n? 1 Form: there is no such command; help lists them all\n",
        true,
    ),
    (
        Manner::Prompting,
        b"do empty\n",
        b"0000 halted operator> 0000 halted operator> \n",
        false,
    ),
    (
        Manner::Bare,
        b"do none\ndo \xff\nlist\n",
        b"? 13 File none: it cannot be opened\n? 13 File \xff: this is not a file name\n? 10 NoImage: no source has been assembled yet\n",
        true,
    ),
    (
        Manner::Bare,
        b"do itself\n",
        b"? 13 File itself: 16 files are already open, each from the one before\n        line 1 of itself\n",
        true,
    ),
    // What leaves in a file leaves all.
    (
        Manner::Prompting,
        b"do leaving\nlabels\n",
        b"0000 halted operator> ",
        false,
    ),
    // A source may begin in a file and end at the keyboard.
    (
        Manner::Prompting,
        b"do opening\n end start\n.\n",
        b"0000 halted operator> source> source> ? 9 Faults\nline 1 UnknownOrder\n         start z\n         ^^^^^\n        there is no such operation: write one of the sixteen letters, -t, word, frac, int, org or end\nline 2 UnknownName\n         end start\n             ^^^^^\n        no line has this label: check the spelling, or give a line this label\n0000 halted operator> \n",
        true,
    ),
    (
        Manner::Bare,
        b"source program\ntranscript\nsource pointed\nsource empty\n",
        b"cells 1 start 0000\nsource\nstart z\n end start\n.\n? 13 File pointed: a line with only a point would end the source\n? 9 Faults\nline 1 NoEnd\n        empty\n",
        true,
    ),
    // A refusal says where its line comes from.
    (
        Manner::Bare,
        b"do naming\nsource faulty\n",
        b"? 1 Form: there is no such command; help lists them all\n        line 1 of naming\ncells 1 start 0000\n? 1 Form: line 1 is not a line of a dump\n        torn, line 3 of naming\n? 13 File torn: the byte at place 2, counting from 0, in line 1, does not begin a tape sign\n        line 4 of naming\nok 3\n? 9 Faults\nline 1 UnknownOrder\n         foo\n         ^^^\n        there is no such operation: write one of the sixteen letters, -t, word, frac, int, org or end\nline 2 NoEnd\n        the end line is missing: end with a line that has end and the label of the first order\n        faulty, line 6 of naming\n? 1 Form: there is no such command; help lists them all\n        line 7 of naming\n? 9 Faults\nline 1 UnknownOrder\n         foo\n         ^^^\n        there is no such operation: write one of the sixteen letters, -t, word, frac, int, org or end\nline 2 NoEnd\n        the end line is missing: end with a line that has end and the label of the first order\n        faulty\n",
        true,
    ),
];

#[test]
fn files_of_lines_and_sources_are_named(rt: HostRuntime) {
    expect_eq(&rt, rows_answered(rt.alloc(), &LINES_AND_SOURCES), 10);
}

/// Files of tapes and of drums.
static TAPES_AND_DRUMS: [Row; 11] = [
    (
        Manner::Bare,
        b"tape tape\ntape torn\ntape later\narchive torn\narchive strange\ntranscript\n",
        b"ok 5\n? 13 File torn: the byte at place 2, counting from 0, in line 1, does not begin a tape sign\n? 13 File later: the byte at place 9, counting from 0, in line 3, does not begin a tape sign\nok 3\n? 13 File strange: the byte at place 2, counting from 0, in line 1, does not begin a tape sign\nmount 12[16]3'\nmount 12a\n",
        true,
    ),
    (
        Manner::Echoing,
        b"put 0100 = 1\nrestore drum\nwords 0100 2\nrestore two lines\ntranscript\n",
        b"> put 0100 = 1\nok\n> restore drum\nrestored 2\n> words 0100 2\n0100 00000004\n0101 00000008\n? restore two lines\n? 1 Form: line 1 is not a line of a dump\n        two lines\n> transcript\nput 0100 00000002\nput 0100 00000004\nput 0101 00000008\nwords 0100 2\n",
        true,
    ),
    (
        Manner::Bare,
        b"put 0000 = 1\nrestore empty\nwords 0000 1\nrestore none\n",
        b"ok\nrestored 1\n0000 00000000\n? 13 File none: it cannot be opened\n",
        true,
    ),
    // At work neither the drum is restored nor a tape is mounted.
    (
        Manner::Bare,
        b"press start\nrestore drum\ntape tape\ntape longer\n",
        b"live\n? 2 Moving: the machine is running; press manual to halt it\n        drum\n? 2 Moving: the machine is running; press manual to halt it\n        tape\n? 2 Moving: the machine is running; press manual to halt it\n        longer\n",
        true,
    ),
    // A tape of bytes, one with a byte that is no code, and one that is longer than a line.
    (
        Manner::Echoing,
        b"bytes coded\nbytes strange\nbytes none\nbytes blank\ntranscript\n",
        b"> mount 12[16]3'\nok 5\n? 13 File strange: the byte at place 2, counting from 0, is above 63\n? 13 File none: it cannot be opened\n> tape blank\nok 1024\n> transcript\nmount 12[16]3'\ntape blank\n",
        true,
    ),
    // What SIMH shows, and what it is given; the first line that is neither.
    (
        Manner::Echoing,
        b"put 0100 = 1\nrestore-simh shown\nwords 0100 2\ntranscript\n",
        b"> put 0100 = 1\nok\n> restore-simh shown\nrestored 2\n> words 0100 2\n0100 0000000j\n0101 00000008\n> transcript\nput 0100 00000002\nput 0100 0000000j\nput 0101 00000008\nwords 0100 2\n",
        false,
    ),
    (
        Manner::Bare,
        b"put 0100 = 1\nrestore-simh drum\nrestore-simh backwards\nrestore-simh none\nwords 0100 2\nrestore-simh empty\nwords 0100 1\n",
        b"ok\n? 13 File drum: line 1 is not a word in the form that SIMH shows or accepts\n? 13 File backwards: the address of line 2 is not above that of the line before it\n? 13 File none: it cannot be opened\n0100 00000002\n0101 00000000\nrestored 1\n0100 00000000\n",
        true,
    ),
    (
        Manner::Echoing,
        b"press start\nrestore-simh shown\nbytes coded\n",
        b"> press start\nlive\n? restore-simh shown\n? 2 Moving: the machine is running; press manual to halt it\n        shown\n? mount 12[16]3'\n? 2 Moving: the machine is running; press manual to halt it\n        coded\n",
        true,
    ),
    // A tape for which a line has room, one that is longer, and one whose text is: their names are in the transcript.
    (
        Manner::Echoing,
        b"tape longer\narchive returns\nnew\ntape  longer \ntranscript\n",
        b"> tape longer\nok 4091\n> tape returns\nok 1023\n> new\nnew\n> tape longer\nok 4091\n> transcript\ntape longer\n",
        false,
    ),
    // The drum is kept, also at work, and what cannot be written is refused.
    (
        Manner::Bare,
        b"put 0100 00000004\nsave kept\npress start\nsave locked\ntranscript\n",
        b"ok\nsaved kept\nlive\n? 13 File locked: it cannot be written, and is unchanged\nput 0100 00000004\npress start\n",
        true,
    ),
    // Nothing is said to be kept that is not.
    (
        Manner::Bare,
        b"punch locked\ncopy-archive locked\ntranscript\n",
        b"? 13 File locked: it cannot be written, and is unchanged\n? 13 File locked: it cannot be written, and is unchanged\n",
        true,
    ),
];

#[test]
fn files_of_tapes_and_drums_are_named(rt: HostRuntime) {
    expect_eq(&rt, rows_answered(rt.alloc(), &TAPES_AND_DRUMS), 11);
}

/// Whether no line is refused, whether the first reply and the front of the second are these, and how many bytes are written.
fn fitting(alloc: Global, typed: &[u8], front: &[u8]) -> (bool, bool, usize) {
    let mut written = Vec::new(alloc);
    let answer = run(alloc, Manner::Bare, typed, &mut written);
    (
        is_done(answer, false),
        written.as_slice().starts_with(front),
        written.len(),
    )
}

/// How many codes are mounted by a line, as its reply says.
#[test]
fn a_tape_that_fits_is_mounted_by_its_line(rt: HostRuntime) {
    let front = b"ok 4090\nmount ffff";
    let seen = fitting(rt.alloc(), b"tape fitting\ntranscript\n", front);
    expect_eq(&rt, seen, (true, true, 8 + 6 + 4090 + 1));
}

/// What a file is refused for has a name of its own.
#[test]
fn troubles_are_distinguished(rt: HostRuntime) {
    let are_others = [
        FileTrouble::BadSign(2, 1) != FileTrouble::BadSign(1, 2),
        FileTrouble::NotRead != FileTrouble::TooLong,
    ];
    expect_eq(&rt, are_others, [true; 2]);
}
