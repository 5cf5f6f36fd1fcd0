//! What the program does for a task, over files that a test makes.

ghost use Rattle.std.specs.Prelude.{◌≡◌, None, false};

use super::streams::{Failing, Pieces};
use crate::expect_eq;
use crate::task::read;
use lgp_lab::{
    Feed, FeedOf, FileFault, FileNames, Folder, LabFault, NotOpened, READS, SinkOf, Task,
    TaskFault, perform, refuse, status_of,
};
use std::alloc::Global;
use std::io::Write;

/// A file is read at most 4,294,967,296 times.
#[test]
fn what_became_of_a_file_gives_the_status(rt: HostRuntime) {
    let statuses = [
        status_of(Ok(0)),
        status_of(Ok(1)),
        status_of(Ok(u64::MAX)),
        status_of(Err(FileFault::NotOpened)),
        status_of(Err(FileFault::Broken(LabFault::Read))),
        status_of(Err(FileFault::Broken(LabFault::Write(3)))),
        status_of(Err(FileFault::Broken(LabFault::Memory))),
    ];
    let wanted = ([0, 1, 1, 2, 2, 2, 3], 4_294_967_296);
    expect_eq(&rt, (statuses, READS), wanted);
}

/// Five files, and none else, with whether a read has failed. Of `fails` two lines are read, and then a read fails.
#[derive(Clone, Copy, Drop)]
pub struct Made {
    has_failed: bool,
}

impl Made {
    /// Nothing was read yet.
    pub fn new() -> Made
        ensures { ⟦<Made as Folder>⟧.failed result ≡ false }
    {
        Made { has_failed: false }
    }
}

/// The files by their names. The long one takes 2 from 128 until the rest is negative, in 196 orders.
static FILES: [(&str, &[u8]); 5] = [
    ("one", b"turn 5\n"),
    ("two", b"foo\n"),
    (
        "tenth",
        b"start b one ; take\n h 0050\n z\none frac .1\n end start\n",
    ),
    (
        "long",
        b"start b many\nloop s two\n t done\n u loop\ndone z\nmany word 00000080\ntwo word 00000002\n end start\n",
    ),
    ("fails", b"turn 5\nturn"),
];

/// The bytes of a file.
fn text_of(name: &str) -> Option<&'static [u8]> {
    for (known, text) in &FILES {
        if *known == name {
            return Some(text);
        }
    }
    None
}

impl Folder for Made {
    type Reader = FeedOf<Pieces>;

    ghost opens = { λ folder name. None };

    ghost contents = { λ folder name. None };

    ghost failed = { λ folder. folder.has_failed };

    fn open(&self, name: &str) -> Result<FeedOf<Pieces>, NotOpened> {
        match text_of(name) {
            Some(text) => Ok(FeedOf::new(Pieces::new(text, 7, name == "fails"), READS)),
            None => Err(NotOpened),
        }
    }

    fn close(&mut self, reader: FeedOf<Pieces>) {
        self.has_failed = self.has_failed || reader.has_failed();
    }
}

/// The status of a task where standard input is a line that is no command. What is written goes to `writer`.
fn status_into<W: Write + Drop>(alloc: Global, task: Task, writer: W) -> u8 {
    let mut input = FeedOf::new(b"bar".as_slice(), READS);
    let mut output = SinkOf::new(writer);
    perform(alloc, &task, &mut Made::new(), &mut input, &mut output)
}

/// The same of the task that words ask for; none where they ask for no task.
fn status_asked<W: Write + Drop>(
    alloc: Global,
    asked: Result<Task, TaskFault>,
    writer: W,
) -> Option<u8> {
    match asked {
        Ok(task) => Some(status_into(alloc, task, writer)),
        Err(_) => None,
    }
}

/// What is written: a text, or what begins with one.
#[derive(Clone, Copy)]
enum Wanted {
    Text(&'static [u8]),
    Front(&'static [u8]),
}

/// Whether that is written.
fn is_written(written: &[u8], wanted: Wanted) -> bool {
    match wanted {
        Wanted::Text(text) => written == text,
        Wanted::Front(front) => written.starts_with(front),
    }
}

/// Words, what is written for them, and the status.
type Row = (&'static str, Wanted, u8);

/// Whether this is written for what is asked, and this is the status.
fn is_performed(alloc: Global, asked: Result<Task, TaskFault>, wanted: Wanted, status: u8) -> bool {
    let mut written = Vec::new(alloc);
    let ended = status_asked(alloc, asked, &mut written);
    ended == Some(status) && is_written(&written, wanted)
}

/// Whether the status is 2 where the first write fails. It is so too where nothing is written.
fn fails_unwritten(alloc: Global, asked: Result<Task, TaskFault>) -> bool {
    status_asked(alloc, asked, Failing::after(alloc, 0, 1)) == Some(2)
}

/// Whether words are performed as their row says, and also where the first write fails.
fn are_performed(alloc: Global, (typed, wanted, status): Row) -> bool {
    is_performed(alloc, read(alloc, alloc, typed), wanted, status)
        && fails_unwritten(alloc, read(alloc, alloc, typed))
}

/// How what is written begins where the source of 196 orders has come to rest.
const AT_REST: &[u8] =
    b"printed 0\ncounter 0005 accumulator wwwwwwwq register 00000000 status halted stop ";

static ROWS: [Row; 22] = [
    ("", Wanted::Text(b"? 1 Form\n"), 1),
    ("|script|one", Wanted::Text(b"clock 5\n"), 0),
    ("|script|two", Wanted::Text(b"? 1 Form\n"), 1),
    ("|script|none", Wanted::Text(b""), 2),
    ("|script|fails", Wanted::Text(b"clock 5\n"), 2),
    ("|tape|tenth", Wanted::Front(b"000k0000'wwwwwww0'"), 0),
    ("|tape|fails", Wanted::Text(b""), 2),
    (
        "|asm|tenth",
        Wanted::Front(b"0000 0001000j start b one "),
        0,
    ),
    ("|asm|fails", Wanted::Text(b""), 2),
    ("|asm|", Wanted::Text(b""), 2),
    (
        "|run|tenth|10",
        Wanted::Text(
            b"printed 0\ncounter 0003 accumulator 0jjjjjjj register 00000000 status halted stop mode normal switches uuuuuu reader off tape 0 clock 27605\n",
        ),
        0,
    ),
    (
        "|run|tenth|1",
        Wanted::Front(b"printed 0\ncounter 0001 accumulator 0jjjjjjj "),
        0,
    ),
    ("|run|fails|10", Wanted::Text(b""), 2),
    // The source of 196 orders, performed up to a limit.
    ("|run|long|0", Wanted::Front(b"printed 0\ncounter 0000 "), 0),
    (
        "|run|long|195",
        Wanted::Front(b"printed 0\ncounter 0004 accumulator wwwwwwwq "),
        0,
    ),
    ("|run|long|196", Wanted::Front(AT_REST), 0),
    ("|run|long|4294967295", Wanted::Front(AT_REST), 0),
    (
        "|batch|one|one",
        Wanted::Text(b"file one\nclock 5\nfile one\nclock 5\n"),
        0,
    ),
    (
        "|batch|one|two",
        Wanted::Text(b"file one\nclock 5\nfile two\n? 1 Form\n"),
        1,
    ),
    ("|batch|none|one", Wanted::Text(b""), 2),
    (
        "|batch|two|none|one",
        Wanted::Text(b"file two\n? 1 Form\n"),
        2,
    ),
    (
        "|batch|fails|one",
        Wanted::Text(b"file fails\nclock 5\n"),
        2,
    ),
];

/// Whether nothing is written for a batch without files, and the status is 0.
fn is_empty_batch_performed(alloc: Global) -> bool {
    let batch = Task::Batch(FileNames::new(alloc));
    is_performed(alloc, Ok(batch), Wanted::Text(b""), 0)
}

#[test]
fn commands_runs_and_batches_write_what_is_defined(rt: HostRuntime) {
    for row in &ROWS {
        expect_eq(&rt, (row.0, are_performed(rt.alloc(), *row)), (row.0, true));
    }
    expect_eq(&rt, is_empty_batch_performed(rt.alloc()), true);
}

/// A mistake in the words on the command line, or help, with this text; or that memory is refused.
fn fault_of(alloc: Global, is_mistake: bool, text: &str) -> TaskFault {
    match String::from_str(alloc, text) {
        Ok(text) if is_mistake => TaskFault::Usage(text),
        Ok(text) => TaskFault::Help(text),
        Err(_) => TaskFault::Memory,
    }
}

/// The status where the words hold no task. What is written goes to `output` and `messages`.
fn refusal_into<W: Write + Drop, M: Write + Drop>(fault: &TaskFault, output: W, messages: M) -> u8 {
    let mut output = SinkOf::new(output);
    let mut messages = SinkOf::new(messages);
    refuse(fault, &mut output, &mut messages)
}

/// Whether the status is this where the words hold no task, and this is written to each of the two.
fn is_refused(
    alloc: Global,
    fault: TaskFault,
    (help, message): (&[u8], &[u8]),
    status: u8,
) -> bool {
    let mut output = Vec::new(alloc);
    let mut messages = Vec::new(alloc);
    let ended = refusal_into(&fault, &mut output, &mut messages);
    ended == status && output.as_slice() == help && messages.as_slice() == message
}

#[test]
fn help_goes_to_the_output_and_a_mistake_to_the_messages(rt: HostRuntime) {
    let alloc = rt.alloc();
    let help = fault_of(alloc, false, "help\n");
    let mistake = fault_of(alloc, true, "wrong\n");
    let refused = [
        is_refused(alloc, help, (b"help\n", b""), 0),
        is_refused(alloc, mistake, (b"", b"wrong\n"), 64),
        is_refused(alloc, TaskFault::Memory, (b"", b""), 3),
    ];
    expect_eq(&rt, refused, [true; 3]);
}

/// The status of help or a mistake where the output and the messages take as many bytes as that, one a call, and then fail.
fn unwritten_refusal(alloc: Global, fault: TaskFault, (output, messages): (usize, usize)) -> u8 {
    refusal_into(
        &fault,
        Failing::after(alloc, output, 1),
        Failing::after(alloc, messages, 1),
    )
}

#[test]
fn help_or_a_mistake_that_is_not_written_gives_status_2(rt: HostRuntime) {
    let alloc = rt.alloc();
    let help = fault_of(alloc, false, "help\n");
    let mistake = fault_of(alloc, true, "wrong\n");
    let statuses = [
        unwritten_refusal(alloc, help, (2, usize::MAX)),
        unwritten_refusal(alloc, mistake, (usize::MAX, 2)),
    ];
    expect_eq(&rt, statuses, [2; 2]);
}
