//! What the program does for a task: which file it reads, what it writes, and its status.

ghost use Rattle.std.specs.Prelude.{◌≡◌, ◌||◌, [], List, Option, Some, ℕ, Bool, IfErr, IfOk, IfSome, false, is_ok, map, true};
ghost use Rattle.std.specs.String.{string_bytes};
ghost use Rattle.std.specs.Io.KnownBytes.{Appends};
ghost use Rattle.lgp_stream.specs.Language.{HasCause};
ghost use Rattle.lgp_lab.specs.Tasks.{HasDone, IsBatch, IsObeyed, IsOpenedAs, IsPerformed, IsRefused, IsReported, IsUnread, IsWorked, part_work, read_limit, script_work, status_for, unread_text, usage_status, work_for};

use lgp_script::{asm_file, batch_part, run_file, run_script, tape_file};
use lgp_stream::{Feed, Sink, StreamFault, write_whole};
use lgp_task::{FileNames, Task, TaskFault, task_of};
use std::alloc::{Allocator, Global};

/// A file that cannot be opened.
#[derive(Clone, Copy, Debug, PartialEq, Eq)]
pub struct NotOpened;

/// Where files are found by their names.
pub trait Folder {
    /// What reads a file.
    type Reader: Feed + Drop;

    /// Whether the file of a name can be opened, where that is known.
    ghost opens: { Self → List ℕ → Option Bool };

    /// The bytes of the file of a name, where they are known.
    ghost contents: { Self → List ℕ → Option (List ℕ) };

    /// Whether a read of a file that was given back has failed.
    ghost failed: { Self → Bool };

    /// Opens the file of this name, to be read from its first byte on.
    fn open(&self, name: &str) -> Result<Self::Reader, NotOpened>
        ensures opens { IfSome (opens self.now name.now) (λ opens. is_ok result ≡ opens) }
        ensures contents { IfOk result (λ reader.
            Self.Reader.remaining reader ≡ contents self.now name.now) }
        ensures reads { IfOk result (λ reader. Self.Reader.reads reader ≡ read_limit) }
        ensures failed { IfOk result (λ reader. Self.Reader.failed reader ≡ false) };

    /// Takes back what has read a file.
    fn close(&mut self, reader: Self::Reader)
        ensures failed { failed self.new ≡ (failed self.old || Self.Reader.failed reader) }
        ensures opens { opens self.new ≡ opens self.old }
        ensures contents { contents self.new ≡ contents self.old };
}

/// Why a file was not worked through to its end.
#[derive(Clone, Copy, Debug, PartialEq, Eq)]
pub enum FileFault {
    /// It cannot be opened. Nothing was read or written.
    NotOpened,
    /// Work on it was broken off.
    Broken(StreamFault),
}

/// Why the words of the command line are not there.
#[derive(Clone, Copy, Debug, PartialEq, Eq)]
pub enum WordFault {
    /// One of them is no text.
    NotText,
    /// Out of memory for them.
    Memory,
}

/// What is done with a text.
#[derive(Clone, Copy, Debug, PartialEq, Eq)]
pub enum Job {
    /// It is a source: its listing is written.
    Listing,
    /// It is a source: its tape is written.
    Taping,
    /// It is a source: it is loaded and run for at most a given number of orders.
    Running(u64),
    /// It is a script: it is answered.
    Answering,
}

/// The status of a read or a write that failed, and of a file that cannot be opened.
const FAILED: u8 = 2;

/// The status for want of memory.
const MEMORY: u8 = 3;

/// The status of words on the command line that are mistaken.
const USAGE: u8 = 64;

/// The status for what became of a file: 0; 1 where a reply begins with a question mark, or a source has a fault; 2 after a read or
/// a write that failed, and where the file cannot be opened; 3 for want of memory.
pub fn status_of(outcome: Result<u64, FileFault>) -> u8
    ensures { result ≡ status_for outcome }
{
    match outcome {
        Ok(0) => 0,
        Ok(_) => 1,
        Err(FileFault::NotOpened | FileFault::Broken(StreamFault::Read | StreamFault::Write(_))) =>
            FAILED,
        Err(FileFault::Broken(StreamFault::Memory)) => MEMORY,
    }
}

/// Does a job on a text: reads it to its end and writes what is to be written for it.
pub fn work<A: Allocator + Copy, R: Feed, W: Sink>(
    alloc: A,
    job: Job,
    reader: &mut R,
    writer: &mut W,
) -> Result<u64, StreamFault>
    requires reader { R.failed reader.old ≡ false }
    requires writer { W.failed writer.old ≡ false }
    ensures text { IfOk result (λ count. IfSome (R.remaining reader.old) (λ text.
        Appends (W.contents writer.old) (W.contents writer.new)
        ((work_for job).answer text).text)) }
    ensures count { IfOk result (λ count. IfSome (R.remaining reader.old) (λ text.
        count ≡ ((work_for job).answer text).status)) }
    ensures cause { IfErr result (λ fault.
        HasCause fault (R.failed reader.new) (W.failed writer.new)) }
    ensures stands { IfErr result (λ fault. IfSome (R.remaining reader.old) (λ text.
        (work_for job).Stands text fault (W.contents writer.old) (W.contents writer.new))) }
{
    match job {
        Job::Listing => asm_file(alloc, reader, writer),
        Job::Taping => tape_file(alloc, reader, writer),
        Job::Running(limit) => run_file(alloc, reader, limit, writer),
        Job::Answering => run_script(alloc, reader, writer),
    }
}

/// Does a job on the file of a name.
pub fn work_on_file<A: Allocator + Copy, F: Folder, W: Sink>(
    alloc: A,
    job: Job,
    folder: &mut F,
    name: &str,
    writer: &mut W,
) -> Result<u64, FileFault>
    requires folder { F.failed folder.old ≡ false }
    requires writer { W.failed writer.old ≡ false }
    ensures opened { IsOpenedAs (F.opens folder.old name.now) result }
    ensures done { HasDone (work_for job) (F.contents folder.old name.now)
        (record { read = F.failed folder.new; write = W.failed writer.new }) result
        (W.contents writer.old) (W.contents writer.new) }
    ensures opens { F.opens folder.new ≡ F.opens folder.old }
    ensures contents { F.contents folder.new ≡ F.contents folder.old }
{
    let Ok(mut reader) = folder.open(name) else {
        return Err(FileFault::NotOpened);
    };
    let outcome = work(alloc, job, &mut reader, writer);
    folder.close(reader);
    match outcome {
        Ok(count) => Ok(count),
        Err(fault) => Err(FileFault::Broken(fault)),
    }
}

/// Runs a script of several, from the file of a name.
fn part<A: Allocator + Copy, F: Folder, W: Sink>(
    alloc: A,
    folder: &mut F,
    name: &str,
    writer: &mut W,
) -> Result<u64, FileFault>
    ensures opened { IsOpenedAs (F.opens folder.old name.now) result }
    ensures done { HasDone (part_work name.now) (F.contents folder.old name.now)
        (record { read = F.failed folder.new; write = W.failed writer.new }) result
        (W.contents writer.old) (W.contents writer.new) }
    ensures opens { F.opens folder.new ≡ F.opens folder.old }
    ensures contents { F.contents folder.new ≡ F.contents folder.old }
{
    let Ok(mut reader) = folder.open(name) else {
        return Err(FileFault::NotOpened);
    };
    let outcome = batch_part(alloc, name, &mut reader, writer);
    folder.close(reader);
    match outcome {
        Ok(count) => Ok(count),
        Err(fault) => Err(FileFault::Broken(fault)),
    }
}

/// Runs several scripts, one after another, until one of them cannot be opened, read or answered, or lacks memory; answers the
/// greatest status.
pub fn run_batch<A: Allocator + Copy, F: Folder, W: Sink>(
    alloc: A,
    folder: &mut F,
    names: &FileNames<A>,
    writer: &mut W,
) -> u8
    requires folder { F.failed folder.old ≡ false }
    requires writer { W.failed writer.old ≡ false }
    ensures { IsBatch (F.opens folder.old) (F.contents folder.old)
        (record { read = F.failed folder.new; write = W.failed writer.new }) 0 names.now result
        (W.contents writer.old) (W.contents writer.new) }
{
    let mut worst = 0;
    for name in names.names() {
        let status = status_of(part(alloc, folder, name.text(), writer));
        worst = worst.max(status);
        if status >= FAILED {
            return worst;
        }
    }
    worst
}

/// Does a job on the file of a name; answers the status.
fn status_on_file<A: Allocator + Copy, F: Folder, W: Sink>(
    alloc: A,
    job: Job,
    folder: &mut F,
    name: &str,
    writer: &mut W,
) -> u8
    requires folder { F.failed folder.old ≡ false }
    requires writer { W.failed writer.old ≡ false }
    ensures { IsWorked (work_for job) (F.opens folder.old name.now)
        (F.contents folder.old name.now)
        (record { read = F.failed folder.new; write = W.failed writer.new }) result
        (W.contents writer.old) (W.contents writer.new) }
{
    status_of(work_on_file(alloc, job, folder, name, writer))
}

/// Runs the script on standard input.
fn work_on_input<A: Allocator + Copy, R: Feed, W: Sink>(
    alloc: A,
    input: &mut R,
    writer: &mut W,
) -> Result<u64, FileFault>
    requires input { R.failed input.old ≡ false }
    requires writer { W.failed writer.old ≡ false }
    ensures opened { IsOpenedAs (Some true) result }
    ensures done { HasDone (script_work []) (R.remaining input.old)
        (record { read = R.failed input.new; write = W.failed writer.new }) result
        (W.contents writer.old) (W.contents writer.new) }
{
    match work(alloc, Job::Answering, input, writer) {
        Ok(count) => Ok(count),
        Err(fault) => Err(FileFault::Broken(fault)),
    }
}

/// Runs the script on standard input; answers the status.
fn status_on_input<A: Allocator + Copy, R: Feed, W: Sink>(
    alloc: A,
    input: &mut R,
    writer: &mut W,
) -> u8
    requires input { R.failed input.old ≡ false }
    requires writer { W.failed writer.old ≡ false }
    ensures { IsWorked (script_work []) (Some true) (R.remaining input.old)
        (record { read = R.failed input.new; write = W.failed writer.new }) result
        (W.contents writer.old) (W.contents writer.new) }
{
    status_of(work_on_input(alloc, input, writer))
}

/// Does a task: reads standard input or files, and writes what is to be written for them; answers the program's status.
pub fn perform<A: Allocator + Copy, F: Folder, R: Feed, W: Sink>(
    alloc: A,
    task: &Task<A>,
    folder: &mut F,
    input: &mut R,
    output: &mut W,
) -> u8
    requires folder { F.failed folder.old ≡ false }
    requires reads { R.reads input.old ≡ read_limit }
    requires input { R.failed input.old ≡ false }
    requires output { W.failed output.old ≡ false }
    ensures { IsPerformed (F.opens folder.old) (F.contents folder.old) task.now
        (R.remaining input.old) (F.failed folder.new)
        (record { read = R.failed input.new; write = W.failed output.new }) result
        (W.contents output.old) (W.contents output.new) }
{
    match task {
        Task::Stdin => status_on_input(alloc, input, output),
        Task::Asm(name) => status_on_file(alloc, Job::Listing, folder, name.text(), output),
        Task::Tape(name) => status_on_file(alloc, Job::Taping, folder, name.text(), output),
        Task::Run(name, limit) => {
            status_on_file(alloc, Job::Running(*limit), folder, name.text(), output)
        }
        Task::Script(name) => status_on_file(alloc, Job::Answering, folder, name.text(), output),
        Task::Batch(names) => run_batch(alloc, folder, names, output),
    }
}

/// Writes a text; answers the status that goes with it, or that of a write that failed.
fn tell<W: Sink>(writer: &mut W, text: &[u8], status: u8) -> u8
    ensures { IsReported status text.now (W.failed writer.new) result
        (W.contents writer.old) (W.contents writer.new) }
{
    match write_whole(writer, text) {
        Ok(()) => status,
        Err(_) => FAILED,
    }
}

/// Tells why the words of the command line hold no task: help on the output, a mistake on the messages; answers the program's
/// status.
pub fn refuse<A: Allocator, W: Sink, M: Sink>(
    fault: &TaskFault<A>,
    output: &mut W,
    messages: &mut M,
) -> u8
    requires output { W.failed output.old ≡ false }
    requires messages { M.failed messages.old ≡ false }
    ensures { IsRefused fault.now (W.failed output.new) (M.failed messages.new) result
        (W.contents output.old) (W.contents output.new)
        (M.contents messages.old) (M.contents messages.new) }
{
    match fault {
        TaskFault::Usage(text) => tell(messages, text.as_bytes(), USAGE),
        TaskFault::Help(text) => tell(output, text.as_bytes(), 0),
        TaskFault::Memory => MEMORY,
    }
}

/// Tells on the messages that the words of the command line cannot be read as text; answers the program's status.
pub fn refuse_unread<M: Sink>(messages: &mut M) -> u8
    requires messages { M.failed messages.old ≡ false }
    ensures { IsReported usage_status unread_text (M.failed messages.new) result
        (M.contents messages.old) (M.contents messages.new) }
{
    tell(
        messages,
        b"error: the words of the command line are not UTF-8 text\n",
        USAGE,
    )
}

/// Tells why the words of the command line are not there: on the messages that they are no text, and for want of memory nothing;
/// answers the program's status.
pub fn refuse_words<M: Sink>(fault: WordFault, messages: &mut M) -> u8
    requires messages { M.failed messages.old ≡ false }
    ensures { (kept : Option (List ℕ)) → IsUnread fault (M.failed messages.new) result kept kept
        (M.contents messages.old) (M.contents messages.new) }
{
    match fault {
        WordFault::NotText => refuse_unread(messages),
        WordFault::Memory => MEMORY,
    }
}

/// What the program does with the words of its command line, of which the first is its name: it does the task that they hold, or
/// tells why they hold none, or why they are not there; answers its status. `clap` reads the words, and takes its own memory from
/// the global allocator.
pub fn obey<A: Allocator + Copy, F: Folder, R: Feed, W: Sink, M: Sink>(
    global: Global,
    alloc: A,
    words: Result<&[String], WordFault>,
    folder: &mut F,
    input: &mut R,
    output: &mut W,
    messages: &mut M,
) -> u8
    requires folder { F.failed folder.old ≡ false }
    requires reads { R.reads input.old ≡ read_limit }
    requires input { R.failed input.old ≡ false }
    requires output { W.failed output.old ≡ false }
    requires messages { M.failed messages.old ≡ false }
    ensures obeyed { IfOk words.entry (λ words.
        IsObeyed A (F.opens folder.old) (F.contents folder.old) (map string_bytes words.now)
        (R.remaining input.old) (F.failed folder.new)
        (record { read = R.failed input.new; write = W.failed output.new })
        (M.failed messages.new) result (W.contents output.old) (W.contents output.new)
        (M.contents messages.old) (M.contents messages.new)) }
    ensures unread { IfErr words.entry (λ fault.
        IsUnread fault (M.failed messages.new) result
        (W.contents output.old) (W.contents output.new)
        (M.contents messages.old) (M.contents messages.new)) }
{
    let words = match words {
        Ok(words) => words,
        Err(fault) => return refuse_words(fault, messages),
    };
    match task_of(global, alloc, words) {
        Ok(task) => perform(alloc, &task, folder, input, output),
        Err(fault) => refuse(&fault, output, messages),
    }
}
