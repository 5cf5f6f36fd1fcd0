//! What the monitor's program does for the words of its command line.

ghost use Rattle.std.specs.Prelude.{◌≡◌, IfErr, IfOk, false, map};
ghost use Rattle.std.specs.String.{string_bytes};
ghost use Rattle.lgp_lab.specs.Tasks.{IsUnread};
ghost use Rattle.lgp_desk.specs.Files.{ByCalls};
ghost use Rattle.lgp_desk.specs.Sessions.{IsAsked, IsHeld, session_manner, session_status};

use crate::answering::attend;
use crate::files::Files;
use crate::writing::Manner;
use lgp_lab::{FileFault, FileName, WordFault, refuse, refuse_words, status_of};
use lgp_monitor::Progress;
use lgp_stream::{Feed, Sink, StreamFault};
use lgp_task::{SessionTask, ask_for_session};
use std::alloc::{Allocator, Global};

/// The status for what became of typed lines.
fn session_status(outcome: Result<bool, StreamFault>) -> u8
    ensures { result ≡ session_status outcome }
{
    match outcome {
        Ok(refused) => status_of(Ok(u64::from(refused))),
        Err(fault) => status_of(Err(FileFault::Broken(fault))),
    }
}

/// Holds a session: answers the lines of files and then those on standard input, to their end or to `quit`, in this manner; answers
/// the status. How far long runs are is reported while they go on.
pub fn hold_session<A: Allocator + Copy, B: Allocator, P: Progress, F: Files, R: Feed, W: Sink>(
    alloc: A,
    manner: Manner,
    names: &[FileName<B>],
    files: &mut F,
    progress: P,
    input: &mut R,
    output: &mut W,
) -> u8
    ensures { ByCalls F.answer files.old files.new (λ calls. IsHeld calls manner names.now
        (R.remaining input.old) (R.remaining input.new)
        (record { read = R.failed input.new; write = W.failed output.new }) result
        (W.contents output.old) (W.contents output.new)) }
{
    session_status(attend(alloc, manner, names, files, progress, input, output))
}

/// How replies are written in a session.
fn session_manner<A: Allocator>(manner: Manner, task: &SessionTask<A>) -> Manner
    ensures { result ≡ session_manner manner task.now }
{
    if task.is_json() {
        Manner::Json
    } else if task.is_echoing() {
        Manner::Echoing
    } else {
        manner
    }
}

/// Holds the session of a task; answers the status.
fn hold_task<A: Allocator + Copy, P: Progress, F: Files, R: Feed, W: Sink>(
    alloc: A,
    task: &SessionTask<A>,
    manner: Manner,
    files: &mut F,
    progress: P,
    input: &mut R,
    output: &mut W,
) -> u8
    ensures { ByCalls F.answer files.old files.new (λ calls.
        IsHeld calls (session_manner manner task.now) task.now.files
        (R.remaining input.old) (R.remaining input.new)
        (record { read = R.failed input.new; write = W.failed output.new }) result
        (W.contents output.old) (W.contents output.new)) }
{
    hold_session(
        alloc,
        session_manner(manner, task),
        task.files().names(),
        files,
        progress,
        input,
        output,
    )
}

/// What the monitor's program does with the words of its command line, of which the first is its name: it holds a session, or tells
/// why they ask for none, or why they are not there; answers its status. In a session the lines of the files come first that the
/// words name; with `--echo` each line is above its reply, and with `--json` each reply is an object. `clap` reads the words, and takes its own memory from the global
/// allocator.
pub fn obey_session<A: Allocator + Copy, P: Progress, F: Files, R: Feed, W: Sink, M: Sink>(
    global: Global,
    alloc: A,
    words: Result<&[String], WordFault>,
    manner: Manner,
    files: &mut F,
    progress: P,
    input: &mut R,
    output: &mut W,
    messages: &mut M,
) -> u8
    requires output { W.failed output.old ≡ false }
    requires messages { M.failed messages.old ≡ false }
    ensures asked { IfOk words.entry (λ words. ByCalls F.answer files.old files.new (λ calls.
        IsAsked A calls manner (map string_bytes words.now) (R.remaining input.old)
        (R.remaining input.new) (record { read = R.failed input.new; write = W.failed output.new })
        (M.failed messages.new) result (W.contents output.old) (W.contents output.new)
        (M.contents messages.old) (M.contents messages.new))) }
    ensures unasked { IfErr words.entry (λ _. files.new ≡ files.old) }
    ensures unread { IfErr words.entry (λ fault.
        IsUnread fault (M.failed messages.new) result
        (W.contents output.old) (W.contents output.new)
        (M.contents messages.old) (M.contents messages.new)) }
{
    let words = match words {
        Ok(words) => words,
        Err(fault) => return refuse_words(fault, messages),
    };
    match ask_for_session(global, alloc, words) {
        Ok(task) => hold_task(alloc, &task, manner, files, progress, input, output),
        Err(fault) => refuse(&fault, output, messages),
    }
}
