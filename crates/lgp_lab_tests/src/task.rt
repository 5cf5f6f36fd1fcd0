//! Tests of the command line: words and what they are read as, each with each growth refused in turn.

use crate::{End, end_of, expect_eq, in_turn};
use lgp_limited::Limited;
use lgp_task::{FileName, SessionTask, Task, TaskFault, ask_for_session, task_of};
use std::alloc::{Allocator, Global};

/// The words after the program's name, each after a bar, with a path for the latter; none where memory is refused.
pub fn words(global: Global, typed: &str) -> Option<Vec<String>> {
    let mut all = Vec::new(global);
    if push_word(global, &mut all, "/usr/local/bin/lab") && push_words(global, &mut all, typed) {
        Some(all)
    } else {
        None
    }
}

/// Appends words, each of which comes after a bar; false where memory is refused.
fn push_words(global: Global, all: &mut Vec<String>, typed: &str) -> bool {
    for word in typed.split('|').skip(1) {
        if !push_word(global, all, word) {
            return false;
        }
    }
    true
}

/// Appends a word; false where memory is refused.
fn push_word(global: Global, all: &mut Vec<String>, word: &str) -> bool {
    match String::from_str(global, word) {
        Ok(word) => all.push(word).is_ok(),
        Err(_) => false,
    }
}

/// The task of words, with names and texts from `alloc`.
pub fn read<A: Allocator + Copy>(
    global: Global,
    alloc: A,
    typed: &str,
) -> Result<Task<A>, TaskFault<A>> {
    match words(global, typed) {
        Some(all) => task_of(global, alloc, all.as_slice()),
        None => Err(TaskFault::Memory),
    }
}

/// The session that words ask for.
fn session<A: Allocator + Copy>(
    global: Global,
    alloc: A,
    typed: &str,
) -> Result<SessionTask<A>, TaskFault<A>> {
    match words(global, typed) {
        Some(all) => ask_for_session(global, alloc, all.as_slice()),
        None => Err(TaskFault::Memory),
    }
}

/// What words are read as: the task of a command with its file and limit, a batch of two files, or a session of several files, with the
/// name of the first, with lines above their replies or not, and with replies in JSON or not. Or what is reported of them: a mistake or
/// help, with a part of the text, or an answer that is the text whole.
#[derive(Clone, Copy)]
enum Wanted {
    Command(&'static str, &'static str, u64),
    Batch(&'static str, &'static str),
    Session(usize, &'static str, bool, bool),
    Usage(&'static str),
    Help(&'static str),
    Answer(&'static str),
}

/// What a task is, by its command's word, with its file's name and the limit of a run.
fn parts_of<A: Allocator>(task: &Task<A>) -> (&'static str, &str, u64) {
    match task {
        Task::Stdin => ("", "", 0),
        Task::Asm(file) => ("asm", file.text(), 0),
        Task::Tape(file) => ("tape", file.text(), 0),
        Task::Run(file, limit) => ("run", file.text(), *limit),
        Task::Script(file) => ("script", file.text(), 0),
        Task::Batch(_) => ("batch", "", 0),
    }
}

/// Whether these are two files of these names.
fn are_two<A: Allocator>(files: &[FileName<A>], first: &str, last: &str) -> bool {
    match files {
        [one, two] => one.text() == first && two.text() == last,
        _ => false,
    }
}

/// Whether a task is a batch of these two files.
fn is_batch<A: Allocator>(task: &Task<A>, first: &str, last: &str) -> bool {
    match task {
        Task::Batch(files) => are_two(files.names(), first, last),
        _ => false,
    }
}

/// Whether a task is as wanted.
fn is_task<A: Allocator>(task: &Task<A>, wanted: Wanted) -> bool {
    match wanted {
        Wanted::Command(command, file, limit) => parts_of(task) == (command, file, limit),
        Wanted::Batch(first, last) => is_batch(task, first, last),
        _ => false,
    }
}

/// Whether these are a given number of files, of which the first has this name.
fn are_files<A: Allocator>(files: &[FileName<A>], count: usize, first: &str) -> bool {
    match files {
        [one, ..] => files.len() == count && one.text() == first,
        [] => count == 0,
    }
}

/// Whether a session is as wanted.
fn is_session<A: Allocator>(task: &SessionTask<A>, wanted: Wanted) -> bool {
    match wanted {
        Wanted::Session(count, first, is_echoing, is_json) => {
            task.is_echoing() == is_echoing
                && task.is_json() == is_json
                && are_files(task.files().names(), count, first)
        }
        _ => false,
    }
}

/// Whether a mistake is reported as wanted.
fn is_usage(text: &str, wanted: Wanted) -> bool {
    match wanted {
        Wanted::Usage(part) => text.contains(part),
        _ => false,
    }
}

/// Whether help or an answer is reported as wanted.
fn is_help(text: &str, wanted: Wanted) -> bool {
    match wanted {
        Wanted::Help(part) => text.contains(part),
        Wanted::Answer(whole) => text == whole,
        _ => false,
    }
}

/// How the reading of words ended where there was no task.
fn fault_end<A: Allocator>(fault: &TaskFault<A>, wanted: Wanted) -> End {
    match fault {
        TaskFault::Usage(text) => end_of(is_usage(text.as_str(), wanted), false),
        TaskFault::Help(text) => end_of(is_help(text.as_str(), wanted), false),
        TaskFault::Memory => End::Refused,
    }
}

/// How the reading of words for a task ended.
fn task_end<A: Allocator>(read: Result<Task<A>, TaskFault<A>>, wanted: Wanted) -> End {
    match read {
        Ok(task) => end_of(is_task(&task, wanted), false),
        Err(fault) => fault_end(&fault, wanted),
    }
}

/// How the reading of words for a session ended.
fn session_end<A: Allocator>(read: Result<SessionTask<A>, TaskFault<A>>, wanted: Wanted) -> End {
    match read {
        Ok(task) => end_of(is_session(&task, wanted), false),
        Err(fault) => fault_end(&fault, wanted),
    }
}

/// Words, and what they are read as.
type Row = (&'static str, Wanted);

static ROWS: [Row; 24] = [
    ("", Wanted::Command("", "", 0)),
    ("|asm|sum.src", Wanted::Command("asm", "sum.src", 0)),
    ("|tape|sum.src", Wanted::Command("tape", "sum.src", 0)),
    ("|script|a b", Wanted::Command("script", "a b", 0)),
    ("|run|sum.src|0", Wanted::Command("run", "sum.src", 0)),
    (
        "|run|sum.src|4294967295",
        Wanted::Command("run", "sum.src", 4_294_967_295),
    ),
    ("|batch|b.txt|a.txt", Wanted::Batch("b.txt", "a.txt")),
    ("|assemble", Wanted::Usage("Usage: lgp_lab")),
    ("|--fast", Wanted::Usage("Usage: lgp_lab")),
    ("|asm", Wanted::Usage("Usage: lgp_lab asm <FILE>")),
    ("|asm|a|b", Wanted::Usage("Usage: lgp_lab")),
    ("|batch", Wanted::Usage("Usage: lgp_lab")),
    ("|run|a", Wanted::Usage("Usage: lgp_lab")),
    (
        "|run|a|4294967296",
        Wanted::Usage("is not in 0..=4294967295"),
    ),
    ("|run|a|ten", Wanted::Usage("invalid")),
    ("|run|a|", Wanted::Usage("invalid")),
    ("|--help", Wanted::Help("Usage: lgp_lab [COMMAND]")),
    (
        "|run|--help",
        Wanted::Help("Usage: lgp_lab run <FILE> <LIMIT>"),
    ),
    ("|batch|-h", Wanted::Help("Usage: lgp_lab batch <FILE>...")),
    ("|asm|--help", Wanted::Help("Example")),
    ("|help|tape", Wanted::Help("Usage: lgp_lab tape <FILE>")),
    ("|--version", Wanted::Answer("lgp_lab 0.1.0\n")),
    ("|-V", Wanted::Answer("lgp_lab 0.1.0\n")),
    ("|asm|--version", Wanted::Usage("Usage: lgp_lab asm <FILE>")),
];

static SESSIONS: [Row; 11] = [
    ("", Wanted::Session(0, "", false, false)),
    ("|a b", Wanted::Session(1, "a b", false, false)),
    ("|--echo|one|two", Wanted::Session(2, "one", true, false)),
    ("|one|--echo", Wanted::Session(1, "one", true, false)),
    ("|--json", Wanted::Session(0, "", false, true)),
    ("|--echo|one|--json", Wanted::Session(1, "one", true, true)),
    ("|--loud", Wanted::Usage("")),
    ("|--echo=no", Wanted::Usage("")),
    ("|--json=2", Wanted::Usage("")),
    ("|--help", Wanted::Help("")),
    ("|--version", Wanted::Help("")),
];

#[test]
fn words_are_read_and_each_growth_is_refused(rt: HostRuntime) {
    let (global, limited) = (rt.alloc(), Limited::new(rt.alloc()));
    for (typed, wanted) in &ROWS {
        let growths = in_turn(
            &limited,
            || task_end(read(global, &limited, typed), *wanted),
        );
        let seen = (*typed, growths.is_some(), limited.blocks_out());
        expect_eq(&rt, seen, (*typed, true, 0));
    }
    for (typed, wanted) in &SESSIONS {
        let growths = in_turn(
            &limited,
            || session_end(session(global, &limited, typed), *wanted),
        );
        let seen = (*typed, growths.is_some(), limited.blocks_out());
        expect_eq(&rt, seen, (*typed, true, 0));
    }
}
