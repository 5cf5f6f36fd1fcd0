//! What the monitor's program does with the words of its command line.

ghost use Rattle.std.specs.Prelude.{◌≡◌, false};

use super::few_files;
use crate::expect_eq;
use lgp_desk::{Files, Manner, obey_session};
use lgp_lab::{Feed, FeedOf, READS, Sink, SinkOf, WordFault};
use lgp_monitor::Silence;
use std::alloc::Global;

/// Appends words as the runtime gives them; false where memory is refused.
fn push_words(alloc: Global, words: &mut Vec<String>, typed: &[&str]) -> bool {
    for word in typed {
        if !push_word(alloc, words, word) {
            return false;
        }
    }
    true
}

/// Appends a word; false where memory is refused.
fn push_word(alloc: Global, words: &mut Vec<String>, word: &str) -> bool {
    match String::from_str(alloc, word) {
        Ok(word) => words.push(word).is_ok(),
        Err(_) => false,
    }
}

/// The status for words, with these files and this input.
fn obeyed<F: Files, R: Feed, W: Sink, M: Sink>(
    alloc: Global,
    words: Result<&[String], WordFault>,
    manner: Manner,
    files: &mut F,
    input: &mut R,
    output: &mut W,
    messages: &mut M,
) -> u8
    requires output { W.failed output.old ≡ false }
    requires messages { M.failed messages.old ≡ false }
{
    obey_session(
        alloc, alloc, words, manner, files, Silence, input, output, messages,
    )
}

/// The status for words, where standard input is a line that puts a word and one that is no command.
fn status_for(
    alloc: Global,
    words: Result<&[String], WordFault>,
    manner: Manner,
    output: &mut Vec<u8>,
    messages: &mut Vec<u8>,
) -> u8 {
    let mut input = FeedOf::new(b"put 0000 = 1\nbar".as_slice(), READS);
    let mut output = SinkOf::new(&mut *output);
    let mut messages = SinkOf::new(&mut *messages);
    obeyed(
        alloc,
        words,
        manner,
        &mut few_files(),
        &mut input,
        &mut output,
        &mut messages,
    )
}

/// The status for words that are typed.
fn status_typed(
    alloc: Global,
    typed: &[&str],
    manner: Manner,
    output: &mut Vec<u8>,
    messages: &mut Vec<u8>,
) -> Option<u8> {
    let mut words = Vec::new(alloc);
    if push_words(alloc, &mut words, typed) {
        Some(status_for(alloc, Ok(&words), manner, output, messages))
    } else {
        None
    }
}

/// Words, what is written for them, and the status.
type Row = (&'static [&'static str], &'static [u8], u8);

/// Whether this is written in this manner for a session or for the version, with this status.
fn is_held(alloc: Global, manner: Manner, row: &Row) -> bool {
    let (typed, text, wanted) = *row;
    let mut output = Vec::new(alloc);
    let mut messages = Vec::new(alloc);
    let status = status_typed(alloc, typed, manner, &mut output, &mut messages);
    status == Some(wanted) && output.as_slice() == text
}

/// How many rows come before the first for which anything else is written.
fn rows_held(alloc: Global, manner: Manner, rows: &[Row]) -> usize {
    let mut held: usize = 0;
    for row in rows {
        if !is_held(alloc, manner, row) {
            return held;
        }
        held = held.saturating_add(1);
    }
    held
}

/// What is written for the lines on standard input.
const HELD: &[u8] = b"ok\n? 1 Form: there is no such command; help lists them all\n";

/// What is written where the lines of a file come first.
const TAUGHT: &[u8] =
    b"ok\n? 1 Form: there is no such command; help lists them all\n        line 2 of lesson.txt\n\
    ok\n? 1 Form: there is no such command; help lists them all\n";

/// What is written where a file is not there.
const LACKING: &[u8] =
    b"? 13 File none.txt: it cannot be opened\n        named on the command line\n\
    ok\n? 1 Form: there is no such command; help lists them all\n";

/// What is written where each line is above its reply.
const ECHOED: &[u8] =
    b"> put 0000 = 1\nok\n? bar\n? 1 Form: there is no such command; help lists them all\n";

/// What is written where no prompt is asked for.
static HELD_BARE: [Row; 5] = [
    (&["lgp_monitor"], HELD, 1),
    (&["lgp_monitor", "lesson.txt"], TAUGHT, 1),
    (&["lgp_monitor", "none.txt"], LACKING, 1),
    (&["lgp_monitor", "--echo"], ECHOED, 1),
    (&["lgp_monitor", "--version"], b"lgp_monitor 0.1.0\n", 0),
];

#[test]
fn a_session_is_held(rt: HostRuntime) {
    let held = rows_held(rt.alloc(), Manner::Bare, &HELD_BARE);
    expect_eq(&rt, held, 5);
}

/// What is written with prompts: for the lines on standard input alone, after those of a file, after a file that is not there, and
/// after three files.
static PROMPTED: [Row; 5] = [
    (
        &["lgp_monitor"],
        b"0000 halted operator> ok\n0000 halted operator> ? 1 Form: there is no such command; help lists them all\n0000 halted operator> \n",
        1,
    ),
    (
        &["lgp_monitor", "lesson.txt"],
        b"ok\n? 1 Form: there is no such command; help lists them all\n        line 2 of lesson.txt\n\
        0000 halted operator> ok\n0000 halted operator> ? 1 Form: there is no such command; help lists them all\n0000 halted operator> \n",
        1,
    ),
    (
        &["lgp_monitor", "none.txt"],
        b"? 13 File none.txt: it cannot be opened\n        named on the command line\n\
        0000 halted operator> ok\n0000 halted operator> ? 1 Form: there is no such command; help lists them all\n0000 halted operator> \n",
        1,
    ),
    (
        &["lgp_monitor", "lesson.txt", "none.txt", "lesson.txt"],
        b"ok\n? 1 Form: there is no such command; help lists them all\n        line 2 of lesson.txt\n\
        ? 13 File none.txt: it cannot be opened\n        named on the command line\n\
        ok\n? 1 Form: there is no such command; help lists them all\n        line 2 of lesson.txt\n\
        0000 halted operator> ok\n0000 halted operator> ? 1 Form: there is no such command; help lists them all\n0000 halted operator> \n",
        1,
    ),
    (&["lgp_monitor", "--echo", "lesson.txt"], TAUGHT_ECHOED, 1),
];

/// What is written where the lines of a file come first and each line is above its reply.
const TAUGHT_ECHOED: &[u8] =
    b"> put 0001 = 2\nok\n? foo\n? 1 Form: there is no such command; help lists them all\n\
    \x20       line 2 of lesson.txt\n\
    > put 0000 = 1\nok\n? bar\n? 1 Form: there is no such command; help lists them all\n";

#[test]
fn a_prompt_comes_after_the_lines_of_files(rt: HostRuntime) {
    let held = rows_held(rt.alloc(), Manner::Prompting, &PROMPTED);
    expect_eq(&rt, held, 5);
}

/// Whether this is reported of words that are not there, without output, and this is the status.
fn is_unread(alloc: Global, fault: WordFault, text: &[u8], wanted: u8) -> bool {
    let mut output = Vec::new(alloc);
    let mut messages = Vec::new(alloc);
    let status = status_for(alloc, Err(fault), Manner::Bare, &mut output, &mut messages);
    status == wanted && output.is_empty() && messages.as_slice() == text
}

#[test]
fn words_that_are_not_there_are_reported(rt: HostRuntime) {
    let text = b"error: the words of the command line are not UTF-8 text\n";
    let unread = [
        is_unread(rt.alloc(), WordFault::NotText, text, 64),
        is_unread(rt.alloc(), WordFault::Memory, b"", 3),
    ];
    expect_eq(&rt, unread, [true; 2]);
}
