//! What the program does with the words of its command line.

use super::streams::Failing;
use super::tasks::Made;
use crate::expect_eq;
use crate::task::words;
use lgp_lab::{FeedOf, READS, SinkOf, WordFault, obey, refuse_unread};
use std::alloc::Global;
use std::io::Write;

/// The status for words, where standard input is a line that is no command.
fn status_for<W: Write + Drop, M: Write + Drop>(
    alloc: Global,
    words: Result<&[String], WordFault>,
    output: W,
    messages: M,
) -> u8 {
    let mut input = FeedOf::new(b"bar".as_slice(), READS);
    let mut output = SinkOf::new(output);
    let mut messages = SinkOf::new(messages);
    obey(
        alloc,
        alloc,
        words,
        &mut Made::new(),
        &mut input,
        &mut output,
        &mut messages,
    )
}

/// Whether this text and this message are written for words, and this is the status.
fn is_obeyed(
    alloc: Global,
    words: Result<&[String], WordFault>,
    (text, message): (&[u8], &[u8]),
    status: u8,
) -> bool {
    let mut output = Vec::new(alloc);
    let mut messages = Vec::new(alloc);
    let ended = status_for(alloc, words, &mut output, &mut messages);
    ended == status && output.as_slice() == text && messages.as_slice() == message
}

/// Whether this text is written for words that are typed, without a message, and this is the status.
fn are_typed_obeyed(alloc: Global, typed: &str, text: &[u8], status: u8) -> bool {
    match words(alloc, typed) {
        Some(words) => is_obeyed(alloc, Ok(&words), (text, b""), status),
        None => false,
    }
}

/// Words, each with what is written and the status.
static DONE: [(&str, &[u8], u8); 4] = [
    ("", b"? 1 Form\n", 1),
    (
        "|batch|one|two",
        b"file one\nclock 5\nfile two\n? 1 Form\n",
        1,
    ),
    ("|script|none", b"", 2),
    ("|--version", b"lgp_lab 0.1.0\n", 0),
];

#[test]
fn words_are_obeyed_without_a_message(rt: HostRuntime) {
    for (typed, text, status) in &DONE {
        let seen = (*typed, are_typed_obeyed(rt.alloc(), typed, text, *status));
        expect_eq(&rt, seen, (*typed, true));
    }
}

/// What is reported of words that cannot be read.
const UNREAD: &[u8] = b"error: the words of the command line are not UTF-8 text\n";

#[test]
fn words_that_are_not_there_are_reported(rt: HostRuntime) {
    let reported = [
        is_obeyed(rt.alloc(), Err(WordFault::NotText), (b"", UNREAD), 64),
        is_obeyed(rt.alloc(), Err(WordFault::Memory), (b"", b""), 3),
    ];
    expect_eq(&rt, reported, [true; 2]);
}

/// The status of telling that words cannot be read, and what is written.
fn unread_into<M: Write + Drop>(messages: M) -> u8 {
    let mut messages = SinkOf::new(messages);
    refuse_unread(&mut messages)
}

/// The status, and whether this is what is told.
fn unread(alloc: Global, text: &[u8]) -> (u8, bool) {
    let mut written = Vec::new(alloc);
    let status = unread_into(&mut written);
    (status, written.as_slice() == text)
}

#[test]
fn words_that_cannot_be_read_are_a_mistake(rt: HostRuntime) {
    let told = unread(rt.alloc(), UNREAD);
    let failed = unread_into(Failing::after(rt.alloc(), 2, 1));
    expect_eq(&rt, (told, failed), ((64, true), 2));
}
