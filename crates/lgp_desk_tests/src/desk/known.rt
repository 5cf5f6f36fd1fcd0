//! What is written is known where files and input are: the promise of a session is not empty.

ghost use Rattle.std.specs.Prelude.{IfOk, []};
ghost use Rattle.lgp_desk.specs.Drawers.{IsSessionText, drawer_answer};
ghost use Rattle.lgp_desk.specs.declared.writing.Manner.TheVariants.{Echoing};
ghost use Rattle.lgp_desk_tests.specs.Shelf.{drawer_of, shelf};

use crate::{expect_eq, is_done};
use lgp_desk::{Files, Manner, attend};
use lgp_lab::{Failed, FeedOf, FileName, READS, Sink, SinkOf};
use lgp_monitor::Silence;
use lgp_stream::StreamFault;
use std::alloc::Global;

/// What the file has.
const LESSON: &[u8] = b"put 0000 = 1\nfoo\n";

/// One file, and none that can be kept: all is known of it.
#[derive(Drop)]
struct Shelf {
    /// What the open file has left.
    left: Option<&'static [u8]>,
}

impl Files for Shelf {
    ghost answer = { λ before call after.
        drawer_answer (drawer_of before.left) call (drawer_of after.left) };

    fn open(&mut self, name: &str) -> bool {
        self.left = if name == "lesson" { Some(LESSON) } else { None };
        self.left.is_some()
    }

    fn read(&mut self, buffer: &mut [u8]) -> Result<usize, Failed> {
        let Some(left) = self.left else {
            return Err(Failed);
        };
        let count = left.len().min(buffer.len());
        buffer[..count].copy_from_slice(&left[..count]);
        self.left = Some(&left[count..]);
        Ok(count)
    }

    fn close(&mut self) {
        self.left = None;
    }

    fn keep(&mut self, _name: &str, _text: &[u8]) -> bool {
        false
    }
}

/// Answers a typed text, with that file: exactly what the definition says is written.
fn written_for<W: Sink>(alloc: Global, typed: &[u8], sink: &mut W) -> Result<bool, StreamFault>
    ensures { IfOk result (λ refused. IsSessionText shelf Echoing [] typed.now refused
        (W.contents sink.old) (W.contents sink.new)) }
{
    let mut feed = FeedOf::new(typed, READS);
    let mut files = Shelf { left: None };
    let names: [FileName<Global>; 0] = [];
    attend(
        alloc,
        Manner::Echoing,
        &names,
        &mut files,
        Silence,
        &mut feed,
        sink,
    )
}

/// The same, after what a text has.
fn write_for(alloc: Global, typed: &[u8], written: &mut Vec<u8>) -> Result<bool, StreamFault> {
    let mut sink = SinkOf::new(&mut *written);
    written_for(alloc, typed, &mut sink)
}

/// Whether a line is refused, and this is written.
fn is_written(alloc: Global, typed: &[u8], text: &[u8]) -> bool {
    let mut written = Vec::new(alloc);
    let answer = write_for(alloc, typed, &mut written);
    is_done(answer, true) && written.as_slice() == text
}

#[test]
fn the_promise_is_not_empty(rt: HostRuntime) {
    let text =
        b"> put 0000 = 1\nok\n? foo\n? 1 Form: there is no such command; help lists them all\n\
        \x20       line 2 of lesson\n? 13 File none: it cannot be opened\n";
    let is_written = is_written(rt.alloc(), b"do lesson\ndo none\n", text);
    expect_eq(&rt, is_written, true);
}
