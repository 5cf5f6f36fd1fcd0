//! Answering a text line by line while it is read, and writing the replies.

ghost use Rattle.std.specs.Prelude.{◌≡◌, ◌++◌, ◌∷◌, ◌≤◌, [], List, Option, ℕ, IfErr, IfOk, IfSome, IsErr, OnOk, false, true, length, take};
ghost use Rattle.std.specs.Io.KnownBytes.{Appends, IsAtEnd};
ghost use Rattle.std.specs.List.{concat};
ghost use Rattle.std.specs.Str.Lines.{lines};
ghost use Rattle.lgp_stream.specs.Language.{StandsOf, HasCause, Language, StandsWritten, is_question, question_count, replies_to, state_after, text_replies, fault_after, HasStopped};
ghost use Rattle.lgp_stream.specs.KeptLine.{kept_of};
ghost use Rattle.lgp_stream.specs.AnsweringInside.{HasAnswered, HasAnsweredComplete, HasWritten};
ghost use Rattle.lgp_stream.specs.OpenLineInside.{open_of};
ghost use Rattle.lgp_stream.specs.Transcript.{IsLine};

use crate::feed::Feed;
use crate::line::{Line, LineBytes};
use crate::line_reader::ReadBytes;
use crate::sink::Sink;
use crate::tally::Tally;
use std::alloc::{AllocError, Allocator};
use thiserror::Error;

/// Why a text was not answered to its end.
#[derive(Clone, Copy, Debug, PartialEq, Eq, Error)]
pub enum StreamFault {
    /// The reader has failed. The lines that were complete have been answered.
    #[error("the text cannot be read")]
    Read,
    /// The writer has failed: exactly a given number of bytes of the replies were taken.
    #[error("the replies cannot be written past byte {0}")]
    Write(u64),
    /// A growth was refused: nothing of that line's reply was written.
    #[error("out of memory")]
    Memory,
}

impl StreamFault {
    /// The fault of a text that comes after another one, of which `bytes` bytes were written.
    pub fn after_bytes(self, bytes: u64) -> StreamFault
        ensures { result ≡ fault_after bytes self }
    {
        match self {
            StreamFault::Write(taken) => StreamFault::Write(taken.saturating_add(bytes)),
            other => other,
        }
    }
}

/// What answers the lines of a text.
pub trait Answers<A: Allocator>: Drop {
    /// The language in which it answers.
    ghost language: { Language Self };

    /// Answers a line of which this was kept: the reply's bytes are put after `reply`.
    fn answer(&mut self, line: &LineBytes, reply: &mut Vec<u8, A>) -> Result<(), AllocError>
        ensures reply { (text : List ℕ) → line.now ≡ kept_of text
            → OnOk result (reply.new.items ≡ reply.old.items ++ language.reply self.old text) }
        ensures after { (text : List ℕ) → line.now ≡ kept_of text
            → OnOk result (self.new ≡ language.after self.old text) };

    /// Answers the text's end.
    fn close(&mut self, reply: &mut Vec<u8, A>) -> Result<(), AllocError>
        ensures reply { OnOk result (reply.new.items
            ≡ reply.old.items ++ language.closing self.old) };
}

/// Whether a reply begins with a question mark.
pub fn is_question(reply: &[u8]) -> bool
    ensures { result ≡ is_question reply.now }
{
    match reply {
        [first, ..] => *first == b'?',
        [] => false,
    }
}

/// How far writing came.
#[derive(Clone, Copy)]
pub(crate) struct Broken {
    /// A given number of bytes were taken.
    pub(crate) taken: usize,
}

/// Writes all bytes.
pub(crate) fn send<W: Sink>(writer: &mut W, bytes: &[u8]) -> Result<(), Broken>
    ensures all { OnOk result (Appends (W.contents writer.old) (W.contents writer.new) bytes.now) }
    ensures part { IfErr result (λ broken. Appends (W.contents writer.old) (W.contents writer.new)
        (take broken.taken bytes.now)) }
    ensures within { IfErr result (λ broken. broken.taken ≤ length bytes.now) }
    ensures failed { IsErr result → W.failed writer.new ≡ true }
{
    let mut taken = 0;
    while taken < bytes.len() {
        match writer.write(&bytes[taken..]) {
            Ok(count) => taken += count,
            Err(_) => return Err(Broken { taken }),
        }
    }
    Ok(())
}

/// Writes a text whole, or tells how many of its first bytes were taken.
pub fn write_whole<W: Sink>(writer: &mut W, text: &[u8]) -> Result<(), StreamFault>
    ensures all { OnOk result (Appends (W.contents writer.old) (W.contents writer.new) text.now) }
    ensures stands { IfErr result (λ fault.
        StandsOf text.now fault (W.contents writer.old) (W.contents writer.new)) }
    ensures stopped { IfErr result (λ fault.
        HasStopped fault (W.contents writer.old) (W.contents writer.new) (text.now ∷ [])) }
    ensures cause { IfErr result (λ fault. HasCause fault false (W.failed writer.new)) }
    ensures failed { IsErr result → W.failed writer.new ≡ true }
{
    match send(writer, text) {
        Ok(()) => Ok(()),
        Err(broken) => Err(StreamFault::Write(broken.taken as u64)),
    }
}

/// What answers a text, and the count of its replies.
#[derive(Drop)]
struct Answering<A: Allocator, L: Answers<A>> {
    alloc: A,
    answers: L,
    tally: Tally,
}

impl<A: Allocator + Copy, L: Answers<A>> Answering<A, L> {
    /// Writes the reply to a line.
    fn answer<W: Sink>(&mut self, line: &LineBytes, writer: &mut W) -> Result<(), StreamFault>
        ensures answered { (s : L) (w₀ : Option (List ℕ)) (lines : List (List ℕ)) (text : List ℕ)
            → HasAnswered L.language s w₀ (W.contents writer.old) lines
            self.old.answers self.old.tally
            → line.now ≡ kept_of text
            → OnOk result (HasAnswered L.language s w₀ (W.contents writer.new) (lines ++ text ∷ [])
            self.new.answers self.new.tally) }
        ensures stopped { (s : L) (w₀ : Option (List ℕ)) (lines : List (List ℕ)) (text : List ℕ)
            → HasAnswered L.language s w₀ (W.contents writer.old) lines
            self.old.answers self.old.tally
            → line.now ≡ kept_of text
            → IfErr result (λ fault. HasStopped fault w₀ (W.contents writer.new)
            (replies_to L.language s (lines ++ text ∷ []))) }
        ensures cause { IfErr result (λ fault. HasCause fault false (W.failed writer.new)) }
    {
        let mut reply = Vec::new(self.alloc);
        let Ok(()) = self.answers.answer(line, &mut reply) else {
            return Err(StreamFault::Memory);
        };
        self.tally.deliver(writer, &reply)
    }

    /// Reads a text to its end and writes the replies to its complete lines. The line then has what comes after them.
    fn answer_complete<R: Feed, W: Sink>(
        &mut self,
        line: &mut Line,
        reader: &mut R,
        writer: &mut W,
    ) -> Result<(), StreamFault>
        requires begun { line.old ≡ open_of [] }
        requires uncounted { self.old.tally ≡ record { questions = 0; bytes = 0 } }
        ensures read { OnOk result (IsAtEnd (R.remaining reader.new)) }
        ensures answered { OnOk result (HasAnsweredComplete L.language self.old.answers
            (R.remaining reader.old) (W.contents writer.old) (W.contents writer.new)
            self.new.answers line.new self.new.tally) }
        ensures stands { IfErr result (λ fault. IfSome (R.remaining reader.old) (λ text.
            StandsWritten [] L.language self.old.answers fault text
            (R.remaining reader.new) (W.contents writer.old) (W.contents writer.new))) }
        ensures cause { IfErr result (λ fault.
            HasCause fault (R.failed reader.new) (W.failed writer.new)) }
    {
        let mut lines = ReadBytes::new();
        'lines: loop {
            let Ok(is_complete) = lines.take_line(reader, line) else {
                return Err(StreamFault::Read);
            };
            if !is_complete {
                return Ok(());
            }
            self.answer(line.bytes(), writer)?;
            line.restart();
        }
    }

    /// Writes the reply to what comes after the last line feed: a line, if there is anything.
    fn answer_last<W: Sink>(&mut self, line: Line, writer: &mut W) -> Result<(), StreamFault>
        ensures answered { (s : L) (w₀ : Option (List ℕ)) (complete : List (List ℕ))
            (piece : List ℕ) → HasAnswered L.language s w₀ (W.contents writer.old) complete
            self.old.answers self.old.tally → IsLine piece → line ≡ open_of piece
            → OnOk result (HasAnswered L.language s w₀ (W.contents writer.new)
            (complete ++ lines piece) self.new.answers self.new.tally) }
        ensures stopped { (s : L) (w₀ : Option (List ℕ)) (complete : List (List ℕ))
            (piece : List ℕ) → HasAnswered L.language s w₀ (W.contents writer.old) complete
            self.old.answers self.old.tally → IsLine piece → line ≡ open_of piece
            → IfErr result (λ fault. HasStopped fault w₀ (W.contents writer.new)
            (replies_to L.language s (complete ++ lines piece))) }
        ensures cause { IfErr result (λ fault. HasCause fault false (W.failed writer.new)) }
    {
        if line.is_unbegun() {
            return Ok(());
        }
        self.answer(&line.last(), writer)
    }

    /// Writes the reply to the text's end.
    fn close<W: Sink>(&mut self, writer: &mut W) -> Result<(), StreamFault>
        ensures written { (s : L) (w₀ : Option (List ℕ)) (lines : List (List ℕ))
            → HasAnswered L.language s w₀ (W.contents writer.old) lines
            self.old.answers self.old.tally
            → OnOk result (HasWritten w₀ (W.contents writer.new) (replies_to L.language s lines
            ++ L.language.closing (state_after L.language s lines) ∷ []) self.new.tally) }
        ensures stopped { (s : L) (w₀ : Option (List ℕ)) (lines : List (List ℕ))
            → HasAnswered L.language s w₀ (W.contents writer.old) lines
            self.old.answers self.old.tally
            → IfErr result (λ fault. HasStopped fault w₀ (W.contents writer.new)
            (replies_to L.language s lines
            ++ L.language.closing (state_after L.language s lines) ∷ [])) }
        ensures cause { IfErr result (λ fault. HasCause fault false (W.failed writer.new)) }
    {
        let mut reply = Vec::new(self.alloc);
        let Ok(()) = self.answers.close(&mut reply) else {
            return Err(StreamFault::Memory);
        };
        self.tally.deliver(writer, &reply)
    }
}

/// Answers a text: reads it to the reader's end and writes the reply to each line, and to the end; answers how many replies
/// begin with a question mark.
pub fn run_text<A: Allocator + Copy, L: Answers<A>, R: Feed, W: Sink>(
    alloc: A,
    answers: L,
    reader: &mut R,
    writer: &mut W,
) -> Result<u64, StreamFault>
    ensures read { OnOk result (IsAtEnd (R.remaining reader.new)) }
    ensures text { OnOk result (IfSome (R.remaining reader.old) (λ text.
        Appends (W.contents writer.old) (W.contents writer.new)
        (concat (text_replies L.language answers text)))) }
    ensures faults { IfOk result (λ faults. IfSome (R.remaining reader.old) (λ text.
        faults ≡ question_count (text_replies L.language answers text))) }
    ensures cause { IfErr result (λ fault.
        HasCause fault (R.failed reader.new) (W.failed writer.new)) }
    ensures stands { IfErr result (λ fault. IfSome (R.remaining reader.old) (λ text.
        StandsWritten [] L.language answers fault text
        (R.remaining reader.new) (W.contents writer.old) (W.contents writer.new))) }
{
    let mut answering = Answering {
        alloc,
        answers,
        tally: Tally::new(),
    };
    let mut line = Line::new();
    answering.answer_complete(&mut line, reader, writer)?;
    answering.answer_last(line, writer)?;
    answering.close(writer)?;
    Ok(answering.tally.questions)
}
