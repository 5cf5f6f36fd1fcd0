//! What answers lines and keeps them.

ghost use Rattle.std.specs.Prelude.{◌≡◌, ◌++◌, ◌∷◌, [], List, ℕ, OnOk};
ghost use Rattle.lgp_stream.specs.KeptLine.{kept_of};
ghost use Rattle.std.specs.Borrow.{sem};
ghost use Rattle.lgp_stream.specs.Language.{IsAnswered};
ghost use Rattle.lgp_stream.specs.Transcript.{bytes_of, ended, lines_answered, stand_in, untouched, with_line};

use crate::line::LineBytes;
use crate::stream::Answers;
use std::alloc::{AllocError, Allocator};
use std::marker::Model;

/// What answers lines, with the text of all lines that it has answered. Clauses see its state and the text.
pub struct Recorder<L, A: Allocator> {
    answers: L,
    transcript: Vec<u8, A>,
}

// Written out: a derived drop is copied to each place where one is dropped.
impl<L: Drop, A: Allocator> Drop for Recorder<L, A> {
    fn drop(self) {
        let Recorder {
            answers: _,
            transcript: _,
        } = self;
    }
}

impl<L, A: Allocator> Model for Recorder<L, A> {
    ghost use Rattle.lgp_stream.specs.Transcript.{Recorded};

    ghost Value = { Recorded L };

    ghost view = { λ recorder. record {
      state = recorder.answers;
      transcript = recorder.transcript.items;
    } };
}

/// Appends a line as a text has it.
#[tactic(auto, unfolding(crate::specs::Transcript::ended))]
fn push_ended<A: Allocator>(text: &mut Vec<u8, A>, line: &[u8]) -> Result<(), AllocError>
    ensures { OnOk result (text.new.items ≡ text.old.items ++ ended line.now) }
{
    text.extend_from_slice(line)?;
    if line.ends_with(b"\r") {
        text.extend_from_slice(b"\r\n")
    } else {
        text.extend_from_slice(b"\n")
    }
}

/// Appends a line of which the same is kept, as a text has it.
#[tactic(auto, unfolding(crate::specs::Transcript::ended, crate::specs::Transcript::stand_in))]
fn push_stand_in<A: Allocator>(text: &mut Vec<u8, A>, line: &LineBytes) -> Result<(), AllocError>
    ensures { OnOk result (text.new.items ≡ text.old.items ++ ended (stand_in line.now)) }
{
    if !line.is_longer() {
        return push_ended(text, line.front());
    }
    text.extend_from_slice(line.front())?;
    text.extend_from_slice(if line.has_no_word() { b" \n" } else { b".\n" })
}

impl<L, A: Allocator> Recorder<L, A> {
    ghost use Rattle.lgp_stream.specs.Lent.{lends_answers};

    /// What answers the lines, for work that no line here asks for: the caller keeps the line that asks for the same.
    pub fn answers_mut(&mut self) -> &mut L
        ensures* lends { sem 𝓛 (lends_answers L.row A.row A.Allocator self.entry result) }
        ensures value { result.now ≡ self.old.state }
    {
        &mut self.answers
    }

    /// Keeps a line that is answered otherwise. A refused growth may leave a part of it kept.
    pub fn keep_line(&mut self, line: &[u8]) -> Result<(), AllocError>
        ensures { OnOk result (self.new ≡ with_line self.old line.now) }
    {
        push_ended(&mut self.transcript, line)
    }
}

impl<L: Answers<A>, A: Allocator + Copy> Recorder<L, A> {
    /// No line was answered yet.
    pub fn new(alloc: A, answers: L) -> Recorder<L, A>
        ensures { result ≡ untouched answers }
    {
        Recorder {
            answers,
            transcript: Vec::new(alloc),
        }
    }

    /// What answers the lines.
    pub fn answers(&self) -> &L
        ensures { result.now ≡ self.now.state }
    {
        &self.answers
    }

    /// The text of all lines that were answered.
    pub fn transcript(&self) -> &[u8]
        ensures { result.now ≡ self.now.transcript }
    {
        &self.transcript
    }

    /// Answers a line, and keeps it. A refused growth may leave it kept and not answered.
    #[tactic(auto, unfolding(crate::specs::Transcript::after_lines, crate::specs::Transcript::replies_text))]
    pub fn answer_line(&mut self, line: &[u8], reply: &mut Vec<u8, A>) -> Result<(), AllocError>
        ensures { OnOk result (IsAnswered reply.old.items reply.new.items self.new
            (lines_answered L.language self.old (line.now ∷ []))) }
    {
        push_ended(&mut self.transcript, line)?;
        self.answers.answer(&LineBytes::of(line), reply)
    }

    /// Answers a line of which this was kept, and keeps one of which the same is kept. A refused growth may leave it kept and not
    /// answered.
    pub fn answer_kept(
        &mut self,
        line: &LineBytes,
        reply: &mut Vec<u8, A>,
    ) -> Result<(), AllocError>
        ensures { (text : List ℕ) → line.now ≡ kept_of text
            → OnOk result (IsAnswered reply.old.items reply.new.items self.new
            (lines_answered L.language self.old (stand_in line.now ∷ []))) }
    {
        push_stand_in(&mut self.transcript, line)?;
        self.answers.answer(line, reply)
    }

    /// Answers lines one after another, and keeps them. A refused growth leaves open what was done.
    pub fn answer_lines(
        &mut self,
        lines: &[&[u8]],
        reply: &mut Vec<u8, A>,
    ) -> Result<(), AllocError>
        ensures { OnOk result (IsAnswered reply.old.items reply.new.items self.new
            (lines_answered L.language self.old (bytes_of lines.now))) }
    {
        for line in lines {
            self.answer_line(line, reply)?;
        }
        Ok(())
    }

    /// Answers the text's end.
    pub fn close(&mut self, reply: &mut Vec<u8, A>) -> Result<(), AllocError>
        ensures { OnOk result (reply.new.items
            ≡ reply.old.items ++ L.language.closing self.old.state) }
    {
        self.answers.close(reply)
    }

    /// Forgets all lines, and goes on with what answers anew.
    pub fn begin_anew(&mut self, answers: L)
        ensures { self.new ≡ untouched answers }
    {
        self.answers = answers;
        self.transcript.clear();
    }
}
