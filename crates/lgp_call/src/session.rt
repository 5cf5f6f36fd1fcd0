//! Lines answered one at a time.

ghost use Rattle.std.specs.Prelude.{◌≡◌, ◌<◌, IfOk, OnOk};
ghost use Rattle.lgp_call.specs.Reply.{IsGiven, IsGivenUnlessMemory};
ghost use Rattle.lgp_call.specs.Session.{after_line, closing_refused, closing_reply, has_line_feed, no_outcome, opening_session};
ghost use Rattle.lgp_call.specs.Status.{unread_status};

use crate::room::fill;
use crate::script::Outcome;
use lgp_desk::{Desk, Manner};
use lgp_monitor::Silence;
use lgp_stream::LineBytes;
use std::alloc::{AllocError, Allocator};
use std::marker::Model;

mod telling;

/// The refusal of bytes with a line feed among them.
const MORE_THAN_A_LINE: &[u8] = b"? 1 Form: these are several lines; give them one at a time\n";

/// Whether a line feed is among the bytes of a line.
fn has_line_feed(line: &[u8]) -> bool
    ensures { result ≡ has_line_feed line.now }
{
    line.iter().any(|byte| *byte == b'\n')
}

/// A desk whose monitor answers one line after another, and the last reply.
pub struct Session<A: Allocator + Copy> {
    alloc: A,
    desk: Desk<A, Silence>,
    reply: Vec<u8, A>,
    refused: bool,
}

// Written out: a derived drop is copied to each place where one is dropped.
impl<A: Allocator + Copy> Drop for Session<A> {
    fn drop(self) {
        let Session {
            alloc: _,
            desk: _,
            reply: _,
            refused: _,
        } = self;
    }
}

impl<A: Allocator + Copy> Model for Session<A> {
    ghost use Rattle.lgp_call.specs.Session.{SessionState};

    ghost Value = { SessionState };

    ghost view = { λ session. record {
      seat = session.desk;
      reply = session.reply.items;
      refused = session.refused;
    } };
}

impl<A: Allocator + Copy> Session<A> {
    /// A session with a new laboratory, in which no line was answered yet.
    pub fn new(alloc: A) -> Result<Session<A>, AllocError>
        ensures { IfOk result (λ session. session ≡ opening_session) }
    {
        let desk = Desk::new(alloc, Manner::Bare, Silence)?;
        Ok(Session {
            alloc,
            desk,
            reply: Vec::new(alloc),
            refused: false,
        })
    }

    /// A new session, in a box of its own.
    pub fn boxed<B: Allocator>(alloc: A, room: B) -> Result<Box<Session<A>, B>, AllocError>
        ensures { IfOk result (λ whole. whole.value ≡ opening_session) }
    {
        let session = Session::new(alloc)?;
        Ok(Box::new(room, session)?)
    }

    /// Answers a line. Bytes with a line feed among them are refused, and nothing is done. A refused growth leaves open in
    /// which state the session is.
    #[tactic(auto, unfolding(crate::specs::Session::more_than_a_line))]
    pub fn answer_line(&mut self, line: &[u8]) -> Result<(), AllocError>
        ensures { OnOk result (self.new ≡ after_line self.old line.now) }
    {
        self.reply.clear();
        if has_line_feed(line) {
            self.refused = true;
            return self.reply.extend_from_slice(MORE_THAN_A_LINE);
        }
        self.refused = self
            .desk
            .ask_monitor(&LineBytes::of(line), &mut self.reply)?;
        Ok(())
    }

    /// Answers the session's end: a source that is open is closed with its reply, otherwise the reply is empty.
    pub fn end(&mut self) -> Result<(), AllocError>
        ensures reply { OnOk result (self.new.reply ≡ closing_reply self.old) }
        ensures refused { OnOk result (self.new.refused ≡ closing_refused self.old) }
    {
        self.reply.clear();
        self.refused = self.desk.close_monitor(&mut self.reply)?;
        Ok(())
    }

    /// Writes the last reply into the room, as far as it fits, and tells its whole length. The answer is 1 where it is a refusal, and else 0.
    pub fn give_reply(&self, room: &mut [u8], outcome: &mut Outcome) -> u32
        ensures { IsGiven self.now.refused self.now.reply room.old room.new outcome.new result }
    {
        let reply = self.reply.as_slice();
        fill(room, reply);
        *outcome = Outcome {
            questions: u64::from(self.refused),
            length: reply.len() as u64,
        };
        u32::from(self.refused)
    }

    /// Answers a line, and gives its reply as `give_reply` does.
    ///
    /// The status is 0, 1, or 3 where there was not enough memory. With 3 nothing is written into the room, both numbers of the outcome
    /// are 0, and the session's state is left open: nothing more is to be asked of it.
    pub fn answer_into(&mut self, line: &[u8], room: &mut [u8], outcome: &mut Outcome) -> u32
        ensures after { result < unread_status → self.new ≡ after_line self.old line.now }
        ensures reply { IsGivenUnlessMemory (after_line self.old line.now).refused
            (after_line self.old line.now).reply room.old room.new outcome.new result }
    {
        match self.answer_line(line) {
            Ok(()) => self.give_reply(room, outcome),
            Err(_) => refuse(outcome, 3),
        }
    }

    /// Answers the session's end, and gives its reply as `give_reply` does. All memory of the session is given back, whatever the
    /// status is: 0, 1, or 3 where there was not enough memory for the reply. With 3 nothing is written into the room, and both numbers
    /// of the outcome are 0.
    pub fn close_into(mut self, room: &mut [u8], outcome: &mut Outcome) -> u32
        ensures { IsGivenUnlessMemory (closing_refused self) (closing_reply self)
            room.old room.new outcome.new result }
    {
        match self.end() {
            Ok(()) => self.give_reply(room, outcome),
            Err(_) => refuse(outcome, 3),
        }
    }
}

/// Tells of no reply, and passes the status on.
pub fn refuse(outcome: &mut Outcome, status: u32) -> u32
    ensures status { result ≡ status }
    ensures unreported { outcome.new ≡ no_outcome }
{
    *outcome = Outcome {
        questions: 0,
        length: 0,
    };
    status
}
