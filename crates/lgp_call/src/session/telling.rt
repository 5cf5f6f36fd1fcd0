//! A session as a desk: what it is told and what it shows, each by a number.

ghost use Rattle.std.specs.Prelude.{◌≡◌, ◌<◌, IfOk, Ok, OnOk};
ghost use Rattle.lgp_call.specs.Reply.{IsGivenUnlessMemory};
ghost use Rattle.lgp_call.specs.Status.{unread_status};
ghost use Rattle.lgp_call.specs.Telling.{after_shown, after_told, are_several, kept_in, manner_of, shown_of, wish_number, with_manner};
ghost use Rattle.lgp_desk.specs.Desk.{Found, closing_refuses, closing_text, said_to, wish_at};

use crate::script::Outcome;
use crate::session::{MORE_THAN_A_LINE, Session, has_line_feed, refuse};
use lgp_desk::{FileTrouble, Manner, Wish};
use lgp_stream::LineBytes;
use std::alloc::{AllocError, Allocator};

/// A text of these bytes.
fn text_of<A: Allocator>(alloc: A, bytes: &[u8]) -> Result<Vec<u8, A>, AllocError>
    ensures { IfOk result (λ text. text.items ≡ bytes.now) }
{
    let mut text = Vec::new(alloc);
    text.extend_from_slice(bytes)?;
    Ok(text)
}

/// Whether several lines are told as one.
fn are_several(what: u32, text: &[u8]) -> bool
    ensures { result ≡ are_several what text.now }
{
    what == 0 && has_line_feed(text)
}

/// How replies are written, by its number.
fn manner_of(number: u32) -> Option<Manner>
    ensures { result ≡ manner_of number }
{
    match number {
        0 => Some(Manner::Bare),
        1 => Some(Manner::Prompting),
        2 => Some(Manner::Echoing),
        3 => Some(Manner::Json),
        _ => None,
    }
}

impl<A: Allocator + Copy> Session<A> {
    /// Tells the desk what a file holds.
    fn tell_found(&mut self, text: &[u8]) -> Result<Vec<u8, A>, AllocError>
        ensures reply { IfOk result (λ reply. reply.items
            ≡ (said_to self.old.seat (Found (Ok text.now))).text) }
        ensures after { OnOk result (self.new.seat
            ≡ (said_to self.old.seat (Found (Ok text.now))).seat) }
    {
        let text = text_of(self.alloc, text)?;
        self.desk.found(Ok(text))
    }

    /// Tells the desk something by its number: the text that is to be written. Of refusals it knows this one alone.
    #[tactic(auto, unfolding(crate::specs::Session::more_than_a_line))]
    fn told(&mut self, what: u32, text: &[u8]) -> Result<Vec<u8, A>, AllocError>
        ensures reply { IfOk result (λ reply. reply.items
            ≡ (after_told self.old what text.now).reply) }
        ensures after { OnOk result (self.new.seat ≡ (after_told self.old what text.now).seat) }
    {
        self.desk.forget_refusals();
        match what {
            0 if has_line_feed(text) => text_of(self.alloc, MORE_THAN_A_LINE),
            0 => self.desk.typed(&LineBytes::of(text)),
            1 => self.desk.first(text),
            2 => self.desk.onward(),
            3 => self.tell_found(text),
            4 => self.desk.found(Err(FileTrouble::NotOpened)),
            5 => self.desk.found(Err(FileTrouble::NotRead)),
            6 => self.desk.found(Err(FileTrouble::TooLong)),
            7 => self.desk.found(Err(FileTrouble::NotNamed)),
            8 => self.desk.kept(true),
            9 => self.desk.kept(false),
            _ => Ok(Vec::new(self.alloc)),
        }
    }

    /// Tells the desk something by its number, and gives the text that is to be written as `give_reply` does.
    ///
    /// The status is 0, 1, or 3 where there was not enough memory. With 3 nothing is written into the room, both numbers of the outcome
    /// are 0, and the session's state is left open: nothing more is to be asked of it.
    pub fn tell_into(
        &mut self,
        what: u32,
        text: &[u8],
        room: &mut [u8],
        outcome: &mut Outcome,
    ) -> u32
        ensures after { result < unread_status → self.new ≡ after_told self.old what text.now }
        ensures reply { IsGivenUnlessMemory (after_told self.old what text.now).refused
            (after_told self.old what text.now).reply room.old room.new outcome.new result }
    {
        match self.told(what, text) {
            Ok(reply) => {
                self.reply = reply;
                self.refused = are_several(what, text) || self.desk.has_refused();
                self.give_reply(room, outcome)
            }
            Err(_) => refuse(outcome, 3),
        }
    }

    /// What the desk wishes for, by its number.
    pub fn wish_number(&self) -> u32
        ensures { result ≡ wish_number (wish_at self.now.seat) }
    {
        match self.desk.wish() {
            Wish::Line => 0,
            Wish::Onward => 1,
            Wish::Read => 2,
            Wish::Keep(_) => 3,
            Wish::Nothing => 4,
        }
    }

    /// The text that is to be kept in a file, empty where nothing is.
    fn kept_text(&self) -> Result<Vec<u8, A>, AllocError>
        ensures { IfOk result (λ text. text.items ≡ kept_in self.now.seat (wish_at self.now.seat)) }
    {
        match self.desk.wish() {
            Wish::Keep(made) => self.desk.text_made(made),
            Wish::Line | Wish::Onward | Wish::Read | Wish::Nothing => Ok(Vec::new(self.alloc)),
        }
    }

    /// What the desk shows by its number.
    fn shown(&self, what: u32) -> Result<Vec<u8, A>, AllocError>
        ensures { IfOk result (λ text. text.items ≡ shown_of self.now.seat what) }
    {
        match what {
            0 => self.desk.prompt(),
            1 => text_of(self.alloc, self.desk.file_name().unwrap_or(b"")),
            2 => self.kept_text(),
            _ => Ok(Vec::new(self.alloc)),
        }
    }

    /// Gives what the desk shows by its number, as `give_reply` does. The status is that of `tell_into`.
    #[tactic(auto, unfolding(crate::specs::Telling::after_shown))]
    pub fn show_into(&mut self, what: u32, room: &mut [u8], outcome: &mut Outcome) -> u32
        ensures after { result < unread_status → self.new ≡ after_shown self.old what }
        ensures reply { IsGivenUnlessMemory (after_shown self.old what).refused
            (after_shown self.old what).reply room.old room.new outcome.new result }
    {
        match self.shown(what) {
            Ok(text) => {
                self.reply = text;
                self.refused = false;
                self.give_reply(room, outcome)
            }
            Err(_) => refuse(outcome, 3),
        }
    }

    /// Sets how replies are written from now on, by its number; another number changes nothing.
    pub fn set_manner(&mut self, number: u32)
        ensures { self.new ≡ with_manner self.old number }
    {
        if let Some(manner) = manner_of(number) {
            self.desk.set_manner(manner);
        }
    }

    /// Tells the desk that no line is typed any more, and gives the text that is to be written as `close_into` gives a reply.
    pub fn leave_into(mut self, room: &mut [u8], outcome: &mut Outcome) -> u32
        ensures { IsGivenUnlessMemory (closing_refuses self.seat) (closing_text self.seat)
            room.old room.new outcome.new result }
    {
        self.desk.forget_refusals();
        match self.desk.close() {
            Ok(text) => {
                self.reply = text;
                self.refused = self.desk.has_refused();
                self.give_reply(room, outcome)
            }
            Err(_) => refuse(outcome, 3),
        }
    }
}
