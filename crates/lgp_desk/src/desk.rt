//! The monitor at a desk, where lines are typed until `quit`. It reads nothing and writes nothing: it says what it wishes for, and is told
//! what came of that.

ghost use Rattle.std.specs.Prelude.{◌≡◌, ◌++◌, ◌||◌, IfOk, IfSome, List, None, OnOk, ℕ, false, is_none, option_map, true};
ghost use Rattle.std.specs.Result.{result_map_both};
ghost use Rattle.lgp_stream.specs.KeptLine.{kept_of};
ghost use Rattle.lgp_monitor.specs.Closing.{is_faulty};
ghost use Rattle.lgp_monitor.specs.Monitor.{answered_in, monitor_language};
ghost use Rattle.lgp_desk.specs.Desk.{First, Found, Kept, Onward, Typed, answered, asked, closing_refuses, closing_text, command_said, is_keep, left_by, line_said, marked, note_at, own, prompt_at, prompt_in, refused, said_to, taken_seat, takes_lines, wanting, wish_at, without_file, written_last};
ghost use Rattle.lgp_desk.specs.FileForms.{text_made};
ghost use Rattle.lgp_desk.specs.OpenFileInside.{HasNextOf};

use crate::files::FileTrouble;
use crate::keeping::text_made;
use crate::open_file::OpenFile;
use crate::request::{Made, Work, is_quit, request_in};
use crate::trouble::push_trouble;
use crate::wish::Wish;
use crate::writing::{Manner, REPLY_ROOM, form_in, push_last, push_own, push_shown, written};
use lgp_fields::RecordForm;
use lgp_monitor::{Monitor, Progress};
use lgp_script::Laboratory;
use lgp_stream::LineBytes;
use lgp_text::{Piece, push_pieces, status_text};
use std::alloc::{AllocError, Allocator};
use std::marker::Model;
use std::mem;

mod work;

/// In how many files a file may be named, each in the one before.
const DEPTH: usize = 15;

/// Whether something is to be kept in a file.
fn is_keep(work: Work) -> bool
    ensures { result ≡ is_keep work }
{
    matches!(work, Work::Keep(_))
}

/// The monitor at a desk. Clauses see its state, how replies are written, the files whose lines are typed, the file that it wishes for,
/// whether a reply was a refusal, and whether the desk was left.
#[derive(Drop)]
pub struct Desk<A: Allocator + Copy, P: Progress> {
    alloc: A,
    monitor: Monitor<Laboratory<A>, A, P>,
    manner: Manner,
    inner: Option<OpenFile<A>>,
    outer: Vec<OpenFile<A>, A>,
    wanted: Option<Work>,
    note: Vec<u8, A>,
    name: Vec<u8, A>,
    has_refused: bool,
    has_left: bool,
}

impl<A: Allocator + Copy, P: Progress> Model for Desk<A, P> {
    ghost use Rattle.std.specs.Prelude.{option_map};
    ghost use Rattle.lgp_desk.specs.Desk.{Seat};

    ghost Value = { Seat };

    ghost view = { λ desk. record {
      recorded = desk.monitor;
      manner = desk.manner;
      inner = desk.inner;
      outer = desk.outer.items;
      wanted = option_map (λ work. record {
        work = work;
        note = desk.note.items;
        name = desk.name.items;
      }) desk.wanted;
      has_refused = desk.has_refused;
      has_left = desk.has_left;
    } };
}

impl<A: Allocator + Copy, P: Progress> Desk<A, P> {
    /// A desk at which nothing was typed yet.
    pub fn new(alloc: A, manner: Manner, progress: P) -> Result<Desk<A, P>, AllocError>
        ensures { IfOk result (λ desk. desk ≡ taken_seat manner) }
    {
        let monitor = Monitor::telling(alloc, progress)?;
        Ok(Desk {
            alloc,
            monitor,
            manner,
            inner: None,
            outer: Vec::new(alloc),
            wanted: None,
            note: Vec::new(alloc),
            name: Vec::new(alloc),
            has_refused: false,
            has_left: false,
        })
    }

    /// What is to be done next.
    #[tactic(auto, unfolding(crate::specs::Desk::wish_at))]
    pub fn wish(&self) -> Wish
        ensures { result ≡ wish_at self.now }
    {
        match self.wanted {
            Some(Work::Keep(made)) => Wish::Keep(made),
            Some(_) => Wish::Read,
            None if self.inner.is_some() => Wish::Onward,
            None if self.has_left => Wish::Nothing,
            None => Wish::Line,
        }
    }

    /// The name of the file that it wishes for, to be read or to keep something in.
    pub fn file_name(&self) -> Option<&[u8]>
        ensures { option_map (λ name. name.now) result
            ≡ option_map (λ wanted. wanted.name) self.now.wanted }
    {
        match self.wanted {
            Some(_) => Some(&self.name),
            None => None,
        }
    }

    /// What is to be kept in a file.
    pub fn text_made(&self, made: Made) -> Result<Vec<u8, A>, AllocError>
        ensures { IfOk result (λ text. text.items
            ≡ text_made made self.now.recorded.state.debugger.state) }
    {
        text_made(self.alloc, made, self.monitor.laboratory())
    }

    /// Whether a reply was a refusal.
    pub fn has_refused(&self) -> bool
        ensures { result ≡ self.now.has_refused }
    {
        self.has_refused
    }

    /// Whether the next line is a command.
    fn takes_commands(&self) -> bool
        ensures { result ≡ is_none self.now.recorded.state.opened }
    {
        !self.monitor.laboratory().has_open_source()
    }

    /// Appends the prompt that shows the state of the monitor.
    #[tactic(auto, unfolding(crate::specs::Desk::prompt_at))]
    fn push_stand(&self, text: &mut Vec<u8, A>) -> Result<(), AllocError>
        ensures { OnOk result (text.new.items
            ≡ text.old.items ++ prompt_at self.now.recorded) }
    {
        let laboratory = self.monitor.laboratory();
        if laboratory.has_open_source() {
            return text.extend_from_slice(b"source> ");
        }
        let look = laboratory.debugger().look();
        push_pieces(
            text,
            &[
                Piece::Place(look.counter),
                Piece::Text(b" "),
                Piece::Text(status_text(look.status)),
                Piece::Text(b"> "),
            ],
        )
    }

    /// The prompt in front of the next line, where one is due.
    pub fn prompt(&self) -> Result<Vec<u8, A>, AllocError>
        ensures { IfOk result (λ text. text.items
            ≡ prompt_in self.now.manner (prompt_at self.now.recorded)) }
    {
        let mut text = Vec::new(self.alloc);
        match self.manner {
            Manner::Bare | Manner::Echoing | Manner::Json => {}
            Manner::Prompting => self.push_stand(&mut text)?,
        }
        Ok(text)
    }

    /// Whether a line can be typed.
    fn takes_lines(&self) -> bool
        ensures { result ≡ takes_lines self.now }
    {
        self.wanted.is_none() && self.inner.is_none() && !self.has_left
    }

    /// Notes whether what is written is a refusal.
    fn mark(&mut self, refused: bool)
        ensures { self.new ≡ marked self.old refused }
    {
        self.has_refused = self.has_refused || refused;
    }

    /// Where the line comes from that is answered.
    fn note(&self) -> Result<Vec<u8, A>, AllocError>
        ensures { IfOk result (λ note. note.items ≡ note_at self.now) }
    {
        match &self.inner {
            Some(file) => file.note(self.alloc),
            None => Ok(Vec::new(self.alloc)),
        }
    }
}

impl<A: Allocator + Copy, P: Progress> Desk<A, P> {
    /// The text for a line that the monitor answers.
    fn answer(&mut self, note: &[u8], line: &LineBytes) -> Result<Vec<u8, A>, AllocError>
        ensures text { (text : List ℕ) → line.now ≡ kept_of text → IfOk result (λ made.
            made.items ≡ (answered note.now self.old text).text) }
        ensures after { (text : List ℕ) → line.now ≡ kept_of text
            → OnOk result (self.new ≡ (answered note.now self.old text).seat) }
    {
        let mut reply = Vec::with_capacity(self.alloc, REPLY_ROOM)?;
        let answer = self
            .monitor
            .answer_in(form_in(self.manner), line, &mut reply)?;
        self.mark(answer.is_refused);
        let (front, longer) = (line.front(), line.is_longer());
        written(self.alloc, self.manner, front, longer, note, answer, reply)
    }

    /// The text for a reply of the desk itself, which is a refusal or not.
    fn say_own(
        &mut self,
        note: &[u8],
        refused: bool,
        reply: &[u8],
    ) -> Result<Vec<u8, A>, AllocError>
        ensures text { IfOk result (λ made.
            made.items ≡ (own note.now self.old refused reply.now).text) }
        ensures after { OnOk result (self.new ≡ (own note.now self.old refused reply.now).seat) }
    {
        let mut text = Vec::new(self.alloc);
        push_own(&mut text, self.manner, note, refused, reply)?;
        self.mark(refused);
        Ok(text)
    }

    /// The text that refuses a file.
    fn refuse(
        &mut self,
        note: &[u8],
        name: &[u8],
        trouble: FileTrouble,
    ) -> Result<Vec<u8, A>, AllocError>
        ensures text { IfOk result (λ made.
            made.items ≡ (refused note.now self.old name.now trouble).text) }
        ensures after { OnOk result (self.new ≡ (refused note.now self.old name.now trouble).seat) }
    {
        let mut reply = Vec::new(self.alloc);
        push_trouble(&mut reply, name, trouble)?;
        self.say_own(note, true, &reply)
    }

    /// Leaves the desk by a line: the text for it.
    fn leave(&mut self, line: &LineBytes) -> Result<Vec<u8, A>, AllocError>
        ensures text { (text : List ℕ) → line.now ≡ kept_of text → IfOk result (λ made.
            made.items ≡ (left_by self.old text).text) }
        ensures after { (text : List ℕ) → line.now ≡ kept_of text
            → OnOk result (self.new ≡ (left_by self.old text).seat) }
    {
        self.inner = None;
        self.outer.clear();
        self.has_left = true;
        let mut text = Vec::new(self.alloc);
        push_shown(
            &mut text,
            self.manner,
            false,
            line.front(),
            line.is_longer(),
        )?;
        Ok(text)
    }

    /// Wishes for a file.
    fn want(&mut self, work: Work, note: Vec<u8, A>, name: &[u8]) -> Result<Vec<u8, A>, AllocError>
        ensures text { IfOk result (λ made.
            made.items ≡ (wanting work note.items self.old name.now).text) }
        ensures after { OnOk result (self.new ≡ (wanting work note.items self.old name.now).seat) }
    {
        self.wanted = Some(work);
        self.note = note;
        self.name.clear();
        self.name.extend_from_slice(name)?;
        Ok(Vec::new(self.alloc))
    }

    /// The text for a line that names a file.
    fn ask(&mut self, work: Work, note: Vec<u8, A>, name: &[u8]) -> Result<Vec<u8, A>, AllocError>
        ensures text { IfOk result (λ made.
            made.items ≡ (asked work note.items self.old name.now).text) }
        ensures after { OnOk result (self.new ≡ (asked work note.items self.old name.now).seat) }
    {
        let is_deep = self.inner.is_some() && self.outer.len() >= DEPTH;
        match work {
            Work::Lines if is_deep => self.refuse(&note, name, FileTrouble::TooDeep),
            _ => self.want(work, note, name),
        }
    }

    /// The text for a line where no source is open.
    fn command(&mut self, note: Vec<u8, A>, line: &LineBytes) -> Result<Vec<u8, A>, AllocError>
        ensures text { (text : List ℕ) → line.now ≡ kept_of text → IfOk result (λ made.
            made.items ≡ (command_said note.items self.old text).text) }
        ensures after { (text : List ℕ) → line.now ≡ kept_of text
            → OnOk result (self.new ≡ (command_said note.items self.old text).seat) }
    {
        if is_quit(line) {
            return self.leave(line);
        }
        if line.is_longer() {
            return self.answer(&note, line);
        }
        match request_in(line.front()) {
            Some(request) => self.ask(request.work, note, request.name),
            None => self.answer(&note, line),
        }
    }

    /// The text for a line that is typed, or one of a file.
    fn hear(&mut self, line: &LineBytes) -> Result<Vec<u8, A>, AllocError>
        ensures text { (text : List ℕ) → line.now ≡ kept_of text → IfOk result (λ made.
            made.items ≡ (line_said self.old text).text) }
        ensures after { (text : List ℕ) → line.now ≡ kept_of text
            → OnOk result (self.new ≡ (line_said self.old text).seat) }
    {
        let note = self.note()?;
        if self.takes_commands() {
            self.command(note, line)
        } else {
            self.answer(&note, line)
        }
    }
}

impl<A: Allocator + Copy, P: Progress> Desk<A, P> {
    /// Asks the monitor alone, whatever the desk wishes for: the bytes of the reply to a line are put after `reply`. Returns whether the
    /// line is refused. A refused growth leaves open in which state the desk is.
    pub fn ask_monitor(
        &mut self,
        line: &LineBytes,
        reply: &mut Vec<u8, A>,
    ) -> Result<bool, AllocError>
        ensures reply { (text : List ℕ) → line.now ≡ kept_of text
            → OnOk result (reply.new.items
            ≡ reply.old.items ++ monitor_language.reply self.old.recorded text) }
        ensures after { (text : List ℕ) → line.now ≡ kept_of text
            → OnOk result (self.new ≡ record self.old {
              recorded = monitor_language.after self.old.recorded text;
            }) }
        ensures refused { (text : List ℕ) → line.now ≡ kept_of text
            → IfOk result (λ refused. refused
            ≡ (answered_in self.old.recorded RecordForm.Lines text).is_refused) }
    {
        let answer = self.monitor.answer_in(RecordForm::Lines, line, reply)?;
        Ok(answer.is_refused)
    }

    /// Asks the monitor alone for the reply to the end of its lines. Returns whether a source that was open is refused. Nothing more is to be
    /// told the desk then.
    pub fn close_monitor(&mut self, reply: &mut Vec<u8, A>) -> Result<bool, AllocError>
        ensures reply { OnOk result (reply.new.items
            ≡ reply.old.items ++ monitor_language.closing self.old.recorded) }
        ensures refused { IfOk result (λ refused. refused
            ≡ is_faulty self.old.recorded.state.opened) }
    {
        self.monitor.end(reply)
    }

    /// Forgets that a reply was a refusal.
    pub fn forget_refusals(&mut self)
        ensures { self.new ≡ record self.old { has_refused = false } }
    {
        self.has_refused = false;
    }

    /// Sets how replies are written from now on.
    pub fn set_manner(&mut self, manner: Manner)
        ensures { self.new ≡ record self.old { manner = manner } }
    {
        self.manner = manner;
    }

    /// Is told a line that is typed: the text that is to be written.
    #[tactic(auto, unfolding(crate::specs::Desk::said_to))]
    pub fn typed(&mut self, line: &LineBytes) -> Result<Vec<u8, A>, AllocError>
        ensures text { (text : List ℕ) → line.now ≡ kept_of text → IfOk result (λ made.
            made.items ≡ (said_to self.old (Typed text)).text) }
        ensures after { (text : List ℕ) → line.now ≡ kept_of text
            → OnOk result (self.new ≡ (said_to self.old (Typed text)).seat) }
    {
        if !self.takes_lines() {
            return Ok(Vec::new(self.alloc));
        }
        self.hear(line)
    }

    /// The text for the end.
    fn end_text(&mut self) -> Result<Vec<u8, A>, AllocError>
        ensures text { IfOk result (λ text. text.items
            ≡ written_last self.old.manner (is_faulty self.old.recorded.state.opened)
            (monitor_language.closing self.old.recorded)) }
        ensures refused { OnOk result (self.new.has_refused
            ≡ (self.old.has_refused || is_faulty self.old.recorded.state.opened)) }
    {
        let mut reply = Vec::new(self.alloc);
        let refused = self.monitor.end(&mut reply)?;
        self.mark(refused);
        let mut text = Vec::new(self.alloc);
        push_last(&mut text, self.manner, refused, &reply)?;
        Ok(text)
    }

    /// Is told that no line is typed any more: the text that is to be written. Nothing more is to be told it then.
    #[tactic(auto, unfolding(crate::specs::Desk::closing_text))]
    pub fn close(&mut self) -> Result<Vec<u8, A>, AllocError>
        ensures text { IfOk result (λ made. made.items ≡ closing_text self.old) }
        ensures refused { OnOk result (self.new.has_refused
            ≡ (self.old.has_refused || closing_refuses self.old)) }
    {
        if self.takes_lines() {
            return self.end_text();
        }
        Ok(Vec::new(self.alloc))
    }

    /// Is told the name of a file whose lines come before those that are typed.
    #[tactic(auto, unfolding(crate::specs::Desk::said_to))]
    pub fn first(&mut self, name: &[u8]) -> Result<Vec<u8, A>, AllocError>
        ensures text { IfOk result (λ made. made.items ≡ (said_to self.old (First name.now)).text) }
        ensures after { OnOk result (self.new ≡ (said_to self.old (First name.now)).seat) }
    {
        if !self.takes_lines() {
            return Ok(Vec::new(self.alloc));
        }
        let mut note = Vec::new(self.alloc);
        note.extend_from_slice(b"named on the command line")?;
        self.want(Work::Lines, note, name)
    }

    /// The next line of the file whose lines are typed.
    fn next_line(&mut self) -> Option<LineBytes>
        ensures { HasNextOf self.old self.new result }
    {
        let Some(file) = &mut self.inner else {
            return None;
        };
        file.next_line()
    }

    /// Goes back to the file in which the one was named whose lines are typed.
    fn end_file(&mut self)
        ensures { self.new ≡ without_file self.old }
    {
        self.inner = self.outer.pop();
    }

    /// Is told to go on with the lines of a file: the text that is to be written for one of them.
    #[tactic(auto, unfolding(crate::specs::Desk::said_to))]
    pub fn onward(&mut self) -> Result<Vec<u8, A>, AllocError>
        ensures text { IfOk result (λ made. made.items ≡ (said_to self.old Onward).text) }
        ensures after { OnOk result (self.new ≡ (said_to self.old Onward).seat) }
    {
        if self.wanted.is_some() || self.inner.is_none() {
            return Ok(Vec::new(self.alloc));
        }
        let Some(line) = self.next_line() else {
            self.end_file();
            return Ok(Vec::new(self.alloc));
        };
        self.hear(&line)
    }

    /// Wishes for no file any more: where the line came from that named it, and its name.
    fn granted(&mut self) -> (Vec<u8, A>, Vec<u8, A>)
        ensures after { self.new ≡ record self.old { wanted = None } }
        ensures note { IfSome self.old.wanted (λ wanted. result.0.items ≡ wanted.note) }
        ensures name { IfSome self.old.wanted (λ wanted. result.1.items ≡ wanted.name) }
    {
        self.wanted = None;
        (
            mem::replace(&mut self.note, Vec::new(self.alloc)),
            mem::replace(&mut self.name, Vec::new(self.alloc)),
        )
    }

    /// Is told what the file holds that it wished for, or why it is refused: the text that is to be written.
    #[tactic(auto, unfolding(crate::specs::Desk::said_to))]
    pub fn found(&mut self, read: Result<Vec<u8, A>, FileTrouble>) -> Result<Vec<u8, A>, AllocError>
        ensures text { IfOk result (λ made. made.items ≡ (said_to self.old (Found
            (result_map_both (λ text. text.items) (λ trouble. trouble) read))).text) }
        ensures after { OnOk result (self.new ≡ (said_to self.old (Found
            (result_map_both (λ text. text.items) (λ trouble. trouble) read))).seat) }
    {
        let Some(work) = self.wanted else {
            return Ok(Vec::new(self.alloc));
        };
        if is_keep(work) {
            return Ok(Vec::new(self.alloc));
        }
        let (note, name) = self.granted();
        self.use_file(work, &note, &name, read)
    }

    /// Is told whether what it wished to keep is kept: the text that is to be written.
    #[tactic(auto, unfolding(crate::specs::Desk::said_to))]
    pub fn kept(&mut self, kept: bool) -> Result<Vec<u8, A>, AllocError>
        ensures text { IfOk result (λ made. made.items ≡ (said_to self.old (Kept kept)).text) }
        ensures after { OnOk result (self.new ≡ (said_to self.old (Kept kept)).seat) }
    {
        let Some(work) = self.wanted else {
            return Ok(Vec::new(self.alloc));
        };
        if !is_keep(work) {
            return Ok(Vec::new(self.alloc));
        }
        let (note, name) = self.granted();
        self.say_kept(&note, &name, kept)
    }
}
