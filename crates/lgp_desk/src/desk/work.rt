//! What the desk does with the text of a file: each work's reply, and where the monitor stands after it.

ghost use Rattle.std.specs.Prelude.{◌≡◌, ◌++◌, ◌∷◌, [], IfOk, List, OnOk, Result, ℕ, codes, false};
ghost use Rattle.std.specs.Result.{result_map_both};
ghost use Rattle.std.specs.Str.Lines.{lines};
ghost use Rattle.lgp_flexo.specs.TapeText.{written_tape};
ghost use Rattle.lgp_desk.specs.Desk.{all_answered, answered, kept_or_refused, long_tape, marked, mounted, plainly, restore_word, restored, restored_or_refused, source_said, tape_or_refused, used, used_or_refused, with_file, within, written};
ghost use Rattle.lgp_desk.specs.declared.files.FileTrouble.{FileTrouble};

use super::Desk;
use crate::file_forms::{checked_drum, checked_tape, has_point};
use crate::files::FileTrouble;
use crate::open_file::OpenFile;
use crate::request::{DrumForm, Work};
use crate::trouble::{note_within, push_kept};
use crate::writing::push_written;
use lgp_monitor::{Answered, Progress};
use lgp_stream::{LineBytes, first_line};
use std::alloc::{AllocError, Allocator};
use std::mem;

/// How many bytes of a tape's text a line has room for, after `mount` and its space.
const MOUNT_LIMIT: usize = 4090;

/// The word of the line by which words of a form are put back.
fn restore_word(form: DrumForm) -> &'static [u8]
    ensures { result.now ≡ restore_word form }
{
    match form {
        DrumForm::Dump => b"restore ",
        DrumForm::Simh => b"restore-simh ",
    }
}

impl<A: Allocator + Copy, P: Progress> Desk<A, P> {
    /// A command and what comes after it.
    fn line_of(&self, command: &[u8], operand: &[u8]) -> Result<Vec<u8, A>, AllocError>
        ensures { IfOk result (λ line. line.items ≡ command.now ++ operand.now) }
    {
        let mut line = Vec::new(self.alloc);
        line.extend_from_slice(command)?;
        line.extend_from_slice(operand)?;
        Ok(line)
    }

    /// The text for a line of the desk's own, which names a file, and its reply.
    fn say_named(
        &mut self,
        command: &[u8],
        name: &[u8],
        note: &[u8],
        refused: bool,
        reply: &[u8],
    ) -> Result<Vec<u8, A>, AllocError>
        ensures text { IfOk result (λ made. made.items
            ≡ written self.old.manner (command.now ++ name.now) false (within name.now note.now)
            (plainly refused) reply.now) }
        ensures after { OnOk result (self.new ≡ marked self.old refused) }
    {
        let line = self.line_of(command, name)?;
        let note = note_within(self.alloc, name, note)?;
        let answer = Answered {
            is_refused: refused,
            has_objects: false,
        };
        let mut text = Vec::new(self.alloc);
        push_written(&mut text, self.manner, &line, false, &note, answer, reply)?;
        self.mark(refused);
        Ok(text)
    }

    /// Puts the words of a dump on the drum: the text for it.
    #[tactic(auto, unfolding(crate::specs::Desk::restored))]
    fn restore(
        &mut self,
        form: DrumForm,
        note: &[u8],
        name: &[u8],
        dump: &[u8],
    ) -> Result<Vec<u8, A>, AllocError>
        ensures text { IfOk result (λ made.
            made.items ≡ (restored form note.now self.old name.now dump.now).text) }
        ensures after { OnOk result (self.new
            ≡ (restored form note.now self.old name.now dump.now).seat) }
    {
        let mut reply = Vec::new(self.alloc);
        let refused = self.monitor.restore(dump, &mut reply)?;
        self.say_named(restore_word(form), name, note, refused, &reply)
    }

    /// The text for a tape for whose text no line has room.
    #[tactic(auto, unfolding(crate::specs::Desk::long_tape))]
    fn mount_long(
        &mut self,
        note: &[u8],
        name: &[u8],
        tape: &[u8],
    ) -> Result<Vec<u8, A>, AllocError>
        ensures text { IfOk result (λ made.
            made.items ≡ (long_tape note.now self.old name.now tape.now).text) }
        ensures after { OnOk result (self.new
            ≡ (long_tape note.now self.old name.now tape.now).seat) }
    {
        let mut reply = Vec::new(self.alloc);
        let refused = self.monitor.mount_tape(name, tape, &mut reply)?;
        self.say_named(b"tape ", name, note, refused, &reply)
    }

    /// Mounts a tape: the text for it.
    #[tactic(auto, unfolding(crate::specs::Desk::mounted))]
    fn mount(&mut self, note: &[u8], name: &[u8], tape: &[u8]) -> Result<Vec<u8, A>, AllocError>
        ensures text { IfOk result (λ made.
            made.items ≡ (mounted note.now self.old name.now tape.now).text) }
        ensures after { OnOk result (self.new
            ≡ (mounted note.now self.old name.now tape.now).seat) }
    {
        if tape.len() > MOUNT_LIMIT {
            return self.mount_long(note, name, tape);
        }
        let note = note_within(self.alloc, name, note)?;
        let line = self.line_of(b"mount ", tape)?;
        self.answer(&note, &LineBytes::of(&line))
    }

    /// Has the monitor answer the lines of a source, with those that open and close it.
    fn answer_source(&mut self, note: &[u8], source: &[u8]) -> Result<Vec<u8, A>, AllocError>
        ensures text { IfOk result (λ made. made.items ≡ (all_answered note.now self.old
            (codes "source" ∷ (lines source.now ++ codes "." ∷ []))).text) }
        ensures after { OnOk result (self.new ≡ (all_answered note.now self.old
            (codes "source" ∷ (lines source.now ++ codes "." ∷ []))).seat) }
    {
        let mut text = self.answer(note, &LineBytes::of(b"source"))?;
        let mut rest = source;
        while !rest.is_empty() {
            let first = first_line(rest);
            let made = self.answer(note, &first.line)?;
            text.extend_from_slice(&made)?;
            rest = first.rest;
        }
        let made = self.answer(note, &LineBytes::of(b"."))?;
        text.extend_from_slice(&made)?;
        Ok(text)
    }

    /// Takes a source: the text for it.
    #[tactic(auto, unfolding(crate::specs::Desk::source_said))]
    fn take_source(
        &mut self,
        note: &[u8],
        name: &[u8],
        source: &[u8],
    ) -> Result<Vec<u8, A>, AllocError>
        ensures text { IfOk result (λ made.
            made.items ≡ (source_said note.now self.old name.now source.now).text) }
        ensures after { OnOk result (self.new
            ≡ (source_said note.now self.old name.now source.now).seat) }
    {
        if has_point(source) {
            return self.refuse(note, name, FileTrouble::HasPoint);
        }
        let note = note_within(self.alloc, name, note)?;
        self.answer_source(&note, source)
    }

    /// Mounts the tape that a file has, or refuses the file: the text for it.
    fn use_tape(
        &mut self,
        note: &[u8],
        name: &[u8],
        checked: Result<Vec<u8, A>, FileTrouble>,
    ) -> Result<Vec<u8, A>, AllocError>
        ensures text { (tape : Result (List ℕ) FileTrouble)
            → result_map_both (λ it. it.items) (λ it. it) checked
            ≡ result_map_both written_tape (λ it. it) tape
            → IfOk result (λ made.
            made.items ≡ (tape_or_refused note.now self.old name.now tape).text) }
        ensures after { (tape : Result (List ℕ) FileTrouble)
            → result_map_both (λ it. it.items) (λ it. it) checked
            ≡ result_map_both written_tape (λ it. it) tape
            → OnOk result (self.new ≡ (tape_or_refused note.now self.old name.now tape).seat) }
    {
        match checked {
            Ok(tape) => self.mount(note, name, &tape),
            Err(trouble) => self.refuse(note, name, trouble),
        }
    }

    /// Puts the words that a file has on the drum, or refuses the file: the text for it.
    fn use_drum(
        &mut self,
        form: DrumForm,
        note: &[u8],
        name: &[u8],
        checked: Result<Vec<u8, A>, FileTrouble>,
    ) -> Result<Vec<u8, A>, AllocError>
        ensures text { IfOk result (λ made. made.items
            ≡ (restored_or_refused form note.now self.old name.now
            (result_map_both (λ it. it.items) (λ it. it) checked)).text) }
        ensures after { OnOk result (self.new
            ≡ (restored_or_refused form note.now self.old name.now
            (result_map_both (λ it. it.items) (λ it. it) checked)).seat) }
    {
        match checked {
            Ok(dump) => self.restore(form, note, name, &dump),
            Err(trouble) => self.refuse(note, name, trouble),
        }
    }

    /// Has the lines of a file typed from now on.
    fn open(&mut self, name: &[u8], text: Vec<u8, A>) -> Result<Vec<u8, A>, AllocError>
        ensures text { IfOk result (λ made. made.items ≡ []) }
        ensures after { OnOk result (self.new ≡ with_file self.old name.now text.items) }
    {
        let mut own = Vec::new(self.alloc);
        own.extend_from_slice(name)?;
        let file = OpenFile::new(own, text);
        if let Some(outer) = mem::replace(&mut self.inner, Some(file)) {
            self.outer.push(outer)?;
        }
        Ok(Vec::new(self.alloc))
    }

    /// Uses the text of a file as its work says: the text for it.
    fn use_text(
        &mut self,
        work: Work,
        note: &[u8],
        name: &[u8],
        text: Vec<u8, A>,
    ) -> Result<Vec<u8, A>, AllocError>
        ensures text { IfOk result (λ made.
            made.items ≡ (used work note.now self.old name.now text.items).text) }
        ensures after { OnOk result (self.new
            ≡ (used work note.now self.old name.now text.items).seat) }
    {
        match work {
            Work::Lines => self.open(name, text),
            Work::Source => self.take_source(note, name, &text),
            Work::Tape(form) => {
                let checked = checked_tape(self.alloc, form, &text)?;
                self.use_tape(note, name, checked)
            }
            Work::Restore(form) => {
                let checked = checked_drum(self.alloc, form, &text)?;
                self.use_drum(form, note, name, checked)
            }
            Work::Keep(_) => Ok(Vec::new(self.alloc)),
        }
    }

    /// Uses a file as its work says, or refuses it: the text for it.
    pub(super) fn use_file(
        &mut self,
        work: Work,
        note: &[u8],
        name: &[u8],
        read: Result<Vec<u8, A>, FileTrouble>,
    ) -> Result<Vec<u8, A>, AllocError>
        ensures text { IfOk result (λ made.
            made.items ≡ (used_or_refused work note.now self.old name.now
            (result_map_both (λ text. text.items) (λ trouble. trouble) read)).text) }
        ensures after { OnOk result (self.new ≡ (used_or_refused work note.now self.old name.now
            (result_map_both (λ text. text.items) (λ trouble. trouble) read)).seat) }
    {
        match read {
            Ok(text) => self.use_text(work, note, name, text),
            Err(trouble) => self.refuse(note, name, trouble),
        }
    }

    /// Says that something was kept, or refuses the file: the text for it.
    pub(super) fn say_kept(
        &mut self,
        note: &[u8],
        name: &[u8],
        kept: bool,
    ) -> Result<Vec<u8, A>, AllocError>
        ensures text { IfOk result (λ made.
            made.items ≡ (kept_or_refused note.now self.old name.now kept).text) }
        ensures after { OnOk result (self.new
            ≡ (kept_or_refused note.now self.old name.now kept).seat) }
    {
        if !kept {
            return self.refuse(note, name, FileTrouble::NotWritten);
        }
        let mut reply = Vec::new(self.alloc);
        push_kept(&mut reply, name)?;
        self.say_own(note, false, &reply)
    }
}
