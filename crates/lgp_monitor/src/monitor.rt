//! The monitor: typed lines, each answered by the script lines that it stands for.

ghost use Rattle.std.specs.Prelude.{◌≡◌, ◌++◌, ◌||◌, ◌∷◌, [], List, ℕ, IfOk, None, OnOk, codes, if◌then◌else◌, is_some, not, true};
ghost use Rattle.lgp_command.specs.Command.{is_comment};
ghost use Rattle.lgp_debugger.specs.Debugging.{order_origins};
ghost use Rattle.lgp_stream.specs.Language.{IsAnswered};
ghost use Rattle.lgp_stream.specs.LineWords.{after_word, first_word};
ghost use Rattle.lgp_stream.specs.KeptLine.{kept_of};
ghost use Rattle.lgp_stream.specs.Transcript.{stand_in, untouched};
ghost use Rattle.lgp_script.specs.HistoryCommands.{orders_run, replied_to_run};
ghost use Rattle.lgp_script.specs.LabState.{labels_of, opening_state};
ghost use Rattle.lgp_script.specs.Script.{script_language};
ghost use Rattle.lgp_monitor.specs.Closing.{closes_faulty, is_faulty, is_source_end};
ghost use Rattle.lgp_monitor.specs.FileTexts.{answer_to_dump, answer_to_tape, refuses_dump, refuses_tape};
ghost use Rattle.lgp_monitor.specs.Entry.{entry_of, in_form};
ghost use Rattle.lgp_monitor.specs.Forms.{form_line};
ghost use Rattle.lgp_monitor.specs.Monitor.{answer_in, answer_in_source, answer_now, answer_of, answered_in, answered_now, answered_of, answered_there, entry_in, monitor_language, order_asked, refused_of, reply_now, reply_there, told_run};
ghost use Rattle.lgp_monitor.specs.PerformingInside.{IsPerformed};
ghost use Rattle.lgp_monitor.specs.Reasons.{is_refusal, refused_text};
ghost use Rattle.lgp_monitor.specs.Telling.{reported_text};

use crate::answered::Answered;
use crate::closing::{is_source_end, push_closing, was_faulty};
use crate::entry::{Entry, entry_of, has_objects, in_form};
use crate::file_texts::{mount_tape, restore};
use crate::form::{push_form_line, push_help};
use crate::going::go;
use crate::moment::{line_there, moment_asked, push_not_yet};
use crate::operating::operate;
use crate::performing::{explain, keep_command};
use crate::progress::{Progress, Silence};
use crate::question::push_answer;
use crate::reason::{is_refusal, push_refused, push_run_end};
use crate::telling::{Telling, run_told};
use crate::until::run_until;
use crate::verb::Verb;
use crate::way::go_to;
use crate::wrong::{Part, Wrong, push_misformed};
use lgp_command::{Command, Count, is_comment, text_after_word};
use lgp_fields::RecordForm;
use lgp_moment::{MomentFault, moment_of};
use lgp_script::{Laboratory, Refusal, Reply};
use lgp_stream::{Answers, LineBytes, Recorder, split_word};
use std::alloc::{AllocError, Allocator};
use std::marker::Model;

/// What answers typed lines: a laboratory that keeps the script lines which they stood for, and reports how far long runs are. Clauses
/// see its state, and that script.
pub struct Monitor<L, A: Allocator, P: Progress = Silence> {
    alloc: A,
    recorder: Recorder<L, A>,
    progress: P,
}

// Written out: a derived drop is copied to each place where one is dropped.
impl<L: Drop, A: Allocator, P: Progress> Drop for Monitor<L, A, P> {
    fn drop(self) {
        let Monitor {
            alloc: _,
            recorder: _,
            progress: _,
        } = self;
    }
}

impl<L, A: Allocator, P: Progress> Model for Monitor<L, A, P> {
    ghost use Rattle.lgp_stream.specs.Transcript.{Recorded};

    ghost Value = { Recorded L };

    ghost view = { λ monitor. monitor.recorder };
}

/// Performs a run whose orders are reported, and keeps the line of the run.
fn tell<A: Allocator + Copy>(
    alloc: A,
    recorder: &mut Recorder<Laboratory<A>, A>,
    telling: Telling,
    limit: Count,
    text: &mut Vec<u8, A>,
) -> Result<Reply, AllocError>
    requires { recorder.old.state.opened ≡ None }
    ensures performed { IfOk result (λ reply. IsPerformed recorder.old recorder.new
        (Command.Run limit) [] reply) }
    ensures text { OnOk result (text.new.items ≡ text.old.items
        ++ reported_text telling (labels_of recorder.old.state.source)
        recorder.old.state.debugger.state (order_origins recorder.old.state.debugger)
        (orders_run limit recorder.old.state.debugger)) }
{
    keep_command(alloc, recorder, &Command::Run(limit), b"")?;
    run_told(recorder.answers_mut(), telling, limit.get(), text)
}

/// Performs a run that is reported, with what is said after it. Returns whether it is refused.
#[tactic(auto, unfolding(crate::specs::Operating::run_line))]
fn explain_run<A: Allocator + Copy>(
    alloc: A,
    recorder: &mut Recorder<Laboratory<A>, A>,
    telling: Telling,
    limit: Count,
    reply: &mut Vec<u8, A>,
) -> Result<bool, AllocError>
    requires { recorder.old.state.opened ≡ None }
    ensures answer { OnOk result (IsAnswered reply.old.items reply.new.items recorder.new
        (told_run recorder.old telling limit)) }
    ensures refused { IfOk result (λ refused. refused
        ≡ is_refusal (replied_to_run recorder.old.state limit).reply) }
{
    let form = telling.form();
    let said = tell(alloc, recorder, telling, limit, reply)?;
    push_run_end(reply, form, recorder.answers(), &said)?;
    Ok(is_refusal(&said))
}

/// Hands a line that asks for nothing to the laboratory. Returns whether it is refused.
fn pass_over<A: Allocator + Copy>(
    alloc: A,
    recorder: &mut Recorder<Laboratory<A>, A>,
    line: &LineBytes,
    reply: &mut Vec<u8, A>,
) -> Result<bool, AllocError>
    ensures answer { (text : List ℕ) → line.now ≡ kept_of text
        → OnOk result (IsAnswered reply.old.items reply.new.items recorder.new
        (answer_of recorder.old Entry.Itself line.now)) }
    ensures refused { IfOk result (λ refused. refused
        ≡ refused_of recorder.old Entry.Itself line.now) }
{
    let mut said = Vec::new(alloc);
    recorder.answer_kept(line, &mut said)?;
    push_passed(reply, line)
}

/// Appends the reply to a line that asks for nothing. Returns whether it is refused.
fn push_passed<A: Allocator>(text: &mut Vec<u8, A>, line: &LineBytes) -> Result<bool, AllocError>
    ensures text { OnOk result (text.new.items ≡ text.old.items ++ (if line.now.blank
        || is_comment line.now.front then [] else refused_text Refusal.TooLong)) }
    ensures refused { IfOk result (λ refused. refused
        ≡ not (line.now.blank || is_comment line.now.front)) }
{
    if line.has_no_word() || is_comment(line.front()) {
        return Ok(false);
    }
    push_refused(text, &Refusal::TooLong)?;
    Ok(true)
}

/// Answers the line that closes the open source. Returns whether the source is refused.
fn close_source<A: Allocator + Copy>(
    alloc: A,
    recorder: &mut Recorder<Laboratory<A>, A>,
    line: &LineBytes,
    reply: &mut Vec<u8, A>,
) -> Result<bool, AllocError>
    requires open { is_some recorder.old.state.opened ≡ true }
    requires end { is_source_end line.now ≡ true }
    ensures answer { (text : List ℕ) → line.now ≡ kept_of text
        → OnOk result (IsAnswered reply.old.items reply.new.items recorder.new
        (answer_in_source recorder.old line.now)) }
    ensures refused { (text : List ℕ) → line.now ≡ kept_of text
        → IfOk result (λ refused. refused ≡ closes_faulty recorder.old.state.opened line.now) }
{
    let was_too_long = recorder.answers().has_too_long_source();
    let mut said = Vec::new(alloc);
    recorder.answer_kept(line, &mut said)?;
    push_closing(reply, recorder.answers(), was_too_long, &said)?;
    Ok(was_faulty(recorder.answers(), was_too_long))
}

/// Answers a line of an open source. Returns whether the source is refused.
fn answer_in_source<A: Allocator + Copy>(
    alloc: A,
    recorder: &mut Recorder<Laboratory<A>, A>,
    line: &LineBytes,
    reply: &mut Vec<u8, A>,
) -> Result<bool, AllocError>
    requires { is_some recorder.old.state.opened ≡ true }
    ensures answer { (text : List ℕ) → line.now ≡ kept_of text
        → OnOk result (IsAnswered reply.old.items reply.new.items recorder.new
        (answer_in_source recorder.old line.now)) }
    ensures refused { (text : List ℕ) → line.now ≡ kept_of text
        → IfOk result (λ refused. refused ≡ closes_faulty recorder.old.state.opened line.now) }
{
    if is_source_end(line) {
        return close_source(alloc, recorder, line, reply);
    }
    recorder.answer_kept(line, reply)?;
    Ok(false)
}

/// Appends the form of the command that comes after another.
fn push_form_after<A: Allocator>(
    text: &mut Vec<u8, A>,
    line: &[u8],
    verb: Verb,
) -> Result<(), AllocError>
    ensures { OnOk result (text.new.items
        ≡ text.old.items ++ form_line (first_word (after_word line.now)) verb) }
{
    let command = split_word(line);
    push_form_line(text, split_word(command.rest).word, verb)
}

/// Hands a line that is in no command's form to the laboratory, whose refusal is replaced by one with a reason. It is refused.
fn misform<A: Allocator + Copy>(
    alloc: A,
    recorder: &mut Recorder<Laboratory<A>, A>,
    line: &LineBytes,
    part: Part,
    wrong: &Wrong,
    reply: &mut Vec<u8, A>,
) -> Result<bool, AllocError>
    ensures answer { (text : List ℕ) → line.now ≡ kept_of text
        → OnOk result (IsAnswered reply.old.items reply.new.items recorder.new
        (answer_of recorder.old (Entry.Misformed part wrong.now) line.now)) }
    ensures refused { IfOk result (λ refused. refused ≡ true) }
{
    push_misformed(reply, line.front(), part, wrong)?;
    let mut refusal = Vec::new(alloc);
    recorder.answer_kept(line, &mut refusal)?;
    Ok(true)
}

/// Begins anew.
fn begin_anew<A: Allocator + Copy>(
    alloc: A,
    recorder: &mut Recorder<Laboratory<A>, A>,
    reply: &mut Vec<u8, A>,
) -> Result<(), AllocError>
    ensures { OnOk result (IsAnswered reply.old.items reply.new.items recorder.new
        (record { reply = codes "new\n"; after = untouched opening_state })) }
{
    let laboratory = Laboratory::new(alloc)?;
    recorder.begin_anew(laboratory);
    reply.extend_from_slice(b"new\n")
}

/// What a line asks for in the state of a laboratory, with replies for programs in a form.
fn entry_at<A: Allocator + Copy>(
    form: RecordForm,
    laboratory: &Laboratory<A>,
    line: &LineBytes,
) -> Entry
    ensures { result ≡ in_form form (entry_of (labels_of laboratory.now.source)
        laboratory.now.debugger.state.core.panel.counter line.now) }
{
    let counter = laboratory.debugger().look().counter;
    in_form(form, entry_of(laboratory.labels(), counter, line))
}

/// Does what a line asks for of which this was kept. Returns whether it is refused.
fn perform<A: Allocator + Copy, P: Progress>(
    alloc: A,
    recorder: &mut Recorder<Laboratory<A>, A>,
    entry: Entry,
    line: &LineBytes,
    progress: &P,
    reply: &mut Vec<u8, A>,
) -> Result<bool, AllocError>
    requires { recorder.old.state.opened ≡ None }
    ensures answer { (text : List ℕ) → line.now ≡ kept_of text
        → OnOk result (IsAnswered reply.old.items reply.new.items recorder.new
        (answer_of recorder.old entry line.now)) }
    ensures refused { IfOk result (λ refused. refused
        ≡ refused_of recorder.old entry line.now) }
{
    match entry {
        Entry::Itself => pass_over(alloc, recorder, line, reply),
        Entry::Misformed(part, wrong) => misform(alloc, recorder, line, part, &wrong, reply),
        Entry::Script(command) => {
            let text = text_after_word(line.front());
            explain(alloc, recorder, &command, text, progress, reply)
        }
        Entry::Reported(telling, limit) => explain_run(alloc, recorder, telling, limit, reply),
        Entry::Operate(limit) => operate(alloc, recorder, limit, reply),
        Entry::Until(until, limit) => run_until(alloc, recorder, until, limit, reply),
        Entry::To(way, form) => go_to(alloc, recorder, way, form, reply),
        Entry::Go(address) => {
            go(alloc, recorder, address, reply)?;
            Ok(false)
        }
        Entry::Asked(question) => {
            push_answer(alloc, reply, &question, recorder.answers())?;
            Ok(false)
        }
        Entry::Transcript => {
            reply.extend_from_slice(recorder.transcript())?;
            Ok(false)
        }
        Entry::New => {
            begin_anew(alloc, recorder, reply)?;
            Ok(false)
        }
        Entry::Help => {
            push_help(reply)?;
            Ok(false)
        }
        Entry::HelpOf(verb) => {
            push_form_after(reply, line.front(), verb)?;
            Ok(false)
        }
    }
}

/// Answers a line of which this was kept where no source is open.
fn answer_outside<A: Allocator + Copy, P: Progress>(
    alloc: A,
    form: RecordForm,
    recorder: &mut Recorder<Laboratory<A>, A>,
    line: &LineBytes,
    progress: &P,
    reply: &mut Vec<u8, A>,
) -> Result<Answered, AllocError>
    requires { recorder.old.state.opened ≡ None }
    ensures answer { (text : List ℕ) → line.now ≡ kept_of text
        → OnOk result (IsAnswered reply.old.items reply.new.items recorder.new
        (answer_of recorder.old (entry_in recorder.old form text) line.now)) }
    ensures answered { (text : List ℕ) → line.now ≡ kept_of text
        → IfOk result (λ answered. answered
        ≡ answered_of recorder.old (entry_in recorder.old form text) line.now) }
{
    let entry = entry_at(form, recorder.answers(), line);
    let objects = has_objects(&entry);
    let is_refused = perform(alloc, recorder, entry, line, progress, reply)?;
    Ok(Answered::of(is_refused, objects))
}

/// Answers a line of which this was kept, and a program in a form.
#[tactic(auto, unfolding(crate::specs::Monitor::meaning_now, crate::specs::Monitor::reply_now, crate::specs::Monitor::answered_now), using(crate::proofs::FormLemmas::same_meaning))]
fn answer_now<A: Allocator + Copy, P: Progress>(
    alloc: A,
    form: RecordForm,
    recorder: &mut Recorder<Laboratory<A>, A>,
    line: &LineBytes,
    progress: &P,
    reply: &mut Vec<u8, A>,
) -> Result<Answered, AllocError>
    ensures answer { (text : List ℕ) → line.now ≡ kept_of text
        → OnOk result (IsAnswered reply.old.items reply.new.items recorder.new
        (answer_now recorder.old form text)) }
    ensures answered { (text : List ℕ) → line.now ≡ kept_of text
        → IfOk result (λ answered. answered ≡ answered_now recorder.old form text) }
{
    if recorder.answers().has_open_source() {
        let is_refused = answer_in_source(alloc, recorder, line, reply)?;
        return Ok(Answered {
            is_refused,
            has_objects: false,
        });
    }
    answer_outside(alloc, form, recorder, line, progress, reply)
}

/// The order whose moment a line asks for.
fn order_asked<A: Allocator + Copy>(
    recorder: &Recorder<Laboratory<A>, A>,
    line: &LineBytes,
) -> Option<Count>
    ensures { result ≡ order_asked recorder.now line.now }
{
    if recorder.answers().has_open_source() {
        return None;
    }
    moment_asked(line)
}

/// Answers a line in a session that is forgotten afterwards.
fn answer_apart<A: Allocator + Copy>(
    alloc: A,
    form: RecordForm,
    session: Recorder<Laboratory<A>, A>,
    line: &[u8],
    reply: &mut Vec<u8, A>,
) -> Result<Answered, AllocError>
    ensures reply { OnOk result (reply.new.items
        ≡ reply.old.items ++ reply_now session form line.now) }
    ensures answered { IfOk result (λ answered. answered ≡ answered_now session form line.now) }
{
    let mut session = session;
    answer_now(
        alloc,
        form,
        &mut session,
        &LineBytes::of(line),
        &Silence,
        reply,
    )
}

/// Answers a line as at the beginning of the order of a number.
fn answer_there<A: Allocator + Copy>(
    alloc: A,
    form: RecordForm,
    recorder: &Recorder<Laboratory<A>, A>,
    order: Count,
    line: &LineBytes,
    reply: &mut Vec<u8, A>,
) -> Result<Answered, AllocError>
    ensures reply { OnOk result (reply.new.items
        ≡ reply.old.items ++ reply_there recorder.now form line.now order) }
    ensures answered { IfOk result (λ answered. answered
        ≡ answered_there recorder.now form line.now order) }
{
    match moment_of(alloc, recorder.transcript(), order) {
        Ok(session) => answer_apart(alloc, form, session, line_there(line.front()), reply),
        Err(MomentFault::NotYet(orders)) => {
            push_not_yet(reply, orders)?;
            Ok(Answered::of(true, false))
        }
        Err(MomentFault::Memory) => Err(AllocError),
    }
}

/// Answers a line of which this was kept, now or as at a moment, and a program in a form.
#[tactic(auto, unfolding(crate::specs::Monitor::meaning_at, crate::specs::Monitor::reply_in, crate::specs::Monitor::answered_in))]
fn answer_line<A: Allocator + Copy, P: Progress>(
    alloc: A,
    form: RecordForm,
    recorder: &mut Recorder<Laboratory<A>, A>,
    line: &LineBytes,
    progress: &P,
    reply: &mut Vec<u8, A>,
) -> Result<Answered, AllocError>
    ensures answer { (text : List ℕ) → line.now ≡ kept_of text
        → OnOk result (IsAnswered reply.old.items reply.new.items recorder.new
        (answer_in recorder.old form text)) }
    ensures answered { (text : List ℕ) → line.now ≡ kept_of text
        → IfOk result (λ answered. answered ≡ answered_in recorder.old form text) }
{
    match order_asked(recorder, line) {
        Some(order) => answer_there(alloc, form, recorder, order, line, reply),
        None => answer_now(alloc, form, recorder, line, progress, reply),
    }
}

/// Answers the end of lines: a source that is open is closed as by a point. Returns whether it is refused.
fn close_lines<A: Allocator + Copy>(
    recorder: &mut Recorder<Laboratory<A>, A>,
    reply: &mut Vec<u8, A>,
) -> Result<bool, AllocError>
    ensures reply { OnOk result (reply.new.items
        ≡ reply.old.items ++ script_language.closing recorder.old.state) }
    ensures refused { IfOk result (λ refused. refused
        ≡ is_faulty recorder.old.state.opened) }
{
    if recorder.answers().has_open_source() {
        let was_too_long = recorder.answers().has_too_long_source();
        recorder.answer_line(b".", reply)?;
        return Ok(was_faulty(recorder.answers(), was_too_long));
    }
    Ok(false)
}

impl<A: Allocator + Copy> Monitor<Laboratory<A>, A> {
    /// A monitor with a new laboratory.
    pub fn new(alloc: A) -> Result<Monitor<Laboratory<A>, A>, AllocError>
        ensures { IfOk result (λ monitor. monitor ≡ untouched opening_state) }
    {
        Monitor::telling(alloc, Silence)
    }
}

impl<A: Allocator + Copy, P: Progress> Monitor<Laboratory<A>, A, P> {
    /// A monitor with a new laboratory, which tells how far long runs are.
    pub fn telling(alloc: A, progress: P) -> Result<Monitor<Laboratory<A>, A, P>, AllocError>
        ensures { IfOk result (λ monitor. monitor ≡ untouched opening_state) }
    {
        let laboratory = Laboratory::new(alloc)?;
        Ok(Monitor {
            alloc,
            recorder: Recorder::new(alloc, laboratory),
            progress,
        })
    }

    /// Puts the words of a dump on the drum, by lines of a script where the words differ. The machine has to be at rest. A refused
    /// growth leaves open what was done. Returns whether it is refused.
    pub fn restore<B: Allocator>(
        &mut self,
        dump: &[u8],
        reply: &mut Vec<u8, B>,
    ) -> Result<bool, AllocError>
        ensures answer { OnOk result (IsAnswered reply.old.items reply.new.items self.new
            (answer_to_dump self.old dump.now)) }
        ensures refused { IfOk result (λ refused. refused ≡ refuses_dump self.old dump.now) }
    {
        restore(self.alloc, &mut self.recorder, dump, reply)
    }

    /// Mounts a tape by its text, of any length; its name is in the transcript. A refused growth leaves open what was done. Returns whether
    /// it is refused.
    pub fn mount_tape<B: Allocator>(
        &mut self,
        name: &[u8],
        text: &[u8],
        reply: &mut Vec<u8, B>,
    ) -> Result<bool, AllocError>
        ensures answer { OnOk result (IsAnswered reply.old.items reply.new.items self.new
            (answer_to_tape self.old name.now text.now)) }
        ensures refused { IfOk result (λ refused. refused ≡ refuses_tape self.old text.now) }
    {
        mount_tape(self.alloc, &mut self.recorder, name, text, reply)
    }

    /// Answers a line as `answer` does, and a program in a form. Returns what the answer is beside its text.
    pub fn answer_in(
        &mut self,
        form: RecordForm,
        line: &LineBytes,
        reply: &mut Vec<u8, A>,
    ) -> Result<Answered, AllocError>
        ensures answer { (text : List ℕ) → line.now ≡ kept_of text
            → OnOk result (IsAnswered reply.old.items reply.new.items self.new
            (answer_in self.old form text)) }
        ensures answered { (text : List ℕ) → line.now ≡ kept_of text
            → IfOk result (λ answered. answered ≡ answered_in self.old form text) }
    {
        answer_line(
            self.alloc,
            form,
            &mut self.recorder,
            line,
            &self.progress,
            reply,
        )
    }

    /// Answers the end of its lines as `close` does. Returns whether a source that was open is refused. Nothing more is to be asked then.
    pub fn end(&mut self, reply: &mut Vec<u8, A>) -> Result<bool, AllocError>
        ensures reply { OnOk result (reply.new.items
            ≡ reply.old.items ++ monitor_language.closing self.old) }
        ensures refused { IfOk result (λ refused. refused ≡ is_faulty self.old.state.opened) }
    {
        close_lines(&mut self.recorder, reply)
    }

    /// The laboratory in which its lines are answered.
    pub fn laboratory(&self) -> &Laboratory<A>
        ensures { result.now ≡ self.now.state }
    {
        self.recorder.answers()
    }
}

impl<A: Allocator + Copy, P: Progress> Answers<A> for Monitor<Laboratory<A>, A, P> {
    ghost language = { monitor_language };

    fn answer(&mut self, line: &LineBytes, reply: &mut Vec<u8, A>) -> Result<(), AllocError> {
        self.answer_in(RecordForm::Lines, line, reply)?;
        Ok(())
    }

    fn close(&mut self, reply: &mut Vec<u8, A>) -> Result<(), AllocError> {
        self.end(reply)?;
        Ok(())
    }
}
