//! The laboratory: a machine with its history and the source at hand, and what is answered to a line.

ghost use Rattle.std.specs.Prelude.{◌≡◌, ◌≤◌, List, [], ℕ, IfOk, OnOk, false, is_some};
ghost use Rattle.std.specs.Option.{option_copied, option_map_or};
ghost use Rattle.lgp_word.specs.Drum.{blank_words};
ghost use Rattle.lgp_table.specs.State.{opening};
ghost use Rattle.lgp_stream.specs.Language.{IsAnswered};
ghost use Rattle.lgp_stream.specs.KeptLine.{kept_of};
ghost use Rattle.lgp_script.specs.Reply.{IsReplied};
ghost use Rattle.lgp_script.specs.Script.{answer_to, answer_to_command, is_passed_over, replied_to, script_language};
ghost use Rattle.lgp_script.specs.LabState.{assembled_source, labels_of, opening_state, source_at_hand};
ghost use Rattle.lgp_script.specs.Limits.{kept_limit};

use crate::limits::KEPT_LIMIT;
use crate::program::{Faulty, Program};
use crate::refusal::{Refusal, push_refusal};
use crate::reply::Reply;
use crate::source_text::SourceText;
use lgp_assembler::Name;
use lgp_command::{Asked, Command, asked_in, is_comment};
use lgp_debugger::Debugger;
use lgp_history::{Records, Rule};
use lgp_machine::Machine;
use lgp_stream::{Answers, LineBytes};
use std::alloc::{AllocError, Allocator};
use std::marker::Model;

mod drum_commands;
mod history_commands;
mod load_command;
mod machine_commands;
mod replies;
mod source_commands;
mod tape_commands;

pub use machine_commands::push_panel;
pub use source_commands::{push_fault_line, push_faults};
pub use tape_commands::push_printed;

/// A new machine with a history that keeps at most a given number of steps.
pub fn new_debugger<A: Allocator + Copy>(
    alloc: A,
    capacity: usize,
) -> Result<Debugger<Records<A>, A>, AllocError>
    requires some { 1 ≤ capacity }
    requires few { capacity ≤ kept_limit }
    ensures { IfOk result (λ debugger. debugger ≡ record {
      state = opening blank_words;
      steps = [];
      capacity = capacity;
      rules = [];
    }) }
{
    let machine = Machine::new(alloc)?;
    let history = Records::new(alloc, capacity)?;
    Ok(Debugger::new(machine, history))
}

/// A machine with its history and its rules, on which a script's commands are performed, with the last source that assembled, the
/// one after it that has faults, and the one that is open. It is seen as its state.
pub struct Laboratory<A: Allocator + Clone> {
    alloc: A,
    debugger: Debugger<Records<A>, A>,
    program: Option<Program<A>>,
    faulty: Option<Faulty<A>>,
    opened: Option<SourceText<A>>,
}

// Written out: a derived drop is copied to each place where one is dropped.
impl<A: Allocator + Clone> Drop for Laboratory<A> {
    fn drop(self) {
        let Laboratory {
            alloc: _,
            debugger: _,
            program: _,
            faulty: _,
            opened: _,
        } = self;
    }
}

impl<A: Allocator + Clone> Model for Laboratory<A> {
    ghost use Rattle.lgp_script.specs.LabState.{LabState};

    ghost Value = { LabState };

    ghost view = { λ laboratory. record {
      debugger = laboratory.debugger;
      source = laboratory.program;
      faulty = laboratory.faulty;
      opened = laboratory.opened;
    } };
}

impl<A: Allocator + Copy> Laboratory<A> {
    /// A laboratory with a new machine.
    #[tactic(auto, unfolding(crate::specs::LabState::opening_state))]
    pub fn new(alloc: A) -> Result<Laboratory<A>, AllocError>
        ensures { IfOk result (λ laboratory. laboratory ≡ opening_state) }
    {
        Ok(Laboratory {
            alloc,
            debugger: new_debugger(alloc, KEPT_LIMIT)?,
            program: None,
            faulty: None,
            opened: None,
        })
    }

    /// Whether a source is open, so that lines are the source's.
    pub fn has_open_source(&self) -> bool
        ensures { result ≡ is_some self.now.opened }
    {
        self.opened.is_some()
    }

    /// Whether a source is open that is too long.
    pub fn has_too_long_source(&self) -> bool
        ensures { result ≡ option_map_or (λ source. source.too_long) self.now.opened false }
    {
        match &self.opened {
            Some(source) => source.is_too_long(),
            None => false,
        }
    }

    /// The source that was closed last, if it was not too long: the one with faults, or else the last one that assembled; empty where none was closed yet.
    #[tactic(auto, unfolding(crate::specs::LabState::source_at_hand))]
    pub fn source_at_hand(&self) -> &[u8]
        ensures { result.now ≡ source_at_hand self.now }
    {
        match (&self.faulty, &self.program) {
            (Some(faulty), _) => faulty.source(),
            (None, Some(program)) => program.source(),
            (None, None) => &[],
        }
    }

    /// The last source that assembled; empty where none has assembled yet.
    #[tactic(auto, unfolding(crate::specs::LabState::assembled_source))]
    pub fn assembled_source(&self) -> &[u8]
        ensures { result.now ≡ assembled_source self.now.source }
    {
        match &self.program {
            Some(program) => program.source(),
            None => &[],
        }
    }

    /// The source that was closed last, with its faults, if it has some and was not too long.
    pub fn faulty(&self) -> Option<&Faulty<A>>
        ensures { option_copied result ≡ self.now.faulty }
    {
        self.faulty.as_ref()
    }

    /// The machine with its kept steps and its rules.
    pub fn debugger(&self) -> &Debugger<Records<A>, A>
        ensures { result.now ≡ self.now.debugger }
    {
        &self.debugger
    }

    /// The names of the last source that assembled, with their values, 0 to 4096; none where none has assembled yet.
    pub fn labels(&self) -> &[(Name, u16)]
        ensures { result.now ≡ labels_of self.now.source }
    {
        labels_in(&self.program)
    }

    /// Does what a command asks for; the text is that of `mount` and `type`, and has to fit on a line with its command. A
    /// refused growth leaves open what was done.
    pub fn perform(&mut self, command: &Command, text: &[u8]) -> Result<Reply, AllocError>
        ensures { IfOk result (λ reply. IsReplied reply self.new
            (replied_to self.old command.now text.now)) }
    {
        match command {
            Command::Put(address, word) => self.put(*address, *word),
            Command::Mount => self.mount(text),
            Command::Press(button) => self.press(button.action()),
            Command::Type => self.type_text(text),
            Command::Turn(times) => self.turn(times.get()),
            Command::Orders(limit) => self.orders(limit.get()),
            Command::Panel => Ok(Reply::Panel),
            Command::Words(span) => Ok(Reply::Words(*span)),
            Command::Show(span) => Ok(Reply::Show(*span)),
            Command::Printed => Ok(Reply::Printed),
            Command::Dump => Ok(Reply::Dump),
            Command::Source => {
                self.open_source();
                Ok(Reply::Opened)
            }
            Command::List => Ok(self.list()),
            Command::Load => self.load(),
            Command::Break(address) => Ok(self.add_rule(Rule::At(*address))),
            Command::Watch(address) => Ok(self.add_rule(Rule::Changed(*address))),
            Command::Drop(number) => Ok(self.drop_rule(number.get())),
            Command::Run(limit) => self.run(limit.get()),
            Command::Back(orders) => self.back(orders.get()),
            Command::Last => self.last(),
        }
    }

    /// Does what a command asks for, and appends its reply.
    fn answer_asked(
        &mut self,
        command: &Command,
        text: &[u8],
        reply: &mut Vec<u8, A>,
    ) -> Result<(), AllocError>
        ensures { OnOk result (IsAnswered reply.old.items reply.new.items self.new
            (answer_to self.old command.now text.now)) }
    {
        let said = self.perform(command, text)?;
        self.push_reply(reply, &said)
    }
}

/// The names of a program with their values.
#[tactic(auto, unfolding(crate::specs::LabState::labels_of))]
fn labels_in<A: Allocator + Copy>(program: &Option<Program<A>>) -> &[(Name, u16)]
    ensures { result.now ≡ labels_of program.now }
{
    match program {
        Some(program) => program.image().symbols(),
        None => &[],
    }
}

/// Whether a line has no reply: there is no word on it, or it begins with a semicolon.
fn is_passed_over(line: &LineBytes) -> bool
    ensures { (text : List ℕ) → line.now ≡ kept_of text → result ≡ is_passed_over text }
{
    line.has_no_word() || is_comment(line.front())
}

impl<A: Allocator + Copy> Laboratory<A> {
    /// Answers a line outside a source.
    fn answer_command(&mut self, line: &LineBytes, reply: &mut Vec<u8, A>) -> Result<(), AllocError>
        ensures { (text : List ℕ) → line.now ≡ kept_of text
            → OnOk result (IsAnswered reply.old.items reply.new.items self.new
            (answer_to_command self.old text)) }
    {
        if is_passed_over(line) {
            return Ok(());
        }
        if line.is_longer() {
            return push_refusal(reply, Refusal::TooLong);
        }
        let Asked { command, text } = asked_in(line.front());
        match command {
            Some(command) => self.answer_asked(&command, text, reply),
            None => push_refusal(reply, Refusal::Form),
        }
    }
}

impl<A: Allocator + Copy> Answers<A> for Laboratory<A> {
    ghost language = { script_language };

    fn answer(&mut self, line: &LineBytes, reply: &mut Vec<u8, A>) -> Result<(), AllocError> {
        match self.opened.take() {
            Some(source) => self.take_line(source, line, reply),
            None => self.answer_command(line, reply),
        }
    }

    fn close(&mut self, reply: &mut Vec<u8, A>) -> Result<(), AllocError> {
        match self.opened.take() {
            Some(source) => self.close_source(source, reply),
            None => Ok(()),
        }
    }
}
