//! Commands of scripts that are performed, with the lines that say them kept.

ghost use Rattle.std.specs.Prelude.{◌≡◌, ◌∷◌, [], IfOk, IsTrue, OnOk, None, false};
ghost use Rattle.lgp_command.specs.Operands.{is_button};
ghost use Rattle.lgp_command.specs.CommandText.{command_text};
ghost use Rattle.lgp_command.specs.Sayable.{IsSayable};
ghost use Rattle.lgp_stream.specs.Language.{IsAnswered};
ghost use Rattle.lgp_stream.specs.Transcript.{lines_answered, with_line};
ghost use Rattle.lgp_script.specs.Reply.{IsReplied};
ghost use Rattle.lgp_script.specs.Script.{opens_source, replied_to, script_language};
ghost use Rattle.lgp_monitor.specs.Monitor.{explained_command};
ghost use Rattle.lgp_monitor.specs.PerformingInside.{IsPerformed};
ghost use Rattle.lgp_monitor.specs.Reasons.{is_refusal};

use crate::portions::run_shown;
use crate::progress::{Progress, Silence};
use crate::reason::{is_refusal, push_explained};
use lgp_command::{Button, Command, push_command};
use lgp_script::{Laboratory, Reply};
use lgp_stream::Recorder;
use lgp_table::Action;
use std::alloc::{AllocError, Allocator};

/// For how many bytes there is room where a kept line begins; most are shorter.
const LINE_ROOM: usize = 32;

/// The command that presses a button or sets a switch.
pub fn pressing(action: Action) -> Command
    requires { IsTrue (is_button action) }
    ensures { result ≡ Command.Press action }
{
    Command::Press(Button::new(action).unwrap())
}

/// Keeps the line that says a command.
pub fn keep_command<A: Allocator + Copy>(
    alloc: A,
    recorder: &mut Recorder<Laboratory<A>, A>,
    command: &Command,
    text: &[u8],
) -> Result<(), AllocError>
    ensures kept { OnOk result (recorder.new
        ≡ with_line recorder.old (command_text command.now text.now)) }
    ensures sayable { OnOk result (IsSayable command.now) }
{
    let mut line = Vec::with_capacity(alloc, LINE_ROOM)?;
    push_command(&mut line, command, text)?;
    recorder.keep_line(&line)
}

/// Does what a command asks for, and tells of a run how far it is.
fn done<A: Allocator + Copy, P: Progress>(
    alloc: A,
    laboratory: &mut Laboratory<A>,
    command: &Command,
    text: &[u8],
    progress: &P,
) -> Result<Reply, AllocError>
    ensures { IfOk result (λ reply. IsReplied reply laboratory.new
        (replied_to laboratory.old command.now text.now)) }
{
    match command {
        Command::Run(limit) => run_shown(alloc, laboratory, limit.get(), progress),
        _ => laboratory.perform(command, text),
    }
}

/// Performs a command, and keeps the line that says it.
pub fn perform<A: Allocator + Copy, P: Progress>(
    alloc: A,
    recorder: &mut Recorder<Laboratory<A>, A>,
    command: &Command,
    text: &[u8],
    progress: &P,
) -> Result<Reply, AllocError>
    requires { recorder.old.state.opened ≡ None }
    ensures { IfOk result (λ reply. IsPerformed recorder.old recorder.new command.now text.now
        reply) }
{
    keep_command(alloc, recorder, command, text)?;
    done(alloc, recorder.answers_mut(), command, text, progress)
}

/// Performs a command, and appends its reply as a script has it.
pub fn say<A: Allocator + Copy>(
    alloc: A,
    recorder: &mut Recorder<Laboratory<A>, A>,
    command: &Command,
    text: &[u8],
    reply: &mut Vec<u8, A>,
) -> Result<(), AllocError>
    requires outside { recorder.old.state.opened ≡ None }
    requires closed { opens_source command.now ≡ false }
    ensures answered { OnOk result (IsAnswered reply.old.items reply.new.items recorder.new
        (lines_answered script_language recorder.old (command_text command.now text.now ∷ []))) }
    ensures outside { OnOk result (recorder.new.state.opened ≡ None) }
{
    let said = perform(alloc, recorder, command, text, &Silence)?;
    recorder.answers().push_reply(reply, &said)
}

/// Performs a command, and appends its reply, a refusal with its reason. Returns whether it is refused.
pub fn explain<A: Allocator + Copy, P: Progress>(
    alloc: A,
    recorder: &mut Recorder<Laboratory<A>, A>,
    command: &Command,
    text: &[u8],
    progress: &P,
    reply: &mut Vec<u8, A>,
) -> Result<bool, AllocError>
    requires { recorder.old.state.opened ≡ None }
    ensures answer { OnOk result (IsAnswered reply.old.items reply.new.items recorder.new
        (explained_command recorder.old command.now text.now)) }
    ensures refused { IfOk result (λ refused. refused
        ≡ is_refusal (replied_to recorder.old.state command.now text.now).reply) }
{
    let said = perform(alloc, recorder, command, text, progress)?;
    push_explained(reply, recorder.answers(), &said)?;
    Ok(is_refusal(&said))
}
