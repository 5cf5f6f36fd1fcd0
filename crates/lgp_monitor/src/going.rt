//! The machine started at an address.

ghost use Rattle.std.specs.Prelude.{◌≡◌, ◌∷◌, ◌++◌, [], IsTrue, None, OnOk, codes};
ghost use Rattle.lgp_word.specs.Digits.{digits_of};
ghost use Rattle.lgp_word.specs.Order.{plain_order};
ghost use Rattle.lgp_command.specs.CommandText.{command_text};
ghost use Rattle.lgp_command.specs.Operands.{is_button};
ghost use Rattle.lgp_stream.specs.Language.{IsAnswered};
ghost use Rattle.lgp_stream.specs.Transcript.{lines_answered};
ghost use Rattle.lgp_script.specs.Script.{script_language};
ghost use Rattle.lgp_monitor.specs.GoInside.{executing_lines, jump_lines};
ghost use Rattle.lgp_monitor.specs.Monitor.{go_lines};

use crate::performing::{pressing, say};
use lgp_command::{Command, Count};
use lgp_script::Laboratory;
use lgp_stream::Recorder;
use lgp_table::{Action, Mode};
use lgp_word::{Address, Op, plain_order, write_digits};
use std::alloc::{AllocError, Allocator};

/// Presses a button.
fn press<A: Allocator + Copy>(
    alloc: A,
    recorder: &mut Recorder<Laboratory<A>, A>,
    action: Action,
    reply: &mut Vec<u8, A>,
) -> Result<(), AllocError>
    requires outside { recorder.old.state.opened ≡ None }
    requires button { IsTrue (is_button action) }
    ensures answered { OnOk result (IsAnswered reply.old.items reply.new.items recorder.new
        (lines_answered script_language recorder.old
        (command_text (Command.Press action) [] ∷ []))) }
    ensures outside { OnOk result (recorder.new.state.opened ≡ None) }
{
    say(alloc, recorder, &pressing(action), b"", reply)
}

/// Types the jump to an address.
fn type_jump<A: Allocator + Copy>(
    alloc: A,
    recorder: &mut Recorder<Laboratory<A>, A>,
    address: Address,
    reply: &mut Vec<u8, A>,
) -> Result<(), AllocError>
    requires { recorder.old.state.opened ≡ None }
    ensures answered { OnOk result (IsAnswered reply.old.items reply.new.items recorder.new
        (lines_answered script_language recorder.old
        (command_text Command.Type (digits_of (plain_order Op.U address)) ∷ []))) }
    ensures outside { OnOk result (recorder.new.state.opened ≡ None) }
{
    let jump = write_digits(plain_order(Op::U, address));
    say(alloc, recorder, &Command::Type, &jump, reply)
}

/// Performs one order.
fn perform_one<A: Allocator + Copy>(
    alloc: A,
    recorder: &mut Recorder<Laboratory<A>, A>,
    reply: &mut Vec<u8, A>,
) -> Result<(), AllocError>
    requires { recorder.old.state.opened ≡ None }
    ensures answered { OnOk result (IsAnswered reply.old.items reply.new.items recorder.new
        (lines_answered script_language recorder.old (codes "orders 1" ∷ []))) }
    ensures outside { OnOk result (recorder.new.state.opened ≡ None) }
{
    say(alloc, recorder, &Command::Orders(Count::one()), b"", reply)
}

/// Keys in the jump to an address.
fn key_in_jump<A: Allocator + Copy>(
    alloc: A,
    recorder: &mut Recorder<Laboratory<A>, A>,
    address: Address,
    reply: &mut Vec<u8, A>,
) -> Result<(), AllocError>
    requires { recorder.old.state.opened ≡ None }
    ensures answered { OnOk result (IsAnswered reply.old.items reply.new.items recorder.new
        (lines_answered script_language recorder.old (jump_lines address))) }
    ensures outside { OnOk result (recorder.new.state.opened ≡ None) }
{
    press(alloc, recorder, Action::Mode(Mode::Manual), reply)?;
    type_jump(alloc, recorder, address, reply)?;
    press(alloc, recorder, Action::Fill, reply)
}

/// Executes the order in the instruction register, and starts the machine in Normal.
fn execute_jump<A: Allocator + Copy>(
    alloc: A,
    recorder: &mut Recorder<Laboratory<A>, A>,
    reply: &mut Vec<u8, A>,
) -> Result<(), AllocError>
    requires { recorder.old.state.opened ≡ None }
    ensures { OnOk result (IsAnswered reply.old.items reply.new.items recorder.new
        (lines_answered script_language recorder.old executing_lines)) }
{
    press(alloc, recorder, Action::Mode(Mode::OneOperation), reply)?;
    press(alloc, recorder, Action::Execute, reply)?;
    perform_one(alloc, recorder, reply)?;
    press(alloc, recorder, Action::Mode(Mode::Normal), reply)?;
    press(alloc, recorder, Action::Start, reply)
}

/// Starts the machine at an address by commands of scripts.
pub fn go<A: Allocator + Copy>(
    alloc: A,
    recorder: &mut Recorder<Laboratory<A>, A>,
    address: Address,
    reply: &mut Vec<u8, A>,
) -> Result<(), AllocError>
    requires { recorder.old.state.opened ≡ None }
    ensures { OnOk result (IsAnswered reply.old.items reply.new.items recorder.new
        (lines_answered script_language recorder.old (go_lines address))) }
{
    key_in_jump(alloc, recorder, address, reply)?;
    execute_jump(alloc, recorder, reply)
}
