//! The monitor as an operator whose typewriter starts the machine again when it has struck.

ghost use Rattle.std.specs.Prelude.{◌≡◌, ◌++◌, ◌≤◌, [], IfOk, OnOk, None};
ghost use Rattle.lgp_stream.specs.Language.{IsAnswered};
ghost use Rattle.lgp_monitor.specs.Monitor.{answer_to_operating};
ghost use Rattle.lgp_monitor.specs.Operating.{has_stopped, is_print, is_stop, op_before, operated, starts_text, waits_for_typewriter};
ghost use Rattle.lgp_monitor.specs.OperatingInside.{HasRun, HasRunAgain};
ghost use Rattle.lgp_monitor.specs.PerformingInside.{IsPerformed};
ghost use Rattle.lgp_monitor.specs.Reasons.{is_refusal};

use crate::performing::{perform, pressing};
use crate::progress::Silence;
use crate::reason::{is_refusal, push_explained};
use lgp_command::{Command, Count};
use lgp_script::{Laboratory, Reply};
use lgp_stream::Recorder;
use lgp_table::{Action, Cause, Status};
use lgp_text::{Piece, push_pieces};
use lgp_word::{Address, Op, parts};
use std::alloc::{AllocError, Allocator};

/// The order at a given number of places before the counter.
#[tactic(auto, unfolding(crate::specs::Operating::op_before))]
fn op_before<A: Allocator + Copy>(laboratory: &Laboratory<A>, places: u16) -> Op
    requires { places ≤ 2 }
    ensures { result ≡ op_before laboratory.now places }
{
    let debugger = laboratory.debugger();
    let number = debugger.look().counter.number() + (4096 - places);
    let address = Address::new(number % 4096).unwrap();
    let (_, op, _) = parts(debugger.machine().word(address));
    op
}

/// Whether a stop order has halted the machine.
fn has_stopped(status: Status) -> bool
    ensures { result ≡ has_stopped status }
{
    matches!(status, Status::Halted(Cause::Stop))
}

fn is_stop(op: Op) -> bool
    ensures { result ≡ is_stop op }
{
    matches!(op, Op::Z)
}

fn is_print(op: Op) -> bool
    ensures { result ≡ is_print op }
{
    matches!(op, Op::P)
}

/// Whether the machine waits as it does for a typewriter that starts it again.
#[tactic(auto, unfolding(crate::specs::Operating::waits_for_typewriter))]
fn waits_for_typewriter<A: Allocator + Copy>(laboratory: &Laboratory<A>) -> bool
    ensures { result ≡ waits_for_typewriter laboratory.now }
{
    has_stopped(laboratory.debugger().look().status)
        && (is_stop(op_before(laboratory, 1)) && is_print(op_before(laboratory, 2)))
}

/// Presses Start.
fn start<A: Allocator + Copy>(
    alloc: A,
    recorder: &mut Recorder<Laboratory<A>, A>,
) -> Result<Reply, AllocError>
    requires { recorder.old.state.opened ≡ None }
    ensures { IfOk result (λ reply. IsPerformed recorder.old recorder.new
        (Command.Press Action.Start) [] reply) }
{
    perform(alloc, recorder, &pressing(Action::Start), b"", &Silence)
}

/// Asks for a run.
fn run<A: Allocator + Copy>(
    alloc: A,
    recorder: &mut Recorder<Laboratory<A>, A>,
    limit: Count,
) -> Result<Reply, AllocError>
    requires { recorder.old.state.opened ≡ None }
    ensures { IfOk result (λ reply. HasRun limit recorder.old recorder.new reply) }
{
    perform(alloc, recorder, &Command::Run(limit), b"", &Silence)
}

/// Presses Start and asks for the run again.
fn start_again<A: Allocator + Copy>(
    alloc: A,
    recorder: &mut Recorder<Laboratory<A>, A>,
    limit: Count,
) -> Result<Reply, AllocError>
    requires { recorder.old.state.opened ≡ None }
    ensures { IfOk result (λ reply. HasRunAgain limit recorder.old recorder.new reply) }
{
    start(alloc, recorder)?;
    run(alloc, recorder, limit)
}

/// Appends how often Start was pressed.
#[tactic(auto, unfolding(crate::specs::Operating::starts_text))]
fn push_starts<A: Allocator>(text: &mut Vec<u8, A>, starts: u64) -> Result<(), AllocError>
    ensures { OnOk result (text.new.items ≡ text.old.items ++ starts_text starts) }
{
    if starts == 0 {
        return Ok(());
    }
    push_pieces(
        text,
        &[
            Piece::Text(b"        started again at a z after a p: "),
            Piece::Number(starts),
            Piece::Text(b"\n"),
        ],
    )
}

/// Asks for a run, presses Start where the machine has halted at a z after a p, at most a given number of times, and asks for the
/// run again. Returns whether the last run is refused.
pub fn operate<A: Allocator + Copy>(
    alloc: A,
    recorder: &mut Recorder<Laboratory<A>, A>,
    limit: Count,
    reply: &mut Vec<u8, A>,
) -> Result<bool, AllocError>
    requires { recorder.old.state.opened ≡ None }
    ensures answer { OnOk result (IsAnswered reply.old.items reply.new.items recorder.new
        (answer_to_operating recorder.old limit)) }
    ensures refused { IfOk result (λ refused. refused
        ≡ is_refusal (operated limit recorder.old.state).last.reply) }
{
    let mut said = run(alloc, recorder, limit)?;
    let most = limit.get();
    let mut starts = 0;
    while starts < most && waits_for_typewriter(recorder.answers()) {
        let again = start_again(alloc, recorder, limit)?;
        said = again;
        starts += 1;
    }
    push_explained(reply, recorder.answers(), &said)?;
    push_starts(reply, starts)?;
    Ok(is_refusal(&said))
}
