//! The way to the beginning of an order.

ghost use Rattle.std.specs.Prelude.{◌≡◌, ◌-◌, ◌≤◌, ◌<◌, List, ℕ, IfOk, OnOk, Err, Some};
ghost use Rattle.std.specs.Str.Lines.{lines};
ghost use Rattle.lgp_stream.specs.KeptLine.{kept_of};
ghost use Rattle.lgp_stream.specs.Transcript.{after_lines};
ghost use Rattle.lgp_script.specs.LabState.{opening_state};
ghost use Rattle.lgp_script.specs.Script.{script_language};
ghost use Rattle.lgp_moment.specs.Moment.{all_orders, command_in, lines_to, moment_of};
ghost use Rattle.lgp_moment.specs.MomentInside.{IsTaken, first_line_of, run_command};

use crate::fault::MomentFault;
use lgp_command::{asked_in, push_command};
use lgp_script::{Command, Count, Laboratory, RunPart, is_comment};
use lgp_stream::{LineBytes, Recorder, first_line};
use std::alloc::{AllocError, Allocator};

/// For how many bytes there is room where a kept line begins.
const LINE_ROOM: usize = 32;

/// The command that a line of a script asks for, if it is no line of a source.
#[tactic(auto, unfolding(crate::specs::Moment::command_in))]
pub(crate) fn command_in<A: Allocator + Copy>(
    laboratory: &Laboratory<A>,
    line: &LineBytes,
) -> Option<Command>
    ensures { result ≡ command_in laboratory.now line.now }
{
    if laboratory.has_open_source()
        || line.is_longer()
        || line.has_no_word()
        || is_comment(line.front())
    {
        return None;
    }
    asked_in(line.front()).command
}

/// Keeps the line that asks for some orders, if there are any.
fn keep_orders<A: Allocator + Copy>(
    alloc: A,
    session: &mut Recorder<Laboratory<A>, A>,
    orders: Count,
) -> Result<(), AllocError>
    ensures { OnOk result (session.new ≡ first_line_of session.old orders) }
{
    if orders.get() == 0 {
        return Ok(());
    }
    let mut line = Vec::with_capacity(alloc, LINE_ROOM)?;
    push_command(&mut line, &Command::Orders(orders), b"")?;
    session.keep_line(&line)
}

/// Performs the orders that a line asks for, at most `left` of them, and keeps the line, or one that asks for as many.
fn take_run<A: Allocator + Copy>(
    alloc: A,
    session: &mut Recorder<Laboratory<A>, A>,
    line: &LineBytes,
    by_rules: bool,
    limit: Count,
    left: Count,
) -> Result<RunPart, AllocError>
    requires { command_in session.old.state line.now ≡ Some (run_command by_rules limit) }
    ensures { (text : List ℕ) → line.now ≡ kept_of text
        → IfOk result (λ part. IsTaken session.old line.now left session.new part) }
{
    let part = session
        .answers_mut()
        .run_part(by_rules, limit.get(), left.get())?;
    if part.goes_on {
        keep_orders(alloc, session, left)?;
    } else {
        session.keep_line(line.front())?;
    }
    Ok(part)
}

/// Takes a line of a session again, but at most `left` of its orders.
fn take_line<A: Allocator + Copy>(
    alloc: A,
    session: &mut Recorder<Laboratory<A>, A>,
    line: &LineBytes,
    left: Count,
) -> Result<RunPart, AllocError>
    ensures { (text : List ℕ) → line.now ≡ kept_of text
        → IfOk result (λ part. IsTaken session.old line.now left session.new part) }
{
    let asked = command_in(session.answers(), line);
    match &asked {
        Some(Command::Run(limit)) => take_run(alloc, session, line, true, *limit, left),
        Some(Command::Orders(limit)) => take_run(alloc, session, line, false, *limit, left),
        _ => {
            let mut reply = Vec::new(alloc);
            session.answer_kept(line, &mut reply)?;
            Ok(RunPart {
                orders: 0,
                goes_on: false,
            })
        }
    }
}

/// Takes lines of a session again, but at most a given number of their orders. Returns how many are lacking.
fn take_lines<A: Allocator + Copy>(
    alloc: A,
    session: &mut Recorder<Laboratory<A>, A>,
    transcript: &[u8],
    order: Count,
) -> Result<u64, AllocError>
    ensures after { OnOk result (session.new ≡ after_lines script_language session.old
        (lines_to session.old.state (lines transcript.now) order)) }
    ensures lacking { IfOk result (λ lacking.
        lacking ≡ order - all_orders session.old.state (lines transcript.now)) }
{
    let mut rest = transcript;
    let mut left = order;
    while !rest.is_empty() {
        let first = first_line(rest);
        let part = take_line(alloc, session, &first.line, left)?;
        if part.goes_on {
            return Ok(0);
        }
        left = left.lowered(left.get() - part.orders);
        rest = first.rest;
    }
    Ok(left.get())
}

/// A session brought anew to where another one was when the order of a number began, by the transcript of that one. Orders are counted
/// from 0; the number of all orders leads to where the other session is now.
pub fn moment_of<A: Allocator + Copy>(
    alloc: A,
    transcript: &[u8],
    order: Count,
) -> Result<Recorder<Laboratory<A>, A>, MomentFault>
    ensures there { IfOk result (λ session. session ≡ moment_of transcript.now order) }
    ensures within { OnOk result
        (order ≤ all_orders opening_state (lines transcript.now)) }
    ensures not_yet { (orders : ℕ) → result ≡ Err (MomentFault.NotYet orders)
        → (orders ≡ all_orders opening_state (lines transcript.now)) × (orders < order) }
{
    let Ok(laboratory) = Laboratory::new(alloc) else {
        return Err(MomentFault::Memory);
    };
    let mut session = Recorder::new(alloc, laboratory);
    match take_lines(alloc, &mut session, transcript, order) {
        Ok(0) => Ok(session),
        Ok(lacking) => Err(MomentFault::NotYet(order.get() - lacking)),
        Err(AllocError) => Err(MomentFault::Memory),
    }
}
