//! The laboratory for programs that are not written in Rattle: the functions of `libraries/c/lgp30.h`.
#![tactic(auto)]

ghost use Rattle.lgp_call.specs.Reply.{IsScriptGiven, IsSourceAnswered};
ghost use Rattle.lgp_call.specs.Session.{after_line, closing_refused, closing_reply};
ghost use Rattle.lgp_call.specs.Slot.{HasManner, IsClosed, IsDone, IsOpened, IsRepeated, IsWishing};
ghost use Rattle.lgp_call.specs.Telling.{after_shown, after_told};
ghost use Rattle.lgp_desk.specs.Desk.{closing_refuses, closing_text};
ghost use Rattle.std.specs.Global.{Global};

use lgp_call::{Outcome, Session, refuse, run_into, source_into};
use slot::Slot;
use std::alloc::Global;

pub mod slot;

/// Runs a script over memory from `malloc`, as `run_into` does.
#[unsafe(no_mangle)]
pub extern "C" fn lgp_run_script(
    alloc: Global,
    script: &[u8],
    room: &mut [u8],
    outcome: &mut Outcome,
) -> u32
    ensures { IsScriptGiven script.now room.old room.new outcome.new result }
{
    run_into(alloc, script, room, outcome)
}

/// Gives what is wanted of a source, as `source_into` does.
#[unsafe(no_mangle)]
pub extern "C" fn lgp_source(
    alloc: Global,
    wanted: u32,
    limit: u64,
    source: &[u8],
    room: &mut [u8],
    outcome: &mut Outcome,
) -> u32
    ensures { IsSourceAnswered wanted limit source.now room.old room.new outcome.new result }
{
    source_into(alloc, wanted, limit, source, room, outcome)
}

/// Opens a session over memory from `malloc`.
///
/// The status is 0; 3 where there was not enough memory, and then none is open; 4 where one is open already, which stays as it was.
#[unsafe(no_mangle)]
pub extern "C" fn lgp_open(alloc: Global, session: &mut Slot) -> u32
    ensures { IsOpened session.old.held session.new.held result }
{
    match session.take(alloc) {
        Some(whole) => {
            session.put(whole);
            4
        }
        None => match Session::boxed(alloc, alloc) {
            Ok(whole) => {
                session.put(whole);
                0
            }
            Err(_) => 3,
        },
    }
}

/// Answers a line, as `Session::answer_into` does.
///
/// With status 3 the session is closed and its memory given back. Status 5 says that none is open: then nothing has changed but the
/// outcome, whose numbers are 0.
#[unsafe(no_mangle)]
pub extern "C" fn lgp_answer(
    alloc: Global,
    session: &mut Slot,
    line: &[u8],
    room: &mut [u8],
    outcome: &mut Outcome,
) -> u32
    ensures { IsDone (λ state. after_line state line.now) session.old.held session.new.held
        room.old room.new outcome.new result }
{
    let Some(mut whole) = session.take(alloc) else {
        return refuse(outcome, 5);
    };
    let status = whole.answer_into(line, room, outcome);
    if status < 2 {
        session.put(whole);
    }
    status
}

/// Gives the last reply once more, as `Session::give_reply` does: the empty one where no line was answered yet.
///
/// Status 5 says that no session is open: then nothing has changed but the outcome, whose numbers are 0.
#[unsafe(no_mangle)]
pub extern "C" fn lgp_reply(
    alloc: Global,
    session: &mut Slot,
    room: &mut [u8],
    outcome: &mut Outcome,
) -> u32
    ensures { IsRepeated session.old.held session.new.held room.old room.new outcome.new result }
{
    let Some(whole) = session.take(alloc) else {
        return refuse(outcome, 5);
    };
    let status = whole.give_reply(room, outcome);
    session.put(whole);
    status
}

/// Closes a session, as `Session::close_into` does, and gives back its memory.
///
/// Status 5 says that none is open: then nothing has changed but the outcome, whose numbers are 0.
#[unsafe(no_mangle)]
pub extern "C" fn lgp_close(
    alloc: Global,
    session: &mut Slot,
    room: &mut [u8],
    outcome: &mut Outcome,
) -> u32
    ensures { IsClosed closing_refused closing_reply session.old.held session.new.held
        room.old room.new outcome.new result }
{
    match session.take(alloc) {
        Some(whole) => Box::into_inner(whole).close_into(room, outcome),
        None => refuse(outcome, 5),
    }
}

/// Tells a session something by its number, as `Session::tell_into` does.
///
/// With status 3 the session is closed. Status 5 says that none is open: then nothing has changed but the outcome, whose numbers are 0.
#[unsafe(no_mangle)]
pub extern "C" fn lgp_tell(
    alloc: Global,
    session: &mut Slot,
    what: u32,
    text: &[u8],
    room: &mut [u8],
    outcome: &mut Outcome,
) -> u32
    ensures { IsDone (λ state. after_told state what text.now) session.old.held session.new.held
        room.old room.new outcome.new result }
{
    let Some(mut whole) = session.take(alloc) else {
        return refuse(outcome, 5);
    };
    let status = whole.tell_into(what, text, room, outcome);
    if status < 2 {
        session.put(whole);
    }
    status
}

/// Gives what a session shows by its number, as `Session::show_into` does. The status is that of `lgp_tell`.
#[unsafe(no_mangle)]
pub extern "C" fn lgp_show(
    alloc: Global,
    session: &mut Slot,
    what: u32,
    room: &mut [u8],
    outcome: &mut Outcome,
) -> u32
    ensures { IsDone (λ state. after_shown state what) session.old.held session.new.held
        room.old room.new outcome.new result }
{
    let Some(mut whole) = session.take(alloc) else {
        return refuse(outcome, 5);
    };
    let status = whole.show_into(what, room, outcome);
    if status < 2 {
        session.put(whole);
    }
    status
}

/// What a session wishes for, by its number, as `Session::wish_number` says. 5 says that none is open.
#[unsafe(no_mangle)]
pub extern "C" fn lgp_wish(alloc: Global, session: &mut Slot) -> u32
    ensures { IsWishing session.old.held session.new.held result }
{
    let Some(whole) = session.take(alloc) else {
        return 5;
    };
    let wish = whole.wish_number();
    session.put(whole);
    wish
}

/// Sets how the replies of a session are written, as `Session::set_manner` does. The status is 0, or 5 where none is open.
#[unsafe(no_mangle)]
pub extern "C" fn lgp_manner(alloc: Global, session: &mut Slot, number: u32) -> u32
    ensures { HasManner number session.old.held session.new.held result }
{
    let Some(mut whole) = session.take(alloc) else {
        return 5;
    };
    whole.set_manner(number);
    session.put(whole);
    0
}

/// Tells a session that no line is typed any more, and closes it, as `Session::leave_into` does. The status is that of `lgp_close`.
#[unsafe(no_mangle)]
pub extern "C" fn lgp_leave(
    alloc: Global,
    session: &mut Slot,
    room: &mut [u8],
    outcome: &mut Outcome,
) -> u32
    ensures { IsClosed (λ state. closing_refuses state.seat) (λ state. closing_text state.seat)
        session.old.held session.new.held room.old room.new outcome.new result }
{
    match session.take(alloc) {
        Some(whole) => Box::into_inner(whole).leave_into(room, outcome),
        None => refuse(outcome, 5),
    }
}
