//! The laboratory for programs without `malloc`, which hand their memory over: the functions of `libraries/c/lgp30.h` over given memory.
#![tactic(auto)]

ghost use Rattle.lgp_call.specs.Reply.{IsScriptGiven, IsSourceAnswered};
ghost use Rattle.lgp_call.specs.Session.{after_line, closing_refused, closing_reply};
ghost use Rattle.lgp_call.specs.Slot.{HasManner, IsClosed, IsDone, IsOpened, IsRepeated, IsWishing};
ghost use Rattle.lgp_call.specs.Telling.{after_shown, after_told};
ghost use Rattle.lgp_desk.specs.Desk.{closing_refuses, closing_text};
ghost use Rattle.std.specs.Borrow.{Bor};
ghost use Rattle.lgp_region.specs.declared.region.Region.{Region};

use lgp_call::{Outcome, refuse, run_into, source_into};
use lgp_region::{Memory, Region};
use slot::Slot;

mod session;
pub mod slot;

/// Runs a script over memory that is handed over for good, as `run_into` does.
#[unsafe(no_mangle)]
pub extern "C" fn lgp_run_script_in(
    memory: Memory,
    script: &[u8],
    room: &mut [u8],
    outcome: &mut Outcome,
) -> u32
    ensures { IsScriptGiven script.now room.old room.new outcome.new result }
{
    let region = Region::new(memory);
    run_into(&region, script, room, outcome)
}

/// Gives what is wanted of a source over memory that is handed over for good, as `source_into` does.
#[unsafe(no_mangle)]
pub extern "C" fn lgp_source_in(
    memory: Memory,
    wanted: u32,
    limit: u64,
    source: &[u8],
    room: &mut [u8],
    outcome: &mut Outcome,
) -> u32
    ensures { IsSourceAnswered wanted limit source.now room.old room.new outcome.new result }
{
    let region = Region::new(memory);
    source_into(&region, wanted, limit, source, room, outcome)
}

/// Opens a session over memory that is handed over for good, whatever the status is.
///
/// The status is 0; 3 where there was not enough memory, and then none is open; 4 where one is open already, which stays as it was.
#[unsafe(no_mangle)]
pub extern "C" fn lgp_open_in(memory: Memory, session: &mut Slot) -> u32
    ensures { IsOpened session.old.held session.new.held result }
{
    match session.take() {
        Some(whole) => {
            session.put(whole);
            4
        }
        None => match session::begun(memory) {
            Ok(whole) => {
                session.put(whole);
                0
            }
            Err(_) => 3,
        },
    }
}

/// Answers a line, as `Session::answer_into` does.
///
/// With status 3 the session is closed. Status 5 says that none is open: then nothing has changed but the
/// outcome, whose numbers are 0.
#[unsafe(no_mangle)]
pub extern "C" fn lgp_answer_in(
    session: &mut Slot,
    line: &[u8],
    room: &mut [u8],
    outcome: &mut Outcome,
) -> u32
    ensures { IsDone (λ state. after_line state line.now) session.old.held session.new.held
        room.old room.new outcome.new result }
{
    let Some(mut whole) = session.take() else {
        return refuse(outcome, 5);
    };
    let status = whole.answer_into(line, room, outcome);
    if status < 2 {
        session.put(whole);
    }
    status
}

/// Gives the last reply once more, as `Session::give_reply` does: the empty one where no line was answered yet.
///
/// Status 5 says that no session is open: then nothing has changed but the outcome, whose numbers are 0.
#[unsafe(no_mangle)]
pub extern "C" fn lgp_reply_in(session: &mut Slot, room: &mut [u8], outcome: &mut Outcome) -> u32
    ensures { IsRepeated session.old.held session.new.held room.old room.new outcome.new result }
{
    let Some(whole) = session.take() else {
        return refuse(outcome, 5);
    };
    let status = whole.give_reply(room, outcome);
    session.put(whole);
    status
}

/// Closes a session, as `Session::close_into` does. Its memory stays handed over.
///
/// Status 5 says that none is open: then nothing has changed but the outcome, whose numbers are 0.
#[unsafe(no_mangle)]
pub extern "C" fn lgp_close_in(session: &mut Slot, room: &mut [u8], outcome: &mut Outcome) -> u32
    ensures { IsClosed closing_refused closing_reply session.old.held session.new.held
        room.old room.new outcome.new result }
{
    match session.take() {
        Some(whole) => Box::into_inner(whole).close_into(room, outcome),
        None => refuse(outcome, 5),
    }
}

/// Tells a session something by its number, as `Session::tell_into` does.
///
/// With status 3 the session is closed. Status 5 says that none is open: then nothing has changed but the outcome, whose numbers are 0.
#[unsafe(no_mangle)]
pub extern "C" fn lgp_tell_in(
    session: &mut Slot,
    what: u32,
    text: &[u8],
    room: &mut [u8],
    outcome: &mut Outcome,
) -> u32
    ensures { IsDone (λ state. after_told state what text.now) session.old.held session.new.held
        room.old room.new outcome.new result }
{
    let Some(mut whole) = session.take() else {
        return refuse(outcome, 5);
    };
    let status = whole.tell_into(what, text, room, outcome);
    if status < 2 {
        session.put(whole);
    }
    status
}

/// Gives what a session shows by its number, as `Session::show_into` does. The status is that of `lgp_tell_in`.
#[unsafe(no_mangle)]
pub extern "C" fn lgp_show_in(
    session: &mut Slot,
    what: u32,
    room: &mut [u8],
    outcome: &mut Outcome,
) -> u32
    ensures { IsDone (λ state. after_shown state what) session.old.held session.new.held
        room.old room.new outcome.new result }
{
    let Some(mut whole) = session.take() else {
        return refuse(outcome, 5);
    };
    let status = whole.show_into(what, room, outcome);
    if status < 2 {
        session.put(whole);
    }
    status
}

/// What a session wishes for, by its number, as `Session::wish_number` says. 5 says that none is open.
#[unsafe(no_mangle)]
pub extern "C" fn lgp_wish_in(session: &mut Slot) -> u32
    ensures { IsWishing session.old.held session.new.held result }
{
    let Some(whole) = session.take() else {
        return 5;
    };
    let wish = whole.wish_number();
    session.put(whole);
    wish
}

/// Sets how the replies of a session are written, as `Session::set_manner` does. The status is 0, or 5 where none is open.
#[unsafe(no_mangle)]
pub extern "C" fn lgp_manner_in(session: &mut Slot, number: u32) -> u32
    ensures { HasManner number session.old.held session.new.held result }
{
    let Some(mut whole) = session.take() else {
        return 5;
    };
    whole.set_manner(number);
    session.put(whole);
    0
}

/// Tells a session that no line is typed any more, and closes it, as `Session::leave_into` does. The status is that of `lgp_close_in`.
#[unsafe(no_mangle)]
pub extern "C" fn lgp_leave_in(session: &mut Slot, room: &mut [u8], outcome: &mut Outcome) -> u32
    ensures { IsClosed (λ state. closing_refuses state.seat) (λ state. closing_text state.seat)
        session.old.held session.new.held room.old room.new outcome.new result }
{
    match session.take() {
        Some(whole) => Box::into_inner(whole).leave_into(room, outcome),
        None => refuse(outcome, 5),
    }
}
