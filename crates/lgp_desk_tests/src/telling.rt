//! A session as a desk: what it is told by numbers, what it says, what it wishes for then, and what it shows.

use crate::{expect_eq, statuses_in_turn};
use lgp_call::{Outcome, Session};
use lgp_limited::Limited;
use std::alloc::{Allocator, Global};

/// What is told and the bytes with it; the status and the text that is said; and what is wished for then.
type Row = (u32, &'static [u8], u32, &'static [u8], u32);

static ROWS: [Row; 22] = [
    (0, b"put 0050 = 3", 0, b"ok\n", 0),
    // What is not wished for changes nothing, and a number that says nothing neither.
    (2, b"", 0, b"", 0),
    (3, b"put 0050 = 4\n", 0, b"", 0),
    (8, b"", 0, b"", 0),
    (10, b"put 0050 = 4", 0, b"", 0),
    (
        0,
        b"; a\nput 0050 = 4",
        1,
        b"? 1 Form: these are several lines; give them one at a time\n",
        0,
    ),
    (0, b"do lines", 0, b"", 2),
    (0, b"put 0050 = 4", 0, b"", 2),
    (3, b"words 0050 1\njump", 0, b"", 1),
    (2, b"", 0, b"0050 00000006\n", 1),
    (
        2,
        b"",
        1,
        b"? 1 Form: there is no such command; help lists them all\n        line 2 of lines\n",
        1,
    ),
    (2, b"", 0, b"", 0),
    (1, b"first", 0, b"", 2),
    (
        4,
        b"",
        1,
        b"? 13 File first: it cannot be opened\n        named on the command line\n",
        0,
    ),
    (0, b"tape none", 0, b"", 2),
    (5, b"", 1, b"? 13 File none: it cannot be read\n", 0),
    (0, b"tape long", 0, b"", 2),
    (
        6,
        b"",
        1,
        b"? 13 File long: it has more than 16777216 bytes\n",
        0,
    ),
    (0, b"save drum", 0, b"", 3),
    (8, b"", 0, b"saved drum\n", 0),
    (0, b"quit", 0, b"", 4),
    (0, b"words 0050 1", 0, b"", 4),
];

/// A status, and what an outcome tells.
type Reported = (u32, u64, u64);

/// Tells a session something.
fn tell<A: Allocator + Copy>(
    session: &mut Session<A>,
    what: u32,
    bytes: &[u8],
    room: &mut [u8],
) -> Reported {
    let mut outcome = Outcome {
        questions: 9,
        length: 9,
    };
    let status = session.tell_into(what, bytes, room, &mut outcome);
    (status, outcome.questions, outcome.length)
}

/// Whether a session says and wishes what a row has.
fn is_said<A: Allocator + Copy>(session: &mut Session<A>, row: &Row) -> bool {
    let (what, bytes, status, text, wish) = *row;
    let mut room = [b'.'; 96];
    let reported = tell(session, what, bytes, &mut room);
    reported == (status, u64::from(status), text.len() as u64)
        && room.starts_with(text)
        && session.wish_number() == wish
}

/// How many rows come before the first that goes otherwise.
fn rows_said<A: Allocator + Copy>(session: &mut Session<A>) -> usize {
    let mut said: usize = 0;
    for row in &ROWS {
        if !is_said(session, row) {
            return said;
        }
        said = said.saturating_add(1);
    }
    said
}

#[test]
fn a_session_is_told_by_numbers(rt: HostRuntime) {
    let said = match Session::new(rt.alloc()) {
        Ok(mut session) => rows_said(&mut session),
        Err(_) => 0,
    };
    expect_eq(&rt, said, 22);
}

/// Whether a session shows a text by its number.
fn is_shown<A: Allocator + Copy>(session: &mut Session<A>, what: u32, text: &[u8]) -> bool {
    let mut room = [b'.'; 32];
    let mut outcome = Outcome {
        questions: 9,
        length: 9,
    };
    let status = session.show_into(what, &mut room, &mut outcome);
    (status, outcome.questions, outcome.length) == (0, 0, text.len() as u64)
        && room.starts_with(text)
}

/// What a session shows that wishes to keep its drum; and that it writes prompts once that is set, and lines above replies.
fn shown(mut session: Session<Global>) -> [bool; 8] {
    let mut room = [b'.'; 32];
    tell(&mut session, 0, b"put 0050 = 3", &mut room);
    tell(&mut session, 0, b"save drum", &mut room);
    let name = is_shown(&mut session, 1, b"drum");
    let kept = is_shown(&mut session, 2, b"0050 00000006\n");
    let bare = is_shown(&mut session, 0, b"");
    session.set_manner(1);
    session.set_manner(4);
    let prompt = is_shown(&mut session, 0, b"0000 halted operator> ");
    let none = is_shown(&mut session, 3, b"");
    tell(&mut session, 9, b"", &mut room);
    let gone = is_shown(&mut session, 2, b"");
    session.set_manner(2);
    let reported = tell(&mut session, 0, b"words 0050 1", &mut room);
    let echoed = reported == (0, 0, 29) && room.starts_with(b"> words 0050 1\n0050 00000006\n");
    session.set_manner(1);
    let mut outcome = Outcome {
        questions: 9,
        length: 9,
    };
    let status = session.leave_into(&mut room, &mut outcome);
    let left = (status, outcome.length) == (0, 1) && room.starts_with(b"\n");
    [name, kept, bare, prompt, none, gone, echoed, left]
}

#[test]
fn a_session_shows_by_numbers(rt: HostRuntime) {
    let seen = match Session::new(rt.alloc()) {
        Ok(session) => shown(session),
        Err(_) => [false; 8],
    };
    expect_eq(&rt, seen, [true; 8]);
}

/// The status of a session that is told all rows: 3 where a growth was refused, and nothing reported, and 9 where anything is.
fn told_by<A: Allocator + Copy>(session: &mut Session<A>) -> u32 {
    let mut room = [b'.'; 96];
    for (what, bytes, _, _, _) in &ROWS {
        match tell(session, *what, bytes, &mut room) {
            (3, 0, 0) => return 3,
            (3, _, _) => return 9,
            _ => {}
        }
    }
    0
}

/// That of a new session.
fn told(limited: &Limited<Global>) -> u32 {
    match Session::new(limited) {
        Ok(mut session) => told_by(&mut session),
        Err(_) => 3,
    }
}

#[test]
fn each_growth_refused_is_reported(rt: HostRuntime) {
    let limited = Limited::new(rt.alloc());
    let growths = statuses_in_turn(&limited, || told(&limited));
    expect_eq(&rt, (growths > 20, limited.blocks_out()), (true, 0));
}
