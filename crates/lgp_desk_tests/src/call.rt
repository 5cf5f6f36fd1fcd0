//! Sessions by what they reply, a table of lines with the reply to each, and with each growth refused in turn. What a reply has to be is
//! taken from the descriptions of the script language and of the monitor.

use crate::{expect_eq, statuses_in_turn};
use lgp_call::{Outcome, Session};
use lgp_limited::Limited;
use std::alloc::{Allocator, Global};

/// A line, its status and its reply.
type Row = (&'static [u8], u32, &'static [u8]);

/// Lines of one session. A word at 30 is twice its number.
static ROWS: [Row; 12] = [
    (b"put 0050 = 3", 0, b"ok\n"),
    (
        b"; a\nput 0050 00000004",
        1,
        b"? 1 Form: these are several lines; give them one at a time\n",
    ),
    (b"words 0050 1", 0, b"0050 00000006\n"),
    (b"", 0, b""),
    (
        b"back 2",
        1,
        b"? 7 TooFar 0: only this many orders are kept\n",
    ),
    (
        b"jump",
        1,
        b"? 1 Form: there is no such command; help lists them all\n",
    ),
    (b"source", 0, b""),
    (b" z ", 0, b""),
    (b" end", 0, b""),
    (b".", 0, b"cells 1 start none\n"),
    (b"new", 0, b"new\n"),
    (b"words 0050 1", 0, b"0050 00000000\n"),
];

/// These lines by reference: each function that names a static with texts takes longer to prove.
fn rows() -> &'static [Row] {
    &ROWS
}

/// A status, and what an outcome tells.
type Reported = (u32, u64, u64);

/// Answers a line.
fn ask<A: Allocator + Copy>(session: &mut Session<A>, line: &[u8], room: &mut [u8]) -> Reported {
    let mut outcome = Outcome {
        questions: 9,
        length: 9,
    };
    let status = session.answer_into(line, room, &mut outcome);
    (status, outcome.questions, outcome.length)
}

/// Gives the last reply once more.
fn again<A: Allocator + Copy>(session: &Session<A>, room: &mut [u8]) -> Reported {
    let mut outcome = Outcome {
        questions: 9,
        length: 9,
    };
    let status = session.give_reply(room, &mut outcome);
    (status, outcome.questions, outcome.length)
}

/// Closes a session.
fn end<A: Allocator + Copy>(session: Session<A>, room: &mut [u8]) -> Reported {
    let mut outcome = Outcome {
        questions: 9,
        length: 9,
    };
    let status = session.close_into(room, &mut outcome);
    (status, outcome.questions, outcome.length)
}

/// Whether a reply is reported and is at the front of a room.
fn is_reported(reported: Reported, status: u32, reply: &[u8], room: &[u8]) -> bool {
    reported == (status, u64::from(status), reply.len() as u64) && room.starts_with(reply)
}

/// Whether a line has its reply, in any room that it fits, asked for at once or again.
fn is_answered<A: Allocator + Copy>(session: &mut Session<A>, row: &Row) -> bool {
    let (line, status, reply) = *row;
    let (mut room, mut other) = ([b'.'; 64], [b'.'; 64]);
    let reported = ask(session, line, &mut room);
    let reported_again = again(session, &mut other);
    is_reported(reported, status, reply, &room) && reported_again == reported && other == room
}

/// How many lines come before the first whose reply is another one.
fn rows_answered<A: Allocator + Copy>(session: &mut Session<A>) -> usize {
    let mut answered: usize = 0;
    for row in rows() {
        if !is_answered(session, row) {
            return answered;
        }
        answered = answered.saturating_add(1);
    }
    answered
}

#[test]
fn a_session_answers_one_line_after_another(rt: HostRuntime) {
    let answered = match Session::new(rt.alloc()) {
        Ok(mut session) => rows_answered(&mut session),
        Err(_) => 0,
    };
    expect_eq(&rt, answered, 12);
}

/// All bytes, one after another.
fn all_bytes() -> [u8; 256] {
    let mut bytes = [0; 256];
    for value in 0..=255u8 {
        bytes[usize::from(value)] = value;
    }
    bytes
}

/// What is reported of a line of 5,000 bytes, of one of any bytes but a line feed, and of any bytes.
fn odd_lines<A: Allocator + Copy>(session: &mut Session<A>) -> [Reported; 3] {
    let mut room = [b'.'; 8];
    let mut bytes = all_bytes();
    let long = ask(session, &[b'x'; 5000], &mut room);
    let all = ask(session, &bytes, &mut room);
    bytes[10] = b' ';
    [long, ask(session, &bytes, &mut room), all]
}

/// The same of a new session.
fn reported_of_odd_lines(alloc: Global) -> [Reported; 3] {
    match Session::new(alloc) {
        Ok(mut session) => odd_lines(&mut session),
        Err(_) => [(0, 0, 0); 3],
    }
}

/// The replies are that a line has at most 4096 bytes, that there is no such command, and that these are several lines.
#[test]
fn a_line_may_be_long_and_have_any_bytes(rt: HostRuntime) {
    let reported = reported_of_odd_lines(rt.alloc());
    expect_eq(&rt, reported, [(1, 1, 75), (1, 1, 56), (1, 1, 59)]);
}

/// What is reported of the end of a session after these lines, or status 3 where memory is refused.
fn end_after(alloc: Global, lines: &[&[u8]]) -> Reported {
    match Session::new(alloc) {
        Ok(session) => end_of(session, lines),
        Err(_) => (3, 0, 0),
    }
}

/// What is reported of a session's end after these lines.
fn end_of(mut session: Session<Global>, lines: &[&[u8]]) -> Reported {
    let mut room = [b'.'; 64];
    for line in lines {
        ask(&mut session, line, &mut room);
    }
    end(session, &mut room)
}

#[test]
fn an_open_source_is_answered_at_the_end(rt: HostRuntime) {
    let ends = [
        end_after(rt.alloc(), &[b"source"]),
        end_after(rt.alloc(), &[]),
    ];
    expect_eq(&rt, ends, [(1, 1, 24), (0, 0, 0)]);
}

/// The status of a line that is refused for want of memory, where nothing is reported, and 9 where anything is; 0 where none is refused.
fn refused_line<A: Allocator + Copy>(session: &mut Session<A>) -> u32 {
    let mut room = [b'.'; 64];
    for (line, _, _) in rows() {
        match ask(session, line, &mut room) {
            (3, 0, 0) => return 3,
            (3, _, _) => return 9,
            _ => {}
        }
    }
    0
}

/// The status of a session's lines and its end: 3 where a growth was refused, and nothing reported.
fn answered_by<A: Allocator + Copy>(mut session: Session<A>) -> u32 {
    let status = refused_line(&mut session);
    if status != 0 {
        return status;
    }
    let mut room = [b'.'; 64];
    match ask(&mut session, b"source", &mut room) {
        (3, 0, 0) => 3,
        (3, _, _) => 9,
        _ => end(session, &mut room).0,
    }
}

/// That of a new session.
fn answered(limited: &Limited<Global>) -> u32 {
    match Session::new(limited) {
        Ok(session) => answered_by(session),
        Err(_) => 3,
    }
}

#[test]
fn each_growth_refused_is_reported(rt: HostRuntime) {
    let limited = Limited::new(rt.alloc());
    let growths = statuses_in_turn(&limited, || answered(&limited));
    expect_eq(&rt, (growths > 8, limited.blocks_out()), (true, 0));
}
