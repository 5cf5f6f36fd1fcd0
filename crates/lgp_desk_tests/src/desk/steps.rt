//! A desk step by step: what it wishes for, what it is told, and what is to be written then.

use crate::expect_eq;
use lgp_desk::{Desk, DrumForm, FileTrouble, Made, Manner, Wish};
use lgp_limited::Limited;
use lgp_monitor::Silence;
use lgp_stream::LineBytes;
use std::alloc::{AllocError, Allocator, Global};

/// What a desk is told.
#[derive(Clone, Copy)]
enum Step {
    Typed(&'static [u8]),
    Closed,
    First(&'static [u8]),
    Onward,
    Found(&'static [u8]),
    Lacking(FileTrouble),
    Kept(bool),
}

/// What a desk is told, the text that is to be written, what it wishes for then, and the name of the file.
type Row = (Step, &'static [u8], Wish, Option<&'static [u8]>);

/// A text of these bytes.
fn text_of<A: Allocator + Copy>(alloc: A, bytes: &[u8]) -> Result<Vec<u8, A>, AllocError> {
    let mut text = Vec::new(alloc);
    text.extend_from_slice(bytes)?;
    Ok(text)
}

/// Tells a desk something: the text that is to be written.
fn tell<A: Allocator + Copy>(
    alloc: A,
    desk: &mut Desk<A, Silence>,
    step: Step,
) -> Result<Vec<u8, A>, AllocError> {
    match step {
        Step::Typed(line) => desk.typed(&LineBytes::of(line)),
        Step::Closed => desk.close(),
        Step::First(name) => desk.first(name),
        Step::Onward => desk.onward(),
        Step::Found(bytes) => {
            let text = text_of(alloc, bytes)?;
            desk.found(Ok(text))
        }
        Step::Lacking(trouble) => desk.found(Err(trouble)),
        Step::Kept(kept) => desk.kept(kept),
    }
}

/// Whether a desk says what a row has, and wishes for it then.
fn is_said<A: Allocator + Copy>(
    alloc: A,
    desk: &mut Desk<A, Silence>,
    row: &Row,
) -> Result<bool, AllocError> {
    let (step, text, wish, name) = *row;
    let said = tell(alloc, desk, step)?;
    let is_named = match (desk.file_name(), name) {
        (Some(seen), Some(wanted)) => seen == wanted,
        (None, None) => true,
        _ => false,
    };
    Ok(said.as_slice() == text && desk.wish() == wish && is_named)
}

/// How many rows come before the first that goes otherwise, and whether a reply was a refusal.
fn rows_said<A: Allocator + Copy>(
    alloc: A,
    manner: Manner,
    rows: &[Row],
) -> Result<(usize, bool), AllocError> {
    let mut desk = Desk::new(alloc, manner, Silence)?;
    let mut said: usize = 0;
    for row in rows {
        if !is_said(alloc, &mut desk, row)? {
            return Ok((said, desk.has_refused()));
        }
        said = said.saturating_add(1);
    }
    Ok((said, desk.has_refused()))
}

/// Files within one another, of which the inner one has a last line without an end; a file that is not there; and one that is kept.
static WISHES: [Row; 18] = [
    (Step::First(b"a"), b"", Wish::Read, Some(b"a")),
    (
        Step::Found(b"put 0000 = 1\ndo b\nfoo\n"),
        b"",
        Wish::Onward,
        None,
    ),
    (Step::Onward, b"ok\n", Wish::Onward, None),
    (Step::Onward, b"", Wish::Read, Some(b"b")),
    (Step::Found(b"words 0000 1"), b"", Wish::Onward, None),
    (Step::Onward, b"0000 00000002\n", Wish::Onward, None),
    (Step::Onward, b"", Wish::Onward, None),
    (
        Step::Onward,
        b"? 1 Form: there is no such command; help lists them all\n        line 3 of a\n",
        Wish::Onward,
        None,
    ),
    (Step::Onward, b"", Wish::Line, None),
    (Step::Typed(b"tape c"), b"", Wish::Read, Some(b"c")),
    (
        Step::Lacking(FileTrouble::NotOpened),
        b"? 13 File c: it cannot be opened\n",
        Wish::Line,
        None,
    ),
    (
        Step::Typed(b"save d"),
        b"",
        Wish::Keep(Made::Drum(DrumForm::Dump)),
        Some(b"d"),
    ),
    (Step::Kept(true), b"saved d\n", Wish::Line, None),
    (
        Step::Typed(b"save d"),
        b"",
        Wish::Keep(Made::Drum(DrumForm::Dump)),
        Some(b"d"),
    ),
    (
        Step::Kept(false),
        b"? 13 File d: it cannot be written, and is unchanged\n",
        Wish::Line,
        None,
    ),
    (Step::Typed(b"quit"), b"", Wish::Nothing, None),
    (Step::Typed(b"words 0000 1"), b"", Wish::Nothing, None),
    (Step::Closed, b"", Wish::Nothing, None),
];

/// A source that is open at the end is closed with its reply, which may be a refusal.
static CLOSED: [Row; 3] = [
    (Step::Typed(b"source"), b"", Wish::Line, None),
    (Step::Typed(b" foo"), b"", Wish::Line, None),
    (
        Step::Closed,
        b"? 9 Faults\nline 1 UnknownOrder\nline 2 NoEnd\n",
        Wish::Line,
        None,
    ),
];

/// What it has not wished for changes nothing.
static UNWISHED: [Row; 15] = [
    (Step::Onward, b"", Wish::Line, None),
    (Step::Found(b"foo\n"), b"", Wish::Line, None),
    (Step::Kept(true), b"", Wish::Line, None),
    (Step::Typed(b"do a"), b"", Wish::Read, Some(b"a")),
    (Step::Typed(b"do b"), b"", Wish::Read, Some(b"a")),
    (Step::First(b"b"), b"", Wish::Read, Some(b"a")),
    (Step::Onward, b"", Wish::Read, Some(b"a")),
    (Step::Kept(true), b"", Wish::Read, Some(b"a")),
    (Step::Found(b"save b\nquit\n"), b"", Wish::Onward, None),
    (Step::Typed(b"foo"), b"", Wish::Onward, None),
    (
        Step::Onward,
        b"",
        Wish::Keep(Made::Drum(DrumForm::Dump)),
        Some(b"b"),
    ),
    (
        Step::Found(b"foo\n"),
        b"",
        Wish::Keep(Made::Drum(DrumForm::Dump)),
        Some(b"b"),
    ),
    (Step::Kept(true), b"saved b\n", Wish::Onward, None),
    (Step::Onward, b"", Wish::Nothing, None),
    (Step::First(b"a"), b"", Wish::Nothing, None),
];

#[test]
fn a_desk_wishes_and_is_told(rt: HostRuntime) {
    let alloc = rt.alloc();
    let said = [
        rows_said(alloc, Manner::Bare, &WISHES) == Ok((18, true)),
        rows_said(alloc, Manner::Bare, &UNWISHED) == Ok((15, false)),
        rows_said(alloc, Manner::Bare, &CLOSED) == Ok((3, true)),
    ];
    expect_eq(&rt, said, [true; 3]);
}

/// The prompt of a desk in a manner, and what it keeps of an empty drum.
fn shown(alloc: Global, manner: Manner) -> Result<(bool, bool), AllocError> {
    let desk = Desk::new(alloc, manner, Silence)?;
    let prompt = desk.prompt()?;
    let drum = desk.text_made(Made::Drum(DrumForm::Simh))?;
    Ok((
        prompt.as_slice() == b"0000 halted operator> ".as_slice(),
        drum.is_empty(),
    ))
}

#[test]
fn a_prompt_is_due_where_a_person_types(rt: HostRuntime) {
    let alloc = rt.alloc();
    let seen = [
        shown(alloc, Manner::Prompting) == Ok((true, true)),
        shown(alloc, Manner::Bare) == Ok((false, true)),
    ];
    expect_eq(&rt, seen, [true; 2]);
}

/// How often a growth was refused before the rows went to their end; 0 where one that was refused has not ended them.
fn refusals(limited: &Limited<Global>, rows: &[Row], most: u64) -> u64 {
    for nth in 1..most {
        limited.refuse(nth);
        let said = rows_said(limited, Manner::Prompting, rows);
        match said {
            Err(AllocError) if limited.was_refused() => {}
            Ok(_) if !limited.was_refused() => return nth,
            _ => return 0,
        }
    }
    0
}

#[test]
fn each_growth_of_a_step_is_refused(rt: HostRuntime) {
    let limited = Limited::new(rt.alloc());
    let refused = refusals(&limited, &WISHES, 1000);
    expect_eq(&rt, (refused > 20, limited.blocks_out()), (true, 0));
}
