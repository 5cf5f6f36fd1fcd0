//! A reader with its tape, and one that is refused memory.

use crate::expect_eq;
use lgp_flexo::{Code, TAPE_LIMIT, read_tape_text};
use lgp_limited::Limited;
use lgp_reader::Reader;
use std::alloc::Allocator;

/// Whether a reader is on, how many codes have passed, and how many are left.
type Shown = (bool, usize, usize);

/// A number of codes, a number, and whether it was done.
type Answer = (usize, u32, bool);

/// What is done with a reader.
#[derive(Clone, Copy)]
enum Deed {
    Start,
    Stop,
    /// The tape of a text is put in.
    Mount(&'static [u8]),
    /// A tape of a given number of conditional stops is put in. The answer has how many codes are handed back.
    Stops(usize),
    /// The tape of a text is put in of which a given number of codes have passed.
    Set(&'static [u8], usize),
    /// The answer has the number of the code that passes, if one does.
    Pass,
    /// The answer has the number of the first code that has passed, if one has.
    First,
    /// An input from this accumulator, by six bits or not. The answer has how many codes it would pass before it, what is then in
    /// the accumulator, and whether it is done.
    Input(bool, u32),
    /// The tape moves back by some codes.
    Back(usize),
    /// A copy is made with the nth growth refused. The answer has a 1 where a growth was refused, and the number of the code that
    /// passes in the copy, if that shows what the reader shows.
    Copy(u64),
}

const NO: Answer = (0, 0, false);

const DONE: Answer = (0, 0, true);

// The reader's methods without their contracts, which would fill the context of each function.

fn shown<A: Allocator>(reader: &Reader<A>) -> Shown {
    (reader.is_on(), reader.passed().len(), reader.left().len())
}

fn mount<A: Allocator + Copy>(reader: &mut Reader<A>, alloc: A, text: &[u8]) -> Answer {
    match read_tape_text(alloc, text) {
        Ok(codes) => (0, 0, reader.mount(codes).is_ok()),
        Err(_) => NO,
    }
}

fn mount_stops<A: Allocator + Copy>(reader: &mut Reader<A>, alloc: A, count: usize) -> Answer {
    let Ok(codes) = vec![in alloc; Code::STOP; count] else {
        return NO;
    };
    match reader.mount(codes) {
        Ok(()) => DONE,
        Err(back) => (back.len(), 0, false),
    }
}

fn set<A: Allocator + Copy>(
    reader: &mut Reader<A>,
    alloc: A,
    text: &[u8],
    passed: usize,
) -> Answer {
    match read_tape_text(alloc, text) {
        Ok(codes) if passed <= codes.len() && codes.len() <= TAPE_LIMIT => {
            reader.set(codes, passed);
            DONE
        }
        _ => NO,
    }
}

/// The number of a code, if there is one.
fn number_of(code: Option<Code>) -> Answer {
    match code {
        Some(code) => (0, u32::from(code.number()), true),
        None => NO,
    }
}

fn input<A: Allocator>(reader: &mut Reader<A>, six_bit: bool, accumulator: u32) -> Answer {
    let passing = reader.passing();
    let input = reader.pass_input(six_bit, accumulator);
    (passing, input.accumulator, input.done)
}

/// The number of the code that passes in a reader that shows this.
fn pass_if<A: Allocator>(reader: &mut Reader<A>, wanted: Shown) -> Answer {
    if shown(reader) == wanted {
        number_of(reader.pass())
    } else {
        NO
    }
}

fn copied<A: Allocator + Clone>(reader: &Reader<A>) -> Answer {
    match reader.copy() {
        Ok(mut copy) => pass_if(&mut copy, shown(reader)),
        Err(_) => NO,
    }
}

/// The same with the nth growth refused.
fn copied_within_limit<B: Allocator>(
    limited: &Limited<B>,
    reader: &Reader<&Limited<B>>,
    nth: u64,
) -> Answer {
    limited.refuse(nth);
    let (_, number, done) = copied(reader);
    let refused = limited.was_refused();
    limited.refuse(0);
    (usize::from(refused), number, done)
}

/// Does with a reader and its tape what takes no memory, and nothing else.
fn move_tape<A: Allocator>(reader: &mut Reader<A>, deed: &Deed) -> Answer {
    match deed {
        Deed::Start => {
            reader.start();
            DONE
        }
        Deed::Stop => {
            reader.stop();
            DONE
        }
        Deed::Pass => number_of(reader.pass()),
        Deed::First => number_of(reader.passed().first().copied()),
        Deed::Input(six_bit, accumulator) => input(reader, *six_bit, *accumulator),
        Deed::Back(count) => (0, 0, reader.back_up(*count)),
        _ => NO,
    }
}

/// Puts a tape in, or does what takes no memory.
fn put_in<A: Allocator + Copy>(reader: &mut Reader<A>, alloc: A, deed: &Deed) -> Answer {
    match deed {
        Deed::Mount(text) => mount(reader, alloc, text),
        Deed::Stops(count) => mount_stops(reader, alloc, *count),
        Deed::Set(text, passed) => set(reader, alloc, text, *passed),
        _ => move_tape(reader, deed),
    }
}

/// Does what is to be done with a reader.
fn answer<'a, B: Allocator>(
    limited: &'a Limited<B>,
    reader: &mut Reader<&'a Limited<B>>,
    deed: &Deed,
) -> Answer {
    match deed {
        Deed::Copy(nth) => copied_within_limit(limited, reader, *nth),
        _ => put_in(reader, limited, deed),
    }
}

/// What is done, what that answers, and what shows then.
type Row = (Deed, Answer, Shown);

/// A new reader, with one tape after another.
static ROWS: [Row; 34] = [
    (Deed::Pass, NO, (false, 0, 0)),
    // It is on or off, and codes pass in order.
    (Deed::Mount(b"12'"), DONE, (false, 0, 3)),
    (Deed::Start, DONE, (true, 0, 3)),
    (Deed::Stop, DONE, (false, 0, 3)),
    (Deed::Pass, (0, 6, true), (false, 1, 2)),
    // An input ends at the stop, and passes nothing where the reader is off.
    (Deed::Mount(b"12[16]3'45"), DONE, (false, 0, 7)),
    (Deed::Input(false, 7), (0, 7, false), (false, 0, 7)),
    (Deed::Start, DONE, (true, 0, 7)),
    (Deed::Input(false, 0), (5, 0x123, true), (false, 5, 2)),
    (Deed::Start, DONE, (true, 5, 2)),
    (Deed::Input(false, 0x12), (2, 0x1245, false), (false, 7, 0)),
    (Deed::Pass, NO, (false, 7, 0)),
    // Six bits of a code enter.
    (Deed::Mount(b"a'"), DONE, (false, 0, 2)),
    (Deed::Start, DONE, (true, 0, 2)),
    (Deed::Input(true, 0), (2, 0x39, true), (false, 2, 0)),
    // A tape above the limit is handed back.
    (Deed::Stops(TAPE_LIMIT), DONE, (false, 0, 1_048_576)),
    (Deed::Start, DONE, (true, 0, 1_048_576)),
    (
        Deed::Stops(TAPE_LIMIT + 1),
        (1_048_577, 0, false),
        (true, 0, 1_048_576),
    ),
    // A refused copy changes nothing.
    (Deed::Mount(b"12"), DONE, (false, 0, 2)),
    (Deed::Start, DONE, (true, 0, 2)),
    (Deed::Pass, (0, 6, true), (true, 1, 1)),
    (Deed::Copy(1), (1, 0, false), (true, 1, 1)),
    (Deed::Copy(2), (0, 10, true), (true, 1, 1)),
    // A tape goes back, though by no more codes than have passed.
    (Deed::Mount(b"12'3"), DONE, (false, 0, 4)),
    (Deed::Start, DONE, (true, 0, 4)),
    (Deed::Input(false, 0), (3, 0x12, true), (false, 3, 1)),
    (Deed::First, (0, 6, true), (false, 3, 1)),
    (Deed::Back(4), NO, (false, 3, 1)),
    (Deed::Back(2), DONE, (false, 1, 3)),
    (Deed::Pass, (0, 10, true), (false, 2, 2)),
    (Deed::Copy(0), (0, 32, true), (false, 2, 2)),
    // A tape is set within itself.
    (Deed::Start, DONE, (true, 2, 2)),
    (Deed::Set(b"12'3", 3), DONE, (true, 3, 1)),
    (Deed::Pass, (0, 14, true), (true, 4, 0)),
];

/// Whether a reader shows this, and has one block of memory where there is a tape.
fn is_shown<B: Allocator>(
    limited: &Limited<B>,
    reader: &Reader<&Limited<B>>,
    shows: &Shown,
) -> bool {
    let has_tape = shows.1 > 0 || shows.2 > 0;
    shown(reader) == *shows && limited.blocks_out() == u64::from(has_tape)
}

/// The place of the first row that answers or shows something else, or how many rows there are.
fn first_wrong<'a, B: Allocator>(
    limited: &'a Limited<B>,
    reader: &mut Reader<&'a Limited<B>>,
) -> usize {
    let mut place = 0usize;
    for (deed, wanted, shows) in &ROWS {
        if answer(limited, reader, deed) != *wanted || !is_shown(limited, reader, shows) {
            return place;
        }
        place = place.saturating_add(1);
    }
    place
}

/// The same of a new reader.
fn first_wrong_of_new<B: Allocator>(limited: &Limited<B>) -> usize {
    let mut reader = Reader::new(limited);
    first_wrong(limited, &mut reader)
}

#[test]
fn a_reader_with_its_tapes(rt: HostRuntime) {
    let limited = Limited::new(rt.alloc());
    let found = first_wrong_of_new(&limited);
    expect_eq(&rt, (found, limited.blocks_out()), (ROWS.len(), 0));
}
