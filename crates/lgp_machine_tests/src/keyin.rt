//! What an operator presses.

use crate::{CLOCK_END, at, expect_eq, word};
use lgp_flexo::{Code, code_of};
use lgp_keyin::{KeyFault, actions_to_start, actions_to_store, key_in};
use lgp_limited::Limited;
use lgp_machine::{Look, Machine, Pressed};
use lgp_table::{Action, Cause, Mode, Status, Switches};
use lgp_word::{Address, Word};
use std::alloc::{Allocator, Global};

/// What a letter stands for in the texts below: a capital one for the mode or the button that it begins, any other sign for its
/// key, or the stop key where none has it.
fn action_of(sign: u8) -> Action {
    match sign {
        b'M' => Action::Mode(Mode::Manual),
        b'O' => Action::Mode(Mode::OneOperation),
        b'N' => Action::Mode(Mode::Normal),
        b'F' => Action::Fill,
        b'E' => Action::Execute,
        b'S' => Action::Start,
        _ => Action::Key(code_of(char::from(sign)).unwrap_or(Code::STOP)),
    }
}

// The calls without their contracts, which would fill the context of each test.

fn to_store(address: Address, word: Word) -> [Action; 20] {
    actions_to_store(address, word)
}

fn to_start(address: Address) -> [Action; 14] {
    actions_to_start(address)
}

fn key<A: Allocator>(
    machine: &mut Machine<A>,
    base: Address,
    words: &[Word],
) -> Result<(), KeyFault> {
    key_in(machine, base, words)
}

/// Whether a machine shows One Operation, 0000 and this status when keys have been pressed.
fn shows<A: Allocator>(
    machine: &Machine<A>,
    (accumulator, register): (&[u8; 8], &[u8; 8]),
    status: Status,
    clock: u64,
) -> bool {
    machine.look()
        == Some(Look {
            counter: Address::default(),
            accumulator: word(accumulator).get(),
            register: word(register),
            status,
            mode: Mode::OneOperation,
            switches: Switches::default(),
            reader_on: false,
            clock,
        })
}

/// An address, and the word that is there.
type Row = (&'static [u8], &'static [u8]);

/// Whether a machine has these words.
fn has_words<A: Allocator>(machine: &Machine<A>, rows: &[Row]) -> bool {
    for (place, digits) in rows {
        if machine.word(at(place)) != word(digits) {
            return false;
        }
    }
    true
}

/// What there is after two words have been keyed in at 0100.
static AFTER_TWO: [Row; 3] = [
    (b"0100", b"00000004"),
    (b"0101", b"80000000"),
    (b"0102", b"00000000"),
];

#[test]
fn what_is_pressed_to_store_a_word_and_to_start_a_program(rt: HostRuntime) {
    let pressed = (
        to_store(at(b"0100"), word(b"7wwwwwwq")),
        to_start(at(b"6300")),
    );
    let wanted = (
        b"M000j0100F7wwwwwwqOE".map(action_of),
        b"M000f3w00FOENS".map(action_of),
    );
    expect_eq(&rt, pressed, wanted);
}

/// The words that are keyed in.
fn two_words() -> [Word; 2] {
    [word(b"00000004"), word(b"80000000")]
}

/// Keys these words in at 0100 with the first growth refused. No memory is asked for. The first store waits 64 word times for sector
/// 00, the second 8 for sector 01; each acts for one.
fn keys_two_in<B: Allocator, A: Allocator>(
    limited: &Limited<B>,
    machine: &mut Machine<A>,
) -> [bool; 4] {
    limited.refuse(1);
    let answer = key(machine, at(b"0100"), &two_words());
    let stepped = Status::Halted(Cause::Step);
    [
        answer.is_ok(),
        limited.was_refused(),
        shows(machine, (b"80000000", b"000j0104"), stepped, 74),
        has_words(machine, &AFTER_TWO),
    ]
}

/// Keys two words in at the last address: whether that is refused as too many, and the same shows as before.
fn keys_past_the_drum<A: Allocator>(machine: &mut Machine<A>) -> [bool; 2] {
    let before = machine.look();
    let answer = key(machine, at(b"6363"), &[Word::default(); 2]);
    [answer == Err(KeyFault::PastEnd), machine.look() == before]
}

/// Starts, lets a word time pass and keys nothing in: whether the first two go well, the third is refused, and nothing shows then.
fn keys_within<A: Allocator>(machine: &mut Machine<A>) -> [bool; 4] {
    [
        machine.press(Action::Start) == Ok(Pressed::Live),
        machine.turn() == Ok(false),
        key(machine, Address::default(), &[]) == Err(KeyFault::Moving),
        machine.look().is_none(),
    ]
}

/// The three of them one after another on a new machine.
fn keyed_on_one(limited: &Limited<Global>) -> Option<([bool; 4], [bool; 2], [bool; 4])> {
    let mut machine = Machine::new(limited).ok()?;
    let two = keys_two_in(limited, &mut machine);
    let past = keys_past_the_drum(&mut machine);
    Some((two, past, keys_within(&mut machine)))
}

/// Rests up to a clock, and keys a word in at 0000: whether a machine can rest, the clock's end is reported, the machine is before
/// the order that stores the word, and the drum is blank there.
fn keys_at_the_end<A: Allocator>(machine: &mut Machine<A>, clock: u64) -> [bool; 4] {
    [
        machine.rest(clock).is_ok(),
        key(machine, Address::default(), &[word(b"00000004")]) == Err(KeyFault::ClockEnd),
        shows(
            machine,
            (b"00000004", b"000j0000"),
            Status::Executing,
            clock,
        ),
        has_words(machine, &[(b"0000", b"00000000")]),
    ]
}

/// The same on a new machine, one word time before the clock's end.
fn keyed_at_the_end(global: Global) -> Option<[bool; 4]> {
    match Machine::new(global) {
        Ok(mut machine) => Some(keys_at_the_end(&mut machine, CLOCK_END - 1)),
        Err(_) => None,
    }
}

#[test]
fn words_are_keyed_in_or_refused(rt: HostRuntime) {
    let limited = Limited::new(rt.alloc());
    let keyed = keyed_on_one(&limited);
    let two = [true, false, true, true];
    expect_eq(
        &rt,
        (keyed, keyed_at_the_end(rt.alloc())),
        (Some((two, [true; 2], [true; 4])), Some([true; 4])),
    );
}
