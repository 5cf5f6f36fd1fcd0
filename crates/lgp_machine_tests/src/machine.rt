//! The machine by its calls.

mod calls;
mod events;
mod growths;
mod marks;
mod sizes;

use crate::{CLOCK_END, PRINT, TRANSFER, address};
use lgp_flexo::{Code, read_tape_text};
use lgp_machine::{
    Look, Machine, MountFault, OrderFault, PlayFault, PressFault, Pressed, PutFault, RestFault,
    TurnFault,
};
use lgp_table::{Action, Event, Mode, Status, Switches};
use lgp_word::{Address, Op, Word};
use std::alloc::{Allocator, Global};

// The machine's methods without their contracts, which would fill the context of each test.

fn press<A: Allocator>(machine: &mut Machine<A>, action: Action) -> Result<Pressed, PressFault> {
    machine.press(action)
}

fn turn<A: Allocator>(machine: &mut Machine<A>) -> Result<bool, TurnFault> {
    machine.turn()
}

fn play<A: Allocator>(machine: &mut Machine<A>, events: &[Event]) -> Result<(), PlayFault> {
    machine.play(events)
}

/// What the next activity took, the status after it and the code that it printed.
fn next_order<A: Allocator>(
    machine: &mut Machine<A>,
) -> Result<(u64, Status, Option<Code>), OrderFault> {
    let outcome = machine.next_order()?;
    Ok((outcome.cost, outcome.status, outcome.printed))
}

/// The status after the next activity.
fn status_after<A: Allocator>(machine: &mut Machine<A>) -> Result<Status, OrderFault> {
    let (_, status, _) = next_order(machine)?;
    Ok(status)
}

fn rest<A: Allocator>(machine: &mut Machine<A>, times: u64) -> Result<(), RestFault> {
    machine.rest(times)
}

fn put<A: Allocator>(machine: &mut Machine<A>, at: u16, bits: u32) -> Result<(), PutFault> {
    machine.put(address(at), Word::of_bits(bits))
}

/// Mounts a tape; a refused one is reported by the number of codes handed back.
fn mount<A: Allocator>(
    machine: &mut Machine<A>,
    codes: Vec<Code, A>,
) -> Result<(), (MountFault, usize)> {
    match machine.mount(codes) {
        Ok(()) => Ok(()),
        Err(refused) => Err((refused.0, refused.1.len())),
    }
}

fn look<A: Allocator>(machine: &Machine<A>) -> Option<Look> {
    machine.look()
}

/// What the next activity costs, and the code that it prints.
fn ahead<A: Allocator>(machine: &Machine<A>) -> Option<(u64, Option<Code>)> {
    let ahead = machine.ahead()?;
    Some((ahead.cost, ahead.prints))
}

fn live<A: Allocator>(machine: &Machine<A>, action: Action) -> Option<bool> {
    machine.live(action)
}

/// How many codes are left on the tape.
fn tape_left<A: Allocator>(machine: &Machine<A>) -> Option<usize> {
    let codes = machine.tape_left()?;
    Some(codes.len())
}

/// How many codes have passed the reader.
fn tape_passed<A: Allocator>(machine: &Machine<A>) -> Option<usize> {
    let codes = machine.tape_passed()?;
    Some(codes.len())
}

/// How many codes are printed, and the first one.
fn printed<A: Allocator>(machine: &Machine<A>) -> (usize, Option<Code>) {
    let codes = machine.printed();
    (codes.len(), codes.first().copied())
}

fn word_at<A: Allocator>(machine: &Machine<A>, at: u16) -> u32 {
    machine.word(address(at)).get()
}

fn parts_at<A: Allocator>(machine: &Machine<A>, at: u16) -> (bool, Op, Address) {
    machine.parts(address(at))
}

/// What shows in Normal, with all switches up and the reader off.
fn shown(
    counter: u16,
    accumulator: u32,
    register: u32,
    status: Status,
    clock: u64,
) -> Option<Look> {
    Some(Look {
        counter: address(counter),
        accumulator,
        register: Word::of_bits(register),
        status,
        mode: Mode::Normal,
        switches: Switches::default(),
        reader_on: false,
        clock,
    })
}

/// Puts words on the drum; whether all were put.
fn put_all<A: Allocator>(machine: &mut Machine<A>, words: &[(u16, u32)]) -> bool {
    for (at, bits) in words {
        if put(machine, *at, *bits).is_err() {
            return false;
        }
    }
    true
}

/// Mounts the tape of a text; whether it was taken.
fn mount_text<A: Allocator + Copy>(machine: &mut Machine<A>, alloc: A, text: &[u8]) -> bool {
    match read_tape_text(alloc, text) {
        Ok(codes) => mount(machine, codes).is_ok(),
        Err(_) => false,
    }
}

/// Mounts a tape of a given number of codes; `None` without memory.
fn mount_codes(
    machine: &mut Machine,
    global: Global,
    count: usize,
) -> Option<Result<(), (MountFault, usize)>> {
    let codes = vec![in global; Code::STOP; count].ok()?;
    Some(mount(machine, codes))
}

/// Presses START; whether it was live.
fn start<A: Allocator>(machine: &mut Machine<A>) -> bool {
    press(machine, Action::Start) == Ok(Pressed::Live)
}

/// A machine if it has been made ready.
fn if_ready<A: Allocator>(machine: Machine<A>, ready: bool) -> Option<Machine<A>> {
    if ready { Some(machine) } else { None }
}

/// A machine with these words.
fn with_words<A: Allocator + Copy>(alloc: A, words: &[(u16, u32)]) -> Option<Machine<A>> {
    let mut machine = Machine::new(alloc).ok()?;
    let ready = put_all(&mut machine, words);
    if_ready(machine, ready)
}

/// The same, started.
fn started<A: Allocator + Copy>(alloc: A, words: &[(u16, u32)]) -> Option<Machine<A>> {
    let mut machine = with_words(alloc, words)?;
    let ready = start(&mut machine);
    if_ready(machine, ready)
}

/// The same with the tape of a text.
fn with_tape<A: Allocator + Copy>(
    alloc: A,
    words: &[(u16, u32)],
    text: &[u8],
) -> Option<Machine<A>> {
    let mut machine = with_words(alloc, words)?;
    let ready = mount_text(&mut machine, alloc, text) && start(&mut machine);
    if_ready(machine, ready)
}

/// A print, and then an input.
const PRINT_AND_INPUT: [(u16, u32); 3] = [(0, PRINT), (1, 0x0008_0000), (2, 0x0004_0000)];

/// A machine that has printed a code, and has read three of five codes.
pub fn within_a_tape<A: Allocator + Copy>(alloc: A) -> Option<Machine<A>> {
    let mut machine = with_tape(alloc, &PRINT_AND_INPUT, b"12'3'")?;
    let ready = [
        next_order(&mut machine).is_ok(),
        next_order(&mut machine).is_ok(),
        next_order(&mut machine).is_ok(),
    ];
    if_ready(machine, ready == [true; 3])
}

/// A transfer to itself, one word time after its start.
fn within_an_order<A: Allocator + Copy>(alloc: A) -> Option<Machine<A>> {
    let mut machine = started(alloc, &[(0, TRANSFER)])?;
    let ready = turn(&mut machine) == Ok(false);
    if_ready(machine, ready)
}

/// Word times until one ends at a boundary or is refused: how many there were, and what the last one answered.
fn turns<A: Allocator>(machine: &mut Machine<A>, limit: u64) -> (u64, Result<bool, TurnFault>) {
    for count in 1..limit {
        let answer = turn(machine);
        if answer != Ok(false) {
            return (count, answer);
        }
    }
    (limit, turn(machine))
}
