//! Tapes and loads of small programs, by both loaders.

use crate::{CLOCK_END, address, at, expect_eq, word};
use lgp_assembler::{Image, assemble};
use lgp_flexo::{Code, write_tape_text};
use lgp_keyin::{actions_to_jump, key_in};
use lgp_loader::{
    CutFault, LOADER, LOADER_10, LoadFault, load, load_cut, load_single, single_tape_of, tape_cut,
    tape_of,
};
use lgp_machine::{Look, Machine};
use lgp_table::{Action, Cause, Mode, Status, Switches};
use lgp_word::{Address, Word, write_digits};
use std::alloc::{AllocError, Allocator, Global};

mod growths;
mod loads;
mod refusals;
mod sizes;
mod tapes;

/// One word at 0100.
const ONE_WORD: &[u8] = b" org 0100\n word 00000004\n end\n";

/// Two words at 0100 and 0101.
const TWO_WORDS: &[u8] = b" org 0100\n word 00000004\n word 00000008\n end\n";

/// Two words at 0100 and 0101, one at 0104, and one at 0103.
const TWO_PLACES: &[u8] =
    b" org 0100\n word 00000004\n word 00000008\n org 0104\n word 0000000j\n org 0103\n word 00000010\n end\n";

const FIVE_LINES: &[u8] = b"start b one ; take\n h 0050\n z\none frac .1\n end start\n";

/// No word, and no start.
const NO_WORDS: &[u8] = b" end\n";

/// How a program is loaded: in the longest blocks, in blocks of these lengths, or cell by cell.
#[derive(Clone, Copy)]
enum Way<'a> {
    Longest,
    Cut(&'a [usize]),
    Single,
}

// The calls without their contracts, which would fill the context of each test.

/// The image of a source; `None` where it has faults, or without memory.
pub fn image<A: Allocator + Copy>(alloc: A, source: &[u8]) -> Option<Image<A>> {
    assemble(alloc, source).ok()
}

fn tape_by<A: Allocator + Copy>(
    alloc: A,
    image: &Image,
    way: Way,
) -> Result<Vec<Code, A>, CutFault> {
    let tape = match way {
        Way::Longest => tape_of(alloc, image),
        Way::Cut(counts) => return tape_cut(alloc, image, counts),
        Way::Single => single_tape_of(alloc, image),
    };
    tape.map_err(|_| CutFault::Memory)
}

fn load_by<A: Allocator + Copy>(
    alloc: A,
    machine: &mut Machine<A>,
    image: &Image,
    way: Way,
) -> Result<u64, LoadFault> {
    match way {
        Way::Longest => load(alloc, machine, image),
        Way::Cut(counts) => load_cut(alloc, machine, image, counts),
        Way::Single => load_single(alloc, machine, image),
    }
}

fn look<A: Allocator>(machine: &Machine<A>) -> Option<Look> {
    machine.look()
}

fn press<A: Allocator>(machine: &mut Machine<A>, actions: &[Action]) {
    for action in actions {
        let _ = machine.press(*action);
    }
}

/// Where a machine is: how many word times it has been at rest, and whether it is within an order then.
type Stand = (u64, bool);

/// A new machine.
const NEW: Stand = (0, false);

/// Brings a new machine there; false where that is refused.
fn set_up<A: Allocator>(machine: &mut Machine<A>, (clock, is_within): Stand) -> bool {
    if machine.rest(clock).is_err() {
        return false;
    }
    if !is_within {
        return true;
    }
    press(machine, &[Action::Start]);
    machine.turn().is_ok()
}

/// A machine that is there.
fn machine_at<A: Allocator + Copy>(alloc: A, stand: Stand) -> Option<Machine<A>> {
    let mut machine = Machine::new(alloc).ok()?;
    if set_up(&mut machine, stand) {
        Some(machine)
    } else {
        None
    }
}

/// Whether the drum has these digits at these places.
fn has_words(machine: &Machine, wanted: &[(&[u8], &[u8])]) -> bool {
    for (place, digits) in wanted {
        if machine.word(at(place)) != word(digits) {
            return false;
        }
    }
    true
}

/// A machine stopped at the boundary of this counter in Normal, with the reader off, and the word of these digits in accumulator
/// and register.
fn stopped(counter: &[u8], digits: &[u8], switches: Switches, clock: u64) -> Option<Look> {
    Some(Look {
        counter: at(counter),
        accumulator: word(digits).get(),
        register: word(digits),
        status: Status::Halted(Cause::Stop),
        mode: Mode::Normal,
        switches,
        reader_on: false,
        clock,
    })
}

/// Whether the words of a loader have these digits, each with a blank after it.
fn are_words(loader: &[Word], wanted: &[u8]) -> bool {
    let mut left = wanted;
    for word in loader {
        match left.strip_prefix(write_digits(*word).as_slice()) {
            Some([b' ', rest @ ..]) => left = rest,
            _ => return false,
        }
    }
    left.is_empty()
}

/// A program, how it is loaded, and on which machine.
type Task<'a> = (&'a [u8], Way<'a>, Stand);

/// What a load answers, what shows then, and whether given words are at their places.
type Loaded = (Result<u64, LoadFault>, Option<Look>, bool);

fn load_on(
    alloc: Global,
    machine: &mut Machine,
    (image, way): (&Image, Way),
    words: &[(&[u8], &[u8])],
) -> Loaded {
    let answer = load_by(alloc, machine, image, way);
    (answer, look(machine), has_words(machine, words))
}

/// The same of a program, on a machine of its own.
fn loaded(alloc: Global, (source, way, stand): Task, words: &[(&[u8], &[u8])]) -> Option<Loaded> {
    let image = image(alloc, source)?;
    let mut machine = machine_at(alloc, stand)?;
    Some(load_on(alloc, &mut machine, (&image, way), words))
}

/// How long the tape of an image is, or why it is not cut.
fn tape_length<A: Allocator + Copy>(alloc: A, image: &Image, way: Way) -> Result<usize, CutFault> {
    match tape_by(alloc, image, way) {
        Ok(tape) => Ok(tape.len()),
        Err(fault) => Err(fault),
    }
}

const BLOCK_LOADER: &[u8] =
    b"00080000 00040000 000g3w48 000j3w24 00080000 00040000 000j3w54 00080000 00040000 00000000 00013w24 \
000q3w50 000j3w24 00013w54 000q3w50 000j3w54 000g3w1j 000f3w00 000j3w4j 00000000 00000004 00000000 ";

const SINGLE_LOADER: &[u8] =
    b"00080000 00040000 000g3w20 000j3w18 00080000 00040000 00000000 000f3w00 000j3w24 00000000 ";

#[test]
fn the_words_of_the_loaders(rt: HostRuntime) {
    let found = [
        are_words(&LOADER, BLOCK_LOADER),
        are_words(&LOADER_10, SINGLE_LOADER),
    ];
    expect_eq(&rt, found, [true; 2]);
}
