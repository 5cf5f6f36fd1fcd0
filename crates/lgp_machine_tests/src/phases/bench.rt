//! A processor on a bench: its state before worked orders and after each.

use crate::{at, word};
use lgp_drum::Drum;
use lgp_flexo::{Code, read_tape_text};
use lgp_phases::{Ahead, Outcome, Processor, Progress, ahead};
use lgp_reader::Reader;
use lgp_table::{Mode, Panel, Status, Switches};
use lgp_word::{Address, Op, write_digits};
use std::alloc::Allocator;
use std::marker::Model;

/// How an activity is performed.
#[derive(Clone, Copy, Debug, PartialEq, Eq)]
pub enum Way {
    /// By its word times.
    WordTimes,
    /// In one call.
    OneCall,
    /// As a short order where it is one, else in one call.
    Short,
}

/// A word on the drum: its address and its digits.
pub type Cell = ([u8; 4], [u8; 8]);

/// The state of a machine before worked orders and after each, and a word that is then on the drum. The reader is on where the
/// tape is read from the console.
#[derive(Clone, Copy)]
pub struct Case<'a, 'b> {
    pub cells: &'a [Cell],
    pub tape: &'a [u8],
    pub counter: [u8; 4],
    pub register: [u8; 8],
    pub accumulator: u32,
    pub status: Status,
    pub mode: Mode,
    pub switches: Switches,
    pub ends: &'b [End],
    pub stored: Cell,
}

/// The state of a machine after an activity: clock, status, counter, register, accumulator and tape.
pub type End = (u64, Status, [u8; 4], [u8; 8], u32, Taped);

/// The number of the code that an activity printed; then whether the reader is on, and how many codes are left.
pub type Taped = (Option<u8>, bool, usize);

/// Nothing printed, the reader off, and no code left.
pub const NO_TAPE: Taped = (None, false, 0);

/// Every switch is up.
pub const UP: Switches = Switches {
    b32: false,
    b16: false,
    b8: false,
    b4: false,
    transfer: false,
    six_bit: false,
};

/// A machine in Normal that begins the order at 0000, all else blank.
pub const CASE: Case = Case {
    cells: &[],
    tape: b"",
    counter: *b"0000",
    register: *b"00000000",
    accumulator: 0,
    status: Status::Going,
    mode: Mode::Normal,
    switches: UP,
    ends: &[],
    stored: (*b"6363", *b"00000000"),
};

/// A drum with these words.
fn drum_of<A: Allocator + Copy>(alloc: A, cells: &[Cell]) -> Option<Drum<A>> {
    let mut drum = Drum::new(alloc).ok()?;
    for (address, digits) in cells {
        drum.put(at(address), word(digits));
    }
    Some(drum)
}

/// Puts these codes in the reader, and switches it on where the tape is read from the console; whether they were taken.
fn load<A: Allocator>(reader: &mut Reader<A>, codes: Vec<Code, A>, status: Status) -> bool {
    let taken = reader.mount(codes).is_ok();
    if status == Status::Reading {
        reader.start();
    }
    taken
}

/// A reader with the tape of a case.
fn reader_of<A: Allocator + Copy>(alloc: A, case: &Case) -> Option<Reader<A>> {
    let codes = read_tape_text(alloc, case.tape).ok()?;
    let mut reader = Reader::new(alloc);
    if load(&mut reader, codes, case.status) {
        Some(reader)
    } else {
        None
    }
}

/// The registers of a case.
fn panel_of(case: &Case) -> Panel {
    Panel {
        counter: at(&case.counter),
        accumulator: case.accumulator,
        register: word(&case.register),
        status: case.status,
        mode: case.mode,
        switches: case.switches,
    }
}

/// A processor with its registers, drum, reader and clock.
pub struct Bench<A: Allocator> {
    panel: Panel,
    drum: Drum<A>,
    reader: Reader<A>,
    processor: Processor<A>,
    clock: u64,
}

// Written out: a derived drop is copied to each place where one is dropped.
impl<A: Allocator> Drop for Bench<A> {
    fn drop(self) {
        let Bench {
            panel: _,
            drum: _,
            reader: _,
            processor: _,
            clock: _,
        } = self;
    }
}

impl<A: Allocator> Model for Bench<A> {
    ghost use Rattle.std.specs.Prelude.{ℕ};
    ghost use Rattle.lgp_table.specs.State.{core_of};
    ghost use Rattle.lgp_phases.specs.Decoded.{AreWordsOf};
    ghost use Rattle.lgp_phases.specs.Processor.{IsWithin};

    ghost Value = { ℕ };

    ghost view = { λ bench. bench.clock };

    ghost invariant = { λ bench.
        IsWithin bench.processor (core_of bench.panel bench.drum bench.reader) bench.clock
        × AreWordsOf bench.processor.decoded bench.drum };
}

impl<A: Allocator + Copy> Bench<A> {
    /// The bench of a case, at clock 0.
    pub fn new(alloc: A, case: &Case) -> Option<Bench<A>> {
        let panel = panel_of(case);
        let Ok(processor) = Processor::new(alloc) else {
            return None;
        };
        let drum = drum_of(alloc, case.cells)?;
        let reader = reader_of(alloc, case)?;
        Some(Bench {
            panel,
            drum,
            reader,
            processor,
            clock: 0,
        })
    }

    /// Goes on with a copy of the processor; whether there is one.
    pub fn copy(&mut self) -> bool {
        match self.processor.copy() {
            Ok(copy) => {
                self.processor = copy;
                true
            }
            Err(_) => false,
        }
    }
}

impl<A: Allocator> Bench<A> {
    /// The activity that begins here in one call.
    fn at_once(&mut self) -> Option<Outcome> {
        if !self.processor.is_idle() {
            return None;
        }
        let outcome = self.processor.activity(
            &mut self.panel,
            &mut self.drum,
            &mut self.reader,
            self.clock,
        );
        self.clock = self.clock.checked_add(outcome.cost)?;
        Some(outcome)
    }

    /// The short order that begins here, or else the activity in one call.
    fn short(&mut self) -> Option<Outcome> {
        if !self.processor.is_idle() {
            return None;
        }
        let Some(short) = self.processor.short_order(&self.panel, self.clock) else {
            return self.at_once();
        };
        let cost = short.cost;
        self.processor
            .perform_short(&mut self.panel, &mut self.drum, &short);
        self.clock = self.clock.checked_add(cost)?;
        Some(Outcome {
            cost,
            status: self.panel.status,
            printed: None,
        })
    }

    /// One activity, and the state of the machine after it; `None` where it is not as foretold.
    pub fn activity(&mut self, way: Way) -> Option<End> {
        let outcome = match way {
            Way::WordTimes => self.order()?,
            Way::OneCall => self.at_once()?,
            Way::Short => self.short()?,
        };
        Some(self.end(&outcome))
    }

    /// The parts of the word that is kept decoded at an address.
    pub fn decoded(&self, text: &[u8; 4]) -> Option<(bool, Op, Address)> {
        self.processor.decoded(at(text))
    }

    /// Forgets what is decoded.
    pub fn clear(&mut self) {
        self.processor.clear();
    }

    /// What the activity that begins here will cost and print.
    fn ahead(&self) -> Ahead {
        ahead(&self.panel, &self.drum, &self.reader, self.clock)
    }

    /// Whether the next word time prints.
    pub fn prints_next(&self) -> bool {
        self.processor
            .prints_next(&self.panel, &self.drum, &self.reader, self.clock)
    }

    /// One word time; none at the last clock.
    pub fn turn(&mut self) -> Progress {
        let Some(next) = self.clock.checked_add(1) else {
            return Progress::More;
        };
        let progress = self.processor.word_time(
            &mut self.panel,
            &mut self.drum,
            &mut self.reader,
            self.clock,
        );
        self.clock = next;
        progress
    }

    /// All but the last of a given number of word times, if each answers that the activity goes on and none prints.
    pub fn turns_before(&mut self, cost: u64) -> bool {
        for _ in 1..cost {
            if self.prints_next() || self.turn() != Progress::More || self.processor.is_idle() {
                return false;
            }
        }
        true
    }

    /// One activity by its word times, if it is as it was predicted and prints in the last of them.
    fn order(&mut self) -> Option<Outcome> {
        let predicted = self.ahead();
        if !self.turns_before(predicted.cost) || self.prints_next() != predicted.prints.is_some() {
            return None;
        }
        match self.turn() {
            Progress::Done(outcome)
                if outcome.cost == predicted.cost
                    && outcome.printed == predicted.prints
                    && outcome.status == self.panel.status
                    && self.processor.is_idle() => { Some(outcome) }
            _ => None,
        }
    }

    /// Whether this word is on the drum.
    fn holds(&self, cell: &Cell) -> bool {
        self.drum.word(at(&cell.0)) == word(&cell.1)
    }

    /// The state of the machine after an activity of this outcome.
    fn end(&self, outcome: &Outcome) -> End {
        (
            self.clock,
            outcome.status,
            self.panel.counter.print(),
            write_digits(self.panel.register),
            self.panel.accumulator,
            (
                outcome.printed.map(Code::number),
                self.reader.is_on(),
                self.reader.left().len(),
            ),
        )
    }
}

/// Whether all went as a case says; or else the way, and the state after the first activity that ends in another one, or `None`
/// where an activity is not as foretold or another word is then on the drum.
pub type Performed = Result<(), (Way, Option<End>)>;

/// Performs the activities of a case.
fn perform_to<A: Allocator>(bench: &mut Bench<A>, case: &Case, way: Way) -> Performed {
    for end in case.ends {
        let seen = bench.activity(way);
        if seen != Some(*end) {
            return Err((way, seen));
        }
    }
    if bench.holds(&case.stored) {
        Ok(())
    } else {
        Err((way, None))
    }
}

/// The same on a bench of its own.
fn perform<A: Allocator + Copy>(alloc: A, case: &Case, way: Way) -> Performed {
    match Bench::new(alloc, case) {
        Some(mut bench) => perform_to(&mut bench, case, way),
        None => Err((way, None)),
    }
}

/// Performs the activities of a case in each way.
pub fn perform_all<A: Allocator + Copy>(alloc: A, case: &Case) -> Performed {
    perform(alloc, case, Way::WordTimes)?;
    perform(alloc, case, Way::OneCall)?;
    perform(alloc, case, Way::Short)
}
