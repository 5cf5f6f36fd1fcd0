//! The reader with its tape.

ghost use Rattle.std.specs.Prelude.{◌≡◌, ◌↔◌, ◌<◌, ◌≤◌, ◌++◌, [], true, false, length, drop, take, slice_get, vec_len, IsErr, IsTrue, IfErr, IfOk, OnOk, OnErr};
ghost use Rattle.std.specs.Bool.{OnFalse, OnTrue};
ghost use Rattle.lgp_flexo.specs.Input.{accumulator_after_all, left_after, met_stop, passed_codes};
ghost use Rattle.lgp_flexo.specs.Tape.{all_codes, fresh_tape, input_done, passing, tape_after_input, tape_at, tape_before};
ghost use Rattle.lgp_flexo.specs.TapeText.{tape_limit};

use lgp_flexo::{Code, TAPE_LIMIT, enter, skipped};
use std::alloc::{AllocError, Allocator, Global};
use std::marker::Model;

/// What an input entered, and whether a conditional stop ended it.
#[derive(Clone, Copy, Debug, PartialEq, Eq)]
pub struct Input {
    /// The accumulator after the input.
    pub accumulator: u32,
    /// Whether a conditional stop ended the input.
    pub done: bool,
}

/// A tape reader. It is on or off, and the codes of its tape pass one after another. Clauses see the tape: on or off, the
/// codes that have passed since it was mounted, and those that are left.
#[derive(Drop)]
pub struct Reader<A: Allocator = Global> {
    codes: Vec<Code, A>,
    passed: usize,
    on: bool,
}

impl<A: Allocator> Model for Reader<A> {
    ghost use Rattle.std.specs.Prelude.{◌≤◌, vec_len};
    ghost use Rattle.lgp_flexo.specs.TapeText.{tape_limit};
    ghost use Rattle.lgp_flexo.specs.Tape.{Tape, tape_at};

    ghost Value = { Tape };

    ghost view = { λ reader. tape_at reader.on reader.codes.items reader.passed };

    ghost invariant = { λ reader.
        (reader.passed ≤ vec_len reader.codes) × (vec_len reader.codes ≤ tape_limit) };
}

impl<A: Allocator + Copy> Reader<A> {
    /// A reader that is off and has no tape.
    pub fn new(alloc: A) -> Reader<A>
        ensures { result ≡ fresh_tape [] }
    {
        Reader {
            codes: Vec::new(alloc),
            passed: 0,
            on: false,
        }
    }
}

impl<A: Allocator> Reader<A> {
    /// Puts a tape in, in place of the one that is there; the reader is off then. A tape of more than 1,048,576 codes is
    /// handed back.
    pub fn mount(&mut self, codes: Vec<Code, A>) -> Result<(), Vec<Code, A>>
        ensures mounted { OnOk result (self.new ≡ fresh_tape codes.items) }
        ensures too_long { IsErr result ↔ (tape_limit < vec_len codes) }
        ensures handed_back { IfErr result (λ back. back ≡ codes) }
        ensures unchanged { OnErr result (self.new ≡ self.old) }
    {
        if codes.len() > TAPE_LIMIT {
            return Err(codes);
        }
        self.codes = codes;
        self.passed = 0;
        self.stop();
        Ok(())
    }

    /// Puts a tape in of which the first codes, this many, count as passed. Whether the reader is on stays.
    pub fn set(&mut self, codes: Vec<Code, A>, passed: usize)
        requires within { passed ≤ vec_len codes }
        requires short { vec_len codes ≤ tape_limit }
        ensures { self.new ≡ tape_at self.old.on codes.items passed }
    {
        self.codes = codes;
        self.passed = passed;
    }

    /// Switches the reader on.
    pub fn start(&mut self)
        ensures { self.new ≡ record self.old { on = true } }
    {
        self.on = true;
    }

    /// Switches the reader off.
    pub fn stop(&mut self)
        ensures { self.new ≡ record self.old { on = false } }
    {
        self.on = false;
    }

    /// Whether the reader is on.
    pub fn is_on(&self) -> bool
        ensures on { result ≡ self.now.on }
        ensures few { length self.now.left ≤ tape_limit }
    {
        self.on
    }

    /// The codes that have not passed yet.
    pub fn left(&self) -> &[Code]
        ensures codes { result.now ≡ self.now.left }
        ensures few { length self.now.left ≤ tape_limit }
    {
        &self.codes[self.passed..]
    }

    /// The codes that have passed since the tape was mounted.
    pub fn passed(&self) -> &[Code]
        ensures codes { result.now ≡ self.now.passed }
        ensures few { length (all_codes self.now) ≤ tape_limit }
    {
        &self.codes[..self.passed]
    }

    /// Moves the tape back by a given number of codes, which are then left again. False, and nothing changes, where fewer have passed.
    pub fn back_up(&mut self, count: usize) -> bool
        ensures answer { IsTrue result ↔ (count ≤ length self.old.passed) }
        ensures moved { OnTrue result (self.new ≡ tape_before self.old count) }
        ensures unchanged { OnFalse result (self.new ≡ self.old) }
    {
        if count > self.passed {
            return false;
        }
        self.passed -= count;
        true
    }

    /// Lets the next code pass, on or off; `None` at the tape's end, where nothing changes.
    pub fn pass(&mut self) -> Option<Code>
        ensures next { result ≡ slice_get self.old.left 0 }
        ensures moved { self.new ≡ record self.old {
          passed = self.old.passed ++ take 1 self.old.left;
          left = drop 1 self.old.left;
        } }
    {
        let code = self.codes.get(self.passed).copied()?;
        self.passed += 1;
        Some(code)
    }

    /// How many codes an input would pass: with the reader on those up to and with the first conditional stop, or all that are
    /// left; none with the reader off.
    pub fn passing(&self) -> usize
        ensures count { result ≡ length (passing self.now) }
        ensures few { result ≤ tape_limit }
    {
        if self.on { stop_length(self.left()) } else { 0 }
    }

    /// Performs an input: passes those codes and switches the reader off. Answers the accumulator after the codes that enter, and
    /// whether a conditional stop ended the input.
    pub fn pass_input(&mut self, six_bit: bool, accumulator: u32) -> Input
        ensures accumulator { result.accumulator
            ≡ accumulator_after_all six_bit accumulator (passing self.old) }
        ensures done { result.done ≡ input_done self.old }
        ensures tape { self.new ≡ tape_after_input self.old }
    {
        if !self.is_on() {
            return Input {
                accumulator,
                done: false,
            };
        }
        let entered = pass_codes(self, six_bit, accumulator);
        self.stop();
        entered
    }
}

impl<A: Allocator + Clone> Reader<A> {
    /// A reader with the same tape, as far on, and on or off alike.
    pub fn copy(&self) -> Result<Reader<A>, AllocError>
        ensures { IfOk result (λ copy. copy ≡ self.now) }
    {
        let codes = Vec::from_slice(self.codes.allocator().clone()?, self.codes.as_slice())?;
        Ok(Reader {
            codes,
            passed: self.passed,
            on: self.on,
        })
    }
}

/// How many codes there are up to and with the first conditional stop, or in all.
fn stop_length(codes: &[Code]) -> usize
    ensures count { result ≡ length (passed_codes codes.now) }
    ensures within { result ≤ length codes.now }
{
    for (place, code) in codes.iter().enumerate() {
        if *code == Code::STOP {
            return place + 1;
        }
    }
    codes.len()
}

/// Passes the codes up to and with the first conditional stop, or all that are left, and enters them.
fn pass_codes<A: Allocator>(reader: &mut Reader<A>, six_bit: bool, mut accumulator: u32) -> Input
    ensures accumulator { result.accumulator
        ≡ accumulator_after_all six_bit accumulator (passed_codes reader.old.left) }
    ensures done { result.done ≡ met_stop reader.old.left }
    ensures tape { reader.new ≡ record reader.old {
      passed = reader.old.passed ++ passed_codes reader.old.left;
      left = left_after reader.old.left;
    } }
{
    while let Some(code) = reader.pass() {
        if code == Code::STOP {
            return Input {
                accumulator,
                done: true,
            };
        }
        if !skipped(code) {
            accumulator = enter(six_bit, accumulator, code);
        }
    }
    Input {
        accumulator,
        done: false,
    }
}
