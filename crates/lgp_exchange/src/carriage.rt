//! The typewriter's carriage.

ghost use Rattle.std.specs.Prelude.{◌≡◌, ◌==◌, ◌++◌, ◌<◌, OnOk, length, position, slice_get};
ghost use Rattle.lgp_exchange.specs.Paper as spec;

use crate::archive_text::sign_byte;
use lgp_flexo::Code;
use std::alloc::{AllocError, Allocator};
use std::marker::Model;

/// The signs of the keys whose upper sign is known.
const LOWER: [u8; 41] = *b" 123456789-+;/.,abcdefghijkmnopqrstuvwxyz";

/// The upper signs of the same keys.
const UPPER: [u8; 41] = *b" L*\"^%$~#(_=:?][ABCDEFGHIJKMNOPQRSTUVWXYZ";

/// How many columns there are from a tab stop to the next.
const TAB: usize = 8;

/// The code of the space.
fn space() -> Code
    ensures { result ≡ spec.space_code }
{
    Code::new(3).unwrap()
}

/// The place of a sign in a row.
fn place_in_row(row: &[u8], sign: u8) -> Option<usize>
    ensures { result ≡ position (λ s. s == sign) row.now }
{
    row.iter().position(|s| *s == sign)
}

/// The sign at a place of a row.
fn sign_in_row(row: &[u8], place: usize) -> Option<u8>
    ensures { result ≡ slice_get row.now place }
{
    row.get(place).copied()
}

/// The upper sign of the key of a lower one, where it is known.
fn upper_sign(sign: u8) -> Option<u8>
    ensures { result ≡ spec.upper_sign sign }
{
    let place = place_in_row(&LOWER, sign)?;
    sign_in_row(&UPPER, place)
}

/// A code on the paper, and whether it was struck in upper case.
type Struck = (bool, Code);

/// Its sign, where that is known.
fn sign_struck(struck: Struck) -> Option<u8>
    ensures { result ≡ spec.sign_struck struck }
{
    let sign = sign_byte(struck.1)?;
    if struck.0 {
        upper_sign(sign)
    } else {
        Some(sign)
    }
}

/// Appends what is at one column: a sign, or a code as a group.
fn push_struck<A: Allocator>(text: &mut Vec<u8, A>, struck: Struck) -> Result<(), AllocError>
    ensures { OnOk result (text.new.items ≡ text.old.items ++ spec.struck_text struck) }
{
    let number = struck.1.number();
    match sign_struck(struck) {
        Some(sign) => text.push(sign)?,
        None => {
            text.extend_from_slice(&[b'[', b'0' + number / 10, b'0' + number % 10, b']'])?;
        }
    }
    Ok(())
}

/// The carriage: the case, the column it is at, and the row up to the column furthest to the right that it was at.
#[derive(Drop)]
pub struct Carriage<A: Allocator> {
    upper: bool,
    column: usize,
    row: Vec<Struck, A>,
}

impl<A: Allocator> Model for Carriage<A> {
    ghost use Rattle.std.specs.Prelude.{◌≤◌, vec_len};
    ghost use Rattle.lgp_exchange.specs.Paper.{Carriage};

    ghost Value = { Carriage };

    ghost view = { λ at. record { upper = at.upper; column = at.column; row = at.row.items } };

    ghost invariant = { λ at. at.column ≤ vec_len at.row };
}

impl<A: Allocator> Carriage<A> {
    /// A carriage at the start of an empty row, in lower case.
    pub fn new(alloc: A) -> Carriage<A>
        ensures { result ≡ spec.first_carriage }
    {
        Carriage {
            upper: false,
            column: 0,
            row: Vec::new(alloc),
        }
    }

    /// Puts a struck code at the column.
    fn mark(&mut self, code: Code) -> Result<(), AllocError>
        ensures struck { OnOk result (self.new ≡ record self.old {
          row = spec.row_struck self.old.row self.old.column (self.old.upper, code);
        }) }
        ensures within { OnOk result (self.new.column < length self.new.row) }
    {
        if self.column == self.row.len() {
            self.row.push((self.upper, code))?;
            return Ok(());
        }
        if code != space() {
            self.row[self.column] = (self.upper, code);
        }
        Ok(())
    }

    /// Strikes a code that has a sign, or no known effect.
    fn strike(&mut self, code: Code) -> Result<(), AllocError>
        ensures { OnOk result (self.new ≡ spec.struck_at self.old code) }
    {
        self.mark(code)?;
        self.column += 1;
        Ok(())
    }

    /// Goes to the next tab stop.
    fn tab(&mut self) -> Result<(), AllocError>
        ensures { OnOk result (self.new ≡ spec.tabbed self.old) }
    {
        let stop = (self.column / TAB + 1) * TAB;
        if self.row.len() < stop {
            self.row.resize(stop, (false, space()))?;
        }
        self.column = stop;
        Ok(())
    }

    /// What a code does with the carriage.
    #[tactic(auto, unfolding(crate::specs::Paper::carriage_after))]
    pub fn pass(&mut self, code: Code) -> Result<(), AllocError>
        ensures { OnOk result (self.new ≡ spec.carriage_after self.old code) }
    {
        match code.number() {
            0 | 12 | 63 => {}
            4 => self.upper = false,
            8 => self.upper = true,
            16 => {
                self.column = 0;
                self.row.clear();
            }
            20 => self.column = self.column.saturating_sub(1),
            24 => self.tab()?,
            _ => self.strike(code)?,
        }
        Ok(())
    }

    /// Appends the row.
    pub fn push_row<B: Allocator>(&self, text: &mut Vec<u8, B>) -> Result<(), AllocError>
        ensures { OnOk result (text.new.items ≡ text.old.items ++ spec.row_text self.now.row) }
    {
        for struck in &self.row {
            push_struck(text, *struck)?;
        }
        Ok(())
    }
}
