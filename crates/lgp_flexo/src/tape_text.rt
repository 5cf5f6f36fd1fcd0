//! Tapes written as text.

ghost use Rattle.std.specs.Prelude.{◌≡◌, ◌↔◌, ◌<◌, ◌≤◌, ◌++◌, ℕ, Ok, Err, IfSome, IfOk, IsOkAnd, IsErrOf, length, vec_len, option_map, option_to_list};
ghost use Rattle.lgp_flexo.specs.Code.{IsCode};
ghost use Rattle.lgp_flexo.specs.TapeText.{codes_of_sign, codes_of_text, tape_limit, written_code, written_tape};
ghost use Rattle.lgp_flexo.specs.PiecesInside.{own_codes, own_length, rest_from};

use crate::code::{Code, code_of, sign_byte};
use crate::pieces::{Piece, TextForm, code_of_group, collect_codes, count_codes};
use std::alloc::{AllocError, Allocator};
use thiserror::Error;

/// The greatest number of codes on a tape.
pub const TAPE_LIMIT: usize = 1_048_576;

/// Why a text was not read as a tape.
#[derive(Debug, Drop, Error)]
pub enum TextFault {
    /// At this place, counted in bytes from 0, is neither a sign nor a group.
    #[error("neither a sign nor a group at byte {0}")]
    BadSign(usize),
    /// The text stands for more codes than a tape takes.
    #[error("more than {TAPE_LIMIT} codes")]
    TooLong,
    /// There was no memory for the codes.
    #[error(transparent)]
    Memory(AllocError),
}

/// What a sign by itself stands for: nothing at a line's end, else its code.
fn code_of_sign(sign: u8) -> Option<Option<Code>>
    ensures { option_map option_to_list result ≡ codes_of_sign sign }
{
    match sign {
        b'\n' | b'\r' => Some(None),
        _ => code_of(char::from(sign)).map(Some),
    }
}

/// The first piece of a text.
pub fn own_piece(text: &[u8]) -> Option<Piece>
    requires { 0 < length text.now }
    ensures codes { option_map (λ piece. option_to_list piece.code) result ≡ own_codes text.now }
    ensures past { IfSome result (λ piece. piece.past ≡ own_length text.now) }
{
    match text {
        [b'[', tens, units, b']', ..] => {
            let code = code_of_group(*tens, *units)?;
            Some(Piece {
                code: Some(code),
                past: 4,
            })
        }
        _ => {
            let code = code_of_sign(text[0])?;
            Some(Piece { code, past: 1 })
        }
    }
}

/// Reads a tape's text of a form. Memory is asked for only when the text is found to be in order.
pub fn read_text<A: Allocator + Copy>(
    alloc: A,
    form: TextForm,
    text: &[u8],
) -> Result<Vec<Code, A>, TextFault>
    ensures codes { IfOk result (λ codes. rest_from form text.now 0 ≡ Ok codes.items) }
    ensures limit { IfOk result (λ codes. vec_len codes ≤ tape_limit) }
    ensures bad_sign { (place : ℕ)
        → IsErrOf result (TextFault.BadSign place) ↔ (rest_from form text.now 0 ≡ Err place) }
    ensures too_long { IsErrOf result TextFault.TooLong
        ↔ IsOkAnd (rest_from form text.now 0) (λ codes. tape_limit < length codes) }
{
    let count = count_codes(form, text).map_err(TextFault::BadSign)?;
    if count > TAPE_LIMIT {
        return Err(TextFault::TooLong);
    }
    collect_codes(alloc, form, text, count).map_err(TextFault::Memory)
}

/// Reads a tape's text: a sign stands for its code, `l` for that of the digit 1, and a group `[nn]` of two decimal digits from 00
/// to 63 for the code of that number; line feeds and carriage returns stand for nothing. Memory is asked for only when the
/// text is found to be in order.
pub fn read_tape_text<A: Allocator + Copy>(alloc: A, text: &[u8]) -> Result<Vec<Code, A>, TextFault>
    ensures codes { IfOk result (λ codes. codes_of_text text.now ≡ Ok codes.items) }
    ensures limit { IfOk result (λ codes. vec_len codes ≤ tape_limit) }
    ensures bad_sign { (place : ℕ)
        → IsErrOf result (TextFault.BadSign place) ↔ (codes_of_text text.now ≡ Err place) }
    ensures too_long { IsErrOf result TextFault.TooLong
        ↔ IsOkAnd (codes_of_text text.now) (λ codes. tape_limit < length codes) }
{
    read_text(alloc, TextForm::Own, text)
}

/// Writes a code with a sign as that sign, any other as a group.
fn push_code<A: Allocator>(text: &mut Vec<u8, A>, code: Code) -> Result<(), AllocError>
    ensures ok { IfOk result (λ _. text.new.items ≡ text.old.items ++ written_code code) }
    ensures code { IsCode code }
{
    match sign_byte(code) {
        Some(sign) => text.push(sign)?,
        None => {
            let number = code.number();
            text.extend_from_slice(&[b'[', b'0' + number / 10, b'0' + number % 10, b']'])?;
        }
    }
    Ok(())
}

/// Writes a tape as text: a code with a sign as that sign, any other as a group `[nn]`. What is written reads back.
pub fn write_tape_text<A: Allocator + Copy>(
    alloc: A,
    codes: &[Code],
) -> Result<Vec<u8, A>, AllocError>
    ensures written { IfOk result (λ text. text.items ≡ written_tape codes.now) }
    ensures reads_back { IfOk result (λ text. codes_of_text text.items ≡ Ok codes.now) }
{
    let mut text = Vec::new(alloc);
    for code in codes {
        push_code(&mut text, *code)?;
    }
    Ok(text)
}
