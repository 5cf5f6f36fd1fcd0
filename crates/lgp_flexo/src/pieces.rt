//! Texts that stand for a tape, read piece by piece.

ghost use Rattle.std.specs.Prelude.{◌≡◌, ◌<◌, Ok, Err, IfSome, IfNone, IfOk, length, option_map, option_to_list};
ghost use Rattle.lgp_flexo.specs.TapeText.{before, code_of_group};
ghost use Rattle.lgp_flexo.specs.PiecesInside.{counted, first_codes, piece_length, rest_from};

use crate::archive_text::archived_piece;
use crate::code::Code;
use crate::tape_text::own_piece;
use lgp_word::read_decimal;
use std::alloc::{AllocError, Allocator};

/// A form in which a text stands for a tape.
#[derive(Clone, Copy)]
pub enum TextForm {
    /// The form of this project's own.
    Own,
    /// The form of archives.
    Archived,
}

/// A piece of a text: what it stands for, and the place past it.
#[derive(Drop)]
pub struct Piece {
    pub code: Option<Code>,
    pub past: usize,
}

/// The code of a group of these two digits.
pub fn code_of_group(tens: u8, units: u8) -> Option<Code>
    ensures { result ≡ code_of_group tens units }
{
    let number = read_decimal(&[tens, units], 2)?;
    Code::new(number as u8)
}

/// The first piece of a text.
fn first_piece(form: TextForm, text: &[u8]) -> Option<Piece>
    requires { 0 < length text.now }
    ensures codes { option_map (λ piece. option_to_list piece.code) result
        ≡ first_codes form text.now }
    ensures past { IfSome result (λ piece. piece.past ≡ piece_length form text.now) }
{
    match form {
        TextForm::Own => own_piece(text),
        TextForm::Archived => archived_piece(text),
    }
}

/// The piece that begins at a place of a text.
fn piece_from(form: TextForm, text: &[u8], place: usize) -> Option<Piece>
    requires { place < length text.now }
    ensures none { IfNone result (rest_from form text.now place ≡ Err place) }
    ensures some { IfSome result (λ piece. rest_from form text.now place
        ≡ before (option_to_list piece.code) (rest_from form text.now piece.past)) }
    ensures onward { IfSome result (λ piece. place < piece.past) }
{
    let piece = first_piece(form, &text[place..])?;
    Some(Piece {
        code: piece.code,
        past: place + piece.past,
    })
}

/// How many codes a text stands for, or its first bad place.
#[tactic(auto, using(crate::proofs::Reading::rest_from_end))]
pub fn count_codes(form: TextForm, text: &[u8]) -> Result<usize, usize>
    ensures { result ≡ counted (rest_from form text.now 0) }
{
    let mut count = 0;
    let mut place = 0;
    while place < text.len() {
        let Some(piece) = piece_from(form, text, place) else {
            return Err(place);
        };
        if piece.code.is_some() {
            count += 1;
        }
        place = piece.past;
    }
    Ok(count)
}

/// The codes of a text that is in order and stands for this many.
pub fn collect_codes<A: Allocator + Copy>(
    alloc: A,
    form: TextForm,
    text: &[u8],
    count: usize,
) -> Result<Vec<Code, A>, AllocError>
    requires { counted (rest_from form text.now 0) ≡ Ok count }
    ensures { IfOk result (λ codes. rest_from form text.now 0 ≡ Ok codes.items) }
{
    let mut codes = Vec::with_capacity(alloc, count)?;
    let mut place = 0;
    while place < text.len() {
        let Some(piece) = piece_from(form, text, place) else {
            unreachable!();
        };
        if let Some(code) = piece.code {
            codes.push(code)?;
        }
        place = piece.past;
    }
    Ok(codes)
}
