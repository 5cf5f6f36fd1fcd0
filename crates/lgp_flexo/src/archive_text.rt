//! Texts of archives, read into codes.

ghost use Rattle.std.specs.Prelude.{◌≡◌, ◌==◌, ◌↔◌, ◌<◌, ◌≤◌, ℕ, Ok, Err, IfSome, IfOk, IsOkAnd, IsErrOf, length, vec_len, option_map, option_to_list, position};
ghost use Rattle.lgp_flexo.specs.Archive.{code_of_archived, codes_of_archive, codes_of_archived, lower_in_row, lower_sign};
ghost use Rattle.lgp_flexo.specs.PiecesInside.{archived_codes, archived_length};
ghost use Rattle.lgp_flexo.specs.TapeText.{tape_limit};

use crate::code::{Code, code_of};
use crate::pieces::{Piece, TextForm, code_of_group};
use crate::tape_text::{TextFault, read_text};
use std::alloc::Allocator;

/// The upper signs of the keys with two signs, but for those of the letters and of 0 and 1.
const UPPER_SIGNS: [u8; 14] = *b"*\"^%$~#(_=:?][";

/// The lower signs of the same keys.
const LOWER_SIGNS: [u8; 14] = *b"23456789-+;/.,";

/// The backspace of ASCII.
const BACKSPACE: u8 = 8;

/// The place of a sign in a row.
fn place_in_row(row: &[u8], sign: u8) -> Option<usize>
    ensures { result ≡ position (λ s. s == sign) row.now }
{
    row.iter().position(|s| *s == sign)
}

/// The lower sign of the key of an upper one of the row.
fn lower_in_row(sign: u8) -> Option<u8>
    ensures { result ≡ lower_in_row sign }
{
    let place = place_in_row(&UPPER_SIGNS, sign)?;
    LOWER_SIGNS.get(place).copied()
}

/// The lower sign of the key of a sign.
fn lower_sign(sign: u8) -> u8
    ensures { result ≡ lower_sign sign }
{
    lower_in_row(sign).unwrap_or(sign.to_ascii_lowercase())
}

/// The code of a sign, upper or lower.
fn code_of_archived(sign: u8) -> Option<Code>
    ensures { result ≡ code_of_archived sign }
{
    match sign {
        BACKSPACE => Code::new(20),
        b'\t' => Code::new(24),
        b'\r' => Some(Code::CARRIAGE_RETURN),
        b'|' => Code::new(12),
        _ => code_of(char::from(lower_sign(sign))),
    }
}

/// What a sign by itself stands for: nothing for a line feed, else its code.
fn codes_of_archived(sign: u8) -> Option<Option<Code>>
    ensures { option_map option_to_list result ≡ codes_of_archived sign }
{
    match sign {
        b'\n' => Some(None),
        _ => code_of_archived(sign).map(Some),
    }
}

/// The first piece of a text.
pub fn archived_piece(text: &[u8]) -> Option<Piece>
    requires { 0 < length text.now }
    ensures codes { option_map (λ piece. option_to_list piece.code) result
        ≡ archived_codes text.now }
    ensures past { IfSome result (λ piece. piece.past ≡ archived_length text.now) }
{
    match text {
        [b'!', tens, units, ..] => {
            let code = code_of_group(*tens, *units)?;
            Some(Piece {
                code: Some(code),
                past: 3,
            })
        }
        _ => {
            let code = codes_of_archived(text[0])?;
            Some(Piece { code, past: 1 })
        }
    }
}

/// Reads a tape's text as archives keep it: a sign stands for the code of its key, whether it is the upper or the lower one; the
/// backspace, tab and carriage return of ASCII and `|` (color shift) for those codes; `!` and two decimal digits from 00 to
/// 63 for the code of that number; a line feed for nothing. Memory is asked for only when the text is found to be in order.
pub fn read_archive_text<A: Allocator + Copy>(
    alloc: A,
    text: &[u8],
) -> Result<Vec<Code, A>, TextFault>
    ensures codes { IfOk result (λ codes. codes_of_archive text.now ≡ Ok codes.items) }
    ensures limit { IfOk result (λ codes. vec_len codes ≤ tape_limit) }
    ensures bad_sign { (place : ℕ)
        → IsErrOf result (TextFault.BadSign place) ↔ (codes_of_archive text.now ≡ Err place) }
    ensures too_long { IsErrOf result TextFault.TooLong
        ↔ IsOkAnd (codes_of_archive text.now) (λ codes. tape_limit < length codes) }
{
    read_text(alloc, TextForm::Archived, text)
}
