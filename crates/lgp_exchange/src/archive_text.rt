//! Tapes written as texts of archives.

ghost use Rattle.std.specs.Prelude.{◌≡◌, ◌++◌, Ok, IfOk, OnOk};
ghost use Rattle.lgp_flexo.specs.Archive.{codes_of_archive};
ghost use Rattle.lgp_flexo.specs.Code.{IsCode, sign_at};
ghost use Rattle.lgp_exchange.specs.ArchiveText.{archive_byte, archived_code, archived_tape};

use lgp_flexo::{Code, sign_of};
use std::alloc::{AllocError, Allocator};

/// The sign of a code as a byte, if it has a sign.
pub(crate) fn sign_byte(code: Code) -> Option<u8>
    ensures { result ≡ sign_at code }
{
    let sign = sign_of(code)?;
    Some(sign as u8)
}

/// The byte that stands for a code, if there is one: the sign, and `|`, carriage return and tab for color, carriage return and tab.
fn archive_byte(code: Code) -> Option<u8>
    ensures { result ≡ archive_byte code }
{
    match code.number() {
        12 => Some(b'|'),
        16 => Some(b'\r'),
        24 => Some(b'\t'),
        _ => sign_byte(code),
    }
}

/// Appends a code by its byte, or else as a group.
fn push_code<A: Allocator>(text: &mut Vec<u8, A>, code: Code) -> Result<(), AllocError>
    ensures written { OnOk result (text.new.items ≡ text.old.items ++ archived_code code) }
    ensures code { IsCode code }
{
    let number = code.number();
    match archive_byte(code) {
        Some(byte) => text.push(byte)?,
        None => text.extend_from_slice(&[b'!', b'0' + number / 10, b'0' + number % 10])?,
    }
    Ok(())
}

/// Writes a tape as archives keep it, so that SIMH's reader and `read_archive_text` read these very codes: a code with a sign as
/// that sign, `|` for color, a carriage return and a tab for those codes, and `!` and two decimal digits for any other. That is what
/// SIMH punches, except for blank tape, lower and upper case, backspace and delete: SIMH reads the bytes that it punches for these as
/// something else. Only memory can be refused.
pub fn write_archive_text<A: Allocator>(alloc: A, codes: &[Code]) -> Result<Vec<u8, A>, AllocError>
    ensures written { IfOk result (λ text. text.items ≡ archived_tape codes.now) }
    ensures reads_back { IfOk result (λ text. codes_of_archive text.items ≡ Ok codes.now) }
{
    let mut text = Vec::new(alloc);
    for code in codes {
        push_code(&mut text, *code)?;
    }
    Ok(text)
}
