//! Tapes as bytes, one for each code.

ghost use Rattle.std.specs.Prelude.{◌≡◌, ◌↔◌, ◌<◌, ◌≤◌, ℕ, Some, None, IfOk, OnOk, IsErrOf, All, length, vec_len};
ghost use Rattle.lgp_flexo.specs.Code.{IsCode};
ghost use Rattle.lgp_flexo.specs.TapeText.{tape_limit};
ghost use Rattle.lgp_exchange.specs.TapeBytes.{first_no_code};

use lgp_flexo::{Code, TAPE_LIMIT};
use std::alloc::{AllocError, Allocator};
use thiserror::Error;

/// Why bytes were not read as a tape.
#[derive(Debug, Drop, Error)]
pub enum BytesFault {
    /// The byte at this place, counted from 0, is above 63. It is the first such byte.
    #[error("the byte at {0} is above 63")]
    NoCode(usize),
    /// There are more bytes than a tape has codes.
    #[error("more than {TAPE_LIMIT} codes")]
    TooLong,
    /// There was no memory for the codes.
    #[error(transparent)]
    Memory(AllocError),
}

/// The bytes of a tape: for each code one byte, its number. Only memory can be refused.
pub fn tape_bytes<A: Allocator>(alloc: A, codes: &[Code]) -> Result<Vec<u8, A>, AllocError>
    ensures bytes { IfOk result (λ bytes. bytes.items ≡ codes.now) }
    ensures codes { OnOk result (All IsCode codes.now) }
{
    let mut bytes = Vec::with_capacity(alloc, codes.len())?;
    for code in codes {
        bytes.push(code.number())?;
    }
    Ok(bytes)
}

/// The place of the first byte above 63.
fn first_no_code(bytes: &[u8]) -> Option<usize>
    ensures { result ≡ first_no_code bytes.now }
{
    bytes.iter().position(|byte| *byte > 63)
}

/// The codes of bytes that are at most 63.
fn collect_codes<A: Allocator>(alloc: A, bytes: &[u8]) -> Result<Vec<Code, A>, AllocError>
    requires { first_no_code bytes.now ≡ None }
    ensures { IfOk result (λ codes. codes.items ≡ bytes.now) }
{
    let mut codes = Vec::with_capacity(alloc, bytes.len())?;
    for byte in bytes {
        let Some(code) = Code::new(*byte) else {
            unreachable!();
        };
        codes.push(code)?;
    }
    Ok(codes)
}

/// Reads the bytes of a tape, each from 0 to 63 the number of a code. `NoCode` at the first byte above 63; else `TooLong` for more
/// than 1,048,576 bytes. Memory is asked for only when the bytes are found to be in order.
pub fn read_tape_bytes<A: Allocator>(alloc: A, bytes: &[u8]) -> Result<Vec<Code, A>, BytesFault>
    ensures codes { IfOk result (λ codes. codes.items ≡ bytes.now) }
    ensures limit { IfOk result (λ codes. vec_len codes ≤ tape_limit) }
    ensures no_code { (place : ℕ)
        → IsErrOf result (BytesFault.NoCode place) ↔ (first_no_code bytes.now ≡ Some place) }
    ensures too_long { IsErrOf result BytesFault.TooLong
        ↔ ((first_no_code bytes.now ≡ None) × (tape_limit < length bytes.now)) }
{
    if let Some(place) = first_no_code(bytes) {
        return Err(BytesFault::NoCode(place));
    }
    if bytes.len() > TAPE_LIMIT {
        return Err(BytesFault::TooLong);
    }
    collect_codes(alloc, bytes).map_err(BytesFault::Memory)
}
