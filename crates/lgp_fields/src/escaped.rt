//! The bytes of a text, escaped so that they stand in one line and between quotation marks.

ghost use Rattle.std.specs.Prelude.{◌≡◌, ◌++◌, ◌<◌, OnOk};
ghost use Rattle.std.specs.List.{list_all};
ghost use Rattle.lgp_fields.specs.Escaped.{escaped, escaped_byte, hex_digit, is_itself};

use std::alloc::{AllocError, Allocator};

/// The digit of a value from 0 to 15 in base 16.
fn hex_digit(value: u8) -> u8
    requires { value < 16 }
    ensures { result ≡ hex_digit value }
{
    if value < 10 {
        b'0' + value
    } else {
        b'a' + (value - 10)
    }
}

/// Whether a byte is written as itself.
fn is_itself(byte: u8) -> bool
    ensures { result ≡ is_itself byte }
{
    byte != b'"' && byte != b'\\' && 32 <= byte && byte <= 126
}

/// Appends a byte of a text.
#[tactic(auto, unfolding(crate::specs::Escaped::escaped_byte))]
fn push_byte<A: Allocator>(text: &mut Vec<u8, A>, byte: u8) -> Result<(), AllocError>
    ensures { OnOk result (text.new.items ≡ text.old.items ++ escaped_byte byte) }
{
    if is_itself(byte) {
        return Ok(text.push(byte)?);
    }
    if byte == b'"' || byte == b'\\' {
        return text.extend_from_slice(&[b'\\', byte]);
    }
    let (high, low) = (hex_digit(byte / 16), hex_digit(byte % 16));
    text.extend_from_slice(&[b'\\', b'u', b'0', b'0', high, low])
}

/// Whether each byte of a text is written as itself.
fn are_themselves(bytes: &[u8]) -> bool
    ensures { result ≡ list_all is_itself bytes.now }
{
    bytes.iter().all(|byte| is_itself(*byte))
}

/// Appends the bytes of a text, those escaped that are no printed characters of ASCII, and quotation marks and backslashes.
#[tactic(auto, unfolding(crate::specs::Escaped::escaped))]
pub fn push_escaped<A: Allocator>(text: &mut Vec<u8, A>, bytes: &[u8]) -> Result<(), AllocError>
    ensures { OnOk result (text.new.items ≡ text.old.items ++ escaped bytes.now) }
{
    if are_themselves(bytes) {
        return text.extend_from_slice(bytes);
    }
    for byte in bytes {
        push_byte(text, *byte)?;
    }
    Ok(())
}
