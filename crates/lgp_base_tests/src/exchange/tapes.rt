//! Tapes as texts of archives and as bytes.

use super::*;
use crate::growths::{Made, is_tape_of_bytes, is_written};
use crate::text_of;
use lgp_limited::Limited;

/// The bytes that stand for the codes 0 to 63 by themselves; a question mark stands for none.
const SIGNS: [u8; 64] = *b"?z0 ?b1-?y2+|r3;\ri4/?d5.\tn6,?m7v'p8o?e9x?uf??tg??hj??ck??aq??sw?";

/// Appends the codes of these numbers; false where one is above 63 or memory lacks.
fn are_appended(codes: &mut Vec<Code>, numbers: &[u8]) -> bool {
    for number in numbers {
        match Code::new(*number) {
            Some(code) if codes.push(code).is_ok() => {}
            _ => return false,
        }
    }
    true
}

/// The codes of these numbers; `None` where one is above 63 or memory lacks.
pub fn codes_of(global: Global, numbers: &[u8]) -> Option<Vec<Code>> {
    let mut codes = Vec::new(global);
    if are_appended(&mut codes, numbers) {
        Some(codes)
    } else {
        None
    }
}

/// Whether the codes of these numbers are written as this text.
fn is_written_as(global: Global, numbers: &[u8], text: &[u8]) -> bool {
    match codes_of(global, numbers) {
        Some(codes) => is_written(global, Made::Archive(&codes), text) == Some(true),
        None => false,
    }
}

/// Whether a code is written by the byte of the table, or else as a group.
fn is_written_right(global: Global, number: u8) -> bool {
    let group = [b'!', b'0' + number / 10 % 10, b'0' + number % 10];
    match SIGNS.get(usize::from(number)) {
        Some(sign) if *sign != b'?' => is_written_as(global, &[number], &[*sign]),
        _ => is_written_as(global, &[number], &group),
    }
}

#[test]
fn codes_are_written_as_an_archive_has_them(rt: HostRuntime) {
    for number in 0..64u8 {
        expect_eq(
            &rt,
            (number, is_written_right(rt.alloc(), number)),
            (number, true),
        );
    }
    let numbers = [15, 2, 2, 2, 6, 32, 19, 2, 13, 16, 8, 6, 35, 46, 4, 32];
    let line = is_written_as(rt.alloc(), &numbers, b";0001'/0r\r!081og!04'");
    expect_eq(&rt, line, true);
}

/// This many codes, 0 to 63 in turn.
fn counted(global: Global, count: usize) -> Option<Vec<Code>> {
    let mut codes = Vec::with_capacity(global, count).ok()?;
    if are_counted(&mut codes, count) {
        Some(codes)
    } else {
        None
    }
}

/// Appends them; false where memory lacks.
fn are_counted(codes: &mut Vec<Code>, count: usize) -> bool {
    for number in 0..count {
        match Code::new((number % 64) as u8) {
            Some(code) if codes.push(code).is_ok() => {}
            _ => return false,
        }
    }
    true
}

/// How long the text of a tape and its bytes are, and whether the tape is read back from both; `None` without memory.
fn written_and_read(global: Global, codes: &[Code]) -> Option<([usize; 2], bool)> {
    let text = write_archive_text(global, codes).ok()?;
    let bytes = tape_bytes(global, codes).ok()?;
    let are_read = is_tape(global, &text, codes)
        && is_tape_of_bytes(global, &bytes, codes) == Some(true);
    Some(([text.len(), bytes.len()], are_read))
}

/// Whether a text is read as this tape.
fn is_tape(global: Global, text: &[u8], codes: &[Code]) -> bool {
    match read_archive_text(global, text) {
        Ok(read) => read.as_slice() == codes,
        Err(_) => false,
    }
}

/// The same of the longest tape, of codes from 0 to 63 in turn.
fn longest_written_and_read(global: Global) -> Option<([usize; 2], bool)> {
    let codes = counted(global, TAPE_LIMIT)?;
    written_and_read(global, codes.as_slice())
}

#[test]
fn the_longest_tape_is_written_and_read(rt: HostRuntime) {
    let lengths = [TAPE_LIMIT / 64 * 100, TAPE_LIMIT];
    expect_eq(
        &rt,
        longest_written_and_read(rt.alloc()),
        Some((lengths, true)),
    );
}

/// How many codes bytes have, and the place of the first bad byte; neither is where they are refused otherwise.
type Reading = [Option<usize>; 2];

fn reading(global: Global, bytes: &[u8]) -> Reading {
    match read_tape_bytes(global, bytes) {
        Ok(codes) => [Some(codes.len()), None],
        Err(BytesFault::NoCode(place)) => [None, Some(place)],
        Err(_) => [None; 2],
    }
}

/// How this many bytes of 5 and then one more byte are read; neither also without memory.
fn long(global: Global, count: u32, last: u8) -> Reading {
    match text_of(global, &[(&[5], count), (&[last], 1)]) {
        Some(bytes) => reading(global, &bytes),
        None => [None; 2],
    }
}

#[test]
fn bytes_above_63_and_one_byte_too_many_are_refused(rt: HostRuntime) {
    let limit = TAPE_LIMIT as u32;
    let found = [
        reading(rt.alloc(), b""),
        reading(rt.alloc(), &[0, 63]),
        reading(rt.alloc(), &[0, 64, 255]),
        long(rt.alloc(), limit - 1, 7),
        long(rt.alloc(), limit, 7),
        long(rt.alloc(), limit, 64),
    ];
    let wanted = [
        [Some(0), None],
        [Some(2), None],
        [None, Some(1)],
        [Some(TAPE_LIMIT), None],
        [None; 2],
        [None, Some(TAPE_LIMIT)],
    ];
    expect_eq(&rt, found, wanted);
}

/// Whether a byte above 63 is refused as such with the first growth refused, and whether that was asked for.
fn refused_without_memory(global: Global) -> (bool, bool) {
    let limited = Limited::new(global);
    limited.refuse(1);
    let fault = read_tape_bytes(&limited, &[1, 64]).err();
    (
        matches!(fault, Some(BytesFault::NoCode(1))),
        limited.was_refused(),
    )
}

#[test]
fn a_byte_above_63_is_reported_without_memory(rt: HostRuntime) {
    expect_eq(&rt, refused_without_memory(rt.alloc()), (true, false));
}
