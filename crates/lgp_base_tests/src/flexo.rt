//! Codes and the texts of tapes, ours and those of archives, on the tables and on values from outside.

use crate::{expect_eq, in_turn};
use lgp_flexo::{
    Code, TAPE_LIMIT, TextFault, code_of, codes_of_word, digit_of, enter, read_archive_text,
    read_tape_text, sign_of, skipped, write_tape_text,
};
use lgp_limited::Limited;
use lgp_word::Word;
use std::alloc::{Allocator, Global};

/// The signs of the codes 0 to 63; a question mark stands for none.
const SIGNS: [u8; 64] = *b"?z0 ?b1-?y2+?r3;?i4/?d5.?n6,?m7v'p8o?e9x?uf??tg??hj??ck??aq??sw?";

/// Those that are digits.
const DIGITS: [u8; 64] = *b"??0???1???2???3???4???5???6???7???8???9???f???g???j???k???q???w?";

/// The codes that an input skips.
const SKIPPED: [u8; 64] = *b"x???x???x???x???x???x???x???x???????x???x???x???x???x???x???x??x";

/// What stands for a code in such a table.
fn listed(table: &[u8; 64], number: u8) -> Option<char> {
    match table.get(usize::from(number)) {
        Some(sign) if *sign != b'?' => Some(char::from(*sign)),
        _ => None,
    }
}

/// The code of a number, or the conditional stop above all.
fn code(number: u8) -> Code {
    Code::new(number).unwrap_or(Code::STOP)
}

/// The number of a code, where there is one.
fn number_of(code: Option<Code>) -> Option<u8> {
    Some(code?.number())
}

/// Whether a code has its sign and is the code of that, is a digit, and is skipped, as the tables say.
fn is_listed(number: u8) -> [bool; 4] {
    let (code, sign) = (code(number), listed(&SIGNS, number));
    let is_digit = listed(&DIGITS, number).is_some();
    [
        sign_of(code) == sign,
        sign.is_none() || code_of(sign.unwrap_or('?')) == Some(code),
        digit_of(code) == if is_digit { Some(number / 4) } else { None },
        skipped(code) == listed(&SKIPPED, number).is_some(),
    ]
}

/// An `l` is read as a one.
#[test]
fn codes_are_as_in_the_tables(rt: HostRuntime) {
    for number in 0..64u8 {
        expect_eq(&rt, (number, is_listed(number)), (number, [true; 4]));
    }
    let others = [
        number_of(code_of('l')),
        number_of(code_of('_')),
        number_of(Code::new(64)),
        number_of(Some(Code::STOP)),
    ];
    expect_eq(&rt, others, [Some(6), None, None, Some(32)]);
}

#[test]
fn codes_enter_by_four_or_six_bits(rt: HostRuntime) {
    let entered = [
        enter(false, 0x12, code(14)),
        enter(false, 0xf123_4567, code(62)),
        enter(true, 0, code(57)),
        enter(true, 0x0400_0001, code(1)),
    ];
    let digits = codes_of_word(Word::of_bits(0x0123_45f6)).map(Code::number);
    expect_eq(
        &rt,
        (entered, digits),
        (
            [0x123, 0x1234_567f, 0x39, 0x41],
            [2, 6, 10, 14, 18, 22, 62, 26],
        ),
    );
}

/// The form of a text.
#[derive(Clone, Copy, Debug, PartialEq, Eq)]
enum ReadAs {
    Tape,
    Archive,
}

/// How a text is read: how many codes it has, or the place of its first bad sign, or that it has too many codes; `None` without
/// memory.
type Reading = Option<Result<usize, Option<usize>>>;

/// What was read of a text.
fn reading<A: Allocator>(read: Result<Vec<Code, A>, TextFault>) -> Reading {
    match read {
        Ok(codes) => Some(Ok(codes.len())),
        Err(TextFault::BadSign(bad)) => Some(Err(Some(bad))),
        Err(TextFault::TooLong) => Some(Err(None)),
        Err(TextFault::Memory(_)) => None,
    }
}

fn read<A: Allocator + Copy>(
    alloc: A,
    form: ReadAs,
    text: &[u8],
) -> Result<Vec<Code, A>, TextFault> {
    match form {
        ReadAs::Tape => read_tape_text(alloc, text),
        ReadAs::Archive => read_archive_text(alloc, text),
    }
}

/// Whether codes have these numbers.
fn have_numbers(codes: &[Code], numbers: &[u8]) -> bool {
    let mut place = 0usize;
    for code in codes {
        match numbers.get(place) {
            Some(number) if *number == code.number() => place = place.saturating_add(1),
            _ => return false,
        }
    }
    place == numbers.len()
}

/// Whether a text is read as the codes of these numbers; `None` without memory.
fn is_read<A: Allocator + Copy>(
    alloc: A,
    (form, text, numbers): (ReadAs, &[u8], &[u8]),
) -> Option<bool> {
    match read(alloc, form, text) {
        Ok(codes) => Some(have_numbers(codes.as_slice(), numbers)),
        Err(TextFault::Memory(_)) => None,
        Err(_) => Some(false),
    }
}

/// Whether codes are written as a text; `None` without memory.
fn is_written<A: Allocator + Copy>(alloc: A, codes: &[Code], text: &[u8]) -> Option<bool> {
    match write_tape_text(alloc, codes) {
        Ok(written) => Some(written.as_slice() == text),
        Err(_) => None,
    }
}

/// The bytes that stand for a code by themselves in a text of an archive, as SIMH's simulator reads them.
const ARCHIVED: &[u8] =
    b"\x08\t\r \"#$%'(*+,-./0123456789:;=?ABCDEFGHIJKLMNOPQRSTUVWXYZ[]^_abcdefghijklmnopqrstuvwxyz|~";

/// Their codes.
const ARCHIVED_CODES: [u8; 88] = [
    20, 24, 16, 3, 14, 34, 26, 22, 32, 38, 10, 11, 27, 7, 23, 19, 2, 6, 10, 14, 18, 22, 26, 30, 34,
    38, 15, 15, 11, 19, 57, 5, 53, 21, 37, 42, 46, 49, 17, 50, 54, 6, 29, 25, 35, 33, 58, 13, 61,
    45, 41, 31, 62, 39, 9, 1, 27, 23, 18, 7, 57, 5, 53, 21, 37, 42, 46, 49, 17, 50, 54, 6, 29, 25,
    35, 33, 58, 13, 61, 45, 41, 31, 62, 39, 9, 1, 12, 30,
];

/// Texts and the numbers of their codes: of an archive each byte by itself, groups, and a line of a program with a heading.
static READ: [(ReadAs, &[u8], &[u8]); 5] = [
    (ReadAs::Tape, b"12[16]3'", &[6, 10, 16, 14, 32]),
    (ReadAs::Tape, b"l\r\n[02][63]\n", &[6, 2, 63]),
    (ReadAs::Archive, ARCHIVED, &ARCHIVED_CODES),
    (ReadAs::Archive, b"a!00!63\ns", &[57, 0, 63, 61]),
    (
        ReadAs::Archive,
        b";000L'/0r\r\n!08LOG!04'",
        &[15, 2, 2, 2, 6, 32, 19, 2, 13, 16, 8, 6, 35, 46, 4, 32],
    ),
];

/// Bad texts, and the places of their first bad bytes.
static BAD: [(ReadAs, &[u8], usize); 16] = [
    (ReadAs::Tape, b"[6", 0),
    (ReadAs::Tape, b"[64]", 0),
    (ReadAs::Tape, b"[0a]", 0),
    (ReadAs::Tape, b"[[02]", 0),
    (ReadAs::Tape, b"1[02", 1),
    (ReadAs::Tape, b"12A", 2),
    (ReadAs::Tape, b"1[03]A_", 5),
    (ReadAs::Tape, b"\n[03]]", 5),
    (ReadAs::Archive, b"!", 0),
    (ReadAs::Archive, b"!1", 0),
    (ReadAs::Archive, b"a!64", 1),
    (ReadAs::Archive, b"!0a", 0),
    (ReadAs::Archive, b"!!04", 0),
    (ReadAs::Archive, b"!04!64)", 3),
    (ReadAs::Archive, b"12\n<34", 3),
    (ReadAs::Archive, b"[02]@", 4),
];

/// How a text is read where the first growth is refused, and whether one was asked for.
fn read_without_memory(global: Global, form: ReadAs, text: &[u8]) -> (Reading, bool) {
    let limited = Limited::new(global);
    limited.refuse(1);
    (reading(read(&limited, form, text)), limited.was_refused())
}

/// A bad sign is reported without memory.
#[test]
fn texts_are_read_or_refused(rt: HostRuntime) {
    for row in &READ {
        expect_eq(&rt, (row.1, is_read(rt.alloc(), *row)), (row.1, Some(true)));
    }
    for (form, text, place) in &BAD {
        let seen = read_without_memory(rt.alloc(), *form, text);
        expect_eq(
            &rt,
            (*text, seen),
            (*text, (Some(Err(Some(*place))), false)),
        );
    }
}

/// The codes of the text `12[16]3'`.
fn five_codes() -> [Code; 5] {
    [code(6), code(10), code(16), code(14), code(32)]
}

/// How many growths the reading of both texts and the writing of one have, each of which is refused in turn, and how many blocks are
/// out at last.
fn growths_of_texts(global: Global) -> ([u64; 3], u64) {
    let limited = Limited::new(global);
    let codes = five_codes();
    let found = [
        in_turn(&limited, || is_read(&limited, READ[0])),
        in_turn(&limited, || is_read(&limited, READ[3])),
        in_turn(&limited, || is_written(&limited, &codes, b"12[16]3'")),
    ];
    (found, limited.blocks_out())
}

#[test]
fn tapes_are_written_and_each_growth_is_refused(rt: HostRuntime) {
    let others = is_written(rt.alloc(), &[code(63), code(0), code(28)], b"[63][00][28]");
    let (found, blocks) = growths_of_texts(rt.alloc());
    let have_grown = [found[0] > 0, found[1] > 0, found[2] > 0];
    expect_eq(
        &rt,
        (others, have_grown, blocks),
        (Some(true), [true; 3], 0),
    );
}

/// How long the text of a tape is, and whether the tape is read back from it; `None` without memory.
fn written_and_read(global: Global, codes: &[Code]) -> Option<(usize, bool)> {
    let text = write_tape_text(global, codes).ok()?;
    match read_tape_text(global, text.as_slice()) {
        Ok(read) => Some((text.len(), read.as_slice() == codes)),
        Err(_) => None,
    }
}

/// The same of a tape of a given number of codes without a sign.
fn long_written_and_read(global: Global, count: usize) -> Option<(usize, bool)> {
    let codes = vec![in global; code(16); count].ok()?;
    written_and_read(global, codes.as_slice())
}

/// How a text of a given number of signs is read, with others after them.
fn read_many(global: Global, form: ReadAs, (sign, count): (u8, usize), others: &[u8]) -> Reading {
    let mut text = vec![in global; sign; count].ok()?;
    text.extend_from_slice(others).ok()?;
    reading(read(global, form, text.as_slice()))
}

#[test]
fn the_longest_tape_is_written_and_read_and_one_code_more_is_refused(rt: HostRuntime) {
    let alloc = rt.alloc();
    let read = [
        read_many(alloc, ReadAs::Tape, (b'a', TAPE_LIMIT + 1), b""),
        read_many(alloc, ReadAs::Archive, (b'\r', TAPE_LIMIT), b"\n\n"),
        read_many(alloc, ReadAs::Archive, (b'\r', TAPE_LIMIT + 1), b""),
    ];
    let written = long_written_and_read(alloc, TAPE_LIMIT);
    expect_eq(
        &rt,
        (written, read),
        (
            Some((4 * TAPE_LIMIT, true)),
            [Some(Err(None)), Some(Ok(1_048_576)), Some(Err(None))],
        ),
    );
}
