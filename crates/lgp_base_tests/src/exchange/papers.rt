//! Printed codes as lines of paper.

use super::tapes::codes_of;
use super::*;
use crate::text_of;

/// The paper of the codes of these numbers.
fn paper(global: Global, numbers: &[u8]) -> Option<Vec<u8>> {
    match codes_of(global, numbers) {
        Some(codes) => paper_of(global, &codes).ok(),
        None => None,
    }
}

/// The paper of codes.
pub fn paper_of<A: Allocator + Copy>(alloc: A, codes: &[Code]) -> Result<Vec<u8, A>, AllocError> {
    let mut text = Vec::new(alloc);
    push_paper(alloc, &mut text, codes)?;
    Ok(text)
}

/// Whether the codes of these numbers are shown as this text.
fn is_shown_as(global: Global, numbers: &[u8], text: &[u8]) -> bool {
    match paper(global, numbers) {
        Some(shown) => shown.as_slice() == text,
        None => false,
    }
}

/// Numbers of codes, and the text of the paper.
type Row = (&'static [u8], &'static [u8]);

/// Signs, cases, ends of lines, codes that print nothing, tabs and backspaces.
static SHOWN: [Row; 24] = [
    (&[], b""),
    (&[57, 5, 53], b"abc"),
    (&[57, 16, 5, 16], b"a\nb\n"),
    (&[16, 16, 57], b"\n\na"),
    (&[8, 57, 4, 57], b"Aa"),
    (&[8, 57, 16, 57], b"A\nA"),
    (&[8, 3, 10, 6, 2, 32, 4, 2, 32, 6], b" *L[02][32]0'1"),
    (&[8, 10, 14, 18, 22, 26, 30, 34, 38], b"*\"^%$~#("),
    (&[8, 7, 11, 15, 19, 23, 27], b"_=:?]["),
    (&[0, 57, 12, 63, 5], b"ab"),
    (&[28, 36, 8, 60, 4, 43], b"[28][36][60][43]"),
    (&[24, 57], b"        a"),
    (&[57, 24, 5], b"a       b"),
    (
        &[57, 57, 57, 57, 57, 57, 57, 57, 24, 5],
        b"aaaaaaaa        b",
    ),
    (&[24], b"        "),
    (&[24, 24, 20, 57], b"               a"),
    (&[20, 57], b"a"),
    (&[57, 20, 20, 5], b"b"),
    (&[57, 20, 3, 5], b"ab"),
    (&[57, 20, 8, 7], b"_"),
    (&[57, 5, 53, 20, 20, 20, 61], b"sbc"),
    (&[57, 5, 53, 20, 20, 20, 24, 61], b"abc     s"),
    (&[24, 57, 16, 24, 57, 16], b"        a\n        a\n"),
    (&[8, 2, 20, 57, 5], b"AB"),
];

#[test]
fn signs_and_moves_of_the_carriage_are_shown(rt: HostRuntime) {
    for (numbers, text) in &SHOWN {
        let seen = (*numbers, is_shown_as(rt.alloc(), numbers, text));
        expect_eq(&rt, seen, (*numbers, true));
    }
}

/// How long the paper is of the codes of these numbers.
fn paper_length(global: Global, numbers: &[u8]) -> Option<usize> {
    match paper(global, numbers) {
        Some(text) => Some(text.len()),
        None => None,
    }
}

/// The same of codes each of which comes a given number of times.
fn length_of(global: Global, pieces: &[(&[u8], u32)]) -> Option<usize> {
    match text_of(global, pieces) {
        Some(numbers) => paper_length(global, &numbers),
        None => None,
    }
}

/// Of a million codes of `a` every hundredth is a carriage return; and ten thousand tabs and a sign.
#[test]
fn long_and_wide_papers(rt: HostRuntime) {
    let mut row = [57; 100];
    row[99] = 16;
    let lengths = [
        length_of(rt.alloc(), &[(&row, 10_000)]),
        length_of(rt.alloc(), &[(&[24], 10_000), (&[57], 1)]),
    ];
    expect_eq(&rt, lengths, [Some(1_000_000), Some(80_001)]);
}
