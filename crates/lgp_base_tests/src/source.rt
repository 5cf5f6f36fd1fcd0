//! Lines and tokens.

use crate::expect_eq;
use lgp_source::{Line, Lines, Token, tokens_are_longest_runs};

/// The first place of a token in its line, and the place past it.
type Span = (usize, usize);

/// Where there is no token.
const NONE: Span = (0, 0);

/// A line: its text, its label, its operation and its two operands, whether it has a token more, and its first bad byte.
type Wanted = (&'static [u8], [Span; 4], bool, Option<usize>);

/// Whether a token of a line lies there and has the text from there; whether there is none, where it should not be.
fn is_token(line: &[u8], token: &Option<Token>, (first, past): Span) -> bool {
    match token {
        Some(token) => {
            first < past
                && token.first == first
                && token.past == past
                && line.get(first..past) == Some(token.text)
        }
        None => first == past,
    }
}

/// Whether a line has these tokens.
fn has_tokens(line: &Line, spans: &[Span; 4]) -> bool {
    let [first, second] = &line.operands;
    let tokens = [
        is_token(line.text, &line.label, spans[0]),
        is_token(line.text, &line.operation, spans[1]),
        is_token(line.text, first, spans[2]),
        is_token(line.text, second, spans[3]),
    ];
    tokens == [true; 4]
}

/// Whether a line is as wanted.
fn is_line(line: &Line, number: u64, (text, spans, extra, bad_byte): &Wanted) -> bool {
    line.number == number
        && line.text == *text
        && line.extra == *extra
        && line.bad_byte == *bad_byte
        && has_tokens(line, spans)
}

/// The number of the first line of a source that is not as wanted; 0 where all are, and no line comes after them.
fn first_wrong(source: &[u8], wanted: &[Wanted]) -> u64 {
    let mut lines = Lines::new(source);
    let mut number = 1u64;
    for row in wanted {
        match lines.next() {
            Some(line) if is_line(&line, number, row) => {}
            _ => return number,
        }
        number = number.saturating_add(1);
    }
    if lines.next().is_none() { 0 } else { number }
}

/// Tokens by their use, a comment after them, one token too many, and a semicolon within a token.
static TOKENS: [Wanted; 5] = [
    (
        b"start b one ; take",
        [(0, 5), (6, 7), (8, 11), NONE],
        false,
        None,
    ),
    (b" h 0050", [NONE, (1, 2), (3, 7), NONE], false, None),
    (
        b"\tint\t-1 0 ;x",
        [NONE, (1, 4), (5, 7), (8, 9)],
        false,
        None,
    ),
    (
        b"one frac .1 2 3",
        [(0, 3), (4, 8), (9, 11), (12, 13)],
        true,
        None,
    ),
    (b"z;a b", [(0, 3), (4, 5), NONE, NONE], false, None),
];

/// Lines that end at line feeds.
static ENDS: [Wanted; 3] = [
    (b"", [NONE; 4], false, None),
    (b";only a comment", [NONE; 4], false, None),
    (b" \r", [NONE; 4], false, Some(1)),
];

/// Bad bytes by their place. A line with one has no tokens.
static BAD: [Wanted; 3] = [
    (b" end\x80\x1f", [NONE; 4], false, Some(4)),
    (b"~\t ", [(0, 1), NONE, NONE, NONE], false, None),
    (b"\x7f", [NONE; 4], false, Some(0)),
];

/// A line without a text.
const EMPTY: [Wanted; 1] = [(b"", [NONE; 4], false, None)];

#[test]
fn sources_are_cut_into_lines_and_tokens(rt: HostRuntime) {
    let wrong = [
        first_wrong(
            b"start b one ; take\r\n h 0050\n\tint\t-1 0 ;x\none frac .1 2 3\nz;a b",
            &TOKENS,
        ),
        first_wrong(b"\n;only a comment\n \r\r\n", &ENDS),
        first_wrong(b" end\x80\x1f\n~\t \n\x7f", &BAD),
        first_wrong(b"\r", &EMPTY),
        first_wrong(b"", &[]),
    ];
    expect_eq(&rt, wrong, [0; 5]);
    tokens_are_longest_runs(b"z;a b");
}
