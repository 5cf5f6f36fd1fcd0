//! How a source is cut: comments, tokens and lines.

ghost use Rattle.std.specs.Prelude.{◌≡◌, ◌≤◌, ◌<◌, length, drop, Some, None, List, position};
ghost use Rattle.std.specs.List.{position_or_len};
ghost use Rattle.std.specs.Iterator.{YieldsFirstBy, item_count};
ghost use Rattle.lgp_source.specs.Source as source;
ghost use Rattle.lgp_source.specs.CuttingInside.{is_visible};
ghost use Rattle.lgp_source.specs.Seen.{token_seen, line_seen};

use crate::parts::{Line, Token};
use std::marker::Model;

/// The bytes without one `mark` at their end.
#[tactic(auto, using(crate::proofs::Pieces::without_last_cases))]
fn without_last(bytes: &[u8], mark: u8) -> &[u8]
    ensures { result.now ≡ source.without_last mark bytes.now }
{
    let size = bytes.len();
    if size > 0 && bytes[size - 1] == mark {
        return &bytes[..size - 1];
    }
    bytes
}

/// The text of a line that is cut off after its line feed.
pub fn text_of(piece: &[u8]) -> &[u8]
    ensures { result.now ≡ source.text_of (source.without_last 10 piece.now) }
{
    without_last(without_last(piece, b'\n'), b'\r')
}

/// Whether a byte is a space or a tab.
fn is_blank(byte: u8) -> bool
    ensures { result ≡ source.is_blank byte }
{
    byte == b' ' || byte == b'\t'
}

/// Whether a byte may not be in a line.
fn is_bad(byte: u8) -> bool
    ensures { result ≡ source.is_bad byte }
{
    !(byte == b'\t' || (b' '..=b'~').contains(&byte))
}

/// The text of a line up to its comment.
pub fn before_comment(text: &[u8]) -> &[u8]
    ensures { result.now ≡ source.before_comment text.now }
{
    let mut fresh = true;
    for (place, byte) in text.iter().enumerate() {
        if fresh && *byte == b';' {
            return &text[..place];
        }
        fresh = is_blank(*byte);
    }
    text
}

/// The tokens from a place on that is at a token's beginning, at a blank or at the end.
#[derive(Drop)]
struct Tokens<'a> {
    body: &'a [u8],
    place: usize,
}

impl<'a> Model for Tokens<'a> {
    ghost use Rattle.std.specs.Prelude.{List, ◌≤◌, length, drop, true};
    ghost use Rattle.lgp_source.specs.Source.{SourceToken, tokens_from};

    ghost Value = { List SourceToken };

    ghost view = { λ s. tokens_from s.place true (drop s.place s.body.now) };

    ghost invariant = { λ s. s.place ≤ length s.body.now };
}

/// The place of the first byte that is no blank.
fn visible_place(body: &[u8]) -> Option<usize>
    ensures { result ≡ position is_visible body.now }
{
    body.iter().position(|byte| !is_blank(*byte))
}

/// The place of the first blank.
fn blank_place(body: &[u8]) -> Option<usize>
    ensures { result ≡ position source.is_blank body.now }
{
    body.iter().position(|byte| is_blank(*byte))
}

/// The place of the first byte that may not be in a line.
fn bad_place(text: &[u8]) -> Option<usize>
    ensures { result ≡ position source.is_bad text.now }
{
    text.iter().position(|byte| is_bad(*byte))
}

/// How many bytes come before the first blank.
#[tactic(auto, using(crate::proofs::Places::run_lengths))]
fn run(body: &[u8]) -> usize
    ensures value { result ≡ position_or_len source.is_blank body.now }
    ensures within { result ≤ length body.now }
{
    blank_place(body).unwrap_or(body.len())
}

impl<'a> Iterator for Tokens<'a> {
    type Item = Token<'a>;

    ghost next_gives = { YieldsFirstBy token_seen (λ tokens. tokens) };

    ghost remaining = { item_count (λ tokens. tokens) };

    fn next(&mut self) -> Option<Token<'a>> {
        let Some(gap) = visible_place(&self.body[self.place..]) else {
            return None;
        };
        let first = self.place + gap;
        let past = first + run(&self.body[first..]);
        self.place = past;
        let text = &self.body[first..past];
        Some(Token { text, first, past })
    }
}

/// The line of that number and text.
pub fn line_of(number: u64, text: &[u8]) -> Line
    ensures { line_seen result ≡ source.line_of number text.now }
{
    let bad_byte = bad_place(text);
    if bad_byte.is_some() {
        return Line {
            number,
            text,
            label: None,
            operation: None,
            operands: [None, None],
            bad_byte,
            extra: false,
        };
    }
    let mut tokens = Tokens {
        body: before_comment(text),
        place: 0,
    };
    let first = tokens.next();
    let (label, operation) = match first {
        Some(token) if token.first == 0 => (first, tokens.next()),
        _ => (None, first),
    };
    let operands = [tokens.next(), tokens.next()];
    let extra = tokens.next().is_some();
    Line {
        number,
        text,
        label,
        operation,
        operands,
        bad_byte,
        extra,
    }
}
