//! The source language's lines and tokens, cut from the bytes of a source and borrowed from it.
#![tactic(auto)]

ghost use Rattle.std.specs.Prelude.{◌≡◌, ◌≤◌, List, length};
ghost use Rattle.std.specs.Iterator.{YieldsFirstBy, item_count};
ghost use Rattle.lgp_source.specs.Source.{SourceLine, numbered_lines, lines_of, before_comment, tokens_of};
ghost use Rattle.lgp_source.specs.Runs.{IsUpToComment, IsLongestRun, IsSlice, Each, AllAreSpanned, AreInOrder};
ghost use Rattle.lgp_source.specs.Seen.{line_seen};

use bstr::{ByteSlice, LinesWithTerminator};
pub use cutting::before_comment;
pub use parts::{Line, Token};
use std::marker::Model;

mod cutting;
mod parts;

/// The lines of a source, in order.
///
/// A source is cut at line feeds. A carriage return just before a line feed or at the source's end
/// belongs to no line's text, a source that ends with a line feed has no further line, and the
/// empty source has no line.
#[derive(Drop)]
pub struct Lines<'a> {
    pieces: LinesWithTerminator<'a>,
    passed: u64,
}

impl<'a> Model for Lines<'a> {
    ghost use Rattle.std.specs.Prelude.{List, map, length, ◌+◌, ◌^◌, ◌<◌};
    ghost use Rattle.lgp_source.specs.Source.{SourceLine, numbered_lines, without_last};

    ghost Value = { List SourceLine };

    ghost view = { λ s. numbered_lines (s.passed + 1) (map (without_last 10) s.pieces) };

    ghost invariant = { λ s. s.passed + length s.pieces < 2 ^ 64 };
}

impl<'a> Lines<'a> {
    /// All lines of `source`, the first of which has the number 1.
    pub fn new(source: &'a [u8]) -> Lines<'a>
        ensures lines { result ≡ lines_of source.now }
        ensures len { length result ≤ length source.now }
    {
        Lines {
            pieces: source.lines_with_terminator(),
            passed: 0,
        }
    }
}

impl<'a> Iterator for Lines<'a> {
    type Item = Line<'a>;

    ghost next_gives = { YieldsFirstBy line_seen (λ lines. lines) };

    ghost remaining = { item_count (λ lines. lines) };

    fn next(&mut self) -> Option<Line<'a>> {
        let Some(piece) = self.pieces.next() else {
            return None;
        };
        self.passed += 1;
        Some(cutting::line_of(self.passed, cutting::text_of(piece)))
    }
}

/// A law, for readers and proofs: what the tokens of a line's text are.
///
/// The body is the text up to the first `;` that is at the line's start or after a blank. Each
/// token is a longest run of the body without blanks, and the slice of the text at its span; each
/// byte of the body that is no blank lies in a token; and the tokens are in order.
#[tactic(auto, using(crate::proofs::Laws::token_laws))]
pub fn tokens_are_longest_runs(text: &[u8])
    ensures body { IsUpToComment text.now (before_comment text.now) }
    ensures runs { Each (IsLongestRun (before_comment text.now)) (tokens_of text.now) }
    ensures slices { Each (IsSlice text.now) (tokens_of text.now) }
    ensures whole { AllAreSpanned (before_comment text.now) (tokens_of text.now) }
    ensures in_order { AreInOrder 0 (tokens_of text.now) }
{
    let _ = text;
}
