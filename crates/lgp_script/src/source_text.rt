//! A source that is gathered piece by piece.

ghost use Rattle.std.specs.Prelude.{◌≡◌, ◌≤◌, ◌++◌, [], true, length, codes, List, ℕ, OnErr, OnOk};
ghost use Rattle.lgp_stream.specs.KeptLine.{line_limit};
ghost use Rattle.lgp_stream.specs.KeptLine.{kept_of};
ghost use Rattle.lgp_script.specs.SourceText.{source_of, with_bytes, with_line};

use crate::limits::SOURCE_LIMIT;
use lgp_stream::LineBytes;
use std::alloc::{AllocError, Allocator};
use std::marker::Model;

/// A source so far: its bytes, and whether there were too many; then none are kept.
#[derive(Drop)]
pub struct SourceText<A: Allocator> {
    text: Vec<u8, A>,
    too_long: bool,
}

impl<A: Allocator> Model for SourceText<A> {
    ghost use Rattle.std.specs.Prelude.{◌≤◌, length};
    ghost use Rattle.lgp_script.specs.Limits.{source_limit};
    ghost use Rattle.lgp_script.specs.SourceText.{SourceText};

    ghost Value = { SourceText };

    ghost view = { λ source. record { text = source.text.items; too_long = source.too_long } };

    ghost invariant = { λ source. length source.text.items ≤ source_limit };
}

impl<A: Allocator> SourceText<A> {
    /// A source without a byte.
    #[tactic(auto, unfolding(crate::specs::SourceText::source_of))]
    pub fn new(alloc: A) -> SourceText<A>
        ensures { result ≡ source_of [] }
    {
        SourceText {
            text: Vec::new(alloc),
            too_long: false,
        }
    }

    /// Whether there were too many bytes.
    pub fn is_too_long(&self) -> bool
        ensures { result ≡ self.now.too_long }
    {
        self.too_long
    }

    /// The bytes, handed over.
    pub fn into_text(self) -> Vec<u8, A>
        ensures { result.items ≡ self.text }
    {
        let SourceText { text, too_long: _ } = self;
        text
    }

    /// Keeps none of the bytes, since there are too many.
    fn give_up(&mut self)
        ensures { self.new ≡ record { text = []; too_long = true } }
    {
        self.text.clear();
        self.too_long = true;
    }

    /// More bytes. A refused growth changes nothing.
    pub fn push_bytes(&mut self, bytes: &[u8]) -> Result<(), AllocError>
        ensures ok { OnOk result (self.new ≡ with_bytes self.old bytes.now) }
        ensures err { OnErr result (self.new ≡ self.old) }
    {
        if self.too_long || bytes.len() > SOURCE_LIMIT - self.text.len() {
            self.give_up();
            return Ok(());
        }
        self.text.extend_from_slice(bytes)?;
        Ok(())
    }

    /// A line of which this was kept, and its line feed. A refused growth changes nothing.
    pub fn push_line(&mut self, line: &LineBytes) -> Result<(), AllocError>
        ensures ok { (text : List ℕ) → line.now ≡ kept_of text
            → OnOk result (self.new ≡ with_line self.old text) }
        ensures err { OnErr result (self.new ≡ self.old) }
    {
        if line.is_longer() {
            self.give_up();
            return Ok(());
        }
        self.push_whole_line(line.front())
    }

    /// A line and its line feed. A refused growth changes nothing.
    fn push_whole_line(&mut self, line: &[u8]) -> Result<(), AllocError>
        requires { length line.now ≤ line_limit }
        ensures ok { OnOk result (self.new ≡ with_bytes self.old (line.now ++ codes "\n")) }
        ensures err { OnErr result (self.new ≡ self.old) }
    {
        let before = self.text.len();
        if self.too_long || line.len() >= SOURCE_LIMIT - before {
            self.give_up();
            return Ok(());
        }
        self.text.extend_from_slice(line)?;
        if self.text.push(b'\n').is_err() {
            self.text.truncate(before);
            return Err(AllocError);
        }
        Ok(())
    }
}
