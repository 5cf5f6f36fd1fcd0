//! The lines of a text that is read, one after another.

ghost use Rattle.std.specs.Prelude.{◌≡◌, ◌+◌, ◌*◌, ◌<◌, ◌≤◌, [], ◌∷◌, IfOk, IfSome, IsErr, None, OnOk, Some, false, length, true};
ghost use Rattle.std.specs.Io.KnownBytes.{Consumes, IsAtEnd};
ghost use Rattle.lgp_stream.specs.LineReading.{HasLine, IsBrokenLine, left_of};
ghost use Rattle.lgp_stream.specs.OpenLineInside.{open_of};
ghost use Rattle.lgp_stream.specs.ReadingInside.{HasByte, HasTaken};

use crate::feed::{Failed, Feed};
use crate::line::{Line, LineBytes};
use std::marker::Model;

/// How many bytes one read asks for.
pub const CHUNK: usize = 4096;

/// Bytes that were read and are in no line yet. Clauses see them.
#[derive(Drop)]
pub(crate) struct ReadBytes {
    portion: [u8; CHUNK],
    first: usize,
    past: usize,
}

impl Model for ReadBytes {
    ghost use Rattle.std.specs.Prelude.{◌≤◌, ℕ, List, drop, take};

    ghost Value = { List ℕ };

    ghost view = { λ bytes. drop bytes.first (take bytes.past bytes.portion) };

    ghost invariant = { λ bytes. (bytes.first ≤ bytes.past) × (bytes.past ≤ 4096) };
}

impl ReadBytes {
    /// Nothing was read yet.
    pub(crate) fn new() -> ReadBytes
        ensures { result ≡ [] }
    {
        ReadBytes {
            portion: [0; CHUNK],
            first: 0,
            past: 0,
        }
    }

    /// The next byte of those that were read, if there is one.
    fn next_read(&mut self) -> Option<u8>
        ensures byte { IfSome result (λ byte. self.old ≡ byte ∷ self.new) }
        ensures none { result ≡ None → (self.old ≡ []) × (self.new ≡ []) }
    {
        if self.first == self.past {
            return None;
        }
        let byte = self.portion[self.first];
        self.first += 1;
        Some(byte)
    }

    /// Reads bytes, where all that were read are in a line.
    fn refill<R: Feed>(&mut self, reader: &mut R) -> Result<(), Failed>
        requires { self.old ≡ [] }
        ensures kept { OnOk result (Consumes (left_of self.old (R.remaining reader.old))
            (left_of self.new (R.remaining reader.new)) []) }
        ensures end { OnOk result (self.new ≡ []
            → IsAtEnd (left_of self.new (R.remaining reader.new))) }
        ensures broken { IsErr result → Consumes (left_of self.old (R.remaining reader.old))
            (R.remaining reader.new) [] }
        ensures less { R.reads reader.new * 4097 + length self.new
            ≤ R.reads reader.old * 4097 + length self.old }
        ensures failed { IsErr result → R.failed reader.new ≡ true }
    {
        self.first = 0;
        self.past = 0;
        self.past = reader.read(&mut self.portion)?;
        Ok(())
    }

    /// The next byte, if there is one.
    fn next_byte<R: Feed>(&mut self, reader: &mut R) -> Result<Option<u8>, Failed>
        ensures next { IfOk result (λ next. HasByte (left_of self.old (R.remaining reader.old))
            (left_of self.new (R.remaining reader.new)) next) }
        ensures broken { IsErr result → Consumes (left_of self.old (R.remaining reader.old))
            (R.remaining reader.new) [] }
        ensures less { IfOk result (λ next. IfSome next (λ byte.
            R.reads reader.new * 4097 + length self.new
            < R.reads reader.old * 4097 + length self.old)) }
        ensures failed { IsErr result → R.failed reader.new ≡ true }
    {
        if let Some(byte) = self.next_read() {
            return Ok(Some(byte));
        }
        self.refill(reader)?;
        Ok(self.next_read())
    }

    /// Takes bytes into a line, up to a line feed, and answers whether there was one. If there was none, the text has ended.
    pub(crate) fn take_line<R: Feed>(
        &mut self,
        reader: &mut R,
        line: &mut Line,
    ) -> Result<bool, Failed>
        requires { line.old ≡ open_of [] }
        ensures taken { IfOk result (λ feed. HasTaken (left_of self.old (R.remaining reader.old))
            (left_of self.new (R.remaining reader.new)) line.new feed) }
        ensures end { IfOk result (λ feed. feed ≡ false
            → IsAtEnd (left_of self.new (R.remaining reader.new))) }
        ensures broken { IsErr result → IsBrokenLine (left_of self.old (R.remaining reader.old))
            (R.remaining reader.new) }
        ensures less { IfOk result (λ feed. feed ≡ true
            → R.reads reader.new * 4097 + length self.new
            < R.reads reader.old * 4097 + length self.old) }
        ensures failed { IsErr result → R.failed reader.new ≡ true }
    {
        'bytes: loop {
            let Some(byte) = self.next_byte(reader)? else {
                return Ok(false);
            };
            if byte == b'\n' {
                return Ok(true);
            }
            line.push(byte);
        }
    }
}

/// What reads lines, one after another. Clauses see the bytes that were read and are in no line yet, and the line that was read last.
#[derive(Drop)]
pub struct LineReader {
    bytes: ReadBytes,
    line: Line,
}

impl Model for LineReader {
    ghost use Rattle.lgp_stream.specs.LineReading.{Reading};

    ghost Value = { Reading };

    ghost view = { λ lines. record { unread = lines.bytes; line = lines.line.kept } };
}

impl LineReader {
    /// No line was read yet.
    #[tactic(auto, unfolding(crate::specs::OpenLineInside::open_of))]
    pub fn new() -> LineReader
        ensures { result.unread ≡ [] }
    {
        LineReader {
            bytes: ReadBytes::new(),
            line: Line::new(),
        }
    }

    /// The line that was read last; empty before the first.
    pub fn line(&self) -> &LineBytes
        ensures { result.now ≡ self.now.line }
    {
        self.line.bytes()
    }

    /// Reads the next line; answers whether there is one. A read that fails loses the bytes of a line that had begun, and no others.
    pub fn next_line<R: Feed>(&mut self, reader: &mut R) -> Result<bool, Failed>
        ensures line { IfOk result (λ is_line. is_line ≡ true
            → HasLine (left_of self.old.unread (R.remaining reader.old))
            (left_of self.new.unread (R.remaining reader.new)) (Some self.new.line)) }
        ensures end { IfOk result (λ is_line. is_line ≡ false
            → HasLine (left_of self.old.unread (R.remaining reader.old))
            (left_of self.new.unread (R.remaining reader.new)) None) }
        ensures broken { IsErr result
            → IsBrokenLine (left_of self.old.unread (R.remaining reader.old))
            (R.remaining reader.new) }
        ensures failed { IsErr result → R.failed reader.new ≡ true }
    {
        self.line.restart();
        if self.bytes.take_line(reader, &mut self.line)? {
            return Ok(true);
        }
        if self.line.is_unbegun() {
            return Ok(false);
        }
        self.line.release();
        Ok(true)
    }
}
