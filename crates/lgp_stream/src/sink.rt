//! Where replies go.

ghost use Rattle.std.specs.Prelude.{◌≡◌, ◌||◌, ◌<◌, List, Option, ℕ, Bool, IfOk, false, is_err, length};
ghost use Rattle.std.specs.Io.{WritesAtMost};
ghost use Rattle.std.specs.Io.KnownBytes.{WriteAppends};

use crate::feed::Failed;
use std::io::Write;

/// A writer of bytes that remembers whether a write has failed.
pub trait Sink {
    /// The bytes that it holds, where they are known.
    ghost contents: { Self → Option (List ℕ) };

    /// Whether a write has failed.
    ghost failed: { Self → Bool };

    /// Writes bytes of the buffer, and answers how many; a write that takes none of a buffer that is not empty fails.
    fn write(&mut self, buffer: &[u8]) -> Result<usize, Failed>
        ensures bound { WritesAtMost result buffer.now }
        ensures bytes { WriteAppends (contents self.old) (contents self.new) result buffer.now }
        ensures failed { failed self.new ≡ (failed self.old || is_err result) }
        ensures some { IfOk result (λ count. 0 < length buffer.now → 0 < count) };

    /// Whether a write has failed.
    fn has_failed(&self) -> bool
        ensures { result ≡ failed self.now };
}

/// A sink of any writer.
#[derive(Drop)]
pub struct SinkOf<T> {
    writer: T,
    failed: bool,
}

impl<T: Write> SinkOf<T> {
    /// A sink that writes after what a writer holds.
    pub fn new(writer: T) -> SinkOf<T>
        ensures contents { ⟦<SinkOf<T> as Sink>⟧.contents result ≡ T.contents writer }
        ensures failed { ⟦<SinkOf<T> as Sink>⟧.failed result ≡ false }
    {
        SinkOf {
            writer,
            failed: false,
        }
    }
}

impl<T: Write> Sink for SinkOf<T> {
    ghost contents = { λ sink. T.contents sink.writer };

    ghost failed = { λ sink. sink.failed };

    fn write(&mut self, buffer: &[u8]) -> Result<usize, Failed> {
        match self.writer.write(buffer) {
            Ok(0) if !buffer.is_empty() => {
                self.failed = true;
                Err(Failed)
            }
            Ok(count) => Ok(count),
            Err(_) => {
                self.failed = true;
                Err(Failed)
            }
        }
    }

    fn has_failed(&self) -> bool {
        self.failed
    }
}
