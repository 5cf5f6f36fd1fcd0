//! Where a text comes from.

ghost use Rattle.std.specs.Prelude.{◌≡◌, ◌-◌, ◌||◌, List, Option, ℕ, Bool, IsErr, false, is_err};
ghost use Rattle.std.specs.Io.{ReadsAtMost};
ghost use Rattle.std.specs.Io.KnownBytes.{ReadConsumes};

use std::io::Read;

/// A read or a write that failed, and gave or took no byte.
#[derive(Clone, Copy, Debug, PartialEq, Eq)]
pub struct Failed;

/// A reader of bytes that counts its reads down and remembers whether one has failed.
pub trait Feed {
    /// The bytes that are left, where they are known.
    ghost remaining: { Self → Option (List ℕ) };

    /// Whether a read has failed.
    ghost failed: { Self → Bool };

    /// How many reads are left.
    ghost reads: { Self → ℕ };

    /// Reads bytes into the buffer, and answers how many; 0 into a buffer that is not empty only where nothing is left.
    fn read(&mut self, buffer: &mut [u8]) -> Result<usize, Failed>
        ensures bound { ReadsAtMost result buffer.new }
        ensures bytes { ReadConsumes (remaining self.old) (remaining self.new) result buffer.new }
        ensures failed { failed self.new ≡ (failed self.old || is_err result) }
        ensures reads { reads self.new ≡ reads self.old - 1 }
        ensures exhausted { reads self.old ≡ 0 → IsErr result };

    /// Whether a read has failed.
    fn has_failed(&self) -> bool
        ensures { result ≡ failed self.now };

    /// How many reads are left.
    fn reads_left(&self) -> u64
        ensures { result ≡ reads self.now };
}

/// A feed of any reader.
#[derive(Drop)]
pub struct FeedOf<T> {
    reader: T,
    reads: u64,
    failed: bool,
}

impl<T: Read> FeedOf<T> {
    /// A feed of what a reader has left, which reads at most a given number of times.
    pub fn new(reader: T, reads: u64) -> FeedOf<T>
        ensures remaining { ⟦<FeedOf<T> as Feed>⟧.remaining result ≡ T.remaining reader }
        ensures reads { ⟦<FeedOf<T> as Feed>⟧.reads result ≡ reads }
        ensures failed { ⟦<FeedOf<T> as Feed>⟧.failed result ≡ false }
    {
        FeedOf {
            reader,
            reads,
            failed: false,
        }
    }
}

impl<T: Read> Feed for FeedOf<T> {
    ghost remaining = { λ feed. T.remaining feed.reader };

    ghost failed = { λ feed. feed.failed };

    ghost reads = { λ feed. feed.reads };

    fn read(&mut self, buffer: &mut [u8]) -> Result<usize, Failed> {
        if self.reads == 0 {
            self.failed = true;
            return Err(Failed);
        }
        self.reads -= 1;
        match self.reader.read(buffer) {
            Ok(count) => Ok(count),
            Err(_) => {
                self.failed = true;
                Err(Failed)
            }
        }
    }

    fn has_failed(&self) -> bool {
        self.failed
    }

    fn reads_left(&self) -> u64 {
        self.reads
    }
}
