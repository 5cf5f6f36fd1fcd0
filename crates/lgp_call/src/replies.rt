//! Replies as they are written.
ghost use Rattle.std.specs.Prelude.{◌≡◌, [], IfErr, IfOk, IsErr, List, Some, false, ℕ};
ghost use Rattle.lgp_call.specs.Reply.{IsTextGiven};
ghost use Rattle.lgp_call.specs.Status.{fault_status};

use crate::room::fill;
use crate::script::Outcome;
use lgp_stream::{Failed, Sink, StreamFault};
use std::alloc::Allocator;

/// The replies of a script, one after the other. A write that takes memory may be refused, and then fails.
#[derive(Drop)]
pub(crate) struct Replies<A: Allocator> {
    pub(crate) text: Vec<u8, A>,
    pub(crate) refused: bool,
}

impl<A: Allocator> Replies<A> {
    /// None is written yet.
    pub(crate) fn new(alloc: A) -> Replies<A>
        ensures text { result.text.items ≡ [] }
        ensures refused { result.refused ≡ false }
    {
        Replies {
            text: Vec::new(alloc),
            refused: false,
        }
    }
}

impl<A: Allocator> Sink for Replies<A> {
    ghost contents = { λ replies. Some replies.text.items };

    ghost failed = { λ replies. replies.refused };

    fn write(&mut self, buffer: &[u8]) -> Result<usize, Failed> {
        match self.text.extend_from_slice(buffer) {
            Ok(()) => Ok(buffer.len()),
            Err(_) => {
                self.refused = true;
                Err(Failed)
            }
        }
    }

    fn has_failed(&self) -> bool {
        self.refused
    }
}

/// Writes replies into the room, as far as they fit, or reports why there are none. The answer is the status.
pub(crate) fn give(
    answered: Result<u64, StreamFault>,
    replies: &[u8],
    room: &mut [u8],
    outcome: &mut Outcome,
) -> u32
    ensures given { IfOk answered (λ questions. IsTextGiven replies.now questions
        room.old room.new outcome.new result) }
    ensures status { IfErr answered (λ fault. result ≡ fault_status fault) }
    ensures refused { IsErr answered → (text : List ℕ) → (questions : ℕ)
        → IsTextGiven text questions room.old room.new outcome.new result }
{
    match answered {
        Ok(questions) => {
            fill(room, replies);
            *outcome = Outcome {
                questions,
                length: replies.len() as u64,
            };
            u32::from(questions > 0)
        }
        Err(fault) => {
            *outcome = Outcome {
                questions: 0,
                length: 0,
            };
            match fault {
                StreamFault::Read => 2,
                StreamFault::Write(_) | StreamFault::Memory => 3,
            }
        }
    }
}
