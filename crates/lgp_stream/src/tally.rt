//! The count of replies that are written one after another.

ghost use Rattle.std.specs.Prelude.{◌≡◌, ◌++◌, ◌∷◌, [], List, Option, ℕ, IfErr, OnOk, false};
ghost use Rattle.lgp_stream.specs.AnsweringInside.{HasWritten};
ghost use Rattle.lgp_stream.specs.Language.{HasCause, HasStopped};

use crate::sink::Sink;
use crate::stream::{StreamFault, is_question, send};

/// How many replies began with a question mark, and how many bytes of replies were written; each counts as far as 64 bits do.
#[derive(Clone, Copy, Debug, PartialEq, Eq)]
pub(crate) struct Tally {
    pub(crate) questions: u64,
    pub(crate) bytes: u64,
}

impl Tally {
    /// Nothing was written.
    pub(crate) fn new() -> Tally
        ensures { result ≡ record { questions = 0; bytes = 0 } }
    {
        Tally {
            questions: 0,
            bytes: 0,
        }
    }

    /// Writes a reply and counts it.
    pub(crate) fn deliver<W: Sink>(
        &mut self,
        writer: &mut W,
        reply: &[u8],
    ) -> Result<(), StreamFault>
        ensures written { (w₀ : Option (List ℕ)) (earlier : List (List ℕ))
            → HasWritten w₀ (W.contents writer.old) earlier self.old
            → OnOk result (HasWritten w₀ (W.contents writer.new) (earlier ++ reply.now ∷ [])
            self.new) }
        ensures stopped { (w₀ : Option (List ℕ)) (earlier : List (List ℕ))
            → HasWritten w₀ (W.contents writer.old) earlier self.old
            → IfErr result (λ fault. HasStopped fault w₀ (W.contents writer.new)
            (earlier ++ reply.now ∷ [])) }
        ensures cause { IfErr result (λ fault. HasCause fault false (W.failed writer.new)) }
    {
        self.questions = self.questions.saturating_add(u64::from(is_question(reply)));
        match send(writer, reply) {
            Ok(()) => {
                self.bytes = self.bytes.saturating_add(reply.len() as u64);
                Ok(())
            }
            Err(broken) => Err(StreamFault::Write(self.bytes.saturating_add(broken.taken as u64))),
        }
    }
}
