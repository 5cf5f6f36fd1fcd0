//! The drum.

ghost use Rattle.std.specs.Prelude.{◌≡◌, ◌++◌, IfOk, OnOk, codes, decimal};
ghost use Rattle.lgp_listing.specs.Dump.{dump_of};
ghost use Rattle.lgp_history.specs.Step.{Put};
ghost use Rattle.lgp_script.specs.Reply.{IsReplied, replied_to_step};
ghost use Rattle.lgp_script.specs.DrumCommands.{dump_text, lines_text};
ghost use Rattle.lgp_script.specs.LaboratoryInside.{line_by};

use super::Laboratory;
use crate::refusal::{Refusal, push_counted};
use crate::reply::Reply;
use lgp_command::Span;
use lgp_listing::{DrumWords, disassemble, push_cell_line, push_dump};
use lgp_machine::{Machine, PutFault};
use lgp_text::{Piece, push_pieces};
use lgp_word::{Address, Word};
use std::alloc::{AllocError, Allocator};

impl<A: Allocator + Copy> Laboratory<A> {
    /// Puts a word on the drum.
    pub(super) fn put(&mut self, address: Address, word: Word) -> Result<Reply, AllocError>
        ensures { IfOk result (λ reply. IsReplied reply self.new
            (replied_to_step Reply.Done self.old (Put address word))) }
    {
        match self.debugger.put(address, word) {
            Ok(()) => Ok(Reply::Done),
            Err(PutFault::Moving) => Ok(Reply::Refused(Refusal::Moving)),
            Err(PutFault::Memory) => Err(AllocError),
        }
    }

    /// Appends words by their digits, or by their disassembly.
    pub(super) fn push_words(
        &self,
        text: &mut Vec<u8, A>,
        span: &Span,
        disassembled: bool,
    ) -> Result<(), AllocError>
        ensures { OnOk result (text.new.items ≡ text.old.items
            ++ lines_text (line_by disassembled) self.now.debugger.state
            span.now.first span.now.count) }
    {
        push_words(text, self.debugger.machine(), span, disassembled)
    }

    /// The dump of the drum: a line for each word that is not zero.
    pub fn drum_dump(&self) -> Result<Vec<u8, A>, AllocError>
        ensures { IfOk result (λ text. text.items
            ≡ dump_of self.now.debugger.state.core.words) }
    {
        let mut lines = Vec::new(self.alloc);
        push_dump(&mut lines, self)?;
        Ok(lines)
    }

    /// Appends all words that are not zero.
    #[tactic(auto, unfolding(crate::specs::DrumCommands::dump_text))]
    pub(super) fn push_drum(&self, text: &mut Vec<u8, A>) -> Result<(), AllocError>
        ensures { OnOk result (text.new.items
            ≡ text.old.items ++ dump_text self.now.debugger.state.core.words) }
    {
        let mut lines = Vec::new(self.alloc);
        let count = push_dump(&mut lines, self)?;
        push_lines(text, count, &lines)
    }
}

impl<A: Allocator + Copy> DrumWords for Laboratory<A> {
    ghost words = { λ laboratory. laboratory.debugger.state.core.words };

    fn word_at(&self, address: Address) -> Word {
        self.debugger.machine().word(address)
    }
}

/// Appends a word's line by its digits, or by its disassembly.
#[tactic(auto, unfolding(crate::specs::DrumCommands::order_line))]
fn push_word<A: Allocator>(
    text: &mut Vec<u8, A>,
    address: Address,
    word: Word,
    disassembled: bool,
) -> Result<(), AllocError>
    ensures { OnOk result (text.new.items ≡ text.old.items ++ line_by disassembled address word) }
{
    if !disassembled {
        return push_cell_line(text, address, word);
    }
    let order = disassemble(word);
    push_pieces(
        text,
        &[
            Piece::Place(address),
            Piece::Text(b" "),
            Piece::Text(&order),
            Piece::Text(b"\n"),
        ],
    )
}

/// Appends the words of a range.
fn push_words<A: Allocator>(
    text: &mut Vec<u8, A>,
    machine: &Machine<A>,
    span: &Span,
    disassembled: bool,
) -> Result<(), AllocError>
    ensures { OnOk result (text.new.items ≡ text.old.items
        ++ lines_text (line_by disassembled) machine.now.state span.now.first span.now.count) }
{
    for place in 0..span.count() {
        let address = span.address(place);
        push_word(text, address, machine.word(address), disassembled)?;
    }
    Ok(())
}

/// Appends how many words are not zero, and their lines.
fn push_lines<A: Allocator>(
    text: &mut Vec<u8, A>,
    count: u64,
    lines: &[u8],
) -> Result<(), AllocError>
    ensures { OnOk result (text.new.items ≡ text.old.items
        ++ (codes "dump " ++ (decimal count ++ (codes "\n" ++ lines.now)))) }
{
    push_counted(text, b"dump ", count)?;
    text.extend_from_slice(lines)
}
