//! Sources and their listings.

ghost use Rattle.std.specs.Prelude.{◌≡◌, ◌≢◌, ◌++◌, [], List, ℕ, None, Some, OnOk, codes};
ghost use Rattle.lgp_stream.specs.Language.{IsAnswered};
ghost use Rattle.lgp_stream.specs.KeptLine.{kept_of};
ghost use Rattle.lgp_script.specs.SourceCommands.{answer_in_source, answer_to_end, assembled, cells_text, fault_line, faults_text, list_text, replied_to_list, start_text};
ghost use Rattle.lgp_script.specs.Reply.{IsReplied};
ghost use Rattle.lgp_script.specs.SourceText.{source_of};
ghost use Rattle.lgp_assembler.specs.Image.{faults_of, image_of};

use super::Laboratory;
use crate::program::{Faulty, Program};
use crate::refusal::{Refusal, push_refusal};
use crate::reply::Reply;
use crate::source_text::SourceText;
use lgp_assembler::{AssembleError, Fault, Image, assemble};
use lgp_stream::LineBytes;
use lgp_text::{Piece, push_pieces};
use lgp_word::Address;
use std::alloc::{AllocError, Allocator};

impl<A: Allocator + Copy> Laboratory<A> {
    /// Opens a source: the lines that follow are its lines.
    pub(super) fn open_source(&mut self)
        ensures { self.new ≡ record self.old { opened = Some (source_of []) } }
    {
        self.opened = Some(SourceText::new(self.alloc));
    }

    /// Takes a line of the source that is open; a point alone closes the source.
    pub(super) fn take_line(
        &mut self,
        source: SourceText<A>,
        line: &LineBytes,
        reply: &mut Vec<u8, A>,
    ) -> Result<(), AllocError>
        ensures { (text : List ℕ) → line.now ≡ kept_of text
            → OnOk result (IsAnswered reply.old.items reply.new.items self.new
            (answer_in_source self.old source text)) }
    {
        if line.is_word(b".") {
            return self.close_source(source, reply);
        }
        let mut source = source;
        let kept = source.push_line(line);
        self.opened = Some(source);
        kept
    }

    /// Closes a source.
    pub(super) fn close_source(
        &mut self,
        source: SourceText<A>,
        reply: &mut Vec<u8, A>,
    ) -> Result<(), AllocError>
        ensures { OnOk result (IsAnswered reply.old.items reply.new.items self.new
            (answer_to_end self.old source)) }
    {
        self.opened = None;
        if source.is_too_long() {
            return push_refusal(reply, Refusal::TooLong);
        }
        let text = source.into_text();
        match assemble(self.alloc, &text) {
            Ok(image) => self.keep(Program::of(text, image), reply),
            Err(AssembleError::Faults(faults)) => {
                self.keep_faulty(Faulty::new(text, faults), reply)
            }
            Err(AssembleError::Memory) => Err(AllocError),
        }
    }

    /// Keeps a source with faults, and tells them.
    #[tactic(auto, using(crate::proofs::KeptLemmas::assembled_faulty))]
    fn keep_faulty(&mut self, faulty: Faulty<A>, reply: &mut Vec<u8, A>) -> Result<(), AllocError>
        requires { faults_of faulty ≢ [] }
        ensures { OnOk result (IsAnswered reply.old.items reply.new.items self.new
            (assembled self.old faulty (faults_of faulty))) }
    {
        let told = push_fault_list(reply, faulty.faults());
        self.faulty = Some(faulty);
        told
    }

    /// Keeps a program as the last one, and tells what it has made.
    fn keep(&mut self, program: Program<A>, reply: &mut Vec<u8, A>) -> Result<(), AllocError>
        ensures reply { OnOk result (reply.new.items
            ≡ reply.old.items ++ cells_text (image_of program)) }
        ensures after { OnOk result
            (self.new ≡ record self.old { source = Some program; faulty = None }) }
    {
        let told = push_cells(reply, program.image());
        self.program = Some(program);
        self.faulty = None;
        told
    }

    /// Asks for the listing of the last source that assembled.
    pub(super) fn list(&self) -> Reply
        ensures { IsReplied result self.now (replied_to_list self.now) }
    {
        if self.program.is_some() {
            Reply::List
        } else {
            Reply::Refused(Refusal::NoImage)
        }
    }

    /// Appends the listing of the last source that assembled.
    #[tactic(auto, unfolding(crate::specs::SourceCommands::list_text))]
    pub(super) fn push_list(&self, text: &mut Vec<u8, A>) -> Result<(), AllocError>
        ensures { OnOk result (text.new.items ≡ text.old.items ++ list_text self.now.source) }
    {
        let Some(program) = &self.program else {
            return Ok(());
        };
        let listing = program.listing(self.alloc)?;
        text.extend_from_slice(&listing)?;
        Ok(())
    }
}

/// Appends the start of a program.
fn push_start<A: Allocator>(text: &mut Vec<u8, A>, start: Option<Address>) -> Result<(), AllocError>
    ensures { OnOk result (text.new.items ≡ text.old.items ++ start_text start) }
{
    match start {
        Some(start) => push_pieces(text, &[Piece::Place(start), Piece::Text(b"\n")]),
        None => text.extend_from_slice(b"none\n"),
    }
}

/// Appends how many words a source has made, and where it starts.
fn push_cells<A: Allocator>(text: &mut Vec<u8, A>, image: &Image<A>) -> Result<(), AllocError>
    ensures { OnOk result (text.new.items ≡ text.old.items ++ cells_text image.now) }
{
    push_pieces(
        text,
        &[
            Piece::Text(b"cells "),
            Piece::Number(image.cells().len() as u64),
            Piece::Text(b" start "),
        ],
    )?;
    push_start(text, image.start())
}

/// Appends that a source has faults, and a line for each of them.
fn push_fault_list<A: Allocator>(text: &mut Vec<u8, A>, faults: &[Fault]) -> Result<(), AllocError>
    ensures { OnOk result (text.new.items
        ≡ text.old.items ++ (codes "? 9 Faults\n" ++ faults_text faults.now)) }
{
    text.extend_from_slice(b"? 9 Faults\n")?;
    push_faults(text, faults)?;
    Ok(())
}

/// Appends the line of a fault: the number of its line and its kind.
pub fn push_fault_line<A: Allocator>(text: &mut Vec<u8, A>, fault: &Fault) -> Result<(), AllocError>
    ensures { OnOk result (text.new.items ≡ text.old.items ++ fault_line fault.now) }
{
    push_pieces(
        text,
        &[
            Piece::Text(b"line "),
            Piece::Number(fault.line),
            Piece::Text(b" "),
            Piece::Text(fault.kind.name().as_bytes()),
            Piece::Text(b"\n"),
        ],
    )
}

/// Appends a line for each fault.
#[tactic(auto, unfolding(crate::specs::SourceCommands::faults_text))]
pub fn push_faults<A: Allocator>(text: &mut Vec<u8, A>, faults: &[Fault]) -> Result<(), AllocError>
    ensures { OnOk result (text.new.items ≡ text.old.items ++ faults_text faults.now) }
{
    for fault in faults {
        push_fault_line(text, fault)?;
    }
    Ok(())
}
