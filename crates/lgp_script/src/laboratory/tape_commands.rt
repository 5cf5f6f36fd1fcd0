//! The tape and the paper.

ghost use Rattle.std.specs.Prelude.{◌≡◌, ◌++◌, ◌≤◌, IfErr, IfOk, OnOk, codes, decimal, length, vec_len};
ghost use Rattle.lgp_flexo.specs.TapeText.{codes_of_text};
ghost use Rattle.lgp_stream.specs.KeptLine.{line_limit};
ghost use Rattle.lgp_script.specs.Reply.{IsReplied};
ghost use Rattle.lgp_script.specs.Script.{replied_to_text};
ghost use Rattle.lgp_script.specs.TapeCommands.{printed_text, replied_to_tape, replied_to_tape_text};

use super::Laboratory;
use crate::refusal::Refusal;
use crate::reply::Reply;
use lgp_flexo::{Code, TextFault, read_tape_text, write_tape_text};
use lgp_machine::MountFault;
use lgp_text::{Piece, push_pieces};
use std::alloc::{AllocError, Allocator};

impl<A: Allocator + Copy> Laboratory<A> {
    /// Mounts a tape given by its text, which has to fit on a line.
    pub(super) fn mount(&mut self, text: &[u8]) -> Result<Reply, AllocError>
        ensures { IfOk result (λ reply. IsReplied reply self.new
            (replied_to_text 4090 replied_to_tape self.old text.now)) }
    {
        if text.len() > 4090 {
            return Ok(Reply::Refused(Refusal::TooLong));
        }
        match read_codes(self.alloc, text)? {
            Ok(codes) => self.mount_codes(codes),
            Err(place) => Ok(Reply::Refused(Refusal::BadSign(place))),
        }
    }

    /// Mounts a tape given by its text, of any length, as the command `mount` does; a tape of more than 1,048,576 codes is
    /// refused as too long. A refused growth leaves open what was done.
    pub fn mount_tape(&mut self, text: &[u8]) -> Result<Reply, AllocError>
        ensures { IfOk result (λ reply. IsReplied reply self.new
            (replied_to_tape_text self.old text.now)) }
    {
        match read_tape_text(self.alloc, text) {
            Ok(codes) => self.mount_codes(codes),
            Err(TextFault::BadSign(place)) => { Ok(Reply::Refused(Refusal::BadSign(place as u64))) }
            Err(TextFault::TooLong) => Ok(Reply::Refused(Refusal::TooLong)),
            Err(TextFault::Memory(refused)) => Err(refused),
        }
    }

    /// Mounts a tape.
    fn mount_codes(&mut self, codes: Vec<Code, A>) -> Result<Reply, AllocError>
        requires { vec_len codes ≤ 1048576 }
        ensures { IfOk result (λ reply. IsReplied reply self.new
            (replied_to_tape self.old (Ok codes.items))) }
    {
        let count = codes.len() as u64;
        match self.debugger.mount(codes) {
            Ok(()) => Ok(Reply::Mounted(count)),
            Err((MountFault::Moving, _)) => Ok(Reply::Refused(Refusal::Moving)),
            Err((MountFault::TooLong, _)) => unreachable!(),
            Err((MountFault::Memory, _)) => Err(AllocError),
        }
    }
}

/// Reads a tape's text of at most one line: its codes, or its first bad place.
pub(super) fn read_codes<A: Allocator + Copy>(
    alloc: A,
    text: &[u8],
) -> Result<Result<Vec<Code, A>, u64>, AllocError>
    requires { length text.now ≤ line_limit }
    ensures codes { IfOk result (λ read. IfOk read (λ codes.
        codes_of_text text.now ≡ Ok codes.items)) }
    ensures few { IfOk result (λ read. IfOk read (λ codes. vec_len codes ≤ 1048576)) }
    ensures bad_place { IfOk result (λ read. IfErr read (λ place.
        codes_of_text text.now ≡ Err place)) }
{
    match read_tape_text(alloc, text) {
        Ok(codes) => Ok(Ok(codes)),
        Err(TextFault::BadSign(place)) => Ok(Err(place as u64)),
        Err(TextFault::TooLong) => unreachable!(),
        Err(TextFault::Memory(refused)) => Err(refused),
    }
}

/// Appends a given number of codes by their text.
fn push_written<A: Allocator>(
    text: &mut Vec<u8, A>,
    count: u64,
    written: &[u8],
) -> Result<(), AllocError>
    ensures { OnOk result (text.new.items ≡ text.old.items
        ++ (codes "printed " ++ (decimal count ++ (codes " " ++ (written.now ++ codes "\n"))))) }
{
    push_pieces(
        text,
        &[
            Piece::Text(b"printed "),
            Piece::Number(count),
            Piece::Text(b" "),
        ],
    )?;
    text.extend_from_slice(written)?;
    text.extend_from_slice(b"\n")
}

/// Appends what is printed.
#[tactic(auto, unfolding(crate::specs::TapeCommands::printed_text))]
pub fn push_printed<A: Allocator + Copy>(
    alloc: A,
    text: &mut Vec<u8, A>,
    codes: &[Code],
) -> Result<(), AllocError>
    ensures { OnOk result (text.new.items ≡ text.old.items ++ printed_text codes.now) }
{
    if codes.is_empty() {
        return text.extend_from_slice(b"printed 0\n");
    }
    let written = write_tape_text(alloc, codes)?;
    push_written(text, codes.len() as u64, &written)
}
