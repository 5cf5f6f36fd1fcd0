//! Where files are kept: read whole, and written whole.

ghost use Rattle.std.specs.Prelude.{IfErr, IfOk, List, ℕ};
ghost use Rattle.std.specs.Io.{ReadsAtMost};
ghost use Rattle.std.specs.Result.{result_map_both};
ghost use Rattle.lgp_desk.specs.Files.{AreReads, ByCalls, Closed, FileCall, Handed, IsCutOff, IsFound, IsGiven, IsHanded, Opened, given};

use lgp_stream::Failed;
use std::alloc::{AllocError, Allocator};

/// Why a file is refused.
#[derive(Clone, Copy, Debug, PartialEq, Eq)]
pub enum FileTrouble {
    /// There is none of this name, or it may not be read.
    NotOpened,
    /// A read failed.
    NotRead,
    /// It has more bytes than are read.
    TooLong,
    /// The name is no text.
    NotNamed,
    /// As many files are already open, each from the one before as can be.
    TooDeep,
    /// It is a source with a line that would end it.
    HasPoint,
    /// It is no tape text: the byte at this place, counted from 0, in this line, counted from 1, begins no sign.
    BadSign(u64, u64),
    /// It is no tape of bytes: the byte at this place, counting from 0, is above 63.
    NoCode(u64),
    /// It is no drum of SIMH: the line of this number, counted from 1, is in no form.
    BadLine(u64),
    /// It is no drum of SIMH: the address of the line of this number is not above that of the line before it.
    LowAddress(u64),
    /// Its tape has more codes than a tape may have.
    LongTape,
    /// It could not be written.
    NotWritten,
}

/// Files by their names, of which one at a time is open.
pub trait Files {
    /// What files in one state answer to a call, and in which state they are then.
    ghost answer: { Self → FileCall → Self → Type 0 };

    /// Opens the file of this name, to be read from its first byte on, in the place of one that is open; answers whether that is open now.
    fn open(&mut self, name: &str) -> bool
        ensures { answer self.old (Opened name.now result) self.new };

    /// Reads on in the open file, into the buffer, and answers how many bytes: 0 at its end.
    fn read(&mut self, buffer: &mut [u8]) -> Result<usize, Failed>
        ensures bound { ReadsAtMost result buffer.new }
        ensures given { answer self.old (given result buffer.new) self.new };

    /// Closes the open file.
    fn close(&mut self)
        ensures { answer self.old Closed self.new };

    /// Keeps a text under a name, in place of what is there. Answers whether it is kept; where it is not, what was there is as it was.
    fn keep(&mut self, name: &str, text: &[u8]) -> bool
        ensures { answer self.old (Handed name.now text.now result) self.new };
}

/// The most bytes that a file may have which is read.
pub const FILE_LIMIT: usize = 16_777_216;

/// How many bytes are asked for at once.
const PORTION: usize = 4096;

/// The bytes that the open file has left, or why it is refused.
fn read_whole<A: Allocator, F: Files>(
    alloc: A,
    files: &mut F,
) -> Result<Result<Vec<u8, A>, FileTrouble>, AllocError>
    ensures given { IfOk result (λ read. ByCalls F.answer files.old files.new (λ calls.
        IsGiven calls (result_map_both (λ text. text.items) (λ trouble. trouble) read))) }
    ensures memory { IfErr result (λ _. ByCalls F.answer files.old files.new (λ calls.
        (text : List ℕ) × AreReads calls text)) }
{
    let mut text = Vec::new(alloc);
    let mut portion = [0; PORTION];
    'reads: loop {
        let Ok(count) = files.read(&mut portion) else {
            return Ok(Err(FileTrouble::NotRead));
        };
        if count == 0 {
            return Ok(Ok(text));
        }
        if text.len().saturating_add(count) > FILE_LIMIT {
            return Ok(Err(FileTrouble::TooLong));
        }
        text.extend_from_slice(&portion[..count])?;
    }
}

/// The bytes of the file of a name, or why it is refused.
pub(crate) fn read_file<A: Allocator, F: Files>(
    alloc: A,
    files: &mut F,
    name: &[u8],
) -> Result<Result<Vec<u8, A>, FileTrouble>, AllocError>
    ensures found { IfOk result (λ read. ByCalls F.answer files.old files.new (λ calls.
        IsFound name.now calls
        (result_map_both (λ text. text.items) (λ trouble. trouble) read))) }
    ensures memory { IfErr result (λ _. ByCalls F.answer files.old files.new (λ calls.
        IsCutOff name.now calls)) }
{
    let Ok(name) = str::from_utf8(name) else {
        return Ok(Err(FileTrouble::NotNamed));
    };
    if !files.open(name) {
        return Ok(Err(FileTrouble::NotOpened));
    }
    let read = read_whole(alloc, files);
    files.close();
    read
}

/// Keeps a text under a name, if that is a text itself; answers whether it is kept.
pub(crate) fn keep_file<F: Files>(files: &mut F, name: &[u8], text: &[u8]) -> bool
    ensures { ByCalls F.answer files.old files.new (λ calls.
        IsHanded name.now text.now calls result) }
{
    match str::from_utf8(name) {
        Ok(name) => files.keep(name, text),
        Err(_) => false,
    }
}
