//! A desk over streams: what it wishes for is done with a reader of lines, with files and with a writer.

ghost use Rattle.std.specs.Prelude.{◌≡◌, IfErr, IfOk, List, OnOk, Some, [], ℕ, false, is_ok, option_map, true};
ghost use Rattle.std.specs.Io.KnownBytes.{Appends};
ghost use Rattle.lgp_stream.specs.Language.{HasCause, StandsOf};
ghost use Rattle.lgp_stream.specs.LineReading.{left_of};
ghost use Rattle.lgp_desk.specs.Desk.{wish_at};
ghost use Rattle.lgp_desk.specs.Files.{ByCalls};
ghost use Rattle.lgp_desk.specs.Sessions.{HasAnswered, IsBegun, IsBrokenOff, IsSession};
ghost use Rattle.lgp_desk.specs.ServedInside.{HasFirsts, IsGranted, IsServed, IsTypedOrClosed, needs_no_file};
ghost use Rattle.lgp_desk.specs.declared.wish.Wish.TheVariants as wishes;

use crate::desk::Desk;
use crate::files::{Files, keep_file, read_file};
use crate::request::Made;
use crate::wish::Wish;
use crate::writing::Manner;
use lgp_lab::FileName;
use lgp_monitor::Progress;
use lgp_stream::{Feed, LineReader, Sink, StreamFault, write_whole};
use std::alloc::{AllocError, Allocator};

/// Reads the file that a desk wishes for, and tells it what is found there: the text that is to be written.
fn grant_read<A: Allocator + Copy, P: Progress, F: Files>(
    alloc: A,
    desk: &mut Desk<A, P>,
    files: &mut F,
) -> Result<Vec<u8, A>, AllocError>
    ensures granted { wish_at desk.old ≡ wishes.Read → IfOk result (λ text.
        ByCalls F.answer files.old files.new (λ calls.
        IsGranted calls desk.old desk.new (Some text.items))) }
    ensures begun { wish_at desk.old ≡ wishes.Read → IfErr result (λ _.
        ByCalls F.answer files.old files.new (λ calls. IsBegun desk.old calls)) }
{
    let read = read_file(alloc, files, desk.file_name().unwrap_or(b""))?;
    desk.found(read)
}

/// Hands over what a desk wishes to keep, and tells it whether that is kept: the text that is to be written.
fn grant_keep<A: Allocator + Copy, P: Progress, F: Files>(
    desk: &mut Desk<A, P>,
    files: &mut F,
    made: Made,
) -> Result<Vec<u8, A>, AllocError>
    ensures granted { wish_at desk.old ≡ wishes.Keep made → IfOk result (λ text.
        ByCalls F.answer files.old files.new (λ calls.
        IsGranted calls desk.old desk.new (Some text.items))) }
    ensures begun { wish_at desk.old ≡ wishes.Keep made → IfErr result (λ _.
        ByCalls F.answer files.old files.new (λ calls. IsBegun desk.old calls)) }
{
    let text = desk.text_made(made)?;
    let kept = keep_file(files, desk.file_name().unwrap_or(b""), &text);
    desk.kept(kept)
}

/// Does what a desk wishes for: the text that is to be written; none where it wishes for a line or for nothing more.
fn grant<A: Allocator + Copy, P: Progress, F: Files>(
    alloc: A,
    desk: &mut Desk<A, P>,
    files: &mut F,
) -> Result<Option<Vec<u8, A>>, AllocError>
    ensures granted { IfOk result (λ said. ByCalls F.answer files.old files.new (λ calls.
        IsGranted calls desk.old desk.new (option_map (λ text. text.items) said))) }
    ensures begun { IfErr result (λ _. ByCalls F.answer files.old files.new (λ calls.
        IsBegun desk.old calls)) }
{
    match desk.wish() {
        Wish::Line | Wish::Nothing => Ok(None),
        Wish::Onward => Ok(Some(desk.onward()?)),
        Wish::Read => Ok(Some(grant_read(alloc, desk, files)?)),
        Wish::Keep(made) => Ok(Some(grant_keep(desk, files, made)?)),
    }
}

/// Writes what a desk says, if there was memory for it.
fn deliver<A: Allocator, W: Sink>(
    writer: &mut W,
    said: Result<Vec<u8, A>, AllocError>,
) -> Result<(), StreamFault>
    ensures made { OnOk result (is_ok said ≡ true) }
    ensures whole { (text : List ℕ) → IfOk said (λ made. made.items ≡ text)
        → OnOk result (Appends (W.contents writer.old) (W.contents writer.new) text) }
    ensures stands { (text : List ℕ) → IfOk said (λ made. made.items ≡ text)
        → IfErr result (λ fault.
        StandsOf text fault (W.contents writer.old) (W.contents writer.new)) }
    ensures cause { IfErr result (λ fault. HasCause fault false (W.failed writer.new)) }
{
    match said {
        Ok(text) => write_whole(writer, &text),
        Err(_) => Err(StreamFault::Memory),
    }
}

/// Does what a desk wishes for, until it wishes for a line or for nothing more. Breaks off after as many steps as 64 bits count, as for
/// want of memory.
fn serve<A: Allocator + Copy, P: Progress, F: Files, W: Sink>(
    alloc: A,
    desk: &mut Desk<A, P>,
    files: &mut F,
    writer: &mut W,
) -> Result<(), StreamFault>
    ensures served { OnOk result (ByCalls F.answer files.old files.new (λ calls.
        IsServed calls desk.old desk.new (W.contents writer.old) (W.contents writer.new))) }
    ensures broken { IfErr result (λ fault. ByCalls F.answer files.old files.new (λ calls.
        IsBrokenOff calls desk.old [] (Some []) None fault
        (W.contents writer.old) (W.contents writer.new))) }
    ensures cause { IfErr result (λ fault. HasCause fault false (W.failed writer.new)) }
{
    for step in 0..u64::MAX {
        let Ok(said) = grant(alloc, desk, files) else {
            return Err(StreamFault::Memory);
        };
        match said {
            Some(text) => write_whole(writer, &text)?,
            None => return Ok(()),
        }
    }
    Err(StreamFault::Memory)
}

/// Tells a desk the next line that is typed, after the prompt; answers whether there is one. Where there is none, writes what the desk
/// says to the end.
fn tell_typed<A: Allocator + Copy, P: Progress, R: Feed, W: Sink>(
    desk: &mut Desk<A, P>,
    lines: &mut LineReader,
    reader: &mut R,
    writer: &mut W,
) -> Result<bool, StreamFault>
    ensures typed { wish_at desk.old ≡ wishes.Line
        → IfOk result (λ is_typed. IsTypedOrClosed is_typed desk.old desk.new
        (left_of lines.old.unread (R.remaining reader.old))
        (left_of lines.new.unread (R.remaining reader.new))
        (W.contents writer.old) (W.contents writer.new)) }
    ensures broken { wish_at desk.old ≡ wishes.Line
        → IfErr result (λ fault. IsBrokenOff [] desk.old []
        (left_of lines.old.unread (R.remaining reader.old)) (R.remaining reader.new) fault
        (W.contents writer.old) (W.contents writer.new)) }
    ensures cause { IfErr result (λ fault.
        HasCause fault (R.failed reader.new) (W.failed writer.new)) }
{
    deliver(writer, desk.prompt())?;
    let Ok(is_typed) = lines.next_line(reader) else {
        return Err(StreamFault::Read);
    };
    if is_typed {
        deliver(writer, desk.typed(lines.line()))?;
    } else {
        deliver(writer, desk.close())?;
    }
    Ok(is_typed)
}

/// The bytes of a name.
fn bytes_of<B: Allocator>(name: &FileName<B>) -> &[u8]
    ensures { result.now ≡ name.now }
{
    name.text().as_bytes()
}

/// Tells a desk the names of files whose lines come before those that are typed.
fn tell_firsts<A: Allocator + Copy, B: Allocator, P: Progress, F: Files, W: Sink>(
    alloc: A,
    desk: &mut Desk<A, P>,
    names: &[FileName<B>],
    files: &mut F,
    writer: &mut W,
) -> Result<(), StreamFault>
    requires { needs_no_file (wish_at desk.old) ≡ true }
    ensures told { OnOk result (ByCalls F.answer files.old files.new (λ calls.
        HasFirsts calls desk.old desk.new names.now
        (W.contents writer.old) (W.contents writer.new))) }
    ensures broken { IfErr result (λ fault. ByCalls F.answer files.old files.new (λ calls.
        IsBrokenOff calls desk.old names.now (Some []) None fault
        (W.contents writer.old) (W.contents writer.new))) }
    ensures cause { IfErr result (λ fault. HasCause fault false (W.failed writer.new)) }
{
    for name in names {
        if let Wish::Nothing = desk.wish() {
            return Ok(());
        }
        deliver(writer, desk.first(bytes_of(name)))?;
        serve(alloc, desk, files, writer)?;
    }
    Ok(())
}

/// Holds a session at a new desk, as `attend` says.
fn hold<A: Allocator + Copy, B: Allocator, P: Progress, F: Files, R: Feed, W: Sink>(
    alloc: A,
    desk: &mut Desk<A, P>,
    names: &[FileName<B>],
    files: &mut F,
    reader: &mut R,
    writer: &mut W,
) -> Result<bool, StreamFault>
    requires { needs_no_file (wish_at desk.old) ≡ true }
    ensures held { IfOk result (λ refused. ByCalls F.answer files.old files.new (λ calls.
        IsSession calls desk.old names.now (R.remaining reader.old) refused
        (W.contents writer.old) (W.contents writer.new))) }
    ensures broken { IfErr result (λ fault. ByCalls F.answer files.old files.new (λ calls.
        IsBrokenOff calls desk.old names.now (R.remaining reader.old) (R.remaining reader.new)
        fault (W.contents writer.old) (W.contents writer.new))) }
    ensures cause { IfErr result (λ fault.
        HasCause fault (R.failed reader.new) (W.failed writer.new)) }
{
    tell_firsts(alloc, desk, names, files, writer)?;
    let mut lines = LineReader::new();
    for step in 0..u64::MAX {
        if let Wish::Nothing = desk.wish() {
            return Ok(desk.has_refused());
        }
        if !tell_typed(desk, &mut lines, reader, writer)? {
            return Ok(desk.has_refused());
        }
        serve(alloc, desk, files, writer)?;
    }
    Err(StreamFault::Memory)
}

/// Answers the lines of files and then typed lines, to the reader's end or to `quit`, and writes the reply to each, in this manner;
/// answers whether a reply was a refusal. Nothing is read after `quit`. How far long runs are is reported while they go on.
pub fn attend<A: Allocator + Copy, B: Allocator, P: Progress, F: Files, R: Feed, W: Sink>(
    alloc: A,
    manner: Manner,
    names: &[FileName<B>],
    files: &mut F,
    progress: P,
    reader: &mut R,
    writer: &mut W,
) -> Result<bool, StreamFault>
    ensures { ByCalls F.answer files.old files.new (λ calls. HasAnswered calls manner names.now
        (R.remaining reader.old) (R.remaining reader.new)
        (record { read = R.failed reader.new; write = W.failed writer.new }) result
        (W.contents writer.old) (W.contents writer.new)) }
{
    let Ok(mut desk) = Desk::new(alloc, manner, progress) else {
        return Err(StreamFault::Memory);
    };
    hold(alloc, &mut desk, names, files, reader, writer)
}
