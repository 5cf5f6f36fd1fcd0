//! Running scripts.

ghost use Rattle.std.specs.Prelude.{◌≡◌, ◌∷◌, ◌++◌, [], IfErr, IfOk, IfSome, OnOk};
ghost use Rattle.std.specs.Io.KnownBytes.{Appends, IsAtEnd};
ghost use Rattle.lgp_script.specs.Files.{heading};
ghost use Rattle.lgp_stream.specs.Language.{HasCause, StandsWritten};
ghost use Rattle.lgp_script.specs.Script.{script_faults, script_language, script_text};
ghost use Rattle.lgp_script.specs.LabState.{opening_state};

use crate::laboratory::Laboratory;
use lgp_stream::{Feed, Sink, StreamFault, run_text, write_whole};
use std::alloc::{AllocError, Allocator};

/// Runs a script: reads commands to the reader's end and writes the reply to each; answers how many replies begin with a
/// question mark.
#[tactic(auto, unfolding(crate::specs::Script::script_replies))]
pub fn run_script<A: Allocator + Copy, R: Feed, W: Sink>(
    alloc: A,
    reader: &mut R,
    writer: &mut W,
) -> Result<u64, StreamFault>
    ensures read { OnOk result (IsAtEnd (R.remaining reader.new)) }
    ensures text { OnOk result (IfSome (R.remaining reader.old) (λ script.
        Appends (W.contents writer.old) (W.contents writer.new) (script_text script))) }
    ensures faults { IfOk result (λ faults. IfSome (R.remaining reader.old) (λ script.
        faults ≡ script_faults script)) }
    ensures cause { IfErr result (λ fault.
        HasCause fault (R.failed reader.new) (W.failed writer.new)) }
    ensures stands { IfErr result (λ fault. IfSome (R.remaining reader.old) (λ script.
        StandsWritten [] (script_language) opening_state fault script
        (R.remaining reader.new) (W.contents writer.old) (W.contents writer.new))) }
{
    let Ok(laboratory) = Laboratory::new(alloc) else {
        return Err(StreamFault::Memory);
    };
    run_text(alloc, laboratory, reader, writer)
}

/// The line that names a script's file.
#[tactic(auto, unfolding(crate::specs::Files::heading))]
fn heading<A: Allocator>(alloc: A, name: &str) -> Result<Vec<u8, A>, AllocError>
    ensures { IfOk result (λ text. text.items ≡ heading name.now) }
{
    let mut text = Vec::new(alloc);
    text.extend_from_slice(b"file ")?;
    text.extend_from_slice(name.as_bytes())?;
    text.push(b'\n')?;
    Ok(text)
}

/// Runs a script of several: writes a line that names its file, and then does as `run_script`. The bytes of that line are counted
/// among those of a failed write.
pub fn batch_part<A: Allocator + Copy, R: Feed, W: Sink>(
    alloc: A,
    name: &str,
    reader: &mut R,
    writer: &mut W,
) -> Result<u64, StreamFault>
    ensures read { OnOk result (IsAtEnd (R.remaining reader.new)) }
    ensures text { OnOk result (IfSome (R.remaining reader.old) (λ script.
        Appends (W.contents writer.old) (W.contents writer.new)
        (heading name.now ++ script_text script))) }
    ensures faults { IfOk result (λ faults. IfSome (R.remaining reader.old) (λ script.
        faults ≡ script_faults script)) }
    ensures cause { IfErr result (λ fault.
        HasCause fault (R.failed reader.new) (W.failed writer.new)) }
    ensures stands { IfErr result (λ fault. IfSome (R.remaining reader.old) (λ script.
        StandsWritten (heading name.now ∷ []) (script_language) opening_state fault
        script (R.remaining reader.new) (W.contents writer.old) (W.contents writer.new))) }
{
    let Ok(heading) = heading(alloc, name) else {
        return Err(StreamFault::Memory);
    };
    write_whole(writer, &heading)?;
    match run_script(alloc, reader, writer) {
        Ok(faults) => Ok(faults),
        Err(fault) => Err(fault.after_bytes(heading.len() as u64)),
    }
}
