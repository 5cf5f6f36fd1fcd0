//! What the program's commands write for a file.

ghost use Rattle.std.specs.Prelude.{◌≡◌, ◌++◌, [], Some, option_map, IfErr, IfOk, IfSome, OnOk, false};
ghost use Rattle.std.specs.Result.{result_map_both, result_ok};
ghost use Rattle.lgp_word.specs.Drum.{blank_words};
ghost use Rattle.lgp_table.specs.State.{opening};
ghost use Rattle.lgp_table.specs.After.{after};
ghost use Rattle.lgp_debugger.specs.Run.{run_of};
ghost use Rattle.std.specs.Io.KnownBytes.{IsAtEnd};
ghost use Rattle.lgp_script.specs.Files.{IsFileAnswer, answer_left, answer_of, asm_answer, run_answer, run_to, tape_answer, taped};
ghost use Rattle.lgp_script.specs.FilesInside.{wanted_of};
ghost use Rattle.lgp_table.specs.Interleaving.{at_boundary};
ghost use Rattle.lgp_stream.specs.Language.{HasCause};
ghost use Rattle.lgp_script.specs.Refusal.{refusal_text};
ghost use Rattle.lgp_script.specs.SourceCommands.{faults_text};
ghost use Rattle.lgp_script.specs.SourceText.{source_of};

use crate::laboratory::{new_debugger, push_faults, push_panel, push_printed};
use crate::program::Program;
use crate::refusal::{Refusal, push_refusal};
use crate::source_text::SourceText;
use lgp_assembler::{AssembleError, Fault};
use lgp_debugger::{Debugger, RunRefusal};
use lgp_flexo::write_tape_text;
use lgp_history::Records;
use lgp_loader::{LoadFault, tape_of};
use lgp_machine::Machine;
use lgp_stream::{CHUNK, Feed, Sink, StreamFault, write_whole};
use std::alloc::{AllocError, Allocator};
use std::marker::Model;

/// Reads a source to the reader's end. Of one that is too long nothing is kept.
#[tactic(auto, unfolding(crate::specs::SourceText::source_of))]
fn read_source<A: Allocator + Copy, R: Feed>(
    alloc: A,
    reader: &mut R,
) -> Result<SourceText<A>, StreamFault>
    ensures read { OnOk result (IsAtEnd (R.remaining reader.new)) }
    ensures source { IfOk result (λ source. IfSome (R.remaining reader.old) (λ bytes.
        source ≡ source_of bytes)) }
    ensures cause { IfErr result (λ fault. HasCause fault (R.failed reader.new) false) }
{
    let mut source = SourceText::new(alloc);
    let mut chunk = [0; CHUNK];
    'reads: loop {
        let Ok(count) = reader.read(&mut chunk) else {
            return Err(StreamFault::Read);
        };
        if count == 0 {
            return Ok(source);
        }
        let Ok(()) = source.push_bytes(&chunk[..count]) else {
            return Err(StreamFault::Memory);
        };
    }
}

/// What is wanted of a source without faults.
#[derive(Clone, Copy)]
enum Wanted {
    /// Its listing.
    Listing,
    /// The text of its tape.
    Tape,
    /// What a run of at most a given number of orders prints and leaves.
    Run(u64),
}

/// What is written for a source, and the status of the program.
#[derive(Drop)]
struct FileReply<A: Allocator> {
    text: Vec<u8, A>,
    status: u64,
}

impl<A: Allocator> Model for FileReply<A> {
    ghost use Rattle.lgp_script.specs.Files.{FileAnswer};

    ghost Value = { FileAnswer };

    ghost view = { λ reply. record { text = reply.text.items; status = reply.status } };
}

impl<A: Allocator + Copy> FileReply<A> {
    /// A refusal, and 1.
    fn refused(alloc: A, refusal: Refusal) -> Result<FileReply<A>, AllocError>
        ensures { IfOk result (λ reply.
            reply ≡ record { text = refusal_text refusal; status = 1 }) }
    {
        let mut text = Vec::new(alloc);
        push_refusal(&mut text, refusal)?;
        Ok(FileReply { text, status: 1 })
    }

    /// A line for each fault, and 1.
    fn faulty(alloc: A, faults: &[Fault]) -> Result<FileReply<A>, AllocError>
        ensures { IfOk result (λ reply.
            reply ≡ record { text = faults_text faults.now; status = 1 }) }
    {
        let mut text = Vec::new(alloc);
        push_faults(&mut text, faults)?;
        Ok(FileReply { text, status: 1 })
    }
}

/// The tape of a program as text, with a line feed.
fn tape_text<A: Allocator + Copy>(alloc: A, program: &Program<A>) -> Result<Vec<u8, A>, AllocError>
    ensures { IfOk result (λ text. text.items ≡ (taped program.now).text) }
{
    let codes = tape_of(alloc, program.image())?;
    let mut text = write_tape_text(alloc, &codes)?;
    text.push(b'\n')?;
    Ok(text)
}

/// Appends what a machine has printed, and its panel.
fn push_left<A: Allocator + Copy>(
    alloc: A,
    text: &mut Vec<u8, A>,
    machine: &Machine<A>,
) -> Result<(), AllocError>
    requires { machine.now ≡ at_boundary machine.now.state }
    ensures { OnOk result
        (text.new.items ≡ text.old.items ++ (answer_left (Some machine.now.state)).text) }
{
    push_printed(alloc, text, machine.printed())?;
    push_panel(text, machine)
}

impl<A: Allocator + Copy> FileReply<A> {
    /// A text, and 0.
    fn written(text: Result<Vec<u8, A>, AllocError>) -> Result<FileReply<A>, AllocError>
        ensures { result ≡ result_map_both (λ it. record { text = it.items; status = 0 }) (λ it. it) text }
    {
        Ok(FileReply {
            text: text?,
            status: 0,
        })
    }

    /// What a machine has printed, and its panel.
    fn left_by(alloc: A, machine: &Machine<A>) -> Result<FileReply<A>, AllocError>
        requires { machine.now ≡ at_boundary machine.now.state }
        ensures { IfOk result (λ reply. reply ≡ answer_left (Some machine.now.state)) }
    {
        let mut text = Vec::new(alloc);
        push_left(alloc, &mut text, machine)?;
        Ok(FileReply { text, status: 0 })
    }

    /// What a run of at most a given number of orders leaves, or that the clock's end stopped it.
    fn run_from(
        alloc: A,
        debugger: &mut Debugger<Records<A>, A>,
        limit: u64,
    ) -> Result<FileReply<A>, AllocError>
        ensures { IfOk result (λ reply. reply ≡ answer_left (option_map
            (λ ran. after debugger.old.state ran.orders)
            (result_ok (run_of [] limit debugger.old.state)))) }
    {
        match debugger.run_freely(limit) {
            Ok(_) => FileReply::left_by(alloc, debugger.machine()),
            Err(broken) => match broken.fault {
                RunRefusal::ClockEnd => FileReply::refused(alloc, Refusal::ClockEnd),
                RunRefusal::Memory => Err(AllocError),
            },
        }
    }

    /// The same of a program, which is first loaded into a machine in its opening state.
    fn run_in(
        alloc: A,
        debugger: &mut Debugger<Records<A>, A>,
        program: &Program<A>,
        limit: u64,
    ) -> Result<FileReply<A>, AllocError>
        requires { debugger.old.state ≡ opening blank_words }
        ensures { IfOk result (λ reply. reply ≡ run_to limit program.now) }
    {
        match debugger.load(alloc, program.image()) {
            Ok(_) => FileReply::run_from(alloc, debugger, limit),
            Err(LoadFault::ClockEnd) => FileReply::refused(alloc, Refusal::ClockEnd),
            Err(LoadFault::Memory) => Err(AllocError),
            Err(LoadFault::Moving | LoadFault::BadCut) => unreachable!(),
        }
    }

    /// The same of a program in a new machine.
    fn ran(alloc: A, program: &Program<A>, limit: u64) -> Result<FileReply<A>, AllocError>
        ensures { IfOk result (λ reply. reply ≡ run_to limit program.now) }
    {
        let mut debugger = new_debugger(alloc, 1)?;
        FileReply::run_in(alloc, &mut debugger, program, limit)
    }

    /// What is wanted of a program.
    fn of_program(
        alloc: A,
        program: &Program<A>,
        wanted: Wanted,
    ) -> Result<FileReply<A>, AllocError>
        ensures { IfOk result (λ reply. reply ≡ wanted_of wanted program.now) }
    {
        match wanted {
            Wanted::Listing => FileReply::written(program.listing(alloc)),
            Wanted::Tape => FileReply::written(tape_text(alloc, program)),
            Wanted::Run(limit) => FileReply::ran(alloc, program, limit),
        }
    }

    /// What is wanted of a source, or why there is none.
    fn of_source(
        alloc: A,
        source: SourceText<A>,
        wanted: Wanted,
    ) -> Result<FileReply<A>, AllocError>
        ensures { IfOk result (λ reply. reply ≡ answer_of (wanted_of wanted) source) }
    {
        if source.is_too_long() {
            return FileReply::refused(alloc, Refusal::TooLong);
        }
        match Program::new(alloc, source.into_text()) {
            Ok(program) => FileReply::of_program(alloc, &program, wanted),
            Err(AssembleError::Faults(list)) => FileReply::faulty(alloc, list.faults()),
            Err(AssembleError::Memory) => Err(AllocError),
        }
    }
}

/// Reads a source to its end, and writes what is wanted of it, or its faults; answers the status.
fn answer_file<A: Allocator + Copy, R: Feed, W: Sink>(
    alloc: A,
    reader: &mut R,
    wanted: Wanted,
    writer: &mut W,
) -> Result<u64, StreamFault>
    requires reader { R.failed reader.old ≡ false }
    requires writer { W.failed writer.old ≡ false }
    ensures { IsFileAnswer (λ bytes. answer_of (wanted_of wanted) (source_of bytes))
        (R.remaining reader.old) (R.remaining reader.new)
        (R.failed reader.new) (W.failed writer.new) (W.contents writer.old) (W.contents writer.new)
        result }
{
    let source = read_source(alloc, reader)?;
    let Ok(reply) = FileReply::of_source(alloc, source, wanted) else {
        return Err(StreamFault::Memory);
    };
    let FileReply { text, status } = reply;
    write_whole(writer, &text)?;
    Ok(status)
}

/// Reads a source to its end and writes its listing, or its faults; answers 0 where it has none, and else 1.
#[tactic(auto, unfolding(crate::specs::Files::asm_answer))]
pub fn asm_file<A: Allocator + Copy, R: Feed, W: Sink>(
    alloc: A,
    reader: &mut R,
    writer: &mut W,
) -> Result<u64, StreamFault>
    requires reader { R.failed reader.old ≡ false }
    requires writer { W.failed writer.old ≡ false }
    ensures { IsFileAnswer asm_answer (R.remaining reader.old) (R.remaining reader.new)
        (R.failed reader.new) (W.failed writer.new) (W.contents writer.old) (W.contents writer.new)
        result }
{
    answer_file(alloc, reader, Wanted::Listing, writer)
}

/// Reads a source to its end and writes the text of its tape and a line feed, or its faults; answers 0 where it has none, and
/// else 1.
#[tactic(auto, unfolding(crate::specs::Files::tape_answer))]
pub fn tape_file<A: Allocator + Copy, R: Feed, W: Sink>(
    alloc: A,
    reader: &mut R,
    writer: &mut W,
) -> Result<u64, StreamFault>
    requires reader { R.failed reader.old ≡ false }
    requires writer { W.failed writer.old ≡ false }
    ensures { IsFileAnswer tape_answer (R.remaining reader.old) (R.remaining reader.new)
        (R.failed reader.new) (W.failed writer.new) (W.contents writer.old) (W.contents writer.new)
        result }
{
    answer_file(alloc, reader, Wanted::Tape, writer)
}

/// Reads a source to its end, loads it into a new machine, performs at most a given number of orders more, and writes what is printed and
/// the panel; or its faults. Answers 0, or 1 where there is a fault or the clock's end is met.
#[tactic(auto, unfolding(crate::specs::Files::run_answer))]
pub fn run_file<A: Allocator + Copy, R: Feed, W: Sink>(
    alloc: A,
    reader: &mut R,
    limit: u64,
    writer: &mut W,
) -> Result<u64, StreamFault>
    requires reader { R.failed reader.old ≡ false }
    requires writer { W.failed writer.old ≡ false }
    ensures { IsFileAnswer (run_answer limit) (R.remaining reader.old) (R.remaining reader.new)
        (R.failed reader.new) (W.failed writer.new) (W.contents writer.old) (W.contents writer.new)
        result }
{
    answer_file(alloc, reader, Wanted::Run(limit), writer)
}
