//! Texts that no line has room for: a dump to restore, and a long tape.

ghost use Rattle.std.specs.Prelude.{◌≡◌, ◌++◌, ◌==◌, ◌∷◌, [], if◌then◌else◌, length, map, not, decimal, codes, true, IfOk, OnOk};
ghost use Rattle.lgp_monitor.specs.Monitor.{answered_with};
ghost use Rattle.lgp_stream.specs.Language.{IsAnswered};
ghost use Rattle.lgp_stream.specs.Transcript.{after_lines, with_line, with_state};
ghost use Rattle.lgp_script.specs.TapeCommands.{replied_to_tape_text};
ghost use Rattle.lgp_script.specs.Script.{script_language};
ghost use Rattle.lgp_monitor.specs.FileTexts.{answer_to_dump, answer_to_tape, changed_cells, dump_fault_text, put_cell, refuses_dump, refuses_tape, rests_at};
ghost use Rattle.lgp_monitor.specs.Reasons.{explained_text, is_refusal, refused_text};

use crate::reason::{is_refusal, push_explained, push_refused};
use lgp_command::{Command, push_command};
use lgp_drum::Drum;
use lgp_listing::{DumpFault, read_dump};
use lgp_machine::Machine;
use lgp_script::{Laboratory, Refusal};
use lgp_stream::Recorder;
use lgp_text::{Piece, push_pieces};
use lgp_word::{Address, Word};
use std::alloc::{AllocError, Allocator};

/// Appends why a text is no dump, which refuses it.
fn refuse_dump<A: Allocator>(text: &mut Vec<u8, A>, fault: DumpFault) -> Result<bool, AllocError>
    ensures text { OnOk result (text.new.items ≡ text.old.items ++ dump_fault_text fault) }
    ensures refused { IfOk result (λ refused. refused ≡ true) }
{
    push_dump_fault(text, fault)?;
    Ok(true)
}

/// Appends why a text is no dump.
#[tactic(auto, unfolding(crate::specs::FileTexts::dump_fault_text))]
fn push_dump_fault<A: Allocator>(text: &mut Vec<u8, A>, fault: DumpFault) -> Result<(), AllocError>
    ensures { OnOk result (text.new.items ≡ text.old.items ++ dump_fault_text fault) }
{
    match fault {
        DumpFault::Form(line) => push_pieces(
            text,
            &[
                Piece::Text(b"? 1 Form: line "),
                Piece::Number(line),
                Piece::Text(b" is not a line of a dump\n"),
            ],
        ),
        DumpFault::Order(line) => push_pieces(
            text,
            &[
                Piece::Text(b"? 1 Form: the address of line "),
                Piece::Number(line),
                Piece::Text(b" is not above that of the line before it\n"),
            ],
        ),
        DumpFault::Memory => Ok(()),
    }
}

/// Appends an address and its word, where another one was there.
fn push_changed<A: Allocator>(
    cells: &mut Vec<(Address, Word), A>,
    address: Address,
    old: Word,
    new: Word,
) -> Result<(), AllocError>
    ensures { OnOk result (cells.new.items
        ≡ cells.old.items ++ (if old == new then [] else (address, new) ∷ [])) }
{
    if old.get() == new.get() {
        return Ok(());
    }
    cells.push((address, new))?;
    Ok(())
}

/// The words of a drum that are not those of a machine, with their addresses.
fn changed_cells<A: Allocator, B: Allocator, C: Allocator>(
    alloc: A,
    machine: &Machine<B>,
    drum: &Drum<C>,
) -> Result<Vec<(Address, Word), A>, AllocError>
    ensures { IfOk result (λ cells. cells.items
        ≡ changed_cells 0 machine.now.state.core.words drum.now) }
{
    let mut cells = Vec::new(alloc);
    for number in 0..4096 {
        let address = Address::new(number).unwrap();
        push_changed(
            &mut cells,
            address,
            machine.word(address),
            drum.word(address),
        )?;
    }
    Ok(cells)
}

/// Puts a word by a line of a script.
fn put_cell<A: Allocator + Copy>(
    alloc: A,
    recorder: &mut Recorder<Laboratory<A>, A>,
    cell: &(Address, Word),
    reply: &mut Vec<u8, A>,
) -> Result<(), AllocError>
    ensures { OnOk result (recorder.new
        ≡ after_lines script_language recorder.old (put_cell cell.now ∷ [])) }
{
    let mut line = Vec::new(alloc);
    push_command(&mut line, &Command::Put(cell.0, cell.1), b"")?;
    recorder.answer_line(&line, reply)
}

/// Puts words by lines of a script, whose replies are thrown away.
fn put_cells<A: Allocator + Copy>(
    alloc: A,
    recorder: &mut Recorder<Laboratory<A>, A>,
    cells: &[(Address, Word)],
) -> Result<(), AllocError>
    ensures { OnOk result (recorder.new
        ≡ after_lines script_language recorder.old (map put_cell cells.now)) }
{
    let mut replies = Vec::new(alloc);
    for cell in cells {
        put_cell(alloc, recorder, cell, &mut replies)?;
    }
    Ok(())
}

/// Puts words, and appends how many these are.
fn restore_cells<A: Allocator + Copy, B: Allocator>(
    alloc: A,
    recorder: &mut Recorder<Laboratory<A>, A>,
    cells: &[(Address, Word)],
    reply: &mut Vec<u8, B>,
) -> Result<(), AllocError>
    ensures { OnOk result (IsAnswered reply.old.items reply.new.items recorder.new
        (answered_with recorder.old
        (codes "restored " ++ (decimal (length cells.now) ++ codes "\n"))
        (map put_cell cells.now))) }
{
    put_cells(alloc, recorder, cells)?;
    push_pieces(
        reply,
        &[
            Piece::Text(b"restored "),
            Piece::Number(cells.len() as u64),
            Piece::Text(b"\n"),
        ],
    )
}

/// Puts the words of a drum, of a machine at rest, where they differ; appends how many these are. Returns whether that is refused.
fn restore_drum<A: Allocator + Copy, B: Allocator>(
    alloc: A,
    recorder: &mut Recorder<Laboratory<A>, A>,
    drum: &Drum<A>,
    reply: &mut Vec<u8, B>,
) -> Result<bool, AllocError>
    ensures answer { OnOk result (IsAnswered reply.old.items reply.new.items recorder.new
        (answered_with recorder.old (if rests_at recorder.old
        then codes "restored " ++ (decimal (length
        (changed_cells 0 recorder.old.state.debugger.state.core.words drum.now)) ++ codes "\n")
        else refused_text Refusal.Moving) (if rests_at recorder.old then map put_cell
        (changed_cells 0 recorder.old.state.debugger.state.core.words drum.now) else []))) }
    ensures refused { IfOk result (λ refused. refused ≡ not (rests_at recorder.old)) }
{
    let debugger = recorder.answers().debugger();
    if !debugger.look().status.is_at_rest() {
        push_refused(reply, &Refusal::Moving)?;
        return Ok(true);
    }
    let cells = changed_cells(alloc, debugger.machine(), drum)?;
    restore_cells(alloc, recorder, &cells, reply)?;
    Ok(false)
}

/// Puts the words of a dump on the drum. Returns whether that is refused.
#[tactic(auto, unfolding(crate::specs::FileTexts::refuses_dump))]
pub(crate) fn restore<A: Allocator + Copy, B: Allocator>(
    alloc: A,
    recorder: &mut Recorder<Laboratory<A>, A>,
    dump: &[u8],
    reply: &mut Vec<u8, B>,
) -> Result<bool, AllocError>
    ensures answer { OnOk result (IsAnswered reply.old.items reply.new.items recorder.new
        (answer_to_dump recorder.old dump.now)) }
    ensures refused { IfOk result (λ refused. refused ≡ refuses_dump recorder.old dump.now) }
{
    match read_dump(alloc, dump) {
        Ok(drum) => restore_drum(alloc, recorder, &drum, reply),
        Err(DumpFault::Form(line)) => refuse_dump(reply, DumpFault::Form(line)),
        Err(DumpFault::Order(line)) => refuse_dump(reply, DumpFault::Order(line)),
        Err(DumpFault::Memory) => Err(AllocError),
    }
}

/// Keeps the line by which a transcript names a tape.
fn keep_tape_line<A: Allocator + Copy>(
    alloc: A,
    recorder: &mut Recorder<Laboratory<A>, A>,
    name: &[u8],
) -> Result<(), AllocError>
    ensures { OnOk result (recorder.new
        ≡ with_line recorder.old (codes "tape " ++ name.now)) }
{
    let mut line = Vec::new(alloc);
    line.extend_from_slice(b"tape ")?;
    line.extend_from_slice(name)?;
    recorder.keep_line(&line)
}

/// Mounts a tape by its text; the answer has the reason of a refusal. Returns whether that is refused.
fn mount_text<A: Allocator + Copy, B: Allocator>(
    alloc: A,
    recorder: &mut Recorder<Laboratory<A>, A>,
    text: &[u8],
    reply: &mut Vec<u8, B>,
) -> Result<bool, AllocError>
    ensures answer { OnOk result (IsAnswered reply.old.items reply.new.items recorder.new (record {
      reply = explained_text (replied_to_tape_text recorder.old.state text.now).after
          (replied_to_tape_text recorder.old.state text.now).reply;
      after = with_state recorder.old
          (replied_to_tape_text recorder.old.state text.now).after;
    })) }
    ensures refused { IfOk result (λ refused. refused
        ≡ is_refusal (replied_to_tape_text recorder.old.state text.now).reply) }
{
    let said = recorder.answers_mut().mount_tape(text)?;
    let mut written = Vec::new(alloc);
    push_explained(&mut written, recorder.answers(), &said)?;
    reply.extend_from_slice(&written)?;
    Ok(is_refusal(&said))
}

/// Mounts a tape, with its name in the transcript. Returns whether that is refused.
#[tactic(auto, unfolding(crate::specs::FileTexts::tape_reply, crate::specs::FileTexts::after_tape, crate::specs::FileTexts::refuses_tape))]
pub(crate) fn mount_tape<A: Allocator + Copy, B: Allocator>(
    alloc: A,
    recorder: &mut Recorder<Laboratory<A>, A>,
    name: &[u8],
    text: &[u8],
    reply: &mut Vec<u8, B>,
) -> Result<bool, AllocError>
    ensures answer { OnOk result (IsAnswered reply.old.items reply.new.items recorder.new
        (answer_to_tape recorder.old name.now text.now)) }
    ensures refused { IfOk result (λ refused. refused ≡ refuses_tape recorder.old text.now) }
{
    keep_tape_line(alloc, recorder, name)?;
    mount_text(alloc, recorder, text, reply)
}
