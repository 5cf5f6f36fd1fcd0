//! Texts of files, looked over before anything of them is done.

ghost use Rattle.std.specs.Prelude.{◌≡◌, ◌+◌, ◌++◌, ◌≤◌, IfOk, OnOk, codes, count_by, length, take};
ghost use Rattle.std.specs.List.{list_any};
ghost use Rattle.std.specs.Result.{result_map_both};
ghost use Rattle.std.specs.Str.{bytes_eq};
ghost use Rattle.std.specs.Str.Lines.{lines};
ghost use Rattle.lgp_flexo.specs.Archive.{codes_of_archive};
ghost use Rattle.lgp_flexo.specs.TapeText.{codes_of_text, written_tape};
ghost use Rattle.lgp_stream.specs.Language.{is_line_feed};
ghost use Rattle.lgp_desk.specs.FileForms.{coded, dump_in, dump_line, dump_lines, simh_dump, tape_in, tape_of};

use crate::files::FileTrouble;
use crate::request::{DrumForm, TapeForm};
use lgp_exchange::{BytesFault, ExaminedFault, read_examined, read_tape_bytes};
use lgp_flexo::{TextFault, read_archive_text, read_tape_text, write_tape_text};
use lgp_listing::dump;
use lgp_stream::{LineBytes, first_line};
use std::alloc::{AllocError, Allocator};

/// Whether a line of a source would end it.
pub(crate) fn has_point(source: &[u8]) -> bool
    ensures { result ≡ list_any (λ line. bytes_eq line (codes ".")) (lines source.now) }
{
    let mut rest = source;
    while !rest.is_empty() {
        let first = first_line(rest);
        if first.line.is_word(b".") {
            return true;
        }
        rest = first.rest;
    }
    false
}

/// Appends a line as a dump has it.
#[tactic(auto, unfolding(crate::specs::FileForms::dump_line))]
fn push_dump_line<A: Allocator>(text: &mut Vec<u8, A>, line: &LineBytes) -> Result<(), AllocError>
    ensures { OnOk result (text.new.items ≡ text.old.items ++ dump_line line.now) }
{
    text.extend_from_slice(line.front())?;
    text.extend_from_slice(if line.is_longer() { b"\0\n" } else { b"\n" })
}

/// The lines of a file as a dump has them.
fn dump_of_lines<A: Allocator>(alloc: A, text: &[u8]) -> Result<Vec<u8, A>, AllocError>
    ensures { IfOk result (λ dump. dump.items ≡ dump_lines (lines text.now)) }
{
    let mut dump = Vec::new(alloc);
    let mut rest = text;
    while !rest.is_empty() {
        let first = first_line(rest);
        push_dump_line(&mut dump, &first.line)?;
        rest = first.rest;
    }
    Ok(dump)
}

/// How many line feeds a text has.
fn line_feeds(text: &[u8]) -> u64
    ensures count { result ≡ count_by is_line_feed text.now }
    ensures within { result ≤ length text.now }
{
    let mut count = 0;
    for byte in text {
        if *byte == b'\n' {
            count += 1;
        }
    }
    count
}

/// The bytes of a text before a place, or all.
fn front_of(text: &[u8], place: usize) -> &[u8]
    ensures { result.now ≡ take place text.now }
{
    text.get(..place).unwrap_or(text)
}

/// Why a text is refused as a tape, but for want of memory.
fn tape_trouble(text: &[u8], place: usize) -> FileTrouble
    ensures { result ≡ FileTrouble.BadSign place (count_by is_line_feed (take place text.now) + 1) }
{
    FileTrouble::BadSign(place as u64, line_feeds(front_of(text, place)) + 1)
}

/// The text of the tape of a file that has it as text, or why it is none.
#[tactic(auto, using(crate::proofs::FormLemmas::tapes))]
fn checked_text<A: Allocator + Copy>(
    alloc: A,
    text: &[u8],
) -> Result<Result<Vec<u8, A>, FileTrouble>, AllocError>
    ensures { IfOk result (λ checked. result_map_both (λ it. it.items) (λ it. it) checked
        ≡ result_map_both written_tape (λ it. it) (tape_in (codes_of_text text.now) text.now)) }
{
    match read_tape_text(alloc, text) {
        Ok(tape) => Ok(Ok(write_tape_text(alloc, &tape)?)),
        Err(TextFault::BadSign(place)) => Ok(Err(tape_trouble(text, place))),
        Err(TextFault::TooLong) => Ok(Err(FileTrouble::LongTape)),
        Err(TextFault::Memory(refused)) => Err(refused),
    }
}

/// The text of the tape of an archive's file, or why it is none.
#[tactic(auto, using(crate::proofs::FormLemmas::tapes))]
fn checked_archive<A: Allocator + Copy>(
    alloc: A,
    text: &[u8],
) -> Result<Result<Vec<u8, A>, FileTrouble>, AllocError>
    ensures { IfOk result (λ checked. result_map_both (λ it. it.items) (λ it. it) checked
        ≡ result_map_both written_tape (λ it. it)
        (tape_in (codes_of_archive text.now) text.now)) }
{
    match read_archive_text(alloc, text) {
        Ok(tape) => Ok(Ok(write_tape_text(alloc, &tape)?)),
        Err(TextFault::BadSign(place)) => Ok(Err(tape_trouble(text, place))),
        Err(TextFault::TooLong) => Ok(Err(FileTrouble::LongTape)),
        Err(TextFault::Memory(refused)) => Err(refused),
    }
}

/// The text of the tape of a file that has a byte for each code, or why it is none.
#[tactic(auto, using(crate::proofs::FormLemmas::bytes))]
fn checked_bytes<A: Allocator + Copy>(
    alloc: A,
    bytes: &[u8],
) -> Result<Result<Vec<u8, A>, FileTrouble>, AllocError>
    ensures { IfOk result (λ checked. result_map_both (λ it. it.items) (λ it. it) checked
        ≡ result_map_both written_tape (λ it. it) (coded bytes.now)) }
{
    match read_tape_bytes(alloc, bytes) {
        Ok(tape) => Ok(Ok(write_tape_text(alloc, &tape)?)),
        Err(BytesFault::NoCode(place)) => Ok(Err(FileTrouble::NoCode(place as u64))),
        Err(BytesFault::TooLong) => Ok(Err(FileTrouble::LongTape)),
        Err(BytesFault::Memory(refused)) => Err(refused),
    }
}

/// The text of the tape that a file has in a form, or why it has none.
pub(crate) fn checked_tape<A: Allocator + Copy>(
    alloc: A,
    form: TapeForm,
    text: &[u8],
) -> Result<Result<Vec<u8, A>, FileTrouble>, AllocError>
    ensures { IfOk result (λ checked. result_map_both (λ it. it.items) (λ it. it) checked
        ≡ result_map_both written_tape (λ it. it) (tape_of form text.now)) }
{
    match form {
        TapeForm::Text => checked_text(alloc, text),
        TapeForm::Archive => checked_archive(alloc, text),
        TapeForm::Bytes => checked_bytes(alloc, text),
    }
}

/// The dump of the words that a text of SIMH's has, or why it has none.
#[tactic(auto, using(crate::proofs::FormLemmas::simh))]
fn simh_dump<A: Allocator + Copy>(
    alloc: A,
    text: &[u8],
) -> Result<Result<Vec<u8, A>, FileTrouble>, AllocError>
    ensures { IfOk result (λ checked. result_map_both (λ it. it.items) (λ it. it) checked
        ≡ simh_dump text.now) }
{
    match read_examined(alloc, text) {
        Ok(drum) => Ok(Ok(dump(alloc, &drum)?)),
        Err(ExaminedFault::Form(line)) => Ok(Err(FileTrouble::BadLine(line))),
        Err(ExaminedFault::Order(line)) => Ok(Err(FileTrouble::LowAddress(line))),
        Err(ExaminedFault::Memory) => Err(AllocError),
    }
}

/// The dump that a file's text stands for in a form, or why it is refused.
pub(crate) fn checked_drum<A: Allocator + Copy>(
    alloc: A,
    form: DrumForm,
    text: &[u8],
) -> Result<Result<Vec<u8, A>, FileTrouble>, AllocError>
    ensures { IfOk result (λ checked. result_map_both (λ it. it.items) (λ it. it) checked
        ≡ dump_in form text.now) }
{
    match form {
        DrumForm::Dump => Ok(Ok(dump_of_lines(alloc, text)?)),
        DrumForm::Simh => simh_dump(alloc, text),
    }
}
