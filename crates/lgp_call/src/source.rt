//! What is wanted of a source, in one call.
ghost use Rattle.std.specs.Prelude.{◌≡◌, ◌++◌, IfOk, OnOk, false};
ghost use Rattle.lgp_call.specs.Reply.{IsSourceAnswered, source_answer};

use crate::replies::{Replies, give};
use crate::script::Outcome;
use lgp_script::{READS, asm_file, run_file, tape_file};
use lgp_stream::{FeedOf, StreamFault};
use std::alloc::Allocator;

/// Writes what is wanted of a source, by its number; answers 1 where it has a fault or the clock's end is met.
fn write_answer<A: Allocator + Copy>(
    alloc: A,
    wanted: u32,
    limit: u64,
    source: &[u8],
    replies: &mut Replies<A>,
) -> Result<u64, StreamFault>
    requires { replies.old.refused ≡ false }
    ensures text { OnOk result (replies.new.text.items
        ≡ replies.old.text.items ++ (source_answer wanted limit source.now).text) }
    ensures questions { IfOk result (λ questions.
        questions ≡ (source_answer wanted limit source.now).status) }
{
    let mut reader = FeedOf::new(source, READS);
    match wanted {
        0 => asm_file(alloc, &mut reader, replies),
        1 => tape_file(alloc, &mut reader, replies),
        2 => run_file(alloc, &mut reader, limit, replies),
        _ => Ok(0),
    }
}

/// Gives what is wanted of a source, by its number: 0 its listing, 1 the paper tape that loads it, 2 what it prints and the panel when it has run in
/// a new machine until it stops or has performed `limit` orders. Instead of these its faults are given, and where a run meets the clock's end
/// that refusal; then `questions` of the outcome is 1, and otherwise 0.
///
/// All else is as `run_into` does it.
pub fn source_into<A: Allocator + Copy>(
    alloc: A,
    wanted: u32,
    limit: u64,
    source: &[u8],
    room: &mut [u8],
    outcome: &mut Outcome,
) -> u32
    ensures { IsSourceAnswered wanted limit source.now room.old room.new outcome.new result }
{
    let mut replies = Replies::new(alloc);
    let answered = write_answer(alloc, wanted, limit, source, &mut replies);
    give(answered, &replies.text, room, outcome)
}
