//! A whole script in one call.
ghost use Rattle.std.specs.Prelude.{◌≡◌, ◌++◌, IfOk, OnOk, false};
ghost use Rattle.lgp_call.specs.Reply.{IsScriptGiven};
ghost use Rattle.lgp_script.specs.Script.{script_faults, script_text};

use crate::replies::{Replies, give};
use lgp_script::{READS, run_script};
use lgp_stream::{FeedOf, StreamFault};
use std::alloc::Allocator;

/// What a script was answered.
#[repr(C)]
#[derive(Drop)]
pub struct Outcome {
    /// How many replies begin with a question mark.
    pub questions: u64,
    /// How many bytes the replies have.
    pub length: u64,
}

/// Writes the replies to a script; answers how many of them begin with a question mark.
fn write_replies<A: Allocator + Copy>(
    alloc: A,
    script: &[u8],
    replies: &mut Replies<A>,
) -> Result<u64, StreamFault>
    requires { replies.old.refused ≡ false }
    ensures text { OnOk result (replies.new.text.items
        ≡ replies.old.text.items ++ script_text script.now) }
    ensures questions { IfOk result (λ questions. questions ≡ script_faults script.now) }
{
    run_script(alloc, &mut FeedOf::new(script, READS), replies)
}

/// Runs a script from a machine in its opening state, and writes the replies into the room, as far as they fit.
///
/// The answer is the program's status: 0 where all is well; 1 where some reply begins with a question mark; 2 where the script could
/// not be read, which none of less than 2^32 bytes meets; 3 where there was not enough memory. With 2 and 3 nothing is written into the
/// room, and both numbers of the outcome are 0. Where the outcome's length is more than the room's, the same call with more room gives
/// all replies.
pub fn run_into<A: Allocator + Copy>(
    alloc: A,
    script: &[u8],
    room: &mut [u8],
    outcome: &mut Outcome,
) -> u32
    ensures { IsScriptGiven script.now room.old room.new outcome.new result }
{
    let mut replies = Replies::new(alloc);
    let answered = write_replies(alloc, script, &mut replies);
    give(answered, &replies.text, room, outcome)
}
