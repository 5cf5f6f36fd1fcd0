//! Runs that end with the order that meets a condition.

ghost use Rattle.std.specs.Prelude.{◌≡◌, ◌++◌, IfOk, None, OnOk};
ghost use Rattle.lgp_stream.specs.Language.{IsAnswered};
ghost use Rattle.lgp_monitor.specs.Monitor.{answer_to_until};
ghost use Rattle.lgp_monitor.specs.Reasons.{is_refusal};
ghost use Rattle.lgp_monitor.specs.Untils.{met_text, replied_until};

use crate::performing::keep_command;
use crate::reason::{is_refusal, push_explained};
use lgp_command::{Command, Count};
use lgp_script::Laboratory;
use lgp_stream::Recorder;
use lgp_when::Until;
use std::alloc::{AllocError, Allocator};

/// Appends whether a condition was met.
#[tactic(auto, unfolding(crate::specs::Untils::met_text))]
fn push_met<A: Allocator>(text: &mut Vec<u8, A>, is_met: bool) -> Result<(), AllocError>
    ensures { OnOk result (text.new.items ≡ text.old.items ++ met_text is_met) }
{
    text.extend_from_slice(if is_met {
        b"        the condition is met\n"
    } else {
        b"        the condition is not met\n"
    })
}

/// Runs until its orders have met a condition as often as is waited for, and keeps the line of a run of as many orders as were performed. Returns whether it is refused.
pub fn run_until<A: Allocator + Copy>(
    alloc: A,
    recorder: &mut Recorder<Laboratory<A>, A>,
    until: Until,
    limit: Count,
    reply: &mut Vec<u8, A>,
) -> Result<bool, AllocError>
    requires { recorder.old.state.opened ≡ None }
    ensures answer { OnOk result (IsAnswered reply.old.items reply.new.items recorder.new
        (answer_to_until recorder.old until limit)) }
    ensures refused { IfOk result (λ refused. refused
        ≡ is_refusal (replied_until until limit recorder.old.state).reply) }
{
    let done = recorder.answers_mut().run_until(&until, limit.get())?;
    let orders = limit.lowered(done.orders);
    keep_command(alloc, recorder, &Command::Run(orders), b"")?;
    push_explained(reply, recorder.answers(), &done.reply)?;
    push_met(reply, done.is_met)?;
    Ok(is_refusal(&done.reply))
}
