//! What is said after replies: the reasons of refusals, and the machine's state after a run that is reported.

ghost use Rattle.std.specs.Prelude.{◌≡◌, ◌++◌, OnOk};
ghost use Rattle.lgp_monitor.specs.Reasons.{explained_text, is_refusal, leaves_open, ran_text_in, reason_of, refused_text, run_end_text, stood_text};

use crate::run_end::{ends_open, push_ran, push_stand};
use crate::telling::Report;
use lgp_fields::RecordForm;
use lgp_script::{Laboratory, Refusal, Reply, push_refusal_words};
use lgp_text::{Piece, push_pieces};
use std::alloc::{AllocError, Allocator};

/// Why a command is refused.
#[tactic(auto, unfolding(crate::specs::Reasons::reason_of))]
fn reason_of(refusal: &Refusal) -> &'static [u8]
    ensures { result.now ≡ reason_of refusal.now }
{
    match refusal {
        Refusal::Form => b"no command has this form",
        Refusal::Moving => b"the machine is running; press manual to halt it",
        Refusal::AtWork => b"the machine is running, and turn needs it to be at rest",
        Refusal::ClockEnd => b"the clock would pass its limit, 4611686018427387904",
        Refusal::Full => b"there are already 64 rules; drop removes one",
        Refusal::NoRule => b"no rule has this number; the command rules lists them",
        Refusal::TooFar(_) => b"only this many orders are kept",
        Refusal::NoHit(_) => b"this many orders are kept, and no rule hits any of them",
        Refusal::NoImage => b"no source has been assembled yet",
        Refusal::TooLong => b"a line may have at most 4096 bytes, a source at most 1048576",
        Refusal::BadSign(_) => {
            b"the byte at this position in the text, counting from 0, does not begin a tape sign"
        }
    }
}

/// Appends a refusal with its reason.
#[tactic(auto, unfolding(crate::specs::Reasons::refused_text))]
pub fn push_refused<A: Allocator>(
    text: &mut Vec<u8, A>,
    refusal: &Refusal,
) -> Result<(), AllocError>
    ensures { OnOk result (text.new.items ≡ text.old.items ++ refused_text refusal.now) }
{
    push_refusal_words(text, refusal)?;
    push_pieces(
        text,
        &[
            Piece::Text(b": "),
            Piece::Text(reason_of(refusal)),
            Piece::Text(b"\n"),
        ],
    )
}

/// Appends a reply, a refusal with its reason.
#[tactic(auto, unfolding(crate::specs::Reasons::explained_text))]
pub fn push_explained<A: Allocator + Copy>(
    text: &mut Vec<u8, A>,
    laboratory: &Laboratory<A>,
    reply: &Reply,
) -> Result<(), AllocError>
    ensures { OnOk result (text.new.items
        ≡ text.old.items ++ explained_text laboratory.now reply.now) }
{
    match reply {
        Reply::Refused(refusal) => push_refused(text, refusal),
        _ => laboratory.push_reply(text, reply),
    }
}

/// Whether a reply is a refusal.
pub fn is_refusal(reply: &Reply) -> bool
    ensures { result ≡ is_refusal reply.now }
{
    matches!(reply, Reply::Refused(_))
}

/// Whether a reply leaves open in which state the machine is.
fn leaves_open(reply: &Reply) -> bool
    ensures { result ≡ leaves_open reply.now }
{
    match reply {
        Reply::Ran(ran) => ends_open(ran),
        _ => false,
    }
}

/// Appends the reply to a run that is reported in columns, with what is said after it.
#[tactic(auto, unfolding(crate::specs::Reasons::stood_text))]
fn push_stood<A: Allocator + Copy>(
    text: &mut Vec<u8, A>,
    laboratory: &Laboratory<A>,
    reply: &Reply,
) -> Result<(), AllocError>
    ensures { OnOk result (text.new.items
        ≡ text.old.items ++ stood_text laboratory.now reply.now) }
{
    push_explained(text, laboratory, reply)?;
    if !leaves_open(reply) {
        return Ok(());
    }
    let look = laboratory.debugger().look();
    push_stand(text, look.status, look.mode)
}

/// Appends the reply to a run that is reported by records, as a record; a refusal with its reason.
fn push_ran_record<A: Allocator + Copy>(
    text: &mut Vec<u8, A>,
    form: RecordForm,
    laboratory: &Laboratory<A>,
    reply: &Reply,
) -> Result<(), AllocError>
    ensures { OnOk result (text.new.items
        ≡ text.old.items ++ ran_text_in form laboratory.now reply.now) }
{
    match reply {
        Reply::Ran(ran) => {
            let look = laboratory.debugger().look();
            push_ran(text, form, ran, look.status, look.mode)
        }
        _ => push_explained(text, laboratory, reply),
    }
}

/// Appends the reply to a run that is reported in a form, with what is said after it.
#[tactic(auto, unfolding(crate::specs::Reasons::run_end_text))]
pub fn push_run_end<A: Allocator + Copy>(
    text: &mut Vec<u8, A>,
    form: Report,
    laboratory: &Laboratory<A>,
    reply: &Reply,
) -> Result<(), AllocError>
    ensures { OnOk result (text.new.items
        ≡ text.old.items ++ run_end_text form laboratory.now reply.now) }
{
    match form {
        Report::Columns => push_stood(text, laboratory, reply),
        Report::Records(form) => push_ran_record(text, form, laboratory, reply),
    }
}
