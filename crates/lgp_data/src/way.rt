//! What a machine is doing, and what lets it go on.

ghost use Rattle.std.specs.Prelude.{◌≡◌};
ghost use Rattle.lgp_data.specs.Ways.{halt_sentence, state_sentence, way_kind, way_sentence};

use lgp_table::{Cause, Mode, Status};

/// What lets the machine go on, as a word.
#[tactic(auto, unfolding(crate::specs::Ways::way_kind))]
pub(crate) fn way_kind(status: Status, mode: Mode) -> &'static [u8]
    ensures { result.now ≡ way_kind status mode }
{
    match (status, mode) {
        (Status::Waiting, _) => b"keys",
        (Status::Halted(_), Mode::Manual) => b"normal-start",
        (Status::Halted(_), _) => b"start",
        _ => b"orders",
    }
}

/// What lets the machine go on, in words.
#[tactic(auto, unfolding(crate::specs::Ways::way_sentence))]
pub fn way_sentence(status: Status, mode: Mode) -> &'static [u8]
    ensures { result.now ≡ way_sentence status mode }
{
    match (status, mode) {
        (Status::Waiting, _) => b"press read to start the tape, or press compute to end the input",
        (Status::Halted(_), Mode::Normal) => b"press start to continue",
        (Status::Halted(_), Mode::OneOperation) => b"press start to perform one order",
        (Status::Halted(_), Mode::Manual) => b"press normal and then press start to continue",
        _ => b"use run to continue, or press manual to halt it",
    }
}

/// What halted the machine.
fn halt_sentence(cause: Cause) -> &'static [u8]
    ensures { result.now ≡ halt_sentence cause }
{
    match cause {
        Cause::Operator => b"the operator halted the machine, or has not started it",
        Cause::Stop => b"a stop order halted the machine",
        Cause::Overflow => b"an overflow halted the machine",
        Cause::Step => b"the machine halted after one operation",
    }
}

/// What the machine is doing.
#[tactic(auto, unfolding(crate::specs::Ways::state_sentence))]
pub fn state_sentence(status: Status) -> &'static [u8]
    ensures { result.now ≡ state_sentence status }
{
    match status {
        Status::Halted(cause) => halt_sentence(cause),
        Status::Waiting => b"an input is waiting for codes",
        Status::Going | Status::Executing | Status::Reading => b"the machine is still going",
    }
}
