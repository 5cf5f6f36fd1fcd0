//! The texts of faults of all crates, each as a program shows it.

use crate::expect_eq;
use lgp_assembler::{AssembleError, assemble};
use lgp_debugger::{HitFault, IdleFault, RuleFault, RunFault, RunRefusal, StepFault, WatchFault};
use lgp_exchange::{BytesFault, ExaminedFault};
use lgp_fields::laws::{
    fields_are_read_back, lines_are_read_back, numbers_are_read_back, objects_are_read_back,
    texts_are_read_back,
};
use lgp_flexo::TextFault;
use lgp_fraction::FractionFault;
use lgp_history::BackFault;
use lgp_keyin::KeyFault;
use lgp_lab::LabFault;
use lgp_listing::DumpFault;
use lgp_loader::{CutFault, LoadFault};
use lgp_machine::{MountFault, OrderFault, PlayFault, PressFault, PutFault, RestFault, TurnFault};
use lgp_task::TaskFault;
use std::alloc::Global;
use std::fmt::Display;

/// Appends how a fault is shown, and a line feed; false without memory.
fn is_told<T: Display + Drop>(alloc: Global, text: &mut Vec<u8>, fault: T) -> bool {
    match format!(in alloc; "{fault}\n") {
        Ok(told) => text.extend_from_slice(told.as_bytes()).is_ok(),
        Err(_) => false,
    }
}

/// The same of several.
fn are_told<T: Display + Copy + Drop>(alloc: Global, text: &mut Vec<u8>, faults: &[T]) -> bool {
    for fault in faults {
        if !is_told(alloc, text, *fault) {
            return false;
        }
    }
    true
}

/// The same of the refusal of a source with a fault.
fn is_source_told(alloc: Global, text: &mut Vec<u8>) -> bool {
    match assemble(alloc, b" q\n") {
        Ok(_) => false,
        Err(fault) => is_told(alloc, text, fault),
    }
}

const PLAY: PlayFault = PlayFault {
    done: 7,
    fault: TurnFault::ClockEnd,
};

const RUN: RunFault = RunFault {
    orders: 7,
    fault: RunRefusal::ClockEnd,
};

/// Faults of texts that are read; false without memory.
fn of_texts(alloc: Global, text: &mut Vec<u8>) -> bool {
    are_told(
        alloc,
        text,
        &[FractionFault::Form, FractionFault::OutOfRange],
    ) && is_told(alloc, text, TextFault::BadSign(7))
        && is_told(alloc, text, TextFault::TooLong)
        && is_told(alloc, text, BytesFault::NoCode(7))
        && is_told(alloc, text, BytesFault::TooLong)
        && are_told(
            alloc,
            text,
            &[
                ExaminedFault::Form(7),
                ExaminedFault::Order(7),
                ExaminedFault::Memory,
            ],
        )
        && are_told(
            alloc,
            text,
            &[DumpFault::Form(7), DumpFault::Order(7), DumpFault::Memory],
        )
        && is_source_told(alloc, text)
        && is_told(alloc, text, AssembleError::<Global>::Memory)
}

/// Faults of the machine, and of what keys in and loads; false without memory.
fn of_machines(alloc: Global, text: &mut Vec<u8>) -> bool {
    are_told(alloc, text, &[PressFault::Full])
        && are_told(alloc, text, &[TurnFault::ClockEnd, TurnFault::Memory])
        && are_told(alloc, text, &[PLAY])
        && are_told(
            alloc,
            text,
            &[
                OrderFault::Moving,
                OrderFault::AtRest,
                OrderFault::ClockEnd,
                OrderFault::Memory,
            ],
        )
        && are_told(alloc, text, &[RestFault::AtWork, RestFault::ClockEnd])
        && are_told(
            alloc,
            text,
            &[MountFault::Moving, MountFault::TooLong, MountFault::Memory],
        )
        && are_told(alloc, text, &[PutFault::Moving, PutFault::Memory])
        && are_told(
            alloc,
            text,
            &[KeyFault::Moving, KeyFault::PastEnd, KeyFault::ClockEnd],
        )
        && are_told(
            alloc,
            text,
            &[
                LoadFault::Moving,
                LoadFault::ClockEnd,
                LoadFault::Memory,
                LoadFault::BadCut,
            ],
        )
        && are_told(alloc, text, &[CutFault::BadCut, CutFault::Memory])
}

/// Faults of the debugger, of scripts and of the command line; false without memory.
fn of_runs(alloc: Global, text: &mut Vec<u8>) -> bool {
    are_told(alloc, text, &[BackFault::TooFar(7), BackFault::Memory])
        && are_told(
            alloc,
            text,
            &[StepFault::AtRest, StepFault::ClockEnd, StepFault::Memory],
        )
        && are_told(
            alloc,
            text,
            &[IdleFault::AtWork, IdleFault::ClockEnd, IdleFault::Memory],
        )
        && are_told(alloc, text, &[RuleFault::Full])
        && are_told(alloc, text, &[HitFault::NoHit(7), HitFault::Memory])
        && are_told(alloc, text, &[RunRefusal::ClockEnd, RunRefusal::Memory])
        && are_told(alloc, text, &[RUN])
        && are_told(
            alloc,
            text,
            &[WatchFault::Refused(StepFault::ClockEnd), WatchFault::Unseen],
        )
        && are_told(
            alloc,
            text,
            &[LabFault::Read, LabFault::Write(7), LabFault::Memory],
        )
        && is_told(alloc, text, TaskFault::<Global>::Memory)
}

/// How they are shown.
const TOLD: &[u8] = b"not a decimal fraction
not from -1 to below 1
neither a sign nor a group at byte 7
more than 1048576 codes
the byte at 7 is above 63
more than 1048576 codes
line 7 is neither a word that SIMH shows nor one that it is given
the address of line 7 is not above that of the line before it
no memory for the drum
line 7 is no line of a dump
the address of line 7 is not above that of the line before it
no memory for the drum
the source has faults
no memory for the image
16 actions are kept already
the clock has ended
out of memory for a printed code
event 7: the clock has ended
an activity has been begun
the machine is at rest
the clock would pass its end
out of memory for a printed code
the machine is at work
the clock would pass its end
the machine is not at rest
the tape has more than 1048576 codes
out of memory
the machine is not at rest
out of memory
an activity has been begun
the words go past the end of the drum
the clock would pass its end
an activity has been begun
the clock would pass its end
out of memory for the tape
these are not the lengths of blocks
these are not the lengths of blocks
out of memory for the tape
only 7 orders are kept
out of memory
the machine is at rest
the clock would pass its end
out of memory
the machine is at work
the clock would pass its end
out of memory
there are 64 rules already
no rule hits any of the 7 orders that are kept
out of memory
the clock would pass its end
out of memory
after 7 orders: the clock would pass its end
the clock would pass its end
out of memory for what the order showed
the text cannot be read
the replies cannot be written past byte 7
out of memory
out of memory
";

/// How all faults are shown; `None` without memory.
fn told(alloc: Global) -> Option<bool> {
    let mut text = Vec::new(alloc);
    if of_texts(alloc, &mut text) && of_machines(alloc, &mut text) && of_runs(alloc, &mut text) {
        Some(text.as_slice() == TOLD)
    } else {
        None
    }
}

#[test]
fn faults_have_their_texts(rt: HostRuntime) {
    expect_eq(&rt, told(rt.alloc()), Some(true));
}

#[test]
fn the_laws_do_nothing(_rt: HostRuntime) {
    texts_are_read_back();
    numbers_are_read_back();
    lines_are_read_back();
    objects_are_read_back();
    fields_are_read_back();
}
