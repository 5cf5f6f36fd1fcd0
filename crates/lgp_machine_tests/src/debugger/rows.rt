//! Worked examples: what is called, and what each call answers.

use super::calls::{Button, Named, Row, first_wrong, with_order};
use crate::history::{Job, Kind, over_kind};
use crate::{PRINT, TRANSFER, expect_eq};
use lgp_debugger::{HitFault, IdleFault, Reason, RuleFault, StepFault};
use lgp_history::{BackFault, History};
use lgp_loader::LoadFault;
use lgp_machine::{MountFault, PutFault};
use lgp_table::{Cause, Status};
use std::alloc::{AllocError, Allocator};

/// Calls of a debugger over a new machine, with what each has to answer.
struct Example {
    /// How many steps the history keeps at most.
    capacity: usize,
    /// The word that is at 0000 at first.
    first: u32,
    rows: &'static [Row],
}

/// A printed code goes back, and so does the clock.
const PRINT_GOES_BACK: Example = Example {
    capacity: 4096,
    first: 0,
    rows: &[
        Row::Put(0, PRINT, Ok(())),
        Row::Press(Button::Start, true),
        Row::Step(Ok(451)),
        Row::Printed((1, Some(57))),
        Row::Idle(1, Err(IdleFault::AtWork)),
        Row::Back(0, Ok(())),
        Row::Clock(451),
        Row::Back(1, Ok(())),
        Row::Clock(0),
        Row::Printed((0, None)),
        Row::Back(1, Err(BackFault::TooFar(0))),
    ],
};

/// Four steps are kept of eleven.
const LATEST_STEPS: Example = Example {
    capacity: 4,
    first: TRANSFER,
    rows: &[
        Row::Press(Button::Start, true),
        Row::Steps(10, 10),
        Row::Clock(643),
        Row::Back(5, Err(BackFault::TooFar(4))),
        Row::Clock(643),
        Row::Back(4, Ok(())),
        Row::Clock(387),
        Row::All(Status::Going, 0, 0, TRANSFER, false),
        Row::Kept((0, 0)),
    ],
};

/// Rules stop runs, and the last hits are found again: the program adds the word at 0051 to that at 0050, again and again.
const RULES: Example = Example {
    capacity: 4096,
    first: 0x0001_00c8,
    rows: &[
        Row::Put(1, 0x000e_00cc, Ok(())),
        Row::Put(2, 0x000c_00c8, Ok(())),
        Row::Put(3, TRANSFER, Ok(())),
        Row::Put(51, 2, Ok(())),
        Row::Press(Button::Start, true),
        Row::AddRule(Named::At(2), Ok(0)),
        Row::Ran(100, 2, Reason::Rule(0)),
        Row::RemoveRule(0, Some(Named::At(2))),
        Row::AddRule(Named::Changed(50), Ok(0)),
        Row::Ran(100, 1, Reason::Rule(0)),
        Row::Ran(100, 4, Reason::Rule(0)),
        Row::LastHit(Ok((1, 0))),
        Row::WordAt(50, 2),
        Row::LastHit(Ok((4, 0))),
        Row::LastHit(Err(HitFault::NoHit(2))),
        Row::RemoveRule(1, None),
    ],
};

/// No rule stops a free run; an order of a run tells of the rule that does. The program is the same.
const FREE_RUN: Example = Example {
    capacity: 4096,
    first: 0x0001_00c8,
    rows: &[
        Row::Put(1, 0x000e_00cc, Ok(())),
        Row::Put(2, 0x000c_00c8, Ok(())),
        Row::Put(3, TRANSFER, Ok(())),
        Row::Put(51, 2, Ok(())),
        Row::GoOn(Err(StepFault::AtRest)),
        Row::Press(Button::Start, true),
        Row::AddRule(Named::Changed(50), Ok(0)),
        Row::AddRule(Named::At(2), Ok(1)),
        Row::RanFreely(5, 5, Reason::Limit),
        Row::WordAt(50, 2),
        Row::GoOn(Ok(Some(1))),
        Row::GoOn(Ok(Some(0))),
        Row::WordAt(50, 4),
        Row::GoOn(Ok(None)),
        Row::Kept((13, 8)),
        Row::Press(Button::Manual, true),
        Row::RanFreely(5, 0, Reason::Rest),
        Row::Back(3, Ok(())),
        Row::WordAt(50, 2),
    ],
};

/// A hundred steps, and back to the first order.
const HUNDRED_STEPS: Example = Example {
    capacity: 100,
    first: TRANSFER,
    rows: &[
        Row::Press(Button::Start, true),
        Row::Steps(99, 99),
        Row::Kept((100, 99)),
        Row::Clock(6339),
        Row::Back(99, Ok(())),
        Row::Clock(0),
        Row::All(Status::Going, 0, 0, 0, false),
        Row::Kept((1, 0)),
        Row::Step(Ok(67)),
        Row::Kept((2, 1)),
    ],
};

/// An input taken back: the codes are left again, and the reader is on.
const INPUT_GOES_BACK: Example = Example {
    capacity: 100,
    first: 0x0008_0000,
    rows: &[
        Row::Put(1, 0x0004_0000, Ok(())),
        Row::Mount(b"12[16]3'", Ok(())),
        Row::Press(Button::Start, true),
        Row::Steps(2, 2),
        Row::TapeLeft(0),
        Row::Back(1, Ok(())),
        Row::Clock(67),
        Row::All(Status::Going, 1, 0, 0x0008_0000, true),
        Row::TapeLeft(5),
    ],
};

/// A word put and a tape mounted are taken back with the orders before them.
const PUTS_AND_MOUNTS: Example = Example {
    capacity: 100,
    first: 0,
    rows: &[
        Row::Put(0, TRANSFER, Ok(())),
        Row::Press(Button::Start, true),
        Row::Steps(2, 2),
        Row::Press(Button::Manual, true),
        Row::Put(64, 4, Ok(())),
        Row::Mount(b"a", Ok(())),
        Row::Press(Button::Normal, true),
        Row::Press(Button::Start, true),
        Row::Steps(1, 1),
        Row::Back(2, Ok(())),
        Row::Clock(67),
        Row::WordAt(64, 0),
        Row::TapeLeft(0),
        Row::Back(1, Ok(())),
        Row::Clock(0),
        Row::Back(1, Err(BackFault::TooFar(0))),
    ],
};

/// A `y` changes the address part of the word at 0002 and nothing else of it; back over it all of the word is as it was.
const ADDRESS_PART_GOES_BACK: Example = Example {
    capacity: 100,
    first: 0x0001_00c8,
    rows: &[
        Row::Put(1, 0x0002_0008, Ok(())),
        Row::Put(2, 0x9abc_def0, Ok(())),
        Row::Put(50, 0x0000_0100, Ok(())),
        Row::Press(Button::Start, true),
        Row::Steps(2, 2),
        Row::WordAt(2, 0x9abc_c100),
        Row::Back(1, Ok(())),
        Row::WordAt(2, 0x9abc_def0),
        Row::Back(1, Ok(())),
        Row::Clock(0),
    ],
};

/// A load takes 23 orders, and no step is kept after it.
const LOAD: Example = Example {
    capacity: 8,
    first: 0,
    rows: &[
        Row::Put(0, TRANSFER, Ok(())),
        Row::Kept((1, 0)),
        Row::Load(b" org 0100\n word 00000004\n end", Ok(23)),
        Row::Clock(15342),
        Row::All(
            Status::Halted(Cause::Stop),
            4052,
            0x8000_0000,
            0x8000_0000,
            false,
        ),
        Row::WordAt(64, 4),
        Row::Kept((0, 0)),
    ],
};

/// One word time before the clock's end the order that stores the loader's first word is keyed in, and not performed.
const LOAD_AT_THE_END: Example = Example {
    capacity: 8,
    first: 0,
    rows: &[
        Row::Idle((1 << 62) - 1, Ok(())),
        Row::Load(b" end", Err(LoadFault::ClockEnd)),
        Row::Clock((1 << 62) - 1),
        Row::All(Status::Executing, 0, 0x0008_0000, 0x000c_3f00, false),
        Row::WordAt(4032, 0),
        Row::Kept((0, 0)),
    ],
};

/// Word times at rest, and calls that do nothing.
const AT_REST: Example = Example {
    capacity: 4,
    first: 0,
    rows: &[
        Row::Step(Err(StepFault::AtRest)),
        Row::Idle(0, Ok(())),
        Row::Kept((0, 0)),
        Row::Idle(5, Ok(())),
        Row::Clock(5),
        Row::Kept((1, 0)),
        Row::Press(Button::StartCompute, false),
        Row::Kept((1, 0)),
        Row::Ran(10, 0, Reason::Rest),
    ],
};

/// Of orders, a run and word times at rest that would pass the clock's end each is refused. The sector after the start comes seven
/// word times later; so the first transfer ends 189 word times before the clock's end, and the third 61.
const CLOCK_END: Example = Example {
    capacity: 100,
    first: TRANSFER,
    rows: &[
        Row::Idle(u64::MAX, Err(IdleFault::ClockEnd)),
        Row::Idle((1 << 62) - 200, Ok(())),
        Row::Idle(201, Err(IdleFault::ClockEnd)),
        Row::Press(Button::Start, true),
        Row::Stopped(10, 3),
        Row::Step(Err(StepFault::ClockEnd)),
        Row::GoOn(Err(StepFault::ClockEnd)),
        Row::Clock((1 << 62) - 61),
        Row::Kept((5, 3)),
        Row::Mount(b"1", Err((MountFault::Moving, 1))),
        Row::Put(0, 4, Err(PutFault::Moving)),
        Row::Back(3, Ok(())),
        Row::Clock((1 << 62) - 200),
        Row::AddRule(Named::At(0), Ok(0)),
        Row::StoppedFreely(10, 3),
        Row::RemoveRule(0, Some(Named::At(0))),
        Row::Kept((5, 3)),
        Row::Back(3, Ok(())),
        Row::Ran(3, 3, Reason::Limit),
        Row::Press(Button::Manual, true),
        Row::Idle(62, Err(IdleFault::ClockEnd)),
        Row::Idle(61, Ok(())),
        Row::Clock(1 << 62),
        Row::Idle(1, Err(IdleFault::ClockEnd)),
        Row::Idle(0, Ok(())),
    ],
};

/// There are at most 64 rules.
const MANY_RULES: Example = Example {
    capacity: 4,
    first: 0,
    rows: &[
        Row::AddRules(Named::At(7), 100, 64),
        Row::AddRule(Named::At(1), Err(RuleFault::Full)),
        Row::RemoveRule(64, None),
        Row::RemoveRule(63, Some(Named::At(7))),
        Row::AddRule(Named::At(1), Ok(63)),
    ],
};

/// Over each history.
static EXAMPLES: [Example; 13] = [
    PRINT_GOES_BACK,
    LATEST_STEPS,
    RULES,
    FREE_RUN,
    HUNDRED_STEPS,
    INPUT_GOES_BACK,
    PUTS_AND_MOUNTS,
    ADDRESS_PART_GOES_BACK,
    LOAD,
    LOAD_AT_THE_END,
    AT_REST,
    CLOCK_END,
    MANY_RULES,
];

/// The place of the first row that goes wrong over a history, or how many there are; more than that without memory.
impl<A: Allocator + Copy> Job<A> for Example {
    type Answer = usize;

    fn over<H: History<A>>(&self, alloc: A, history: Result<H, AllocError>) -> usize {
        match with_order(alloc, history, self.first) {
            Some(mut lab) => first_wrong(&mut lab, alloc, self.rows),
            None => usize::MAX,
        }
    }
}

#[test]
fn examples_over_each_history(rt: HostRuntime) {
    let alloc = rt.alloc();
    for example in &EXAMPLES {
        let found = [
            over_kind(alloc, (Kind::Records, example.capacity), example),
            over_kind(alloc, (Kind::Checkpoints, example.capacity), example),
        ];
        expect_eq(&rt, found, [example.rows.len(); 2]);
    }
}
