//! Full histories, with ample memory.

use super::calls::{Button, back, clock, kept, last_hit, press_button, run, with_order};
use crate::history::{Job, Kind, over_kind};
use crate::{TRANSFER, expect_eq};
use lgp_debugger::{Debugger, HitFault, Ran, Reason, RunFault};
use lgp_history::{BackFault, CAPACITY_LIMIT, History};
use std::alloc::{AllocError, Allocator};

/// What a call of `back` answers, and then the clock and what is kept.
type Back = (Result<(), BackFault>, u64, (u64, u64));

fn gone_back<H: History<A>, A: Allocator>(lab: &mut Debugger<H, A>, orders: u64) -> Back {
    let answer = back(lab, orders);
    (answer, clock(lab), kept(lab))
}

/// Runs past what can be kept. What that answers, what is kept then, and what a search without rules answers.
type Filled = (
    Result<Ran, RunFault>,
    (u64, u64),
    Result<(u64, u8), HitFault>,
);

fn filled<H: History<A>, A: Allocator>(lab: &mut Debugger<H, A>) -> Filled {
    let _live = press_button(lab, Button::Start);
    (run(lab, 70_000), kept(lab), last_hit(lab))
}

/// The same, and then the ways back: one order too many, one order, 64, and all others.
struct FilledAndBack;

impl<A: Allocator + Copy> Job<A> for FilledAndBack {
    type Answer = Option<(Filled, [Back; 4])>;

    fn over<H: History<A>>(
        &self,
        alloc: A,
        history: Result<H, AllocError>,
    ) -> Option<(Filled, [Back; 4])> {
        let mut lab = with_order(alloc, history, TRANSFER)?;
        Some((filled(&mut lab), four_ways_back(&mut lab)))
    }
}

fn four_ways_back<H: History<A>, A: Allocator>(lab: &mut Debugger<H, A>) -> [Back; 4] {
    [
        gone_back(lab, 65_537),
        gone_back(lab, 1),
        gone_back(lab, 64),
        gone_back(lab, 65_471),
    ]
}

/// The first transfer ends at 67, and each later one 64 word times after the one before. Of 70,000 the last 65,536 are kept.
fn expected() -> Option<(Filled, [Back; 4])> {
    let ran = Ran {
        orders: 70_000,
        reason: Reason::Limit,
    };
    let ways = [
        (
            Err(BackFault::TooFar(65_536)),
            67 + 64 * 69_999,
            (65_536, 65_536),
        ),
        (Ok(()), 67 + 64 * 69_998, (65_535, 65_535)),
        (Ok(()), 67 + 64 * 69_934, (65_471, 65_471)),
        (Ok(()), 67 + 64 * 4_463, (0, 0)),
    ];
    let filled = (Ok(ran), (65_536, 65_536), Err(HitFault::NoHit(65_536)));
    Some((filled, ways))
}

#[test]
fn full_histories_are_gone_back_through(rt: HostRuntime) {
    let alloc = rt.alloc();
    let seen = [
        over_kind(alloc, (Kind::Records, CAPACITY_LIMIT), &FilledAndBack),
        over_kind(alloc, (Kind::Checkpoints, CAPACITY_LIMIT), &FilledAndBack),
    ];
    expect_eq(&rt, seen, [expected(), expected()]);
}
