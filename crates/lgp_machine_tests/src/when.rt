//! Runs that end with the order that meets a condition.

mod growths;

use crate::{TRANSFER, address, expect_eq};
use lgp_debugger::{Debugger, Ran, Reason, RunFault};
use lgp_history::{Records, Rule};
use lgp_machine::Machine;
use lgp_table::Action;
use lgp_when::{Condition, RanUntil, Until, run_until};
use lgp_word::Word;
use std::alloc::{AllocError, Allocator};

/// A going machine in a debugger, which keeps 64 steps, with a loop that adds what is at 0101 to what is at 0100, and prints a code.
fn looping<A: Allocator + Copy>(alloc: A, print: u32) -> Option<Debugger<Records<A>, A>> {
    let Ok(machine) = Machine::new(alloc) else {
        return None;
    };
    let Ok(records) = Records::new(alloc, 64) else {
        return None;
    };
    let mut debugger = Debugger::new(machine, records);
    write(&mut debugger, print)?;
    Some(debugger)
}

/// An order that returns the carriage.
const RETURN: u32 = 0x0008_1000;

fn write<A: Allocator + Copy>(debugger: &mut Debugger<Records<A>, A>, print: u32) -> Option<()> {
    let orders: [u32; 5] = [0x0001_0100, 0x000e_0104, 0x000c_0100, print, TRANSFER];
    let mut at = 0;
    for bits in &orders {
        debugger.put(address(at), Word::of_bits(*bits)).ok()?;
        at = at.saturating_add(1);
    }
    debugger.put(address(64), Word::of_bits(16)).ok()?;
    debugger.put(address(65), MINUS_8).ok()?;
    debugger.press(Action::Start).ok()?;
    Some(())
}

const MINUS_8: Word = Word { bits: 0xffff_fff8 };

/// The call without its contract, which would fill the context of each test.
fn until<A: Allocator + Copy>(
    debugger: &mut Debugger<Records<A>, A>,
    condition: Condition,
    times: u64,
    limit: u64,
) -> Result<RanUntil, RunFault> {
    run_until(debugger, &Until { condition, times }, limit)
}

/// How many orders such a run performs, whether it ends at a rule, and whether the condition was met.
type Answer = (u64, bool, bool);

fn answer(ended: &RanUntil) -> Answer {
    let Ran { orders, reason } = ended.ran;
    (orders, matches!(reason, Reason::Rule(_)), ended.is_met)
}

/// The same of a new loop, which may have a rule at an address.
fn asked<A: Allocator + Copy>(
    alloc: A,
    rule: Option<u16>,
    condition: Condition,
    times: u64,
    limit: u64,
) -> Option<Answer> {
    let mut debugger = looping(alloc, RETURN)?;
    if let Some(at) = rule {
        debugger.add_rule(Rule::At(address(at))).ok()?;
    }
    let ended = until(&mut debugger, condition, times, limit).ok()?;
    Some(answer(&ended))
}

/// What a run comes to of at most 1,000 orders, and none of the rules.
fn met<A: Allocator + Copy>(alloc: A, condition: Condition) -> Option<Answer> {
    asked(alloc, None, condition, 1, 1_000)
}

#[test]
fn an_address_is_come_to(rt: HostRuntime) {
    let alloc = rt.alloc();
    let seen = [
        met(alloc, Condition::At(address(3))),
        asked(alloc, None, Condition::At(address(0)), 3, 1_000),
        met(alloc, Condition::At(address(9))),
    ];
    expect_eq(
        &rt,
        seen,
        [
            Some((3, false, true)),
            Some((15, false, true)),
            Some((1_000, false, false)),
        ],
    );
}

#[test]
fn a_word_is_as_it_is_waited_for(rt: HostRuntime) {
    let alloc = rt.alloc();
    let seen = [
        met(alloc, Condition::Equal(address(64), Word::of_bits(0))),
        met(alloc, Condition::Equal(address(64), Word::of_bits(16))),
        met(alloc, Condition::Below(address(64), Word::of_bits(0))),
        met(alloc, Condition::Below(address(64), MINUS_8)),
    ];
    expect_eq(
        &rt,
        seen,
        [
            Some((8, false, true)),
            Some((1_000, false, false)),
            Some((13, false, true)),
            Some((18, false, true)),
        ],
    );
}

#[test]
fn codes_and_rows_are_printed(rt: HostRuntime) {
    let alloc = rt.alloc();
    let seen = [
        met(alloc, Condition::Printed(2)),
        met(alloc, Condition::Rows(7)),
        met(alloc, Condition::Printed(0)),
        asked(alloc, None, Condition::Printed(5), 0, 1_000),
    ];
    expect_eq(
        &rt,
        seen,
        [
            Some((9, false, true)),
            Some((34, false, true)),
            Some((1_000, false, false)),
            Some((0, false, true)),
        ],
    );
}

#[test]
fn a_word_is_changed_and_word_times_are_over(rt: HostRuntime) {
    let alloc = rt.alloc();
    let seen = [
        met(alloc, Condition::Changed(address(64))),
        asked(alloc, None, Condition::Changed(address(64)), 3, 1_000),
        met(alloc, Condition::Changed(address(65))),
        met(alloc, Condition::Clock(1)),
        met(alloc, Condition::Clock(0)),
        met(alloc, Condition::Clock(u64::MAX)),
    ];
    expect_eq(
        &rt,
        seen,
        [
            Some((3, false, true)),
            Some((13, false, true)),
            Some((1_000, false, false)),
            Some((1, false, true)),
            Some((1_000, false, false)),
            Some((1_000, false, false)),
        ],
    );
}

/// Codes that end no row.
fn without_rows<A: Allocator + Copy>(alloc: A) -> Option<Answer> {
    let mut debugger = looping(alloc, crate::PRINT)?;
    let ended = until(&mut debugger, Condition::Rows(1), 1, 500).ok()?;
    Some(answer(&ended))
}

#[test]
fn a_code_that_is_no_carriage_return_ends_no_row(rt: HostRuntime) {
    let alloc = rt.alloc();
    expect_eq(&rt, without_rows(alloc), Some((500, false, false)));
}

#[test]
fn rules_and_the_limit_end_it_as_ever(rt: HostRuntime) {
    let alloc = rt.alloc();
    let seen = [
        asked(alloc, Some(2), Condition::Printed(1), 1, 1_000),
        asked(alloc, Some(4), Condition::Printed(1), 1, 1_000),
        asked(alloc, None, Condition::Printed(1), 1, 3),
        asked(alloc, None, Condition::Printed(1), 1, 0),
    ];
    expect_eq(
        &rt,
        seen,
        [
            Some((2, true, false)),
            Some((4, true, true)),
            Some((3, false, false)),
            Some((0, false, false)),
        ],
    );
}

/// After how many orders each of many conditions is met, one after another: the word at 0100 after each round.
fn in_rounds<A: Allocator + Copy>(alloc: A, rounds: u32) -> Option<(u64, bool)> {
    let mut debugger = looping(alloc, RETURN)?;
    let mut orders = 0;
    let mut always = true;
    for round in 1..rounds {
        let word = Word::of_bits(16u32.wrapping_sub(round.wrapping_mul(8)));
        let ended = until(&mut debugger, Condition::Equal(address(64), word), 1, 10).ok()?;
        orders = ended.ran.orders.saturating_add(orders);
        always = always && ended.is_met;
    }
    Some((orders, always))
}

#[test]
fn many_are_met_one_after_another(rt: HostRuntime) {
    let alloc = rt.alloc();
    expect_eq(&rt, in_rounds(alloc, 1_001), Some((4_998, true)));
}

/// A run that waits for the 2,000th row.
fn far<A: Allocator + Copy>(alloc: A) -> Option<Answer> {
    asked(alloc, None, Condition::Rows(2_000), 1, 100_000)
}

#[test]
fn a_long_run_is_met(rt: HostRuntime) {
    let alloc = rt.alloc();
    expect_eq(&rt, far(alloc), Some((9_999, false, true)));
}

/// A debugger whose machine is at rest.
fn at_rest<A: Allocator + Copy>(alloc: A) -> Result<Debugger<Records<A>, A>, AllocError> {
    let machine = Machine::new(alloc)?;
    let records = Records::new(alloc, 64)?;
    Ok(Debugger::new(machine, records))
}

fn asked_at_rest<A: Allocator + Copy>(alloc: A) -> Option<(u64, bool, bool)> {
    let Ok(mut debugger) = at_rest(alloc) else {
        return None;
    };
    let ended = until(&mut debugger, Condition::Printed(1), 1, 5).ok()?;
    let rests = matches!(ended.ran.reason, Reason::Rest);
    Some((ended.ran.orders, rests, ended.is_met))
}

#[test]
fn at_rest_no_order_is_performed(rt: HostRuntime) {
    let alloc = rt.alloc();
    expect_eq(&rt, asked_at_rest(alloc), Some((0, true, false)));
}
