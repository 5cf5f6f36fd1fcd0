//! Accounts of a whole program, order by order, and of single activities.

ghost use Rattle.std.specs.Prelude.{◌^◌, ◌<◌, IsTrue};
ghost use Rattle.lgp_trace.specs.Phases.{all_phases};

mod columns;
mod growths;
mod optimum;
mod ranking;
mod single;
mod steps;

use crate::expect_eq;
use lgp_machine::{Machine, OrderFault};
use lgp_table::Action;
use lgp_trace::laws::{
    codes_pass, dearest_places, phases_read, phases_together, profiles, signs_are_word_times,
    words_stay,
};
use lgp_trace::{Account, Begun, Phases, Profile, profile_run};
use lgp_word::{Address, Word};
use std::alloc::Allocator;
use steps::{debugger_of, start};

/// The address of that number, or 0000 above all.
pub(super) fn address(number: u16) -> Address {
    Address::new(number).unwrap_or_default()
}

/// Puts words on the drum; false where one is refused.
fn put_all<A: Allocator>(machine: &mut Machine<A>, words: &[(u16, u32)]) -> bool {
    for (at, bits) in words {
        if machine.put(address(*at), Word::of_bits(*bits)).is_err() {
            return false;
        }
    }
    true
}

/// A machine with these words; none where memory is refused.
fn with_words<A: Allocator + Copy>(alloc: A, words: &[(u16, u32)]) -> Option<Machine<A>> {
    match Machine::new(alloc) {
        Ok(mut machine) => {
            put_all(&mut machine, words);
            Some(machine)
        }
        Err(_) => None,
    }
}

fn press<A: Allocator>(machine: &mut Machine<A>, action: Action) -> bool {
    machine.press(action).is_ok()
}

/// The next activity's account.
fn take<A: Allocator>(machine: &mut Machine<A>) -> Result<Account, OrderFault> {
    let Some(begun) = Begun::of(machine) else {
        return Err(OrderFault::Moving);
    };
    match machine.next_order() {
        Ok(_) => Ok(begun.finish(machine)),
        Err(fault) => Err(fault),
    }
}

/// An order of a program: its place, the word times of its phases but for the one in which it is taken, and the word that is at
/// its address afterwards, or 0 where it waits for none.
type Row = (u16, u64, u64, u64, u32);

/// A place that no order has.
const NO_PLACE: u16 = 4096;

/// An account by its row.
fn row_of(account: &Account) -> Row {
    let place = match account.place {
        Some(place) => place.number(),
        None => NO_PLACE,
    };
    let left = match account.operand {
        Some(operand) => operand.left.get(),
        None => 0,
    };
    let phases = account.phases;
    (place, phases.find, phases.seek, phases.act, left)
}

/// How many orders come before the first that is not as its row says.
fn orders_as<A: Allocator>(machine: &mut Machine<A>, rows: &[Row]) -> usize {
    let mut orders: usize = 0;
    for row in rows {
        if !is_next(machine, *row) {
            return orders;
        }
        orders = orders.saturating_add(1);
    }
    orders
}

/// Whether the next order is as its row says.
fn is_next<A: Allocator>(machine: &mut Machine<A>, row: Row) -> bool {
    match take(machine) {
        Ok(account) => row_of(&account) == row,
        Err(_) => false,
    }
}

/// The sum of a table by a program that changes three of its own orders.
static SUM_OF_A_TABLE: &[(u16, u32)] = &[
    (0, 0x00030044),
    (1, 0x000a0010),
    (2, 0x000c0064),
    (3, 0x00000000),
    (4, 0x00010050),
    (5, 0x00020024),
    (6, 0x0001005c),
    (7, 0x000c0060),
    (8, 0x00010060),
    (9, 0x000e0000),
    (10, 0x000c0060),
    (11, 0x00010024),
    (12, 0x000e0058),
    (13, 0x00020024),
    (14, 0x000f0054),
    (15, 0x000b0020),
    (16, 0x00010060),
    (17, 0x000a0000),
    (20, 0x00000100),
    (21, 0x000e0110),
    (22, 0x00000004),
    (23, 0x00000000),
    (64, 0x00000002),
    (65, 0x00000004),
    (66, 0x00000006),
    (67, 0x00000008),
];

/// Its 42 orders. A wait counts from the clock on to the sector's place on the track, which is 9 times its number, and the word time
/// of the reading.
static ORDERS: &[Row] = &[
    (0, 64, 24, 1, 0xa0008),
    (1, 47, 1, 1, 0),
    (4, 24, 15, 1, 0x100),
    (5, 56, 35, 1, 0xe0100),
    (6, 36, 24, 1, 0),
    (7, 47, 24, 1, 0),
    (8, 47, 15, 1, 0),
    (9, 56, 46, 1, 0x2),
    (10, 25, 61, 1, 0x2),
    (11, 10, 45, 1, 0xe0100),
    (12, 26, 25, 1, 0x4),
    (13, 46, 27, 1, 0xe0104),
    (14, 44, 62, 1, 0xe0110),
    (15, 9, 1, 1, 0),
    (8, 62, 15, 1, 0x2),
    (9, 56, 55, 1, 0x4),
    (10, 16, 61, 1, 0x6),
    (11, 10, 45, 1, 0xe0104),
    (12, 26, 25, 1, 0x4),
    (13, 46, 27, 1, 0xe0108),
    (14, 44, 62, 1, 0xe0110),
    (15, 9, 1, 1, 0),
    (8, 62, 15, 1, 0x6),
    (9, 56, 64, 1, 0x6),
    (10, 7, 61, 1, 0xc),
    (11, 10, 45, 1, 0xe0108),
    (12, 26, 25, 1, 0x4),
    (13, 46, 27, 1, 0xe010c),
    (14, 44, 62, 1, 0xe0110),
    (15, 9, 1, 1, 0),
    (8, 62, 15, 1, 0xc),
    (9, 56, 9, 1, 0x8),
    (10, 62, 61, 1, 0x14),
    (11, 10, 45, 1, 0xe010c),
    (12, 26, 25, 1, 0x4),
    (13, 46, 27, 1, 0xe0110),
    (14, 44, 62, 1, 0xe0110),
    (15, 9, 1, 1, 0),
    (16, 6, 7, 1, 0x14),
    (17, 64, 1, 1, 0),
    (2, 54, 14, 1, 0x14),
    (3, 57, 1, 1, 0),
];

/// Starts the machine, and accounts for as many orders as there are rows. How many are as they should be, how the next one is refused,
/// the clock, and the word times of all rows.
fn accounted<A: Allocator>(
    machine: &mut Machine<A>,
    rows: &[Row],
) -> (usize, Option<OrderFault>, [u64; 2]) {
    press(machine, Action::Start);
    let orders = orders_as(machine, rows);
    let refused = take(machine).err();
    (orders, refused, [clock(machine), total(rows)])
}

/// The clock; 0 within an activity.
fn clock<A: Allocator>(machine: &Machine<A>) -> u64 {
    match machine.look() {
        Some(look) => look.clock,
        None => 0,
    }
}

/// The word times of all these rows.
fn total(rows: &[Row]) -> u64 {
    let mut total: u64 = 0;
    for (_, find, seek, act, _) in rows {
        total = total.saturating_add(*find).saturating_add(1);
        total = total.saturating_add(*seek).saturating_add(*act);
    }
    total
}

/// 42 orders, of 2,910 word times, and then the machine is at rest.
#[test]
fn a_program_that_changes_itself(rt: HostRuntime) {
    let seen = match with_words(rt.alloc(), SUM_OF_A_TABLE) {
        Some(mut machine) => accounted(&mut machine, ORDERS),
        None => (0, None, [0; 2]),
    };
    expect_eq(&rt, seen, (42, Some(OrderFault::AtRest), [2910; 2]));
}

/// What a profile of the whole program shows: the word times by phase, those of the order at 0009 and at 0020, and elsewhere.
type Shown = [u64; 7];

fn shown<A: Allocator>(profile: &Profile<A>) -> Shown {
    let phases = profile.phases();
    [
        phases.find,
        phases.take,
        phases.seek,
        phases.act,
        profile.at(address(9)),
        profile.at(address(20)),
        profile.elsewhere(),
    ]
}

/// Whether each phase is below 2^32 word times.
fn is_few(phases: Phases) -> bool
    ensures { IsTrue result → all_phases phases < 2 ^ 34 }
{
    phases.find < 1 << 32 && phases.take < 1 << 32 && phases.seek < 1 << 32 && phases.act < 1 << 32
}

/// The profile of the program that sums a table; none where memory is refused.
fn profile_of_a_sum<A: Allocator + Copy>(alloc: A) -> Option<Profile<A>> {
    let mut lab = debugger_of(alloc, 30)?;
    start(&mut lab);
    let mut profile = Profile::new(alloc).ok()?;
    let _ran = profile_run(&mut lab, 100, &mut profile);
    Some(profile)
}

/// The order at 0009 is performed four times, and no order is at 0020.
#[test]
fn the_profile_of_a_program(rt: HostRuntime) {
    let seen = match profile_of_a_sum(rt.alloc()) {
        Some(profile) => shown(&profile),
        None => [0; 7],
    };
    expect_eq(&rt, seen, [1562, 42, 1264, 42, 406, 0, 0]);
}

#[test]
fn the_laws_do_nothing(_rt: HostRuntime) {
    phases_together();
    phases_read();
    words_stay();
    codes_pass();
    profiles();
    signs_are_word_times();
    dearest_places();
}
