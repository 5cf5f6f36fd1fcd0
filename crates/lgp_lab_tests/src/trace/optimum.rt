//! Where words would have cost least, against numbers made by hand.

use super::address;
use super::growths::counted;
use super::steps::{debugger, debugger_of, goes_back, start};
use crate::{End, end_of, expect_eq, in_turn};
use lgp_debugger::Debugger;
use lgp_history::History;
use lgp_limited::Limited;
use lgp_optimum::laws::{all_save_the_sum, freedoms, own_sector, ranked_words, savings_add_up};
use lgp_optimum::{Freedom, Optimum, optimum_run};
use std::alloc::{Allocator, Global};

/// What is noted of the program that sums a table; none where that is refused.
fn noted<H: History<A>, A: Allocator, B: Allocator + Copy>(
    alloc: B,
    lab: &mut Debugger<H, A>,
) -> Option<Optimum<B>> {
    let mut optimum = Optimum::new(alloc).ok()?;
    start(lab);
    match optimum_run(lab, 100, &mut optimum) {
        Ok(_) => Some(optimum),
        Err(_) => None,
    }
}

/// The same of a new debugger.
pub(super) fn optimum_of_a_sum<A: Allocator + Copy>(alloc: A) -> Option<Optimum<A>> {
    match debugger(alloc) {
        Some(mut lab) => noted(alloc, &mut lab),
        None => None,
    }
}

/// What an optimum tells of a word: whether it may be elsewhere, its best sector, and what it saves there.
type Reported = (Freedom, u16, u64);

fn reported<A: Allocator>(optimum: &Optimum<A>, number: u16) -> Reported {
    let best = optimum.best(address(number));
    (optimum.freedom(address(number)), best.sector, best.saved)
}

/// Whether this is what an optimum tells of a word.
fn is_told<A: Allocator>(optimum: &Optimum<A>, number: u16, wanted: Reported) -> bool {
    reported(optimum, number) == wanted
}

/// A word of the program that sums a table: what is reported of it, and the sum of its 64 numbers.
type Row = (u16, Reported, u128);

/// The words that its orders wait for, an order that none of them waits for, and a word that is not used.
static NAMED: &[Row] = &[
    (9, (Freedom::Performed, 26, 256), 182784),
    (17, (Freedom::Performed, 15, 64), 185856),
    (20, (Freedom::Free, 19, 64), 185856),
    (21, (Freedom::Free, 0, 256), 184704),
    (22, (Freedom::Free, 27, 256), 184704),
    (23, (Freedom::Free, 21, 64), 185856),
    (24, (Freedom::Free, 23, 256), 182400),
    (25, (Freedom::Free, 17, 64), 185856),
    (64, (Freedom::NamedByChanged, 24, 64), 185856),
    (65, (Freedom::NamedByChanged, 24, 64), 185856),
    (66, (Freedom::NamedByChanged, 24, 64), 185856),
    (67, (Freedom::NamedByChanged, 24, 64), 185856),
    (8, (Freedom::Performed, 8, 0), 186240),
    (4095, (Freedom::Unnamed, 63, 0), 186240),
];

/// The sum of the 64 numbers of a word.
fn sum_at<A: Allocator>(optimum: &Optimum<A>, number: u16) -> u128 {
    let mut together: u128 = 0;
    for times in optimum.at(address(number)) {
        together = together.saturating_add(times);
    }
    together
}

/// How many rows come before the first that is reported otherwise.
fn rows_as<A: Allocator>(optimum: &Optimum<A>, rows: &[Row]) -> usize {
    let mut as_said: usize = 0;
    for (number, wanted, sum) in rows {
        if !is_told(optimum, *number, *wanted) || sum_at(optimum, *number) != *sum {
            return as_said;
        }
        as_said = as_said.saturating_add(1);
    }
    as_said
}

/// How many word times the program takes, and how many rows come before the first that is reported otherwise.
fn rows_noted(alloc: Global) -> (u64, usize) {
    match optimum_of_a_sum(alloc) {
        Some(optimum) => (optimum.took(), rows_as(&optimum, NAMED)),
        None => (0, 0),
    }
}

/// 42 orders, of which the one at 0009 is changed.
#[test]
fn the_words_of_a_program(rt: HostRuntime) {
    expect_eq(&rt, rows_noted(rt.alloc()), (2910, 14));
}

/// The program noted from its start, and gone back where a growth is refused. The run says so, and has stopped before the order; or
/// all its orders are noted.
fn run_noted<H: History<A>, A: Allocator, C: Allocator>(
    lab: &mut Debugger<H, A>,
    optimum: &mut Optimum<C>,
) -> End {
    let (orders, is_refused) = counted(optimum_run(lab, 100, optimum));
    let stands = optimum.took() == lab.look().clock;
    if is_refused {
        goes_back(lab, orders);
    }
    end_of(!is_refused && orders == 42 && stands, is_refused && stands)
}

/// That of a new optimum.
fn run_anew<H: History<A>, A: Allocator, C: Allocator + Copy>(
    alloc: C,
    lab: &mut Debugger<H, A>,
) -> End {
    match Optimum::new(alloc) {
        Ok(mut optimum) => run_noted(lab, &mut optimum),
        Err(_) => End::Refused,
    }
}

/// How many growths were refused one after another before all went well.
fn growths_of_run<H: History<A>, A: Allocator>(
    limited: &Limited<Global>,
    lab: &mut Debugger<H, A>,
) -> Option<u64> {
    start(lab);
    in_turn(limited, || run_anew(limited, lab))
}

/// Three growths make room for no word, and some more for the words that are named.
#[test]
fn each_growth_refused(rt: HostRuntime) {
    let limited = Limited::new(rt.alloc());
    let growths = match debugger_of(rt.alloc(), 100) {
        Some(mut lab) => growths_of_run(&limited, &mut lab),
        None => None,
    };
    expect_eq(&rt, (growths > Some(3), limited.blocks_out()), (true, 0));
}

#[test]
fn the_laws_do_nothing(_rt: HostRuntime) {
    own_sector();
    savings_add_up();
    ranked_words();
    freedoms();
    all_save_the_sum();
}
