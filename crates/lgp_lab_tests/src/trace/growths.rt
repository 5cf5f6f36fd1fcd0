//! Texts of orders, words and profiles, with each growth of the text refused in turn.

use super::steps::{debugger, goes_back, put_all};
use super::{address, profile_of_a_sum};
use crate::{End, end_of, expect_eq, in_turn};
use lgp_assembler::Name;
use lgp_data::{AccountRecords, push_profile_data};
use lgp_debugger::{Debugger, Ran, RunFault, RunRefusal};
use lgp_fields::RecordForm;
use lgp_history::{History, Origins};
use lgp_limited::Limited;
use lgp_table::Action;
use lgp_trace::{
    InColumns, NoLabels, Profile, draw_run, push_heading, push_profile, push_why, trace_run,
};
use std::alloc::{AllocError, Allocator, Global};

/// At 0000 y 0001, which puts the accumulator's address, 0000, into the order after it: at 0001 u 0005.
static PROGRAM: &[(u16, u32)] = &[(0, 0x0002_0004), (1, 0x000a_0014)];

/// Why the words at 0000, 0001 and 0002 are as they are; or a refused growth.
fn push_words<H: Origins<A>, A: Allocator, B: Allocator>(
    lab: &Debugger<H, A>,
    text: &mut Vec<u8, B>,
) -> Result<(), AllocError> {
    for number in 0..3 {
        push_why(lab, text, address(number), &NoLabels)?;
    }
    Ok(())
}

/// The program put on the drum and started; false where that is refused.
fn start<H: History<A>, A: Allocator>(lab: &mut Debugger<H, A>) -> bool {
    put_all(lab, PROGRAM) && lab.press(Action::Start) == Ok(true)
}

/// How many orders a run counts, and whether it was refused for want of memory.
pub(super) fn counted(ran: Result<Ran, RunFault>) -> (u64, bool) {
    match ran {
        Ok(ran) => (ran.orders, false),
        Err(fault) => (fault.orders, matches!(fault.fault, RunRefusal::Memory)),
    }
}

/// How orders are reported: by their lines, by records, or by their signs along the drum.
#[derive(Clone, Copy)]
enum Way {
    Lines,
    Data,
    Signs,
}

/// Orders as objects of JSON, with these labels.
fn objects_with(names: &[(Name, u16)]) -> AccountRecords<'_> {
    AccountRecords {
        form: RecordForm::Objects,
        names,
    }
}

/// A run of two orders, reported in this way.
fn run_so<H: Origins<A>, A: Allocator, C: Allocator>(
    way: Way,
    lab: &mut Debugger<H, A>,
    text: &mut Vec<u8, C>,
) -> Result<Ran, RunFault> {
    match way {
        Way::Lines => trace_run(lab, 2, text, &InColumns { labels: &NoLabels }),
        Way::Data => trace_run(lab, 2, text, &objects_with(&[])),
        Way::Signs => draw_run(lab, 2, text),
    }
}

/// Appends two orders in this way, and goes back. The order whose lines or signs found no room remains, and the answer counts it: the
/// clock is 74 after the first order, and 140 after the second.
fn tell_and_back<H: Origins<A>, A: Allocator, C: Allocator>(
    text: &mut Vec<u8, C>,
    way: Way,
    lab: &mut Debugger<H, A>,
) -> End {
    let (orders, is_refused) = counted(run_so(way, lab, text));
    let stands = matches!((orders, lab.look().clock), (1, 74) | (2, 140));
    if stands && goes_back(lab, orders) {
        end_of(!is_refused, is_refused)
    } else {
        End::Otherwise
    }
}

/// The same of orders in a way, or of what is said of three words where there is none.
fn tell<H: Origins<A>, A: Allocator, C: Allocator>(
    text: &mut Vec<u8, C>,
    way: Option<Way>,
    lab: &mut Debugger<H, A>,
) -> End {
    match way {
        Some(way) => tell_and_back(text, way, lab),
        None => match push_words(lab, text) {
            Ok(()) => End::Done,
            Err(_) => End::Refused,
        },
    }
}

/// Whether growths were refused before that was told as with ample memory, and each of them was answered so. The texts themselves are
/// compared where the program writes them.
fn told_in_turn<H: Origins<A>, A: Allocator>(
    (limited, global): (&Limited<Global>, Global),
    way: Option<Way>,
    lab: &mut Debugger<H, A>,
) -> bool {
    let mut ample = Vec::new(global);
    let is_told = matches!(tell(&mut ample, way, lab), End::Done);
    let growths = in_turn(limited, || {
        let mut text = Vec::new(limited);
        let end = tell(&mut text, way, lab);
        unless_other(end, text.as_slice(), ample.as_slice())
    });
    is_told && !ample.is_empty() && growths >= Some(1)
}

/// How a call ends that is done with this text alone.
pub(super) fn unless_other(end: End, text: &[u8], ample: &[u8]) -> End {
    match end {
        End::Done if text != ample => End::Otherwise,
        _ => end,
    }
}

/// Appends a heading of accounts and a profile, in columns or as records in a form.
fn push_told<A: Allocator, C: Allocator>(
    text: &mut Vec<u8, C>,
    form: Option<RecordForm>,
    profile: &Profile<A>,
) -> End {
    if push_heading(text).is_err() {
        return End::Refused;
    }
    let pushed = match form {
        None => push_profile(text, 42, profile, &NoLabels),
        Some(form) => push_profile_data(text, form, &[], 42, profile),
    };
    match pushed {
        Ok(()) => End::Done,
        Err(_) => End::Refused,
    }
}

/// Whether growths of that were refused in turn.
fn profile_in_turn<A: Allocator>(
    (limited, global): (&Limited<Global>, Global),
    form: Option<RecordForm>,
    profile: &Profile<A>,
) -> bool {
    let mut ample = Vec::new(global);
    let is_told = matches!(push_told(&mut ample, form, profile), End::Done);
    let growths = in_turn(limited, || {
        let mut text = Vec::new(limited);
        let end = push_told(&mut text, form, profile);
        unless_other(end, text.as_slice(), ample.as_slice())
    });
    is_told && !ample.is_empty() && growths >= Some(1)
}

/// Whether two orders are run, and the order at 0001 has lost the u 0005.
fn two_run<H: Origins<A>, A: Allocator>(lab: &mut Debugger<H, A>) -> [bool; 2] {
    [
        matches!(lab.run(2), Ok(ran) if ran.orders == 2),
        matches!(lab.origin(address(1)), Some(origin) if origin.lost.get() == 0x000a_0014),
    ]
}

/// Whether the program is started; whether lines, data and signs had growths in turn and each was reported at last; whether two orders
/// are run then, and the order at 0001 has lost the u 0005; and the same of the words.
fn all_in_turn<H: Origins<A>, A: Allocator>(
    limited: (&Limited<Global>, Global),
    lab: &mut Debugger<H, A>,
) -> ([bool; 4], [bool; 2], bool) {
    let told = [
        start(lab),
        told_in_turn(limited, Some(Way::Lines), lab),
        told_in_turn(limited, Some(Way::Data), lab),
        told_in_turn(limited, Some(Way::Signs), lab),
    ];
    (told, two_run(lab), told_in_turn(limited, None, lab))
}

#[test]
fn each_growth_refused(rt: HostRuntime) {
    let limited = Limited::new(rt.alloc());
    let seen = match debugger(rt.alloc()) {
        Some(mut lab) => all_in_turn((&limited, rt.alloc()), &mut lab),
        None => ([false; 4], [false; 2], false),
    };
    let wanted = ([true; 4], [true; 2], true);
    expect_eq(&rt, (seen, limited.blocks_out()), (wanted, 0));
}

#[test]
fn each_growth_of_a_profile_refused(rt: HostRuntime) {
    let limited = Limited::new(rt.alloc());
    let are_refused = match profile_of_a_sum(rt.alloc()) {
        Some(profile) => [
            profile_in_turn((&limited, rt.alloc()), None, &profile),
            profile_in_turn((&limited, rt.alloc()), Some(RecordForm::Lines), &profile),
        ],
        None => [false; 2],
    };
    expect_eq(&rt, (are_refused, limited.blocks_out()), ([true; 2], 0));
}
