//! The latch.

use super::key;
use crate::expect_eq;
use lgp_console::Latch;
use lgp_table::Action;

// The latch's methods without their contracts, which would fill the context of the test.

fn keep(latch: &mut Latch, action: Action) -> bool {
    latch.keep(action)
}

fn first(latch: &mut Latch) -> Option<Action> {
    latch.first()
}

/// How many actions are kept, and whether none is.
fn size(latch: &Latch) -> (usize, bool) {
    (latch.len(), latch.is_empty())
}

/// How many keys are kept, from the one of code 0 on, before one is not.
fn keep_keys(latch: &mut Latch) -> u8 {
    for number in 0..20u8 {
        if !keep(latch, key(number)) {
            return number;
        }
    }
    20
}

/// How many keys come out, from the one of code 0 on, before something else does or nothing.
fn take_keys(latch: &mut Latch) -> u8 {
    for number in 0..20u8 {
        if first(latch) != Some(key(number)) {
            return number;
        }
    }
    20
}

/// What a latch of sixteen keys and its copy give: how large they are, how many keys come out of the copy and of the latch, whether
/// anything comes after them, and how large both are then.
type Taken = ([(usize, bool); 2], [u8; 2], bool, [(usize, bool); 2]);

fn taken(mut latch: Latch) -> Taken {
    let mut copy = latch.copy();
    let full = [size(&latch), size(&copy)];
    let taken = [take_keys(&mut copy), take_keys(&mut latch)];
    let none = first(&mut latch).is_none();
    (full, taken, none, [size(&latch), size(&copy)])
}

/// How large a new latch is; how many keys it keeps, and whether an action more; and what is taken then.
fn keep_and_take() -> ((usize, bool), (u8, bool), Taken) {
    let mut latch = Latch::new();
    let new = size(&latch);
    let kept = (keep_keys(&mut latch), keep(&mut latch, Action::Start));
    (new, kept, taken(latch))
}

#[test]
fn the_latch_keeps_sixteen_oldest_first(rt: HostRuntime) {
    let taken = ([(16, false); 2], [16; 2], true, [(0, true); 2]);
    expect_eq(&rt, keep_and_take(), ((0, true), (16, false), taken));
}
