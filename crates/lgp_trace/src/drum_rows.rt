//! Accounts drawn along the drum.

ghost use Rattle.std.specs.Prelude.{◌≡◌, ◌+◌, ◌++◌, ◌≤◌, replicate, OnOk};
ghost use Rattle.lgp_trace.specs.DrumRows.{rows_begun, rows_ended, seek_signs, sign_in_row, signs_in_rows, signs_of, use_sign, waited};
ghost use Rattle.lgp_trace.specs.Account.{stored_address};
ghost use Rattle.lgp_trace.specs.Phases.{all_phases};
ghost use Rattle.lgp_machine.specs.Answers.{clock_end};

use crate::account::Account;
use crate::columns::{push_copies, push_right};
use lgp_table::stores;
use lgp_word::{Word, parts};
use std::alloc::{AllocError, Allocator};

/// Appends the head of the row in which a picture begins at a clock, and blanks up to that clock.
#[tactic(auto, unfolding(crate::specs::DrumRows::rows_begun))]
pub fn push_rows_begun<A: Allocator>(text: &mut Vec<u8, A>, clock: u64) -> Result<(), AllocError>
    ensures { OnOk result (text.new.items ≡ text.old.items ++ rows_begun clock) }
{
    let column = clock % 64;
    if column == 0 {
        return Ok(());
    }
    push_right(text, 7, clock - column)?;
    text.extend_from_slice(b"  ")?;
    push_copies(text, b' ', column)
}

/// Appends the end of the row in which a picture ends at a clock.
#[tactic(auto, unfolding(crate::specs::DrumRows::rows_ended))]
pub fn push_rows_ended<A: Allocator>(text: &mut Vec<u8, A>, clock: u64) -> Result<(), AllocError>
    ensures { OnOk result (text.new.items ≡ text.old.items ++ rows_ended clock) }
{
    if clock % 64 == 0 {
        return Ok(());
    }
    text.extend_from_slice(b"\n")
}

/// Appends a sign at its clock.
fn push_sign<A: Allocator>(text: &mut Vec<u8, A>, clock: u64, sign: u8) -> Result<(), AllocError>
    ensures { OnOk result (text.new.items ≡ text.old.items ++ sign_in_row clock sign) }
{
    if clock % 64 == 0 {
        push_right(text, 7, clock)?;
        text.extend_from_slice(b"  ")?;
    }
    text.push(sign)?;
    if clock % 64 == 63 {
        text.push(b'\n')?;
    }
    Ok(())
}

/// Appends a given number of equal signs from a clock on.
#[tactic(auto, using(crate::proofs::DrumLemmas::rows))]
fn push_signs<A: Allocator>(
    text: &mut Vec<u8, A>,
    clock: u64,
    sign: u8,
    count: u64,
) -> Result<(), AllocError>
    requires { clock + count ≤ clock_end }
    ensures { OnOk result (text.new.items
        ≡ text.old.items ++ signs_in_rows clock (replicate count sign)) }
{
    for done in 0..count {
        push_sign(text, clock + done, sign)?;
    }
    Ok(())
}

/// Appends a wait from a clock on.
#[tactic(auto, using(crate::proofs::DrumLemmas::wait_done, crate::proofs::DrumLemmas::rows))]
fn push_wait<A: Allocator>(
    text: &mut Vec<u8, A>,
    clock: u64,
    times: u64,
    sign: u8,
) -> Result<(), AllocError>
    requires { clock + times ≤ clock_end }
    ensures { OnOk result (text.new.items
        ≡ text.old.items ++ signs_in_rows clock (waited times sign)) }
{
    if times == 0 {
        return Ok(());
    }
    push_signs(text, clock, b'.', times - 1)?;
    push_sign(text, clock + (times - 1), sign)
}

/// The sign of a word that is waited for.
fn use_sign(order: Option<Word>) -> u8
    ensures { result ≡ use_sign (stored_address order) }
{
    match order {
        Some(order) if stores(parts(order).1) => b'W',
        _ => b'R',
    }
}

/// Appends the third phase from a clock on.
fn push_seek<A: Allocator>(
    text: &mut Vec<u8, A>,
    clock: u64,
    account: &Account,
) -> Result<(), AllocError>
    requires { clock + account.now.phases.seek ≤ clock_end }
    ensures { OnOk result (text.new.items ≡ text.old.items ++ signs_in_rows clock
        (seek_signs account.now.operand (stored_address account.now.order)
        account.now.phases.seek)) }
{
    match account.operand {
        None => push_signs(text, clock, b'-', account.phases.seek),
        Some(_) => push_wait(text, clock, account.phases.seek, use_sign(account.order)),
    }
}

/// Appends the signs of an account from a clock on.
#[tactic(auto, using(crate::proofs::DrumLemmas::account_drawn))]
pub fn push_drum<A: Allocator>(
    text: &mut Vec<u8, A>,
    clock: u64,
    account: &Account,
) -> Result<(), AllocError>
    requires { clock + all_phases account.now.phases ≤ clock_end }
    ensures { OnOk result (text.new.items
        ≡ text.old.items ++ signs_in_rows clock (signs_of account.now)) }
{
    let phases = account.phases;
    let taken = clock + phases.find;
    let sought = taken + phases.take;
    let acted = sought + phases.seek;
    push_wait(text, clock, phases.find, b'F')?;
    push_signs(text, taken, b'i', phases.take)?;
    push_seek(text, sought, account)?;
    push_signs(text, acted, b'x', phases.act)
}
