//! Keying words in.

ghost use Rattle.std.specs.Prelude.{◌≡◌, ◌+◌, ◌<◌, ◌≤◌, ◌↔◌, false, ℕ, IsTrue, OnOk, Ok, Err, length};
ghost use Rattle.std.specs.Bool.{OnFalse, OnTrue};
ghost use Rattle.lgp_table.specs.Activity.{cost, next};
ghost use Rattle.lgp_table.specs.Interleaving.{at_boundary, is_boundary};
ghost use Rattle.lgp_table.specs.declared.panel.Status.TheVariants.{Executing};
ghost use Rattle.lgp_word.specs.Word.{IsWord};
ghost use Rattle.lgp_machine.specs.Answers.{clock_end};
ghost use Rattle.lgp_keyin.specs.KeyIn.{about_to_store, keyed, store_order};
ghost use Rattle.lgp_keyin.specs.Keyed.{EndsBeforeStore, PassesClockEnd};

use crate::actions::actions_to_store;
use crate::operate::{Operate, press_all};
use lgp_table::Action;
use lgp_word::{Address, Word};
use std::alloc::Allocator;
use thiserror::Error;

/// Why words are not keyed in.
#[derive(Clone, Copy, Debug, PartialEq, Eq, Error)]
pub enum KeyFault {
    /// Nothing was pressed.
    #[error("an activity has been begun")]
    Moving,
    /// Nothing was pressed.
    #[error("the words go past the end of the drum")]
    PastEnd,
    /// The words so far are stored, and the machine is about to store the next one.
    #[error("the clock would pass its end")]
    ClockEnd,
}

/// Stores a word by hand. Answers false where the clock would pass its end: all is then pressed, and the order not performed.
#[tactic(auto, using(crate::proofs::ByHand::storing))]
fn store<A: Allocator, M: Operate<A>>(machine: &mut M, address: Address, word: Word) -> bool
    requires boundary { M.configuration machine.old
        ≡ at_boundary (M.configuration machine.old).state }
    requires up { (M.configuration machine.old).state.core.panel.switches.six_bit ≡ false }
    ensures stored { OnTrue result (M.configuration machine.new
        ≡ at_boundary (next (about_to_store (M.configuration machine.old).state address word))) }
    ensures up { OnTrue result
        ((M.configuration machine.new).state.core.panel.switches.six_bit ≡ false) }
    ensures clock { (M.configuration machine.new).state.clock ≤ clock_end }
    ensures stands { OnFalse result (M.configuration machine.new
        ≡ at_boundary (about_to_store (M.configuration machine.old).state address word)) }
    ensures clock_end { OnFalse result (clock_end < (M.configuration machine.new).state.clock
        + cost (M.configuration machine.new).state) }
    ensures word { IsWord word }
{
    press_all(machine, &actions_to_store(address, word));
    machine.next_order().is_ok()
}

/// Keys words in from an address on, as an operator does: 6 BIT INPUT up, then for each word the actions that store it, and one
/// order.
///
/// Refused, in this order: within an activity (`Moving`), and where the words would go past 6363 (`PastEnd`), both before
/// anything is pressed; where the clock would pass its end (`ClockEnd`): the words so far are stored, and the order to store the
/// next one is in the instruction register, about to be executed.
pub fn key_in<A: Allocator, M: Operate<A>>(
    machine: &mut M,
    base: Address,
    words: &[Word],
) -> Result<(), KeyFault>
    ensures keyed { OnOk result (M.configuration machine.new
        ≡ at_boundary (keyed (M.configuration machine.old).state base words.now)) }
    ensures moving { (result ≡ Err KeyFault.Moving)
        ↔ (is_boundary (M.configuration machine.old) ≡ false) }
    ensures past_end { (result ≡ Err KeyFault.PastEnd)
        ↔ (IsTrue (is_boundary (M.configuration machine.old))
        × (4096 < base + length words.now)) }
    ensures clock_end { (result ≡ Err KeyFault.ClockEnd)
        ↔ (IsTrue (is_boundary (M.configuration machine.old))
        × (base + length words.now ≤ 4096)
        × PassesClockEnd (M.configuration machine.old).state base words.now) }
    ensures stands { result ≡ Err KeyFault.ClockEnd
        → EndsBeforeStore (M.configuration machine.new)
        (M.configuration machine.old).state base words.now }
    ensures within { result ≡ Err KeyFault.ClockEnd
        → (M.configuration machine.new).state.clock ≤ clock_end }
    ensures executing { result ≡ Err KeyFault.ClockEnd
        → (M.configuration machine.new).state.core.panel.status ≡ Executing }
    ensures register { result ≡ Err KeyFault.ClockEnd → (done : ℕ) × (done < length words.now)
        × ((M.configuration machine.new).state.core.panel.register ≡ store_order (base + done)) }
    ensures not_moving { result ≡ Err KeyFault.Moving
        → M.configuration machine.new ≡ M.configuration machine.old }
    ensures not_past { result ≡ Err KeyFault.PastEnd
        → M.configuration machine.new ≡ M.configuration machine.old }
{
    if machine.look().is_none() {
        return Err(KeyFault::Moving);
    }
    if words.len() > Address::COUNT - usize::from(base.number()) {
        return Err(KeyFault::PastEnd);
    }
    let _ = machine.press(Action::SixBit(false));
    let mut address = base;
    for word in words {
        if !store(machine, address, *word) {
            return Err(KeyFault::ClockEnd);
        }
        address = address.next();
    }
    Ok(())
}
