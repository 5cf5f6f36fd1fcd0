//! What the definitions give on worked orders, each as the contract of a function that does nothing. `at 0 50` is the address
//! 0050, `order Op.B 0 50` the word of b 0050, and `Begins s 67 (at 0 1) word` says that at clock 67 the machine begins the
//! order at 0001, whose word this is.

ghost use Rattle.std.specs.Prelude.{◌≡◌, ◌+◌, ◌*◌, ◌-◌, ◌%◌, ◌^◌, ℕ, true, false, length, [], ◌∷◌, Some};
ghost use Rattle.lgp_table.specs.State.{State, word_at};
ghost use Rattle.lgp_table.specs.Activity.{cost, next, print_of};
ghost use Rattle.lgp_table.specs.Console.{Console, console_after, is_live};
ghost use Rattle.lgp_table.specs.Wait.{wait};
ghost use Rattle.lgp_table.specs.Worked.{Begins, at, minus_t, order, tape_to_read, unended_tape, worked_tape};

use crate::action::Action;
use crate::panel::{Cause, Mode, Status};
use lgp_word::Op;

/// b 0050 at 0000 from clock 0, where 0050 is 6.
#[tactic(auto, unfolding(crate::specs::Activity::cost_at, crate::specs::Activity::core_after, crate::specs::Activity::seek_time, crate::specs::Activity::act_time, lgp_word::specs::Order::op_of))]
pub fn load()
    ensures clock { (s : State) → Begins s 0 (at 0 0) (order Op.B 0 50) → (next s).clock ≡ 67 }
    ensures accumulator { (s : State) → Begins s 0 (at 0 0) (order Op.B 0 50)
        → word_at s.core (at 0 50) ≡ 6 → (next s).core.panel.accumulator ≡ 6 }
    ensures counter { (s : State) → Begins s 0 (at 0 0) (order Op.B 0 50)
        → (next s).core.panel.counter ≡ at 0 1 }
    ensures register { (s : State) → Begins s 0 (at 0 0) (order Op.B 0 50)
        → (next s).core.panel.register ≡ order Op.B 0 50 }
    ensures goes_on { (s : State) → Begins s 0 (at 0 0) (order Op.B 0 50)
        → (next s).core.panel.status ≡ Status.Going }
{}

/// a 0051 at 0001 from clock 67, where 0051 is 10 and the accumulator 6.
#[tactic(auto, unfolding(crate::specs::Activity::cost_at, crate::specs::Activity::core_after, crate::specs::Activity::seek_time, crate::specs::Activity::act_time, lgp_word::specs::Order::op_of, lgp_fraction::specs::Arithmetic::added))]
pub fn sum()
    ensures clock { (s : State) → Begins s 67 (at 0 1) (order Op.A 0 51) → (next s).clock ≡ 76 }
    ensures accumulator { (s : State) → Begins s 67 (at 0 1) (order Op.A 0 51)
        → word_at s.core (at 0 51) ≡ 10 → s.core.panel.accumulator ≡ 6
        → (next s).core.panel.accumulator ≡ 16 }
    ensures goes_on { (s : State) → Begins s 67 (at 0 1) (order Op.A 0 51)
        → word_at s.core (at 0 51) ≡ 10 → s.core.panel.accumulator ≡ 6
        → (next s).core.panel.status ≡ Status.Going }
{}

/// The same order where the sum is past the greatest fraction: 2^31 - 2 and 2.
#[tactic(auto, unfolding(crate::specs::Activity::cost_at, crate::specs::Activity::core_after, crate::specs::Activity::seek_time, crate::specs::Activity::act_time, lgp_word::specs::Order::op_of, lgp_fraction::specs::Arithmetic::added))]
pub fn overflow()
    ensures accumulator { (s : State) → Begins s 67 (at 0 1) (order Op.A 0 51)
        → word_at s.core (at 0 51) ≡ 2 → s.core.panel.accumulator ≡ 2 ^ 31 - 2
        → (next s).core.panel.accumulator ≡ 2 ^ 31 }
    ensures halts { (s : State) → Begins s 67 (at 0 1) (order Op.A 0 51)
        → word_at s.core (at 0 51) ≡ 2 → s.core.panel.accumulator ≡ 2 ^ 31 - 2
        → (next s).core.panel.status ≡ Status.Halted Cause.Overflow }
    ensures counter { (s : State) → Begins s 67 (at 0 1) (order Op.A 0 51)
        → (next s).core.panel.counter ≡ at 0 2 }
{}

/// h 0052 at 0002 from clock 76, where the accumulator is 16.
#[tactic(auto, unfolding(crate::specs::Activity::cost_at, crate::specs::Activity::core_after, crate::specs::Activity::seek_time, crate::specs::Activity::act_time, lgp_word::specs::Order::op_of))]
pub fn store()
    ensures clock { (s : State) → Begins s 76 (at 0 2) (order Op.H 0 52) → (next s).clock ≡ 85 }
    ensures word { (s : State) → Begins s 76 (at 0 2) (order Op.H 0 52)
        → length s.core.words ≡ 4096 → s.core.panel.accumulator ≡ 16
        → word_at (next s).core (at 0 52) ≡ 16 }
    ensures odd { (s : State) → Begins s 76 (at 0 2) (order Op.H 0 52)
        → length s.core.words ≡ 4096 → s.core.panel.accumulator ≡ 17
        → word_at (next s).core (at 0 52) ≡ 16 }
{}

/// z 0000 at 0003 from clock 85, and z 3200 with and without its BREAK POINT switch.
#[tactic(auto, unfolding(crate::specs::Activity::cost_at, crate::specs::Activity::core_after, crate::specs::Activity::seek_time, crate::specs::Activity::act_time, lgp_word::specs::Order::op_of))]
pub fn stop()
    ensures clock { (s : State) → Begins s 85 (at 0 3) (order Op.Z 0 0) → (next s).clock ≡ 94 }
    ensures halts { (s : State) → Begins s 85 (at 0 3) (order Op.Z 0 0)
        → (next s).core.panel.status ≡ Status.Halted Cause.Stop }
    ensures counter { (s : State) → Begins s 85 (at 0 3) (order Op.Z 0 0)
        → (next s).core.panel.counter ≡ at 0 4 }
    ensures switch_up { (s : State) → Begins s 0 (at 0 0) (order Op.Z 32 0)
        → s.core.panel.switches.b32 ≡ false
        → (next s).core.panel.status ≡ Status.Halted Cause.Stop }
    ensures switch_down { (s : State) → Begins s 0 (at 0 0) (order Op.Z 32 0)
        → s.core.panel.switches.b32 ≡ true → (next s).core.panel.status ≡ Status.Going }
{}

/// b 0050 and b 0000 at 0000 from clock 0, and when the order at 0001 is read after each.
#[tactic(auto, unfolding(crate::specs::Activity::cost_at, crate::specs::Activity::seek_time, crate::specs::Activity::act_time, lgp_word::specs::Order::op_of))]
pub fn two_waits()
    ensures short { (s : State) → Begins s 0 (at 0 0) (order Op.B 0 50) → cost s ≡ 67 }
    ensures long { (s : State) → Begins s 0 (at 0 0) (order Op.B 0 0) → cost s ≡ 129 }
    ensures after_short { 67 + wait 1 67 ≡ 73 }
    ensures after_long { 129 + wait 1 129 ≡ 137 }
{}

/// y 0002 at 0001, where 0002 is b 0000 and the accumulator's address part 0100; r 0110 at 0100 and r 0000 at 6363, where
/// those words are u 0000.
#[tactic(auto, unfolding(crate::specs::Activity::core_after, lgp_word::specs::Order::op_of))]
pub fn stored_addresses()
    ensures y { (s : State) → (clock : ℕ) → Begins s clock (at 0 1) (order Op.Y 0 2)
        → length s.core.words ≡ 4096 → s.core.panel.accumulator ≡ order Op.Z 1 0
        → word_at s.core (at 0 2) ≡ order Op.B 0 0
        → word_at (next s).core (at 0 2) ≡ order Op.B 1 0 }
    ensures r { (s : State) → (clock : ℕ) → Begins s clock (at 1 0) (order Op.R 1 10)
        → length s.core.words ≡ 4096 → word_at s.core (at 1 10) ≡ order Op.U 0 0
        → word_at (next s).core (at 1 10) ≡ order Op.U 1 2 }
    ensures r_at_the_last { (s : State) → (clock : ℕ)
        → Begins s clock (at 63 63) (order Op.R 0 0)
        → length s.core.words ≡ 4096 → word_at s.core (at 0 0) ≡ order Op.U 0 0
        → word_at (next s).core (at 0 0) ≡ order Op.U 0 1 }
    ensures counter_at_the_last { (s : State) → (clock : ℕ)
        → Begins s clock (at 63 63) (order Op.R 0 0) → (next s).core.panel.counter ≡ at 0 0 }
{}

/// t 0100 with a minus at 0000 from clock 0, and t 0000 with a negative accumulator.
#[tactic(auto, unfolding(crate::specs::Activity::cost_at, crate::specs::Activity::core_after, crate::specs::Activity::seek_time, crate::specs::Activity::act_time, lgp_word::specs::Order::op_of))]
pub fn test()
    ensures clock { (s : State) → Begins s 0 (at 0 0) (minus_t 1 0) → (next s).clock ≡ 67 }
    ensures switch_up { (s : State) → Begins s 0 (at 0 0) (minus_t 1 0)
        → s.core.panel.accumulator ≡ 0 → s.core.panel.switches.transfer ≡ false
        → (next s).core.panel.counter ≡ at 0 1 }
    ensures switch_down { (s : State) → Begins s 0 (at 0 0) (minus_t 1 0)
        → s.core.panel.switches.transfer ≡ true → (next s).core.panel.counter ≡ at 1 0 }
    ensures negative { (s : State) → Begins s 0 (at 0 0) (order Op.T 0 0)
        → s.core.panel.accumulator ≡ 2 ^ 31 → (next s).core.panel.counter ≡ at 0 0 }
{}

/// p 5700 at 0000 from clock 0.
#[tactic(auto, unfolding(crate::specs::Activity::cost_at, crate::specs::Activity::core_after, crate::specs::Activity::print_of, crate::specs::Activity::seek_time, crate::specs::Activity::act_time, lgp_word::specs::Order::op_of))]
pub fn print()
    ensures clock { (s : State) → Begins s 0 (at 0 0) (order Op.P 57 0) → (next s).clock ≡ 451 }
    ensures prints { (s : State) → Begins s 0 (at 0 0) (order Op.P 57 0)
        → print_of s.core ≡ Some 57 }
    ensures printed { (s : State) → Begins s 0 (at 0 0) (order Op.P 57 0)
        → s.printed ≡ [] → (next s).printed ≡ 57 ∷ [] }
    ensures goes_on { (s : State) → Begins s 0 (at 0 0) (order Op.P 57 0)
        → (next s).core.panel.status ≡ Status.Going }
{}

/// i 0000 at 0001 from clock 67 with the reader on, over the tape 1 2 (a skipped code) 3 with a conditional stop and without.
#[tactic(auto, unfolding(crate::specs::Activity::cost_at, crate::specs::Activity::core_after, crate::specs::Activity::seek_time, crate::specs::Activity::act_time, lgp_word::specs::Order::op_of))]
pub fn input()
    ensures accumulator { (s : State) → Begins s 67 (at 0 1) (order Op.I 0 0)
        → s.core.panel.accumulator ≡ 0 → s.core.panel.switches.six_bit ≡ false
        → s.core.tape ≡ tape_to_read worked_tape → (next s).core.panel.accumulator ≡ 0x123 }
    ensures goes_on { (s : State) → Begins s 67 (at 0 1) (order Op.I 0 0)
        → s.core.tape ≡ tape_to_read worked_tape → (next s).core.panel.status ≡ Status.Going }
    ensures tape { (s : State) → Begins s 67 (at 0 1) (order Op.I 0 0)
        → s.core.tape ≡ tape_to_read worked_tape
        → (next s).core.tape ≡ record { on = false; passed = worked_tape; left = [] } }
    ensures clock { (s : State) → Begins s 67 (at 0 1) (order Op.I 0 0)
        → s.core.tape ≡ tape_to_read worked_tape → (next s).clock ≡ 1996 }
    ensures waits { (s : State) → Begins s 67 (at 0 1) (order Op.I 0 0)
        → s.core.tape ≡ tape_to_read unended_tape
        → (next s).core.panel.status ≡ Status.Waiting }
    ensures clock_waiting { (s : State) → Begins s 67 (at 0 1) (order Op.I 0 0)
        → s.core.tape ≡ tape_to_read unended_tape → (next s).clock ≡ 1612 }
    ensures six_bits { (s : State) → Begins s 67 (at 0 1) (order Op.I 0 0)
        → s.core.panel.accumulator ≡ 0 → s.core.panel.switches.six_bit ≡ true
        → s.core.tape ≡ tape_to_read (57 ∷ 32 ∷ []) → (next s).core.panel.accumulator ≡ 57 }
{}

/// Keys struck where the machine has halted in Manual: the digit 1 enters, the conditional stop and a skipped code are dead.
#[tactic(auto)]
pub fn keys_in_manual()
    ensures live { (console : Console) → (cause : Cause)
        → console.panel.status ≡ Status.Halted cause
        → console.panel.mode ≡ Mode.Manual → is_live console.panel (Action.Key 6) ≡ true }
    ensures enters { (console : Console) → (cause : Cause)
        → console.panel.status ≡ Status.Halted cause
        → console.panel.mode ≡ Mode.Manual → console.panel.switches.six_bit ≡ false
        → (console_after console (Action.Key 6)).panel.accumulator
        ≡ (16 * console.panel.accumulator + 1) % 2 ^ 32 }
    ensures stop_dead { (console : Console) → (cause : Cause)
        → console.panel.status ≡ Status.Halted cause
        → is_live console.panel (Action.Key 32) ≡ false }
    ensures skipped_dead { (console : Console) → is_live console.panel (Action.Key 16) ≡ false }
{}
