//! What follows from the definitions, each law as the contract of a function that does nothing.

ghost use Rattle.std.specs.Prelude.{◌≡◌, ◌≢◌, ◌+◌, ◌<◌, ◌≤◌, ℕ, Bool, List, true, false, [], ◌∷◌, length};
ghost use Rattle.lgp_flexo.specs.Code.{is_skipped};
ghost use Rattle.lgp_flexo.specs.Input.{accumulator_after_all};
ghost use Rattle.lgp_word.specs.declared.order.Op.{Op};
ghost use Rattle.lgp_table.specs.Activity.{cost, next};
ghost use Rattle.lgp_table.specs.After.{after, total_cost};
ghost use Rattle.lgp_table.specs.SwitchPresses.{is_time_or_switch, is_word_time, looks_at_switches, with_switches};
ghost use Rattle.std.specs.List.{count_by, list_all};
ghost use Rattle.lgp_table.specs.declared.panel.Switches.{Switches};
ghost use Rattle.lgp_table.specs.Interleaving.{Configuration, after_action, after_events, after_press, after_word_time, at_boundary, is_boundary, latch_limit};
ghost use Rattle.lgp_table.specs.PassedCodes.{without_passed};
ghost use Rattle.lgp_table.specs.Rows.{row};
ghost use Rattle.lgp_table.specs.State.{Core, State, word_at};
ghost use Rattle.lgp_table.specs.declared.panel.Panel.{Panel};
ghost use Rattle.lgp_word.specs.Drum.{position_of, position_under_head};
ghost use Rattle.lgp_table.specs.Wait.{wait};
ghost use Rattle.lgp_table.specs.Console.{Console, console_after, is_live};

use crate::action::{Action, Event};

/// A wait is the number of word times until the head first reads the sector, and never more than a revolution.
pub fn waits()
    ensures range { (sector clock : ℕ) → (1 ≤ wait sector clock) × (wait sector clock ≤ 64) }
    ensures reads { (sector clock : ℕ)
        → position_under_head (clock + wait sector clock) ≡ position_of sector }
    ensures first { (sector clock before : ℕ) → 1 ≤ before → before < wait sector clock
        → position_under_head (clock + before) ≢ position_of sector }
{}

/// A dead action changes nothing.
pub fn dead_actions()
    ensures unchanged { (console : Console) (action : Action)
        → is_live console.panel action ≡ false → console_after console action ≡ console }
{}

/// Every activity takes a word time at least, and the clock never goes back.
#[tactic(auto, using(crate::proofs::Costs::cost_more))]
pub fn costs()
    ensures cost { (s : State) → 1 ≤ cost s }
    ensures clock { (s : State) → s.clock < (next s).clock }
{}

/// An order changes no word but the one at its address.
pub fn other_words()
    ensures unchanged { (op : Op) → (minus : Bool) → (m other : ℕ) → (core : Core) → other ≢ m
        → word_at (row op minus m core).core other ≡ word_at core other }
{}

/// A skipped code passes and does not enter, from the tape as from the keys.
pub fn skipped_codes()
    ensures tape { (six_bit : Bool) → (accumulator code : ℕ) → (codes : List ℕ)
        → is_skipped code ≡ true
        → accumulator_after_all six_bit accumulator (code ∷ codes)
        ≡ accumulator_after_all six_bit accumulator codes }
    ensures key { (panel : Panel) → (code : ℕ)
        → is_skipped code ≡ true → is_live panel (Action.Key code) ≡ false }
{}

/// What is pressed within an activity waits for its end, where all that is kept acts in order; with 16 kept a press is lost.
pub fn kept_actions()
    ensures kept { (now : Configuration) → (first second : Action) → is_boundary now ≡ false
        → now.kept ≡ first ∷ [] → after_press now second
        ≡ record now { kept = first ∷ second ∷ [] } }
    ensures full { (now : Configuration) → (action : Action) → is_boundary now ≡ false
        → length now.kept ≡ latch_limit → after_press now action ≡ now }
    ensures at_once { (s : State) → (action : Action)
        → after_press (at_boundary s) action ≡ at_boundary (after_action s action) }
    ensures in_order { (now : Configuration) → (first second : Action)
        → now.elapsed + 1 ≡ cost now.state → now.kept ≡ first ∷ second ∷ []
        → after_word_time now
        ≡ at_boundary (after_action (after_action (next now.state) first) second) }
    ensures not_yet { (now : Configuration) → now.elapsed + 1 < cost now.state
        → after_word_time now ≡ record now { elapsed = now.elapsed + 1 } }
{}

/// The codes that have passed the reader change no cost, no order and no action: states that differ in them alone go on to states
/// that differ in them alone.
#[tactic(auto, using(crate::proofs::PassedCodes::without_passed_codes))]
pub fn passed_codes()
    ensures cost { (s : State) → cost (without_passed s) ≡ cost s }
    ensures next { (s : State)
        → without_passed (next (without_passed s)) ≡ without_passed (next s) }
    ensures action { (s : State) → (action : Action)
        → without_passed (after_action (without_passed s) action)
        ≡ without_passed (after_action s action) }
{}

/// A number of activities and then a number of others are all of them together. The clock goes on by the sum of what each of them costs.
#[tactic(auto, using(crate::proofs::After::states_after))]
pub fn activities_together()
    ensures none { (s : State) → after s 0 ≡ s }
    ensures next { (s : State) → (count : ℕ) → after s (count + 1) ≡ next (after s count) }
    ensures together { (s : State) → (first second : ℕ)
        → after s (first + second) ≡ after (after s first) second }
    ensures clock { (s : State) → (count : ℕ)
        → (after s count).clock ≡ s.clock + total_cost s count }
{}

/// An activity that does not look at BREAK POINT and TRANSFER CONTROL does the same, in the same time, however these are set, and
/// does not change them.
#[tactic(auto, using(crate::proofs::Unseen::switches_unseen))]
pub fn unseen_switches()
    ensures cost { (s : State) → (switches : Switches)
        → cost (with_switches s switches) ≡ cost s }
    ensures next { (s : State) → (switches : Switches) → looks_at_switches s ≡ false
        → next (with_switches s switches) ≡ with_switches (next s) switches }
{}

/// Of activities that do not look at BREAK POINT and TRANSFER CONTROL nobody's hand on these switches is felt: after as many word
/// times as they take, with presses of those switches anywhere between, the machine is at the same boundary but for them.
#[tactic(auto, using(crate::proofs::Pressed::switches_pressed))]
pub fn pressed_switches()
    ensures { (s : State) → (count : ℕ) → (events : List Event)
        → ((before : ℕ) → before < count → looks_at_switches (after s before) ≡ false)
        → list_all is_time_or_switch events ≡ true
        → count_by is_word_time events ≡ total_cost s count
        → (switches : Switches)
        × (after_events (at_boundary s) events
        ≡ at_boundary (with_switches (after s count) switches)) }
{}
