//! What follows from the definitions, each law as the contract of a function that does nothing.

ghost use Rattle.std.specs.Prelude.{◌≡◌, ◌<◌, ℕ, replicate};
ghost use Rattle.lgp_table.specs.State.{State};
ghost use Rattle.lgp_table.specs.Activity.{cost, next};
ghost use Rattle.lgp_table.specs.Interleaving.{after_events, at_boundary};

use lgp_table::Event;

/// The word times of an activity, with nothing pressed between them: before the last one none ends at a boundary, and the state
/// in which the activity began is still there; the last one ends in the next state.
#[tactic(auto, using(crate::proofs::Turns::turned_within, crate::proofs::Turns::turned_whole))]
pub fn an_activity()
    ensures within { (s : State) → (times : ℕ) → times < cost s
        → after_events (at_boundary s) (replicate times Event.WordTime)
        ≡ record (at_boundary s) { elapsed = times } }
    ensures whole { (s : State)
        → after_events (at_boundary s) (replicate (cost s) Event.WordTime) ≡ at_boundary (next s) }
{}
