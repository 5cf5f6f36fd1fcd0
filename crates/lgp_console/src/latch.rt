//! The latch.

ghost use Rattle.std.specs.Prelude.{◌≡◌, ◌<◌, ◌≤◌, ◌↔◌, List, [], ◌∷◌, ◌++◌, length, IsTrue, IfSome, IfNone, None, false};
ghost use Rattle.lgp_table.specs.Interleaving.{latch_limit};

use arrayvec::ArrayVec;
use lgp_table::Action;
use std::marker::Model;

/// How many actions the latch keeps.
const LATCH_LIMIT: usize = 16;

/// The actions that are kept until the present order ends, oldest first. Clauses see their list.
#[derive(Drop)]
pub struct Latch {
    kept: ArrayVec<Action, LATCH_LIMIT>,
}

impl Model for Latch {
    ghost use Rattle.std.specs.Prelude.{List};
    ghost use Rattle.lgp_table.specs.declared.action.Action.{Action};

    ghost Value = { List Action };

    ghost view = { λ latch. latch.kept.items };
}

impl Latch {
    /// A latch that keeps nothing.
    pub fn new() -> Latch
        ensures { result ≡ [] }
    {
        Latch {
            kept: ArrayVec::new(),
        }
    }

    /// Keeps an action after the others; false, and nothing changes, only with 16 kept.
    pub fn keep(&mut self, action: Action) -> bool
        ensures room { IsTrue result ↔ (length self.old < latch_limit) }
        ensures kept { IsTrue result → self.new ≡ self.old ++ action ∷ [] }
        ensures full { result ≡ false
            → (self.new ≡ self.old) × (length self.old ≡ latch_limit) }
    {
        self.kept.try_push(action).is_ok()
    }

    /// Takes the oldest action out; `None` where none is kept.
    pub fn first(&mut self) -> Option<Action>
        ensures oldest { IfSome result (λ action. self.old ≡ action ∷ self.new) }
        ensures empty { (result ≡ None) ↔ (self.old ≡ []) }
        ensures unchanged { IfNone result (self.new ≡ self.old) }
    {
        if self.kept.is_empty() {
            None
        } else {
            Some(self.kept.remove(0))
        }
    }

    /// A latch that keeps the same actions.
    pub fn copy(&self) -> Latch
        ensures { result ≡ self.now }
    {
        let mut kept = ArrayVec::new();
        for action in self.kept.as_slice() {
            kept.push(*action);
        }
        Latch { kept }
    }

    /// How many actions are kept, at most 16.
    pub fn len(&self) -> usize
        ensures length { result ≡ length self.now }
        ensures limit { result ≤ latch_limit }
    {
        self.kept.len()
    }

    /// Whether none is kept.
    pub fn is_empty(&self) -> bool
        ensures { IsTrue result ↔ (self.now ≡ []) }
    {
        self.kept.is_empty()
    }
}
