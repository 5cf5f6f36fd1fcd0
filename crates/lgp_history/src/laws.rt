//! What follows from the definitions, each law as the contract of a function that does nothing.

ghost use Rattle.std.specs.Prelude.{◌≡◌, ◌<◌, ◌++◌, ◌∷◌, ℕ, List, Some, None, All, IsTrue, false, length};
ghost use Rattle.lgp_table.specs.State.{State, word_at};
ghost use Rattle.lgp_history.specs.Step.{KeptStep};
ghost use Rattle.lgp_history.specs.Steps.{Leads, first_state, is_order, orders_in, state_back, steps_back};
ghost use Rattle.lgp_history.specs.Hits.{last_hit};
ghost use Rattle.lgp_history.specs.Laws.{IsLastHit, PassesRules, performed_again};
ghost use Rattle.lgp_history.specs.Origins.{IsOrigin, changed_at, latest_change};
ghost use Rattle.lgp_history.specs.declared.origin.Origin.{Origin};
ghost use Rattle.lgp_history.specs.declared.rule.Rule.{Rule};

/// Going back as many orders as were done last, and performing as many again, comes to the same state.
#[tactic(auto, using(crate::proofs::StepLaws::again))]
pub fn orders_again()
    ensures { (earlier later : List KeptStep) → (now : State)
        → Leads (earlier ++ later) now → 0 < length later → orders_in later ≡ length later
        → performed_again (state_back (length later) (earlier ++ later) now) later ≡ now }
{}

/// A last hit is an order that the rule hits, and no later order is hit. Where there is none, no order is hit.
#[tactic(auto, using(crate::proofs::StepLaws::hit_last, crate::proofs::StepLaws::none_hit))]
pub fn last_hits()
    ensures hit { (rules : List Rule) → (kept : List KeptStep) → (hit : ℕ × ℕ)
        → last_hit rules kept ≡ Some hit → IsLastHit rules kept hit }
    ensures none { (rules : List Rule) → (kept : List KeptStep)
        → last_hit rules kept ≡ None → All (PassesRules rules) kept }
{}

/// A word is as the step that is its origin left it, and no later step changed it. Where it has no origin, no kept step changed it, and it
/// is the one with which the kept steps begin.
#[tactic(auto, using(crate::proofs::OriginLaws::word_came, crate::proofs::OriginLaws::none_changed, crate::proofs::OriginLaws::word_kept))]
pub fn words_come()
    ensures origin { (address : ℕ) → (kept : List KeptStep) → (now : State)
        → (origin : Origin) → Leads kept now → latest_change address kept ≡ Some origin
        → IsOrigin address kept now origin }
    ensures none { (address : ℕ) → (kept : List KeptStep)
        → latest_change address kept ≡ None
        → All (λ k. changed_at address k ≡ false) kept }
    ensures stays { (address : ℕ) → (kept : List KeptStep) → (now : State)
        → Leads kept now → latest_change address kept ≡ None
        → word_at now.core address ≡ word_at (first_state kept now).core address }
{}

/// Going back to the beginning of a kept order, a word has the origin that the steps before that order give it.
#[tactic(auto, using(crate::proofs::OriginLaws::origin_back))]
pub fn origins_go_back()
    ensures { (address : ℕ) → (earlier : List KeptStep) → (order : KeptStep)
        → (later : List KeptStep) → IsTrue (is_order order.step)
        → latest_change address
        (steps_back (orders_in (order ∷ later)) (earlier ++ order ∷ later))
        ≡ latest_change address earlier }
{}
