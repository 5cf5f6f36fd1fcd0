//! Laws of what is told to programs.

ghost use Rattle.std.specs.Prelude.{◌≡◌, ℕ};
ghost use Rattle.lgp_table.specs.Activity.{core_after, cost_at};
ghost use Rattle.lgp_table.specs.State.{Core};
ghost use Rattle.lgp_data.specs.CostData.{going_at, next_at, sum_at};

/// What is told of an order is what the table says of a machine whose next order it is: what it takes, and which order comes after it.
#[tactic(auto, unfolding(lgp_table::specs::Activity::cost_at, lgp_table::specs::Activity::core_after))]
pub fn costs_are_the_tables()
    ensures sum { (core : Core) → (place clock : ℕ)
        → cost_at (going_at place core) clock ≡ sum_at core place clock }
    ensures next { (core : Core) → (place : ℕ)
        → (core_after (going_at place core)).panel.counter ≡ next_at core place }
{}
