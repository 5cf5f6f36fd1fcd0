//! What follows from the definitions, each law as the contract of a function that does nothing.

ghost use Rattle.std.specs.Prelude.{◌≡◌, List, ℕ};
ghost use Rattle.std.specs.Str.Lines.{lines};
ghost use Rattle.lgp_command.specs.Operands.{IsCount};
ghost use Rattle.lgp_script.specs.LabState.{opening_state};
ghost use Rattle.lgp_moment.specs.Moment.{moment_of, state_at};

/// Whatever a session did, it is brought to where its machine was when the order began.
#[tactic(auto, using(crate::proofs::MomentLaws::moments))]
pub fn a_moment_is_where_its_order_begins()
    ensures { (transcript : List ℕ) (order : ℕ) → IsCount order
        → (moment_of transcript order).state.debugger.state
        ≡ state_at opening_state (lines transcript) order }
{}
