//! What follows from the definitions, each law as the contract of a function that does nothing.

ghost use Rattle.std.specs.Prelude.{◌≡◌, ◌≢◌, ◌+◌, ℕ, List, Some, length};
ghost use Rattle.lgp_table.specs.Activity.{cost, next};
ghost use Rattle.lgp_table.specs.After.{after};
ghost use Rattle.lgp_table.specs.State.{State, word_at};
ghost use Rattle.lgp_trace.specs.Account.{account_of, order_of, place_of, stored_address};
ghost use Rattle.lgp_trace.specs.Profile.{profile_of};
ghost use Rattle.lgp_trace.specs.ProfileLines.{AreDearest, dearest};
ghost use Rattle.lgp_trace.specs.Phases.{IsFirstRead, all_phases, phases_of};
ghost use Rattle.lgp_trace.specs.DrumRows.{signs_of};
ghost use Rattle.lgp_trace.specs.declared.account.Account.{Account};
ghost use Rattle.lgp_trace.specs.declared.account.Operand.{Operand};

/// The four phases of an activity are together what it costs.
#[tactic(auto, using(crate::proofs::PhaseLaws::phases_cost))]
pub fn phases_together()
    ensures { (s : State) → all_phases (phases_of s) ≡ cost s }
{}

/// The first phase ends when the head has read the sector of the order, and not before. The third ends, with the two before it,
/// when the head has read the sector of the word that the order waits for, and not before.
pub fn phases_read()
    ensures order { (s : State) → (place : ℕ) → place_of s ≡ Some place
        → IsFirstRead place s.clock (phases_of s).find }
    ensures operand { (s : State) → (operand : Operand)
        → (account_of s).operand ≡ Some operand
        → IsFirstRead operand.address (s.clock + (phases_of s).find + (phases_of s).take)
        (phases_of s).seek }
{}

/// An activity changes no word of the drum but the one that it stores.
#[tactic(auto, using(crate::proofs::WordLaws::other_words))]
pub fn words_stay()
    ensures { (s : State) → (address : ℕ) → stored_address (order_of s) ≢ Some address
        → word_at (next s).core address ≡ word_at s.core address }
{}

/// The codes that have passed after an activity are those that had passed before it and those of its account.
#[tactic(auto, using(crate::proofs::WordLaws::codes_passed))]
pub fn codes_pass()
    ensures { (s : State) → length (next s).core.tape.passed
        ≡ length s.core.tape.passed + (account_of s).passed }
{}

/// The clock after a given number of activities is the clock before them and the word times of all phases of their profile.
#[tactic(auto, using(crate::proofs::Sums::profile_clock))]
pub fn profiles()
    ensures clock { (s : State) → (count : ℕ) → (after s count).clock
        ≡ s.clock + all_phases (profile_of s count).phases }
{}

/// The signs of an account along the drum are as many as its word times.
#[tactic(auto, using(crate::proofs::DrumLemmas::as_many_signs))]
pub fn signs_are_word_times()
    ensures { (account : Account) → length (signs_of account) ≡ all_phases account.phases }
{}

/// The places that a profile names are those with most word times, in falling order, and of two with as many the one at the lower
/// address comes first.
pub fn dearest_places()
    ensures { (places : List ℕ) → (most : ℕ) → AreDearest places most (dearest places most) }
{}
