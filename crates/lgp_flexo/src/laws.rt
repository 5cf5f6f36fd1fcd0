//! What follows from the definitions, each law as the contract of a function that does nothing.

ghost use Rattle.std.specs.Prelude.{◌≡◌, ℕ, ◌<◌, ◌^◌, Some, false, map};
ghost use Rattle.std.specs.List.{list_any};
ghost use Rattle.lgp_word.specs.Digits.{digits_of};
ghost use Rattle.lgp_flexo.specs.Code.{is_skipped, is_stop, sign_at};
ghost use Rattle.lgp_flexo.specs.Input.{accumulator_after_all};
ghost use Rattle.lgp_flexo.specs.WordCodes.{word_codes};

/// The codes of a word bear the word's digits; none of them is skipped or ends an input; and with four bits a code they enter as
/// the word, whatever the accumulator held before.
#[tactic(auto, using(crate::proofs::WordCodes::codes_of_words))]
pub fn words_entered()
    ensures digits { (word : ℕ) → map sign_at (word_codes word) ≡ map Some (digits_of word) }
    ensures none_skipped { (word : ℕ) → list_any is_skipped (word_codes word) ≡ false }
    ensures none_stops { (word : ℕ) → list_any is_stop (word_codes word) ≡ false }
    ensures entered { (word accumulator : ℕ) → word < 2 ^ 32
        → accumulator_after_all false accumulator (word_codes word) ≡ word }
{}
