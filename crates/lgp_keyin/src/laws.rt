//! What follows from the definitions, each law as the contract of a function that does nothing.

ghost use Rattle.std.specs.Prelude.{◌≡◌, ◌+◌, ◌<◌, ◌≤◌, ◌++◌, ◌∷◌, ℕ, List, [], false, length, slice_index};
ghost use Rattle.std.specs.List.{All};
ghost use Rattle.lgp_word.specs.Address.{IsAddress};
ghost use Rattle.lgp_word.specs.Word.{IsWord};
ghost use Rattle.lgp_table.specs.State.{State};
ghost use Rattle.lgp_table.specs.declared.panel.Panel.{Panel};
ghost use Rattle.lgp_keyin.specs.KeyIn.{keyed, started};
ghost use Rattle.lgp_keyin.specs.Keyed.{panel_after_store, panel_after_words, state_after_words, state_when_started, words_from};

/// What key-in leaves. The words lie on the drum from the address on, and all other words are as they were; the accumulator holds
/// the last word, and the instruction register the `h` to its address; the machine has halted after a step in One Operation, and
/// 6 BIT INPUT is up. Counter, tape, paper and the other switches are as they were. With no words only 6 BIT INPUT is set.
#[tactic(auto, using(crate::proofs::ByHand::keyed_are, crate::proofs::Placed::placed))]
pub fn keyed_words()
    ensures state { (s : State) → (base : ℕ) → (words : List ℕ) → All IsWord words
        → base + length words ≤ 4096
        → keyed s base words ≡ state_after_words s base words (keyed s base words).clock }
    ensures last { (panel : Panel) → (base : ℕ) → (words : List ℕ) → (last : ℕ)
        → panel_after_words panel base (words ++ last ∷ [])
        ≡ panel_after_store panel (base + length words) last }
    ensures stored { (drum : List ℕ) → (base : ℕ) → (words : List ℕ) → (place : ℕ)
        → base + length words ≤ length drum → place < length words
        → slice_index (words_from drum base words) (base + place) ≡ slice_index words place }
    ensures before { (drum : List ℕ) → (base : ℕ) → (words : List ℕ) → (place : ℕ)
        → place < base → slice_index (words_from drum base words) place ≡ slice_index drum place }
    ensures after { (drum : List ℕ) → (base : ℕ) → (words : List ℕ) → (place : ℕ)
        → base + length words ≤ place
        → slice_index (words_from drum base words) place ≡ slice_index drum place }
{}

/// What starting leaves, with 6 BIT INPUT up: the machine goes in Normal at the address, and the accumulator and the instruction
/// register hold the `u` to it. All else is as it was, but the clock.
#[tactic(auto, using(crate::proofs::ByHand::started_by_hand))]
pub fn started_program()
    ensures { (s : State) → (address : ℕ) → s.core.panel.switches.six_bit ≡ false
        → IsAddress address
        → started s address ≡ state_when_started s address (started s address).clock }
{}
