//! What follows of words at other sectors, each law as the contract of a function that does nothing.

ghost use Rattle.std.specs.Prelude.{◌≡◌, ◌↔◌, ℕ, ◌+◌, false, map, sum, true};
ghost use Rattle.lgp_word.specs.Address.{sector_of};
ghost use Rattle.lgp_table.specs.After.{after};
ghost use Rattle.lgp_table.specs.State.{State};
ghost use Rattle.lgp_trace.specs.ProfileLines.{AreDearest};
ghost use Rattle.lgp_optimum.specs.Gains.{Moves, best_sectors, gains_of, moves_of, ranking};
ghost use Rattle.lgp_optimum.specs.Optimum.{clock_with, freedom_of, is_named, is_named_by_other, is_performed, moved, with_sector};
ghost use Rattle.lgp_optimum.specs.declared.uses.Freedom.{Freedom};

/// With a word at its own sector the orders take what they took, and with one that none of them named at any.
#[tactic(auto, using(crate::proofs::MovedClocks::own_sector, crate::proofs::MovedClocks::unnamed))]
pub fn own_sector()
    ensures own { (s : State) → (count : ℕ) → (word : ℕ)
        → clock_with (moved word (sector_of word)) s count ≡ (after s count).clock }
    ensures unnamed { (s : State) → (count : ℕ) → (word : ℕ) → (sector : ℕ)
        → is_named s count word ≡ false
        → clock_with (moved word sector) s count ≡ (after s count).clock }
{}

/// What the orders take more or less with one word more at another sector is what they do with this word alone there, wherever other
/// words are: so what words save adds up.
pub fn savings_add_up()
    ensures { (s : State) → (count : ℕ) → (sectors : ℕ → ℕ) → (word : ℕ) → (sector : ℕ)
        → sectors word ≡ sector_of word
        → clock_with (with_sector sectors word sector) s count + (after s count).clock
        ≡ clock_with sectors s count + clock_with (moved word sector) s count }
{}

/// With all words of a freedom at their best sectors at once, the same orders save the sum of what each word saves alone.
pub fn all_save_the_sum()
    ensures { (s : State) → (count : ℕ) → (wanted : Freedom)
        → clock_with (best_sectors (moves_of s count) wanted 4096) s count
        + sum (gains_of (moves_of s count) wanted) ≡ (after s count).clock }
{}

/// The words of a ranking, by what they save, are those of the freedom with most to gain, in falling order, and of two with as much the
/// one at the lower address comes first.
pub fn ranked_words()
    ensures { (moves : Moves) → (wanted : Freedom) → (most : ℕ)
        → AreDearest (gains_of moves wanted) most
        (map (λ gain. (gain.word, gain.best.saved)) (ranking moves wanted most)) }
{}

/// What each freedom says of a word: whether an order waited for it, whether it was performed, and whether a changed order or one in the
/// register alone waited for it.
pub fn freedoms()
    ensures unnamed { (s : State) → (count : ℕ) → (word : ℕ)
        → (freedom_of s count word ≡ Freedom.Unnamed)
        ↔ ((is_named s count word ≡ false) × (is_performed s count word ≡ false)) }
    ensures performed { (s : State) → (count : ℕ) → (word : ℕ)
        → (freedom_of s count word ≡ Freedom.Performed) ↔ (is_performed s count word ≡ true) }
    ensures changed { (s : State) → (count : ℕ) → (word : ℕ)
        → (freedom_of s count word ≡ Freedom.NamedByChanged)
        ↔ ((is_named s count word ≡ true) × (is_performed s count word ≡ false)
        × (is_named_by_other s count word ≡ true)) }
    ensures free { (s : State) → (count : ℕ) → (word : ℕ)
        → (freedom_of s count word ≡ Freedom.Free)
        ↔ ((is_named s count word ≡ true) × (is_performed s count word ≡ false)
        × (is_named_by_other s count word ≡ false)) }
{}
