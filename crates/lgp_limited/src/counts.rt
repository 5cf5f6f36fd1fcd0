//! What is counted: the growths up to the one that is refused, and the blocks that are out.

ghost use Rattle.std.specs.Prelude.{◌≡◌, ◌+◌, ◌-◌, ◌^◌, ◌<◌, ◌↔◌, ◌⊎◌, IsTrue};

use std::cell::Cell;

/// Which growth is refused and whether it was, and how many blocks are out.
#[derive(Clone, Copy)]
pub struct Counts {
    /// The number of the growth to be refused, counted from now on; 0 for none.
    left: u64,
    /// Whether it was refused.
    refused: bool,
    /// How many growths were passed on, less the blocks that came back.
    out: u64,
}

impl Counts {
    /// No growth is to be refused, and no block is out.
    pub fn none() -> Counts
        ensures left { result.left ≡ 0 }
        ensures refused { ¬ IsTrue result.refused }
        ensures out { result.out ≡ 0 }
    {
        Counts {
            left: 0,
            refused: false,
            out: 0,
        }
    }

    /// The nth growth from now on is to be refused; 0 for none.
    pub fn refusing(self, nth: u64) -> Counts
        ensures left { result.left ≡ nth }
        ensures refused { ¬ IsTrue result.refused }
        ensures out { result.out ≡ self.out }
    {
        Counts {
            left: nth,
            refused: false,
            out: self.out,
        }
    }

    /// Whether the next growth is refused.
    pub fn refuses_next(self) -> bool
        ensures { IsTrue result ↔ (self.left ≡ 1) }
    {
        self.left == 1
    }

    /// The counts after the next growth.
    pub fn after_next(self) -> Counts
        ensures left { result.left ≡ self.left - 1 }
        ensures refused { IsTrue result.refused ↔ (IsTrue self.refused ⊎ (self.left ≡ 1)) }
        ensures kept { self.left ≡ 1 → result.out ≡ self.out }
        ensures more { ¬ (self.left ≡ 1) → self.out < 2 ^ 63 → result.out ≡ self.out + 1 }
    {
        let refuses = self.refuses_next();
        Counts {
            left: self.left.saturating_sub(1),
            refused: self.refused || refuses,
            out: if refuses {
                self.out
            } else {
                self.out.saturating_add(1)
            },
        }
    }

    /// The counts after a block has come back.
    pub fn after_return(self) -> Counts
        ensures left { result.left ≡ self.left }
        ensures refused { result.refused ≡ self.refused }
        ensures out { result.out ≡ self.out - 1 }
    {
        Counts {
            left: self.left,
            refused: self.refused,
            out: self.out.saturating_sub(1),
        }
    }

    /// Whether the growth was refused.
    pub fn has_refused(self) -> bool
        ensures { result ≡ self.refused }
    {
        self.refused
    }

    /// How many blocks are out.
    pub fn out(self) -> u64
        ensures { result ≡ self.out }
    {
        self.out
    }
}

/// Counts a growth. Whether it is refused.
pub fn refuses(counts: &Cell<Counts>) -> bool {
    let before = counts.get();
    counts.set(before.after_next());
    before.refuses_next()
}

/// Counts a block that has come back.
pub fn takes_back(counts: &Cell<Counts>) {
    counts.set(counts.get().after_return());
}
