//! What orders made of the words of the drum, and which of them may be elsewhere.

ghost use Rattle.std.specs.Prelude.{◌≡◌, ◌+◌, ◌<◌, ℕ, length, option_map, IfOk, IfSome};
ghost use Rattle.lgp_table.specs.Activity.{next};
ghost use Rattle.lgp_table.specs.After.{after};
ghost use Rattle.lgp_table.specs.State.{State};
ghost use Rattle.lgp_trace.specs.Account.{found_of, operand_in, place_of};
ghost use Rattle.lgp_optimum.specs.Optimum.{freedom};
ghost use Rattle.lgp_optimum.specs.OptimumKept.{AreUsesOf, use_at};
ghost use Rattle.lgp_optimum.specs.UsesInside.{is_other, joined, no_uses, use_with, use_with_change, use_with_named, use_with_operand, use_with_place};

use lgp_table::seeks;
use lgp_trace::Operand;
use lgp_word::{Address, parts};
use std::alloc::{AllocError, Allocator, Global};
use std::marker::Model;

/// Whether a word may be elsewhere on the drum, so that the program stays the same.
#[derive(Clone, Copy, Debug, PartialEq, Eq)]
pub enum Freedom {
    /// It may.
    Free,
    /// No order waited for it, and it was not performed: wherever it is, the orders take as long.
    Unnamed,
    /// It was performed as an order, whether or not another one waited for it.
    Performed,
    /// An order waited for it that another one had changed or has changed since, or that was in the instruction register alone.
    NamedByChanged,
}

/// What orders made of a word.
#[derive(Clone, Copy)]
pub struct Use {
    /// One waited for it.
    pub named: bool,
    /// One was there.
    pub performed: bool,
    /// One left another word there.
    pub changed: bool,
    /// One waited for it that is not the one that the drum had there at the start.
    pub by_other: bool,
}

impl Use {
    const NONE: Use = Use {
        named: false,
        performed: false,
        changed: false,
        by_other: false,
    };

    /// What this use and another are together.
    fn joined(self, more: Use) -> Use
        ensures { result ≡ joined self more }
    {
        Use {
            named: self.named || more.named,
            performed: self.performed || more.performed,
            changed: self.changed || more.changed,
            by_other: self.by_other || more.by_other,
        }
    }
}

/// The uses of all words of the drum.
#[derive(Drop)]
pub(crate) struct Uses<A: Allocator = Global> {
    uses: Vec<Use, A>,
}

impl<A: Allocator> Model for Uses<A> {
    ghost use Rattle.std.specs.Prelude.{◌≡◌, List, vec_len};
    ghost use Rattle.lgp_optimum.specs.declared.uses.Use.{Use};

    ghost Value = { List Use };

    ghost view = { λ uses. uses.uses.items };

    ghost invariant = { λ uses. vec_len uses.uses ≡ 4096 };
}

impl<A: Allocator> Uses<A> {
    /// No word is used, or a refused growth.
    pub(crate) fn new(alloc: A) -> Result<Uses<A>, AllocError>
        ensures { IfOk result (λ uses. uses ≡ no_uses) }
    {
        Ok(Uses {
            uses: vec![in alloc; Use::NONE; Address::COUNT]?,
        })
    }

    /// Forgets all uses.
    pub(crate) fn clear(&mut self)
        ensures { self.new ≡ no_uses }
    {
        self.uses.fill(Use::NONE);
    }

    /// Adds what an order made of words, by where it was and by the word that it waited for.
    pub(crate) fn note(&mut self, place: &Option<Address>, operand: &Option<Operand>)
        ensures { (s : State) → (count : ℕ) → AreUsesOf self.old s count
            → place.now ≡ place_of (after s count)
            → operand.now ≡ option_map (operand_in (next (after s count)).core)
            (found_of (after s count))
            → AreUsesOf self.new s (count + 1) }
    {
        self.note_operand(place, operand);
        self.note_place(place);
    }

    /// Adds that an order was at a place.
    fn note_place(&mut self, place: &Option<Address>)
        ensures uses { (other : ℕ) → use_at self.new other
            ≡ use_with_place self.old place.now other }
        ensures within { IfSome place.now (λ place. place < 4096) }
    {
        if let Some(place) = place {
            let performed = Use {
                performed: true,
                ..Use::NONE
            };
            self.add(*place, performed);
        }
    }

    /// Adds that an order at a place waited for a word, and whether it left another one there.
    fn note_operand(&mut self, place: &Option<Address>, operand: &Option<Operand>)
        ensures uses { (other : ℕ) → use_at self.new other
            ≡ use_with_operand self.old place.now operand.now other }
        ensures within { IfSome operand.now (λ operand. operand.address < 4096) }
    {
        if let Some(operand) = operand {
            self.note_change(operand);
            let by_other = self.is_other(place);
            let named = Use {
                named: true,
                by_other,
                ..Use::NONE
            };
            self.add(operand.address, named);
        }
    }

    /// Adds whether an order left another word, and what that word as an order named.
    fn note_change(&mut self, operand: &Operand)
        ensures { (other : ℕ) → use_at self.new other
            ≡ use_with_change self.old operand.now other }
    {
        if operand.found == operand.left {
            return;
        }
        self.note_named(operand);
        let changed = Use {
            changed: true,
            ..Use::NONE
        };
        self.add(operand.address, changed);
    }

    /// If a word that is changed now for the first time was performed before, the word that it named is named by one that is changed.
    fn note_named(&mut self, operand: &Operand)
        ensures { (other : ℕ) → use_at self.new other
            ≡ use_with_named self.old operand.now other }
    {
        let before = self.at(operand.address);
        let (_, op, named) = parts(operand.found);
        if before.performed && !before.changed && seeks(op) {
            let by_other = Use {
                by_other: true,
                ..Use::NONE
            };
            self.add(named, by_other);
        }
    }

    /// Whether an order at a place is another one than at the start.
    fn is_other(&self, place: &Option<Address>) -> bool
        ensures { result ≡ is_other self.now place.now }
    {
        match place {
            Some(place) => self.at(*place).changed,
            None => true,
        }
    }

    /// Adds a use of a word to those that it has.
    fn add(&mut self, address: Address, more: Use)
        ensures uses { (other : ℕ) → use_at self.new other
            ≡ use_with self.old address more other }
        ensures within { address < 4096 }
    {
        let at = usize::from(address.number());
        self.uses[at] = self.uses[at].joined(more);
    }

    /// The use of a word.
    pub(crate) fn at(&self, address: Address) -> Use
        ensures value { result ≡ use_at self.now address }
        ensures whole { length self.now ≡ 4096 }
    {
        self.uses[usize::from(address.number())]
    }

    /// Whether a word may be elsewhere.
    pub(crate) fn freedom(&self, address: Address) -> Freedom
        ensures { let used = use_at self.now address in
            result ≡ freedom used.named used.performed used.by_other }
    {
        let used = self.at(address);
        match (used.named, used.performed, used.by_other) {
            (false, false, _) => Freedom::Unnamed,
            (_, true, _) => Freedom::Performed,
            (true, false, true) => Freedom::NamedByChanged,
            (true, false, false) => Freedom::Free,
        }
    }
}
