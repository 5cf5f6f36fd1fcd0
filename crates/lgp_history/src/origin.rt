//! Where the words of the drum came from.

ghost use Rattle.std.specs.Prelude.{◌≡◌};
ghost use Rattle.lgp_table.specs.State.{State};
ghost use Rattle.lgp_table.specs.Interleaving.{at_boundary};
ghost use Rattle.lgp_history.specs.Origins.{latest_change};
ghost use Rattle.lgp_history.specs.Steps.{Leads};

use crate::history::History;
use lgp_machine::Machine;
use lgp_word::{Address, Word};
use std::alloc::Allocator;

/// An order that was performed.
#[derive(Clone, Copy, Debug, PartialEq, Eq)]
pub struct PastOrder {
    /// Where it was; none where it was in the instruction register alone.
    pub place: Option<Address>,
    pub word: Word,
    /// The clock at which it began, in word times.
    pub clock: u64,
    /// How many orders going back leads to its beginning.
    pub orders_back: u64,
}

/// What changed a word of the drum.
#[derive(Clone, Copy, Debug, PartialEq, Eq)]
pub enum Changer {
    Order(PastOrder),
    /// A word put by hand, at this clock.
    Hand(u64),
}

/// Where a word of the drum came from.
#[derive(Clone, Copy, Debug, PartialEq, Eq)]
pub struct Origin {
    pub changer: Changer,
    /// The word that was there before.
    pub lost: Word,
}

/// A history that tells where words came from. It takes no memory for that.
pub trait Origins<A: Allocator>: History<A> {
    /// Notes what the kept steps changed, as far as that is not done yet. After it `origin` finds out without a search that none of
    /// them changed a word. What is kept stays as it is.
    fn note_changes(&mut self)
        ensures steps { (now : State) → Self.steps self.new now ≡ Self.steps self.old now }
        ensures capacity { Self.capacity self.new ≡ Self.capacity self.old };

    /// The latest kept step that changed the word at an address. `None` where no kept step did: there is the word with which
    /// the kept steps begin. A step that stored the very same word did not change it.
    fn origin(&self, now: &Machine<A>, address: Address) -> Option<Origin>
        requires boundary { now.now ≡ at_boundary now.now.state }
        requires leads { Leads (Self.steps self.now now.now.state) now.now.state }
        ensures { result ≡ latest_change address (Self.steps self.now now.now.state) };
}
