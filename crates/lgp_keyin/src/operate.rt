//! What an operator can do with a machine.

ghost use Rattle.std.specs.Prelude.{◌≡◌, ◌+◌, ◌<◌, ◌≤◌, ◌↔◌, ◌≢◌, ℕ, false, List, length, is_some, IsTrue, IfOk, OnOk, OnErr, IfErr, IfSome, Err};
ghost use Rattle.std.specs.Result.{IsErrAnd};
ghost use Rattle.lgp_flexo.specs.TapeText.{tape_limit};
ghost use Rattle.lgp_table.specs.Activity.{cost, next, print_of};
ghost use Rattle.lgp_table.specs.Console.{is_at_rest};
ghost use Rattle.lgp_table.specs.Interleaving.{Configuration, after_actions, after_mount, after_press, at_boundary, is_boundary};
ghost use Rattle.lgp_machine.specs.Answers.{press_outcome, clock_end};
ghost use Rattle.lgp_machine.specs.Look.{look_of, seen_at_boundary};

use lgp_flexo::Code;
use lgp_machine::{Look, Machine, MountFault, OrderFault, PressFault, Pressed};
use lgp_phases::Outcome;
use lgp_table::Action;
use lgp_word::Address;
use std::alloc::Allocator;

/// A machine as its operator has it: looked at, pressed, given a tape and let go on. Nothing here sets a word or a register. The
/// codes of its tapes lie in memory of the allocator `A`.
pub trait Operate<A: Allocator> {
    /// A tape that can be mounted.
    type Tape: Drop;

    /// The codes of a tape.
    ghost codes: { Self.Tape → List ℕ };

    /// The machine's state, the word times passed since, and the actions kept.
    ghost configuration: { Self → Configuration };

    /// What shows; nothing within an activity.
    fn look(&self) -> Option<Look>
        ensures look { result
            ≡ seen_at_boundary (configuration self.now) (look_of (configuration self.now).state) }
        ensures drum { length (configuration self.now).state.core.words ≡ 4096 };

    /// Presses: at a boundary the action acts at once, else it is kept until the activity ends.
    fn press(&mut self, action: Action) -> Result<Pressed, PressFault>
        ensures state { configuration self.new ≡ after_press (configuration self.old) action }
        ensures answer { result ≡ press_outcome (configuration self.old) action };

    /// The tape of these codes, which are taken out.
    fn tape(list: &mut Option<Vec<Code, A>>) -> Self::Tape
        requires { IsTrue (is_some list.old) }
        ensures { IfSome list.old (λ list. codes result ≡ list.items) };

    /// Mounts a tape, at rest; the reader is off afterwards. A refused tape is handed back.
    fn mount(&mut self, tape: Self::Tape) -> Result<(), (MountFault, Self::Tape)>
        ensures mounted { OnOk result (configuration self.new
            ≡ at_boundary (after_mount (configuration self.old).state (codes tape))) }
        ensures moving { IsErrAnd result (λ e. e.0 ≡ MountFault.Moving)
            ↔ (is_at_rest (configuration self.old).state.core.panel.status ≡ false) }
        ensures too_long { IsErrAnd result (λ e. e.0 ≡ MountFault.TooLong)
            ↔ (IsTrue (is_at_rest (configuration self.old).state.core.panel.status)
            × (tape_limit < length (codes tape))) }
        ensures no_memory { IfErr result (λ e. e.0 ≢ MountFault.Memory) }
        ensures handed_back { IfErr result (λ e. codes e.1 ≡ codes tape) }
        ensures unchanged { OnErr result (configuration self.new ≡ configuration self.old) };

    /// The whole activity that begins here.
    fn next_order(&mut self) -> Result<Outcome, OrderFault>
        ensures state { OnOk result (configuration self.new
            ≡ at_boundary (next (configuration self.old).state)) }
        ensures cost { IfOk result (λ outcome.
            outcome.cost ≡ cost (configuration self.old).state) }
        ensures status { IfOk result (λ outcome.
            outcome.status ≡ (configuration self.new).state.core.panel.status) }
        ensures printed { IfOk result (λ outcome.
            outcome.printed ≡ print_of (configuration self.old).state.core) }
        ensures moving { (result ≡ Err OrderFault.Moving)
            ↔ (is_boundary (configuration self.old) ≡ false) }
        ensures at_rest { (result ≡ Err OrderFault.AtRest)
            ↔ (IsTrue (is_boundary (configuration self.old))
            × IsTrue (is_at_rest (configuration self.old).state.core.panel.status)) }
        ensures clock_end { (result ≡ Err OrderFault.ClockEnd)
            ↔ (IsTrue (is_boundary (configuration self.old))
            × (is_at_rest (configuration self.old).state.core.panel.status ≡ false)
            × (clock_end < (configuration self.old).state.clock
            + cost (configuration self.old).state)) }
        ensures memory { result ≡ Err OrderFault.Memory
            → IsTrue (is_some (print_of (configuration self.old).state.core)) }
        ensures within { (configuration self.new).state.clock ≤ clock_end }
        ensures unchanged { OnErr result (configuration self.new ≡ configuration self.old) };
}

impl<A: Allocator> Operate<A> for Machine<A> {
    type Tape = Vec<Code, A>;

    ghost codes = { λ tape. tape.items };

    ghost configuration = { λ machine. machine };

    fn look(&self) -> Option<Look> {
        // That the drum has 4096 words is what the clause of this call says.
        let _ = self.word(Address::default());
        Machine::look(self)
    }

    fn press(&mut self, action: Action) -> Result<Pressed, PressFault> {
        Machine::press(self, action)
    }

    fn tape(list: &mut Option<Vec<Code, A>>) -> Vec<Code, A> {
        let Some(codes) = list.take() else {
            unreachable!()
        };
        codes
    }

    fn mount(&mut self, tape: Vec<Code, A>) -> Result<(), (MountFault, Vec<Code, A>)> {
        Machine::mount(self, tape)
    }

    fn next_order(&mut self) -> Result<Outcome, OrderFault> {
        Machine::next_order(self)
    }
}

/// Presses in order, at a boundary.
pub fn press_all<A: Allocator, M: Operate<A>>(machine: &mut M, actions: &[Action])
    requires { M.configuration machine.old ≡ at_boundary (M.configuration machine.old).state }
    ensures { M.configuration machine.new
        ≡ at_boundary (after_actions (M.configuration machine.old).state actions.now) }
{
    for action in actions {
        let _ = machine.press(*action);
    }
}
