//! What was at the addresses of the rules before an order.

ghost use Rattle.std.specs.Prelude.{◌≡◌, ◌<◌, ◌≤◌, IfSome, IsTrue, length, position};
ghost use Rattle.lgp_table.specs.Interleaving.{is_boundary};
ghost use Rattle.lgp_history.specs.Hits.{goes_at};
ghost use Rattle.lgp_debugger.specs.Debugging.{rule_limit};
ghost use Rattle.lgp_debugger.specs.WatchInside.{address_of, stops_now, watch_of};

use lgp_history::Rule;
use lgp_machine::Machine;
use lgp_table::Status;
use lgp_word::{Address, Word};
use std::alloc::Allocator;

/// A rule, and the word that was at its address before an order.
#[derive(Clone, Copy, Default)]
pub struct Watch {
    pub rule: Rule,
    pub word: Word,
}

/// The address that a rule names.
fn address_of(rule: &Rule) -> Address
    ensures { result ≡ address_of rule.now }
{
    match *rule {
        Rule::At(address) | Rule::Changed(address) => address,
    }
}

/// What a rule watches, before an order.
pub fn watch_of<A: Allocator>(machine: &Machine<A>, rule: &Rule) -> Watch
    ensures { result ≡ watch_of machine.now.state rule.now }
{
    Watch {
        rule: *rule,
        word: machine.word(address_of(rule)),
    }
}

/// Whether the machine is going with this address at its counter.
fn goes_at<A: Allocator>(machine: &Machine<A>, address: Address) -> bool
    requires { IsTrue (is_boundary machine.now) }
    ensures { result ≡ goes_at machine.now.state address }
{
    let Some(look) = machine.look() else {
        unreachable!()
    };
    matches!(look.status, Status::Going) && look.counter == address
}

/// Whether what is watched stops a run where the machine now is.
fn stops_now<A: Allocator>(machine: &Machine<A>, watch: &Watch) -> bool
    requires { IsTrue (is_boundary machine.now) }
    ensures { result ≡ stops_now machine.now.state watch.now }
{
    match watch.rule {
        Rule::At(address) => goes_at(machine, address),
        Rule::Changed(address) => watch.word != machine.word(address),
    }
}

/// The place of the first watch that stops a run where the machine now is.
fn first_place<A: Allocator>(machine: &Machine<A>, watches: &[Watch]) -> Option<usize>
    requires { IsTrue (is_boundary machine.now) }
    ensures value { result ≡ position (stops_now machine.now.state) watches.now }
    ensures within { IfSome result (λ place. place < length watches.now) }
{
    watches.iter().position(|watch| stops_now(machine, watch))
}

/// The number of the first rule that stops a run where the machine now is, given what the rules watched before the order.
pub fn first_stop_now<A: Allocator>(machine: &Machine<A>, watches: &[Watch]) -> Option<u8>
    requires boundary { IsTrue (is_boundary machine.now) }
    requires few { length watches.now ≤ rule_limit }
    ensures { result ≡ position (stops_now machine.now.state) watches.now }
{
    match first_place(machine, watches) {
        None => None,
        Some(place) => Some(place as u8),
    }
}
