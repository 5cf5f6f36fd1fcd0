//! Rules that hit orders.

use lgp_word::Address;

/// What to look for among the orders.
#[derive(Clone, Copy, Debug, PartialEq, Eq)]
pub enum Rule {
    /// An order that begins with the machine going and this address at the counter.
    At(Address),
    /// An order that leaves another word at this address.
    Changed(Address),
}

impl Default for Rule {
    fn default() -> Rule {
        Rule::At(Address::default())
    }
}
