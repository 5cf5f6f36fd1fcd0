//! Lines that ask for the moment of an order.

ghost use Rattle.std.specs.Prelude.{◌≡◌, ◌++◌, OnOk};
ghost use Rattle.lgp_monitor.specs.Moments.{line_there, moment_asked, not_yet_text};

use lgp_command::Count;
use lgp_script::{Refusal, push_refusal_words};
use lgp_stream::{LineBytes, has_no_word, split_word, without_spaces};
use std::alloc::{AllocError, Allocator};

/// The line that is answered at the moment.
#[tactic(auto, unfolding(crate::specs::Moments::line_there))]
pub fn line_there(front: &[u8]) -> &[u8]
    ensures { result.now ≡ line_there front.now }
{
    let command = split_word(front);
    let number = split_word(command.rest);
    without_spaces(number.rest)
}

/// The order whose moment is asked for.
#[tactic(auto, unfolding(crate::specs::Moments::moment_asked))]
pub fn moment_asked(line: &LineBytes) -> Option<Count>
    ensures { result ≡ moment_asked line.now }
{
    let command = split_word(line.front());
    if line.is_longer()
        || command.word != b"at".as_slice()
        || has_no_word(line_there(line.front()))
    {
        return None;
    }
    Count::read(split_word(command.rest).word)
}

/// Appends the refusal where there were fewer orders.
#[tactic(auto, unfolding(crate::specs::Moments::not_yet_text))]
pub fn push_not_yet<A: Allocator>(text: &mut Vec<u8, A>, orders: u64) -> Result<(), AllocError>
    ensures { OnOk result (text.new.items ≡ text.old.items ++ not_yet_text orders) }
{
    push_refusal_words(text, &Refusal::TooFar(orders))?;
    text.extend_from_slice(b": only this many orders were performed\n")
}
