//! The refusals of the script language.

ghost use Rattle.std.specs.Prelude.{◌≡◌, ◌++◌, OnOk, decimal};
ghost use Rattle.lgp_script.specs.Refusal.{counted_text, refusal_text, refusal_words};

use lgp_text::{Piece, push_pieces};
use std::alloc::{AllocError, Allocator};

/// Why a command is refused.
#[derive(Clone, Copy, Debug, PartialEq, Eq)]
pub enum Refusal {
    /// There is no such command, or its operands are not in form.
    Form,
    /// A put or a mount while the machine is not at rest.
    Moving,
    /// Word times at rest while the machine is at work.
    AtWork,
    /// The clock would pass its end.
    ClockEnd,
    /// There are 64 rules already.
    Full,
    /// There is no rule of that number.
    NoRule,
    /// Only a given number of orders are kept.
    TooFar(u64),
    /// No rule hits any of the orders that are kept, with their number.
    NoHit(u64),
    /// No source has assembled yet.
    NoImage,
    /// The line has more than 4,096 bytes, or the source more than 1,048,576.
    TooLong,
    /// The tape text's first bad place.
    BadSign(u64),
}

/// Appends a text and a number.
fn push_named<A: Allocator>(
    text: &mut Vec<u8, A>,
    front: &'static [u8],
    number: u64,
) -> Result<(), AllocError>
    ensures { OnOk result (text.new.items ≡ text.old.items ++ (front.now ++ decimal number)) }
{
    push_pieces(text, &[Piece::Text(front), Piece::Number(number)])
}

/// Appends a line of a text and a number.
pub fn push_counted<A: Allocator>(
    text: &mut Vec<u8, A>,
    front: &'static [u8],
    number: u64,
) -> Result<(), AllocError>
    ensures { OnOk result (text.new.items
        ≡ text.old.items ++ counted_text front.now number) }
{
    push_pieces(
        text,
        &[
            Piece::Text(front),
            Piece::Number(number),
            Piece::Text(b"\n"),
        ],
    )
}

/// Appends a refusal without the line feed that ends it.
#[tactic(auto, unfolding(crate::specs::Refusal::refusal_words))]
pub fn push_refusal_words<A: Allocator>(
    text: &mut Vec<u8, A>,
    refusal: &Refusal,
) -> Result<(), AllocError>
    ensures { OnOk result (text.new.items ≡ text.old.items ++ refusal_words refusal.now) }
{
    match refusal {
        Refusal::Form => text.extend_from_slice(b"? 1 Form"),
        Refusal::Moving => text.extend_from_slice(b"? 2 Moving"),
        Refusal::AtWork => text.extend_from_slice(b"? 3 AtWork"),
        Refusal::ClockEnd => text.extend_from_slice(b"? 4 ClockEnd"),
        Refusal::Full => text.extend_from_slice(b"? 5 Full"),
        Refusal::NoRule => text.extend_from_slice(b"? 6 NoRule"),
        Refusal::TooFar(kept) => push_named(text, b"? 7 TooFar ", *kept),
        Refusal::NoHit(kept) => push_named(text, b"? 8 NoHit ", *kept),
        Refusal::NoImage => text.extend_from_slice(b"? 10 NoImage"),
        Refusal::TooLong => text.extend_from_slice(b"? 11 TooLong"),
        Refusal::BadSign(place) => push_named(text, b"? 12 BadSign ", *place),
    }
}

/// Appends a refusal.
#[tactic(auto, unfolding(crate::specs::Refusal::refusal_text))]
pub fn push_refusal<A: Allocator>(text: &mut Vec<u8, A>, refusal: Refusal) -> Result<(), AllocError>
    ensures { OnOk result (text.new.items ≡ text.old.items ++ refusal_text refusal) }
{
    push_refusal_words(text, &refusal)?;
    text.extend_from_slice(b"\n")
}
