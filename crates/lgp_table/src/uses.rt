//! What an order does with the word of the drum at its address.

ghost use Rattle.std.specs.Prelude.{◌≡◌};
ghost use Rattle.lgp_table.specs.Activity.{seeks, stores};

use lgp_word::Op;

/// Whether an order waits for the word at its address, to read it or to store it: all but z, i, p, u and t.
pub fn seeks(op: Op) -> bool
    ensures { result ≡ seeks op }
{
    !matches!(op, Op::Z | Op::I | Op::P | Op::U | Op::T)
}

/// Whether an order leaves a word at its address: y, r, h and c.
pub fn stores(op: Op) -> bool
    ensures { result ≡ stores op }
{
    matches!(op, Op::Y | Op::R | Op::H | Op::C)
}
