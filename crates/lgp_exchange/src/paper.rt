//! Printed codes as the typewriter's paper has them.

ghost use Rattle.std.specs.Prelude.{◌≡◌, ◌++◌, OnOk};
ghost use Rattle.lgp_exchange.specs.Paper.{completed, paper_of};

use crate::carriage::Carriage;
use lgp_flexo::Code;
use std::alloc::{AllocError, Allocator};

/// Appends the row that a code completes, as a line.
fn push_completed<A: Allocator, B: Allocator>(
    text: &mut Vec<u8, A>,
    carriage: &Carriage<B>,
    code: Code,
) -> Result<(), AllocError>
    ensures { OnOk result (text.new.items ≡ text.old.items ++ completed carriage.now code) }
{
    if code == Code::CARRIAGE_RETURN {
        carriage.push_row(text)?;
        text.push(b'\n')?;
    }
    Ok(())
}

/// Appends what the typewriter writes for printed codes, as lines of text: signs, capital ones after upper case (8) until lower case
/// (4), a line feed for each carriage return, spaces up to the next tab stop, a step to the left for a backspace. The last row
/// has no line feed. A sign struck over another takes its place, and a space leaves it. A code whose sign in that case is not
/// known, or whose effect is not, is shown as a group `[nn]`. Blank tape, color and delete leave no mark. `alloc` has the row.
pub fn push_paper<A: Allocator, B: Allocator>(
    alloc: B,
    text: &mut Vec<u8, A>,
    codes: &[Code],
) -> Result<(), AllocError>
    ensures { OnOk result (text.new.items ≡ text.old.items ++ paper_of codes.now) }
{
    let mut carriage = Carriage::new(alloc);
    for code in codes {
        push_completed(text, &carriage, *code)?;
        carriage.pass(*code)?;
    }
    carriage.push_row(text)
}
