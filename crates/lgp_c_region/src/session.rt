//! A session over memory that is handed over.
ghost use Rattle.std.specs.Prelude.{◌≡◌, IfOk};
ghost use Rattle.lgp_call.specs.Session.{opening_session};

use lgp_call::Session;
use lgp_parts::{BoxParts, Unfreed};
use lgp_region::{Memory, Region};
use std::alloc::AllocError;

/// A new session in memory that is handed over for good.
pub(crate) fn begun(memory: Memory) -> Result<Box<Session<&'static Region>, Unfreed>, AllocError>
    ensures { IfOk result (λ whole. whole.value ≡ opening_session) }
{
    let region = Region::lasting(memory)?;
    let whole = Session::boxed(region, region)?;
    Ok(BoxParts::of(whole).unfreed().into_box())
}
