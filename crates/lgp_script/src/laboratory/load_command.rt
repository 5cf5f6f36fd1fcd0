//! Loading.

ghost use Rattle.std.specs.Prelude.{IfOk};
ghost use Rattle.lgp_script.specs.LoadCommand.{replied_to_load};
ghost use Rattle.lgp_script.specs.Reply.{IsReplied};

use super::Laboratory;
use crate::refusal::Refusal;
use crate::reply::Reply;
use lgp_loader::LoadFault;
use std::alloc::{AllocError, Allocator};

impl<A: Allocator + Copy> Laboratory<A> {
    /// Loads the last source that assembled.
    #[tactic(auto, unfolding(crate::specs::LoadCommand::replied_to_load))]
    pub(super) fn load(&mut self) -> Result<Reply, AllocError>
        ensures { IfOk result (λ reply. IsReplied reply self.new (replied_to_load self.old)) }
    {
        let Some(program) = &self.program else {
            return Ok(Reply::Refused(Refusal::NoImage));
        };
        match self.debugger.load(self.alloc, program.image()) {
            Ok(orders) => Ok(Reply::Loaded(orders)),
            Err(LoadFault::ClockEnd) => Ok(Reply::Refused(Refusal::ClockEnd)),
            Err(LoadFault::Memory) => Err(AllocError),
            Err(LoadFault::Moving | LoadFault::BadCut) => unreachable!(),
        }
    }
}
