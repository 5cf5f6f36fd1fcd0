//! The phases of an activity.

ghost use Rattle.std.specs.Prelude.{◌≡◌, ◌≢◌, ◌+◌, ◌*◌, ◌%◌, ◌^◌, ◌<◌, ◌↔◌, if◌then◌else◌, IsNone, IfSome, IsTrue, false, ◌==◌};
ghost use Rattle.lgp_word.specs.Drum.{position_of, position_under_head};
ghost use Rattle.lgp_table.specs.State.{core_of};
ghost use Rattle.lgp_table.specs.Wait.{wait};
ghost use Rattle.lgp_phases.specs.Processor.{remaining};
ghost use Rattle.lgp_table.specs.Activity.{act_time, cost_at, seek_time};

use crate::times::act_time;
use lgp_drum::Drum;
use lgp_reader::Reader;
use lgp_table::{Panel, Status, seeks};
use lgp_word::{Word, parts, position_of};
use std::alloc::Allocator;

/// The phase that an activity is in.
#[derive(Clone, Copy)]
pub enum Phase {
    /// Nothing has been begun.
    Idle,
    /// Waiting for the sector of the order at the counter.
    Search,
    /// The order has been read and goes to the instruction register.
    Decode(Word),
    /// Waiting for the sector of the order's address.
    Seek(Word),
    /// The order acts, or a tape passes, for a given number of word times more.
    Act(u64),
}

/// Whether the word time that begins at this clock reads a sector.
fn is_under_head(sector: u16, clock: u64) -> bool
    requires { sector < 64 }
    ensures waited { result ≡ (wait sector clock == 1) }
    ensures position { IsTrue result → position_of sector ≡ position_under_head (clock + 1) }
    ensures later { result ≡ false → wait sector clock ≡ wait sector (clock + 1) + 1 }
{
    u64::from(position_of(sector)) == clock.wrapping_add(1) % 64
}

/// The phase in which the activity begins that the panel asks for.
#[tactic(auto, using(crate::proofs::Bounds::time_bounds), unfolding(lgp_table::specs::Activity::cost_at))]
pub fn first_phase<A: Allocator>(
    panel: &Panel,
    drum: &Drum<A>,
    reader: &Reader<A>,
    clock: u64,
) -> Phase
    ensures time { remaining result (core_of panel.now drum.now reader.now) clock
        ≡ cost_at (core_of panel.now drum.now reader.now) clock }
    ensures begun { result ≢ Phase.Idle }
    ensures more { 0 < cost_at (core_of panel.now drum.now reader.now) clock }
    ensures short { cost_at (core_of panel.now drum.now reader.now) clock < 2 ^ 32 }
{
    let _limit = reader.is_on();
    match panel.status {
        Status::Halted(_) | Status::Waiting => Phase::Act(1),
        Status::Going => Phase::Search,
        Status::Executing => Phase::Seek(panel.register),
        Status::Reading => Phase::Act(1 + 384 * reader.passing() as u64),
    }
}

/// The phase after the word time that begins at this clock; `None` where the activity ends with it.
#[tactic(auto, using(crate::proofs::Bounds::time_bounds), unfolding(lgp_table::specs::Activity::seek_time))]
pub fn next_phase<A: Allocator>(
    phase: &Phase,
    panel: &Panel,
    drum: &Drum<A>,
    reader: &Reader<A>,
    clock: u64,
) -> Option<Phase>
    requires begun { phase.now ≢ Phase.Idle }
    requires more { 0 < remaining phase.now (core_of panel.now drum.now reader.now) clock }
    ensures last { IsNone result
        ↔ (remaining phase.now (core_of panel.now drum.now reader.now) clock ≡ 1) }
    ensures time { IfSome result (λ next.
        remaining next (core_of panel.now drum.now reader.now) (clock + 1) + 1
        ≡ remaining phase.now (core_of panel.now drum.now reader.now) clock) }
    ensures begun { IfSome result (λ next. next ≢ Phase.Idle) }
{
    match *phase {
        Phase::Idle => unreachable!(),
        Phase::Search => {
            let counter = panel.counter;
            if is_under_head(counter.sector(), clock) {
                Some(Phase::Decode(drum.under_head(clock.wrapping_add(1), counter.track())))
            } else {
                Some(Phase::Search)
            }
        }
        Phase::Decode(word) => Some(Phase::Seek(word)),
        Phase::Seek(word) => {
            let (_, op, address) = parts(word);
            if seeks(op) && !is_under_head(address.sector(), clock) {
                Some(Phase::Seek(word))
            } else {
                Some(Phase::Act(act_time(op, address, reader)))
            }
        }
        Phase::Act(left) => {
            if left == 1 {
                None
            } else {
                Some(Phase::Act(left - 1))
            }
        }
    }
}
