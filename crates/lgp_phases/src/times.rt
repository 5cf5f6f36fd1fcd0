//! Times: waits, what the phases of an order take, and what an activity will cost and print.

ghost use Rattle.std.specs.Prelude.{◌≡◌, ◌+◌, ◌^◌, ◌<◌, ◌≤◌};
ghost use Rattle.lgp_flexo.specs.Tape.{Tape};
ghost use Rattle.lgp_table.specs.State.{Core, core_of};
ghost use Rattle.lgp_table.specs.Rows.{effect_of};
ghost use Rattle.lgp_table.specs.Wait.{wait};
ghost use Rattle.lgp_table.specs.Activity.{act_time, cost_at, print_of, rest_time, seek_time};

use crate::outcome::Ahead;
use lgp_drum::Drum;
use lgp_flexo::Code;
use lgp_reader::Reader;
use lgp_table::{Panel, Status, seeks};
use lgp_word::{Address, Op, Word, parts, position_of};
use std::alloc::Allocator;

/// What the activity will cost and print that begins with these registers, drum and reader at this clock.
pub fn ahead<A: Allocator>(panel: &Panel, drum: &Drum<A>, reader: &Reader<A>, clock: u64) -> Ahead
    ensures cost { result.cost ≡ cost_at (core_of panel.now drum.now reader.now) clock }
    ensures prints { result.prints ≡ print_of (core_of panel.now drum.now reader.now) }
    ensures range { (0 < result.cost) × (result.cost < 2 ^ 32) }
{
    Ahead {
        cost: cost(panel, drum, reader, clock),
        prints: prints(panel, drum),
    }
}

/// The word times from `clock + after` on until a sector has been read, the reading included: 1 to 64. `sector` is its number on its
/// track, below 64; `clock` counts word times, and so does `after`, which is below 2^32.
pub fn wait(sector: u16, clock: u64, after: u64) -> u64
    requires sector { sector < 64 }
    requires after { after < 2 ^ 32 }
    ensures wait { result ≡ wait sector (clock + after) }
    ensures range { result ≤ 64 }
{
    1 + (u64::from(position_of(sector)) + 63 * (clock % 64 + after + 1)) % 64
}

/// The word times of an order's third phase, the seek, where it begins at `clock + after`: the wait for the word at its address, or 1
/// for the orders that use no word, which are z, i, p, u and t. `clock` and `after` count word times; `after` is below 2^32.
#[tactic(auto, unfolding(lgp_table::specs::Activity::seek_time))]
pub fn seek_time(op: Op, address: Address, clock: u64, after: u64) -> u64
    requires { after < 2 ^ 32 }
    ensures time { result ≡ seek_time op address (clock + after) }
    ensures range { result ≤ 64 }
{
    if seeks(op) {
        wait(address.sector(), clock, after)
    } else {
        1
    }
}

/// The word times of an order's last phase, in which it acts: 65 for m, n and d, 385 for a p that prints, 1 and 384 for each code that
/// passes for an i with the reader as it is, and 1 for all else; at most 402,653,185.
#[tactic(auto, unfolding(lgp_table::specs::Activity::act_time))]
pub fn act_time<A: Allocator>(op: Op, address: Address, reader: &Reader<A>) -> u64
    ensures time { result ≡ act_time op address reader.now }
    ensures short { result ≤ 402653185 }
{
    match op {
        Op::M | Op::N | Op::D => 65,
        Op::P if address.track() != 0 => 385,
        Op::I => 1 + 384 * reader.passing() as u64,
        _ => 1,
    }
}

/// The word times of phases three and four of an order word, from a given number of word times after this clock.
#[tactic(auto, using(crate::proofs::Bounds::time_bounds))]
fn rest_time<A: Allocator>(word: Word, reader: &Reader<A>, clock: u64, after: u64) -> u64
    requires { after < 2 ^ 32 }
    ensures time { result ≡ rest_time word reader.now (clock + after) }
    ensures range { (0 < result) × (result < 2 ^ 31) }
{
    let (_, op, address) = parts(word);
    seek_time(op, address, clock, after) + act_time(op, address, reader)
}

/// The word times of the activity.
#[tactic(auto, using(crate::proofs::Bounds::time_bounds), unfolding(lgp_table::specs::Activity::cost_at))]
fn cost<A: Allocator>(panel: &Panel, drum: &Drum<A>, reader: &Reader<A>, clock: u64) -> u64
    ensures time { result ≡ cost_at (core_of panel.now drum.now reader.now) clock }
    ensures range { (0 < result) × (result < 2 ^ 32) }
{
    match panel.status {
        Status::Halted(_) | Status::Waiting => 1,
        Status::Going => {
            let found = wait(panel.counter.sector(), clock, 0);
            let word = drum.word(panel.counter);
            found + 1 + rest_time(word, reader, clock, found + 1)
        }
        Status::Executing => rest_time(panel.register, reader, clock, 0),
        Status::Reading => 1 + 384 * reader.passing() as u64,
    }
}

/// The code that an order word prints.
fn printed_by(word: Word) -> Option<Code>
    ensures { (core : Core) → result ≡ (effect_of word core).prints }
{
    let (_, op, address) = parts(word);
    if matches!(op, Op::P) && address.track() != 0 {
        Code::new(address.track() as u8)
    } else {
        None
    }
}

/// The code that the activity prints.
#[tactic(auto, unfolding(lgp_table::specs::Activity::print_of))]
pub fn prints<A: Allocator>(panel: &Panel, drum: &Drum<A>) -> Option<Code>
    ensures { (tape : Tape) → result ≡ print_of (core_of panel.now drum.now tape) }
{
    match panel.status {
        Status::Going => printed_by(drum.word(panel.counter)),
        Status::Executing => printed_by(panel.register),
        Status::Halted(_) | Status::Waiting | Status::Reading => None,
    }
}
