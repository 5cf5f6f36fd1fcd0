//! What an order would take if it were the next one, as a record.

ghost use Rattle.std.specs.Prelude.{◌≡◌, ◌+◌, ◌++◌, ◌<◌, ◌≤◌, ◌^◌, ◌||◌, ◌&&◌, ℕ, OnOk, true};
ghost use Rattle.lgp_word.specs.Address.{sector_of};
ghost use Rattle.lgp_word.specs.Order.{sign_of};
ghost use Rattle.lgp_table.specs.Wait.{wait};
ghost use Rattle.lgp_fields.specs.Printed.{record_in};
ghost use Rattle.lgp_fields.specs.Seen.{fields_seen};
ghost use Rattle.lgp_data.specs.CostData.{act_at, cost_record, find_at, next_at, next_fields, order_fields, phase_fields, phases_seen, seek_at};

use crate::words::{name_of, performed_order};
use lgp_assembler::Name;
use lgp_debugger::Debugger;
use lgp_fields::{Field, RecordForm, Value, push_joined};
use lgp_history::History;
use lgp_machine::Machine;
use lgp_phases::{seek_time, wait};
use lgp_word::{Address, Op, Word};
use std::alloc::{AllocError, Allocator};

/// The word times of an order by its phases; the second phase takes one.
#[derive(Clone, Copy)]
struct Times {
    find: u64,
    seek: u64,
    act: u64,
}

impl Times {
    /// All word times together.
    fn sum(&self) -> u64
        requires find { self.now.find ≤ 64 }
        requires seek { self.now.seek ≤ 64 }
        requires act { self.now.act ≤ 402653185 }
        ensures value { result ≡ self.now.find + 1 + (self.now.seek + self.now.act) }
        ensures short { result < 2 ^ 32 }
    {
        self.find + 1 + (self.seek + self.act)
    }
}

/// The word times of the order at an address, if it were the next one at this clock.
fn times_at<A: Allocator>(machine: &Machine<A>, place: Address, clock: u64) -> Times
    ensures find { result.find ≡ find_at place clock }
    ensures seek { result.seek ≡ seek_at machine.now.state.core place clock }
    ensures act { result.act ≡ act_at machine.now.state.core place }
    ensures short { (result.find ≤ 64) × (result.seek ≤ 64) × (result.act ≤ 402653185) }
{
    let find = wait(place.sector(), clock, 0);
    let (_, op, address) = machine.parts(place);
    Times {
        find,
        seek: seek_time(op, address, clock, find + 1),
        act: machine.act_time(op, address),
    }
}

/// Whether a t with or without a minus transfers.
fn transfers(accumulator: u32, minus: bool, transfer: bool) -> bool
    ensures { result ≡ (sign_of accumulator || (minus && transfer)) }
{
    accumulator >= 1 << 31 || (minus && transfer)
}

/// The order that comes after the one at an address, where the machine goes on.
fn next_at<H: History<B>, B: Allocator>(debugger: &Debugger<H, B>, place: Address) -> Address
    ensures { result ≡ next_at debugger.now.state.core place }
{
    let look = debugger.look();
    let (minus, op, address) = debugger.machine().parts(place);
    let transfers = transfers(look.accumulator, minus, look.switches.transfer);
    match op {
        Op::U => address,
        Op::T if transfers => address,
        _ => place.next(),
    }
}

/// An order with its address.
#[tactic(auto, unfolding(crate::specs::CostData::order_fields))]
fn order_fields(names: &[(Name, u16)], place: Address, word: Word) -> [Field<'_>; 3]
    ensures { fields_seen result ≡ order_fields names.now place word }
{
    [
        (b"address", Value::Place(place)),
        (b"label", name_of(names, place.number())),
        (b"order", performed_order(word)),
    ]
}

/// The word times of an order by its phases.
fn phase_fields(times: &Times, sum: u64) -> [Field<'static>; 5]
    ensures { fields_seen result ≡ phases_seen times.now.find times.now.seek times.now.act sum }
{
    [
        (b"find", Value::Number(times.find)),
        (b"take", Value::Number(1)),
        (b"seek", Value::Number(times.seek)),
        (b"act", Value::Number(times.act)),
        (b"sum", Value::Number(sum)),
    ]
}

/// The order that comes after another, and how long the drum would keep it waiting.
#[tactic(auto, unfolding(crate::specs::CostData::next_fields))]
fn next_fields(names: &[(Name, u16)], next: Address, find: u64) -> [Field<'_>; 3]
    ensures { (clock : ℕ) → find ≡ wait (sector_of next) clock
        → fields_seen result ≡ next_fields names.now next clock }
{
    [
        (b"next", Value::Place(next)),
        (b"next-label", name_of(names, next.number())),
        (b"next-find", Value::Number(find)),
    ]
}

/// Appends what the order at an address would take if it were the next one at this clock, as a record in a form. Nothing is performed.
#[tactic(auto, unfolding(crate::specs::CostData::cost_record, crate::specs::CostData::phase_fields))]
pub fn push_cost_data<H: History<B>, A: Allocator, B: Allocator>(
    text: &mut Vec<u8, A>,
    form: RecordForm,
    names: &[(Name, u16)],
    debugger: &Debugger<H, B>,
    place: Address,
) -> Result<(), AllocError>
    ensures { OnOk result (text.new.items ≡ text.old.items
        ++ record_in form (cost_record names.now debugger.now.state place)) }
{
    let clock = debugger.look().clock;
    let times = times_at(debugger.machine(), place, clock);
    let sum = times.sum();
    let next = next_at(debugger, place);
    let find = wait(next.sector(), clock, sum);
    let front = order_fields(names, place, debugger.machine().word(place));
    let middle = phase_fields(&times, sum);
    let back = next_fields(names, next, find);
    push_joined(text, form, &front, &middle, &back)
}
