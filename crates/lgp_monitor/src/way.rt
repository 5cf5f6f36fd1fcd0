//! Lines that bring a session to the beginning of an order.

ghost use Rattle.std.specs.Prelude.{◌≡◌, ◌++◌, IfOk, None, OnOk, Some, if◌then◌else◌, nat_lt};
ghost use Rattle.lgp_fields.specs.declared.records.RecordForm.TheVariants.{Objects};
ghost use Rattle.lgp_stream.specs.Language.{IsAnswered};
ghost use Rattle.lgp_monitor.specs.Monitor.{answer_at_order};
ghost use Rattle.lgp_monitor.specs.Ways.{came_in, came_text, order_of_way, orders_there, refuses_way, unmet_text};

use crate::moment::push_not_yet;
use lgp_command::Count;
use lgp_fields::{Field, RecordForm, Value, push_record};
use lgp_moment::{MomentFault, Which, moment_of, order_sought};
use lgp_script::{Laboratory, Refusal, push_refusal_words};
use lgp_stream::Recorder;
use lgp_text::{Piece, push_pieces};
use lgp_when::Condition;
use std::alloc::{AllocError, Allocator};

/// To the beginning of which order a session is to be brought.
#[derive(Clone, Copy)]
pub enum Way {
    /// The one of a number; they are counted from 0.
    Order(Count),
    /// The first or the last one that meets a condition.
    Sought(Which, Condition),
}

/// Appends where a session is.
#[tactic(auto, unfolding(crate::specs::Ways::came_text))]
fn push_came<A: Allocator>(text: &mut Vec<u8, A>, order: u64, clock: u64) -> Result<(), AllocError>
    ensures { OnOk result (text.new.items ≡ text.old.items ++ came_text order clock) }
{
    push_pieces(
        text,
        &[
            Piece::Text(b"order "),
            Piece::Number(order),
            Piece::Text(b" clock "),
            Piece::Number(clock),
            Piece::Text(b"\n"),
        ],
    )
}

/// Appends the same as an object of JSON.
#[tactic(auto, unfolding(crate::specs::Ways::came_record))]
fn push_came_object<A: Allocator>(
    text: &mut Vec<u8, A>,
    order: u64,
    clock: u64,
) -> Result<(), AllocError>
    ensures { OnOk result (text.new.items ≡ text.old.items ++ came_in Objects order clock) }
{
    let fields: [Field; 2] = [
        (b"order", Value::Number(order)),
        (b"clock", Value::Number(clock)),
    ];
    push_record(text, RecordForm::Objects, &fields)
}

/// Appends the refusal where no order has met the condition.
#[tactic(auto, unfolding(crate::specs::Ways::unmet_text))]
fn push_unmet<A: Allocator>(text: &mut Vec<u8, A>, orders: u64) -> Result<(), AllocError>
    ensures { OnOk result (text.new.items ≡ text.old.items ++ unmet_text orders) }
{
    push_refusal_words(text, &Refusal::NoHit(orders))?;
    text.extend_from_slice(b": none of the orders meets it\n")
}

/// Brings a session to the beginning of an order. Returns whether that is refused.
fn bring<A: Allocator + Copy>(
    alloc: A,
    recorder: &mut Recorder<Laboratory<A>, A>,
    order: Count,
    form: RecordForm,
    reply: &mut Vec<u8, A>,
) -> Result<bool, AllocError>
    ensures answer { OnOk result (IsAnswered reply.old.items reply.new.items recorder.new
        (answer_at_order recorder.old (Way.Order order) form
        (if nat_lt (orders_there recorder.old) order then None else Some order))) }
    ensures refused { IfOk result (λ refused. refused
        ≡ nat_lt (orders_there recorder.old) order) }
{
    match moment_of(alloc, recorder.transcript(), order) {
        Ok(session) => {
            *recorder = session;
            let clock = recorder.answers().debugger().look().clock;
            match form {
                RecordForm::Lines => push_came(reply, order.get(), clock)?,
                RecordForm::Objects => push_came_object(reply, order.get(), clock)?,
            }
            Ok(false)
        }
        Err(MomentFault::NotYet(orders)) => {
            push_not_yet(reply, orders)?;
            Ok(true)
        }
        Err(MomentFault::Memory) => Err(AllocError),
    }
}

/// Brings a session to the beginning of the order that is sought. Returns whether that is refused.
fn bring_sought<A: Allocator + Copy>(
    alloc: A,
    recorder: &mut Recorder<Laboratory<A>, A>,
    which: Which,
    condition: Condition,
    form: RecordForm,
    reply: &mut Vec<u8, A>,
) -> Result<bool, AllocError>
    ensures answer { OnOk result (IsAnswered reply.old.items reply.new.items recorder.new
        (answer_at_order recorder.old (Way.Sought which condition) form
        (order_of_way recorder.old (Way.Sought which condition)))) }
    ensures refused { IfOk result (λ refused. refused
        ≡ refuses_way recorder.old (Way.Sought which condition)) }
{
    let sought = order_sought(alloc, recorder.transcript(), which, condition)?;
    let Some(order) = sought.order else {
        push_unmet(reply, sought.orders)?;
        return Ok(true);
    };
    // No number of an order that a line can say has more digits; a session with more of them is refused as memory is.
    let Some(order) = Count::new(order) else {
        return Err(AllocError);
    };
    bring(alloc, recorder, order, form, reply)
}

/// Brings a session to the beginning of an order by a way, and appends in a form where it is then. Its transcript is then the lines that lead there.
/// Returns whether that is refused; then all is as before.
pub fn go_to<A: Allocator + Copy>(
    alloc: A,
    recorder: &mut Recorder<Laboratory<A>, A>,
    way: Way,
    form: RecordForm,
    reply: &mut Vec<u8, A>,
) -> Result<bool, AllocError>
    ensures answer { OnOk result (IsAnswered reply.old.items reply.new.items recorder.new
        (answer_at_order recorder.old way form (order_of_way recorder.old way))) }
    ensures refused { IfOk result (λ refused. refused ≡ refuses_way recorder.old way) }
{
    match way {
        Way::Order(order) => bring(alloc, recorder, order, form, reply),
        Way::Sought(which, condition) => bring_sought(
            alloc, recorder, which, condition, form, reply,
        ),
    }
}
