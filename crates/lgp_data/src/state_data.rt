//! The state of a machine as a record.

ghost use Rattle.std.specs.Prelude.{◌≡◌, ◌++◌, ◌∷◌, [], OnOk, codes, length, option_map, true};
ghost use Rattle.std.specs.Option.{option_map_or};
ghost use Rattle.lgp_word.specs.Digits.{address_digits, digits_of};
ghost use Rattle.lgp_history.specs.Hits.{goes_at};
ghost use Rattle.lgp_history.specs.Steps.{orders_in};
ghost use Rattle.lgp_machine.specs.Look.{look_of};
ghost use Rattle.lgp_table.specs.Console.{is_live, is_waiting, takes_codes};
ghost use Rattle.lgp_fields.specs.Plain.{field, Nothing, Number, Text, YesNo};
ghost use Rattle.lgp_fields.specs.Printed.{record_in};
ghost use Rattle.lgp_fields.specs.Seen.{fields_seen, value_seen};
ghost use Rattle.lgp_data.specs.StateData.{holds_here, is_by_last, live_fields, panel_fields, panel_record, position_word, register_fields, rule_here, state_record};

use crate::way::{state_sentence, way_kind, way_sentence};
use crate::words::{bits_order, name_of, whole_number, word_order};
use lgp_assembler::Name;
use lgp_debugger::Debugger;
use lgp_fields::{Field, RecordForm, Value, push_joined};
use lgp_history::{Changer, History, Origin, Origins, Rule};
use lgp_machine::Look;
use lgp_table::{Action, Mode, Status};
use lgp_text::{mode_text, on_text, status_text};
use lgp_word::Address;
use std::alloc::{AllocError, Allocator};

/// The position of a switch.
fn position_word(down: bool) -> &'static [u8]
    ensures { result.now ≡ position_word down }
{
    if down { b"down" } else { b"up" }
}

/// Whether signs of keys enter.
fn takes_codes(status: Status, mode: Mode) -> bool
    ensures { result ≡ takes_codes status mode }
{
    match status {
        Status::Waiting => true,
        Status::Halted(_) => matches!(mode, Mode::Manual),
        _ => false,
    }
}

/// Whether the conditional stop enters.
fn is_waiting(status: Status) -> bool
    ensures { result ≡ is_waiting status }
{
    matches!(status, Status::Waiting)
}

/// The registers, by their digits, as numbers and as orders.
#[tactic(auto, unfolding(crate::specs::StateData::register_fields))]
fn register_fields<'a>(names: &'a [(Name, u16)], look: &Look) -> [Field<'a>; 8]
    ensures { fields_seen result ≡ register_fields names.now look.now }
{
    [
        (b"counter", Value::Place(look.counter)),
        (b"counter-label", name_of(names, look.counter.number())),
        (b"accumulator", Value::Digits(look.accumulator)),
        (b"accumulator-number", whole_number(look.accumulator)),
        (b"accumulator-order", bits_order(look.accumulator)),
        (b"register", Value::Digits(look.register.get())),
        (b"register-number", whole_number(look.register.get())),
        (b"register-order", word_order(look.register)),
    ]
}

/// Status, mode, switches, reader, how many codes are left, and the clock.
#[tactic(auto, unfolding(crate::specs::StateData::panel_fields))]
fn panel_fields(look: &Look, left: u64) -> [Field<'static>; 11]
    ensures { fields_seen result ≡ panel_fields look.now left }
{
    let switches = look.switches;
    [
        (b"status", Value::Text(status_text(look.status))),
        (b"mode", Value::Text(mode_text(look.mode))),
        (b"bp32", Value::Text(position_word(switches.b32))),
        (b"bp16", Value::Text(position_word(switches.b16))),
        (b"bp8", Value::Text(position_word(switches.b8))),
        (b"bp4", Value::Text(position_word(switches.b4))),
        (b"transfer", Value::Text(position_word(switches.transfer))),
        (b"sixbit", Value::Text(position_word(switches.six_bit))),
        (b"reader", Value::Text(on_text(look.reader_on))),
        (b"tape", Value::Number(left)),
        (b"clock", Value::Number(look.clock)),
    ]
}

/// Whether a button would do something.
fn is_live<H: History<B>, B: Allocator>(debugger: &Debugger<H, B>, action: Action) -> Value<'static>
    ensures { value_seen result ≡ YesNo (is_live debugger.now.state.core.panel action) }
{
    Value::YesNo(debugger.is_live(&action))
}

/// Whether the last order changed a word, by where the word came from.
fn is_by_last(origin: &Option<Origin>) -> bool
    ensures { result ≡ is_by_last (option_map (λ origin. origin.changer) origin.now) }
{
    match origin {
        Some(origin) => match origin.changer {
            Changer::Order(order) => order.orders_back == 1,
            Changer::Hand(_) => false,
        },
        None => false,
    }
}

/// Whether a debugger's machine is going at an address.
fn goes_at<H: History<B>, B: Allocator>(debugger: &Debugger<H, B>, address: Address) -> bool
    ensures { result ≡ goes_at debugger.now.state address }
{
    let look = debugger.look();
    matches!(look.status, Status::Going) && look.counter == address
}

/// Whether a run stops here by a rule.
fn holds_here<H: Origins<B>, B: Allocator>(debugger: &Debugger<H, B>, rule: &Rule) -> bool
    ensures { result ≡ holds_here debugger.now rule.now }
{
    match rule {
        Rule::At(address) => goes_at(debugger, *address),
        Rule::Changed(address) => is_by_last(&debugger.origin(*address)),
    }
}

/// The number of the first rule by which a run stops here.
fn rule_here<H: Origins<B>, B: Allocator>(debugger: &Debugger<H, B>) -> Option<usize>
    ensures { result ≡ rule_here debugger.now }
{
    debugger
        .rules()
        .iter()
        .position(|rule| holds_here(debugger, rule))
}

/// The number of a rule, if there is one.
fn rule_value(rule: Option<usize>) -> Value<'static>
    ensures { value_seen result ≡ option_map_or Number rule Nothing }
{
    match rule {
        Some(number) => Value::Number(number as u64),
        None => Value::Nothing,
    }
}

/// Which buttons and keys would do something, what the machine is doing, what lets it go on, the rule that holds here, how many orders can
/// be taken back, and how many steps are kept.
#[tactic(auto, unfolding(crate::specs::StateData::live_fields))]
fn live_fields<H: History<B>, B: Allocator>(
    debugger: &Debugger<H, B>,
    status: Status,
    mode: Mode,
    rule: Option<usize>,
) -> [Field<'static>; 17]
    requires status { status ≡ debugger.now.state.core.panel.status }
    requires mode { mode ≡ debugger.now.state.core.panel.mode }
    ensures { fields_seen result
        ≡ live_fields debugger.now.state.core.panel rule (orders_in debugger.now.steps)
        (length debugger.now.steps) }
{
    [
        (
            b"live-normal",
            is_live(debugger, Action::Mode(Mode::Normal)),
        ),
        (
            b"live-oneop",
            is_live(debugger, Action::Mode(Mode::OneOperation)),
        ),
        (
            b"live-manual",
            is_live(debugger, Action::Mode(Mode::Manual)),
        ),
        (b"live-start", is_live(debugger, Action::Start)),
        (b"live-clear", is_live(debugger, Action::ClearCounter)),
        (b"live-fill", is_live(debugger, Action::Fill)),
        (b"live-execute", is_live(debugger, Action::Execute)),
        (b"live-compute", is_live(debugger, Action::StartCompute)),
        (b"live-read", is_live(debugger, Action::StartRead)),
        (b"live-keys", Value::YesNo(takes_codes(status, mode))),
        (b"live-stop", Value::YesNo(is_waiting(status))),
        (b"way", Value::Text(way_kind(status, mode))),
        (b"state-sentence", Value::Text(state_sentence(status))),
        (b"way-sentence", Value::Text(way_sentence(status, mode))),
        (b"rule", rule_value(rule)),
        (b"kept", Value::Number(debugger.orders_kept())),
        (b"kept-steps", Value::Number(debugger.kept())),
    ]
}

/// How many codes are left on the tape.
fn left_on_tape<H: History<B>, B: Allocator>(debugger: &Debugger<H, B>) -> u64
    ensures { result ≡ length debugger.now.state.core.tape.left }
{
    let Some(left) = debugger.machine().tape_left() else {
        unreachable!();
    };
    left.len() as u64
}

/// Appends the state of a machine as a record in a form.
#[tactic(auto, unfolding(crate::specs::StateData::state_record))]
pub fn push_state_data<H: Origins<B>, A: Allocator, B: Allocator>(
    text: &mut Vec<u8, A>,
    form: RecordForm,
    names: &[(Name, u16)],
    debugger: &Debugger<H, B>,
) -> Result<(), AllocError>
    ensures { OnOk result (text.new.items ≡ text.old.items
        ++ record_in form (state_record names.now debugger.now)) }
{
    let look = debugger.look();
    let registers = register_fields(names, &look);
    let panel = panel_fields(&look, left_on_tape(debugger));
    let live = live_fields(debugger, look.status, look.mode, rule_here(debugger));
    push_joined(text, form, &registers, &panel, &live)
}

/// The counter.
fn counter_field(look: &Look) -> [Field<'static>; 1]
    ensures { fields_seen result
        ≡ field (codes "counter") (Text (address_digits look.now.counter)) ∷ [] }
{
    [(b"counter", Value::Place(look.counter))]
}

/// The accumulator and the register by their digits.
fn digits_fields(look: &Look) -> [Field<'static>; 2]
    ensures { fields_seen result
        ≡ field (codes "accumulator") (Text (digits_of look.now.accumulator))
        ∷ field (codes "register") (Text (digits_of look.now.register)) ∷ [] }
{
    [
        (b"accumulator", Value::Digits(look.accumulator)),
        (b"register", Value::Digits(look.register.get())),
    ]
}

/// Appends what the panel shows as a record in a form.
#[tactic(auto, unfolding(crate::specs::StateData::panel_record))]
pub fn push_panel_data<H: History<B>, A: Allocator, B: Allocator>(
    text: &mut Vec<u8, A>,
    form: RecordForm,
    debugger: &Debugger<H, B>,
) -> Result<(), AllocError>
    ensures { OnOk result (text.new.items ≡ text.old.items ++ record_in form
        (panel_record (look_of debugger.now.state) (length debugger.now.state.core.tape.left))) }
{
    let look = debugger.look();
    let panel = panel_fields(&look, left_on_tape(debugger));
    push_joined(
        text,
        form,
        &counter_field(&look),
        &digits_fields(&look),
        &panel,
    )
}
