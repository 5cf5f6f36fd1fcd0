//! What a program asks of the laboratory. Each answer is a list of records.

ghost use Rattle.std.specs.Prelude.{◌≡◌, ◌++◌, OnOk};
ghost use Rattle.lgp_script.specs.LabState.{labels_of};
ghost use Rattle.lgp_data.specs.ShowData.{shown_in};
ghost use Rattle.lgp_monitor.specs.DataQuestions.{data_for, look_for};

use lgp_data::{
    push_cost_data, push_labels_data, push_panel_data, push_printed_data, push_rules_data,
    push_shown, push_source_data, push_state_data, push_tape_data, push_why_data,
};
use lgp_fields::RecordForm;
use lgp_help::{push_commands, push_faults, push_operations};
use lgp_script::{Laboratory, Span};
use lgp_word::Address;
use std::alloc::{AllocError, Allocator};

/// What a program asks.
#[derive(Clone, Copy)]
pub enum DataQuestion {
    /// What the panel shows.
    Panel,
    /// What is told about each command.
    Commands,
    /// What is told about each operation of the source language.
    Operations,
    /// What is told about each kind of fault.
    Faults,
    /// The state of the machine.
    State,
    /// Words.
    Show(Span),
    /// Where the word at an address came from.
    Why(Address),
    /// The names of the last source with their values.
    Labels,
    /// The rules.
    Rules,
    /// What was printed after a given number of codes.
    Paper(u64),
    /// The tape.
    Tape,
    /// The lines of the source at hand.
    Source,
    /// What the order at an address would take if it were the next one.
    Cost(Address),
    /// What a view draws after a step: the state, words, and what was printed after a given number of codes.
    Look(Span, u64),
}

/// Appends the records of a range of words.
#[tactic(auto, unfolding(lgp_data::specs::ShowData::shown_in))]
fn push_show_data<A: Allocator + Copy>(
    text: &mut Vec<u8, A>,
    form: RecordForm,
    range: &Span,
    laboratory: &Laboratory<A>,
) -> Result<(), AllocError>
    ensures { OnOk result (text.new.items ≡ text.old.items ++ shown_in form
        (labels_of laboratory.now.source) laboratory.now.debugger range.now.first range.now.count) }
{
    let names = laboratory.labels();
    let debugger = laboratory.debugger();
    for place in 0..range.count() {
        push_shown(text, form, names, debugger, range.address(place))?;
    }
    Ok(())
}

/// Appends what a view draws after a step.
#[tactic(auto, unfolding(crate::specs::DataQuestions::look_for))]
fn push_look<A: Allocator + Copy>(
    text: &mut Vec<u8, A>,
    form: RecordForm,
    range: &Span,
    from: u64,
    laboratory: &Laboratory<A>,
) -> Result<(), AllocError>
    ensures { OnOk result (text.new.items
        ≡ text.old.items ++ look_for form range.now from laboratory.now) }
{
    let debugger = laboratory.debugger();
    push_state_data(text, form, laboratory.labels(), debugger)?;
    push_show_data(text, form, range, laboratory)?;
    push_printed_data(text, form, from, debugger.machine().printed())
}

/// Appends what is answered in a form to a question of a program.
#[tactic(auto, unfolding(crate::specs::DataQuestions::data_for))]
pub(crate) fn push_data<A: Allocator + Copy>(
    alloc: A,
    text: &mut Vec<u8, A>,
    form: RecordForm,
    question: &DataQuestion,
    laboratory: &Laboratory<A>,
) -> Result<(), AllocError>
    ensures { OnOk result (text.new.items
        ≡ text.old.items ++ data_for form question.now laboratory.now) }
{
    let names = laboratory.labels();
    let debugger = laboratory.debugger();
    match question {
        DataQuestion::Panel => push_panel_data(text, form, debugger),
        DataQuestion::Commands => push_commands(text, form),
        DataQuestion::Operations => push_operations(text, form),
        DataQuestion::Faults => push_faults(text, form),
        DataQuestion::State => push_state_data(text, form, names, debugger),
        DataQuestion::Show(range) => push_show_data(text, form, range, laboratory),
        DataQuestion::Why(address) => push_why_data(text, form, names, debugger, *address),
        DataQuestion::Labels => {
            push_labels_data(alloc, text, form, laboratory.assembled_source(), names)
        }
        DataQuestion::Rules => push_rules_data(text, form, names, debugger.rules()),
        DataQuestion::Paper(from) => {
            push_printed_data(text, form, *from, debugger.machine().printed())
        }
        DataQuestion::Tape => push_tape_data(alloc, text, form, debugger.machine()),
        DataQuestion::Source => push_source_data(alloc, text, form, laboratory.source_at_hand()),
        DataQuestion::Cost(address) => push_cost_data(text, form, names, debugger, *address),
        DataQuestion::Look(range, from) => push_look(text, form, range, *from, laboratory),
    }
}
