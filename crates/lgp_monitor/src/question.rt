//! What is shown and changes nothing.

ghost use Rattle.std.specs.Prelude.{◌≡◌, ◌++◌, ◌+◌, ◌<◌, OnOk, codes, flat_map, if◌then◌else◌, nat_lt};
ghost use Rattle.lgp_word.specs.Digits.{address_digits};
ghost use Rattle.lgp_script.specs.DrumCommands.{lines_text};
ghost use Rattle.lgp_command.specs.Names.{button_names};
ghost use Rattle.lgp_script.specs.LabState.{labels_of};
ghost use Rattle.lgp_trace.specs.OriginLines.{why_text};
ghost use Rattle.lgp_monitor.specs.Telling.{label_of};
ghost use Rattle.lgp_text.specs.NamedValues.{pairs_of};
ghost use Rattle.lgp_monitor.specs.Questions.{answer_to, label_line, live_keys, live_name, live_text, number_line, paper_text, rule_address, rule_command, rule_line, rule_lines, way_text};

use crate::data_question::{DataQuestion, push_data};
use crate::form::push_commands;
use crate::labels::{NamedAddresses, push_name};
use crate::scaled::{Point, push_scaled};
use lgp_assembler::Name;
use lgp_debugger::Debugger;
use lgp_exchange::push_paper;
use lgp_fields::RecordForm;
use lgp_flexo::Code;
use lgp_fraction::Fraction;
use lgp_history::{Records, Rule};
use lgp_machine::{Look, Machine};
use lgp_script::{BUTTONS, Laboratory, Span};
use lgp_table::{Action, Mode, Status};
use lgp_text::{Named, Piece, push_pieces};
use lgp_trace::push_why;
use lgp_word::{Address, Word};
use std::alloc::{AllocError, Allocator};

/// What is shown and changes nothing.
#[derive(Clone, Copy)]
pub enum Question {
    /// Words by their digits, as fractions and as numbers whose point is after a place.
    Numbers(Span, Point),
    /// Where the word at an address came from.
    Why(Address),
    /// What was printed, as the typewriter's paper has it.
    Paper,
    /// The names of the last source with their values.
    Labels,
    /// The rules with their numbers.
    Rules,
    /// Which buttons and keys would do something now, and what lets the machine go on.
    Live,
    /// Each command, whether it only asks, and what its operands are.
    Commands,
    /// What a program reads, in a form.
    Data(DataQuestion, RecordForm),
}

/// Appends a word by its digits, as a fraction and as a number whose point is after a place.
#[tactic(auto, unfolding(crate::specs::Questions::number_line))]
fn push_number_line<A: Allocator>(
    text: &mut Vec<u8, A>,
    point: Point,
    address: Address,
    word: Word,
) -> Result<(), AllocError>
    ensures { OnOk result (text.new.items ≡ text.old.items ++ number_line point address word) }
{
    let fraction = Fraction::of_word(word).to_decimal();
    push_pieces(
        text,
        &[
            Piece::Place(address),
            Piece::Text(b" "),
            Piece::Digits(word.get()),
            Piece::Text(b"  "),
            Piece::Text(&fraction),
            Piece::Text(b"  "),
        ],
    )?;
    push_scaled(text, point, word)?;
    text.push(b'\n')?;
    Ok(())
}

/// Appends the lines of a range of words as numbers.
fn push_numbers<A: Allocator>(
    text: &mut Vec<u8, A>,
    machine: &Machine<A>,
    range: &Span,
    point: Point,
) -> Result<(), AllocError>
    ensures { OnOk result (text.new.items ≡ text.old.items
        ++ lines_text (number_line point) machine.now.state range.now.first range.now.count) }
{
    for place in 0..range.count() {
        let address = range.address(place);
        push_number_line(text, point, address, machine.word(address))?;
    }
    Ok(())
}

/// Appends how many codes were printed, and the paper with them.
#[tactic(auto, unfolding(crate::specs::Questions::paper_text))]
fn push_paper_text<A: Allocator, B: Allocator>(
    alloc: B,
    text: &mut Vec<u8, A>,
    printed: &[Code],
) -> Result<(), AllocError>
    ensures { OnOk result (text.new.items ≡ text.old.items ++ paper_text printed.now) }
{
    push_pieces(
        text,
        &[
            Piece::Text(b"paper "),
            Piece::Number(printed.len() as u64),
            Piece::Text(b"\n"),
        ],
    )?;
    push_paper(alloc, text, printed)?;
    text.push(b'\n')?;
    Ok(())
}

/// Appends a name's value.
fn push_value<A: Allocator>(text: &mut Vec<u8, A>, value: u16) -> Result<(), AllocError>
    ensures { OnOk result (text.new.items ≡ text.old.items
        ++ (if nat_lt value 4096 then address_digits value else codes "past the drum")) }
{
    match Address::new(value) {
        Some(address) => text.extend_from_slice(&address.print()),
        None => text.extend_from_slice(b"past the drum"),
    }
}

/// Appends the line of a name.
#[tactic(auto, unfolding(crate::specs::Questions::label_line))]
fn push_label_line<A: Allocator>(
    text: &mut Vec<u8, A>,
    symbol: &(Name, u16),
) -> Result<(), AllocError>
    ensures { OnOk result (text.new.items ≡ text.old.items ++ label_line symbol.now) }
{
    text.extend_from_slice(symbol.0.bytes())?;
    text.push(b' ')?;
    push_value(text, symbol.1)?;
    text.push(b'\n')?;
    Ok(())
}

/// Appends the lines of names.
fn push_label_lines<A: Allocator>(
    text: &mut Vec<u8, A>,
    symbols: &[(Name, u16)],
) -> Result<(), AllocError>
    ensures { OnOk result (text.new.items ≡ text.old.items ++ flat_map label_line symbols.now) }
{
    for symbol in symbols {
        push_label_line(text, symbol)?;
    }
    Ok(())
}

/// The command that makes a rule.
fn rule_command(rule: &Rule) -> &'static [u8]
    ensures { result.now ≡ rule_command rule.now }
{
    match rule {
        Rule::At(_) => b" break ",
        Rule::Changed(_) => b" watch ",
    }
}

/// A rule's address.
fn rule_address(rule: &Rule) -> Address
    ensures { result ≡ rule_address rule.now }
{
    match rule {
        Rule::At(address) | Rule::Changed(address) => *address,
    }
}

/// Appends the line of a rule.
#[tactic(auto, unfolding(crate::specs::Questions::rule_line))]
fn push_rule_line<A: Allocator>(
    text: &mut Vec<u8, A>,
    names: &[(Name, u16)],
    number: u64,
    rule: &Rule,
) -> Result<(), AllocError>
    ensures { OnOk result (text.new.items
        ≡ text.old.items ++ rule_line names.now number rule.now) }
{
    let address = rule_address(rule);
    push_pieces(
        text,
        &[
            Piece::Text(b"rule "),
            Piece::Number(number),
            Piece::Text(rule_command(rule)),
            Piece::Place(address),
        ],
    )?;
    push_name(text, names, address.number())?;
    text.push(b'\n')?;
    Ok(())
}

/// Appends the lines of rules.
#[tactic(auto, unfolding(crate::specs::Questions::rule_lines))]
fn push_rule_lines<A: Allocator>(
    text: &mut Vec<u8, A>,
    names: &[(Name, u16)],
    rules: &[Rule],
) -> Result<(), AllocError>
    ensures { OnOk result (text.new.items ≡ text.old.items ++ rule_lines names.now 0 rules.now) }
{
    for (number, rule) in rules.iter().enumerate() {
        push_rule_line(text, names, number as u64, rule)?;
    }
    Ok(())
}

/// Appends where the word at an address came from.
fn push_why_at<A: Allocator + Copy>(
    text: &mut Vec<u8, A>,
    address: Address,
    laboratory: &Laboratory<A>,
) -> Result<(), AllocError>
    ensures { OnOk result (text.new.items ≡ text.old.items
        ++ why_text (label_of (labels_of laboratory.now.source)) laboratory.now.debugger address) }
{
    let names = laboratory.labels();
    let labels = NamedAddresses { names };
    push_why(laboratory.debugger(), text, address, &labels)
}

/// Appends an action's name, where it is live.
fn push_live_name<A: Allocator, B: Allocator + Clone>(
    text: &mut Vec<u8, A>,
    debugger: &Debugger<Records<B>, B>,
    named: &Named<Action>,
) -> Result<(), AllocError>
    ensures { OnOk result (text.new.items ≡ text.old.items
        ++ live_name debugger.now.state.core.panel (named.now.0.now, named.now.1)) }
{
    if !debugger.is_live(&named.1) {
        return Ok(());
    }
    push_pieces(text, &[Piece::Text(b" "), Piece::Text(named.0)])
}

/// Appends the names of actions that are live.
fn push_live_names<A: Allocator, B: Allocator + Clone>(
    text: &mut Vec<u8, A>,
    debugger: &Debugger<Records<B>, B>,
    names: &[Named<Action>],
) -> Result<(), AllocError>
    ensures { OnOk result (text.new.items ≡ text.old.items
        ++ flat_map (live_name debugger.now.state.core.panel) (pairs_of names.now)) }
{
    for named in names {
        push_live_name(text, debugger, named)?;
    }
    Ok(())
}

/// The keys that are live of a machine in this state.
fn live_keys(status: Status, mode: Mode) -> &'static [u8]
    ensures { result.now ≡ live_keys status mode }
{
    match (status, mode) {
        (Status::Waiting, _) => b" keys stop",
        (Status::Halted(_), Mode::Manual) => b" keys",
        _ => b"",
    }
}

/// What lets a machine go on in this state.
fn way_text(status: Status, mode: Mode) -> &'static [u8]
    ensures { result.now ≡ way_text status mode }
{
    match (status, mode) {
        (Status::Waiting, _) => b"\nway keys\n",
        (Status::Halted(_), Mode::Manual) => b"\nway normal start\n",
        (Status::Halted(_), _) => b"\nway start\n",
        _ => b"\nway orders\n",
    }
}

/// Appends the names of the buttons that are live.
fn push_live_buttons<A: Allocator, B: Allocator + Clone>(
    text: &mut Vec<u8, A>,
    debugger: &Debugger<Records<B>, B>,
) -> Result<(), AllocError>
    ensures { OnOk result (text.new.items ≡ text.old.items
        ++ flat_map (live_name debugger.now.state.core.panel) button_names) }
{
    push_live_names(text, debugger, &BUTTONS)
}

/// Appends the keys that are live of a machine that shows this, and what lets it go on.
fn push_live_keys<A: Allocator>(text: &mut Vec<u8, A>, look: &Look) -> Result<(), AllocError>
    ensures { OnOk result (text.new.items ≡ text.old.items
        ++ (live_keys look.now.status look.now.mode
        ++ way_text look.now.status look.now.mode)) }
{
    push_pieces(
        text,
        &[
            Piece::Text(live_keys(look.status, look.mode)),
            Piece::Text(way_text(look.status, look.mode)),
        ],
    )
}

/// Appends which buttons and keys would do something now, and what lets the machine go on.
#[tactic(auto, unfolding(crate::specs::Questions::live_text))]
fn push_live<A: Allocator, B: Allocator + Clone>(
    text: &mut Vec<u8, A>,
    debugger: &Debugger<Records<B>, B>,
) -> Result<(), AllocError>
    ensures { OnOk result (text.new.items
        ≡ text.old.items ++ live_text debugger.now.state.core.panel) }
{
    text.extend_from_slice(b"live")?;
    push_live_buttons(text, debugger)?;
    push_live_keys(text, &debugger.look())
}

/// Appends what is answered to a question.
#[tactic(auto, unfolding(crate::specs::Questions::answer_to))]
pub fn push_answer<A: Allocator + Copy>(
    alloc: A,
    text: &mut Vec<u8, A>,
    question: &Question,
    laboratory: &Laboratory<A>,
) -> Result<(), AllocError>
    ensures { OnOk result (text.new.items
        ≡ text.old.items ++ answer_to question.now laboratory.now) }
{
    match question {
        Question::Numbers(range, point) => {
            push_numbers(text, laboratory.debugger().machine(), range, *point)
        }
        Question::Why(address) => push_why_at(text, *address, laboratory),
        Question::Paper => {
            push_paper_text(alloc, text, laboratory.debugger().machine().printed())
        }
        Question::Labels => push_label_lines(text, laboratory.labels()),
        Question::Rules => {
            push_rule_lines(text, laboratory.labels(), laboratory.debugger().rules())
        }
        Question::Live => push_live(text, laboratory.debugger()),
        Question::Commands => push_commands(text),
        Question::Data(asked, form) => push_data(alloc, text, *form, asked, laboratory),
    }
}
