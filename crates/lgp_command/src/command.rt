//! What a line of a script asks for.

ghost use Rattle.std.specs.Prelude.{◌≡◌, ◌≤◌, drop, is_some, length};
ghost use Rattle.lgp_word.specs.Digits.{address_text};
ghost use Rattle.lgp_command.specs.Command.{command_by, command_of, is_comment, lone, lone_number, lone_operand, press_command, put_command, span_at, text_after_word};

use crate::button::Button;
use crate::count::Count;
use crate::names::{Verb, button_named, position_named, switch_action, switch_named, verb_named};
use crate::span::Span;
use lgp_stream::{Split, has_no_word, split_word};
use lgp_word::{Address, Word, read_digits};

/// What a line asks for. The text of `Mount` and `Type` is the rest of the line.
#[derive(Clone, Copy)]
pub enum Command {
    Put(Address, Word),
    Mount,
    Press(Button),
    Type,
    /// A given number of word times at rest.
    Turn(Count),
    /// At most a given number of orders.
    Orders(Count),
    Panel,
    Words(Span),
    /// The same words, each by its disassembly.
    Show(Span),
    Printed,
    /// All words that are not zero.
    Dump,
    /// The lines that follow are a source.
    Source,
    /// The listing of the last source.
    List,
    /// The last source loaded, by the keyed-in loader.
    Load,
    /// A rule that an order taken from an address hits.
    Break(Address),
    /// A rule that an order hits which changes the word at an address.
    Watch(Address),
    /// The rule of a number goes.
    Drop(Count),
    /// At most a given number of orders, until a rule stops them.
    Run(Count),
    /// A given number of orders back.
    Back(Count),
    /// Back to the latest order that a rule hits.
    Last,
}

/// The operands of `put`.
#[tactic(auto, unfolding(crate::specs::Command::put_command))]
fn put_command(operands: &[u8]) -> Option<Command>
    ensures { result ≡ put_command operands.now }
{
    let first = split_word(operands);
    let second = split_word(first.rest);
    if !has_no_word(second.rest) {
        return None;
    }
    match (Address::parse(first.word), read_digits(second.word)) {
        (Some(address), Some(word)) => Some(Command::Put(address, word)),
        _ => None,
    }
}

/// The operands of `press`.
#[tactic(auto, unfolding(crate::specs::Command::press_command))]
fn press_command(operands: &[u8]) -> Option<Command>
    ensures { result ≡ press_command operands.now }
{
    let name = split_word(operands);
    if has_no_word(name.rest) {
        return match button_named(name.word) {
            Some(button) => Some(Command::Press(button)),
            None => None,
        };
    }
    let position = split_word(name.rest);
    if !has_no_word(position.rest) {
        return None;
    }
    match (switch_named(name.word), position_named(position.word)) {
        (Some(switch), Some(down)) => Some(Command::Press(switch_action(down, switch)?)),
        _ => None,
    }
}

/// The number that is the only operand, as `run` takes it.
#[tactic(auto, unfolding(crate::specs::Command::lone_number))]
pub fn lone_count(operands: &[u8]) -> Option<Count>
    ensures { result ≡ lone_number operands.now }
{
    let number = split_word(operands);
    if has_no_word(number.rest) {
        Count::read(number.word)
    } else {
        None
    }
}

/// The same number as it is.
pub fn lone_number(operands: &[u8]) -> Option<u64>
    ensures { result ≡ lone_number operands.now }
{
    Some(lone_count(operands)?.get())
}

/// The address that is the only operand.
fn lone_address(operands: &[u8]) -> Option<Address>
    ensures { result ≡ lone_operand address_text operands.now }
{
    let address = split_word(operands);
    if has_no_word(address.rest) {
        Address::parse(address.word)
    } else {
        None
    }
}

/// A range of words: an address, and how many words from it on.
#[tactic(auto, unfolding(crate::specs::Command::span_at))]
fn span_at(operands: &[u8]) -> Option<Span>
    ensures { result ≡ span_at operands.now }
{
    let first = split_word(operands);
    let second = split_word(first.rest);
    if !has_no_word(second.rest) {
        return None;
    }
    match (Address::parse(first.word), Count::read(second.word)) {
        (Some(address), Some(count)) => Span::new(address, count.get()),
        _ => None,
    }
}

/// A command that takes no operand.
fn lone(command: Command, operands: &[u8]) -> Option<Command>
    ensures { result ≡ lone command operands.now }
{
    if has_no_word(operands) {
        Some(command)
    } else {
        None
    }
}

/// A command with its operands.
fn command_by(verb: Verb, operands: &[u8]) -> Option<Command>
    ensures { result ≡ command_by verb operands.now }
{
    match verb {
        Verb::Put => put_command(operands),
        Verb::Mount => Some(Command::Mount),
        Verb::Press => press_command(operands),
        Verb::Type => Some(Command::Type),
        Verb::Turn => Some(Command::Turn(lone_count(operands)?)),
        Verb::Orders => Some(Command::Orders(lone_count(operands)?)),
        Verb::Panel => lone(Command::Panel, operands),
        Verb::Words => Some(Command::Words(span_at(operands)?)),
        Verb::Show => Some(Command::Show(span_at(operands)?)),
        Verb::Printed => lone(Command::Printed, operands),
        Verb::Dump => lone(Command::Dump, operands),
        Verb::Source => lone(Command::Source, operands),
        Verb::List => lone(Command::List, operands),
        Verb::Load => lone(Command::Load, operands),
        Verb::Break => Some(Command::Break(lone_address(operands)?)),
        Verb::Watch => Some(Command::Watch(lone_address(operands)?)),
        Verb::Drop => Some(Command::Drop(lone_count(operands)?)),
        Verb::Run => Some(Command::Run(lone_count(operands)?)),
        Verb::Back => Some(Command::Back(lone_count(operands)?)),
        Verb::Last => lone(Command::Last, operands),
    }
}

/// A line as it is asked: its command, if it is in the form of one, and the text that `mount` and `type` take.
#[derive(Clone, Copy)]
pub struct Asked<'a> {
    pub command: Option<Command>,
    pub text: &'a [u8],
}

/// All that follows the one space after the command's word.
fn after_space(rest: &[u8]) -> &[u8]
    ensures text { result.now ≡ drop 1 rest.now }
    ensures shorter { length result.now ≤ length rest.now }
{
    match rest {
        [_, text @ ..] => text,
        [] => &[],
    }
}

/// The text that `mount` and `type` take of a line.
#[tactic(auto, unfolding(crate::specs::Command::text_after_word))]
pub fn text_after_word(line: &[u8]) -> &[u8]
    ensures { result.now ≡ text_after_word line.now }
{
    after_space(split_word(line).rest)
}

/// What a line asks for; no command where it is in no command's form.
#[tactic(auto, unfolding(crate::specs::Command::command_of, crate::specs::Command::text_after_word))]
pub fn asked_in(line: &[u8]) -> Asked<'_>
    ensures command { result.command ≡ command_of line.now }
    ensures text { result.text.now ≡ text_after_word line.now }
    ensures within { length result.text.now ≤ length line.now }
{
    let Split { word, rest } = split_word(line);
    let command = match verb_named(word) {
        Some(verb) => command_by(verb, rest),
        None => None,
    };
    Asked {
        command,
        text: after_space(rest),
    }
}

/// Whether a line begins with a semicolon.
pub fn is_comment(line: &[u8]) -> bool
    ensures { result ≡ is_comment line.now }
{
    match line {
        [first, ..] => *first == b';',
        [] => false,
    }
}

/// Whether a line is in the form of a command.
pub fn is_command(line: &[u8]) -> bool
    ensures { result ≡ is_some (command_of line.now) }
{
    asked_in(line).command.is_some()
}
