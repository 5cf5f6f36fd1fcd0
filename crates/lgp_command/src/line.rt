//! Commands as lines.

ghost use Rattle.std.specs.Prelude.{◌≡◌, ◌++◌, IsTrue, OnOk, codes, decimal};
ghost use Rattle.lgp_word.specs.Address.{IsAddress};
ghost use Rattle.lgp_word.specs.Digits.{address_digits, digits_of};
ghost use Rattle.lgp_word.specs.Word.{IsWord};
ghost use Rattle.lgp_command.specs.CommandText.{action_name, action_position, command_text, position_text, range_text};
ghost use Rattle.lgp_command.specs.Operands.{IsCount, IsRange, is_button};
ghost use Rattle.lgp_command.specs.Sayable.{IsSayable};

use crate::button::Button;
use crate::command::Command;
use crate::count::Count;
use crate::span::Span;
use lgp_table::{Action, Mode, Which};
use lgp_text::{Piece, push_pieces};
use lgp_word::{Address, Word};
use std::alloc::{AllocError, Allocator};

/// The name of a button or a switch.
#[tactic(auto, unfolding(crate::specs::CommandText::action_name))]
fn action_name(action: &Action) -> &'static [u8]
    ensures { result.now ≡ action_name action.now }
{
    match action {
        Action::Mode(Mode::Normal) => b"normal",
        Action::Mode(Mode::OneOperation) => b"oneop",
        Action::Mode(Mode::Manual) => b"manual",
        Action::Start => b"start",
        Action::ClearCounter => b"clear",
        Action::Fill => b"fill",
        Action::Execute => b"execute",
        Action::Key(_) => b"",
        Action::StartCompute => b"compute",
        Action::StartRead => b"read",
        Action::BreakPoint(Which::B32, _) => b"bp32",
        Action::BreakPoint(Which::B16, _) => b"bp16",
        Action::BreakPoint(Which::B8, _) => b"bp8",
        Action::BreakPoint(Which::B4, _) => b"bp4",
        Action::Transfer(_) => b"transfer",
        Action::SixBit(_) => b"sixbit",
    }
}

/// A position of a switch, after a space.
fn position_text(down: bool) -> &'static [u8]
    ensures { result.now ≡ position_text down }
{
    if down { b" down" } else { b" up" }
}

/// The position of a switch, after a space; nothing of a button.
#[tactic(auto, unfolding(crate::specs::CommandText::action_position))]
fn action_position(action: &Action) -> &'static [u8]
    ensures { result.now ≡ action_position action.now }
{
    match action {
        Action::BreakPoint(_, down) | Action::Transfer(down) | Action::SixBit(down) => {
            position_text(*down)
        }
        _ => b"",
    }
}

/// Appends a button, or a switch and its position.
fn push_press<A: Allocator>(text: &mut Vec<u8, A>, button: Button) -> Result<(), AllocError>
    ensures line { OnOk result (text.new.items ≡ text.old.items
        ++ (codes "press " ++ (action_name button ++ action_position button))) }
    ensures sayable { IsTrue (is_button button) }
{
    let action = button.action();
    push_pieces(
        text,
        &[
            Piece::Text(b"press "),
            Piece::Text(action_name(&action)),
            Piece::Text(action_position(&action)),
        ],
    )
}

/// Appends that a word is put.
fn push_put<A: Allocator>(
    text: &mut Vec<u8, A>,
    address: Address,
    word: Word,
) -> Result<(), AllocError>
    ensures line { OnOk result (text.new.items ≡ text.old.items
        ++ (codes "put " ++ (address_digits address ++ (codes " " ++ digits_of word)))) }
    ensures address { IsAddress address }
    ensures word { IsWord word }
{
    push_pieces(
        text,
        &[
            Piece::Text(b"put "),
            Piece::Place(address),
            Piece::Text(b" "),
            Piece::Digits(word.get()),
        ],
    )
}

/// Appends a command's name and a text.
fn push_text<A: Allocator>(
    text: &mut Vec<u8, A>,
    name: &'static [u8],
    operand: &[u8],
) -> Result<(), AllocError>
    ensures { OnOk result (text.new.items ≡ text.old.items ++ (name.now ++ operand.now)) }
{
    text.extend_from_slice(name)?;
    text.extend_from_slice(operand)
}

/// Appends a command's name and a number.
fn push_count<A: Allocator>(
    text: &mut Vec<u8, A>,
    name: &'static [u8],
    count: Count,
) -> Result<(), AllocError>
    ensures line { OnOk result (text.new.items ≡ text.old.items ++ (name.now ++ decimal count)) }
    ensures sayable { IsCount count }
{
    push_pieces(text, &[Piece::Text(name), Piece::Number(count.get())])
}

/// Appends a command's name and an address.
fn push_place<A: Allocator>(
    text: &mut Vec<u8, A>,
    name: &'static [u8],
    address: Address,
) -> Result<(), AllocError>
    ensures line { OnOk result (text.new.items
        ≡ text.old.items ++ (name.now ++ address_digits address)) }
    ensures sayable { IsAddress address }
{
    push_pieces(text, &[Piece::Text(name), Piece::Place(address)])
}

/// Appends a command's name and a range of words.
fn push_range<A: Allocator>(
    text: &mut Vec<u8, A>,
    name: &'static [u8],
    span: &Span,
) -> Result<(), AllocError>
    ensures line { OnOk result (text.new.items
        ≡ text.old.items ++ (name.now ++ range_text span.now)) }
    ensures sayable { IsRange span.now }
{
    push_pieces(
        text,
        &[
            Piece::Text(name),
            Piece::Place(span.first()),
            Piece::Text(b" "),
            Piece::Number(span.count()),
        ],
    )
}

/// Appends a command as a line, without its end: words separated by one space. The operand is the text of `Mount` and `Type`.
#[tactic(auto, unfolding(crate::specs::CommandText::command_text))]
pub fn push_command<A: Allocator>(
    text: &mut Vec<u8, A>,
    command: &Command,
    operand: &[u8],
) -> Result<(), AllocError>
    ensures line { OnOk result (text.new.items
        ≡ text.old.items ++ command_text command.now operand.now) }
    ensures sayable { IsSayable command.now }
{
    match command {
        Command::Put(address, word) => push_put(text, *address, *word),
        Command::Mount => push_text(text, b"mount ", operand),
        Command::Press(button) => push_press(text, *button),
        Command::Type => push_text(text, b"type ", operand),
        Command::Turn(times) => push_count(text, b"turn ", *times),
        Command::Orders(limit) => push_count(text, b"orders ", *limit),
        Command::Panel => text.extend_from_slice(b"panel"),
        Command::Words(span) => push_range(text, b"words ", span),
        Command::Show(span) => push_range(text, b"show ", span),
        Command::Printed => text.extend_from_slice(b"printed"),
        Command::Dump => text.extend_from_slice(b"dump"),
        Command::Source => text.extend_from_slice(b"source"),
        Command::List => text.extend_from_slice(b"list"),
        Command::Load => text.extend_from_slice(b"load"),
        Command::Break(address) => push_place(text, b"break ", *address),
        Command::Watch(address) => push_place(text, b"watch ", *address),
        Command::Drop(number) => push_count(text, b"drop ", *number),
        Command::Run(limit) => push_count(text, b"run ", *limit),
        Command::Back(orders) => push_count(text, b"back ", *orders),
        Command::Last => text.extend_from_slice(b"last"),
    }
}
