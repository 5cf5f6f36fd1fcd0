//! The forms of commands.

ghost use Rattle.std.specs.Prelude.{◌≡◌, ◌++◌, OnOk, flat_map};
ghost use Rattle.lgp_text.specs.NamedValues.{pairs_of};
ghost use Rattle.lgp_monitor.specs.Forms.{command_line, commands_text, form_line, help_text};
ghost use Rattle.lgp_monitor.specs.Verbs.{operands_form, operands_kind};

use crate::verb::{Verb, named_verbs, only_asks, operands_form, operands_kind};
use lgp_text::{Named, Piece, push_pieces};
use std::alloc::{AllocError, Allocator};

/// Appends the line of a command's form.
#[tactic(auto, unfolding(crate::specs::Forms::form_line))]
pub(crate) fn push_form_line<A: Allocator>(
    text: &mut Vec<u8, A>,
    name: &[u8],
    verb: Verb,
) -> Result<(), AllocError>
    ensures { OnOk result (text.new.items ≡ text.old.items ++ form_line name.now verb) }
{
    text.extend_from_slice(name)?;
    push_pieces(
        text,
        &[Piece::Text(operands_form(verb)), Piece::Text(b"\n")],
    )
}

/// Appends the forms of commands.
fn push_forms<A: Allocator>(text: &mut Vec<u8, A>, names: &[Named<Verb>]) -> Result<(), AllocError>
    ensures { OnOk result (text.new.items ≡ text.old.items
        ++ flat_map (λ name. form_line name.0 name.1) (pairs_of names.now)) }
{
    for name in names {
        push_form_line(text, name.0, name.1)?;
    }
    Ok(())
}

/// Appends the forms of all commands.
#[tactic(auto, unfolding(crate::specs::Forms::help_text))]
pub(crate) fn push_help<A: Allocator>(text: &mut Vec<u8, A>) -> Result<(), AllocError>
    ensures { OnOk result (text.new.items ≡ text.old.items ++ help_text) }
{
    push_forms(text, named_verbs())
}

/// Appends a command's line for programs.
#[tactic(auto, unfolding(crate::specs::Forms::command_line))]
fn push_command_line<A: Allocator>(
    text: &mut Vec<u8, A>,
    name: &[u8],
    verb: Verb,
) -> Result<(), AllocError>
    ensures { OnOk result (text.new.items ≡ text.old.items ++ command_line name.now verb) }
{
    let asks: &[u8] = if only_asks(verb) { b" asks" } else { b" does" };
    push_pieces(
        text,
        &[
            Piece::Text(name),
            Piece::Text(asks),
            Piece::Text(operands_kind(verb)),
        ],
    )
}

/// Appends the lines of commands for programs.
fn push_command_lines<A: Allocator>(
    text: &mut Vec<u8, A>,
    names: &[Named<Verb>],
) -> Result<(), AllocError>
    ensures { OnOk result (text.new.items ≡ text.old.items
        ++ flat_map (λ name. command_line name.0 name.1) (pairs_of names.now)) }
{
    for name in names {
        push_command_line(text, name.0, name.1)?;
    }
    Ok(())
}

/// Appends of each command whether it only asks, and what its operands are.
#[tactic(auto, unfolding(crate::specs::Forms::commands_text))]
pub(crate) fn push_commands<A: Allocator>(text: &mut Vec<u8, A>) -> Result<(), AllocError>
    ensures { OnOk result (text.new.items ≡ text.old.items ++ commands_text) }
{
    push_command_lines(text, named_verbs())
}
