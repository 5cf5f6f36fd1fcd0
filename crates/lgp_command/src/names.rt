//! The words of the commands: their names, the console's buttons and switches, positions.

ghost use Rattle.std.specs.Prelude.{◌≡◌, Some};
ghost use Rattle.lgp_command.specs.Command.{switch_action};
ghost use Rattle.lgp_text.specs.NamedValues.{named};
ghost use Rattle.lgp_command.specs.Names.{button_names, position_names, switch_names, verb_names};

use crate::button::Button;
use lgp_table::{Action, Mode, Which};
use lgp_text::{Named, value_named};

/// What a command's first word says.
#[derive(Clone, Copy)]
pub enum Verb {
    Put,
    Mount,
    Press,
    Type,
    Turn,
    Orders,
    Panel,
    Words,
    Show,
    Printed,
    Dump,
    Source,
    List,
    Load,
    Break,
    Watch,
    Drop,
    Run,
    Back,
    Last,
}

/// A switch of the console.
#[derive(Clone, Copy)]
pub enum Switch {
    BreakPoint(Which),
    Transfer,
    SixBit,
}

/// The commands by their first word.
const VERBS: [Named<Verb>; 20] = [
    (b"put", Verb::Put),
    (b"mount", Verb::Mount),
    (b"press", Verb::Press),
    (b"type", Verb::Type),
    (b"turn", Verb::Turn),
    (b"orders", Verb::Orders),
    (b"panel", Verb::Panel),
    (b"words", Verb::Words),
    (b"show", Verb::Show),
    (b"printed", Verb::Printed),
    (b"dump", Verb::Dump),
    (b"source", Verb::Source),
    (b"list", Verb::List),
    (b"load", Verb::Load),
    (b"break", Verb::Break),
    (b"watch", Verb::Watch),
    (b"drop", Verb::Drop),
    (b"run", Verb::Run),
    (b"back", Verb::Back),
    (b"last", Verb::Last),
];

/// The buttons of the console.
pub const BUTTONS: [Named<Action>; 9] = [
    (b"normal", Action::Mode(Mode::Normal)),
    (b"oneop", Action::Mode(Mode::OneOperation)),
    (b"manual", Action::Mode(Mode::Manual)),
    (b"start", Action::Start),
    (b"clear", Action::ClearCounter),
    (b"fill", Action::Fill),
    (b"execute", Action::Execute),
    (b"compute", Action::StartCompute),
    (b"read", Action::StartRead),
];

/// The switches of the console.
const SWITCHES: [Named<Switch>; 6] = [
    (b"bp32", Switch::BreakPoint(Which::B32)),
    (b"bp16", Switch::BreakPoint(Which::B16)),
    (b"bp8", Switch::BreakPoint(Which::B8)),
    (b"bp4", Switch::BreakPoint(Which::B4)),
    (b"transfer", Switch::Transfer),
    (b"sixbit", Switch::SixBit),
];

/// The positions of a switch; true is down.
const POSITIONS: [Named<bool>; 2] = [(b"down", true), (b"up", false)];

/// The command of a first word.
pub fn verb_named(name: &[u8]) -> Option<Verb>
    ensures { result ≡ named verb_names name.now }
{
    value_named(&VERBS, name)
}

/// The button of a name.
pub fn button_named(name: &[u8]) -> Option<Button>
    ensures { result ≡ named button_names name.now }
{
    match value_named(&BUTTONS, name) {
        Some(action) => Button::new(action),
        None => None,
    }
}

/// The switch of a name.
pub fn switch_named(name: &[u8]) -> Option<Switch>
    ensures { result ≡ named switch_names name.now }
{
    value_named(&SWITCHES, name)
}

/// A switch's position by its name; true is down.
pub fn position_named(name: &[u8]) -> Option<bool>
    ensures { result ≡ named position_names name.now }
{
    value_named(&POSITIONS, name)
}

/// What sets a switch; true is down.
pub fn switch_action(down: bool, switch: Switch) -> Option<Button>
    ensures { result ≡ Some (switch_action down switch) }
{
    match switch {
        Switch::BreakPoint(which) => Button::new(Action::BreakPoint(which, down)),
        Switch::Transfer => Button::new(Action::Transfer(down)),
        Switch::SixBit => Button::new(Action::SixBit(down)),
    }
}
