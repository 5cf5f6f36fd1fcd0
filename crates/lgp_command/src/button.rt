//! What is pressed at the console.

ghost use Rattle.std.specs.Prelude.{◌≡◌, IsTrue, Some, None, if◌then◌else◌};
ghost use Rattle.lgp_command.specs.Operands.{is_button};

use lgp_table::Action;
use std::marker::Model;

/// A button that is pressed, or a switch that is set; no key of the Flexowriter. Clauses see the action.
#[derive(Clone, Copy)]
pub struct Button {
    action: Action,
}

impl Model for Button {
    ghost use Rattle.std.specs.Prelude.{IsTrue};
    ghost use Rattle.lgp_table.specs.declared.action.Action.{Action};
    ghost use Rattle.lgp_command.specs.Operands.{is_button};

    ghost Value = { Action };

    ghost view = { λ button. button.action };

    ghost invariant = { λ button. IsTrue (is_button button.action) };

    ghost inverse = { λ action. record { action = action } };
}

impl Button {
    /// The button or switch of an action; `None` where a key is struck.
    pub fn new(action: Action) -> Option<Button>
        ensures { result ≡ (if is_button action then Some action else None) }
    {
        match action {
            Action::Key(_) => None,
            _ => Some(Button { action }),
        }
    }

    /// What is done.
    pub fn action(self) -> Action
        ensures value { result ≡ self }
        ensures button { IsTrue (is_button result) }
    {
        self.action
    }
}
