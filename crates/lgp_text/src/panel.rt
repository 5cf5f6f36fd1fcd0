//! The words and letters for what a panel shows.

ghost use Rattle.std.specs.Prelude.{◌≡◌};
ghost use Rattle.lgp_text.specs.PanelWords.{mode_text, on_text, status_text, switch_text, switches_text};

use lgp_table::{Cause, Mode, Status, Switches};

/// The text of a status.
#[tactic(auto, unfolding(crate::specs::PanelWords::status_text))]
pub fn status_text(status: Status) -> &'static [u8]
    ensures { result.now ≡ status_text status }
{
    match status {
        Status::Halted(Cause::Operator) => b"halted operator",
        Status::Halted(Cause::Stop) => b"halted stop",
        Status::Halted(Cause::Overflow) => b"halted overflow",
        Status::Halted(Cause::Step) => b"halted step",
        Status::Going => b"going",
        Status::Executing => b"executing",
        Status::Waiting => b"waiting",
        Status::Reading => b"reading",
    }
}

/// The text of a mode.
#[tactic(auto, unfolding(crate::specs::PanelWords::mode_text))]
pub fn mode_text(mode: Mode) -> &'static [u8]
    ensures { result.now ≡ mode_text mode }
{
    match mode {
        Mode::Normal => b"normal",
        Mode::OneOperation => b"oneop",
        Mode::Manual => b"manual",
    }
}

/// The letter of a switch's position.
fn switch_text(down: bool) -> u8
    ensures { result ≡ switch_text down }
{
    if down { b'd' } else { b'u' }
}

/// The letters of the switches' positions.
#[tactic(auto, unfolding(crate::specs::PanelWords::switches_text))]
pub fn switches_text(switches: Switches) -> [u8; 6]
    ensures { result ≡ switches_text switches }
{
    [
        switch_text(switches.b32),
        switch_text(switches.b16),
        switch_text(switches.b8),
        switch_text(switches.b4),
        switch_text(switches.transfer),
        switch_text(switches.six_bit),
    ]
}

/// Whether the reader is on.
#[tactic(auto, unfolding(crate::specs::PanelWords::on_text))]
pub fn on_text(on: bool) -> &'static [u8]
    ensures { result.now ≡ on_text on }
{
    if on { b"on" } else { b"off" }
}
