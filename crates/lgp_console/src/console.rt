//! What each action does.

ghost use Rattle.std.specs.Prelude.{◌≡◌};
ghost use Rattle.lgp_table.specs.Activity.{resume};
ghost use Rattle.lgp_table.specs.Console.{after_key, console_after, is_live, key_is_live, status_in_mode, takes_codes, with_break_point};

use lgp_flexo::{Code, enter, skipped};
use lgp_reader::Reader;
use lgp_table::{Action, Cause, Mode, Panel, Status, Switches, Which};
use lgp_word::{Address, Word};
use std::alloc::Allocator;

/// Whether the operator may send codes: an input waits for them, or the machine has halted in Manual.
fn takes_codes(panel: &Panel) -> bool
    ensures { result ≡ takes_codes panel.now.status panel.now.mode }
{
    match panel.status {
        Status::Halted(_) => matches!(panel.mode, Mode::Manual),
        Status::Waiting => true,
        Status::Going | Status::Executing | Status::Reading => false,
    }
}

/// Whether a key is live.
fn key_is_live(panel: &Panel, code: Code) -> bool
    ensures { result ≡ key_is_live panel.now code }
{
    if code == Code::STOP {
        panel.status.is_waiting()
    } else {
        takes_codes(panel) && !skipped(code)
    }
}

/// Whether an action would be live with these registers, status and mode; a dead one changes nothing.
pub fn is_live(panel: &Panel, action: &Action) -> bool
    ensures { result ≡ is_live panel.now action.now }
{
    match *action {
        Action::Mode(_) | Action::BreakPoint(_, _) | Action::Transfer(_) | Action::SixBit(_) =>
            true,
        Action::Start => panel.status.is_halted() && !matches!(panel.mode, Mode::Manual),
        Action::ClearCounter | Action::Fill => panel.status.is_halted(),
        Action::Execute => panel.status.is_halted() && matches!(panel.mode, Mode::OneOperation),
        Action::Key(code) => key_is_live(panel, code),
        Action::StartCompute => panel.status.is_waiting(),
        Action::StartRead => takes_codes(panel),
    }
}

/// The status after a mode button.
fn status_in_mode(mode: Mode, status: Status) -> Status
    ensures { result ≡ status_in_mode mode status }
{
    match (mode, status) {
        (Mode::OneOperation, Status::Going) => Status::Halted(Cause::Operator),
        (Mode::Manual, Status::Going | Status::Executing | Status::Waiting | Status::Reading) => {
            Status::Halted(Cause::Operator)
        }
        (_, status) => status,
    }
}

/// Sets a BREAK POINT switch.
fn set_break_point(switches: &mut Switches, which: Which, down: bool)
    ensures { switches.new ≡ with_break_point switches.old which down }
{
    match which {
        Which::B32 => switches.b32 = down,
        Which::B16 => switches.b16 = down,
        Which::B8 => switches.b8 = down,
        Which::B4 => switches.b4 = down,
    }
}

/// Takes a key: the conditional stop ends the input, any other code enters.
fn take_key(panel: &mut Panel, code: Code)
    ensures { panel.new ≡ after_key panel.old code }
{
    if code == Code::STOP {
        panel.status = panel.mode.resume();
    } else {
        panel.accumulator = enter(panel.switches.six_bit, panel.accumulator, code);
    }
}

/// Does what an action does, and answers whether it was live.
pub fn act<A: Allocator>(panel: &mut Panel, reader: &mut Reader<A>, action: Action) -> bool
    ensures live { result ≡ is_live panel.old action }
    ensures panel { panel.new
        ≡ (console_after (record { panel = panel.old; tape = reader.old }) action).panel }
    ensures tape { reader.new
        ≡ (console_after (record { panel = panel.old; tape = reader.old }) action).tape }
{
    if !is_live(panel, &action) {
        return false;
    }
    match action {
        Action::Mode(mode) => {
            panel.status = status_in_mode(mode, panel.status);
            panel.mode = mode;
        }
        Action::Start => panel.status = Status::Going,
        Action::ClearCounter => panel.counter = Address::default(),
        Action::Fill => panel.register = Word::of_bits(panel.accumulator),
        Action::Execute => panel.status = Status::Executing,
        Action::Key(code) => take_key(panel, code),
        Action::StartCompute => panel.status = panel.mode.resume(),
        Action::StartRead => {
            reader.start();
            panel.status = Status::Reading;
        }
        Action::BreakPoint(which, down) => set_break_point(&mut panel.switches, which, down),
        Action::Transfer(down) => panel.switches.transfer = down,
        Action::SixBit(down) => panel.switches.six_bit = down,
    }
    true
}
