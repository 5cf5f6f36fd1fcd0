//! Pressing, waiting, performing orders, the panel.

ghost use Rattle.std.specs.Prelude.{◌≡◌, ◌++◌, IfOk, IsTrue, Ok, OnOk};
ghost use Rattle.lgp_table.specs.Interleaving.{is_boundary};
ghost use Rattle.lgp_script.specs.MachineCommands.{panel_text, reader_text, registers_text, replied_to_keys, replied_to_orders, replied_to_press, replied_to_turn, typed};
ghost use Rattle.lgp_script.specs.Reply.{IsReplied};
ghost use Rattle.lgp_script.specs.Script.{replied_to_text};
ghost use Rattle.lgp_text.specs.PanelWords.{mode_text, on_text, status_text, switches_text};

use super::Laboratory;
use super::history_commands::broken_off;
use super::tape_commands::read_codes;
use crate::refusal::Refusal;
use crate::reply::Reply;
use lgp_debugger::{Debugger, IdleFault};
use lgp_flexo::Code;
use lgp_history::History;
use lgp_machine::{Look, Machine};
use lgp_table::Action;
use lgp_text::{Piece, mode_text, on_text, push_pieces, status_text, switches_text};
use std::alloc::{AllocError, Allocator};

impl<A: Allocator + Copy> Laboratory<A> {
    /// Presses a button or sets a switch.
    pub(super) fn press(&mut self, action: Action) -> Result<Reply, AllocError>
        ensures { IfOk result (λ reply.
            IsReplied reply self.new (replied_to_press self.old action)) }
    {
        let live = self.debugger.press(action)?;
        Ok(if live { Reply::Live } else { Reply::Dead })
    }

    /// Strikes the keys of a text, which has to fit on a line.
    pub(super) fn type_text(&mut self, text: &[u8]) -> Result<Reply, AllocError>
        ensures { IfOk result (λ reply. IsReplied reply self.new
            (replied_to_text 4091 replied_to_keys self.old text.now)) }
    {
        if text.len() > 4091 {
            return Ok(Reply::Refused(Refusal::TooLong));
        }
        match read_codes(self.alloc, text)? {
            Ok(codes) => self.strike_codes(&codes),
            Err(place) => Ok(Reply::Refused(Refusal::BadSign(place))),
        }
    }

    /// Strikes the keys of codes.
    fn strike_codes(&mut self, codes: &[Code]) -> Result<Reply, AllocError>
        ensures { IfOk result (λ reply. IsReplied reply self.new
            (replied_to_keys self.old (Ok codes.now))) }
    {
        let keys = strike(&mut self.debugger, codes)?;
        Ok(Reply::Struck(keys.live, keys.dead))
    }

    /// Lets word times pass at rest.
    #[tactic(auto, unfolding(crate::specs::MachineCommands::replied_to_turn))]
    pub(super) fn turn(&mut self, times: u64) -> Result<Reply, AllocError>
        ensures { IfOk result (λ reply.
            IsReplied reply self.new (replied_to_turn self.old times)) }
    {
        let clock = self.debugger.look().clock;
        match self.debugger.idle(times) {
            Ok(()) => Ok(Reply::Clock(clock.saturating_add(times))),
            Err(IdleFault::AtWork) => Ok(Reply::Refused(Refusal::AtWork)),
            Err(IdleFault::ClockEnd) => Ok(Reply::Refused(Refusal::ClockEnd)),
            Err(IdleFault::Memory) => Err(AllocError),
        }
    }

    /// Performs orders.
    #[tactic(auto, unfolding(crate::specs::MachineCommands::replied_to_orders))]
    pub(super) fn orders(&mut self, limit: u64) -> Result<Reply, AllocError>
        ensures { IfOk result (λ reply.
            IsReplied reply self.new (replied_to_orders self.old limit)) }
    {
        match self.debugger.run_freely(limit) {
            Ok(ran) => Ok(Reply::Orders(ran.orders, self.debugger.look().status)),
            Err(broken) => broken_off(&broken),
        }
    }
}

/// How many keys were live and dead.
#[derive(Clone, Copy)]
struct Keys {
    live: u64,
    dead: u64,
}

/// Strikes keys one after another.
#[tactic(auto, unfolding(crate::specs::MachineCommands::typed))]
fn strike<H: History<A>, A: Allocator>(
    debugger: &mut Debugger<H, A>,
    keys: &[Code],
) -> Result<Keys, AllocError>
    ensures live { IfOk result (λ struck. struck.live ≡ (typed debugger.old keys.now).live) }
    ensures dead { IfOk result (λ struck. struck.dead ≡ (typed debugger.old keys.now).dead) }
    ensures after { OnOk result (debugger.new ≡ (typed debugger.old keys.now).after) }
{
    let mut live = 0;
    let mut dead = 0;
    for key in keys {
        if debugger.press(Action::Key(*key))? {
            live += 1;
        } else {
            dead += 1;
        }
    }
    Ok(Keys { live, dead })
}

/// Appends the panel's line of a machine at a boundary.
#[tactic(auto, unfolding(crate::specs::MachineCommands::panel_text))]
pub fn push_panel<A: Allocator>(
    text: &mut Vec<u8, A>,
    machine: &Machine<A>,
) -> Result<(), AllocError>
    requires { IsTrue (is_boundary machine.now) }
    ensures { OnOk result (text.new.items ≡ text.old.items ++ panel_text machine.now.state) }
{
    let (Some(look), Some(left)) = (machine.look(), machine.tape_left()) else {
        unreachable!();
    };
    push_registers(text, &look)?;
    text.extend_from_slice(&switches_text(look.switches))?;
    push_reader(text, &look, left.len() as u64)
}

/// Appends the registers, the status and the mode.
#[tactic(auto, unfolding(crate::specs::MachineCommands::registers_text))]
fn push_registers<A: Allocator>(text: &mut Vec<u8, A>, look: &Look) -> Result<(), AllocError>
    ensures { OnOk result (text.new.items ≡ text.old.items ++ registers_text look.now) }
{
    push_pieces(
        text,
        &[
            Piece::Text(b"counter "),
            Piece::Place(look.counter),
            Piece::Text(b" accumulator "),
            Piece::Digits(look.accumulator),
            Piece::Text(b" register "),
            Piece::Digits(look.register.get()),
            Piece::Text(b" status "),
            Piece::Text(status_text(look.status)),
            Piece::Text(b" mode "),
            Piece::Text(mode_text(look.mode)),
            Piece::Text(b" switches "),
        ],
    )
}

/// Appends the reader, how many codes are left, and the clock.
#[tactic(auto, unfolding(crate::specs::MachineCommands::reader_text))]
fn push_reader<A: Allocator>(
    text: &mut Vec<u8, A>,
    look: &Look,
    left: u64,
) -> Result<(), AllocError>
    ensures { OnOk result (text.new.items ≡ text.old.items ++ reader_text look.now left) }
{
    push_pieces(
        text,
        &[
            Piece::Text(b" reader "),
            Piece::Text(on_text(look.reader_on)),
            Piece::Text(b" tape "),
            Piece::Number(left),
            Piece::Text(b" clock "),
            Piece::Number(look.clock),
            Piece::Text(b"\n"),
        ],
    )
}
