//! Replies as they are written.

ghost use Rattle.std.specs.Prelude.{◌≡◌, ◌++◌, OnOk};
ghost use Rattle.lgp_script.specs.HistoryCommands.{hit_text, ran_text, reason_text};
ghost use Rattle.lgp_script.specs.MachineCommands.{orders_text, typed_text};
ghost use Rattle.lgp_script.specs.ReplyText.{reply_text};

use super::Laboratory;
use super::machine_commands::push_panel;
use super::tape_commands::push_printed;
use crate::refusal::{push_counted, push_refusal};
use crate::reply::Reply;
use lgp_debugger::{Ran, Reason};
use lgp_table::Status;
use lgp_text::{Piece, push_pieces, status_text};
use std::alloc::{AllocError, Allocator};

impl<A: Allocator + Copy> Laboratory<A> {
    /// Appends a reply; what is long is read off the state in which the laboratory is.
    #[tactic(auto, unfolding(crate::specs::ReplyText::reply_text))]
    pub fn push_reply(&self, text: &mut Vec<u8, A>, reply: &Reply) -> Result<(), AllocError>
        ensures { OnOk result (text.new.items
            ≡ text.old.items ++ reply_text self.now reply.now) }
    {
        match reply {
            Reply::Done => text.extend_from_slice(b"ok\n"),
            Reply::Mounted(count) => push_counted(text, b"ok ", *count),
            Reply::Live => text.extend_from_slice(b"live\n"),
            Reply::Dead => text.extend_from_slice(b"dead\n"),
            Reply::Struck(live, dead) => push_struck(text, *live, *dead),
            Reply::Clock(clock) => push_counted(text, b"clock ", *clock),
            Reply::Orders(orders, status) => push_orders(text, *orders, *status),
            Reply::Panel => push_panel(text, self.debugger.machine()),
            Reply::Words(span) => self.push_words(text, span, false),
            Reply::Show(span) => self.push_words(text, span, true),
            Reply::Printed => push_printed(self.alloc, text, self.debugger.machine().printed()),
            Reply::Dump => self.push_drum(text),
            Reply::Opened => Ok(()),
            Reply::List => self.push_list(text),
            Reply::Loaded(orders) => push_counted(text, b"loaded ", *orders),
            Reply::Rule(number) => push_counted(text, b"rule ", u64::from(*number)),
            Reply::Ran(ran) => push_ran(text, ran),
            Reply::Hit(orders, rule) => push_hit(text, *orders, *rule),
            Reply::Refused(refusal) => push_refusal(text, *refusal),
        }
    }
}

/// Appends how many keys were live and dead.
fn push_struck<A: Allocator>(text: &mut Vec<u8, A>, live: u64, dead: u64) -> Result<(), AllocError>
    ensures { OnOk result (text.new.items ≡ text.old.items ++ typed_text live dead) }
{
    push_pieces(
        text,
        &[
            Piece::Text(b"live "),
            Piece::Number(live),
            Piece::Text(b" dead "),
            Piece::Number(dead),
            Piece::Text(b"\n"),
        ],
    )
}

/// Appends how many orders were performed, and the status after them.
fn push_orders<A: Allocator>(
    text: &mut Vec<u8, A>,
    done: u64,
    status: Status,
) -> Result<(), AllocError>
    ensures { OnOk result (text.new.items ≡ text.old.items ++ orders_text done status) }
{
    push_pieces(
        text,
        &[
            Piece::Text(b"orders "),
            Piece::Number(done),
            Piece::Text(b" "),
            Piece::Text(status_text(status)),
            Piece::Text(b"\n"),
        ],
    )
}

/// Appends why a run ended.
fn push_reason<A: Allocator>(text: &mut Vec<u8, A>, reason: Reason) -> Result<(), AllocError>
    ensures { OnOk result (text.new.items ≡ text.old.items ++ reason_text reason) }
{
    match reason {
        Reason::Rest => text.extend_from_slice(b" rest\n"),
        Reason::Limit => text.extend_from_slice(b" limit\n"),
        Reason::Rule(number) => push_counted(text, b" rule ", u64::from(number)),
    }
}

/// Appends how many orders a run performed, and why it ended.
fn push_ran<A: Allocator>(text: &mut Vec<u8, A>, ran: &Ran) -> Result<(), AllocError>
    ensures { OnOk result (text.new.items ≡ text.old.items ++ ran_text ran.now) }
{
    push_pieces(text, &[Piece::Text(b"ran "), Piece::Number(ran.orders)])?;
    push_reason(text, ran.reason)
}

/// Appends how many orders back a hit lies, and the number of the rule.
fn push_hit<A: Allocator>(text: &mut Vec<u8, A>, orders: u64, rule: u8) -> Result<(), AllocError>
    ensures { OnOk result (text.new.items ≡ text.old.items ++ hit_text orders rule) }
{
    push_pieces(
        text,
        &[
            Piece::Text(b"back "),
            Piece::Number(orders),
            Piece::Text(b" rule "),
            Piece::Number(u64::from(rule)),
            Piece::Text(b"\n"),
        ],
    )
}
