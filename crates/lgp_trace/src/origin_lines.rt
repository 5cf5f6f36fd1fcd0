//! Where words came from, in words.

ghost use Rattle.std.specs.Prelude.{◌≡◌, ◌++◌, ◌^◌, ◌<◌, ◌==◌, ℕ, List, OnOk, codes, if◌then◌else◌};
ghost use Rattle.lgp_debugger.specs.Debugging.{order_origin};
ghost use Rattle.lgp_trace.specs.OriginLines.{changer_text, lost_text, origin_lines, origin_text, past_order_text, reason_text, stood_text, this_order_was, reported_account, why_line, why_text};
ghost use Rattle.lgp_trace.specs.Phases.{all_phases};
ghost use Rattle.lgp_trace.specs.PhrasesInside.{phrase_text};

use crate::account::Account;
use crate::account_lines::{push_account_details, push_account_line, push_number, push_performed};
use crate::labels::Labels;
use crate::phrases::{Phrase, push_phrases};
use lgp_debugger::Debugger;
use lgp_history::{Changer, Origin, Origins, PastOrder};
use lgp_table::Status;
use lgp_text::{Piece, push_pieces};
use lgp_word::{Address, Word, decode, write_digits};
use std::alloc::{AllocError, Allocator};

/// Where the order came from that a debugger performs next; `None` where it is as it was when the kept steps begin, and where it
/// is in the instruction register alone.
pub fn order_origin<H: Origins<A>, A: Allocator>(debugger: &Debugger<H, A>) -> Option<Origin>
    ensures { result ≡ order_origin debugger.now }
{
    let look = debugger.look();
    match look.status {
        Status::Going => debugger.origin(look.counter),
        _ => None,
    }
}

/// Where an order was: the words, and the place after them.
#[tactic(auto, unfolding(crate::specs::PhrasesInside::phrase_text))]
fn stood_at(place: Option<Address>) -> (&'static [u8], Phrase<'static>)
    ensures { (label : ℕ → List ℕ) → result.0.now ++ phrase_text label result.1
        ≡ stood_text label place }
{
    match place {
        Some(place) => (b" at ", Phrase::Place(place)),
        None => (b" in the instruction register", Phrase::Text(b"")),
    }
}

/// What comes after how many orders ago.
fn ago_text(orders: u64) -> &'static [u8]
    ensures { result.now
        ≡ (if orders == 1 then codes " order ago" else codes " orders ago") }
{
    if orders == 1 {
        b" order ago"
    } else {
        b" orders ago"
    }
}

/// Appends an order, where it was and when.
#[tactic(auto, unfolding(crate::specs::OriginLines::past_order_text, crate::specs::PhrasesInside::phrase_text))]
fn push_past_order<L: Labels, A: Allocator>(
    text: &mut Vec<u8, A>,
    order: PastOrder,
    labels: &L,
) -> Result<(), AllocError>
    ensures { OnOk result (text.new.items
        ≡ text.old.items ++ past_order_text (L.label labels.now) order) }
{
    let (stood, place) = stood_at(order.place);
    let ago = ago_text(order.orders_back);
    push_phrases(
        text,
        &[
            Phrase::Order(order.word),
            Phrase::Text(stood),
            place,
            Phrase::Text(b", clock "),
            Phrase::Number(order.clock),
            Phrase::Text(b", "),
            Phrase::Number(order.orders_back),
            Phrase::Text(ago),
        ],
        labels,
    )
}

/// Appends what changed a word, and when.
#[tactic(auto, unfolding(crate::specs::OriginLines::changer_text))]
fn push_changer<L: Labels, A: Allocator>(
    text: &mut Vec<u8, A>,
    changer: Changer,
    labels: &L,
) -> Result<(), AllocError>
    ensures { OnOk result (text.new.items
        ≡ text.old.items ++ changer_text (L.label labels.now) changer) }
{
    match changer {
        Changer::Order(order) => push_past_order(text, order, labels),
        Changer::Hand(clock) => {
            push_pieces(text, &[Piece::Text(b"hand, clock "), Piece::Number(clock)])
        }
    }
}

/// Appends a lost word.
#[tactic(auto, unfolding(crate::specs::OriginLines::lost_text))]
pub(crate) fn push_lost<L: Labels, A: Allocator>(
    text: &mut Vec<u8, A>,
    word: Word,
    labels: &L,
) -> Result<(), AllocError>
    ensures { OnOk result (text.new.items
        ≡ text.old.items ++ lost_text (L.label labels.now) word) }
{
    if decode(word).is_some() {
        return push_performed(text, word, labels);
    }
    text.extend_from_slice(&write_digits(word))?;
    text.extend_from_slice(b" = ")?;
    push_number(text, word)
}

/// Appends the words before what changed a word.
fn push_put_there<A: Allocator>(text: &mut Vec<u8, A>) -> Result<(), AllocError>
    ensures { OnOk result (text.new.items ≡ text.old.items ++ codes "put there by ") }
{
    text.extend_from_slice(b"put there by ")
}

/// Appends what put a word where it is, and what was there before.
#[tactic(auto, unfolding(crate::specs::OriginLines::origin_text, crate::specs::PhrasesInside::phrase_text))]
fn push_origin<L: Labels, A: Allocator>(
    text: &mut Vec<u8, A>,
    origin: Origin,
    labels: &L,
) -> Result<(), AllocError>
    ensures { OnOk result (text.new.items
        ≡ text.old.items ++ origin_text (L.label labels.now) origin) }
{
    push_put_there(text)?;
    push_changer(text, origin.changer, labels)?;
    push_phrases(
        text,
        &[
            Phrase::Text(b"; before it was "),
            Phrase::Lost(origin.lost),
            Phrase::Text(b"\n"),
        ],
        labels,
    )
}

/// Appends the words before an order's origin.
#[tactic(auto, unfolding(crate::specs::OriginLines::this_order_was))]
fn push_this_order_was<A: Allocator>(text: &mut Vec<u8, A>) -> Result<(), AllocError>
    ensures { OnOk result (text.new.items ≡ text.old.items ++ this_order_was) }
{
    text.extend_from_slice(b"        this order was ")
}

/// Appends the line below an account that says where its order came from.
#[tactic(auto, unfolding(crate::specs::OriginLines::origin_lines))]
pub fn push_origin_lines<L: Labels, A: Allocator>(
    text: &mut Vec<u8, A>,
    origin: Option<Origin>,
    labels: &L,
) -> Result<(), AllocError>
    ensures { OnOk result (text.new.items
        ≡ text.old.items ++ origin_lines (L.label labels.now) origin) }
{
    let Some(origin) = origin else {
        return Ok(());
    };
    push_this_order_was(text)?;
    push_origin(text, origin, labels)
}

/// Appends all lines of an account whose order came from there.
#[tactic(auto, unfolding(crate::specs::OriginLines::reported_account))]
pub fn push_reported<L: Labels, A: Allocator>(
    text: &mut Vec<u8, A>,
    account: &Account,
    origin: Option<Origin>,
    labels: &L,
) -> Result<(), AllocError>
    requires { all_phases account.now.phases < 2 ^ 64 }
    ensures { OnOk result (text.new.items
        ≡ text.old.items ++ reported_account (L.label labels.now) account.now origin) }
{
    push_account_line(text, account, labels)?;
    push_origin_lines(text, origin, labels)?;
    push_account_details(text, account, labels)
}

/// Appends where a word came from, if a kept step changed it.
#[tactic(auto, unfolding(crate::specs::OriginLines::reason_text))]
fn push_reason<L: Labels, A: Allocator>(
    text: &mut Vec<u8, A>,
    origin: Option<Origin>,
    labels: &L,
) -> Result<(), AllocError>
    ensures { OnOk result (text.new.items
        ≡ text.old.items ++ reason_text (L.label labels.now) origin) }
{
    match origin {
        Some(origin) => push_origin(text, origin, labels),
        None => text.extend_from_slice(b"changed by no kept step\n"),
    }
}

/// Appends a line that says what is at an address, and where it came from.
#[tactic(auto, unfolding(crate::specs::OriginLines::why_line, crate::specs::PhrasesInside::phrase_text))]
pub fn push_why_line<L: Labels, A: Allocator>(
    text: &mut Vec<u8, A>,
    address: Address,
    word: Word,
    origin: Option<Origin>,
    labels: &L,
) -> Result<(), AllocError>
    ensures { OnOk result (text.new.items
        ≡ text.old.items ++ why_line (L.label labels.now) address word origin) }
{
    push_phrases(
        text,
        &[
            Phrase::Place(address),
            Phrase::Text(b": "),
            Phrase::Word(word),
            Phrase::Text(b", "),
        ],
        labels,
    )?;
    push_reason(text, origin, labels)
}

/// Appends that line about a word of a debugger's drum.
pub fn push_why<H: Origins<A>, L: Labels, A: Allocator, B: Allocator>(
    debugger: &Debugger<H, A>,
    text: &mut Vec<u8, B>,
    address: Address,
    labels: &L,
) -> Result<(), AllocError>
    ensures { OnOk result (text.new.items
        ≡ text.old.items ++ why_text (L.label labels.now) debugger.now address) }
{
    let word = debugger.machine().word(address);
    push_why_line(text, address, word, debugger.origin(address), labels)
}
