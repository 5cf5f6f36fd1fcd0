//! The lines of an account.

ghost use Rattle.std.specs.Prelude.{◌≡◌, ◌++◌, ◌^◌, ◌<◌, ◌&&◌, ℕ, List, OnOk, []};
ghost use Rattle.lgp_word.specs.Order.{takes_minus};
ghost use Rattle.std.specs.Option.{option_map_or};
ghost use Rattle.lgp_text.specs.PanelWords.{status_text};
ghost use Rattle.lgp_trace.specs.AccountLines.{account_details, account_line, account_text, accumulator_text, heading_text, minus_text, number_text, order_after, order_columns, passed_lines, performed_text, phases_text, place_text, printed_line, reference_text, register_line, result_columns, stored_line, stored_lines, word_text};
ghost use Rattle.lgp_trace.specs.Columns.{left_aligned};
ghost use Rattle.lgp_trace.specs.Phases.{all_phases};
ghost use Rattle.lgp_trace.specs.PhrasesInside.{phrase_text};
ghost use Rattle.lgp_flexo.specs.Code.{sign_at};

use crate::account::{Account, Operand};
use crate::columns::{push_blanks_after, push_right, push_spaced};
use crate::labels::{Labels, NoLabels};
use crate::phases::Phases;
use crate::phrases::{Phrase, push_column, push_phrases};
use lgp_flexo::{Code, sign_of};
use lgp_table::{Status, stores};
use lgp_text::{Piece, push_decimal, push_pieces, status_text};
use lgp_word::{Address, Op, Word, decode, parts, write_bits, write_digits};
use std::alloc::{AllocError, Allocator};

/// Appends the line above accounts.
#[tactic(auto, unfolding(crate::specs::AccountLines::heading_text))]
pub fn push_heading<A: Allocator>(text: &mut Vec<u8, A>) -> Result<(), AllocError>
    ensures { OnOk result (text.new.items ≡ text.old.items ++ heading_text) }
{
    text.extend_from_slice(
        b"  clock  at           order           find take seek  act   sum  accumulator\n",
    )
}

/// Appends an address with its label.
#[tactic(auto, unfolding(crate::specs::AccountLines::place_text))]
pub fn push_place<L: Labels, A: Allocator>(
    text: &mut Vec<u8, A>,
    place: Address,
    labels: &L,
) -> Result<(), AllocError>
    ensures { OnOk result (text.new.items
        ≡ text.old.items ++ place_text (L.label labels.now) place) }
{
    text.extend_from_slice(&place.print())?;
    labels.push_label(text, place)
}

/// Appends an address with its label at the left of a column.
#[tactic(auto, using(crate::proofs::TextLemmas::columns))]
pub fn push_place_column<L: Labels, A: Allocator>(
    text: &mut Vec<u8, A>,
    width: u64,
    place: Address,
    labels: &L,
) -> Result<(), AllocError>
    ensures { OnOk result (text.new.items ≡ text.old.items
        ++ left_aligned width (place_text (L.label labels.now) place)) }
{
    let begins = text.len();
    push_place(text, place, labels)?;
    push_blanks_after(text, width, begins)
}

/// Appends a label where an order refers to a word.
fn push_reference<L: Labels, A: Allocator>(
    text: &mut Vec<u8, A>,
    op: Op,
    address: Address,
    labels: &L,
) -> Result<(), AllocError>
    ensures { OnOk result (text.new.items
        ≡ text.old.items ++ reference_text (L.label labels.now) op address) }
{
    if matches!(op, Op::Z | Op::I | Op::P) {
        return Ok(());
    }
    labels.push_label(text, address)
}

/// The minus of an order that is performed, if it has one.
fn minus_text(op: Op, minus: bool) -> &'static [u8]
    ensures { result.now ≡ minus_text (takes_minus op && minus) }
{
    if minus && matches!(op, Op::T) {
        b"-"
    } else {
        b""
    }
}

/// Appends a word as the order that is performed.
#[tactic(auto, unfolding(crate::specs::AccountLines::performed_text))]
pub(crate) fn push_performed<L: Labels, A: Allocator>(
    text: &mut Vec<u8, A>,
    word: Word,
    labels: &L,
) -> Result<(), AllocError>
    ensures { OnOk result (text.new.items
        ≡ text.old.items ++ performed_text (L.label labels.now) word) }
{
    let (minus, op, address) = parts(word);
    let [a, b, c, d] = address.print();
    text.extend_from_slice(minus_text(op, minus))?;
    text.extend_from_slice(&[op.letter(), b' ', a, b, c, d])?;
    push_reference(text, op, address, labels)
}

/// Appends a word as a whole number, with its point after place 30.
pub fn push_number<A: Allocator>(text: &mut Vec<u8, A>, word: Word) -> Result<(), AllocError>
    ensures { OnOk result (text.new.items ≡ text.old.items ++ number_text word) }
{
    let bits = u64::from(word.get());
    if bits >= 1 << 31 {
        text.push(b'-')?;
        push_decimal(text, ((1 << 32) - bits) / 2)
    } else {
        push_decimal(text, bits / 2)
    }
}

/// Appends an order after the digits of the word that is one.
fn push_order_after<L: Labels, A: Allocator>(
    text: &mut Vec<u8, A>,
    word: Word,
    labels: &L,
) -> Result<(), AllocError>
    ensures { OnOk result (text.new.items
        ≡ text.old.items ++ order_after (L.label labels.now) word) }
{
    if decode(word).is_none() {
        return Ok(());
    }
    text.push(b' ')?;
    push_performed(text, word, labels)
}

/// Appends a word by its digits, as the order that it is, if it is one, and as a number.
#[tactic(auto, unfolding(crate::specs::AccountLines::word_text))]
pub(crate) fn push_word<L: Labels, A: Allocator>(
    text: &mut Vec<u8, A>,
    word: Word,
    labels: &L,
) -> Result<(), AllocError>
    ensures { OnOk result (text.new.items
        ≡ text.old.items ++ word_text (L.label labels.now) word) }
{
    text.extend_from_slice(&write_digits(word))?;
    push_order_after(text, word, labels)?;
    text.extend_from_slice(b" = ")?;
    push_number(text, word)
}

/// Where an order is, if it is on the drum.
#[tactic(auto, unfolding(crate::specs::PhrasesInside::phrase_text))]
fn place_shown(place: Option<Address>) -> Phrase<'static>
    ensures { (label : ℕ → List ℕ) → phrase_text label result
        ≡ option_map_or (place_text label) place [] }
{
    match place {
        Some(place) => Phrase::Place(place),
        None => Phrase::Text(b""),
    }
}

/// The order; where there is none, the status in which the activity begins.
#[tactic(auto, unfolding(crate::specs::PhrasesInside::phrase_text))]
fn order_shown(order: Option<Word>, status: Status) -> Phrase<'static>
    ensures { (label : ℕ → List ℕ) → phrase_text label result
        ≡ option_map_or (performed_text label) order (status_text status) }
{
    match order {
        Some(order) => Phrase::Order(order),
        None => Phrase::Text(status_text(status)),
    }
}

/// Appends the word times of the phases and their sum.
#[tactic(auto, unfolding(crate::specs::AccountLines::phases_text))]
fn push_phases<A: Allocator>(text: &mut Vec<u8, A>, phases: Phases) -> Result<(), AllocError>
    requires { all_phases phases < 2 ^ 64 }
    ensures { OnOk result (text.new.items ≡ text.old.items ++ phases_text phases) }
{
    let sum = phases.find + phases.take + phases.seek + phases.act;
    push_spaced(text, 5, phases.find)?;
    push_spaced(text, 4, phases.take)?;
    push_spaced(text, 4, phases.seek)?;
    push_spaced(text, 4, phases.act)?;
    push_spaced(text, 5, sum)
}

/// Appends the accumulator, or before and after it has changed.
#[tactic(auto, unfolding(crate::specs::AccountLines::accumulator_text))]
fn push_accumulator<A: Allocator>(
    text: &mut Vec<u8, A>,
    before: u32,
    after: u32,
) -> Result<(), AllocError>
    ensures { OnOk result (text.new.items ≡ text.old.items ++ accumulator_text before after) }
{
    text.extend_from_slice(&write_bits(before))?;
    if before == after {
        return Ok(());
    }
    text.extend_from_slice(b" -> ")?;
    text.extend_from_slice(&write_bits(after))
}

/// Appends where the order is, and the order.
#[tactic(auto, unfolding(crate::specs::AccountLines::order_columns))]
fn push_order_columns<L: Labels, A: Allocator>(
    text: &mut Vec<u8, A>,
    account: &Account,
    labels: &L,
) -> Result<(), AllocError>
    ensures { OnOk result (text.new.items
        ≡ text.old.items ++ order_columns (L.label labels.now) account.now) }
{
    let place = place_shown(account.place);
    let order = order_shown(account.order, account.before.status);
    push_column(text, 12, &place, labels)?;
    text.push(b' ')?;
    push_column(text, 14, &order, labels)
}

/// Appends how long the phases took, and the accumulator.
#[tactic(auto, unfolding(crate::specs::AccountLines::result_columns))]
fn push_result_columns<A: Allocator>(
    text: &mut Vec<u8, A>,
    account: &Account,
) -> Result<(), AllocError>
    requires { all_phases account.now.phases < 2 ^ 64 }
    ensures { OnOk result (text.new.items ≡ text.old.items ++ result_columns account.now) }
{
    let before = account.before.accumulator;
    let after = account.after.accumulator;
    push_phases(text, account.phases)?;
    text.extend_from_slice(b"  ")?;
    push_accumulator(text, before, after)?;
    Ok(text.push(b'\n')?)
}

/// Appends the line with columns.
#[tactic(auto, unfolding(crate::specs::AccountLines::account_line))]
pub fn push_account_line<L: Labels, A: Allocator>(
    text: &mut Vec<u8, A>,
    account: &Account,
    labels: &L,
) -> Result<(), AllocError>
    requires { all_phases account.now.phases < 2 ^ 64 }
    ensures { OnOk result (text.new.items
        ≡ text.old.items ++ account_line (L.label labels.now) account.now) }
{
    push_right(text, 7, account.before.clock)?;
    text.extend_from_slice(b"  ")?;
    push_order_columns(text, account, labels)?;
    push_result_columns(text, account)
}

/// That the order was in the register, if it was.
fn register_line(status: Status) -> &'static [u8]
    ensures { result.now ≡ register_line status }
{
    match status {
        Status::Executing => b"        the order stood in the instruction register\n",
        _ => b"",
    }
}

/// Appends what an order has stored: the word that was there and the one that took its place.
#[tactic(auto, unfolding(crate::specs::AccountLines::stored_line, crate::specs::AccountLines::change_text, crate::specs::PhrasesInside::phrase_text))]
fn push_stored<L: Labels, A: Allocator>(
    text: &mut Vec<u8, A>,
    operand: Operand,
    labels: &L,
) -> Result<(), AllocError>
    ensures { OnOk result (text.new.items
        ≡ text.old.items ++ stored_line (L.label labels.now) operand) }
{
    push_phrases(
        text,
        &[
            Phrase::Text(b"        "),
            Phrase::Place(operand.address),
            Phrase::Text(b": "),
            Phrase::Word(operand.found),
            Phrase::Text(b" -> "),
            Phrase::Word(operand.left),
            Phrase::Text(b"\n"),
        ],
        labels,
    )
}

/// Appends what the activity has stored, if it has.
fn push_stored_lines<L: Labels, A: Allocator>(
    text: &mut Vec<u8, A>,
    order: Option<Word>,
    operand: Option<Operand>,
    labels: &L,
) -> Result<(), AllocError>
    ensures { OnOk result (text.new.items
        ≡ text.old.items ++ stored_lines (L.label labels.now) order operand) }
{
    let (Some(order), Some(operand)) = (order, operand) else {
        return Ok(());
    };
    if !stores(parts(order).1) {
        return Ok(());
    }
    push_stored(text, operand, labels)
}

/// The sign of a code as its byte.
#[tactic(auto, using(crate::proofs::Signs::sign_short))]
pub(crate) fn sign_byte(code: Code) -> Option<u8>
    ensures { result ≡ sign_at code }
{
    let _number = code.number();
    let sign = sign_of(code)?;
    Some(sign as u32 as u8)
}

/// Appends a code that was printed.
#[tactic(auto, unfolding(crate::specs::AccountLines::printed_line, crate::specs::AccountLines::sign_text, crate::specs::PhrasesInside::phrase_text))]
fn push_printed_line<A: Allocator>(text: &mut Vec<u8, A>, code: Code) -> Result<(), AllocError>
    ensures { OnOk result (text.new.items ≡ text.old.items ++ printed_line code) }
{
    let number = u64::from(code.number());
    match sign_byte(code) {
        Some(sign) => push_phrases(
            text,
            &[
                Phrase::Text(b"        printed code "),
                Phrase::Number(number),
                Phrase::Text(b", sign \""),
                Phrase::Byte(sign),
                Phrase::Text(b"\"\n"),
            ],
            &NoLabels,
        ),
        None => push_phrases(
            text,
            &[
                Phrase::Text(b"        printed code "),
                Phrase::Number(number),
                Phrase::Text(b"\n"),
            ],
            &NoLabels,
        ),
    }
}

/// Appends what the activity has printed, if it has.
fn push_printed<A: Allocator>(
    text: &mut Vec<u8, A>,
    printed: Option<Code>,
) -> Result<(), AllocError>
    ensures { OnOk result
        (text.new.items ≡ text.old.items ++ option_map_or printed_line printed []) }
{
    match printed {
        Some(code) => push_printed_line(text, code),
        None => Ok(()),
    }
}

/// Appends how many codes have passed, if some have.
fn push_passed<A: Allocator>(text: &mut Vec<u8, A>, count: usize) -> Result<(), AllocError>
    ensures { OnOk result (text.new.items ≡ text.old.items ++ passed_lines count) }
{
    if count == 0 {
        return Ok(());
    }
    push_pieces(
        text,
        &[
            Piece::Text(b"        codes passed: "),
            Piece::Number(count as u64),
            Piece::Text(b"\n"),
        ],
    )
}

/// Appends the lines below the one with columns.
#[tactic(auto, unfolding(crate::specs::AccountLines::account_details))]
pub fn push_account_details<L: Labels, A: Allocator>(
    text: &mut Vec<u8, A>,
    account: &Account,
    labels: &L,
) -> Result<(), AllocError>
    ensures { OnOk result (text.new.items
        ≡ text.old.items ++ account_details (L.label labels.now) account.now) }
{
    text.extend_from_slice(register_line(account.before.status))?;
    push_stored_lines(text, account.order, account.operand, labels)?;
    push_printed(text, account.printed)?;
    push_passed(text, account.passed)
}

/// Appends all lines of an account.
pub fn push_account<L: Labels, A: Allocator>(
    text: &mut Vec<u8, A>,
    account: &Account,
    labels: &L,
) -> Result<(), AllocError>
    requires { all_phases account.now.phases < 2 ^ 64 }
    ensures { OnOk result (text.new.items
        ≡ text.old.items ++ account_text (L.label labels.now) account.now) }
{
    push_account_line(text, account, labels)?;
    push_account_details(text, account, labels)
}
