//! The account of an order as a record.

ghost use Rattle.std.specs.Prelude.{◌≡◌, ◌++◌, ◌∷◌, [], IfSome, if◌then◌else◌, None, OnOk, Some, codes, is_some, length, option_map};
ghost use Rattle.std.specs.Option.{option_map_or};
ghost use Rattle.lgp_word.specs.Digits.{digits_of};
ghost use Rattle.lgp_text.specs.Pieces.{pieces_text};
ghost use Rattle.lgp_fields.specs.Plain.{Nothing, Number, Plain, Text};
ghost use Rattle.lgp_fields.specs.Printed.{record_in};
ghost use Rattle.lgp_fields.specs.Seen.{fields_seen, value_seen};
ghost use Rattle.lgp_data.specs.AccountData.{account_in, account_record, at_value, begun_fields, digits_and_number, order_value, origin_fields, over_value, paper_fields, put_at, put_by, some_count, status_value, stored_fields, stored_operand, stored_order};
ghost use Rattle.lgp_data.specs.ShowData.{sign_value};
ghost use Rattle.lgp_data.specs.Words.{labelled_place, whole_number};
ghost use Rattle.lgp_word.specs.Order.{sign_of};

use crate::paper_data::sign_value;
use crate::why_data::{changer_of, clock_of, lost_digits, lost_number, order_of, orders_ago};
use crate::words::{labelled_order, labelled_place, number_size};
use lgp_assembler::Name;
use lgp_fields::{Field, RecordForm, Value, push_joined};
use lgp_flexo::Code;
use lgp_history::{Changer, Origin, PastOrder};
use lgp_table::{Status, stores};
use lgp_text::{Piece, status_text};
use lgp_trace::{Account, Accounts, Operand};
use lgp_word::{Address, Word, decode, parts};
use std::alloc::{AllocError, Allocator};

/// Where the order was, if it was anywhere.
fn at_value(names: &[(Name, u16)], place: Option<Address>, status: Status) -> Value<'_>
    ensures { value_seen result ≡ at_value names.now place status }
{
    match (place, status) {
        (Some(place), _) => labelled_place(names, place),
        (None, Status::Executing) => Value::Text(b"register"),
        (None, _) => Value::Nothing,
    }
}

/// The order, if there is one.
fn order_value(names: &[(Name, u16)], order: Option<Word>) -> Value<'_>
    ensures { value_seen result ≡ order_value names.now order }
{
    match order {
        Some(order) => labelled_order(names, order),
        None => Value::Nothing,
    }
}

/// The status in which an activity without an order begins.
fn status_value(order: Option<Word>, status: Status) -> Value<'static>
    ensures { value_seen result ≡ status_value order status }
{
    match order {
        Some(_) => Value::Nothing,
        None => Value::Text(status_text(status)),
    }
}

/// What shows when the activity begins, and how long it takes.
#[tactic(auto, unfolding(crate::specs::AccountData::begun_fields))]
fn begun_fields<'a>(names: &'a [(Name, u16)], account: &Account) -> [Field<'a>; 10]
    ensures { fields_seen result ≡ begun_fields names.now account.now }
{
    let status = account.before.status;
    let phases = account.phases;
    [
        (b"clock", Value::Number(account.before.clock)),
        (b"at", at_value(names, account.place, status)),
        (b"order", order_value(names, account.order)),
        (b"status", status_value(account.order, status)),
        (b"find", Value::Number(phases.find)),
        (b"take", Value::Number(phases.take)),
        (b"seek", Value::Number(phases.seek)),
        (b"act", Value::Number(phases.act)),
        (b"before", Value::Digits(account.before.accumulator)),
        (b"after", Value::Digits(account.after.accumulator)),
    ]
}

/// What put the order there.
fn put_by<'a>(names: &'a [(Name, u16)], changer: &Option<Changer>) -> Value<'a>
    ensures { value_seen result ≡ put_by names.now changer.now }
{
    match changer {
        None => Value::Nothing,
        Some(Changer::Order(order)) => labelled_order(names, order.word),
        Some(Changer::Hand(_)) => Value::Text(b"hand"),
    }
}

/// Where that order was.
fn put_at<'a>(names: &'a [(Name, u16)], order: &Option<PastOrder>) -> Value<'a>
    ensures { value_seen result ≡ put_at names.now order.now }
{
    let Some(order) = order else {
        return Value::Nothing;
    };
    match order.place {
        Some(place) => labelled_place(names, place),
        None => Value::Text(b"register"),
    }
}

/// What put the order there, and what was there before.
#[tactic(auto, unfolding(crate::specs::AccountData::put_fields, crate::specs::AccountData::origin_fields))]
fn put_fields<'a>(
    names: &'a [(Name, u16)],
    origin: &Option<Origin>,
    pieces: &'a [Piece<'a>],
) -> [Field<'a>; 5]
    requires { IfSome origin.now (λ origin.
        pieces_text pieces.now ≡ digits_and_number origin.lost) }
    ensures { fields_seen result ≡ origin_fields names.now origin.now }
{
    let changer = &changer_of(origin);
    let order = order_of(changer);
    [
        (b"put-by", put_by(names, changer)),
        (b"put-at", put_at(names, &order)),
        (b"put-clock", clock_of(changer)),
        (b"put-ago", orders_ago(&order)),
        (b"put-over", over_value(names, origin, pieces)),
    ]
}

/// The minus of a word as a number, if it has one.
fn minus_text(bits: u32) -> &'static [u8]
    ensures { result.now ≡ (if sign_of bits then codes "-" else []) }
{
    if bits >= 1 << 31 { b"-" } else { b"" }
}

/// A word by its digits and as a number.
#[tactic(auto, unfolding(lgp_fields::specs::Printed::signed_text))]
fn word_pieces(word: Word) -> [Piece<'static>; 4]
    ensures { pieces_text result ≡ digits_and_number word }
{
    let bits = word.get();
    [
        Piece::Digits(bits),
        Piece::Text(b" = "),
        Piece::Text(minus_text(bits)),
        Piece::Number(number_size(bits)),
    ]
}

/// The same of a lost word; of none those of an empty one.
fn lost_pieces(origin: &Option<Origin>) -> [Piece<'static>; 4]
    ensures { IfSome origin.now (λ origin.
        pieces_text result ≡ digits_and_number origin.lost) }
{
    match origin {
        Some(origin) => word_pieces(origin.lost),
        None => word_pieces(Word::default()),
    }
}

/// A lost word as the order that it is, or else by its digits and as a number.
fn over_value<'a>(
    names: &'a [(Name, u16)],
    origin: &Option<Origin>,
    pieces: &'a [Piece<'a>],
) -> Value<'a>
    requires { IfSome origin.now (λ origin.
        pieces_text pieces.now ≡ digits_and_number origin.lost) }
    ensures { value_seen result ≡ option_map_or (over_value names.now)
        (option_map (λ origin. origin.lost) origin.now) Nothing }
{
    match origin {
        None => Value::Nothing,
        Some(origin) if decode(origin.lost).is_some() => labelled_order(names, origin.lost),
        Some(_) => Value::Pieces(pieces),
    }
}

/// The word of the drum that an order has stored.
fn stored_operand(account: &Account) -> Option<Operand>
    ensures { result ≡ stored_operand account.now.order account.now.operand }
{
    match account.order {
        Some(order) if stores(parts(order).1) => account.operand,
        _ => None,
    }
}

/// The word that an order found.
fn found_of(operand: &Option<Operand>) -> Option<Word>
    ensures { result ≡ option_map (λ word. word.found) operand.now }
{
    match operand {
        Some(operand) => Some(operand.found),
        None => None,
    }
}

/// The word that an order left.
fn left_of(operand: &Option<Operand>) -> Option<Word>
    ensures { result ≡ option_map (λ word. word.left) operand.now }
{
    match operand {
        Some(operand) => Some(operand.left),
        None => None,
    }
}

/// Where an order has stored.
fn stored_place<'a>(names: &'a [(Name, u16)], operand: &Option<Operand>) -> Value<'a>
    ensures { value_seen result
        ≡ option_map_or (λ word. labelled_place names.now word.address) operand.now Nothing }
{
    match operand {
        Some(operand) => labelled_place(names, operand.address),
        None => Value::Nothing,
    }
}

/// A word as the order that it is, if it is one, with its label.
fn stored_order<'a>(names: &'a [(Name, u16)], word: &Option<Word>) -> Value<'a>
    ensures { value_seen result ≡ option_map_or (stored_order names.now) word.now Nothing }
{
    match word {
        Some(word) if decode(*word).is_some() => labelled_order(names, *word),
        _ => Value::Nothing,
    }
}

/// The code that was printed.
fn printed_value(printed: &Option<Code>) -> Value<'static>
    ensures { value_seen result ≡ option_map_or Number printed.now Nothing }
{
    match printed {
        Some(code) => Value::Number(u64::from(code.number())),
        None => Value::Nothing,
    }
}

/// Its sign, if it has one.
fn printed_sign(printed: &Option<Code>) -> Value<'static>
    ensures { value_seen result ≡ option_map_or sign_value printed.now Nothing }
{
    match printed {
        Some(code) => sign_value(*code),
        None => Value::Nothing,
    }
}

/// A count, unless it is 0.
fn some_count(count: usize) -> Value<'static>
    ensures { value_seen result ≡ some_count count }
{
    if count == 0 {
        Value::Nothing
    } else {
        Value::Number(count as u64)
    }
}

/// What the activity has stored, printed and passed.
#[tactic(auto, unfolding(crate::specs::AccountData::stored_fields, crate::specs::AccountData::paper_fields))]
fn effect_fields<'a>(
    names: &'a [(Name, u16)],
    operand: &Option<Operand>,
    account: &Account,
) -> [Field<'a>; 10]
    ensures { fields_seen result
        ≡ stored_fields names.now operand.now ++ paper_fields account.now }
{
    let (found, left) = (found_of(operand), left_of(operand));
    [
        (b"stored", stored_place(names, operand)),
        (b"found", lost_digits(&found)),
        (b"found-order", stored_order(names, &found)),
        (b"found-number", lost_number(&found)),
        (b"left", lost_digits(&left)),
        (b"left-order", stored_order(names, &left)),
        (b"left-number", lost_number(&left)),
        (b"printed", printed_value(&account.printed)),
        (b"sign", printed_sign(&account.printed)),
        (b"passed", some_count(account.passed)),
    ]
}

/// Appends the parts of an account, with the word that was lost by its digits and as a number.
#[tactic(auto, unfolding(crate::specs::AccountData::account_record))]
fn push_parts<'a, A: Allocator>(
    text: &mut Vec<u8, A>,
    form: RecordForm,
    names: &'a [(Name, u16)],
    account: &Account,
    origin: &Option<Origin>,
    pieces: &'a [Piece<'a>],
) -> Result<(), AllocError>
    requires { IfSome origin.now (λ origin.
        pieces_text pieces.now ≡ digits_and_number origin.lost) }
    ensures { OnOk result (text.new.items ≡ text.old.items
        ++ record_in form (account_record names.now account.now origin.now)) }
{
    let begun = begun_fields(names, account);
    let put = put_fields(names, origin, pieces);
    let effect = effect_fields(names, &stored_operand(account), account);
    push_joined(text, form, &begun, &put, &effect)
}

/// Appends the account of an order, which came from there, as a record in a form.
#[tactic(auto, unfolding(crate::specs::AccountData::account_in))]
pub fn push_account_data<A: Allocator>(
    text: &mut Vec<u8, A>,
    form: RecordForm,
    names: &[(Name, u16)],
    account: &Account,
    origin: &Option<Origin>,
) -> Result<(), AllocError>
    ensures { OnOk result (text.new.items
        ≡ text.old.items ++ account_in form names.now account.now origin.now) }
{
    let pieces = lost_pieces(origin);
    push_parts(text, form, names, account, origin, &pieces)
}

/// Orders as records in a form, with names as labels of addresses.
#[derive(Clone, Copy)]
pub struct AccountRecords<'a> {
    pub form: RecordForm,
    pub names: &'a [(Name, u16)],
}

impl Accounts for AccountRecords<'_> {
    ghost told = { λ records. account_in records.form records.names.now };

    fn push_order<A: Allocator>(
        &self,
        text: &mut Vec<u8, A>,
        account: &Account,
        origin: Option<Origin>,
    ) -> Result<(), AllocError> {
        push_account_data(text, self.form, self.names, account, &origin)
    }
}
