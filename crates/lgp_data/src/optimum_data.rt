//! Where words would have cost less, as records.

ghost use Rattle.std.specs.Prelude.{◌≡◌, ◌++◌, ℕ, OnOk, false, sum, true};
ghost use Rattle.lgp_table.specs.State.{State};
ghost use Rattle.lgp_optimum.specs.Gains.{gains_of, moves_in, moves_of};
ghost use Rattle.lgp_optimum.specs.OptimumKept.{IsOptimumOf};
ghost use Rattle.lgp_fields.specs.Printed.{record_in};
ghost use Rattle.lgp_fields.specs.Seen.{fields_seen};
ghost use Rattle.lgp_data.specs.OptimumData.{freedom_sentence, freedom_word, gain_record, gains_in, numbers_record, optimum_in, section_in, totals_record, word_moves_record};

use crate::words::name_of;
use lgp_assembler::Name;
use lgp_fields::{Field, RecordForm, Value, push_record};
use lgp_optimum::{Best, Freedom, Gain, Optimum};
use lgp_word::Address;
use std::alloc::{AllocError, Allocator};

/// How many words of a freedom are shown.
const SHOWN_WORDS: u64 = 10;

/// Whether a word may be moved, in a word.
fn freedom_word(free: Freedom) -> &'static [u8]
    ensures { result.now ≡ freedom_word free }
{
    match free {
        Freedom::Free => b"free",
        Freedom::Unnamed => b"unnamed",
        Freedom::Performed => b"performed",
        Freedom::NamedByChanged => b"changed",
    }
}

/// The same in a sentence.
fn freedom_sentence(free: Freedom) -> &'static [u8]
    ensures { result.now ≡ freedom_sentence free }
{
    match free {
        Freedom::Free => b"it may be moved",
        Freedom::Unnamed =>
            b"no order waited for it or stood there, so its sector makes no difference",
        Freedom::Performed => b"it should not be moved, because it was performed as an order",
        Freedom::NamedByChanged => {
            b"it should not be moved, because a changed order or one only in the register named it"
        }
    }
}

/// Appends the orders, their word times, and what all words that may be moved save together.
fn push_totals<A: Allocator, B: Allocator>(
    text: &mut Vec<u8, A>,
    form: RecordForm,
    orders: u64,
    optimum: &Optimum<B>,
) -> Result<(), AllocError>
    ensures { OnOk result (text.new.items ≡ text.old.items
        ++ record_in form (totals_record orders optimum.now.took
        (sum (gains_of (moves_in optimum.now) Freedom.Free)))) }
{
    let together = optimum.together(Freedom::Free);
    let fields: [Field; 3] = [
        (b"orders", Value::Number(orders)),
        (b"times", Value::Number(optimum.took())),
        (b"together", Value::Wide(&together)),
    ];
    push_record(text, form, &fields)
}

/// A word with its sector, its best one, and what it saves there.
fn gain_fields<'a>(names: &'a [(Name, u16)], free: Freedom, gain: &Gain) -> [Field<'a>; 6]
    ensures { fields_seen result ≡ gain_record names.now free gain.now }
{
    [
        (b"word", Value::Place(gain.word)),
        (b"label", name_of(names, gain.word.number())),
        (b"sector", Value::Number(u64::from(gain.word.sector()))),
        (b"best", Value::Number(u64::from(gain.best.sector))),
        (b"saved", Value::Number(gain.best.saved)),
        (b"freedom", Value::Text(freedom_word(free))),
    ]
}

/// Appends the records of words of a freedom.
#[tactic(auto, unfolding(crate::specs::OptimumData::gains_in))]
fn push_gains<A: Allocator>(
    text: &mut Vec<u8, A>,
    form: RecordForm,
    names: &[(Name, u16)],
    free: Freedom,
    gains: &[Gain],
) -> Result<(), AllocError>
    ensures { OnOk result (text.new.items
        ≡ text.old.items ++ gains_in form names.now free gains.now) }
{
    for gain in gains {
        push_record(text, form, &gain_fields(names, free, gain))?;
    }
    Ok(())
}

/// Appends the ten words of a freedom with most to gain.
#[tactic(auto, unfolding(crate::specs::OptimumData::section_in))]
fn push_section<A: Allocator + Copy, B: Allocator>(
    alloc: A,
    text: &mut Vec<u8, A>,
    form: RecordForm,
    names: &[(Name, u16)],
    optimum: &Optimum<B>,
    free: Freedom,
) -> Result<(), AllocError>
    ensures { OnOk result (text.new.items ≡ text.old.items
        ++ section_in form names.now (moves_in optimum.now) free) }
{
    let words = optimum.ranking(alloc, free, SHOWN_WORDS)?;
    push_gains(text, form, names, free, &words)
}

/// Appends what the words have to gain by a given number of orders.
#[tactic(auto, unfolding(crate::specs::OptimumData::optimum_in))]
fn push_moves<A: Allocator + Copy, B: Allocator>(
    alloc: A,
    text: &mut Vec<u8, A>,
    form: RecordForm,
    names: &[(Name, u16)],
    orders: u64,
    optimum: &Optimum<B>,
) -> Result<(), AllocError>
    ensures { OnOk result (text.new.items ≡ text.old.items
        ++ optimum_in form names.now orders (moves_in optimum.now)) }
{
    push_totals(text, form, orders, optimum)?;
    push_section(alloc, text, form, names, optimum, Freedom::Free)?;
    push_section(alloc, text, form, names, optimum, Freedom::Performed)?;
    push_section(alloc, text, form, names, optimum, Freedom::NamedByChanged)
}

/// Appends what the words have to gain by a given number of orders as records in a form: the orders, the ten words with most that may be moved,
/// and those with most that may not.
pub fn push_optimum_data<A: Allocator + Copy, B: Allocator>(
    alloc: A,
    text: &mut Vec<u8, A>,
    form: RecordForm,
    names: &[(Name, u16)],
    orders: u64,
    optimum: &Optimum<B>,
) -> Result<(), AllocError>
    ensures exact { OnOk result (text.new.items ≡ text.old.items
        ++ optimum_in form names.now orders (moves_in optimum.now)) }
    ensures of_run { (s : State) → (count : ℕ) → IsOptimumOf optimum.now s count
        → OnOk result (text.new.items ≡ text.old.items
        ++ optimum_in form names.now orders (moves_of s count)) }
{
    push_moves(alloc, text, form, names, orders, optimum)
}

/// What a given number of orders would have taken with a word at each sector.
fn numbers_fields<'a>(
    names: &'a [(Name, u16)],
    orders: u64,
    took: u64,
    word: Address,
    free: Freedom,
    best: &Best,
    times: &'a [u128; 64],
) -> [Field<'a>; 10]
    ensures { fields_seen result
        ≡ numbers_record names.now orders took word free best.now times.now }
{
    [
        (b"orders", Value::Number(orders)),
        (b"times", Value::Number(took)),
        (b"word", Value::Place(word)),
        (b"label", name_of(names, word.number())),
        (b"sector", Value::Number(u64::from(word.sector()))),
        (b"best", Value::Number(u64::from(best.sector))),
        (b"saved", Value::Number(best.saved)),
        (b"freedom", Value::Text(freedom_word(free))),
        (b"freedom-sentence", Value::Text(freedom_sentence(free))),
        (b"numbers", Value::WideNumbers(times)),
    ]
}

/// Appends what a word has to gain by a given number of orders.
#[tactic(auto, unfolding(crate::specs::OptimumData::word_moves_record))]
fn push_word_moves<A: Allocator, B: Allocator>(
    text: &mut Vec<u8, A>,
    form: RecordForm,
    names: &[(Name, u16)],
    orders: u64,
    optimum: &Optimum<B>,
    word: Address,
) -> Result<(), AllocError>
    ensures { OnOk result (text.new.items ≡ text.old.items
        ++ record_in form (word_moves_record names.now orders (moves_in optimum.now) word)) }
{
    let times = optimum.at(word);
    let (free, best) = (optimum.freedom(word), optimum.best(word));
    let fields = numbers_fields(names, orders, optimum.took(), word, free, &best, &times);
    push_record(text, form, &fields)
}

/// Appends what a given number of orders would have taken with a word at each sector of its track, and whether it may be moved, as a record in
/// a form.
pub fn push_word_optimum_data<A: Allocator, B: Allocator>(
    text: &mut Vec<u8, A>,
    form: RecordForm,
    names: &[(Name, u16)],
    orders: u64,
    optimum: &Optimum<B>,
    word: Address,
) -> Result<(), AllocError>
    ensures exact { OnOk result (text.new.items ≡ text.old.items
        ++ record_in form (word_moves_record names.now orders (moves_in optimum.now) word)) }
    ensures of_run { (s : State) → (count : ℕ) → IsOptimumOf optimum.now s count
        → OnOk result (text.new.items ≡ text.old.items
        ++ record_in form (word_moves_record names.now orders (moves_of s count) word)) }
{
    push_word_moves(text, form, names, orders, optimum, word)
}
