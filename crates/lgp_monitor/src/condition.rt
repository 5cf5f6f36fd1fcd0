//! The conditions that a line names, and how often one is waited for.

ghost use Rattle.std.specs.Prelude.{◌≡◌};
ghost use Rattle.lgp_monitor.specs.Entry.{change_at, condition_at, condition_of, counted_by, is_counted, is_times, until_at};

use crate::value::{bound_at, first_address, value_at};
use crate::verb::Verb;
use crate::wrong::{LineWord, Wrong};
use lgp_assembler::Name;
use lgp_command::lone_count;
use lgp_stream::{Split, has_no_word, split_word};
use lgp_when::{Condition, Until};
use lgp_word::Address;

/// The condition on the machine at an address, by what comes after the address.
fn condition_of(names: &[(Name, u16)], place: Address, value: &[u8]) -> Option<Condition>
    ensures { result ≡ condition_of names.now place value.now }
{
    if has_no_word(value) {
        return Some(Condition::At(place));
    }
    let first = split_word(value);
    if first.word == b"<".as_slice() {
        let bound = bound_at(names, place, first.rest)?;
        return Some(Condition::Below(place, bound));
    }
    let word = value_at(names, place, value)?;
    Some(Condition::Equal(place, word))
}

/// Whether operands are a name and a number, or what is written in its place.
fn is_counted(name: &[u8], operands: &[u8]) -> bool
    ensures { result ≡ is_counted name.now operands.now }
{
    let Split { word, rest } = split_word(operands);
    word == name && !has_no_word(rest)
}

/// The number after the name of a condition.
fn counted_by(verb: Verb, operands: &[u8]) -> Result<u64, Wrong>
    ensures { result ≡ counted_by verb operands.now }
{
    match lone_count(split_word(operands).rest) {
        Some(count) => Ok(count.get()),
        None => Err(Wrong::Operands(verb)),
    }
}

/// The change of the word at an address.
fn change_at(
    names: &[(Name, u16)],
    counter: Address,
    verb: Verb,
    which: LineWord,
    operands: &[u8],
) -> Result<Condition, Wrong>
    ensures { result ≡ change_at names.now counter verb which operands.now }
{
    let place = first_address(names, counter, verb, which, operands)?;
    if has_no_word(split_word(operands).rest) {
        Ok(Condition::Changed(place))
    } else {
        Err(Wrong::Operands(verb))
    }
}

/// A condition that a command names, of which this word of the line is the first.
#[tactic(auto, unfolding(crate::specs::Entry::condition_at))]
pub(crate) fn condition_at(
    names: &[(Name, u16)],
    counter: Address,
    verb: Verb,
    which: LineWord,
    operands: &[u8],
) -> Result<Condition, Wrong>
    ensures { result ≡ condition_at names.now counter verb which operands.now }
{
    let rest = split_word(operands).rest;
    if is_counted(b"printed", operands) {
        return Ok(Condition::Printed(counted_by(verb, operands)?));
    }
    if is_counted(b"rows", operands) {
        return Ok(Condition::Rows(counted_by(verb, operands)?));
    }
    if is_counted(b"clock", operands) {
        return Ok(Condition::Clock(counted_by(verb, operands)?));
    }
    if is_counted(b"changed", operands) {
        return change_at(names, counter, verb, which.next(), rest);
    }
    let place = first_address(names, counter, verb, which, operands)?;
    condition_of(names, place, rest).ok_or(Wrong::Operands(verb))
}

/// Whether the second word is `times`, after a number.
fn is_times(operands: &[u8]) -> bool
    ensures { result ≡ is_times operands.now }
{
    split_word(split_word(operands).rest).word == b"times".as_slice()
}

/// What a run waits for: a condition met once, or as many times as are named before it.
pub(crate) fn until_at(
    names: &[(Name, u16)],
    counter: Address,
    operands: &[u8],
) -> Result<Until, Wrong>
    ensures { result ≡ until_at names.now counter operands.now }
{
    if !is_times(operands) {
        let condition = condition_at(names, counter, Verb::Run, LineWord::Third, operands)?;
        return Ok(Until {
            condition,
            times: 1,
        });
    }
    let first = split_word(operands);
    let times = lone_count(first.word)
        .ok_or(Wrong::Operands(Verb::Run))?
        .get();
    let rest = split_word(first.rest).rest;
    let condition = condition_at(names, counter, Verb::Run, LineWord::Fifth, rest)?;
    Ok(Until { condition, times })
}
