//! The addresses and words that the operands of a line are.

ghost use Rattle.std.specs.Prelude.{◌≡◌, ◌*ℤ◌, option_map, pos};
ghost use Rattle.std.specs.Option.{option_copied};
ghost use Rattle.std.specs.Result.{result_ok};
ghost use Rattle.lgp_fraction.specs.Arithmetic.{low_bits};
ghost use Rattle.lgp_fraction.specs.Decimal.{decimal_fraction};
ghost use Rattle.lgp_monitor.specs.Entry.{address_at, bound_at, digits_or_fraction, first_address, numbers_wrong, operand_at, operation_at, point_at, value_at, value_wrong, whole_at};

use crate::mistake::{Mistake, address_mistake, takes_numbers, takes_place, value_mistake};
use crate::verb::Verb;
use crate::wrong::{LineWord, Wrong};
use lgp_assembler::{Name, Symbols, address_operand, operation_word};
use lgp_fraction::Fraction;
use lgp_stream::{Split, has_no_word, split_word};
use lgp_word::{Address, Word, read_digits};

/// The address that a word of a line is, by the names of the last source and what `*` is.
#[tactic(auto, unfolding(crate::specs::Entry::address_at))]
pub(crate) fn address_at(
    names: &[(Name, u16)],
    place: Address,
    which: LineWord,
    text: &[u8],
) -> Result<Address, Wrong>
    ensures { result ≡ address_at names.now place which text.now }
{
    match address_operand(&Symbols { names }, u64::from(place.number()), text) {
        Ok(address) => Ok(address),
        Err(fault) => Err(Wrong::Word(which, address_mistake(fault, text))),
    }
}

/// The first of the operands of a command as an address.
#[tactic(auto, unfolding(crate::specs::Entry::first_address))]
pub(crate) fn first_address(
    names: &[(Name, u16)],
    place: Address,
    verb: Verb,
    which: LineWord,
    operands: &[u8],
) -> Result<Address, Wrong>
    ensures { result ≡ first_address names.now place verb which operands.now }
{
    if has_no_word(operands) {
        return Err(Wrong::Operands(verb));
    }
    address_at(names, place, which, split_word(operands).word)
}

/// The first of some operands.
fn operand_at(operands: &[u8]) -> Option<&[u8]>
    ensures { option_copied result ≡ operand_at operands.now }
{
    if has_no_word(operands) {
        return None;
    }
    Some(split_word(operands).word)
}

/// The word of an operation, in the place of the word.
#[tactic(auto, unfolding(crate::specs::Entry::operation_at))]
fn operation_at(names: &[(Name, u16)], place: Address, line: &[u8]) -> Option<Word>
    ensures { result ≡ operation_at names.now place line.now }
{
    let operation = split_word(line);
    let first = split_word(operation.rest);
    let second = split_word(first.rest);
    if !has_no_word(second.rest) {
        return None;
    }
    operation_word(
        &Symbols { names },
        u64::from(place.number()),
        operation.word,
        operand_at(operation.rest),
        operand_at(first.rest),
    )
    .ok()
}

/// The place after which a number's point is.
pub(crate) fn point_at(operands: &[u8]) -> &[u8]
    ensures { result.now ≡ point_at operands.now }
{
    if has_no_word(operands) {
        return b"30";
    }
    split_word(operands).word
}

/// The word of a whole number.
#[tactic(auto, unfolding(crate::specs::Entry::whole_at))]
fn whole_at(names: &[(Name, u16)], place: Address, operands: &[u8]) -> Option<Word>
    ensures { result ≡ whole_at names.now place operands.now }
{
    let number = split_word(operands);
    let point = split_word(number.rest);
    if !has_no_word(point.rest) {
        return None;
    }
    operation_word(
        &Symbols { names },
        u64::from(place.number()),
        b"int",
        Some(number.word),
        Some(point_at(number.rest)),
    )
    .ok()
}

/// The word of a fraction's text.
fn fraction_at(text: &[u8]) -> Option<Word>
    ensures { result
        ≡ option_map (λ steps. low_bits (pos 2 *ℤ steps)) (result_ok (decimal_fraction text.now)) }
{
    match Fraction::from_decimal(text) {
        Ok(fraction) => Some(fraction.word()),
        Err(_) => None,
    }
}

/// The word of eight digits or of a fraction.
#[tactic(auto, unfolding(crate::specs::Entry::digits_or_fraction))]
fn digits_or_fraction(text: &[u8]) -> Option<Word>
    ensures { result ≡ digits_or_fraction text.now }
{
    match read_digits(text) {
        Some(word) => Some(word),
        None => fraction_at(text),
    }
}

/// The word that comes after an address.
#[tactic(auto, unfolding(crate::specs::Entry::value_at))]
pub(crate) fn value_at(names: &[(Name, u16)], place: Address, operands: &[u8]) -> Option<Word>
    ensures { result ≡ value_at names.now place operands.now }
{
    let first = split_word(operands);
    if first.word == b"=".as_slice() {
        return whole_at(names, place, first.rest);
    }
    if !has_no_word(first.rest) {
        return operation_at(names, place, operands);
    }
    match digits_or_fraction(first.word) {
        Some(word) => Some(word),
        None => operation_at(names, place, operands),
    }
}

/// The word that comes after `<`.
pub(crate) fn bound_at(names: &[(Name, u16)], place: Address, operands: &[u8]) -> Option<Word>
    ensures { result ≡ bound_at names.now place operands.now }
{
    match whole_at(names, place, operands) {
        Some(word) => Some(word),
        None => value_at(names, place, operands),
    }
}

/// Why the operands of `=`, or of an operation without an address, are no word.
fn numbers_wrong(operation: &[u8], operands: &[u8]) -> Wrong
    ensures { result ≡ numbers_wrong operation.now operands.now }
{
    if operation == b"=".as_slice() && !has_no_word(operands) {
        return Wrong::Word(LineWord::Third, Mistake::Whole);
    }
    if operation == b"int".as_slice() && has_no_word(split_word(operands).rest) {
        return Wrong::Word(LineWord::Second, Mistake::Point);
    }
    Wrong::Operands(Verb::Word)
}

/// Why a value is no word.
pub(crate) fn value_wrong(names: &[(Name, u16)], place: Address, value: &[u8]) -> Wrong
    ensures { result ≡ value_wrong names.now place value.now }
{
    if has_no_word(value) {
        return Wrong::Operands(Verb::Word);
    }
    let Split { word, rest } = split_word(value);
    if takes_place(word) {
        let address = first_address(names, place, Verb::Word, LineWord::Third, rest);
        return address.err().unwrap_or(Wrong::Operands(Verb::Word));
    }
    if takes_numbers(word) {
        return numbers_wrong(word, rest);
    }
    Wrong::Word(LineWord::Second, value_mistake(word))
}
