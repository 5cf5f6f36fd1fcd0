//! Words as eight digits of base 16.

ghost use Rattle.std.specs.Prelude.{◌≡◌, ℕ, ◌+◌, ◌*◌, ◌/◌, ◌%◌, ◌^◌, ◌<◌, ◌≤◌, length, Some, IfSome};
ghost use Rattle.lgp_word.specs.Word.{IsWord};
ghost use Rattle.lgp_word.specs.Digits.{digit_byte, digit_value, digits_of, four_digits, number_of, word_of_digits};

use crate::word::Word;

/// The digits of base 16 in order of their values.
pub const DIGITS: [u8; 16] = *b"0123456789fgjkqw";

/// The digit of a value below 16.
#[tactic(auto, unfolding(crate::specs::Digits::digit_byte))]
fn digit_byte(value: u32) -> u8
    requires { value < 16 }
    ensures { result ≡ digit_byte value }
{
    DIGITS[value as usize]
}

/// What a byte stands for as a digit.
#[tactic(auto, unfolding(crate::specs::Digits::digit_value))]
fn digit_value(byte: u8) -> Option<usize>
    ensures value { result ≡ digit_value byte }
    ensures range { IfSome result (λ value. value < 16) }
{
    DIGITS.iter().position(|digit| *digit == byte)
}

/// Four digits of 16 bits.
#[tactic(auto, unfolding(crate::specs::Digits::four_digits))]
fn four_digits(number: u32) -> [u8; 4]
    requires { number < 65536 }
    ensures { result ≡ four_digits number }
{
    [
        digit_byte(number / 4096 % 16),
        digit_byte(number / 256 % 16),
        digit_byte(number / 16 % 16),
        digit_byte(number % 16),
    ]
}

/// Any 32 bits as eight digits.
#[tactic(auto, unfolding(crate::specs::Digits::digits_of, crate::specs::Digits::four_digits))]
pub fn write_bits(bits: u32) -> [u8; 8]
    ensures { result ≡ digits_of bits }
{
    let [a, b, c, d] = four_digits(bits / 65536);
    let [e, f, g, h] = four_digits(bits % 65536);
    [a, b, c, d, e, f, g, h]
}

/// A word as eight digits.
pub fn write_digits(word: Word) -> [u8; 8]
    ensures { result ≡ digits_of word }
{
    write_bits(word.get())
}

/// The number that at most eight digits stand for.
fn number_of(digits: &[u8]) -> Option<u64>
    requires { length digits.now ≤ 8 }
    ensures value { result ≡ number_of 0 digits.now }
    ensures range { IfSome result (λ number. number < 2 ^ 32) }
{
    let mut number = 0;
    for byte in digits {
        let Some(value) = digit_value(*byte) else {
            return None;
        };
        number = 16 * number + value as u64;
    }
    Some(number)
}

/// The word that a text is, if it is one.
#[tactic(auto, unfolding(crate::specs::Digits::word_of_digits))]
fn word_of_digits(text: &[u8]) -> Option<Word>
    ensures { result ≡ word_of_digits text.now }
{
    if text.len() != 8 {
        return None;
    }
    match number_of(text) {
        Some(number) => Word::new(number as u32),
        None => None,
    }
}

/// The word of a text: `None` where the text is not exactly eight digits of an even number.
pub fn read_digits(text: &[u8]) -> Option<Word>
    ensures value { result ≡ word_of_digits text.now }
    ensures reads_written { (word : ℕ)
        → IsWord word → text.now ≡ digits_of word → result ≡ Some word }
    ensures written_so { IfSome result (λ word. digits_of word ≡ text.now) }
{
    word_of_digits(text)
}
