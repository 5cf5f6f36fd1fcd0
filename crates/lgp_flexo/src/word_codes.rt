//! Words as the codes of their digits.

ghost use Rattle.std.specs.Prelude.{◌≡◌, ◌<◌};
ghost use Rattle.lgp_flexo.specs.WordCodes.{four_digit_codes, word_codes};

use crate::code::Code;
use lgp_word::Word;

/// The codes of the four digits of 16 bits.
#[tactic(auto, unfolding(crate::specs::WordCodes::four_digit_codes))]
fn four_digit_codes(number: u32) -> [Code; 4]
    requires { number < 65536 }
    ensures { result ≡ four_digit_codes number }
{
    [
        Code::of_digit((number / 4096 % 16) as u8),
        Code::of_digit((number / 256 % 16) as u8),
        Code::of_digit((number / 16 % 16) as u8),
        Code::of_digit((number % 16) as u8),
    ]
}

/// The codes of a word's eight digits, as they are punched and as they are struck on the keys.
#[tactic(auto, unfolding(crate::specs::WordCodes::word_codes, crate::specs::WordCodes::four_digit_codes))]
pub fn codes_of_word(word: Word) -> [Code; 8]
    ensures { result ≡ word_codes word }
{
    let bits = word.get();
    let [a, b, c, d] = four_digit_codes(bits / 65536);
    let [e, f, g, h] = four_digit_codes(bits % 65536);
    [a, b, c, d, e, f, g, h]
}
