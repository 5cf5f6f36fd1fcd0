//! Arithmetic and decimals on values from outside.

use crate::expect_eq;
use lgp_fraction::{Arith, Fraction, FractionFault, add, div, mul_high, mul_low, rounding, sub};
use lgp_word::{Word, read_digits, write_bits, write_digits};

/// The word of these eight digits, or 0 where they are none.
fn word(digits: &[u8]) -> Word {
    read_digits(digits).unwrap_or_default()
}

/// An order of arithmetic.
#[derive(Clone, Copy)]
enum By {
    Add,
    Sub,
    MulHigh,
    MulLow,
    Div,
}

/// What an order makes of an accumulator and a word.
fn made(by: By, accumulator: u32, word: Word) -> Arith {
    match by {
        By::Add => add(accumulator, word),
        By::Sub => sub(accumulator, word),
        By::MulHigh => mul_high(accumulator, word),
        By::MulLow => mul_low(accumulator, word),
        By::Div => div(accumulator, word),
    }
}

/// An order, the accumulator before it, the digits of its word and those of the accumulator after it, and whether it overflows.
type Row = (By, u32, &'static [u8; 8], &'static [u8; 8], bool);

/// Sums wrap; products and quotients are those of fractions.
static MADE: [Row; 15] = [
    (By::Add, 6, b"0000000f", b"00000010", false),
    (By::Add, 0x7fff_fffe, b"00000002", b"80000000", true),
    (By::Add, 0x8000_0000, b"wwwwwwwq", b"7wwwwwwq", true),
    (By::Sub, 6, b"0000000f", b"wwwwwwwj", false),
    (By::Sub, 0, b"80000000", b"80000000", true),
    (By::MulHigh, 0x8000_0000, b"80000000", b"80000000", true),
    (By::MulLow, 0x8000_0000, b"80000000", b"00000000", false),
    (By::MulHigh, 6, b"0000000f", b"00000000", false),
    (By::MulLow, 6, b"0000000f", b"0000003j", false),
    (By::MulHigh, 0xffff_fffe, b"00000002", b"wwwwwwwq", false),
    (By::MulHigh, 0x4000_0000, b"j0000000", b"q0000000", false),
    (By::Div, 6, b"00000000", b"00000006", true),
    (By::Div, 2, b"00000006", b"2fffffff", false),
    (By::Div, 6, b"00000006", b"00000006", true),
    (By::Div, 4, b"wwwwwwwf", b"ffffffff", false),
];

/// The digits of the word of a decimal, or why it is none.
fn read(text: &[u8]) -> Result<[u8; 8], FractionFault> {
    Ok(write_digits(Fraction::from_decimal(text)?.word()))
}

/// Decimals, and how each is read.
static READ: [(&[u8], Result<[u8; 8], FractionFault>); 25] = [
    (b".1", Ok(*b"0jjjjjjj")),
    (b"-1.0", Ok(*b"80000000")),
    (b"0.5", Ok(*b"40000000")),
    (b" .5", Ok(*b"40000000")),
    (b"-.25", Ok(*b"q0000000")),
    (b"-1.0000000001", Ok(*b"80000000")),
    (b".000000000001", Ok(*b"00000000")),
    (b" .0999999996", Ok(*b"0jjjjjjj")),
    (b"1", Err(FractionFault::Form)),
    (b"", Err(FractionFault::Form)),
    (b".", Err(FractionFault::Form)),
    (b"-.", Err(FractionFault::Form)),
    (b"5", Err(FractionFault::Form)),
    (b"2.0", Err(FractionFault::Form)),
    (b"--.1", Err(FractionFault::Form)),
    (b"  .1", Err(FractionFault::Form)),
    (b"+.1", Err(FractionFault::Form)),
    (b"00.1", Err(FractionFault::Form)),
    (b".1 ", Err(FractionFault::Form)),
    (b".1a", Err(FractionFault::Form)),
    (b".1234567890123", Err(FractionFault::Form)),
    (b"1.0", Err(FractionFault::OutOfRange)),
    (b".9999999999", Err(FractionFault::OutOfRange)),
    (b"-1.000000001", Err(FractionFault::OutOfRange)),
    (b"1.999999999999", Err(FractionFault::OutOfRange)),
];

/// Digits of words, and their decimals.
static WRITTEN: [([u8; 8], [u8; 12]); 7] = [
    (*b"0jjjjjjj", *b" .0999999996"),
    (*b"00100000", *b" .0004882813"),
    (*b"wwg00000", *b"-.0024414063"),
    (*b"80000000", *b"-1.000000000"),
    (*b"80000002", *b"-.9999999991"),
    (*b"7wwwwwwq", *b" .9999999991"),
    (*b"00000000", *b" .0000000000"),
];

#[test]
fn orders_of_arithmetic_and_decimals(rt: HostRuntime) {
    rounding::nearest_is_nearest();
    for (by, accumulator, digits, wanted, overflow) in &MADE {
        let arith = made(*by, *accumulator, word(*digits));
        let seen = (write_bits(arith.accumulator), arith.overflow);
        expect_eq(&rt, seen, (**wanted, *overflow));
    }
    for (text, wanted) in &READ {
        expect_eq(&rt, (*text, read(text)), (*text, *wanted));
    }
    for (digits, wanted) in &WRITTEN {
        let text = Fraction::of_word(word(digits)).to_decimal();
        expect_eq(&rt, (text, read(&text)), (*wanted, Ok(*digits)));
    }
}
