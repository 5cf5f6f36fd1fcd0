//! Words, addresses, orders and decimal numbers on values from outside.

use crate::expect_eq;
use lgp_word::{
    Address, LETTERS, Op, Order, Word, decode, encode, parts, plain_order, position_of,
    read_decimal, read_digits, with_address, write_bits, write_digits,
};

// What is tried, over texts and numbers and without its contracts, which would fill the context of each test.

/// The bits of a word from its number; `None` where it is none.
fn word_of(number: u32) -> Option<u32> {
    let word = Word::new(number)?;
    Some(word.get())
}

/// The bits of the word of these digits; `None` where they are none.
fn bits(digits: &[u8]) -> Option<u32> {
    let word = read_digits(digits)?;
    Some(word.get())
}

/// Digits of words and others, and the bits of the word.
static DIGITS: [(&[u8], Option<u32>); 7] = [
    (b"000100j8", Some(65536 + 4 * 50)),
    (b"wwwwwwwq", Some(0xffff_fffe)),
    (b"0000000f0", None),
    (b"0000000", None),
    (b"0000000a", None),
    (b"0000000W", None),
    (b"00000001", None),
];

#[test]
fn words_are_even_and_have_the_digits_of_the_machine(rt: HostRuntime) {
    for (digits, wanted) in &DIGITS {
        expect_eq(&rt, (*digits, bits(digits)), (*digits, *wanted));
    }
    let words = [
        word_of(6),
        word_of(7),
        Some(Word::of_bits(0xffff_ffff).get()),
        Some(Word::default().get()),
    ];
    let written = [
        write_digits(Word::of_bits(0x89ab_cdee)),
        write_bits(0x89ab_cdef),
    ];
    expect_eq(
        &rt,
        (words, written),
        (
            [Some(6), None, Some(0xffff_fffe), Some(0)],
            [*b"89fgjkqq", *b"89fgjkqw"],
        ),
    );
}

/// The number, the track, the sector and the text of an address from its number; `None` where it is none.
fn address_of(number: u16) -> Option<(u16, u16, u16, [u8; 4])> {
    let address = Address::new(number)?;
    let (track, sector) = (address.track(), address.sector());
    Some((address.number(), track, sector, address.print()))
}

/// The number of the address of a text, and that of the next one; `None` where it is none.
fn numbers_at(text: &[u8]) -> Option<(u16, u16)> {
    let address = Address::parse(text)?;
    Some((address.number(), address.next().number()))
}

/// Texts of addresses and others, and the numbers of the address and of the next one.
static ADDRESSES: [(&[u8], Option<(u16, u16)>); 9] = [
    (b"0050", Some((50, 51))),
    (b"0163", Some((127, 128))),
    (b"6363", Some((4095, 0))),
    (b"0064", None),
    (b"6400", None),
    (b"005", None),
    (b"00500", None),
    (b"00f0", None),
    (b"", None),
];

#[test]
fn addresses_have_a_track_and_a_sector(rt: HostRuntime) {
    for (text, wanted) in &ADDRESSES {
        expect_eq(&rt, (*text, numbers_at(text)), (*text, *wanted));
    }
    let seen = [address_of(4040), address_of(4096), address_of(0)];
    let wanted = [
        Some((4040, 63, 8, *b"6308")),
        None,
        Some((0, 0, 0, *b"0000")),
    ];
    expect_eq(&rt, seen, wanted);
}

/// The position of a sector; `None` where the number is no sector's.
fn position(sector: u16) -> Option<u16> {
    if sector < Address::SECTORS {
        return Some(position_of(sector));
    }
    None
}

/// Sectors and their positions.
static POSITIONS: [(u16, u16); 8] = [
    (0, 0),
    (57, 1),
    (50, 2),
    (43, 3),
    (1, 9),
    (32, 32),
    (63, 55),
    (7, 63),
];

#[test]
fn each_sector_has_its_position(rt: HostRuntime) {
    for (sector, wanted) in &POSITIONS {
        expect_eq(&rt, position(*sector), Some(*wanted));
    }
}

/// An order: whether it has a minus, its letter and its address.
type Named = (bool, u8, u16);

/// The order that the word of these digits is; `None` where it is none.
fn order_of(digits: &[u8]) -> Option<Named> {
    let order = decode(read_digits(digits)?)?;
    Some((order.minus, order.op.letter(), order.address.number()))
}

/// The bits of the word of an order, and without the minus; `None` where there is no such order.
fn words_of((minus, letter, number): Named) -> Option<[u32; 2]> {
    let (op, address) = (Op::of_letter(letter)?, Address::new(number)?);
    if minus && !matches!(op, Op::T) {
        return None;
    }
    let word = encode(Order { minus, op, address });
    Some([word.get(), plain_order(op, address).get()])
}

/// The parts of the word of these digits; `None` where it is none.
fn parts_of(digits: &[u8]) -> Option<Named> {
    let found = parts(read_digits(digits)?);
    Some((found.0, found.1.letter(), found.2.number()))
}

/// Orders, the digits of their words, and the digits without the minus.
static ORDERS: [(&[u8], Named, &[u8]); 8] = [
    (b"800g3w20", (true, b't', 4040), b"000g3w20"),
    (b"000g3w20", (false, b't', 4040), b"000g3w20"),
    (b"00000000", (false, b'z', 0), b"00000000"),
    (b"000100j8", (false, b'b', 50), b"000100j8"),
    (b"000q00jj", (false, b'a', 51), b"000q00jj"),
    (b"000j00k0", (false, b'h', 52), b"000j00k0"),
    (b"00083900", (false, b'p', 3648), b"00083900"),
    (b"000w3wwj", (false, b's', 4095), b"000w3wwj"),
];

/// The bits of both words of a row.
fn both_bits(digits: &[u8], plain: &[u8]) -> Option<[u32; 2]> {
    Some([bits(digits)?, bits(plain)?])
}

/// The bits of the word of these digits with its address replaced by that of a text.
fn replaced(digits: &[u8], text: &[u8]) -> Option<u32> {
    Some(with_address(read_digits(digits)?, Address::parse(text)?).get())
}

#[test]
fn orders_are_words(rt: HostRuntime) {
    for (digits, order, plain) in &ORDERS {
        let seen = (order_of(digits), words_of(*order));
        expect_eq(&rt, seen, (Some(*order), both_bits(digits, plain)));
    }
    let others = [
        order_of(b"00100000"),
        order_of(b"80000000"),
        parts_of(b"80124002"),
    ];
    let changed = [
        replaced(b"000f0000", b"0102"),
        replaced(b"wwwwwwwq", b"0000"),
    ];
    expect_eq(
        &rt,
        (others, changed),
        (
            [None, None, Some((true, b'y', 0))],
            [bits(b"000f0108"), bits(b"wwwwj002")],
        ),
    );
}

/// The letters of the orders by their numbers.
const BY_NUMBER: [u8; 16] = *b"zbyridnmpeuthcas";

#[test]
fn letters_name_orders(rt: HostRuntime) {
    for letter in &BY_NUMBER {
        let named = Op::of_letter(*letter).map(Op::letter);
        expect_eq(&rt, named, Some(*letter));
    }
    let none = [Op::of_letter(b'Z'), Op::of_letter(b'f')];
    let ends = (Op::Z as usize, Op::S as usize);
    expect_eq(&rt, (LETTERS, none, ends), (BY_NUMBER, [None; 2], (0, 15)));
}

/// The number of a decimal text of at most a given number of digits.
fn decimal(text: &[u8], most: usize) -> Option<u64> {
    read_decimal(text, most.min(18))
}

/// Texts, how many digits they may have, and their numbers.
static DECIMALS: [(&[u8], usize, Option<u64>); 10] = [
    (b"0", 1, Some(0)),
    (b"007", 4, Some(7)),
    (b"4294967296", 10, Some(4_294_967_296)),
    (b"999999999999999999", 18, Some(999_999_999_999_999_999)),
    (b"", 18, None),
    (b"5", 0, None),
    (b"12345", 4, None),
    (b"12a", 4, None),
    (b"-1", 4, None),
    (b"/0:", 4, None),
];

#[test]
fn decimals_have_a_limit_of_digits(rt: HostRuntime) {
    for (text, most, wanted) in &DECIMALS {
        expect_eq(&rt, (*text, decimal(text, *most)), (*text, *wanted));
    }
}
