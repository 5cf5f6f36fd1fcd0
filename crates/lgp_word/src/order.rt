//! The sixteen orders, and the words that hold them.

ghost use Rattle.std.specs.Prelude.{◌≡◌, ◌+◌, ◌-◌, ◌*◌, ◌/◌, ◌%◌, ◌<◌, IfSome, Some};
ghost use Rattle.lgp_word.specs.Order.{IsOrder, OrderParts, address_at, decoded, letter_number, op_at, op_letter, op_number, op_of, op_of_letter, order_word, plain_order, sign_of, with_address_of};

use crate::address::Address;
use crate::word::Word;
use std::marker::Model;

/// The letters of the sixteen orders by number, in lower case.
pub const LETTERS: [u8; 16] = *b"zbyridnmpeuthcas";

/// The sixteen orders by number, each named by its letter as a capital.
#[derive(Clone, Copy, Debug, PartialEq, Eq, Hash)]
pub enum Op {
    Z,
    B,
    Y,
    R,
    I,
    D,
    N,
    M,
    P,
    E,
    U,
    T,
    H,
    C,
    A,
    S,
}

impl Op {
    /// The order of this number, 0 to 15.
    #[tactic(auto, unfolding(crate::specs::Order::op_of))]
    fn of_number(number: u32) -> Op
        requires { number < 16 }
        ensures number { op_number result ≡ number }
        ensures value { result ≡ op_of number }
    {
        match number {
            0 => Op::Z,
            1 => Op::B,
            2 => Op::Y,
            3 => Op::R,
            4 => Op::I,
            5 => Op::D,
            6 => Op::N,
            7 => Op::M,
            8 => Op::P,
            9 => Op::E,
            10 => Op::U,
            11 => Op::T,
            12 => Op::H,
            13 => Op::C,
            14 => Op::A,
            _ => Op::S,
        }
    }

    /// The order's letter, in lower case.
    #[tactic(auto, unfolding(crate::specs::Order::op_letter))]
    pub fn letter(self) -> u8
        ensures { result ≡ op_letter self }
    {
        LETTERS[self as usize]
    }

    /// The order of a letter; `None` where the byte is no order's letter in lower case.
    pub fn of_letter(byte: u8) -> Option<Op>
        ensures value { result ≡ op_of_letter byte }
        ensures letter { IfSome result (λ op. op_letter op ≡ byte) }
        ensures undoes_letter { (op : Op) → byte ≡ op_letter op → result ≡ Some op }
    {
        op_of_letter(byte)
    }
}

/// The number of the order whose letter a byte is.
#[tactic(auto, unfolding(crate::specs::Order::letter_number))]
fn letter_number(byte: u8) -> Option<usize>
    ensures value { result ≡ letter_number byte }
    ensures range { IfSome result (λ number. number < 16) }
{
    LETTERS.iter().position(|letter| *letter == byte)
}

/// The order whose letter a byte is, if it is one.
#[tactic(auto, unfolding(crate::specs::Order::op_of_letter))]
fn op_of_letter(byte: u8) -> Option<Op>
    ensures { result ≡ op_of_letter byte }
{
    letter_number(byte).map(|number| Op::of_number(number as u32))
}

/// An order as a program writes it; a minus goes with t alone. Clauses see its three parts.
#[derive(Clone, Copy, Debug, PartialEq, Eq, Hash)]
pub struct Order {
    pub minus: bool,
    pub op: Op,
    pub address: Address,
}

impl Model for Order {
    ghost use Rattle.lgp_word.specs.Order.{IsOrder, OrderParts};

    ghost Value = { OrderParts };

    ghost view = { λ order. record { minus = order.minus; op = order.op; address = order.address } };

    ghost invariant = { λ order. IsOrder (record { minus = order.minus; op = order.op; address = order.address }) };

    ghost inverse = { λ parts. record { minus = parts.minus; op = parts.op; address = parts.address } };
}

/// The word of an order: order * 65536 + address * 4, and the sign bit with a minus.
pub fn encode(order: Order) -> Word
    ensures { result ≡ order_word order }
{
    let sign = if order.minus { 1 << 31 } else { 0 };
    Word::of_bits(sign + order.op as u32 * 65536 + u32::from(order.address.number()) * 4)
}

/// The word of an order without a minus.
pub fn plain_order(op: Op, address: Address) -> Word
    ensures { result ≡ plain_order op address }
{
    encode(Order {
        minus: false,
        op,
        address,
    })
}

/// The order that a word is: `None` where a bit is set outside order and address, the sign with a t excepted.
pub fn decode(word: Word) -> Option<Order>
    ensures value { result ≡ decoded word }
    ensures encodes { IfSome result (λ order. order_word order ≡ word) }
    ensures undoes_encode { (order : OrderParts)
        → IsOrder order → word ≡ order_word order → result ≡ Some order }
{
    let (minus, op, address) = parts(word);
    if minus && !matches!(op, Op::T) {
        return None;
    }
    let order = Order { minus, op, address };
    if encode(order) == word {
        Some(order)
    } else {
        None
    }
}

/// The parts of any word: its sign, and what is in the places of order and address.
#[tactic(auto, unfolding(crate::specs::Order::op_of))]
pub fn parts(word: Word) -> (bool, Op, Address)
    ensures sign { result.0 ≡ sign_of word }
    ensures op { result.1 ≡ op_at word }
    ensures op_number { op_number result.1 ≡ word / 65536 % 16 }
    ensures address { result.2 ≡ address_at word }
{
    let bits = word.get();
    let op = Op::of_number(bits / 65536 % 16);
    (bits >= 1 << 31, op, Address::of_number(bits / 4 % 4096))
}

/// The word with its address part replaced, and nothing else changed.
pub fn with_address(word: Word, address: Address) -> Word
    ensures value { result ≡ with_address_of word address }
    ensures replaced { address_at result ≡ address }
    ensures above { result / 16384 ≡ word / 16384 }
    ensures below { result % 4 ≡ word % 4 }
{
    let bits = word.get();
    let old = bits / 4 % 4096;
    Word::of_bits(bits - old * 4 + u32::from(address.number()) * 4)
}
