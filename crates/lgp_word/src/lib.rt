//! Words, addresses and orders of the Royal McBee LGP-30, and their texts.
#![tactic(auto)]

mod address;
mod decimal;
mod digits;
mod drum;
mod order;
mod word;

pub use address::Address;
pub use decimal::read_decimal;
pub use digits::{DIGITS, read_digits, write_bits, write_digits};
pub use drum::position_of;
pub use order::{LETTERS, Op, Order, decode, encode, parts, plain_order, with_address};
pub use word::Word;
