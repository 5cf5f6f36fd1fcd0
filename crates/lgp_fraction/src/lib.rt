//! The arithmetic of the Royal McBee LGP-30, and its fractions as decimals.
#![tactic(auto)]

mod arithmetic;
mod fraction;
pub mod rounding;

pub use arithmetic::{Arith, add, div, mul_high, mul_low, sub};
pub use fraction::{Fraction, FractionFault};
