//! Numbers of at most ten digits.

use crate::expect_eq;
use lgp_command::Count;
use std::rt::HostRuntime;

/// The number that a count has, if a number may be one.
fn counted(number: u64) -> Option<u64> {
    Some(Count::new(number)?.get())
}

/// A number of ten digits is a count, one of eleven is none.
#[test]
fn counts_have_at_most_ten_digits(rt: HostRuntime) {
    expect_eq(&rt, counted(0), Some(0));
    expect_eq(&rt, counted(9_999_999_999), Some(9_999_999_999));
    expect_eq(&rt, counted(10_000_000_000), None);
    expect_eq(&rt, counted(u64::MAX), None);
}
