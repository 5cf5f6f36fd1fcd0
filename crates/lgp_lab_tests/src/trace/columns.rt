//! Single columns and lines, against texts made by hand from their definitions.

ghost use Rattle.std.specs.Prelude.{◌==◌, [], codes, if◌then◌else◌};

use super::address;
use super::growths::unless_other;
use crate::{End, end_of, expect_eq, in_turn};
use lgp_limited::Limited;
use lgp_text::push_decimal;
use lgp_trace::{
    Labels, push_copies, push_place, push_place_column, push_share, push_spaced, push_totals,
    push_wide,
};
use lgp_word::Address;
use std::alloc::{AllocError, Allocator, Global};

/// The label of 0020 is `sum`, and no other address has one.
struct SumAt20;

impl Labels for SumAt20 {
    ghost label = { λ _ address. if address == 20 then codes " sum" else [] };

    fn push_label<A: Allocator>(
        &self,
        text: &mut Vec<u8, A>,
        address: Address,
    ) -> Result<(), AllocError> {
        if address.number() == 20 {
            text.extend_from_slice(b" sum")
        } else {
            Ok(())
        }
    }
}

/// What is appended in one call, with its numbers in the order in which the call takes them.
#[derive(Clone, Copy)]
enum Column {
    Copies(u8, u64),
    Decimal(u64),
    Spaced(u64, u64),
    Wide(u64, u128),
    Share(u128, u64),
    Totals(u64, u64),
    Place(u16),
    PlaceColumn(u64, u16),
}

/// Appends a share, if its part is short enough.
fn push_short_share<A: Allocator>(
    text: &mut Vec<u8, A>,
    part: u128,
    whole: u64,
) -> Result<(), AllocError> {
    if part < 1 << 100 {
        push_share(text, part, whole)
    } else {
        Ok(())
    }
}

/// Appends what a column says; the call's own answer.
fn push<A: Allocator>(text: &mut Vec<u8, A>, column: Column) -> Result<(), AllocError> {
    match column {
        Column::Copies(byte, count) => push_copies(text, byte, count),
        Column::Decimal(number) => push_decimal(text, number),
        Column::Spaced(width, number) => push_spaced(text, width, number),
        Column::Wide(width, number) => push_wide(text, width, number),
        Column::Share(part, whole) => push_short_share(text, part, whole),
        Column::Totals(orders, times) => push_totals(text, orders, times),
        Column::Place(place) => push_place(text, address(place), &SumAt20),
        Column::PlaceColumn(width, place) => {
            push_place_column(text, width, address(place), &SumAt20)
        }
    }
}

/// The last part that has a share: 2^100 less 1.
const LAST_PART: u128 = 1_267_650_600_228_229_401_496_703_205_375;

/// A column and its text.
type Row = (Column, &'static [u8]);

static ROWS: &[Row] = &[
    (Column::Copies(b'#', 0), b""),
    (Column::Copies(b'#', 1), b"#"),
    (Column::Copies(0, 3), b"\0\0\0"),
    (Column::Copies(b'#', 1000), &[b'#'; 1000]),
    (Column::Decimal(0), b"0"),
    (Column::Decimal(10), b"10"),
    (Column::Decimal(u64::MAX), b"18446744073709551615"),
    (Column::Spaced(0, 0), b" 0"),
    (Column::Spaced(4, 7), b"    7"),
    (Column::Spaced(2, 42), b" 42"),
    (Column::Spaced(2, 100), b" 100"),
    (Column::Spaced(5, u64::MAX), b" 18446744073709551615"),
    (Column::Spaced(21, u64::MAX), b"  18446744073709551615"),
    (Column::Wide(0, 0), b" 0"),
    (Column::Wide(12, 1280), b"         1280"),
    (Column::Wide(20, 1 << 64), b" 18446744073709551616"),
    (
        Column::Wide(12, u128::MAX),
        b" 340282366920938463463374607431768211455",
    ),
    (
        Column::Wide(40, u128::MAX),
        b"  340282366920938463463374607431768211455",
    ),
    (Column::Share(0, 0), b"         0    0 %\n"),
    (Column::Share(5, 0), b"         5    0 %\n"),
    (Column::Share(0, 64), b"         0    0 %\n"),
    (Column::Share(1, 3), b"         1   33 %\n"),
    (Column::Share(199, 200), b"       199   99 %\n"),
    (Column::Share(200, 200), b"       200  100 %\n"),
    (
        Column::Share(18_446_744_073_709_551_614, u64::MAX),
        b" 18446744073709551614   99 %\n",
    ),
    (
        Column::Share(18_446_744_073_709_551_615, u64::MAX),
        b" 18446744073709551615  100 %\n",
    ),
    (
        Column::Share(LAST_PART, u64::MAX),
        b" 1267650600228229401496703205375 6871947673600 %\n",
    ),
    (
        Column::Share(LAST_PART, 1),
        b" 1267650600228229401496703205375 126765060022822940149670320537500 %\n",
    ),
    (
        Column::Totals(0, 0),
        b"orders 0, word times 0, turns of the drum 0.0\n",
    ),
    (
        Column::Totals(1, 63),
        b"orders 1, word times 63, turns of the drum 0.9\n",
    ),
    (
        Column::Totals(2, 64),
        b"orders 2, word times 64, turns of the drum 1.0\n",
    ),
    (
        Column::Totals(42, 2910),
        b"orders 42, word times 2910, turns of the drum 45.4\n",
    ),
    (
        Column::Totals(u64::MAX, u64::MAX),
        b"orders 18446744073709551615, word times 18446744073709551615, turns of the drum 288230376151711743.9\n",
    ),
    (Column::Place(0), b"0000"),
    (Column::Place(20), b"0020 sum"),
    (Column::Place(64), b"0100"),
    (Column::Place(4095), b"6363"),
    (Column::PlaceColumn(0, 64), b"0100"),
    (Column::PlaceColumn(4, 4095), b"6363"),
    (Column::PlaceColumn(12, 63), b"0063        "),
    (Column::PlaceColumn(12, 20), b"0020 sum    "),
    (Column::PlaceColumn(8, 20), b"0020 sum"),
    (Column::PlaceColumn(5, 20), b"0020 sum"),
];

/// Appends two bytes and then a column; whether nothing else is there, and the two bytes are as they were.
fn is_appended(global: Global, column: Column, wanted: &[u8]) -> bool {
    let mut text = Vec::new(global);
    if text.extend_from_slice(b"a\n").is_err() || push(&mut text, column).is_err() {
        return false;
    }
    match text.as_slice() {
        [b'a', b'\n', rest @ ..] => rest == wanted,
        _ => false,
    }
}

#[test]
fn columns_are_as_defined(rt: HostRuntime) {
    for (column, wanted) in ROWS {
        let seen = is_appended(rt.alloc(), *column, wanted);
        expect_eq(&rt, (*wanted, seen), (*wanted, true));
    }
}

/// How a column ends that is appended to an empty text.
fn pushed<A: Allocator>(text: &mut Vec<u8, A>, column: Column) -> End {
    let is_pushed = push(text, column).is_ok();
    end_of(is_pushed, !is_pushed)
}

/// How many growths were refused before a column was appended as defined.
fn growths_of(limited: &Limited<Global>, column: Column, wanted: &[u8]) -> Option<u64> {
    in_turn(limited, || {
        let mut text = Vec::new(limited);
        let end = pushed(&mut text, column);
        unless_other(end, text.as_slice(), wanted)
    })
}

/// Whether growths were refused in turn, one at least, or none where the text is empty.
fn are_refused(limited: &Limited<Global>, (column, wanted): Row) -> bool {
    match growths_of(limited, column, wanted) {
        Some(growths) => (growths == 0) == wanted.is_empty(),
        None => false,
    }
}

#[test]
fn each_growth_refused(rt: HostRuntime) {
    let limited = Limited::new(rt.alloc());
    for row in ROWS {
        let seen = (are_refused(&limited, *row), limited.blocks_out());
        expect_eq(&rt, (row.1, seen), (row.1, (true, 0)));
    }
}
