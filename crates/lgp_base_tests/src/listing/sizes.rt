//! The listing of the largest program.

use super::*;
use crate::assembler::FULL_SOURCE;
use crate::text_of;

/// The text at the end of the listing of the largest program.
const LAST: &[u8] = b"6363 00003wwj  z *\n               end\n";

/// How long the listing of a source is, and whether it has that text at its end.
fn listed(alloc: Global, source: &[u8]) -> Option<(usize, bool)> {
    match listing(alloc, source) {
        Ok(text) => Some((text.len(), text.ends_with(LAST))),
        Err(_) => None,
    }
}

/// The same of the largest program.
fn full_listed(alloc: Global) -> Option<(usize, bool)> {
    let source = text_of(alloc, &FULL_SOURCE)?;
    listed(alloc, source.as_slice())
}

/// A line with a word has 19 bytes here; the other two have 14 blanks in front.
#[test]
fn the_listing_of_a_program_of_all_places_but_the_loaders(rt: HostRuntime) {
    let found = full_listed(rt.alloc());
    expect_eq(&rt, found, Some((4074 * 19 + 24 + 19, true)));
}
