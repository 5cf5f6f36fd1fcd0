//! What is kept in files: each row's bytes are written out by hand.

use super::{answer, read_on};
use crate::{expect_eq, is_done};
use lgp_desk::{Files, Manner};
use lgp_lab::{FeedOf, READS};
use lgp_monitor::Silence;
use lgp_stream::Failed;
use std::alloc::Global;

/// Files that all hold a tape, of which one may be written; what the open one has left; and whether these bytes were to be kept at last.
#[derive(Drop)]
struct Wanting {
    left: Option<FeedOf<&'static [u8]>>,
    wanted: &'static [u8],
    is_kept: bool,
}

impl Files for Wanting {
    ghost answer = { λ files call after. Unit {0} };

    fn open(&mut self, _name: &str) -> bool {
        self.left = Some(FeedOf::new(b"12[16]3'", READS));
        true
    }

    fn read(&mut self, buffer: &mut [u8]) -> Result<usize, Failed> {
        read_on(&mut self.left, buffer)
    }

    fn close(&mut self) {
        self.left = None;
    }

    fn keep(&mut self, name: &str, text: &[u8]) -> bool {
        self.is_kept = text == self.wanted;
        name == "kept"
    }
}

/// Typed lines, and the bytes that they keep.
type Row = (&'static [u8], &'static [u8]);

/// Upper case, a one and a carriage return printed; then two codes of a tape read.
static ROWS: [Row; 10] = [
    (b"put 0100 = 5\nsave kept\n", b"0100 0000000f\n"),
    (b"put 0100 = 5\nsave-simh kept\n", b"d -lt 0100 0000000f\n"),
    (b"save-simh kept\n", b""),
    (
        b"put 0000 p 0800\nput 0001 p 0600\nput 0002 p 1600\nput 0003 z\npress start\nrun 9\npunch kept\n",
        b"[08]1[16]",
    ),
    (
        b"put 0000 p 0800\nput 0001 p 0600\nput 0002 p 1600\nput 0003 z\npress start\nrun 9\npunch-archive kept\n",
        b"!081\r",
    ),
    (
        b"put 0000 p 0800\nput 0001 p 0600\nput 0002 p 1600\nput 0003 z\npress start\nrun 9\npunch-bytes kept\n",
        b"\x08\x06\x10",
    ),
    // The whole tape, though the reader has passed a part of it.
    (
        b"tape any\npress manual\npress read\nrun 1\ncopy kept\n",
        b"12[16]3'",
    ),
    (
        b"tape any\npress manual\npress read\nrun 1\ncopy-archive kept\n",
        b"12\r3'",
    ),
    (
        b"tape any\npress manual\npress read\nrun 1\ncopy-bytes kept\n",
        b"\x06\x0a\x10\x0e\x20",
    ),
    (b"copy-bytes kept\n", b""),
];

/// Whether a row's bytes are kept and said to be so, and nothing is refused.
fn is_kept(alloc: Global, row: &Row) -> bool {
    let mut wanting = Wanting {
        left: None,
        wanted: row.1,
        is_kept: false,
    };
    let mut written = Vec::new(alloc);
    let outcome = answer(
        alloc,
        Manner::Bare,
        &mut wanting,
        Silence,
        row.0,
        &mut written,
    );
    is_done(outcome, false) && wanting.is_kept && written.as_slice().ends_with(b"saved kept\n")
}

/// How many rows come before the first whose bytes are not kept.
fn rows_kept(alloc: Global) -> usize {
    let mut kept: usize = 0;
    for row in &ROWS {
        if !is_kept(alloc, row) {
            return kept;
        }
        kept = kept.saturating_add(1);
    }
    kept
}

#[test]
fn tapes_and_drums_are_kept(rt: HostRuntime) {
    expect_eq(&rt, rows_kept(rt.alloc()), 10);
}
