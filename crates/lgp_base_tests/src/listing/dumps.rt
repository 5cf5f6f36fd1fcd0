//! Drums as texts, and back.

use super::*;
use crate::drum::Cell;
use crate::exchange::drums::drum_of;
use crate::growths::{Made, is_dumped_drum, is_written};
use crate::text_of;
use lgp_limited::Limited;

/// Whether a drum has this dump.
fn has_dump(alloc: Global, drum: &Drum, wanted: &[u8]) -> bool {
    is_written(alloc, Made::Dump(drum), wanted) == Some(true)
}

/// Whether a text is the dump of a drum.
fn reads_as(alloc: Global, text: &[u8], wanted: &Drum) -> bool {
    is_dumped_drum(alloc, text, wanted) == Some(true)
}

/// Whether a drum of these words has this dump, and whether the dump is read as them.
fn is_dumped(alloc: Global, cells: &[Cell], text: &[u8]) -> [bool; 2] {
    match drum_of(alloc, cells) {
        Some(drum) => [has_dump(alloc, &drum, text), reads_as(alloc, text, &drum)],
        None => [false; 2],
    }
}

/// The dump of the words 4 at 0100 and 80000000 at 6363.
const DUMP: &[u8] = b"0100 00000004\n6363 80000000\n";

/// Those two words, and one of zeros.
static CELLS: [Cell; 3] = [(64, 4), (4095, 0x8000_0000), (65, 0)];

#[test]
fn dumps_are_read_back(rt: HostRuntime) {
    let found = [
        is_dumped(rt.alloc(), &CELLS, DUMP),
        is_dumped(rt.alloc(), &[(0, 0)], b""),
    ];
    expect_eq(&rt, found, [[true; 2]; 2]);
}

/// A drum that is lent word by word.
#[derive(Drop)]
struct Lent<'a> {
    drum: &'a Drum,
}

impl DrumWords for Lent<'_> {
    ghost words = { λ lent. lent.drum.now };

    fn word_at(&self, address: Address) -> Word {
        self.drum.word(address)
    }
}

/// How many lines the dump of a lent drum has that is appended to a text, and whether the text then is this one; `None` without memory.
fn appended(text: &mut Vec<u8>, drum: &Drum, wanted: &[u8]) -> Option<(u64, bool)> {
    match push_dump(text, &Lent { drum }) {
        Ok(lines) => Some((lines, text.as_slice() == wanted)),
        Err(_) => None,
    }
}

/// The same of a drum with these words, and of a text that has a line.
fn appended_to_a_line(alloc: Global, cells: &[Cell], wanted: &[u8]) -> Option<(u64, bool)> {
    match (drum_of(alloc, cells), text_of(alloc, &[(b"dump\n", 1)])) {
        (Some(drum), Some(mut text)) => appended(&mut text, &drum, wanted),
        _ => None,
    }
}

#[test]
fn the_dump_of_a_lent_drum_is_appended(rt: HostRuntime) {
    let wanted = b"dump\n0100 00000004\n6363 80000000\n";
    let found = appended_to_a_line(rt.alloc(), &CELLS, wanted);
    expect_eq(&rt, found, Some((2, true)));
}

/// Whether the line of an address and of a word is this.
fn has_line(alloc: Global, (address, word): (Address, Word), wanted: &[u8]) -> bool {
    let mut text = Vec::new(alloc);
    push_cell_line(&mut text, address, word).is_ok() && text.as_slice() == wanted
}

/// The same of the address of a number and the word of these bits.
fn has_line_of(alloc: Global, cell: Cell, wanted: &[u8]) -> bool {
    match (Address::new(cell.0), Word::new(cell.1)) {
        (Some(address), Some(word)) => has_line(alloc, (address, word), wanted),
        _ => false,
    }
}

#[test]
fn a_word_of_zeros_has_a_line_of_its_own(rt: HostRuntime) {
    let found = has_line_of(rt.alloc(), (64, 0), b"0100 00000000\n");
    expect_eq(&rt, found, true);
}

/// Why a text is no dump where the first growth is refused, and whether one was asked for.
fn refused(global: Global, text: &[u8]) -> (Option<DumpFault>, bool) {
    let limited = Limited::new(global);
    limited.refuse(1);
    let fault = read_dump(&limited, text).err();
    (fault, limited.was_refused())
}

static NO_DUMPS: [(&[u8], DumpFault); 10] = [
    (b"0100 00000000\n", DumpFault::Form(1)),
    (b"6364 00000004\n", DumpFault::Form(1)),
    (b"0100 00000003\n", DumpFault::Form(1)),
    (b"0100 00000004", DumpFault::Form(1)),
    (b"\n", DumpFault::Form(1)),
    (b"0100 00000004\r\n", DumpFault::Form(1)),
    (b"0100\t00000004\n", DumpFault::Form(1)),
    (b"0100 00000004\n0050 0000000z\n", DumpFault::Form(2)),
    (b"0100 00000004\n0050 00000004\n", DumpFault::Order(2)),
    (b"0100 00000004\n0100 00000004\n", DumpFault::Order(2)),
];

/// The faults of a text are reported without memory.
#[test]
fn texts_that_are_no_dump(rt: HostRuntime) {
    for (text, fault) in &NO_DUMPS {
        let seen = (*text, refused(rt.alloc(), text));
        expect_eq(&rt, seen, (*text, (Some(*fault), false)));
    }
}
