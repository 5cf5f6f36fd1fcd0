//! Tapes in the longest blocks, in blocks of given lengths, and cell by cell.

use super::*;

/// Whether the codes of a tape are written as this text.
fn is_text(alloc: Global, codes: &[Code], wanted: &[u8]) -> bool {
    match write_tape_text(alloc, codes) {
        Ok(text) => text.as_slice() == wanted,
        Err(_) => false,
    }
}

/// Whether the tape of an image is this text.
fn has_tape(alloc: Global, image: &Image, way: Way, wanted: &[u8]) -> bool {
    match tape_by(alloc, image, way) {
        Ok(tape) => is_text(alloc, tape.as_slice(), wanted),
        Err(_) => false,
    }
}

/// Programs, how they are taped, and the texts of their tapes.
static TAPES: &[(&[u8], Way<'static>, &[u8])] = &[
    (
        ONE_WORD,
        Way::Longest,
        b"000k0100'wwwwwwwj'00000004'[16]80000000'",
    ),
    (b" end 0100\n", Way::Longest, b"800f0100'"),
    (
        FIVE_LINES,
        Way::Longest,
        b"000k0000'wwwwwww0'0001000j'000j00j8'00000000'0jjjjjjj'[16]800f0000'",
    ),
    (
        TWO_PLACES,
        Way::Longest,
        b"000k0100'wwwwwww8'00000004'00000008'[16]000k0110'wwwwwwwj'0000000j'[16]000k010j'wwwwwwwj'00000010'[16]80000000'",
    ),
    (
        TWO_WORDS,
        Way::Cut(&[1, 1]),
        b"000k0100'wwwwwwwj'00000004'[16]000k0104'wwwwwwwj'00000008'[16]80000000'",
    ),
    (ONE_WORD, Way::Single, b"000k0100'00000004'[16]80000000'"),
    (b" end 0100\n", Way::Single, b"800f0100'"),
    (
        FIVE_LINES,
        Way::Single,
        b"000k0000'0001000j'[16]000k0004'000j00j8'[16]000k0008'00000000'[16]000k000j'0jjjjjjj'[16]800f0000'",
    ),
];

/// Whether the tape of a source is this text.
fn is_taped(alloc: Global, (source, way): (&[u8], Way), wanted: &[u8]) -> bool {
    match image(alloc, source) {
        Some(image) => has_tape(alloc, &image, way, wanted),
        None => false,
    }
}

#[test]
fn tapes_as_texts(rt: HostRuntime) {
    for (source, way, wanted) in TAPES {
        let seen = (*wanted, is_taped(rt.alloc(), (source, *way), wanted));
        expect_eq(&rt, seen, (*wanted, true));
    }
}
