//! The words of the loaders.

use lgp_word::Word;

/// The loader, from 6300 on, which reads a tape of blocks (`tape_of`).
pub const LOADER: [Word; 22] = [
    // 6300 p 0000: the reader on
    Word { bits: 0x0008_0000 },
    // 6301 i 0000: a control word, or the end word, into the accumulator
    Word { bits: 0x0004_0000 },
    // 6302 t 6318: the end word is negative
    Word { bits: 0x000B_3F48 },
    // 6303 h 6309: a control word is the order that the cell 6309 performs
    Word { bits: 0x000C_3F24 },
    // 6304 p 0000: the reader on
    Word { bits: 0x0008_0000 },
    // 6305 i 0000: the count of the block's words into the accumulator
    Word { bits: 0x0004_0000 },
    // 6306 h 6321: it is kept
    Word { bits: 0x000C_3F54 },
    // 6307 p 0000: the reader on
    Word { bits: 0x0008_0000 },
    // 6308 i 0000: the next word of the block into the accumulator
    Word { bits: 0x0004_0000 },
    // 6309, the store cell: a `c` to the word's place
    Word { bits: 0 },
    // 6310 b 6309: that order
    Word { bits: 0x0001_3F24 },
    // 6311 a 6320: with the next place
    Word { bits: 0x000E_3F50 },
    // 6312 h 6309: stores the next word
    Word { bits: 0x000C_3F24 },
    // 6313 b 6321: the count
    Word { bits: 0x0001_3F54 },
    // 6314 a 6320: goes up by a word
    Word { bits: 0x000E_3F50 },
    // 6315 h 6321: and is kept
    Word { bits: 0x000C_3F54 },
    // 6316 t 6307: while it is negative words are left
    Word { bits: 0x000B_3F1C },
    // 6317 u 6300: the next block
    Word { bits: 0x000A_3F00 },
    // 6318 h 6319: the end word is the order that the cell 6319 performs
    Word { bits: 0x000C_3F4C },
    // 6319, the end cell: a jump to the start, or a stop
    Word { bits: 0 },
    // 6320, one place, and one word
    Word { bits: 4 },
    // 6321, the count
    Word { bits: 0 },
];

/// The loader of ten words, from 6300 on, which reads a tape of single cells (`single_tape_of`).
pub const LOADER_10: [Word; 10] = [
    // 6300 p 0000: the reader on
    Word { bits: 0x0008_0000 },
    // 6301 i 0000: a control word, or the end word, into the accumulator
    Word { bits: 0x0004_0000 },
    // 6302 t 6308: the end word is negative
    Word { bits: 0x000B_3F20 },
    // 6303 h 6306: a control word is the order that the cell 6306 performs
    Word { bits: 0x000C_3F18 },
    // 6304 p 0000: the reader on
    Word { bits: 0x0008_0000 },
    // 6305 i 0000: the word to be stored into the accumulator
    Word { bits: 0x0004_0000 },
    // 6306, the store cell: the control word, a `c` to the word's place
    Word { bits: 0 },
    // 6307 u 6300: the next one
    Word { bits: 0x000A_3F00 },
    // 6308 h 6309: the end word is the order that the cell 6309 performs
    Word { bits: 0x000C_3F24 },
    // 6309, the end cell: a jump to the start, or a stop
    Word { bits: 0 },
];
