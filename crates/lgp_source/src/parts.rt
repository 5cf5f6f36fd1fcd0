//! Lines and tokens, borrowed from a source.

/// A token of a line: its bytes, and its span in the line's text.
#[derive(Clone, Copy, Debug)]
pub struct Token<'a> {
    pub text: &'a [u8],
    /// The place of its first byte, counted from 0.
    pub first: usize,
    /// The place after its last byte.
    pub past: usize,
}

/// A line of a source, with its tokens by their use.
#[derive(Clone, Copy, Debug)]
pub struct Line<'a> {
    /// Counted from 1.
    pub number: u64,
    /// The line's bytes, without its line feed and a carriage return before that.
    pub text: &'a [u8],
    /// The token that begins in the first column.
    pub label: Option<Token<'a>>,
    /// The token after the label, or the first one where there is no label.
    pub operation: Option<Token<'a>>,
    /// The two tokens after the operation.
    pub operands: [Option<Token<'a>>; 2],
    /// The place of the first byte that is neither a tab nor one of 32 to 126. Such a line has no
    /// tokens.
    pub bad_byte: Option<usize>,
    /// Whether there are more than two operands.
    pub extra: bool,
}
