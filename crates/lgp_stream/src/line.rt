//! What is kept of a line that is read byte by byte.

ghost use Rattle.std.specs.Prelude.{◌≡◌, ◌≤◌, ◌<◌, [], false, length, List, ℕ};
ghost use Rattle.std.specs.Str.{bytes_eq};
ghost use Rattle.lgp_stream.specs.KeptLine.{IsFirstLine, Kept, kept_of, kept_push, line_limit};
ghost use Rattle.lgp_stream.specs.OpenLineInside.{Open, is_unbegun, open_of, open_push, whole};

use arrayvec::ArrayVec;
use std::marker::Model;

/// How many bytes of a line are kept.
pub const LINE_LIMIT: usize = 4096;

/// What is kept of bytes of a line: their front, whether there are more, and whether all are spaces.
#[derive(Drop)]
pub struct LineBytes {
    front: ArrayVec<u8, LINE_LIMIT>,
    longer: bool,
    blank: bool,
}

impl Model for LineBytes {
    ghost use Rattle.lgp_stream.specs.KeptLine.{Kept};

    ghost Value = { Kept };

    ghost view = { λ bytes. record {
      front = bytes.front.items;
      longer = bytes.longer;
      blank = bytes.blank;
    } };
}

impl LineBytes {
    /// No bytes.
    #[tactic(auto, unfolding(crate::specs::KeptLine::kept_of))]
    pub fn new() -> LineBytes
        ensures { result ≡ kept_of [] }
    {
        LineBytes {
            front: ArrayVec::new(),
            longer: false,
            blank: true,
        }
    }

    /// The bytes of a text.
    pub fn of(text: &[u8]) -> LineBytes
        ensures { result ≡ kept_of text.now }
    {
        let mut bytes = LineBytes::new();
        for byte in text {
            bytes.push(*byte);
        }
        bytes
    }

    /// One byte more.
    pub fn push(&mut self, byte: u8)
        ensures { self.new ≡ kept_push self.old byte }
    {
        self.blank = self.blank && byte == b' ';
        if self.front.len() < LINE_LIMIT {
            self.front.push(byte);
        } else {
            self.longer = true;
        }
    }

    /// Forgets the bytes.
    #[tactic(auto, unfolding(crate::specs::KeptLine::kept_of))]
    fn clear(&mut self)
        ensures { self.new ≡ kept_of [] }
    {
        self.front.clear();
        self.longer = false;
        self.blank = true;
    }

    /// The front, at most 4,096 bytes.
    pub fn front(&self) -> &[u8]
        ensures front { result.now ≡ self.now.front }
        ensures short { length result.now ≤ line_limit }
    {
        self.front.as_slice()
    }

    /// Whether there are more bytes.
    pub fn is_longer(&self) -> bool
        ensures { result ≡ self.now.longer }
    {
        self.longer
    }

    /// Whether the bytes are a word that a line can hold.
    pub fn is_word(&self, word: &[u8]) -> bool
        requires { length word.now ≤ line_limit }
        ensures { (text : List ℕ) → self.now ≡ kept_of text
            → result ≡ bytes_eq text word.now }
    {
        !self.longer && self.front.as_slice() == word
    }

    /// Whether there is no word on the line: all bytes are spaces.
    pub fn has_no_word(&self) -> bool
        ensures { result ≡ self.now.blank }
    {
        self.blank
    }
}

/// An open line; a carriage return is held back until the next byte shows whether the line ends after it.
#[derive(Drop)]
pub struct Line {
    bytes: LineBytes,
    held: bool,
}

impl Model for Line {
    ghost use Rattle.lgp_stream.specs.OpenLineInside.{Open};

    ghost Value = { Open };

    ghost view = { λ line. record { kept = line.bytes; held = line.held } };
}

impl Line {
    /// A line that has just begun.
    #[tactic(auto, unfolding(crate::specs::OpenLineInside::open_of))]
    pub fn new() -> Line
        ensures { result ≡ open_of [] }
    {
        Line {
            bytes: LineBytes::new(),
            held: false,
        }
    }

    /// Takes the byte that is held back to the others.
    pub fn release(&mut self)
        ensures { self.new ≡ record { kept = whole self.old; held = false } }
    {
        if self.held {
            self.bytes.push(b'\r');
            self.held = false;
        }
    }

    /// One byte more.
    pub fn push(&mut self, byte: u8)
        ensures { self.new ≡ open_push self.old byte }
    {
        self.release();
        if byte == b'\r' {
            self.held = true;
        } else {
            self.bytes.push(byte);
        }
    }

    /// Whether no byte was taken yet.
    pub fn is_unbegun(&self) -> bool
        ensures { result ≡ is_unbegun self.now }
    {
        !self.held && self.bytes.front().is_empty()
    }

    /// The bytes so far, without a carriage return that is held back.
    pub fn bytes(&self) -> &LineBytes
        ensures { result.now ≡ self.now.kept }
    {
        &self.bytes
    }

    /// Begins anew.
    #[tactic(auto, unfolding(crate::specs::OpenLineInside::open_of))]
    pub fn restart(&mut self)
        ensures { self.new ≡ open_of [] }
    {
        self.bytes.clear();
        self.held = false;
    }

    /// The bytes of a line that a line feed ends: without the carriage return before it.
    pub fn complete(self) -> LineBytes
        ensures { result ≡ self.kept }
    {
        self.bytes
    }

    /// The bytes of a line that the script's end ends.
    pub fn last(self) -> LineBytes
        ensures { result ≡ whole self }
    {
        let mut line = self;
        line.release();
        line.bytes
    }
}

/// A line of a text, as it is kept, and the text after it.
#[derive(Drop)]
pub struct FirstLine<'a> {
    pub line: LineBytes,
    pub rest: &'a [u8],
}

/// The first line of a text that is not empty.
pub fn first_line(text: &[u8]) -> FirstLine<'_>
    requires { 0 < length text.now }
    ensures line { IsFirstLine text.now result.line result.rest.now }
    ensures shorter { length result.rest.now < length text.now }
{
    let mut open = Line::new();
    for (place, byte) in text.iter().enumerate() {
        if *byte == b'\n' {
            return FirstLine {
                line: open.complete(),
                rest: &text[place + 1..],
            };
        }
        open.push(*byte);
    }
    FirstLine {
        line: open.last(),
        rest: &[],
    }
}
