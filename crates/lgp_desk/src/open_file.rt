//! A file whose lines are typed.

ghost use Rattle.std.specs.Prelude.{◌≡◌, ◌-◌, ◌≤◌, IfOk, drop, length};
ghost use Rattle.std.specs.Str.Lines.{lines};
ghost use Rattle.lgp_desk.specs.OpenFileInside.{HasNext};
ghost use Rattle.lgp_desk.specs.Troubles.{line_note};

use crate::trouble::line_note;
use lgp_stream::{LineBytes, first_line};
use std::alloc::{AllocError, Allocator};
use std::marker::Model;

/// A file whose lines are typed. Clauses see its name, the number of the line that was typed last, and the lines that are left.
#[derive(Drop)]
pub(crate) struct OpenFile<A: Allocator> {
    name: Vec<u8, A>,
    text: Vec<u8, A>,
    /// How many bytes of the text are left.
    left: usize,
    /// How many lines were typed.
    number: u64,
}

impl<A: Allocator> Model for OpenFile<A> {
    ghost use Rattle.std.specs.Prelude.{◌≤◌, ◌+◌, ◌-◌, drop, vec_len};
    ghost use Rattle.std.specs.Str.Lines.{lines};
    ghost use Rattle.lgp_desk.specs.Desk.{Opened};

    ghost Value = { Opened };

    ghost view = { λ file. record {
      name = file.name.items;
      number = file.number;
      left = lines (drop (vec_len file.text - file.left) file.text.items);
    } };

    ghost invariant = { λ file. file.number + file.left ≤ vec_len file.text };
}

/// The end of a text, with so many bytes.
fn end_of(text: &[u8], left: usize) -> &[u8]
    requires { left ≤ length text.now }
    ensures { result.now ≡ drop (length text.now - left) text.now }
{
    &text[text.len() - left..]
}

impl<A: Allocator> OpenFile<A> {
    /// A file of which no line was typed yet.
    pub(crate) fn new(name: Vec<u8, A>, text: Vec<u8, A>) -> OpenFile<A>
        ensures { result ≡ record { name = name.items; number = 0; left = lines text.items } }
    {
        let left = text.len();
        OpenFile {
            name,
            text,
            left,
            number: 0,
        }
    }

    /// The next line, if there is one.
    pub(crate) fn next_line(&mut self) -> Option<LineBytes>
        ensures next { HasNext self.old self.new result }
    {
        if self.left == 0 {
            return None;
        }
        let first = first_line(end_of(&self.text, self.left));
        self.left = first.rest.len();
        self.number += 1;
        Some(first.line)
    }

    /// Where the line comes from that was typed last.
    pub(crate) fn note<B: Allocator>(&self, alloc: B) -> Result<Vec<u8, B>, AllocError>
        ensures { IfOk result (λ note. note.items ≡ line_note self.now.number self.now.name) }
    {
        line_note(alloc, self.number, &self.name)
    }
}
