//! Names of files.

ghost use Rattle.std.specs.Prelude.{◌≡◌, ◌++◌, ◌∷◌, [], IfOk, OnErr, OnOk};

use std::alloc::{AllocError, Allocator, Global};
use std::marker::Model;

/// The name of a file, as it was typed.
#[derive(Debug, Drop)]
pub struct FileName<A: Allocator = Global> {
    text: String<A>,
}

impl<A: Allocator> Model for FileName<A> {
    ghost use Rattle.std.specs.Prelude.{List, ℕ};
    ghost use Rattle.std.specs.String.{string_bytes};

    ghost Value = { List ℕ };

    ghost view = { λ name. string_bytes name.text };
}

impl<A: Allocator> FileName<A> {
    /// The name that is this text.
    pub fn new(alloc: A, text: &str) -> Result<FileName<A>, AllocError>
        ensures { IfOk result (λ name. name ≡ text.now) }
    {
        let text = String::from_str(alloc, text)?;
        Ok(FileName { text })
    }

    /// The name's text.
    pub fn text(&self) -> &str
        ensures { result.now ≡ self.now }
    {
        self.text.as_str()
    }
}

/// Names of files, in the order in which they were typed.
#[derive(Debug, Drop)]
pub struct FileNames<A: Allocator = Global> {
    names: Vec<FileName<A>, A>,
}

impl<A: Allocator> Model for FileNames<A> {
    ghost use Rattle.std.specs.Prelude.{List, ℕ};

    ghost Value = { List (List ℕ) };

    ghost view = { λ files. files.names.items };
}

impl<A: Allocator> FileNames<A> {
    /// No names.
    pub fn new(alloc: A) -> FileNames<A>
        ensures { result ≡ [] }
    {
        FileNames {
            names: Vec::new(alloc),
        }
    }

    /// One name more, after the others; where memory is refused the names stay as they are.
    pub fn push(&mut self, name: FileName<A>) -> Result<(), AllocError>
        ensures ok { OnOk result (self.new ≡ self.old ++ name ∷ []) }
        ensures err { OnErr result (self.new ≡ self.old) }
    {
        self.names.push(name)?;
        Ok(())
    }

    /// The names, first to last.
    pub fn names(&self) -> &[FileName<A>]
        ensures { result.now ≡ self.now }
    {
        self.names.as_slice()
    }
}
