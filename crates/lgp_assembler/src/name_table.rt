//! The names of a source with their values.

ghost use Rattle.std.specs.Prelude.{◌≡◌, ◌++◌, [], ◌∷◌, None, OnOk, OnErr, List, ℕ};
ghost use Rattle.std.specs.Str.{bytes_eq};
ghost use Rattle.std.specs.Map.{lookup};

use indexmap::IndexMap;
use std::alloc::{AllocError, Allocator};
use std::hash::{BuildHasherDefault, FoldHasher};
use std::marker::Model;

/// Names that have values.
pub trait NameValues {
    /// The names, each with its value. Of several that are alike the first counts.
    ghost values: { Self → List (List ℕ × ℕ) };

    /// The value of a name, or `None` where it is not among them.
    fn value(&self, name: &[u8]) -> Option<u64>
        ensures { result ≡ lookup (bytes_eq name.now) (values self.now) };
}

/// The names of some lines in order, each with its value. Clauses see the list of both.
pub struct Names<'a, A: Allocator> {
    entries: IndexMap<&'a [u8], u64, BuildHasherDefault<FoldHasher>, A>,
}

// Written out: a derived drop is copied to each place where one is dropped.
impl<'a, A: Allocator> Drop for Names<'a, A> {
    fn drop(self) {
        let Names { entries: _ } = self;
    }
}

impl<'a, A: Allocator> Model for Names<'a, A> {
    ghost use Rattle.std.specs.Prelude.{List, ℕ};
    ghost use Rattle.lgp_assembler.specs.NameTableInside.{names_seen};

    ghost Value = { List (List ℕ × ℕ) };

    ghost view = { λ names. names_seen names.entries.entries };
}

impl<'a, A: Allocator + Copy> Names<'a, A> {
    /// No names.
    pub fn new(alloc: A) -> Names<'a, A>
        ensures { result ≡ [] }
    {
        Names {
            entries: IndexMap::new(alloc),
        }
    }
}

impl<A: Allocator> NameValues for Names<'_, A> {
    ghost values = { λ names. names };

    fn value(&self, name: &[u8]) -> Option<u64> {
        self.entries.get(name).copied()
    }
}

impl<'a, A: Allocator + Clone> Names<'a, A> {
    /// Adds a name that is not there, with its value.
    pub fn add(&mut self, name: &'a [u8], value: u64) -> Result<(), AllocError>
        requires { lookup (bytes_eq name.now) self.old ≡ None }
        ensures ok { OnOk result (self.new ≡ self.old ++ (name.now, value) ∷ []) }
        ensures err { OnErr result (self.new ≡ self.old) }
    {
        self.entries.insert(name, value)?;
        Ok(())
    }
}
