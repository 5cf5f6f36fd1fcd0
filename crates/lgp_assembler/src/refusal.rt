//! Why a source does not assemble.

ghost use Rattle.std.specs.Prelude.{◌≡◌};
ghost use Rattle.lgp_assembler.specs.KindNames as spec;

use std::alloc::{AllocError, Allocator, Global};
use std::fmt;
use std::marker::Model;
use thiserror::Error;

/// What is wrong with a line. Of the kinds that a line meets, the first in this order is reported.
#[derive(Clone, Copy, Debug, PartialEq, Eq)]
pub enum FaultKind {
    /// A byte that is neither a tab nor one of 32 to 126.
    BadByte,
    /// A label or an operation after the end line.
    AfterEnd,
    /// More operands than the operation takes.
    Extra,
    /// A label that is not a letter `a` to `z` and then at most seven letters or digits.
    BadLabel,
    /// A label that an earlier line has.
    LabelTwice,
    /// An operation that there is not.
    UnknownOrder,
    /// Fewer operands than the operation needs.
    MissingOperand,
    /// An operand that is not in its form.
    BadOperand,
    /// A name that no line has as its label.
    UnknownName,
    /// An address outside the drum, or a number that does not fit its word.
    OutOfRange,
    /// A word past the last place of the drum.
    PastEnd,
    /// A word at one of the loader's places.
    InLoader,
    /// A word at the place of an earlier line's word.
    PlaceTaken,
    /// A source without an end line.
    NoEnd,
}

/// A fault, with the number of its line.
#[derive(Clone, Copy, Debug, PartialEq, Eq)]
pub struct Fault {
    pub line: u64,
    pub kind: FaultKind,
}

impl fmt::Display for FaultKind {
    ghost use Rattle.std.specs.Prelude.{Some};
    ghost use Rattle.lgp_assembler.specs.KindNames.{kind_name};

    ghost output = { λ kind. Some (kind_name kind) };

    fn fmt<W: fmt::Write>(&self, f: &mut fmt::Formatter<W>) -> fmt::Result {
        f.write_str(self.name())
    }
}

impl FaultKind {
    /// The name of the kind.
    pub fn name(self) -> &'static str
        ensures { result.now ≡ spec.kind_name self }
    {
        match self {
            FaultKind::BadByte => "BadByte",
            FaultKind::AfterEnd => "AfterEnd",
            FaultKind::Extra => "Extra",
            FaultKind::BadLabel => "BadLabel",
            FaultKind::LabelTwice => "LabelTwice",
            FaultKind::UnknownOrder => "UnknownOrder",
            FaultKind::MissingOperand => "MissingOperand",
            FaultKind::BadOperand => "BadOperand",
            FaultKind::UnknownName => "UnknownName",
            FaultKind::OutOfRange => "OutOfRange",
            FaultKind::PastEnd => "PastEnd",
            FaultKind::InLoader => "InLoader",
            FaultKind::PlaceTaken => "PlaceTaken",
            FaultKind::NoEnd => "NoEnd",
        }
    }
}

/// The faults of a source in order of its lines. Clauses see their list.
#[derive(Drop)]
pub struct FaultList<A: Allocator = Global> {
    faults: Vec<Fault, A>,
}

impl<A: Allocator> Model for FaultList<A> {
    ghost use Rattle.std.specs.Prelude.{List};
    ghost use Rattle.lgp_assembler.specs.declared.refusal.Fault.{Fault};

    ghost Value = { List Fault };

    ghost view = { λ list. list.faults.items };
}

impl<A: Allocator> fmt::Debug for FaultList<A> {
    fn fmt<W: fmt::Write>(&self, f: &mut fmt::Formatter<W>) -> fmt::Result {
        self.faults().fmt(f)
    }
}

impl<A: Allocator> FaultList<A> {
    pub(crate) fn new(faults: Vec<Fault, A>) -> FaultList<A>
        ensures { result ≡ faults.items }
    {
        FaultList { faults }
    }

    /// The faults, one for each faulty line.
    pub fn faults(&self) -> &[Fault]
        ensures { result.now ≡ self.now }
    {
        self.faults.as_slice()
    }
}

/// Why a source gave no image.
#[derive(Drop, Error)]
pub enum AssembleError<A: Allocator = Global> {
    /// It has faults.
    #[error("the source has faults")]
    Faults(FaultList<A>),
    /// There was no memory for the image or for what its making takes.
    #[error("no memory for the image")]
    Memory,
}

impl<A: Allocator> fmt::Debug for AssembleError<A> {
    fn fmt<W: fmt::Write>(&self, f: &mut fmt::Formatter<W>) -> fmt::Result {
        match self {
            AssembleError::Faults(list) => write!(f, "Faults({list:?})"),
            AssembleError::Memory => f.write_str("Memory"),
        }
    }
}

impl<A: Allocator> From<AllocError> for AssembleError<A> {
    ghost use Rattle.std.specs.Prelude.{◌≡◌};
    ghost use Rattle.lgp_assembler.specs.declared.refusal.AssembleError.TheVariants.{Memory};

    ghost from_gives = { λ _ error. error ≡ Memory };

    fn from(_: AllocError) -> Self {
        AssembleError::Memory
    }
}
