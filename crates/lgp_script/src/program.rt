//! A source that has assembled, and one that has faults.

ghost use Rattle.std.specs.Prelude.{◌≡◌, ◌≢◌, [], IfErr, IfOk, OnOk};
ghost use Rattle.lgp_assembler.specs.Answers.{IfFaults};
ghost use Rattle.lgp_assembler.specs.Image.{faults_of, image_of};
ghost use Rattle.lgp_listing.specs.Listing.{listing_of};

use lgp_assembler::{AssembleError, Fault, FaultList, Image, assemble};
use lgp_listing::listing_from_image;
use std::alloc::{AllocError, Allocator};
use std::marker::Model;

/// A source without faults, and what it has made. Clauses see the source.
pub struct Program<A: Allocator> {
    source: Vec<u8, A>,
    image: Image<A>,
}

// Written out: a derived drop is copied to each place where one is dropped.
impl<A: Allocator> Drop for Program<A> {
    fn drop(self) {
        let Program {
            source: _,
            image: _,
        } = self;
    }
}

impl<A: Allocator> Model for Program<A> {
    ghost use Rattle.std.specs.Prelude.{List, ℕ};
    ghost use Rattle.lgp_script.specs.LaboratoryInside.{IsProgram};

    ghost Value = { List ℕ };

    ghost view = { λ program. program.source.items };

    ghost invariant = { λ program. IsProgram program.source.items program.image };
}

impl<A: Allocator + Copy> Program<A> {
    /// Assembles a source; the refusals are those of `assemble`.
    pub fn new(alloc: A, source: Vec<u8, A>) -> Result<Program<A>, AssembleError<A>>
        ensures source { IfOk result (λ program. program ≡ source.items) }
        ensures faultless { OnOk result (faults_of source.items ≡ []) }
        ensures faults { IfErr result (λ error.
            IfFaults error (λ faults. faults ≡ faults_of source.items)) }
        ensures faulty { IfErr result (λ error. IfFaults error (λ faults. faults ≢ [])) }
    {
        let image = assemble(alloc, &source)?;
        Ok(Program::of(source, image))
    }

    /// A source without faults, with what it has made.
    pub fn of(source: Vec<u8, A>, image: Image<A>) -> Program<A>
        requires faultless { faults_of source.items ≡ [] }
        requires made { image ≡ image_of source.items }
        ensures { result ≡ source.items }
    {
        Program { source, image }
    }

    /// The source.
    pub fn source(&self) -> &[u8]
        ensures { result.now ≡ self.now }
    {
        &self.source
    }

    /// What the source has made.
    pub fn image(&self) -> &Image<A>
        ensures { result.now ≡ image_of self.now }
    {
        &self.image
    }

    /// The listing of the source.
    pub fn listing(&self, alloc: A) -> Result<Vec<u8, A>, AllocError>
        ensures { IfOk result (λ text. text.items ≡ listing_of self.now) }
    {
        listing_from_image(alloc, &self.source, &self.image)
    }
}

/// A source with its faults. Clauses see the source.
pub struct Faulty<A: Allocator> {
    source: Vec<u8, A>,
    faults: FaultList<A>,
}

// Written out: a derived drop is copied to each place where one is dropped.
impl<A: Allocator> Drop for Faulty<A> {
    fn drop(self) {
        let Faulty {
            source: _,
            faults: _,
        } = self;
    }
}

impl<A: Allocator> Model for Faulty<A> {
    ghost use Rattle.std.specs.Prelude.{List, ℕ, ◌≡◌};
    ghost use Rattle.lgp_assembler.specs.Image.{faults_of};

    ghost Value = { List ℕ };

    ghost view = { λ faulty. faulty.source.items };

    ghost invariant = { λ faulty. faulty.faults ≡ faults_of faulty.source.items };
}

impl<A: Allocator> Faulty<A> {
    /// A source with its faults.
    pub fn new(source: Vec<u8, A>, faults: FaultList<A>) -> Faulty<A>
        requires { faults ≡ faults_of source.items }
        ensures { result ≡ source.items }
    {
        Faulty { source, faults }
    }

    /// The source.
    pub fn source(&self) -> &[u8]
        ensures { result.now ≡ self.now }
    {
        &self.source
    }

    /// Its faults, in order of its lines.
    pub fn faults(&self) -> &[Fault]
        ensures { result.now ≡ faults_of self.now }
    {
        self.faults.faults()
    }
}
