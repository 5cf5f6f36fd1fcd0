//! The pass over a source for its words and its faults.

ghost use Rattle.std.specs.Prelude.{◌≡◌, ◌++◌, [], None, true, IfOk, OnOk, option_to_list, option_map, slice_set, if◌then◌else◌};
ghost use Rattle.std.specs.Option.{option_copied, option_or};
ghost use Rattle.lgp_word.specs.Address.{IsAddress};
ghost use Rattle.lgp_word.specs.Word.{IsWord};
ghost use Rattle.lgp_assembler.specs.Faults.{numbered_fault, line_meaning};
ghost use Rattle.lgp_assembler.specs.FieldsSeenInside.{fields_seen};
ghost use Rattle.lgp_assembler.specs.Image as spec;
ghost use Rattle.lgp_assembler.specs.Image.{all_lines};
ghost use Rattle.lgp_assembler.specs.Places.{has_word};
ghost use Rattle.lgp_assembler.specs.ScanInside.{ArePlacesTaken, coming_fault, IfCell, SymbolFits, symbol_at, IsDraftOf};

use crate::address_operands::in_range;
use crate::conditions::{fault_of, line_meaning};
use crate::line_fields::{Fields, fields_of};
use crate::name_table::Names;
use crate::operands::{Meaning, OperandFault};
use crate::operations::Operation;
use crate::output::{DRUM_SIZE, Name, Parts};
use crate::passes::Scan;
use crate::refusal::{Fault, FaultKind};
use crate::taken_places::{is_taken, none_taken, take_place};
use lgp_source::Lines;
use lgp_word::{Address, Word};
use std::alloc::{AllocError, Allocator};

/// What the lines so far have given: their faults, and while there are none their words, their
/// start and their names.
pub struct Draft<A: Allocator> {
    /// For each place of the drum whether a word lies there.
    pub taken: Vec<bool, A>,
    pub faults: Vec<Fault, A>,
    pub parts: Parts<A>,
}

// Written out: a derived drop is copied to each place where one is dropped.
impl<A: Allocator> Drop for Draft<A> {
    fn drop(self) {
        let Draft {
            taken: _,
            faults: _,
            parts: _,
        } = self;
    }
}

/// Adds the fault of a line, if it has one.
fn add_fault<A: Allocator>(
    faults: &mut Vec<Fault, A>,
    line: u64,
    kind: Option<FaultKind>,
) -> Result<(), AllocError>
    ensures { let more = option_to_list (option_map (numbered_fault line) kind) in
        OnOk result (faults.new.items ≡ faults.old.items ++ more) }
{
    let Some(kind) = kind else {
        return Ok(());
    };
    faults.push(Fault { line, kind })?;
    Ok(())
}

/// Adds the word of a line, if it has one.
fn add_cell<A: Allocator>(
    cells: &mut Vec<(Address, Word), A>,
    place: u64,
    meaning: &Result<Meaning, OperandFault>,
) -> Result<(), AllocError>
    ensures cells { OnOk result
        (IfCell meaning.now (λ word. IsAddress place)
        → cells.new.items ≡ cells.old.items ++ option_to_list (spec.cell_at place meaning.now)) }
    ensures word { IfCell meaning.now IsWord }
{
    let Ok(Meaning::Cell(word)) = meaning else {
        return Ok(());
    };
    let word = *word;
    // That its number is a word is what the image says of it.
    let _ = word.get();
    let Ok(address) = in_range(place) else {
        return Ok(());
    };
    cells.push((address, word))?;
    Ok(())
}

/// Adds the label of a line, if it has one.
fn add_symbol<A: Allocator>(
    symbols: &mut Vec<(Name, u16), A>,
    label: Option<&[u8]>,
    place: u64,
) -> Result<(), AllocError>
    ensures { let label = option_copied label.entry in OnOk result (SymbolFits label place
        → symbols.new.items ≡ symbols.old.items ++ option_to_list (symbol_at label place)) }
{
    let Some(label) = label else {
        return Ok(());
    };
    if place > DRUM_SIZE {
        return Ok(());
    }
    let Some(name) = Name::new(label) else {
        return Ok(());
    };
    symbols.push((name, place as u16))?;
    Ok(())
}

/// The operand of an end line.
fn start_at(
    operation: Option<Operation>,
    meaning: &Result<Meaning, OperandFault>,
) -> Option<Address>
    ensures { result ≡ spec.start_at operation meaning.now }
{
    match (operation, meaning) {
        (Some(Operation::End), Ok(Meaning::Place(address))) => Some(*address),
        _ => None,
    }
}

impl<A: Allocator> Parts<A> {
    /// Adds what a line without a fault gives in its place.
    fn add(
        &mut self,
        fields: &Fields,
        place: u64,
        meaning: &Result<Meaning, OperandFault>,
    ) -> Result<(), AllocError>
        ensures cells { let more = option_to_list (spec.cell_at place meaning.now) in
            OnOk result (IfCell meaning.now (λ word. IsAddress place)
            → self.new.cells.items ≡ self.old.cells.items ++ more) }
        ensures words { OnOk result (IfCell meaning.now IsWord) }
        ensures start { let start = spec.start_at fields.now.operation meaning.now in
            OnOk result (self.new.start ≡ option_or self.old.start start) }
        ensures symbols { let label = option_copied fields.now.label in
            let more = option_to_list (symbol_at label place) in
            OnOk result (SymbolFits label place
            → self.new.symbols.items ≡ self.old.symbols.items ++ more) }
    {
        add_cell(&mut self.cells, place, meaning)?;
        add_symbol(&mut self.symbols, fields.label, place)?;
        if self.start.is_none() {
            self.start = start_at(fields.operation, meaning);
        }
        Ok(())
    }
}

impl<A: Allocator> Draft<A> {
    /// Adds what the line that comes gives in its place, with the names of the whole source.
    pub fn add<'a>(
        &mut self,
        names: &Names<'a, A>,
        scan: &Scan<'a, A>,
        fields: &Fields<'a>,
        place: u64,
    ) -> Result<(), AllocError>
        ensures taken { OnOk result (self.new.taken.items ≡ (if has_word (fields_seen fields.now)
            then slice_set self.old.taken.items place true else self.old.taken.items)) }
        ensures faults { let line = fields_seen fields.now in
            let meaning = line_meaning names.now place line in
            let taken = self.old.taken.items in
            let kind = coming_fault line meaning place scan.now.ended scan.now.names taken in
            let more = option_to_list (option_map (numbered_fault line.number) kind) in
            OnOk result (self.new.faults.items ≡ self.old.faults.items ++ more) }
        ensures cells { let meaning = line_meaning names.now place (fields_seen fields.now) in
            let more = option_to_list (spec.cell_at place meaning) in
            OnOk result (self.new.faults.items ≡ [] → IfCell meaning (λ word. IsAddress place)
            → self.new.parts.cells.items ≡ self.old.parts.cells.items ++ more) }
        ensures words { let meaning = line_meaning names.now place (fields_seen fields.now) in
            OnOk result (self.new.faults.items ≡ [] → IfCell meaning IsWord) }
        ensures start { let meaning = line_meaning names.now place (fields_seen fields.now) in
            let start = spec.start_at fields.now.operation meaning in
            OnOk result (self.new.faults.items ≡ []
            → self.new.parts.start ≡ option_or self.old.parts.start start) }
        ensures symbols { let label = option_copied fields.now.label in
            let more = option_to_list (symbol_at label place) in
            OnOk result (self.new.faults.items ≡ [] → SymbolFits label place
            → self.new.parts.symbols.items ≡ self.old.parts.symbols.items ++ more) }
    {
        let meaning = line_meaning(names, place, fields);
        let was_taken = is_taken(&self.taken, place);
        if fields.has_word() {
            take_place(&mut self.taken, place);
        }
        let kind = fault_of(scan, fields, place, was_taken, &meaning);
        add_fault(&mut self.faults, fields.number, kind)?;
        if !self.faults.is_empty() {
            return Ok(());
        }
        self.parts.add(fields, place, &meaning)?;
        Ok(())
    }

    /// The faults and the parts, handed out.
    pub fn into_faults_and_parts(self) -> (Vec<Fault, A>, Parts<A>)
        ensures { (result.0 ≡ self.faults) × (result.1 ≡ self.parts) }
    {
        let Draft {
            taken: _,
            faults,
            parts,
        } = self;
        (faults, parts)
    }
}

impl<A: Allocator + Copy> Draft<A> {
    /// Nothing yet.
    pub fn new(alloc: A) -> Result<Draft<A>, AllocError>
        ensures taken { IfOk result (λ draft. ArePlacesTaken draft.taken.items []) }
        ensures faults { IfOk result (λ draft. draft.faults.items ≡ []) }
        ensures cells { IfOk result (λ draft. draft.parts.cells.items ≡ []) }
        ensures start { IfOk result (λ draft. draft.parts.start ≡ None) }
        ensures symbols { IfOk result (λ draft. draft.parts.symbols.items ≡ []) }
    {
        Ok(Draft {
            taken: none_taken(alloc)?,
            faults: Vec::new(alloc),
            parts: Parts::new(alloc),
        })
    }
}

/// The draft of all lines of a source, with its names.
pub fn draft_source<'a, A: Allocator + Copy>(
    alloc: A,
    source: &'a [u8],
    names: &Names<'a, A>,
) -> Result<Draft<A>, AllocError>
    ensures { let lines = all_lines source.now in
        IfOk result (λ draft. IsDraftOf names.now draft.faults.items
        draft.parts.cells.items draft.parts.start draft.parts.symbols.items lines) }
{
    let mut draft = Draft::new(alloc)?;
    let mut scan = Scan::new(alloc);
    for line in Lines::new(source) {
        let fields = fields_of(&line);
        let place = scan.place_of(&fields);
        draft.add(names, &scan, &fields, place)?;
        scan.pass(&fields, place)?;
    }
    Ok(draft)
}
