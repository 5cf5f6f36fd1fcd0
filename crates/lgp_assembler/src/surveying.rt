//! What is known of each line of a source, also while the source has faults.

ghost use Rattle.std.specs.Prelude.{◌≡◌, ◌++◌, ◌∷◌, ◌||◌, [], None, IfOk, OnOk, option_to_list, slice_set, true, if◌then◌else◌};
ghost use Rattle.std.specs.Option.{option_copied};
ghost use Rattle.lgp_assembler.specs.Faults.{line_meaning};
ghost use Rattle.lgp_assembler.specs.FieldsSeenInside.{fields_seen};
ghost use Rattle.lgp_assembler.specs.Image.{all_lines};
ghost use Rattle.lgp_assembler.specs.Places.{has_ended, has_word, is_end, new_label};
ghost use Rattle.lgp_assembler.specs.ScanInside.{ArePlacesTaken, coming_fault};
ghost use Rattle.lgp_assembler.specs.Survey as spec;

use crate::address_operands::{base_len, in_range, is_name};
use crate::conditions::{fault_of, line_meaning};
use crate::line_fields::{Fields, fields_of};
use crate::name_table::{NameValues, Names};
use crate::operands::{Meaning, OperandFault};
use crate::operations::Operation;
use crate::passes::{Scan, add_label, scan_source};
use crate::refusal::FaultKind;
use crate::taken_places::{is_taken, none_taken, take_place};
use lgp_source::Lines;
use lgp_word::{Address, Word};
use std::alloc::{AllocError, Allocator};

/// What is known of a line of a source.
#[derive(Clone, Copy)]
pub struct LineSurvey {
    /// Where its word lies, or what its label names.
    pub place: Option<Address>,
    /// Its word, if it has one and no fault.
    pub word: Option<Word>,
    pub fault: Option<FaultKind>,
    /// The number of the line that has the name in its operand as its label.
    pub declared: Option<u64>,
    /// The number of the line that had its label before.
    pub first: Option<u64>,
}

/// The names of the lines so far, each with the number of its line.
#[derive(Drop)]
struct Declared<'a, A: Allocator> {
    names: Names<'a, A>,
    ended: bool,
}

impl<'a, A: Allocator + Clone> Declared<'a, A> {
    /// Passes a line.
    fn pass(&mut self, fields: &Fields<'a>) -> Result<(), AllocError>
        ensures names { let label = option_copied fields.now.label in
            let new = new_label label fields.now.number self.old.ended self.old.names in
            OnOk result (self.new.names ≡ self.old.names ++ option_to_list new) }
        ensures ended { OnOk result
            (self.new.ended ≡ (is_end fields.now.operation || self.old.ended)) }
    {
        add_label(&mut self.names, fields.label, fields.number, self.ended)?;
        if matches!(fields.operation, Some(Operation::End)) {
            self.ended = true;
        }
        Ok(())
    }
}

/// The names of all lines of a source, each with the number of its line.
fn declare_source<'a, A: Allocator + Copy>(
    alloc: A,
    source: &'a [u8],
) -> Result<Declared<'a, A>, AllocError>
    ensures names { IfOk result (λ it. it.names ≡ spec.declared_in (all_lines source.now)) }
    ensures ended { IfOk result (λ it. it.ended ≡ has_ended (all_lines source.now)) }
{
    let mut declared = Declared {
        names: Names::new(alloc),
        ended: false,
    };
    for line in Lines::new(source) {
        declared.pass(&fields_of(&line))?;
    }
    Ok(declared)
}

/// The names that lines of a source have as labels, each with the number of its first line that counts.
pub fn declared_names<'a, A: Allocator + Copy>(
    alloc: A,
    source: &'a [u8],
) -> Result<Names<'a, A>, AllocError>
    ensures { IfOk result (λ names. names ≡ spec.declared_in (all_lines source.now)) }
{
    let Declared { names, ended: _ } = declare_source(alloc, source)?;
    Ok(names)
}

/// Whether the operand of an operation is an address.
fn takes_address(operation: Operation) -> bool
    ensures { result ≡ spec.takes_address operation }
{
    matches!(
        operation,
        Operation::Order(_) | Operation::MinusT | Operation::End
    )
}

/// The name in an address operand.
fn name_in(operation: Operation, text: &[u8]) -> Option<&[u8]>
    ensures { option_copied result ≡ spec.name_in operation text.now }
{
    let (base, _) = text.split_at(base_len(text));
    if takes_address(operation) && is_name(base) {
        Some(base)
    } else {
        None
    }
}

/// The name in the operand of a line.
fn operand_name<'a>(operation: Option<Operation>, first: Option<&'a [u8]>) -> Option<&'a [u8]>
    ensures { option_copied result ≡ spec.operand_name operation (option_copied first.entry) }
{
    match (operation, first) {
        (Some(operation), Some(text)) => name_in(operation, text),
        _ => None,
    }
}

/// The line that has a name as its label.
fn line_of_name<A: Allocator>(declared: &Names<A>, name: Option<&[u8]>) -> Option<u64>
    ensures { result ≡ spec.line_of_name declared.now (option_copied name.entry) }
{
    match name {
        Some(name) => declared.value(name),
        None => None,
    }
}

/// A line, where it is not the one of this number.
fn other_than(number: u64, line: Option<u64>) -> Option<u64>
    ensures { result ≡ spec.other_than number line }
{
    match line {
        Some(line) if line != number => Some(line),
        _ => None,
    }
}

/// Where the word of a line lies, or what its label names, if that is on the drum.
fn place_shown(fields: &Fields, place: u64) -> Option<Address>
    ensures { result ≡ spec.place_shown (fields_seen fields.now) place }
{
    if !(fields.label.is_some() || fields.has_word()) {
        return None;
    }
    match in_range(place) {
        Ok(address) => Some(address),
        Err(_) => None,
    }
}

/// The word of a line; one with a fault has none.
fn word_shown(fault: Option<FaultKind>, meaning: &Result<Meaning, OperandFault>) -> Option<Word>
    ensures { result ≡ spec.word_shown fault meaning.now }
{
    match (fault, meaning) {
        (None, Ok(Meaning::Cell(word))) => Some(*word),
        _ => None,
    }
}

/// What is known of a line with its place, with what its operands stand for there, and with its fault.
#[tactic(auto, unfolding(crate::specs::Survey::survey_at))]
fn survey_at<'a, A: Allocator>(
    declared: &Names<'a, A>,
    fields: &Fields<'a>,
    place: u64,
    meaning: &Result<Meaning, OperandFault>,
    fault: Option<FaultKind>,
) -> LineSurvey
    ensures { result
        ≡ spec.survey_at declared.now (fields_seen fields.now) place meaning.now fault }
{
    LineSurvey {
        place: place_shown(fields, place),
        word: word_shown(fault, meaning),
        fault,
        declared: line_of_name(declared, operand_name(fields.operation, fields.first)),
        first: other_than(fields.number, line_of_name(declared, fields.label)),
    }
}

/// What is known of the lines so far.
struct Findings<A: Allocator> {
    /// For each place of the drum whether a word lies there.
    taken: Vec<bool, A>,
    lines: Vec<LineSurvey, A>,
}

// Written out: a derived drop is copied to each place where one is dropped.
impl<A: Allocator> Drop for Findings<A> {
    fn drop(self) {
        let Findings { taken: _, lines: _ } = self;
    }
}

impl<A: Allocator> Findings<A> {
    /// Adds the line that comes, in its place, with the names of the whole source.
    fn add<'a>(
        &mut self,
        names: &Names<'a, A>,
        declared: &Names<'a, A>,
        scan: &Scan<'a, A>,
        fields: &Fields<'a>,
        place: u64,
    ) -> Result<(), AllocError>
        ensures taken { OnOk result (self.new.taken.items ≡ (if has_word (fields_seen fields.now)
            then slice_set self.old.taken.items place true else self.old.taken.items)) }
        ensures lines { let line = fields_seen fields.now in
            let meaning = line_meaning names.now place line in
            let taken = self.old.taken.items in
            let kind = coming_fault line meaning place scan.now.ended scan.now.names taken in
            OnOk result (self.new.lines.items ≡ self.old.lines.items
            ++ spec.survey_at declared.now line place meaning kind ∷ []) }
    {
        let meaning = line_meaning(names, place, fields);
        let was_taken = is_taken(&self.taken, place);
        if fields.has_word() {
            take_place(&mut self.taken, place);
        }
        let kind = fault_of(scan, fields, place, was_taken, &meaning);
        self.lines
            .push(survey_at(declared, fields, place, &meaning, kind))?;
        Ok(())
    }
}

impl<A: Allocator + Copy> Findings<A> {
    /// Nothing yet.
    fn new(alloc: A) -> Result<Findings<A>, AllocError>
        ensures taken { IfOk result (λ findings. ArePlacesTaken findings.taken.items []) }
        ensures lines { IfOk result (λ findings. findings.lines.items ≡ []) }
    {
        Ok(Findings {
            taken: none_taken(alloc)?,
            lines: Vec::new(alloc),
        })
    }
}

/// What is known of all lines of a source, with its names.
fn survey_lines<'a, A: Allocator + Copy>(
    alloc: A,
    source: &'a [u8],
    names: &Names<'a, A>,
    declared: &Names<'a, A>,
) -> Result<Findings<A>, AllocError>
    ensures { IfOk result (λ findings. findings.lines.items
        ≡ spec.survey_in names.now declared.now (all_lines source.now)) }
{
    let mut findings = Findings::new(alloc)?;
    let mut scan = Scan::new(alloc);
    for line in Lines::new(source) {
        let fields = fields_of(&line);
        let place = scan.place_of(&fields);
        findings.add(names, declared, &scan, &fields, place)?;
        scan.pass(&fields, place)?;
    }
    Ok(findings)
}

impl<A: Allocator> Findings<A> {
    /// The lines, and after them the line that is missing where a source has no end line.
    fn into_lines(self, ended: bool) -> Result<Vec<LineSurvey, A>, AllocError>
        ensures { IfOk result (λ lines. lines.items
            ≡ self.lines.items ++ spec.end_survey ended) }
    {
        let Findings {
            taken: _,
            mut lines,
        } = self;
        if !ended {
            lines.push(MISSING_LINE)?;
        }
        Ok(lines)
    }
}

/// What is known of the line that is missing where a source has no end line.
const MISSING_LINE: LineSurvey = LineSurvey {
    place: None,
    word: None,
    fault: Some(FaultKind::NoEnd),
    declared: None,
    first: None,
};

/// What is known of each line of a source, in order of the lines; where it has no end line, that line comes last.
#[tactic(auto, unfolding(crate::specs::Survey::survey_of))]
pub fn survey<A: Allocator + Copy>(
    alloc: A,
    source: &[u8],
) -> Result<Vec<LineSurvey, A>, AllocError>
    ensures { IfOk result (λ lines. lines.items ≡ spec.survey_of source.now) }
{
    let scan = scan_source(alloc, source)?;
    let declared = declare_source(alloc, source)?;
    let findings = survey_lines(alloc, source, &scan.names, &declared.names)?;
    findings.into_lines(declared.ended)
}
