//! The pass over a source for its names.

ghost use Rattle.std.specs.Prelude.{◌≡◌, ◌+◌, ◌<◌, ◌≤◌, ◌^◌, ◌++◌, false, option_to_list, if◌then◌else◌, OnOk, IfOk, [], ◌||◌, max};
ghost use Rattle.std.specs.Option.{option_copied};
ghost use Rattle.lgp_assembler.specs.Places as spec;
ghost use Rattle.lgp_assembler.specs.FieldsSeenInside.{fields_seen};
ghost use Rattle.lgp_assembler.specs.Image.{all_lines};
ghost use Rattle.lgp_assembler.specs.ScanInside.{Stands};

use crate::line_fields::{Fields, fields_of};
use crate::name_table::{NameValues, Names};
use crate::operations::Operation;
use lgp_source::Lines;
use lgp_word::Address;
use std::alloc::{AllocError, Allocator};

/// What the lines so far say of the line that comes.
#[derive(Drop)]
pub struct Scan<'a, A: Allocator> {
    /// How many lines there are so far.
    pub lines: u64,
    /// The place of a line that is no `org`.
    pub place: u64,
    /// Whether the end line has been passed.
    pub ended: bool,
    pub names: Names<'a, A>,
}

/// The address that an `org` with an address names.
fn org_address(operation: Option<Operation>, first: Option<&[u8]>) -> Option<Address>
    ensures { result ≡ spec.org_address operation (option_copied first.entry) }
{
    match (operation, first) {
        (Some(Operation::Org), Some(text)) => Address::parse(text),
        _ => None,
    }
}

/// Adds a label that is new, with its place, where the source has not ended.
pub fn add_label<'a, A: Allocator + Clone>(
    names: &mut Names<'a, A>,
    label: Option<&'a [u8]>,
    place: u64,
    ended: bool,
) -> Result<(), AllocError>
    ensures { let new = spec.new_label (option_copied label.entry) place ended names.old in
        OnOk result (names.new ≡ names.old ++ option_to_list new) }
{
    let Some(label) = label else {
        return Ok(());
    };
    if ended || names.value(label).is_some() {
        return Ok(());
    }
    names.add(label, place)
}

impl<'a, A: Allocator> Scan<'a, A> {
    /// The place of the line that comes.
    pub fn place_of(&self, fields: &Fields<'a>) -> u64
        ensures value { result ≡ spec.place_reached (fields_seen fields.now) self.now.place }
        ensures bound { result ≤ max self.now.place 4095 }
    {
        match org_address(fields.operation, fields.first) {
            Some(address) => u64::from(address.number()),
            None => self.place,
        }
    }
}

impl<'a, A: Allocator + Clone> Scan<'a, A> {
    /// Passes a line, which has its place.
    pub fn pass(&mut self, fields: &Fields<'a>, place: u64) -> Result<(), AllocError>
        requires place { place + 1 < 2 ^ 64 }
        requires lines { self.old.lines + 1 < 2 ^ 64 }
        ensures lines { OnOk result (self.new.lines ≡ self.old.lines + 1) }
        ensures names { let label = option_copied fields.now.label in
            let new = spec.new_label label place self.old.ended self.old.names in
            OnOk result (self.new.names ≡ self.old.names ++ option_to_list new) }
        ensures place { let words = spec.word_count (fields_seen fields.now) in
            OnOk result (self.new.place ≡ place + words) }
        ensures ended { OnOk result
            (self.new.ended ≡ (spec.is_end fields.now.operation || self.old.ended)) }
    {
        add_label(&mut self.names, fields.label, place, self.ended)?;
        self.lines += 1;
        self.place = if fields.has_word() { place + 1 } else { place };
        if matches!(fields.operation, Some(Operation::End)) {
            self.ended = true;
        }
        Ok(())
    }
}

impl<'a, A: Allocator + Copy> Scan<'a, A> {
    /// A scan before the first line.
    pub fn new(alloc: A) -> Scan<'a, A>
        ensures { Stands result.lines result.place result.ended result.names [] }
    {
        Scan {
            lines: 0,
            place: 0,
            ended: false,
            names: Names::new(alloc),
        }
    }
}

/// A scan of all lines of a source.
pub fn scan_source<'a, A: Allocator + Copy>(
    alloc: A,
    source: &'a [u8],
) -> Result<Scan<'a, A>, AllocError>
    ensures stands { IfOk result (λ scan.
        Stands scan.lines scan.place scan.ended scan.names (all_lines source.now)) }
    ensures few { IfOk result (λ scan. scan.lines < 2 ^ 63) }
{
    let mut scan = Scan::new(alloc);
    for line in Lines::new(source) {
        let fields = fields_of(&line);
        let place = scan.place_of(&fields);
        scan.pass(&fields, place)?;
    }
    Ok(scan)
}
