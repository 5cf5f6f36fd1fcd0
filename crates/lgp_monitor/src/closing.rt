//! What is answered where a point closes a source with faults.

ghost use Rattle.std.specs.Prelude.{◌≡◌, ◌+◌, ◌^◌, ◌<◌, ◌≤◌, ◌++◌, ◌||◌, OnOk, [], codes, drop, flat_map, is_some};
ghost use Rattle.std.specs.Option.{option_copied, option_map_or};
ghost use Rattle.lgp_assembler.specs.Marks.{marked_text};
ghost use Rattle.lgp_source.specs.Source.{lines_of};
ghost use Rattle.lgp_monitor.specs.Closing.{is_source_end, marked_fault, said_line, text_at};
ghost use Rattle.lgp_monitor.specs.ClosingInside.{closed_text};

use crate::reason::push_refused;
use lgp_assembler::{Fault, FaultKind, push_marked};
use lgp_help::push_fault_said;
use lgp_script::{Laboratory, Refusal, push_fault_line};
use lgp_source::Lines;
use lgp_stream::LineBytes;
use std::alloc::{AllocError, Allocator};
use std::marker::Model;

/// Appends a line with its mark, if there is one.
fn push_marked_at<A: Allocator>(
    text: &mut Vec<u8, A>,
    line: Option<&[u8]>,
    kind: FaultKind,
) -> Result<(), AllocError>
    ensures { OnOk result (text.new.items
        ≡ text.old.items ++ option_map_or (marked_text kind) (option_copied line.entry) []) }
{
    match line {
        Some(line) => push_marked(text, line, kind),
        None => Ok(()),
    }
}

/// Passes over a given number of lines, or all.
fn pass_lines(lines: &mut Lines, count: u64)
    ensures { lines.new ≡ drop count lines.old }
{
    for _passed in 0..count {
        let Some(_) = lines.next() else {
            return;
        };
    }
}

/// The text of the next line.
fn next_text<'s>(lines: &mut Lines<'s>) -> Option<&'s [u8]>
    ensures text { option_copied result ≡ text_at lines.old 0 }
    ensures rest { lines.new ≡ drop 1 lines.old }
{
    let line = lines.next()?;
    Some(line.text)
}

/// The lines of a source, some of them passed. Faults come in the order of lines, so that their lines
/// are found in one pass; where one lies earlier, the pass begins anew.
#[derive(Drop)]
struct Passed<'s> {
    source: &'s [u8],
    lines: Lines<'s>,
    count: u64,
}

impl<'s> Model for Passed<'s> {
    ghost use Rattle.std.specs.Prelude.{◌≡◌, drop};
    ghost use Rattle.lgp_source.specs.Source.{lines_of};
    ghost use Rattle.lgp_monitor.specs.ClosingInside.{PassedLines};

    ghost Value = { PassedLines };

    ghost view = { λ passed. record {
      all = lines_of passed.source.now;
      count = passed.count;
    } };

    ghost invariant = { λ passed.
        passed.lines ≡ drop passed.count (lines_of passed.source.now) };
}

impl<'s> Passed<'s> {
    /// No line was passed.
    fn new(source: &'s [u8]) -> Passed<'s>
        ensures { result ≡ record { all = lines_of source.now; count = 0 } }
    {
        Passed {
            source,
            lines: Lines::new(source),
            count: 0,
        }
    }

    /// Goes back in front of the first line, if the line at this place was passed.
    fn go_back(&mut self, place: u64)
        ensures all { self.new.all ≡ self.old.all }
        ensures count { self.new.count ≤ place }
    {
        if place < self.count {
            self.lines = Lines::new(self.source);
            self.count = 0;
        }
    }

    /// Goes on to the line at a place.
    fn go_on(&mut self, place: u64)
        requires { self.old.count ≤ place }
        ensures { self.new ≡ record { all = self.old.all; count = place } }
    {
        pass_lines(&mut self.lines, place - self.count);
        self.count = place;
    }

    /// The text of the next line, which is passed.
    fn next_text(&mut self) -> Option<&'s [u8]>
        requires { self.old.count + 1 < 2 ^ 64 }
        ensures text { option_copied result ≡ text_at self.old.all self.old.count }
        ensures all { self.new.all ≡ self.old.all }
    {
        let text = next_text(&mut self.lines);
        self.count += 1;
        text
    }

    /// The text of the line at a place, counted from 0.
    fn find(&mut self, place: u64) -> Option<&'s [u8]>
        requires { place + 1 < 2 ^ 64 }
        ensures text { option_copied result ≡ text_at self.old.all place }
        ensures all { self.new.all ≡ self.old.all }
    {
        self.go_back(place);
        self.go_on(place);
        self.next_text()
    }
}

/// Appends a sentence on a kind of fault as a line.
#[tactic(auto, unfolding(crate::specs::Closing::said_line))]
fn push_said<A: Allocator>(text: &mut Vec<u8, A>, kind: FaultKind) -> Result<(), AllocError>
    ensures { OnOk result (text.new.items ≡ text.old.items ++ said_line kind) }
{
    text.extend_from_slice(b"        ")?;
    push_fault_said(text, kind.name().as_bytes())?;
    text.extend_from_slice(b"\n")
}

/// Appends a fault with its marked line of the source, and a sentence.
#[tactic(auto, unfolding(crate::specs::Closing::marked_fault))]
fn push_marked_fault<A: Allocator>(
    text: &mut Vec<u8, A>,
    source: &[u8],
    lines: &mut Passed,
    fault: &Fault,
) -> Result<(), AllocError>
    requires { lines.old.all ≡ lines_of source.now }
    ensures text { OnOk result (text.new.items
        ≡ text.old.items ++ marked_fault (lines_of source.now) fault.now) }
    ensures lines { lines.new.all ≡ lines_of source.now }
{
    let line = lines.find(fault.line.saturating_sub(1));
    push_fault_line(text, fault)?;
    push_marked_at(text, line, fault.kind)?;
    push_said(text, fault.kind)
}

/// Appends faults, each with its marked line of the source.
fn push_marked_faults<A: Allocator>(
    text: &mut Vec<u8, A>,
    source: &[u8],
    faults: &[Fault],
) -> Result<(), AllocError>
    ensures { OnOk result (text.new.items
        ≡ text.old.items ++ flat_map (marked_fault (lines_of source.now)) faults.now) }
{
    let mut lines = Passed::new(source);
    for fault in faults {
        push_marked_fault(text, source, &mut lines, fault)?;
    }
    Ok(())
}

/// Appends that a source has faults, each with its marked line.
fn push_faults<A: Allocator>(
    text: &mut Vec<u8, A>,
    source: &[u8],
    faults: &[Fault],
) -> Result<(), AllocError>
    ensures { OnOk result (text.new.items ≡ text.old.items
        ++ (codes "? 9 Faults\n" ++ flat_map (marked_fault (lines_of source.now)) faults.now)) }
{
    text.extend_from_slice(b"? 9 Faults\n")?;
    push_marked_faults(text, source, faults)
}

/// Whether a line ends a source.
pub fn is_source_end(line: &LineBytes) -> bool
    ensures { result ≡ is_source_end line.now }
{
    !line.is_longer() && line.front() == b".".as_slice()
}

/// Appends the reply to the line that has closed a source, which was too long or not, by what the laboratory has replied to that line.
pub fn push_closing<A: Allocator + Copy>(
    text: &mut Vec<u8, A>,
    laboratory: &Laboratory<A>,
    was_too_long: bool,
    said: &[u8],
) -> Result<(), AllocError>
    ensures { OnOk result (text.new.items
        ≡ text.old.items ++ closed_text laboratory.now.faulty was_too_long said.now) }
{
    if was_too_long {
        return push_refused(text, &Refusal::TooLong);
    }
    match laboratory.faulty() {
        Some(faulty) if !faulty.source().is_empty() => {
            push_faults(text, faulty.source(), faulty.faults())
        }
        _ => text.extend_from_slice(said),
    }
}

/// Whether the source that was closed is refused, which was too long or not.
pub fn was_faulty<A: Allocator + Copy>(laboratory: &Laboratory<A>, was_too_long: bool) -> bool
    ensures { result ≡ (was_too_long || is_some laboratory.now.faulty) }
{
    was_too_long || laboratory.faulty().is_some()
}
