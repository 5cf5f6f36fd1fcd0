//! The assembler: a source's words, or its faults, and a faulty line as it is shown.
#![tactic(auto)]

ghost use Rattle.std.specs.Prelude.{◌≡◌, ◌≢◌, ◌+◌, ◌++◌, ◌<◌, ◌^◌, [], IfOk, OnOk, IfErr};
ghost use Rattle.lgp_assembler.specs.Answers.{IfFaults};
ghost use Rattle.lgp_assembler.specs.Faults.{end_fault};
ghost use Rattle.lgp_assembler.specs.Image.{faults_of, image_of};
ghost use Rattle.lgp_assembler.specs.Parts.{AreProgramCells, HaveOwnPlaces};

pub use address_operands::address_operand;
use drafting::{Draft, draft_source};
pub use laws::{
    cells_have_own_places, faults_follow_lines, lines_have_cells, names_are_first_places,
    places_count_from_orgs,
};
pub use line_fields::has_word;
pub use marks::{part_of, push_marked};
pub use name_table::{NameValues, Names};
pub use operands::OperandFault;
pub use output::{Image, LOADER_PLACES, Name};
use passes::scan_source;
pub use patch::{Symbols, operation_word};
pub use refusal::{AssembleError, Fault, FaultKind, FaultList};
use std::alloc::{AllocError, Allocator};
pub use surveying::{LineSurvey, declared_names, survey};

mod address_operands;
mod conditions;
mod drafting;
mod laws;
mod line_fields;
mod marks;
mod name_table;
mod numbers;
mod operands;
mod operations;
mod output;
mod passes;
mod patch;
mod refusal;
mod surveying;
mod taken_places;

/// Adds the fault of a source of a given number of lines that has not ended.
fn add_missing_end<A: Allocator>(
    faults: &mut Vec<Fault, A>,
    ended: bool,
    lines: u64,
) -> Result<(), AllocError>
    requires { lines + 1 < 2 ^ 64 }
    ensures { OnOk result (faults.new.items ≡ faults.old.items ++ end_fault ended lines) }
{
    if !ended {
        faults.push(Fault {
            line: lines + 1,
            kind: FaultKind::NoEnd,
        })?;
    }
    Ok(())
}

/// The image of the draft of all lines, or else its faults and that of a missing end line.
fn image_or_faults<A: Allocator>(
    draft: Draft<A>,
    ended: bool,
    lines: u64,
) -> Result<Image<A>, AssembleError<A>>
    requires lines { lines + 1 < 2 ^ 64 }
    requires program { draft.faults.items ++ end_fault ended lines ≡ []
        → AreProgramCells draft.parts.cells.items }
    requires places { draft.faults.items ++ end_fault ended lines ≡ []
        → HaveOwnPlaces draft.parts.cells.items }
    ensures image { IfOk result (λ image. image ≡ record {
      cells = draft.parts.cells.items;
      start = draft.parts.start;
      symbols = draft.parts.symbols.items;
    }) }
    ensures faultless { OnOk result (draft.faults.items ++ end_fault ended lines ≡ []) }
    ensures faults { IfErr result (λ error.
        IfFaults error (λ faults. faults ≡ draft.faults.items ++ end_fault ended lines)) }
    ensures faulty { IfErr result (λ error. IfFaults error (λ faults. faults ≢ [])) }
{
    let (mut faults, parts) = draft.into_faults_and_parts();
    add_missing_end(&mut faults, ended, lines)?;
    if !faults.is_empty() {
        return Err(AssembleError::Faults(FaultList::new(faults)));
    }
    Ok(Image::new(parts))
}

/// Assembles a source: its words with their addresses, its start and its names, where no line has a
/// fault; otherwise its faults, one for each faulty line, in order of the lines, and `NoEnd` last.
pub fn assemble<A: Allocator + Copy>(alloc: A, source: &[u8]) -> Result<Image<A>, AssembleError<A>>
    ensures image { IfOk result (λ image. image ≡ image_of source.now) }
    ensures faultless { OnOk result (faults_of source.now ≡ []) }
    ensures faults { IfErr result (λ error.
        IfFaults error (λ faults. faults ≡ faults_of source.now)) }
    ensures faulty { IfErr result (λ error. IfFaults error (λ faults. faults ≢ [])) }
{
    let scan = scan_source(alloc, source)?;
    let draft = draft_source(alloc, source, &scan.names)?;
    image_or_faults(draft, scan.ended, scan.lines)
}
