//! What is kept of a machine in a file.

ghost use Rattle.std.specs.Prelude.{◌≡◌, IfOk, IsTrue};
ghost use Rattle.lgp_flexo.specs.Tape.{all_codes};
ghost use Rattle.lgp_table.specs.Interleaving.{is_boundary};
ghost use Rattle.lgp_desk.specs.FileForms.{tape_text, text_made};

use crate::request::{DrumForm, Made, TapeForm};
use lgp_exchange::{deposits_of, tape_bytes, write_archive_text};
use lgp_flexo::{Code, write_tape_text};
use lgp_machine::Machine;
use lgp_script::Laboratory;
use std::alloc::{AllocError, Allocator};

/// A tape as it is kept.
fn tape_text<A: Allocator + Copy>(
    alloc: A,
    form: TapeForm,
    codes: &[Code],
) -> Result<Vec<u8, A>, AllocError>
    ensures { IfOk result (λ text. text.items ≡ tape_text form codes.now) }
{
    match form {
        TapeForm::Text => write_tape_text(alloc, codes),
        TapeForm::Archive => write_archive_text(alloc, codes),
        TapeForm::Bytes => tape_bytes(alloc, codes),
    }
}

/// The codes of the mounted tape, from its first one on.
fn mounted_codes<A: Allocator + Copy>(
    alloc: A,
    machine: &Machine<A>,
) -> Result<Vec<Code, A>, AllocError>
    requires { IsTrue (is_boundary machine.now) }
    ensures { IfOk result (λ codes. codes.items ≡ all_codes machine.now.state.core.tape) }
{
    let (Some(passed), Some(left)) = (machine.tape_passed(), machine.tape_left()) else {
        unreachable!()
    };
    let mut codes = Vec::new(alloc);
    codes.extend_from_slice(passed)?;
    codes.extend_from_slice(left)?;
    Ok(codes)
}

/// The text of the mounted tape.
fn mounted_text<A: Allocator + Copy>(
    alloc: A,
    form: TapeForm,
    machine: &Machine<A>,
) -> Result<Vec<u8, A>, AllocError>
    requires { IsTrue (is_boundary machine.now) }
    ensures { IfOk result (λ text. text.items
        ≡ tape_text form (all_codes machine.now.state.core.tape)) }
{
    let codes = mounted_codes(alloc, machine)?;
    tape_text(alloc, form, &codes)
}

/// What is kept of a laboratory's machine.
pub(crate) fn text_made<A: Allocator + Copy>(
    alloc: A,
    made: Made,
    laboratory: &Laboratory<A>,
) -> Result<Vec<u8, A>, AllocError>
    ensures { IfOk result (λ text. text.items
        ≡ text_made made laboratory.now.debugger.state) }
{
    let machine = laboratory.debugger().machine();
    match made {
        Made::Drum(DrumForm::Dump) => laboratory.drum_dump(),
        Made::Drum(DrumForm::Simh) => deposits_of(alloc, laboratory),
        Made::Printed(form) => tape_text(alloc, form, machine.printed()),
        Made::Mounted(form) => mounted_text(alloc, form, machine),
    }
}
