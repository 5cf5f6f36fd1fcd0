//! What was printed, and the tape, as records.

ghost use Rattle.std.specs.Prelude.{◌≡◌, ◌++◌, ◌+◌, ◌<◌, ◌∷◌, [], IsTrue, None, OnOk, Some, drop, length, true, ◌^◌};
ghost use Rattle.lgp_flexo.specs.Code.{sign_at};
ghost use Rattle.lgp_fields.specs.Printed.{record_in};
ghost use Rattle.lgp_table.specs.Interleaving.{is_boundary};
ghost use Rattle.lgp_fields.specs.Seen.{value_seen};
ghost use Rattle.lgp_data.specs.ShowData.{code_record, codes_in, printed_in, sign_value, tape_record, tape_texts};

use lgp_fields::{Field, RecordForm, Value, push_record};
use lgp_flexo::{Code, sign_of, write_tape_text};
use lgp_machine::Machine;
use std::alloc::{AllocError, Allocator};

/// The sign of a code as a byte, if it has one.
#[tactic(auto, using(crate::proofs::Signs::sign_short))]
fn sign_byte(code: Code) -> Option<u8>
    ensures { result ≡ sign_at code }
{
    let _number = code.number();
    let sign = sign_of(code)?;
    Some(sign as u32 as u8)
}

/// The sign of a code, if it has one.
pub(crate) fn sign_value(code: Code) -> Value<'static>
    ensures { value_seen result ≡ sign_value code }
{
    match sign_byte(code) {
        Some(sign) => Value::Byte(sign),
        None => Value::Nothing,
    }
}

/// Appends the record of a code.
#[tactic(auto, unfolding(crate::specs::ShowData::code_record))]
fn push_code<A: Allocator>(
    text: &mut Vec<u8, A>,
    form: RecordForm,
    number: u64,
    code: Code,
) -> Result<(), AllocError>
    ensures { OnOk result (text.new.items
        ≡ text.old.items ++ record_in form (code_record number code)) }
{
    let fields: [Field; 3] = [
        (b"printed", Value::Number(number)),
        (b"code", Value::Number(u64::from(code.number()))),
        (b"sign", sign_value(code)),
    ];
    push_record(text, form, &fields)
}

/// Appends the records of codes, before whose first a given number were printed.
#[tactic(auto, unfolding(crate::specs::ShowData::codes_in))]
fn push_codes<A: Allocator>(
    text: &mut Vec<u8, A>,
    form: RecordForm,
    from: u64,
    codes: &[Code],
) -> Result<(), AllocError>
    requires { from + length codes.now < 2 ^ 64 }
    ensures { OnOk result (text.new.items
        ≡ text.old.items ++ codes_in form from codes.now) }
{
    let mut number = from;
    for code in codes {
        push_code(text, form, number, *code)?;
        number += 1;
    }
    Ok(())
}

/// Appends the records of the codes that were printed after the first ones.
#[tactic(auto, unfolding(crate::specs::ShowData::printed_in))]
pub fn push_printed_data<A: Allocator>(
    text: &mut Vec<u8, A>,
    form: RecordForm,
    from: u64,
    printed: &[Code],
) -> Result<(), AllocError>
    ensures { OnOk result (text.new.items
        ≡ text.old.items ++ printed_in form from printed.now) }
{
    if from >= printed.len() as u64 {
        return Ok(());
    }
    push_codes(text, form, from, &printed[from as usize..])
}

/// Appends the record of these texts.
fn push_tape_texts<'a, A: Allocator>(
    text: &mut Vec<u8, A>,
    form: RecordForm,
    passed: &'a [u8],
    left: &'a [u8],
) -> Result<(), AllocError>
    ensures { OnOk result (text.new.items ≡ text.old.items
        ++ record_in form (tape_texts passed.now left.now)) }
{
    let fields: [Field; 2] = [
        (b"passed", Value::Text(passed)),
        (b"left", Value::Text(left)),
    ];
    push_record(text, form, &fields)
}

/// Appends the tape as a record.
#[tactic(auto, unfolding(crate::specs::ShowData::tape_record))]
pub fn push_tape_data<A: Allocator + Copy, B: Allocator, C: Allocator>(
    alloc: A,
    text: &mut Vec<u8, B>,
    form: RecordForm,
    machine: &Machine<C>,
) -> Result<(), AllocError>
    requires { IsTrue (is_boundary machine.now) }
    ensures { OnOk result (text.new.items
        ≡ text.old.items ++ record_in form (tape_record machine.now.state.core.tape)) }
{
    let (Some(passed), Some(left)) = (machine.tape_passed(), machine.tape_left()) else {
        unreachable!();
    };
    let passed_text = write_tape_text(alloc, passed)?;
    let left_text = write_tape_text(alloc, left)?;
    push_tape_texts(text, form, &passed_text, &left_text)
}
