//! The word of one operation by itself, and addresses by names. The words are worked by hand: an
//! order is its letter's number times 65,536 and its address times 4, and `n` with its point after
//! `q` is `n` times 2 to the power `31 - q`.

use super::*;
use lgp_assembler::{OperandFault, Symbols, address_operand, operation_word};

/// An operation with its operands, and the bits of its word or why it has none.
type Patch = (
    &'static [u8],
    Option<&'static [u8]>,
    Option<&'static [u8]>,
    Result<u32, OperandFault>,
);

/// In the place 0102, which is 66; `start` is 0 and `one` is 3.
static PATCHES: [Patch; 17] = [
    (b"b", Some(b"one"), None, Ok(0x0001_000c)),
    (b"h", Some(b"one+2"), None, Ok(0x000c_0014)),
    (b"u", Some(b"*-1"), None, Ok(0x000a_0104)),
    (b"z", None, None, Ok(0)),
    (b"z", Some(b"0400"), None, Ok(0x0000_0400)),
    (b"-t", Some(b"start"), None, Ok(0x800b_0000)),
    (b"p", Some(b"=a"), None, Ok(0x0008_3900)),
    (b"word", Some(b"7wwwwwwq"), None, Ok(0x7fff_fffe)),
    (b"frac", Some(b"-.5"), None, Ok(0xc000_0000)),
    (b"int", Some(b"5"), Some(b"10"), Ok(5 << 21)),
    (b"int", Some(b"-1"), Some(b"30"), Ok(0xffff_fffe)),
    (b"b", None, None, Err(OperandFault::Misformed)),
    (b"int", Some(b"5"), None, Err(OperandFault::Misformed)),
    (b"int", Some(b"1"), Some(b"0"), Err(OperandFault::Outside)),
    (b"b", Some(b"two"), None, Err(OperandFault::Unknown)),
    (b"b", Some(b"6363+1"), None, Err(OperandFault::Outside)),
    (b"jump", Some(b"0100"), None, Err(OperandFault::Misformed)),
];

/// What addresses of operands are, in the same place.
static ADDRESSES: [(&[u8], Result<u16, OperandFault>); 8] = [
    (b"one", Ok(3)),
    (b"one+0010", Ok(13)),
    (b"*", Ok(66)),
    (b"*+1", Ok(67)),
    (b"0200-1", Ok(127)),
    (b"start-1", Err(OperandFault::Outside)),
    (b"none", Err(OperandFault::Unknown)),
    (b"2064", Err(OperandFault::Misformed)),
];

/// The bits of the word of an operation.
fn bits(names: &Symbols, patch: &Patch) -> Result<u32, OperandFault> {
    match operation_word(names, 66, patch.0, patch.1, patch.2) {
        Ok(word) => Ok(word.get()),
        Err(fault) => Err(fault),
    }
}

/// The number of the address of an operand.
fn number(names: &Symbols, text: &[u8]) -> Result<u16, OperandFault> {
    match address_operand(names, 66, text) {
        Ok(address) => Ok(address.number()),
        Err(fault) => Err(fault),
    }
}

/// How many operations and operands have the word, the address or the fault that is beside them.
fn right_with_names(names: &Symbols) -> (usize, usize) {
    let (mut patches, mut addresses) = (0_usize, 0_usize);
    for patch in &PATCHES {
        patches = patches.saturating_add(usize::from(bits(names, patch) == patch.3));
    }
    for (text, wanted) in &ADDRESSES {
        addresses = addresses.saturating_add(usize::from(number(names, text) == *wanted));
    }
    (patches, addresses)
}

/// The same with the names of the first program: `start` is 0 and `one` is 3.
fn right_after_assembly(alloc: Global) -> (usize, usize) {
    match assemble(alloc, FIRST_PROGRAM) {
        Ok(image) => right_with_names(&Symbols {
            names: image.symbols(),
        }),
        Err(_) => (0, 0),
    }
}

#[test]
fn operations_stand_alone(rt: HostRuntime) {
    expect_eq(&rt, right_after_assembly(rt.alloc()), (17, 8));
}
