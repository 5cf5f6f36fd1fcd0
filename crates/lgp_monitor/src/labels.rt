//! The names of a source as labels.

ghost use Rattle.std.specs.Prelude.{◌≡◌, ◌++◌, OnOk};
ghost use Rattle.lgp_monitor.specs.Telling.{label_of};

use lgp_assembler::Name;
use lgp_trace::Labels;
use lgp_word::Address;
use std::alloc::{AllocError, Allocator};

/// Names with their values, as labels of the addresses that these are. Of several names of one value the first is its label.
#[derive(Clone, Copy)]
pub struct NamedAddresses<'a> {
    pub names: &'a [(Name, u16)],
}

impl Labels for NamedAddresses<'_> {
    ghost label = { λ labels. label_of labels.names.now };

    fn push_label<A: Allocator>(
        &self,
        text: &mut Vec<u8, A>,
        address: Address,
    ) -> Result<(), AllocError> {
        push_name(text, self.names, address.number())
    }
}

/// Appends a blank and the first name of a value, or nothing where no name has it.
#[tactic(auto, unfolding(crate::specs::Telling::label_of))]
pub fn push_name<A: Allocator>(
    text: &mut Vec<u8, A>,
    names: &[(Name, u16)],
    value: u16,
) -> Result<(), AllocError>
    ensures { OnOk result (text.new.items ≡ text.old.items ++ label_of names.now value) }
{
    for name in names {
        if name.1 == value {
            text.push(b' ')?;
            return text.extend_from_slice(name.0.bytes());
        }
    }
    Ok(())
}
