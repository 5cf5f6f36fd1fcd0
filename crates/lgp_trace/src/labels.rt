//! Labels of addresses.

ghost use Rattle.std.specs.Prelude.{◌≡◌, ◌++◌, ℕ, [], List, OnOk};

use lgp_word::Address;
use std::alloc::{AllocError, Allocator};

/// What is written after addresses.
pub trait Labels {
    /// What comes after an address: a blank and its label, or nothing.
    ghost label: { Self → ℕ → List ℕ };

    /// Appends what comes after an address.
    fn push_label<A: Allocator>(
        &self,
        text: &mut Vec<u8, A>,
        address: Address,
    ) -> Result<(), AllocError>
        ensures { OnOk result (text.new.items ≡ text.old.items ++ label self.now address) };
}

/// No address has a label.
#[derive(Clone, Copy, Debug, Default, PartialEq, Eq)]
pub struct NoLabels;

impl Labels for NoLabels {
    ghost label = { λ _ _. [] };

    fn push_label<A: Allocator>(
        &self,
        _text: &mut Vec<u8, A>,
        _address: Address,
    ) -> Result<(), AllocError> {
        Ok(())
    }
}
