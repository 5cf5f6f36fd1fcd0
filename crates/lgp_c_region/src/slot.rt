//! The place of a session in the caller's memory.
ghost use Rattle.std.specs.Prelude.{◌≡◌, MatchOption, None, Option, Some};
ghost use Rattle.std.specs.Borrow.{Bor};
ghost use Rattle.lgp_call.specs.Session.{SessionState};
ghost use Rattle.lgp_c_region.specs.Slots.{held_coded, slot_owns};
ghost use Rattle.lgp_region.specs.declared.region.Region.{Region};

use lgp_call::Session;
use lgp_parts::{BoxParts, Unfreed};
use lgp_region::Region;
use std::marker::Model;
use std::mem;

/// A place for a session. In C it is a flag and a pointer, and all zeros while no session is open there.
#[repr(C)]
#[derive(Drop)]
pub struct Slot {
    is_open: bool,
    at: *mut u8,
    /// The session that is open here, if there is one.
    pub ghost held: { Option SessionState } by { held_coded },
}

impl Model for Slot {
    ghost also_owns = { λ slot. slot_owns slot.is_open slot.at slot.held };
}

impl Slot {
    /// A place where no session is open.
    pub(crate) fn empty() -> Slot
        ensures { result.held ≡ None }
    {
        Slot {
            is_open: false,
            at: std::ptr::null_mut(),
        }
    }

    /// A place where this session is open.
    fn of(parts: BoxParts<Session<&'static Region>, Unfreed>) -> Slot
        ensures { result.held ≡ Some parts.entry.value }
    {
        let BoxParts { at, alloc: _alloc } = parts;
        Slot {
            is_open: true,
            at: at as *mut u8,
        }
    }

    /// The session that is open here, if there is one.
    fn into_parts(self) -> Option<BoxParts<Session<&'static Region>, Unfreed>>
        ensures { MatchOption result (self.held ≡ None)
            (λ parts. self.held ≡ Some parts.value) }
    {
        let Slot { is_open, at } = self;
        if is_open {
            Some(BoxParts {
                at: at as *mut Session<&'static Region>,
                alloc: Unfreed,
            })
        } else {
            None
        }
    }

    /// Takes out the session that is open here, if there is one. Then none is open.
    pub(crate) fn take(&mut self) -> Option<Box<Session<&'static Region>, Unfreed>>
        ensures left { self.new.held ≡ None }
        ensures taken { MatchOption result (self.old.held ≡ None)
            (λ whole. self.old.held ≡ Some whole.value) }
    {
        let parts = mem::replace(self, Slot::empty()).into_parts()?;
        Some(parts.into_box())
    }

    /// Opens a session where none is open.
    pub(crate) fn put(&mut self, whole: Box<Session<&'static Region>, Unfreed>)
        ensures { self.new.held ≡ Some whole.entry.value }
    {
        *self = Slot::of(BoxParts::of(whole));
    }
}
