//! The place of a session in the caller's memory.
ghost use Rattle.std.specs.Prelude.{◌≡◌, MatchOption, None, Option, Some};
ghost use Rattle.std.specs.Global.{Global};
ghost use Rattle.lgp_call.specs.Session.{SessionState};
ghost use Rattle.lgp_c.specs.Slots.{held_coded, slot_owns};

use lgp_call::Session;
use lgp_parts::BoxParts;
use std::alloc::Global;
use std::marker::Model;
use std::mem;

/// A place for a session. In C it is a flag and a pointer, and all zeros while no session is open there.
///
/// Who drops a slot in which a session is open loses the session's memory.
#[repr(C)]
#[derive(Drop)]
pub struct Slot {
    is_open: bool,
    at: *mut u8,
    alloc: Global,
    /// The session that is open here, if there is one.
    pub ghost held: { Option SessionState } by { held_coded },
}

impl Model for Slot {
    ghost also_owns = { λ slot. slot_owns slot.alloc slot.is_open slot.at slot.held };
}

impl Slot {
    /// A place where no session is open.
    pub(crate) fn empty(alloc: Global) -> Slot
        ensures { result.held ≡ None }
    {
        Slot {
            is_open: false,
            at: std::ptr::null_mut(),
            alloc,
        }
    }

    /// A place where this session is open.
    fn of(parts: BoxParts<Session<Global>, Global>) -> Slot
        ensures { result.held ≡ Some parts.value }
    {
        let BoxParts { at, alloc } = parts;
        Slot {
            is_open: true,
            at: at as *mut u8,
            alloc,
        }
    }

    /// The session that is open here, if there is one.
    fn into_parts(self) -> Option<BoxParts<Session<Global>, Global>>
        ensures { MatchOption result (self.held ≡ None)
            (λ parts. self.held ≡ Some parts.value) }
    {
        let Slot { is_open, at, alloc } = self;
        if is_open {
            Some(BoxParts {
                at: at as *mut Session<Global>,
                alloc,
            })
        } else {
            None
        }
    }

    /// Takes out the session that is open here, if there is one. Then none is open.
    pub(crate) fn take(&mut self, alloc: Global) -> Option<Box<Session<Global>, Global>>
        ensures left { self.new.held ≡ None }
        ensures taken { MatchOption result (self.old.held ≡ None)
            (λ whole. self.old.held ≡ Some whole.value) }
    {
        let parts = mem::replace(self, Slot::empty(alloc)).into_parts()?;
        Some(parts.into_box())
    }

    /// Opens a session where none is open.
    pub(crate) fn put(&mut self, whole: Box<Session<Global>, Global>)
        ensures { self.new.held ≡ Some whole.value }
    {
        *self = Slot::of(BoxParts::of(whole));
    }
}
