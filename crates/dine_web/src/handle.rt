//! The handle of an open schedule, which the caller holds.
ghost use Rattle.std.specs.Prelude.{◌≡◌, ◌==◌, MatchOption, None, Some, is_some};

use crate::open_schedule::OpenSchedule;
use crate::slot::Slot;
use std::alloc::Global;
use std::mem;

// What `state` is in an open handle: the letters of "page".
const OPEN: u32 = 0x6567_6170;

/// A handle, which is two words of the caller's memory: a pointer, and a number. All zeros is a closed handle.
#[repr(C)]
#[derive(Drop)]
pub struct Handle {
    slot: Slot,
    state: u32,
    ghost says: { (state == 1701273968) ≡ is_some slot.held },
}

impl Handle {
    // A closed handle.
    fn closed(alloc: Global) -> Handle
        ensures { result.slot.held ≡ None }
    {
        Handle {
            slot: Slot::none(alloc),
            state: 0,
        }
    }

    // An open handle.
    fn of(kept: Box<OpenSchedule>) -> Handle
        ensures { result.slot.held ≡ Some kept.value }
    {
        Handle {
            slot: Slot::of(kept),
            state: OPEN,
        }
    }

    pub(crate) fn is_open(&self) -> bool
        ensures { result ≡ is_some self.now.slot.held }
    {
        self.state == OPEN
    }

    /// Takes out what the handle holds, if it is open. Then it is closed.
    pub(crate) fn take(&mut self, alloc: Global) -> Option<Box<OpenSchedule>>
        ensures closed { self.new.slot.held ≡ None }
        ensures held { MatchOption result (self.old.slot.held ≡ None)
            (λ kept. self.old.slot.held ≡ Some kept.value) }
    {
        mem::replace(self, Handle::closed(alloc)).into_box()
    }

    // What the handle holds, if it is open.
    fn into_box(self) -> Option<Box<OpenSchedule>>
        ensures { MatchOption result (self.slot.held ≡ None) (λ kept. self.slot.held ≡ Some kept.value) }
    {
        let Handle { slot, state } = self;
        if state == OPEN {
            Some(slot.into_box())
        } else {
            None
        }
    }

    /// Puts this into the handle, which is closed.
    pub(crate) fn put(&mut self, kept: Box<OpenSchedule>)
        requires { self.old.slot.held ≡ None }
        ensures { self.new.slot.held ≡ Some kept.value }
    {
        *self = Handle::of(kept);
    }
}
