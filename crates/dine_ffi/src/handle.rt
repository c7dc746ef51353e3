//! The handle that C holds.
ghost use Rattle.std.specs.Prelude.{◌≡◌, ◌==◌, MatchOption, None, Some, is_some};

use crate::contents::Contents;
use crate::slot::Slot;
use std::alloc::Global;
use std::mem;

// What `state` is in an open handle: the letters of "dine".
const OPEN: u32 = 0x656e_6964;

/// A handle, which is two words of C's memory: a pointer, and a number. All zeros is a closed handle.
#[repr(C)]
#[derive(Drop)]
pub struct Handle {
    slot: Slot,
    state: u32,
    ghost says: { (state == 1701734756) ≡ is_some slot.held },
}

impl Handle {
    // A closed handle.
    fn closed(alloc: Global) -> Handle
        ensures { result.slot.held ≡ None }
    {
        Handle {
            slot: Slot::none(alloc),
            state: 0,
        }
    }

    // An open handle.
    fn of(contents: Box<Contents>) -> Handle
        ensures { result.slot.held ≡ Some contents.value }
    {
        Handle {
            slot: Slot::of(contents),
            state: OPEN,
        }
    }

    pub(crate) fn is_open(&self) -> bool
        ensures { result ≡ is_some self.now.slot.held }
    {
        self.state == OPEN
    }

    /// Takes the contents out, if the handle is open. Then it is closed.
    pub(crate) fn take(&mut self, alloc: Global) -> Option<Box<Contents>>
        ensures closed { self.new.slot.held ≡ None }
        ensures held { MatchOption result (self.old.slot.held ≡ None)
            (λ contents. self.old.slot.held ≡ Some contents.value) }
    {
        mem::replace(self, Handle::closed(alloc)).into_box()
    }

    // The contents of the handle, if it is open.
    fn into_box(self) -> Option<Box<Contents>>
        ensures { MatchOption result (self.slot.held ≡ None) (λ contents. self.slot.held ≡ Some contents.value) }
    {
        let Handle { slot, state } = self;
        if state == OPEN {
            Some(slot.into_box())
        } else {
            None
        }
    }

    /// Puts the contents back into the handle, which is closed.
    pub(crate) fn put(&mut self, contents: Box<Contents>)
        requires { self.old.slot.held ≡ None }
        ensures { self.new.slot.held ≡ Some contents.value }
    {
        *self = Handle::of(contents);
    }
}

/// A handle may go to another thread: this is accepted only since `Handle` is `Send`. Nothing calls it.
pub fn may_be_sent(handle: Handle) -> Handle {
    sent(handle)
}

fn sent<T: Send>(value: T) -> T {
    value
}
