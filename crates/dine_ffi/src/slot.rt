//! A box as its pointer, in a struct that C may hold; or no box.
ghost use Rattle.std.specs.Prelude.{◌≡◌, Option, Some, None};
ghost use Rattle.dine_ffi.specs.declared.contents.Contents.{Contents};
ghost use Rattle.std.specs.Coded.{coded_option};
ghost use Rattle.dine_slot.specs.Slots.{slot_owns};
ghost use Rattle.dine_ffi.specs.contracts.contents.Contents.{the_row};

use crate::contents::Contents;
use dine_slot::Parts;
use std::alloc::Global;
use std::marker::Model;
use std::ptr;

/// The pointer of a box with contents, if it is full.
#[repr(C)]
#[derive(Drop)]
pub struct Slot {
    // Of `Contents`. C may hold no pointer to one, so it is cast.
    ptr: *mut u8,
    alloc: Global,
    pub ghost held: { Option Contents } by { coded_option the_row.coded },
}

impl Model for Slot {
    ghost also_owns = { λ s. slot_owns the_row s.alloc s.ptr s.held };
}

unsafe impl Send for Slot {}

impl Slot {
    /// A slot with this box.
    pub(crate) fn of(contents: Box<Contents>) -> Slot
        ensures { result.held ≡ Some contents.value }
    {
        Slot::of_parts(Parts::of(contents))
    }

    /// The box of a slot that is full.
    pub(crate) fn into_box(self) -> Box<Contents>
        requires { (contents : Contents) × (self.held ≡ Some contents) }
        ensures { self.held ≡ Some result.value }
    {
        self.into_parts().into_box()
    }

    /// A slot that is not full.
    pub(crate) fn none(alloc: Global) -> Slot
        ensures { result.held ≡ None }
    {
        Slot {
            ptr: ptr::null_mut(),
            alloc,
        }
    }

    fn of_parts(parts: Parts<Contents, Global>) -> Slot
        ensures { result.held ≡ Some parts.value }
    {
        let Parts { ptr, alloc } = parts;
        Slot {
            ptr: ptr as *mut u8,
            alloc,
        }
    }

    fn into_parts(self) -> Parts<Contents, Global>
        requires { (contents : Contents) × (self.held ≡ Some contents) }
        ensures { self.held ≡ Some result.value }
    {
        let Slot { ptr, alloc } = self;
        Parts {
            ptr: ptr as *mut Contents,
            alloc,
        }
    }
}
