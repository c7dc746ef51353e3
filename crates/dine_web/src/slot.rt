//! A box as its pointer, in a struct that the page's worker may hold; or no box.
ghost use Rattle.std.specs.Prelude.{◌≡◌, Option, Some, None};
ghost use Rattle.dine_web.specs.declared.open_schedule.OpenSchedule.{OpenSchedule};
ghost use Rattle.std.specs.Coded.{coded_option};
ghost use Rattle.dine_slot.specs.Slots.{slot_owns};
ghost use Rattle.dine_web.specs.contracts.open_schedule.OpenSchedule.{the_row};

use crate::open_schedule::OpenSchedule;
use dine_slot::Parts;
use std::alloc::Global;
use std::marker::Model;
use std::ptr;

/// The pointer of a box with an open schedule, if it is full.
#[repr(C)]
#[derive(Drop)]
pub struct Slot {
    // Of an `OpenSchedule`. An exported function can take no pointer to one, so it is cast.
    ptr: *mut u8,
    alloc: Global,
    pub ghost held: { Option OpenSchedule } by { coded_option the_row.coded },
}

impl Model for Slot {
    ghost also_owns = { λ s. slot_owns the_row s.alloc s.ptr s.held };
}

impl Slot {
    /// A slot with this box.
    pub(crate) fn of(kept: Box<OpenSchedule>) -> Slot
        ensures { result.held ≡ Some kept.value }
    {
        Slot::of_parts(Parts::of(kept))
    }

    /// The box of a slot that is full.
    pub(crate) fn into_box(self) -> Box<OpenSchedule>
        requires { (kept : OpenSchedule) × (self.held ≡ Some kept) }
        ensures { self.held ≡ Some result.value }
    {
        self.into_parts().into_box()
    }

    /// A slot that is not full.
    pub(crate) fn none(alloc: Global) -> Slot
        ensures { result.held ≡ None }
    {
        Slot {
            ptr: ptr::null_mut(),
            alloc,
        }
    }

    fn of_parts(parts: Parts<OpenSchedule, Global>) -> Slot
        ensures { result.held ≡ Some parts.value }
    {
        let Parts { ptr, alloc } = parts;
        Slot {
            ptr: ptr as *mut u8,
            alloc,
        }
    }

    fn into_parts(self) -> Parts<OpenSchedule, Global>
        requires { (kept : OpenSchedule) × (self.held ≡ Some kept) }
        ensures { self.held ≡ Some result.value }
    {
        let Slot { ptr, alloc } = self;
        Parts {
            ptr: ptr as *mut OpenSchedule,
            alloc,
        }
    }
}
