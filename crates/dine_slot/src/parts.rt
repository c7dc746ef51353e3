ghost use Rattle.std.specs.Prelude.{◌≡◌};
ghost use Rattle.std.specs.Box.Ownership.{box_owns};

use std::alloc::Allocator;
use std::marker::Model;

/// A box, taken apart: its pointer and its allocator. It owns what the box owned.
///
/// A struct that C holds can't have a type parameter, and it can't have a pointer to a type that leads to a `Vec`. So a
/// crate that exports functions has a struct of its own for that, which it makes from these parts and turns into these
/// parts again, with `slot_owns` of `specs/Slots.antt` for what the struct owns.
pub struct Parts<T, A: Allocator> {
    /// The pointer of the box.
    pub ptr: *mut T,
    /// The allocator of the box.
    pub alloc: A,
    pub ghost value: { T },
}

impl<T, A: Allocator> Model for Parts<T, A> {
    ghost also_owns = { λ p. box_owns (A.dealloc_token p.alloc) T.row p.ptr p.value };
}

impl<T, A: Allocator> Parts<T, A> {
    /// Takes the box apart.
    pub fn of(b: Box<T, A>) -> Parts<T, A>
    where
        T: Drop,
        ensures { result.value ≡ b.value }
    {
        let (ptr, alloc) = Box::into_raw_with_allocator(b);
        Parts { ptr, alloc }
    }

    /// Returns the box again.
    pub fn into_box(self) -> Box<T, A>
        ensures { result.value ≡ self.value }
    {
        let Parts { ptr, alloc } = self;
        unsafe { Box::from_raw(alloc, ptr) }
    }
}
