//! A box taken apart to its pointer, and made again.
#![tactic(auto)]

ghost use Rattle.std.specs.Prelude.{◌≡◌};
ghost use Rattle.std.specs.Box.Ownership.{box_owns};

use std::alloc::Allocator;
use std::marker::Model;

/// A box that is taken apart: it owns the value behind the pointer, and the right to free its block. Where it is let go, the
/// block stays.
pub struct RawBox<T, A: Allocator> {
    pub at: *mut T,
    pub alloc: A,
    pub ghost value: { T },
}

impl<T, A: Allocator> Model for RawBox<T, A> {
    ghost also_owns = { λ b. box_owns (A.dealloc_token b.alloc) T.row b.at b.value };
}

unsafe impl<T: Send, A: Allocator + Send> Send for RawBox<T, A> {}

unsafe impl<T: Send, A: Allocator + Send> Sync for RawBox<T, A> {}

impl<T: Drop, A: Allocator> RawBox<T, A> {
    /// Takes a box apart.
    pub fn from_box(value: Box<T, A>) -> RawBox<T, A>
        ensures { result.value ≡ value.value }
    {
        let (at, alloc) = Box::into_raw_with_allocator(value);
        RawBox { at, alloc }
    }

    /// Makes the box again.
    pub fn into_box(self) -> Box<T, A>
        ensures { result.value ≡ self.value }
    {
        let RawBox { at, alloc } = self;
        unsafe { Box::from_raw(alloc, at) }
    }
}
