//! A pass that C holds.

ghost use Rattle.std.specs.Prelude.{◌≡◌, ◌↔◌, IfSome, IsSome, IsTrue, None, Some, is_some};
ghost use Rattle.mooringakee_c_passes.specs.Seats.{IsPlaceOf, IsSeat};

use crate::pointer::SeatPointer;
use crate::seat::Seat;
use raw_box::RawBox;
use std::alloc::Global;
use std::mem;

/// A pass, or none: then all its bytes may be zero.
#[repr(C)]
#[derive(Drop)]
pub struct Pass {
    pointer: SeatPointer,
    live: bool,
    ghost live_is: { live ≡ is_some pointer.seat },
}

impl Pass {
    // No pass.
    pub(crate) fn empty(alloc: Global) -> Pass
        ensures { result.pointer.seat ≡ None }
    {
        Pass {
            pointer: SeatPointer::empty(alloc),
            live: false,
        }
    }

    /// The pass of this seat.
    pub fn of(seat: Box<Seat>) -> Pass
        requires { IsSeat seat.value }
        ensures { result.pointer.seat ≡ Some seat.value }
    {
        Pass {
            pointer: SeatPointer::seal(RawBox::from_box(seat)),
            live: true,
        }
    }

    // Whether there is a pass.
    pub(crate) fn is_live(&self) -> bool
        ensures { IsTrue result ↔ IsSome self.now.pointer.seat }
    {
        self.live
    }

    /// Takes the seat out, and leaves no pass.
    pub fn take(&mut self, alloc: Global) -> Option<Box<Seat>>
        ensures left { self.new.pointer.seat ≡ None }
        ensures none { result ≡ None → self.old.pointer.seat ≡ None }
        ensures taken { IfSome result (λ seat. IsPlaceOf self.old.pointer.seat seat.value) }
    {
        let Pass { pointer, live } = mem::replace(self, Pass::empty(alloc));
        if live {
            Some(pointer.open().into_box())
        } else {
            None
        }
    }
}
