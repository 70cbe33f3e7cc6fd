//! A seat's box as a pointer.

ghost use Rattle.std.specs.Prelude.{◌≡◌, Some, None, IsSome, Option};
ghost use Rattle.mooringakee_c_passes.specs.{Seats.{IsPlaceOf, IsSeat}, declared.seat.Seat.{Seat}};

use crate::seat::Seat;
use raw_box::RawBox;
use std::alloc::Global;
use std::marker::Model;

/// A pointer to a seat's box, which it owns, or null.
#[repr(C)]
#[derive(Drop)]
pub struct SeatPointer {
    at: *mut u8,
    alloc: Global,
    pub ghost seat: { Option Seat },
}

impl Model for SeatPointer {
    ghost use Rattle.std.specs.Prelude.{Option};
    ghost use Rattle.mooringakee_c_passes.specs.{Held.{held_box}, Seats.{IsSeat}, declared.seat.Seat.{Seat}, contracts.seat.Seat.{the_row}};

    ghost also_owns = { λ h. held_box h.alloc the_row IsSeat h.seat h.at };
}

unsafe impl Send for SeatPointer {}

impl SeatPointer {
    // The pointer that owns nothing.
    pub(crate) fn empty(alloc: Global) -> SeatPointer
        ensures { result.seat ≡ None }
    {
        SeatPointer {
            at: std::ptr::null_mut(),
            alloc,
        }
    }

    // The pointer to what the box owned.
    pub(crate) fn seal(raw: RawBox<Seat, Global>) -> SeatPointer
        requires { IsSeat raw.value }
        ensures { result.seat ≡ Some raw.value }
    {
        let RawBox { at, alloc } = raw;
        SeatPointer {
            at: at as *mut u8,
            alloc,
        }
    }

    // What the pointer owns.
    pub(crate) fn open(self) -> RawBox<Seat, Global>
        requires { IsSome self.seat }
        ensures { IsPlaceOf self.seat result.value }
    {
        let SeatPointer { at, alloc } = self;
        RawBox {
            at: at as *mut Seat,
            alloc,
        }
    }
}
