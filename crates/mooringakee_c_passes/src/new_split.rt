//! New split-ordered sets.

ghost use Rattle.std.specs.Prelude.{◌≡◌, ◌+◌, IfOk, length};
ghost use Rattle.orc_split_rule.specs.{declared.split.{Split.{Split}, SplitNote.{SplitNote}}, SplitDiscipline.{IsSize}};
ghost use Rattle.orc_domain.specs.{Passes.{domain_bounds}, declared.domain.OrcDomain.{OrcDomain}};
ghost use Rattle.orc_shared_words.specs.Lists.{EachAt};
ghost use Rattle.orc_words.specs.Bounds.{bounds_of};
ghost use Rattle.mooringakee_c_passes.specs.{Making.{IsNewSplitSeat}, declared.seat.Seat.{Seat}};

use crate::ending::Places;
use crate::on_domain::ReclaimingSplit;
use crate::seat::Seat;
use crate::seating::{HasSeats, new_domain, seat_all};
use crate::split::SplitSetPlace;
use crate::split_domain::SplitDomain;
use orc_domain::OrcPass;
use orc_fault::NoMemory;
use orc_heap::Seed;
use orc_split_rule::Split;
use orc_split_set::SplitSet;
use orc_words::Shape;
use std::alloc::Global;

impl HasSeats<Places<Split>, OrcPass<Split>> for ReclaimingSplit {
    ghost seat_of = { λ place. Seat.Split place };

    fn seat(place: SplitSetPlace) -> Seat
        ensures { result ≡ Seat.Split place }
    {
        Seat::Split(place)
    }
}

/// A new set of this shape, which grows to so many buckets, as a place for each agent, in order.
pub fn split_seats(
    alloc: Global,
    shape: &Shape,
    buckets: u32,
    turns: u64,
) -> Result<Vec<Box<Seat>>, NoMemory>
    requires size { IsSize 256 buckets }
    requires roots { (bounds_of shape.now).roots ≡ buckets + 1 }
    ensures many { IfOk result (λ seats. length seats.items ≡ (bounds_of shape.now).agents) }
    ensures places { IfOk result (λ seats. (domain : OrcDomain Split SplitNote) × (domain_bounds domain ≡ bounds_of shape.now)
        × EachAt (λ agent b. IsNewSplitSeat domain turns agent b.value) seats.items) }
{
    let (domain, passes, places) = new_domain(alloc, shape, Seed::Empty)?;
    let set = SplitSet::new(SplitDomain { domain }, buckets);
    seat_all(alloc, ReclaimingSplit { set }, places, passes, turns)
}
