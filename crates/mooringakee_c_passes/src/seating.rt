//! How the passes of a new container get their places.

ghost use Rattle.std.specs.Prelude.{◌≡◌, [], All, IfOk, length};
ghost use Rattle.given_back.specs.Places.{tags};
ghost use Rattle.orc_heap.specs.Seeds.{SeedAllowed, opening_events};
ghost use Rattle.orc_projection.specs.Mirror.{numbers_of};
ghost use Rattle.orc_domain.specs.Passes.{domain_bounds, domain_opening, seat_of};
ghost use Rattle.orc_shared_words.specs.Lists.{EachAt};
ghost use Rattle.orc_words.specs.Bounds.{bounds_of};
ghost use Rattle.mooringakee_c_passes.specs.{
  Places.{GetsPlace},
  Usable.{CanBeUsed},
  declared.{place.AgentPlace.{AgentPlace}, seat.Seat.{Seat}},
};

use crate::ending::Places;
use crate::place::AgentPlace;
use crate::seat::Seat;
use orc_domain::{OrcDomain, OrcPass};
use orc_fault::NoMemory;
use orc_heap::{Discipline, Seed};
use orc_words::Shape;
use std::alloc::Global;
use std::sync::Arc;

// A domain of this shape, its passes, and places to which they are given back.
pub(crate) fn new_domain<D: Discipline>(
    alloc: Global,
    shape: &Shape,
    seed: Seed<D::Note>,
) -> Result<(OrcDomain<D>, Vec<OrcPass<D>>, Places<D>), NoMemory>
    requires holds { D.holds (numbers_of (bounds_of shape.now)) [] }
    requires seed { SeedAllowed D.may (numbers_of (bounds_of shape.now)) seed }
    ensures bounds { IfOk result (λ made. domain_bounds made.0 ≡ bounds_of shape.now) }
    ensures opening { IfOk result (λ made. domain_opening made.0 ≡ opening_events seed) }
    ensures many { IfOk result (λ made. length made.1.items ≡ (bounds_of shape.now).agents) }
    ensures usable { IfOk result (λ made. All (λ p. CanBeUsed made.0 (tags made.2) p) made.1.items) }
    ensures agents { IfOk result (λ made. EachAt (λ i p. (seat_of made.0 p).agent ≡ i) made.1.items) }
    ensures seen { IfOk result (λ made. All (λ p. (seat_of made.0 p).seen ≡ opening_events seed) made.1.items) }
{
    let (domain, passes) = OrcDomain::make(alloc, shape, seed)?;
    let places = Places::new(alloc, passes.len(), &domain)?;
    Ok((domain, passes, places))
}

/// A container of which an agent's place is one at a container of any kind.
pub(crate) trait HasSeats<G, P>: Sized {
    // the place as such a one
    ghost seat_of: { AgentPlace Self G P → Seat };

    // The place as such a one.
    fn seat(place: AgentPlace<Self, G, P>) -> Seat
        ensures { result ≡ seat_of place };
}

// Has the check show that a value may go to another thread.
fn may_cross<T: Send>(_value: &T) {}

// The places of all passes to a container, in their order, each as a seat.
pub(crate) fn seat_all<C: HasSeats<G, P> + Drop, G: Drop, P: Drop>(
    alloc: Global,
    container: C,
    places: G,
    passes: Vec<P>,
    turns: u64,
) -> Result<Vec<Box<Seat>>, NoMemory>
    ensures many { IfOk result (λ seats. length seats.items ≡ length passes.items) }
    ensures places { IfOk result (λ seats. EachAt (λ i b. GetsPlace (λ place seat. seat ≡ C.seat_of place) container places passes.items
        turns i b.value) seats.items) }
{
    let container = Arc::new(alloc, container)?;
    let places = Arc::new(alloc, places)?;
    let mut seats = Vec::new(alloc);
    for pass in passes {
        let place = AgentPlace {
            container: container.clone()?,
            places: places.clone()?,
            pass,
            turns,
        };
        let made = C::seat(place);
        may_cross(&made);
        seats.push(Box::new(alloc, made)?)?;
    }
    Ok(seats)
}
