//! New sets.

ghost use Rattle.std.specs.Prelude.{◌≡◌, ◌<◌, IfOk, length};
ghost use Rattle.orc_chain_rule.specs.{declared.chain.{Chain.{Chain}, ChainNote.{ChainNote}}};
ghost use Rattle.orc_domain.specs.{Passes.{domain_bounds}, declared.domain.OrcDomain.{OrcDomain}};
ghost use Rattle.orc_shared_words.specs.Lists.{EachAt};
ghost use Rattle.orc_words.specs.Bounds.{bounds_of};
ghost use Rattle.mooringakee_c_passes.specs.{Making.{IsNewSetSeat}, declared.seat.Seat.{Seat}};

use crate::ending::Places;
use crate::on_domain::ReclaimingSet;
use crate::place::AgentPlaceOn;
use crate::seat::Seat;
use crate::seating::{HasSeats, new_domain, seat_all};
use crate::set_domain::SetDomain;
use orc_chain_rule::Chain;
use orc_domain::OrcPass;
use orc_fault::NoMemory;
use orc_heap::{Links, Seed};
use orc_list::List;
use orc_set::Set;
use orc_words::Shape;
use std::alloc::Global;

impl HasSeats<Places<Chain>, OrcPass<Chain>> for ReclaimingSet {
    ghost seat_of = { λ place. Seat.Set place };

    fn seat(place: AgentPlaceOn<Chain, ReclaimingSet>) -> Seat
        ensures { result ≡ Seat.Set place }
    {
        Seat::Set(place)
    }
}

// The set of all lists of a domain with so many roots.
fn set_of_lists<L: Links<Rule = Chain>>(links: L, roots: u32) -> Set<L>
    requires some { 0 < roots }
    requires all { (L.numbers links).roots ≡ roots }
    ensures { result.list.links ≡ links }
{
    let list = List::new(links);
    Set::new(list, roots)
}

/// A new set of this shape, with a bucket for each of its roots, as a place for each agent, in order.
pub fn set_seats(alloc: Global, shape: &Shape, turns: u64) -> Result<Vec<Box<Seat>>, NoMemory>
    ensures many { IfOk result (λ seats. length seats.items ≡ (bounds_of shape.now).agents) }
    ensures places { IfOk result (λ seats. (domain : OrcDomain Chain ChainNote) × (domain_bounds domain ≡ bounds_of shape.now)
        × EachAt (λ agent b. IsNewSetSeat domain turns agent b.value) seats.items) }
{
    let (domain, passes, places) = new_domain(alloc, shape, Seed::Empty)?;
    let set = set_of_lists(SetDomain { domain }, shape.roots());
    seat_all(alloc, ReclaimingSet { set }, places, passes, turns)
}
