//! How all passes of a container are given back, and what is told of its rows then.

ghost use Rattle.std.specs.Prelude.{◌≡◌, All, IfOk, IfSome, IsTrue, length};
ghost use Rattle.given_back.specs.Places.{tags};
ghost use Rattle.orc_heap.specs.Seats.{IsIdle};
ghost use Rattle.orc_machine_board.specs.Rules.{run_of};
ghost use Rattle.orc_domain.specs.{Ends.{AreAll, AreIdle, SawAll, whole_journal}, Passes.{IsPassOf, domain_bounds, seat_of}};
ghost use Rattle.orc_rest.specs.Rest.{IsAtRest};
ghost use Rattle.orc_shared_words.specs.Lists.{EachAt};
ghost use Rattle.mooringakee_c_passes.specs.{Ending.{ArePlacesOf, TellsRows}, Usable.{CanBeUsed}};

use given_back::{GivenBack, Keeps, Unfinished};
use orc_any_domain::RowCounts;
use orc_domain::{OrcDomain, OrcPass};
use orc_heap::{Discipline, Links};
use std::alloc::Global;
use std::sync::Arc;

/// The rule of passes that are given back: each is one of the domain, and idle.
pub struct Idle;

impl<D: Discipline> Keeps<OrcPass<D>> for Idle {
    type Tag = OrcDomain<D>;

    ghost holds = { λ domain p. IsPassOf domain p × IsIdle (seat_of domain p) };
}

/// Places for the passes of one domain.
pub(crate) type Places<D> = GivenBack<OrcPass<D>, Idle>;

// Gives a pass back. The last one to do so gets them all.
fn give_back<D: Discipline>(
    domain: &OrcDomain<D>,
    places: Arc<Places<D>, Global>,
    pass: OrcPass<D>,
) -> Option<Places<D>>
    requires { CanBeUsed domain.now (tags places.value) pass }
    ensures { IfSome result (λ all. all ≡ places.value) }
{
    let agent = domain.agent(&pass);
    places.give(agent as usize, pass);
    Arc::into_inner(places)
}

// Gives a pass up.
pub(crate) fn leave<D: Discipline>(
    domain: &OrcDomain<D>,
    places: Arc<Places<D>, Global>,
    pass: OrcPass<D>,
)
    requires { CanBeUsed domain.now (tags places.value) pass }
{
    give_back(domain, places, pass);
}

// Gives a pass up. The last one to do so brings the domain to rest, and tells of its rows.
pub(crate) fn close<D: Discipline>(
    alloc: Global,
    domain: &OrcDomain<D>,
    places: Arc<Places<D>, Global>,
    pass: OrcPass<D>,
) -> Result<Option<RowCounts>, Unfinished>
    requires { CanBeUsed domain.now (tags places.value) pass }
    ensures { IfOk result (λ told. IfSome told (λ counts. TellsRows domain.now places.value counts)) }
{
    let Some(all) = give_back(domain, places, pass) else {
        return Ok(None);
    };
    Ok(Some(end(alloc, domain, all)?))
}

// Brings a domain to rest with all its passes, which were given back, ends these, and tells of its rows.
fn end<D: Discipline>(
    alloc: Global,
    domain: &OrcDomain<D>,
    places: GivenBack<OrcPass<D>, Idle>,
) -> Result<RowCounts, Unfinished>
    requires { ArePlacesOf domain.now (tags places) }
    ensures { IfOk result (λ counts. TellsRows domain.now places counts) }
{
    let mut passes = places.take_all(alloc)?;
    if !are_in_order(domain, &passes) {
        return Err(Unfinished::Missing);
    }
    drain_passes(domain, &mut passes);
    Ok(domain.end_passes(passes))
}

// Brings a domain to rest with all its passes.
fn drain_passes<D: Discipline>(domain: &OrcDomain<D>, passes: &mut Vec<OrcPass<D>>)
    requires all { AreAll domain.now passes.old.items }
    requires idle { AreIdle domain.now passes.old.items }
    ensures all { AreAll domain.now passes.new.items }
    ensures own { SawAll passes.new.items }
    ensures rest { IsAtRest (run_of (domain_bounds domain.now) (whole_journal passes.new.items)) }
{
    domain.drain_all(passes.as_mut_slice());
}

// Whether these are the passes of agent 0, agent 1 and so on.
fn are_in_order<D: Discipline>(domain: &OrcDomain<D>, passes: &Vec<OrcPass<D>>) -> bool
    ensures { IsTrue result → EachAt (λ i p. (seat_of domain.now p).agent ≡ i) passes.now.items }
{
    for at in 0..passes.len() {
        if domain.agent(&passes[at]) as usize != at {
            return false;
        }
    }
    true
}
