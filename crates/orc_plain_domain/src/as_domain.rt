//! The domain from its making to its rest, as each domain offers it.

ghost use Rattle.std.specs.Prelude.{◌≡◌, ◌+◌, List, [], All, IfOk, refl};
ghost use mathlib.Core.List.{IsPrefix};
ghost use Rattle.orc_any_domain.specs.Domains.{AreAllIdle, heap_numbers};
ghost use Rattle.orc_heap.specs.{Moves.{gives_in}, Seeds.{SeedAllowed, opening_events}, declared.events.Event.{Event}};
ghost use Rattle.orc_plain_domain.specs.{
  Ends.{AreAll, FirstSawAll, first_seen},
  Passes.{domain_bounds, domain_opening, journal_of, seat_of},
  Rest.{IsRestOf, rest_journal},
};
ghost use Rattle.orc_words.specs.Bounds.{bounds_of};

use crate::domain::{PlainDomain, PlainPass, PlainRest};
use crate::make::MadePlainDomain;
use orc_any_domain::{Domain, RowCounts};
use orc_heap::{Discipline, Links, Seed};
use orc_words::Shape;
use std::alloc::Global;

// Lets all passes see what the others did.
fn drain_passes<D: Discipline>(domain: &PlainDomain<D>, passes: &mut Vec<PlainPass<D>>)
    requires { AreAllIdle ⟦<PlainDomain<D> as Links>⟧ domain.now passes.old.items }
    ensures all { AreAll domain.now passes.new.items }
    ensures own { FirstSawAll domain.now passes.new.items }
    ensures heard { All (λ p. IsPrefix (journal_of p) (first_seen domain.now passes.new.items)) passes.old.items }
    ensures quiet { (seen : List (Event D.Note)) → All (λ p. journal_of p ≡ seen) passes.old.items
        → first_seen domain.now passes.new.items ≡ seen }
{
    domain.drain_all(passes.as_mut_slice());
}

impl<D: Discipline> Domain for PlainDomain<D> {
    type Rest = PlainRest<D>;

    ghost bounds = { λ d. domain_bounds d };

    ghost rests = { λ d passes r. IsRestOf d passes r };

    ghost left = { λ r. rest_journal r };

    fn make(alloc: Global, shape: &Shape, seed: Seed<D::Note>) -> MadePlainDomain<D>
        requires holds { D.holds (heap_numbers (bounds_of shape.now)) [] }
        requires seed { SeedAllowed D.may (heap_numbers (bounds_of shape.now)) seed }
        ensures bounds { IfOk result (λ made. domain_bounds made.0 ≡ bounds_of shape.now) }
        ensures opening { IfOk result (λ made. domain_opening made.0 ≡ opening_events seed) }
        ensures idle { IfOk result (λ made. AreAllIdle ⟦<PlainDomain<D> as Links>⟧ made.0 made.1.items) }
        ensures new { IfOk result (λ made. All (λ p. (seat_of made.0 p).seen ≡ opening_events seed) made.1.items) }
    {
        let made = PlainDomain::make(alloc, shape, seed)?;
        Ok(made)
    }

    fn backlog(&self, _p: &PlainPass<D>) -> u32 {
        0
    }

    fn end(self, passes: Vec<PlainPass<D>>) -> PlainRest<D>
        requires { AreAllIdle ⟦<PlainDomain<D> as Links>⟧ self passes.items }
        ensures { IsRestOf self passes.items result }
    {
        let mut all = passes;
        drain_passes(&self, &mut all);
        self.rest(all)
    }

    fn counts(rest: &PlainRest<D>) -> RowCounts
        ensures given { result.given ≡ gives_in (rest_journal rest.now) }
        ensures reused { result.reused ≡ 0 }
        ensures linked { result.linked ≡ gives_in (rest_journal rest.now) }
        ensures balance { result.given ≡ result.reused + result.linked }
    {
        RowCounts {
            given: rest.given(),
            reused: rest.reused(),
            linked: rest.linked(),
        }
    }

    ghost goes_on = { λ d passes r h. h.heard };

    ghost rests_quietly = { λ d passes r seen h same. h.journal seen same };

    ghost numbers_are = { λ d. refl };

    ghost agents_are = { λ d. refl };

    ghost rows_are = { λ d. refl };
}
