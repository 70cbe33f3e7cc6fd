//! The domain from its making to its rest, as each domain offers it.

ghost use Rattle.std.specs.Prelude.{◌≡◌, ◌+◌, [], All, IfOk, refl};
ghost use mathlib.Core.List.{IsPrefix};
ghost use Rattle.orc_any_domain.specs.Domains.{AreAllIdle, heap_numbers};
ghost use Rattle.orc_heap.specs.{Moves.{gives_in}, Seeds.{SeedAllowed, opening_events}};
ghost use Rattle.orc_machine_board.specs.Rules.{run_of};
ghost use Rattle.orc_machine_rest.specs.Ends.{CountsOf};
ghost use Rattle.orc_domain.specs.{
  Ends.{AddsNoEvents, AreAll, SawAll, whole_journal},
  Passes.{domain_bounds, domain_opening, journal_of, seat_of},
  Rest.{IsRestOf, rest_domain, rest_journal},
};
ghost use Rattle.orc_projection.specs.Projection.{project};
ghost use Rattle.orc_rest.specs.Rest.{IsAtRest};
ghost use Rattle.orc_words.specs.Bounds.{bounds_of};

use crate::at_rest::OrcRest;
use crate::domain::{OrcDomain, OrcPass};
use crate::make::MadeOrcDomain;
use orc_any_domain::{Domain, RowCounts};
use orc_heap::{Discipline, Links, Seed};
use orc_words::Shape;
use std::alloc::Global;

// Lets all passes drain.
fn drain_passes<D: Discipline>(domain: &OrcDomain<D>, passes: &mut Vec<OrcPass<D>>)
    requires { AreAllIdle ⟦<OrcDomain<D> as Links>⟧ domain.now passes.old.items }
    ensures all { AreAll domain.now passes.new.items }
    ensures own { SawAll passes.new.items }
    ensures rest { IsAtRest (run_of (domain_bounds domain.now) (whole_journal passes.new.items)) }
    ensures later { IsPrefix (whole_journal passes.old.items) (whole_journal passes.new.items) }
    ensures heard { All (λ p. IsPrefix (journal_of p) (whole_journal passes.new.items)) passes.old.items }
    ensures quiet { AddsNoEvents domain.now passes.old.items passes.new.items }
{
    domain.drain_all(passes.as_mut_slice());
}

impl<D: Discipline> Domain for OrcDomain<D> {
    type Rest = OrcRest<D>;

    ghost bounds = { λ d. domain_bounds d };

    ghost rests = { λ d passes r. IsRestOf d passes r };

    ghost left = { λ r. rest_journal r };

    fn make(alloc: Global, shape: &Shape, seed: Seed<D::Note>) -> MadeOrcDomain<D>
        requires holds { D.holds (heap_numbers (bounds_of shape.now)) [] }
        requires seed { SeedAllowed D.may (heap_numbers (bounds_of shape.now)) seed }
        ensures bounds { IfOk result (λ made. domain_bounds made.0 ≡ bounds_of shape.now) }
        ensures opening { IfOk result (λ made. domain_opening made.0 ≡ opening_events seed) }
        ensures idle { IfOk result (λ made. AreAllIdle ⟦<OrcDomain<D> as Links>⟧ made.0 made.1.items) }
        ensures new { IfOk result (λ made. All (λ p. (seat_of made.0 p).seen ≡ opening_events seed) made.1.items) }
    {
        let made = OrcDomain::make(alloc, shape, seed)?;
        Ok(made)
    }

    fn backlog(&self, p: &OrcPass<D>) -> u32 {
        OrcDomain::backlog(self, p)
    }

    fn end(self, passes: Vec<OrcPass<D>>) -> OrcRest<D>
        requires { AreAllIdle ⟦<OrcDomain<D> as Links>⟧ self passes.items }
        ensures { IsRestOf self passes.items result }
    {
        let mut all = passes;
        drain_passes(&self, &mut all);
        self.rest(all)
    }

    fn counts(rest: &OrcRest<D>) -> RowCounts
        ensures counts { CountsOf (domain_bounds (rest_domain rest.now)) (rest_journal rest.now) result }
        ensures given { (domain : _) (passes : _) → IsRestOf domain passes rest.now
            → result.given ≡ gives_in (project (domain_bounds domain) (rest_journal rest.now)) }
        ensures balance { (domain : _) (passes : _) → IsRestOf domain passes rest.now → result.given ≡ result.reused + result.linked }
    {
        rest.counts
    }

    ghost goes_on = { λ d passes r h. h.heard };

    ghost rests_quietly = { λ d passes r seen h same. (h.journal seen same).quiet };

    ghost numbers_are = { λ d. refl };

    ghost agents_are = { λ d. refl };

    ghost rows_are = { λ d. refl };
}
