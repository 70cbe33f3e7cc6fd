//! Laws of what the members of `Links` are here.

ghost use Rattle.std.specs.Prelude.{◌≡◌, ◌≤◌, ◌*◌, List, ℕ};
ghost use Rattle.orc_fault.specs.declared.Spent.{Spent};
ghost use Rattle.orc_machine_board.specs.{Passes.{backlog_in}, Views.{shows}, Rules.{run_of}};
ghost use Rattle.orc_core.specs.Machine.{new_machine};
ghost use Rattle.orc_sound.specs.{Backlog.{backlog}, Journals.{IsLawfulJournal}, Sound.{IsSound}, declared.steps.Step.{Step}};
ghost use Rattle.orc_projection.specs.Projection.{project};
ghost use Rattle.orc_machine_rest.specs.OwnSteps.{LeavesNothing};
ghost use Rattle.orc_domain.specs.{
  Causes.{IsLacking, IsWornIn},
  OwnSteps.{TakesInMoved},
  Passes.{IsPassOf, domain_bounds, domain_numbers, domain_opening, journal_of, seat_of},
};

use crate::domain::{OrcDomain, OrcPass};
use orc_heap::{Discipline, Links};

impl<D: Discipline> OrcDomain<D> {
    /// What a caller through `Links` knows of the domain: the numbers and the opening that `make` was given; a node is
    /// refused only where each row was out or spent at some time of the call; and a row is worn only where its sequence
    /// was read as the limit for links or more.
    pub fn links_of_the_domain(&self)
        ensures numbers { ⟦<OrcDomain<D> as Links>⟧.numbers self.now ≡ domain_numbers self.now }
        ensures rows { ⟦<OrcDomain<D> as Links>⟧.rows self.now ≡ (domain_bounds self.now).rows }
        ensures agents { ⟦<OrcDomain<D> as Links>⟧.agents self.now ≡ (domain_bounds self.now).agents }
        ensures opening { ⟦<OrcDomain<D> as Links>⟧.opening self.now ≡ domain_opening self.now }
        ensures agent_of { (s : Step D.Note) → ⟦<OrcDomain<D> as Links>⟧.agent_of s ≡ s.agent }
        ensures events { (j : List (Step D.Note)) → ⟦<OrcDomain<D> as Links>⟧.events self.now j ≡ project (domain_bounds self.now) j }
        ensures lacking { (agent : ℕ) (journal : List (Step D.Note)) (from to : ℕ)
            → ⟦<OrcDomain<D> as Links>⟧.lacking self.now agent journal from to → IsLacking (domain_bounds self.now) agent journal from to }
        ensures worn { (agent : ℕ) (why : Spent) (journal : List (Step D.Note)) (from to : ℕ)
            → ⟦<OrcDomain<D> as Links>⟧.worn self.now agent why journal from to → IsWornIn (domain_bounds self.now) agent why journal from to }
    {}

    /// What a caller through `Links` knows of a pass that `make` gave: it is one of the domain, and it shows what it has
    /// seen and holds, and how many retired rows it has to work through.
    pub fn links_of_a_pass(&self, p: &OrcPass<D>)
        requires pass { IsPassOf self.now p.now }
        ensures belongs { ⟦<OrcDomain<D> as Links>⟧.belongs self.now p.now }
        ensures seat { ⟦<OrcDomain<D> as Links>⟧.seat self.now p.now ≡ seat_of self.now p.now }
        ensures journal { ⟦<OrcDomain<D> as Links>⟧.journal p.now ≡ journal_of p.now }
        ensures backlog { ⟦<OrcDomain<D> as Links>⟧.backlog p.now ≡ backlog_in (shows p.now.pass).record_is }
    {}

    /// What was handed over beside a slot that moved on doesn't stay behind once the slot is empty: in a part of a journal in which the
    /// agent took in from each slot that it cleared, as each call leaves it, a slot that moved on is cleared no more, or taken in
    /// from right after it was cleared for the last time.
    pub fn moved_slots_are_taken_in_from(&self)
        ensures taken_in { (agent : ℕ) (before after : List (Step D.Note)) (leaves : LeavesNothing agent before after) → TakesInMoved leaves.ops }
    {}

    /// What is true of all that a pass has seen: its steps are lawful, so the state that they leave is sound, and at most nine retired
    /// rows for each agent are in no work list.
    pub fn seen_by(&self, p: &OrcPass<D>)
        requires pass { IsPassOf self.now p.now }
        ensures lawful { IsLawfulJournal (new_machine (domain_bounds self.now)) (journal_of p.now) }
        ensures sound { IsSound (run_of (domain_bounds self.now) (journal_of p.now)) }
        ensures bounded { backlog (run_of (domain_bounds self.now) (journal_of p.now)) ≤ 9 * (domain_bounds self.now).agents }
    {}
}
