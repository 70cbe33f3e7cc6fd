//! Laws of what passes have seen, and of what the members of `Links` are here.

ghost use Rattle.std.specs.Prelude.{◌≡◌, ◌≤◌, ℕ, List};
ghost use Rattle.orc_fault.specs.declared.Spent.{Spent};
ghost use Rattle.orc_heap.specs.{Moves.{gives_in}, declared.events.Event.{Event}};
ghost use Rattle.orc_plain_domain.specs.{
  Given.{IsLacking},
  Passes.{IsPassOf, domain_bounds, domain_numbers, domain_opening, journal_of, seat_of},
};

use crate::domain::{PlainDomain, PlainPass};
use orc_heap::{Discipline, Links};

impl<D: Discipline> PlainDomain<D> {
    /// A pass has seen at most as many Gives as there are rows, since no row is given twice.
    pub fn gives_at_most_rows(&self, p: &PlainPass<D>)
        requires pass { IsPassOf self.now p.now }
        ensures rows { gives_in (seat_of self.now p.now).seen ≤ (domain_bounds self.now).rows }
    {}

    /// What a caller through `Links` knows of the domain: the numbers and the opening that `make` was given; its steps
    /// are its events; a node is refused only once all rows were given; and no row is worn.
    pub fn links_of_the_domain(&self)
        ensures numbers { ⟦<PlainDomain<D> as Links>⟧.numbers self.now ≡ domain_numbers self.now }
        ensures rows { ⟦<PlainDomain<D> as Links>⟧.rows self.now ≡ (domain_bounds self.now).rows }
        ensures agents { ⟦<PlainDomain<D> as Links>⟧.agents self.now ≡ (domain_bounds self.now).agents }
        ensures opening { ⟦<PlainDomain<D> as Links>⟧.opening self.now ≡ domain_opening self.now }
        ensures agent_of { (e : Event D.Note) → ⟦<PlainDomain<D> as Links>⟧.agent_of e ≡ e.agent }
        ensures events { (j : List (Event D.Note)) → ⟦<PlainDomain<D> as Links>⟧.events self.now j ≡ j }
        ensures lacking { (agent : ℕ) (journal : List (Event D.Note)) (from to : ℕ)
            → ⟦<PlainDomain<D> as Links>⟧.lacking self.now agent journal from to → IsLacking (domain_bounds self.now).rows journal to }
        ensures worn { (agent : ℕ) (why : Spent) (journal : List (Event D.Note)) (from to : ℕ)
            → ¬ ⟦<PlainDomain<D> as Links>⟧.worn self.now agent why journal from to }
    {}

    /// What a caller through `Links` knows of a pass that `make` gave: it is one of the domain, it shows what it has
    /// seen and holds, and it has no retired rows to work through.
    pub fn links_of_a_pass(&self, p: &PlainPass<D>)
        requires pass { IsPassOf self.now p.now }
        ensures belongs { ⟦<PlainDomain<D> as Links>⟧.belongs self.now p.now }
        ensures seat { ⟦<PlainDomain<D> as Links>⟧.seat self.now p.now ≡ seat_of self.now p.now }
        ensures journal { ⟦<PlainDomain<D> as Links>⟧.journal p.now ≡ journal_of p.now }
        ensures backlog { ⟦<PlainDomain<D> as Links>⟧.backlog p.now ≡ 0 }
    {}
}
