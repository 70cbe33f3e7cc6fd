//! Domains at rest.

ghost use Rattle.std.specs.Prelude.{◌≡◌};
ghost use Rattle.std.specs.List.{AllByRecursion};
ghost use Rattle.orc_shared_words.specs.Lists.{Among};
ghost use Rattle.orc_plain_board.specs.Views.{shows};
ghost use Rattle.orc_plain_domain.specs.{
  Ends.{AreAll, FirstSawAll, first_seen},
  Passes.{IsPassOf, domain_bounds, seat_of},
  Rest.{CoversAll, IsShown, TakesInEvents, rest_domain, rest_journal},
};
ghost use Rattle.orc_heap.specs.Moves.{gives_in};

use crate::domain::{PlainDomain, PlainPass, PlainRest};
use orc_heap::Discipline;

impl<D: Discipline> PlainRest<D> {
    /// How many nodes were given.
    pub fn given(&self) -> u64
        ensures { result ≡ gives_in (rest_journal self.now) }
    {
        u64::from(self.given)
    }

    /// How many rows were freed, to be given again: none.
    pub fn reused(&self) -> u64
        ensures { result ≡ 0 }
    {
        0
    }

    /// How many rows are out: all that were given.
    pub fn linked(&self) -> u32
        ensures { result ≡ gives_in (rest_journal self.now) }
    {
        self.given
    }
}

impl<D: Discipline> PlainDomain<D> {
    /// Ends the sharing: the first pass takes in all others. It has to have seen all that they did, as after
    /// `drain_all`.
    pub fn rest(self, passes: Vec<PlainPass<D>>) -> PlainRest<D>
        requires all { AreAll self passes.items }
        requires own { FirstSawAll self passes.items }
        ensures domain { rest_domain result ≡ self }
        ensures shown { IsShown result }
        ensures journal { rest_journal result ≡ first_seen self passes.items }
    {
        let mut others = passes;
        let mut first = others.remove(0);
        self.take_in_events(&mut first, others);
        let given = self.count_given(&mut first);
        PlainRest {
            domain: self,
            pass: first,
            given,
        }
    }

    // Takes in the passes, one after another. What is told of them is the events that they have seen.
    fn take_in_events(&self, into: &mut PlainPass<D>, others: Vec<PlainPass<D>>)
        requires into { IsPassOf self.now into.old }
        requires others { AllByRecursion (λ p. IsPassOf self.now p) others.items }
        ensures into { IsPassOf self.now into.new }
        ensures taken { TakesInEvents (λ p. shows self.now.board p.pass) (shows self.now.board into.old.pass) (shows self.now.board into.new.pass)
            others.items }
    {
        let mut rest = others;
        while !rest.is_empty() {
            let next = rest.remove(0);
            let PlainPass {
                pass,
                slots: _,
                next: _,
                shape: _,
            } = next;
            self.board.absorb(&mut into.pass, pass);
        }
    }

    // Counts the rows that are out.
    fn count_given(&self, p: &mut PlainPass<D>) -> u32
        requires pass { IsPassOf self.now p.old }
        requires alone { CoversAll (domain_bounds self.now).agents (shows self.now.board p.old.pass) }
        ensures pass { IsPassOf self.now p.new }
        ensures alone { CoversAll (domain_bounds self.now).agents (shows self.now.board p.new.pass) }
        ensures seen { (seat_of self.now p.new).seen ≡ (seat_of self.now p.old).seen }
        ensures count { result ≡ gives_in (seat_of self.now p.old).seen }
    {
        let mut given = 0;
        for row in 0..p.shape.rows() {
            let gate = self.board.gate_look(&mut p.pass, row);
            given += (gate % 2) as u32;
        }
        given
    }
}
