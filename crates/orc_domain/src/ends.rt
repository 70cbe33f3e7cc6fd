//! Passes that end their work.

ghost use Rattle.std.specs.Prelude.{◌≡◌, ◌≢◌, ◌+◌, ◌*◌, [], All, suc};
ghost use Rattle.std.specs.List.{AllByRecursion};
ghost use mathlib.Core.List.{IsPrefix};
ghost use Rattle.orc_any_domain.specs.Learning.{Hears, LearnsAll};
ghost use Rattle.orc_heap.specs.{OwnEvents.{Only}, Seats.{IsIdle}};
ghost use Rattle.orc_history.specs.Parts.{IsAlone};
ghost use Rattle.orc_machine_rest.specs.{Drains.{Drains}, OwnSteps.{AtMostMore, LeavesNothing, TakesInAll, most_rounds, steps_a_round}};
ghost use Rattle.orc_machine_board.specs.{Passes.{backlog_in}, Rules.{run_of}, Views.{shows}};
ghost use Rattle.orc_domain.specs.{
  Drains.{AreNumbered, DrainInTurn},
  Ends.{AddsNoEvents, AreAll, AreIdle, HaveNoBacklog, IsNoLonger, SawAll, SawOneList, whole_journal},
  Passes.{IsPassOf, domain_bounds, journal_of, next_row, seat_of},
};
ghost use Rattle.orc_rest.specs.{Rest.{IsAtRest}, Turns.{NoneHanded}};

use crate::domain::{OrcDomain, OrcPass};
use orc_any_domain::learn_all;
use orc_heap::{Discipline, Links};
use orc_machine_rest::drain;

impl<D: Discipline> OrcDomain<D> {
    /// Takes in what was handed over beside each of the eight slots, and settles, in at most `4 * (rows + 8 * agents)` rounds. What
    /// is left afterwards is left only where another agent steps meanwhile.
    pub fn drain(&self, p: &mut OrcPass<D>)
        requires pass { IsPassOf self.now p.old }
        requires idle { IsIdle (seat_of self.now p.old) }
        ensures pass { IsPassOf self.now p.new }
        ensures idle { IsIdle (seat_of self.now p.new) }
        ensures later { IsPrefix (journal_of p.old) (journal_of p.new) }
        ensures nothing { Only [] (seat_of self.now p.old) (seat_of self.now p.new) }
        ensures settled { IsAlone (λ s. s.agent) (seat_of self.now p.old).agent (journal_of p.old) (journal_of p.new)
            → backlog_in (shows p.new.pass).record_is ≡ 0 }
        ensures handovers { IsAlone (λ s. s.agent) (seat_of self.now p.old).agent (journal_of p.old) (journal_of p.new)
            → NoneHanded (seat_of self.now p.old).agent (run_of (domain_bounds self.now) (journal_of p.new)) }
        ensures taken_in { LeavesNothing (seat_of self.now p.old).agent (journal_of p.old) (journal_of p.new) }
        ensures drains { Drains (domain_bounds self.now) (seat_of self.now p.old).agent (shows p.old.pass) (shows p.new.pass) }
        ensures takes_all { TakesInAll (seat_of self.now p.old).agent (journal_of p.old) (journal_of p.new) }
        ensures few { AtMostMore (seat_of self.now p.old).agent (8 + most_rounds (domain_bounds self.now) * steps_a_round (domain_bounds self.now))
            (journal_of p.old) (journal_of p.new) }
        ensures next { next_row p.new ≡ next_row p.old }
    {
        drain(&self.board, &mut p.pass);
    }

    /// Brings the domain to rest. The first pass learns from all others, twice; the passes drain one after another, each after it
    /// has learned from the one before it; and the first learns from all others again, twice. All passes have then seen one list.
    pub fn drain_all(&self, passes: &mut [OrcPass<D>])
        requires all { AreAll self.now passes.old }
        requires idle { AreIdle self.now passes.old }
        ensures all { AreAll self.now passes.new }
        ensures idle { AreIdle self.now passes.new }
        ensures settled { HaveNoBacklog passes.new }
        ensures one_list { SawOneList passes.new }
        ensures own { SawAll passes.new }
        ensures rest { IsAtRest (run_of (domain_bounds self.now) (whole_journal passes.new)) }
        ensures later { IsPrefix (whole_journal passes.old) (whole_journal passes.new) }
        ensures heard { All (λ p. IsPrefix (journal_of p) (whole_journal passes.new)) passes.old }
        ensures longest { IsNoLonger self.now passes.old passes.new }
        ensures quiet { AddsNoEvents self.now passes.old passes.new }
    {
        if let Some((first, others)) = passes.split_first_mut() {
            self.learn_from_all(first, others);
            self.drain(first);
            self.drain_in_turn(first, others);
            self.learn_from_all(first, others);
        }
    }

    // Lets the pass learn from each of the others, twice.
    fn learn_from_all(&self, first: &mut OrcPass<D>, others: &mut [OrcPass<D>])
        requires first { IsPassOf self.now first.old }
        requires others { AllByRecursion (λ p. IsPassOf self.now p) others.old }
        requires agents { AllByRecursion (λ p. (seat_of self.now first.old).agent ≢ (seat_of self.now p).agent) others.old }
        ensures first { IsPassOf self.now first.new }
        ensures others { AllByRecursion (λ p. IsPassOf self.now p) others.new }
        ensures steps { LearnsAll (λ p. seat_of self.now p) (λ s. s.agent) (λ p. journal_of p) first.old first.new others.old others.new }
    {
        learn_all(self, first, others);
    }

    // Lets each of the others drain, after it has learned from the one before it.
    fn drain_in_turn(&self, before: &mut OrcPass<D>, others: &mut [OrcPass<D>])
        requires before { IsPassOf self.now before.old }
        requires others { AllByRecursion (λ p. IsPassOf self.now p) others.old }
        requires idle { AllByRecursion (λ p. IsIdle (seat_of self.now p)) others.old }
        requires numbered { AreNumbered (λ p. seat_of self.now p) (suc (seat_of self.now before.old).agent) others.old }
        requires seen { AllByRecursion (λ p. IsPrefix (journal_of p) (journal_of before.old)) others.old }
        ensures before { IsPassOf self.now before.new }
        ensures others { AllByRecursion (λ p. IsPassOf self.now p) others.new }
        ensures hears { Hears (λ p. seat_of self.now p) (λ s. s.agent) (λ p. journal_of p) before.old before.new }
        ensures same { journal_of before.new ≡ journal_of before.old }
        ensures turns { DrainInTurn (λ p. seat_of self.now p) (λ p. journal_of p) (domain_bounds self.now) (journal_of before.old) others.old others.new }
    {
        let Some((next, rest)) = others.split_first_mut() else {
            return;
        };
        self.learn(next, before);
        self.drain(next);
        self.drain_in_turn(next, rest);
    }
}
