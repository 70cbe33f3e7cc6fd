//! How a domain comes to be one at rest, and what that tells.

ghost use Rattle.std.specs.Prelude.{◌≡◌, ◌+◌, ◌++◌};
ghost use Rattle.std.specs.List.{AllByRecursion};
ghost use Rattle.orc_machine_rest.specs.{Ends.{CountsOf, TakesInSteps}, Looks.{gate_looks}};
ghost use Rattle.orc_core.specs.Machine.{new_machine};
ghost use Rattle.orc_layout.specs.Layout.{index, lay};
ghost use Rattle.orc_machine_board.specs.{Passes.{TookInAll}, Rules.{run_of}, Views.{Belongs, shows}};
ghost use Rattle.orc_domain.specs.{
  Ends.{AreAll, SawAll, whole_journal},
  Passes.{IsPassOf, domain_bounds},
  Rest.{ComesToRest, IsShown, rest_domain, rest_journal},
};
ghost use Rattle.orc_rest.specs.{Rest.{IsAtRest}, Reuse.{given, reused, rows_out}};
ghost use Rattle.orc_sound.specs.Journals.{plain};

use crate::at_rest::OrcRest;
use crate::domain::{OrcDomain, OrcPass};
use orc_any_domain::RowCounts;
use orc_heap::Discipline;
use orc_machine_board::MachineBoardPass;
use orc_machine_rest::count_rows;
use orc_shared_words::LastWords;

impl<D: Discipline> OrcRest<D> {
    /// How many rows were given, each as often as it was.
    pub fn given(&self) -> u64
        ensures { result ≡ given (new_machine (domain_bounds (rest_domain self.now))) (plain (rest_journal self.now)) }
    {
        self.counts.given
    }

    /// How many rows were freed, to be given again, each as often as it was.
    pub fn reused(&self) -> u64
        ensures { result ≡ reused (plain (rest_journal self.now)) }
    {
        self.counts.reused
    }

    /// How many rows are out.
    pub fn linked(&self) -> u32
        ensures { result ≡ rows_out (run_of (domain_bounds (rest_domain self.now)) (rest_journal self.now)) }
    {
        self.counts.linked
    }

    /// Ends the table. Its last words are those that the journal leaves, each at its index.
    pub fn close(self) -> LastWords
        requires shown { IsShown self }
        ensures words { result ≡ lay (index (domain_bounds (rest_domain self))) (run_of (domain_bounds (rest_domain self)) (rest_journal self)).words }
    {
        let OrcRest {
            domain,
            pass,
            counts: _,
        } = self;
        domain.board.close(pass)
    }
}

impl<D: Discipline> OrcDomain<D> {
    /// Ends the sharing: the first pass takes in all others, and looks at each gate. It has to have seen all that they did, and
    /// the table has to be at rest. What was given is then what was freed and what is out.
    pub fn rest(self, passes: Vec<OrcPass<D>>) -> OrcRest<D>
        requires all { AreAll self passes.items }
        requires own { SawAll passes.items }
        requires rest { IsAtRest (run_of (domain_bounds self) (whole_journal passes.items)) }
        ensures domain { rest_domain result ≡ self }
        ensures shown { IsShown result }
        ensures journal { rest_journal result ≡ whole_journal passes.items ++ gate_looks 0 (domain_bounds self).rows }
        ensures rest { IsAtRest (run_of (domain_bounds self) (rest_journal result)) }
        ensures balance { given (new_machine (domain_bounds self)) (plain (rest_journal result))
            ≡ reused (plain (rest_journal result)) + rows_out (run_of (domain_bounds self) (rest_journal result)) }
    {
        let (pass, counts) = self.count(passes);
        OrcRest {
            domain: self,
            pass,
            counts,
        }
    }

    /// Ends all passes, as `rest` does, and tells what it would tell. The domain stays, but nobody has a pass to it any more.
    pub fn end_passes(&self, passes: Vec<OrcPass<D>>) -> RowCounts
        requires all { AreAll self.now passes.items }
        requires own { SawAll passes.items }
        requires rest { IsAtRest (run_of (domain_bounds self.now) (whole_journal passes.items)) }
        ensures { ComesToRest self.now passes.items result }
    {
        let (pass, counts) = self.count(passes);
        drop(pass);
        counts
    }

    // Lets the first pass take in all others, and look at each gate.
    fn count(&self, passes: Vec<OrcPass<D>>) -> (MachineBoardPass<D>, RowCounts)
        requires all { AreAll self.now passes.items }
        requires own { SawAll passes.items }
        requires rest { IsAtRest (run_of (domain_bounds self.now) (whole_journal passes.items)) }
        ensures belongs { Belongs self.now.board result.0 }
        ensures all { TookInAll (domain_bounds self.now) (shows result.0) }
        ensures journal { (shows result.0).journal ≡ whole_journal passes.items ++ gate_looks 0 (domain_bounds self.now).rows }
        ensures rest { IsAtRest (run_of (domain_bounds self.now) (shows result.0).journal) }
        ensures counts { CountsOf (domain_bounds self.now) (shows result.0).journal result.1 }
    {
        let mut others = passes;
        let first = others.remove(0);
        let OrcPass { mut pass, next: _ } = first;
        self.take_in_steps(&mut pass, others);
        let counts = count_rows(&self.board, &mut pass);
        (pass, counts)
    }

    // Takes in the passes, one after another. What is told of them is the steps that they have seen.
    fn take_in_steps(&self, into: &mut MachineBoardPass<D>, others: Vec<OrcPass<D>>)
        requires into { Belongs self.now.board into.old }
        requires others { AllByRecursion (λ p. IsPassOf self.now p) others.items }
        ensures into { Belongs self.now.board into.new }
        ensures taken { TakesInSteps (λ p. shows p.pass) (shows into.old) (shows into.new) others.items }
    {
        let mut rest = others;
        while !rest.is_empty() {
            let next = rest.remove(0);
            let OrcPass { pass, next: _ } = next;
            self.board.absorb(into, pass);
        }
    }
}
