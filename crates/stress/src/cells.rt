//! A cell over a domain, as it is driven.

ghost use Rattle.std.specs.Prelude.{◌≡◌, length};
ghost use Rattle.orc_cell.specs.CellCalls.{IsUsable};
ghost use Rattle.orc_heap.specs.Domains.{agent};
ghost use Rattle.orc_stress.specs.Passes.{AreReady};
ghost use Rattle.stress.specs.Stops.{StoppedAtCell};

use crate::calls::call_cell;
use crate::runs::{Resting, rested};
use orc_any_domain::Domain;
use orc_cell::Cell;
use orc_heap::{Held, Links};
use orc_pairs_rule::Pairs;
use orc_stress::{Answer, Ask, Container, Counts, Outcome, Settings};

// What a stopped agent stages: no agent publishes it.
const UNPUBLISHED: u64 = u64::MAX;

// A cell, whose calls are made in so many tries.
#[derive(Drop)]
pub(crate) struct DrivenCell<L: Domain<Rule = Pairs>> {
    cell: Cell<L>,
    turns: u64,
}

impl<L: Domain<Rule = Pairs>> DrivenCell<L> {
    // Takes a cell, whose calls are made as the settings say.
    pub(crate) fn new(cell: Cell<L>, settings: &Settings) -> DrivenCell<L>
        ensures { result.cell ≡ cell }
    {
        DrivenCell {
            cell,
            turns: u64::from(settings.turns),
        }
    }
}

impl<L: Domain<Rule = Pairs>> Container for DrivenCell<L> {
    type Pass = L::Pass;

    type Hold = Option<Held>;

    ghost ready = { λ c p. IsUsable L.Links c.cell.links p };

    ghost agent_of = { λ c p. agent L.Links c.cell.links p };

    ghost stopped = { λ c hold p. StoppedAtCell L.Links c.cell.links hold p };

    fn agent(&self, p: &L::Pass) -> u32 {
        self.cell.links().agent(p)
    }

    fn call(&self, p: &mut L::Pass, ask: &Ask) -> Outcome {
        call_cell(&self.cell, p, ask, self.turns)
    }

    fn backlog(&self, p: &L::Pass) -> u32 {
        self.cell.links().backlog(p)
    }

    fn stop(&self, p: &mut L::Pass) -> (Option<Held>, Outcome) {
        match self.cell.stage_and_stop(p, UNPUBLISHED) {
            Some(part) => (Some(part), Outcome::Unchanged),
            None => (None, Outcome::Refused(Answer::NoNode)),
        }
    }

    fn go_on(&self, p: &mut L::Pass, hold: Option<Held>) -> u32 {
        let waiting = self.cell.links().backlog(p);
        if let Some(part) = hold {
            self.cell.unstage(p, part);
        }
        waiting
    }
}

impl<L: Domain<Rule = Pairs>> Resting for DrivenCell<L> {
    ghost agents = { λ c. L.agents c.cell.links };

    fn rest(self, passes: Vec<L::Pass>) -> Counts
        requires ready { AreReady (IsUsable L.Links self.cell.links) (agent L.Links self.cell.links) passes.items }
        requires all { length passes.items ≡ L.agents self.cell.links }
    {
        rested(self.cell.into_links(), passes)
    }
}
