//! Containers over domains, as they are driven.

ghost use Rattle.std.specs.Prelude.{◌≡◌, ◌<◌, length};
ghost use Rattle.orc_any_domain.specs.Domains.{IsIdlePass};
ghost use Rattle.orc_heap.specs.Domains.{agent};
ghost use Rattle.orc_stress.specs.Passes.{AreReady};
ghost use Rattle.stress.specs.Stops.{IsStopped};

use crate::calls::{call_queue, call_set, inserted};
use crate::runs::{Resting, rested};
use crate::stops::{hold_first, let_go};
use orc_any_domain::Domain;
use orc_chain_rule::Chain;
use orc_fifo_rule::Fifo;
use orc_heap::Held;
use orc_queue::Queue;
use orc_set::Set;
use orc_split_rule::Split;
use orc_split_set::SplitSet;
use orc_stress::{Ask, Container, Counts, Outcome, Settings, Stop};
use std::marker::PhantomData;

// A container over a domain, which agents call with passes of that.
pub(crate) trait Over<L: Domain> {
    // the domain that it stands on
    ghost domain_of: { Self → L };

    // The domain that it stands on.
    fn domain(&self) -> &L
        ensures { result.now ≡ domain_of self.now };

    // Gives it up for its domain.
    fn into_domain(self) -> L
        ensures { result ≡ domain_of self };

    // Makes one call, in so many tries. One that may stop before its last step, which leaves the tail behind, a marked node on its
    // chain or buckets undoubled, is made to its end where it cannot stop there.
    fn call(&self, p: &mut L::Pass, ask: &Ask, turns: u64) -> Outcome
        requires { IsIdlePass L.Links (domain_of self.now) p.old }
        ensures idle { IsIdlePass L.Links (domain_of self.now) p.new }
        ensures agent { agent L.Links (domain_of self.now) p.new ≡ agent L.Links (domain_of self.now) p.old };
}

impl<L: Domain<Rule = Fifo>> Over<L> for Queue<L> {
    ghost domain_of = { λ c. c.links };

    fn domain(&self) -> &L {
        self.links()
    }

    fn into_domain(self) -> L {
        self.into_links()
    }

    fn call(&self, p: &mut L::Pass, ask: &Ask, turns: u64) -> Outcome {
        if let Ask::GiveAndStop(job) = ask {
            if let Some(at) = self.put_and_stop(p, *job) {
                return Outcome::Put(*job, at);
            }
        }
        call_queue(self, p, ask, turns)
    }
}

impl<L: Domain<Rule = Chain>> Over<L> for Set<L> {
    ghost domain_of = { λ c. c.list.links };

    fn domain(&self) -> &L {
        self.links()
    }

    fn into_domain(self) -> L {
        self.into_links()
    }

    fn call(&self, p: &mut L::Pass, ask: &Ask, turns: u64) -> Outcome {
        if let Ask::TakeAndStop(key) = ask {
            if self.mark_and_stop(p, *key) {
                return Outcome::Removed(*key);
            }
        }
        call_set(self, p, ask, turns)
    }
}

impl<L: Domain<Rule = Split>> Over<L> for SplitSet<L> {
    ghost domain_of = { λ c. c.links };

    fn domain(&self) -> &L {
        self.links()
    }

    fn into_domain(self) -> L {
        self.into_links()
    }

    fn call(&self, p: &mut L::Pass, ask: &Ask, turns: u64) -> Outcome {
        match ask {
            Ask::GiveAndStop(key) => inserted(*key, self.insert_and_stop(p, *key, turns)),
            _ => call_set(self, p, ask, turns),
        }
    }
}

// A container as it is driven, over a domain that has a root.
#[derive(Drop)]
pub(crate) struct Rooted<L: Domain, C: Over<L>> {
    container: C,
    turns: u64,
    stop: Stop,
    of: PhantomData<L>,
    ghost root: { 0 < (L.numbers (C.domain_of container)).roots },
}

impl<L: Domain, C: Over<L>> Rooted<L, C> {
    // Takes a container over a domain that has a root, whose calls are made and stopped as the settings say.
    pub(crate) fn new(container: C, settings: &Settings) -> Rooted<L, C>
        requires { 0 < (L.numbers (C.domain_of container)).roots }
        ensures { result.container ≡ container }
    {
        Rooted {
            container,
            turns: u64::from(settings.turns),
            stop: settings.stop,
            of: PhantomData,
        }
    }
}

impl<L: Domain, C: Over<L>> Container for Rooted<L, C> {
    type Pass = L::Pass;

    type Hold = Option<Held>;

    ghost ready = { λ c p. IsIdlePass L.Links (C.domain_of c.container) p };

    ghost agent_of = { λ c p. agent L.Links (C.domain_of c.container) p };

    ghost stopped = { λ c hold p. IsStopped L.Links (C.domain_of c.container) hold p };

    fn agent(&self, p: &L::Pass) -> u32 {
        self.container.domain().agent(p)
    }

    fn call(&self, p: &mut L::Pass, ask: &Ask) -> Outcome {
        self.container.call(p, ask, self.turns)
    }

    fn backlog(&self, p: &L::Pass) -> u32 {
        self.container.domain().backlog(p)
    }

    fn stop(&self, p: &mut L::Pass) -> (Option<Held>, Outcome) {
        match self.stop {
            Stop::First => (hold_first(self.container.domain(), p), Outcome::Unchanged),
            Stop::Tail => {
                let job = u64::from(self.agent(p)) << 32;
                (
                    None,
                    self.container.call(p, &Ask::GiveAndStop(job), self.turns),
                )
            }
            Stop::Marked | Stop::Staged => {
                (
                    None,
                    self.container.call(p, &Ask::TakeAndStop(0), self.turns),
                )
            }
        }
    }

    fn go_on(&self, p: &mut L::Pass, hold: Option<Held>) -> u32 {
        let_go(self.container.domain(), p, hold)
    }
}

impl<L: Domain, C: Over<L>> Resting for Rooted<L, C> {
    ghost agents = { λ c. L.agents (C.domain_of c.container) };

    fn rest(self, passes: Vec<L::Pass>) -> Counts
        requires ready { AreReady (IsIdlePass L.Links (C.domain_of self.container)) (agent L.Links (C.domain_of self.container)) passes.items }
        requires all { length passes.items ≡ L.agents (C.domain_of self.container) }
    {
        rested(self.container.into_domain(), passes)
    }
}
