//! The queues of a pipeline as what posters and stages work at.
ghost use Rattle.std.specs.Prelude.{ℕ, ◌≡◌, ◌≢◌, ◌<◌, length};
ghost use Rattle.orc_stages.specs.Desks.{ArePasses};
ghost use Rattle.orc_pipeline.specs.{Desks.{HasAgent, LearnEach}, Learning.{AreFor, AreKnown, stage_site}};

use orc_history::{LearnQueue, SharedQueue};
use orc_stages::StageDesk;
use orc_team::Workplace;

// The queues of a pipeline, of each of which a worker has a pass.
#[derive(Drop)]
pub(crate) struct AtQueues<'a, Q> {
    pub(crate) queues: &'a [Q],
    ghost some: { 0 < length queues.now },
}

impl<Q: LearnQueue> Workplace for AtQueues<'_, Q> {
    type Desk = StageDesk<Q::Pass>;

    ghost site = { λ at. stage_site Q.SharedQueue at.queues.now };

    fn agent(&self, desk: &StageDesk<Q::Pass>) -> u32 {
        let Some((first, _)) = self.queues.split_first() else {
            unreachable!()
        };
        agent_at(first, desk)
    }

    fn learn(
        &self,
        me: u32,
        desk: &mut StageDesk<Q::Pass>,
        other: u32,
        more: &mut StageDesk<Q::Pass>,
    ) {
        learn_passes(
            self.queues,
            desk.passes.as_mut_slice(),
            more.passes.as_mut_slice(),
            me,
            other,
        )
    }
}

// What the laws of the queues say of the caller's desk.
pub(crate) fn tell_laws<Q: LearnQueue>(queues: &[Q], desk: &StageDesk<Q::Pass>)
    requires { ArePasses Q.SharedQueue 0 queues.now desk.now.passes.items }
    ensures { (agents : ℕ) → AreFor Q.SharedQueue (Q.agents) agents queues.now → AreKnown Q.SharedQueue queues.now agents desk.now.passes.items }
{}

// The agent of a desk whose first pass is one of this queue.
fn agent_at<Q: SharedQueue>(queue: &Q, desk: &StageDesk<Q::Pass>) -> u32
    requires { length desk.now.passes.items ≢ 0 }
    ensures { HasAgent Q.SharedQueue queue.now result desk.now.passes.items }
{
    match desk.passes.first() {
        Some(pass) => queue.agent(pass),
        None => unreachable!(),
    }
}

// The passes of two agents learn from each other, queue by queue.
fn learn_passes<Q: LearnQueue>(
    queues: &[Q],
    passes: &mut [Q::Pass],
    others: &mut [Q::Pass],
    agent: u32,
    other: u32,
)
    requires passes { ArePasses Q.SharedQueue agent queues.now passes.old }
    requires others { ArePasses Q.SharedQueue other queues.now others.old }
    requires two { agent ≢ other }
    ensures passes { ArePasses Q.SharedQueue agent queues.now passes.new }
    ensures others { ArePasses Q.SharedQueue other queues.now others.new }
    ensures learned { LearnEach Q.SharedQueue agent other queues.now passes.old others.old passes.new others.new }
{
    let Some((queue, more)) = queues.split_first() else {
        return;
    };
    let Some((pass, rest)) = passes.split_first_mut() else {
        unreachable!()
    };
    let Some((pass2, rest2)) = others.split_first_mut() else {
        unreachable!()
    };
    queue.learn(pass, pass2);
    learn_passes(more, rest, rest2, agent, other)
}
