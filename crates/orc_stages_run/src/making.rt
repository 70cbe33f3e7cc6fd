//! The queues of a pipeline, and the desks of its agents.

ghost use Rattle.std.specs.Prelude.{◌≡◌, ◌+◌, ◌≤◌, ◌<◌, ℕ, [], All, IfOk, length, slice_index_or};
ghost use Rattle.std.specs.List.{AllByRecursion};
ghost use Rattle.orc_pipeline.specs.{Learning.{AreFor}, Run.{AreFresh}};
ghost use Rattle.orc_at_rest.specs.Domains.{IsMadeSo, queue_seed, run_bounds};

use orc_any_domain::Domain;
use orc_at_rest::shape_of;
use orc_containers::queue_over;
use orc_fault::NoMemory;
use orc_fifo_rule::Fifo;
use orc_history::{LearnQueue, SharedQueue};
use orc_pipeline::{add_queue, empty_desks};
use orc_queue::Queue;
use orc_stages::StageDesk;
use std::alloc::Global;

/// Queues in a row, and a desk for each agent with a pass of each queue.
#[derive(Drop)]
pub(crate) struct Row<A, B> {
    pub(crate) queues: Vec<A>,
    pub(crate) desks: Vec<StageDesk<B>>,
}

// Makes so many empty queues of so many rows each, and a desk for each agent, in order.
pub(crate) fn make_row<L: Domain<Rule = Fifo> + Drop>(
    alloc: Global,
    many: usize,
    rows: u32,
    agents: u32,
) -> Result<Row<Queue<L>, L::Pass>, NoMemory>
    requires rows { (2 ≤ rows) × (rows ≤ 65535) }
    requires agents { (1 ≤ agents) × (agents ≤ 16) }
    ensures many { IfOk result (λ row. length row.queues.items ≡ many) }
    ensures agents { IfOk result (λ row. length row.desks.items ≡ agents) }
    ensures fresh { IfOk result (λ row. AreFresh ⟦<Queue<L> as SharedQueue>⟧ row.queues.items 0 row.desks.items) }
    ensures known { IfOk result (λ row. AreFor ⟦<Queue<L> as SharedQueue>⟧ ⟦<Queue<L> as LearnQueue>⟧.agents agents row.queues.items) }
    ensures made { IfOk result (λ row. AllByRecursion (λ queue. IsMadeSo L.Links L.bounds (run_bounds rows 2 agents) queue_seed queue.links) row.queues.items) }
{
    let row = Row {
        queues: Vec::with_capacity(alloc, many)?,
        desks: empty_desks::<Queue<L>>(alloc, agents as usize)?,
    };
    add_queues(alloc, many, rows, agents, row)
}

// Puts so many more empty queues of so many rows each ahead of those of the row, and at each desk a pass of each.
fn add_queues<L: Domain<Rule = Fifo> + Drop>(
    alloc: Global,
    more: usize,
    rows: u32,
    agents: u32,
    mut row: Row<Queue<L>, L::Pass>,
) -> Result<Row<Queue<L>, L::Pass>, NoMemory>
    requires rows { (2 ≤ rows) × (rows ≤ 65535) }
    requires agents { (1 ≤ agents) × (agents ≤ 16) }
    requires all { length row.desks.items ≡ agents }
    requires fresh { AreFresh ⟦<Queue<L> as SharedQueue>⟧ row.queues.items 0 row.desks.items }
    requires known { AreFor ⟦<Queue<L> as SharedQueue>⟧ ⟦<Queue<L> as LearnQueue>⟧.agents agents row.queues.items }
    requires made { AllByRecursion (λ queue. IsMadeSo L.Links L.bounds (run_bounds rows 2 agents) queue_seed queue.links) row.queues.items }
    ensures many { IfOk result (λ new. length new.queues.items ≡ more + length row.queues.items) }
    ensures all { IfOk result (λ new. length new.desks.items ≡ agents) }
    ensures fresh { IfOk result (λ new. AreFresh ⟦<Queue<L> as SharedQueue>⟧ new.queues.items 0 new.desks.items) }
    ensures known { IfOk result (λ new. AreFor ⟦<Queue<L> as SharedQueue>⟧ ⟦<Queue<L> as LearnQueue>⟧.agents agents new.queues.items) }
    ensures made { IfOk result (λ new. AllByRecursion (λ queue. IsMadeSo L.Links L.bounds (run_bounds rows 2 agents) queue_seed queue.links) new.queues.items) }
{
    if more == 0 {
        return Ok(row);
    }
    let (queue, passes) = make_queue::<L>(alloc, rows, agents)?;
    add_queue(&queue, row.desks.as_mut_slice(), passes)?;
    row.queues.insert(0, queue)?;
    add_queues(alloc, more - 1, rows, agents, row)
}

// Makes an empty queue of so many rows whose first job gets position 0, and a pass for each agent, in order.
fn make_queue<L: Domain<Rule = Fifo>>(
    alloc: Global,
    rows: u32,
    agents: u32,
) -> Result<(Queue<L>, Vec<L::Pass>), NoMemory>
    requires rows { (2 ≤ rows) × (rows ≤ 65535) }
    requires agents { (1 ≤ agents) × (agents ≤ 16) }
    ensures usable { IfOk result (λ made. All (λ p. ⟦<Queue<L> as SharedQueue>⟧.usable made.0 p) made.1.items) }
    ensures numbered { IfOk result (λ made. (i : ℕ) (p : L.Pass) → i < length made.1.items
        → ⟦<Queue<L> as SharedQueue>⟧.agent_of made.0 (slice_index_or made.1.items i p) ≡ i) }
    ensures passes { IfOk result (λ made. length made.1.items ≡ agents) }
    ensures fresh { IfOk result (λ made. All (λ p. ⟦<Queue<L> as SharedQueue>⟧.history made.0
        (⟦<Queue<L> as SharedQueue>⟧.journal p) ≡ []) made.1.items) }
    ensures agents { IfOk result (λ made. ⟦<Queue<L> as LearnQueue>⟧.agents made.0 ≡ agents) }
    ensures first { IfOk result (λ made. ⟦<Queue<L> as SharedQueue>⟧.first made.0 ≡ 0) }
    ensures made { IfOk result (λ made. IsMadeSo L.Links L.bounds (run_bounds rows 2 agents) queue_seed made.0.links) }
{
    let made = queue_over(alloc, &shape_of(rows, 2, agents), 0)?;
    Ok(made)
}
