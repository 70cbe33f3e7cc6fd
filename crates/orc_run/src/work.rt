//! The work on both queues, whatever the set.

ghost use Rattle.std.specs.Prelude.{◌≡◌, ◌<◌, ℕ, [], All, IfOk, length, slice_index_or};
ghost use Rattle.orc_jobs.specs.GoodLines.{AreGood};
ghost use Rattle.orc_at_rest.specs.Domains.{agents_of};
ghost use Rattle.orc_run.specs.Over.{WorkedOver};

use crate::desks::room_for_passes;
use crate::ending::{Ends, end_queues};
use crate::task::Task;
use orc_any_domain::Domain;
use orc_board::{Gate, Replies};
use orc_containers::queue_over;
use orc_fault::NoMemory;
use orc_fifo_rule::Fifo;
use orc_history::LearnSet;
use orc_workers::{fresh_desks, run_at_desks};
use std::alloc::Global;
use std::sync::Wait;
use std::thread::Threads;

/// What the work leaves: both queues' domains at rest, the passes of the set, which have all seen the same, and the replies.
#[derive(Drop)]
pub(crate) struct Worked<A, B> {
    pub(crate) queue: A,
    pub(crate) rush: A,
    pub(crate) set: Vec<B>,
    pub(crate) replies: Replies,
}

// Works through these lines over this set and two queues of so many rows, and brings the domains of both queues to rest.
pub(crate) fn work<
    R: Threads + Wait + Sync,
    L: Domain<Rule = Fifo> + Sync + Drop,
    S: LearnSet + Sync,
    G: Gate + Sync,
>(
    rt: &R,
    alloc: Global,
    task: &Task<'_>,
    set: &S,
    set_passes: Vec<S::Pass>,
    gate: &G,
) -> Result<Worked<L::Rest, S::Pass>, NoMemory>
where
    L::Pass: Send,
    S::Pass: Send,
    requires good { AreGood task.now.lines.now }
    requires usable { All (λ p. S.usable set.now p) set_passes.items }
    requires fresh { All (λ p. S.history set.now (S.journal p) ≡ []) set_passes.items }
    requires numbered { (i : ℕ) (p : S.Pass) → i < length set_passes.items → S.agent_of set.now (slice_index_or set_passes.items i p) ≡ i }
    requires passes { length set_passes.items ≡ agents_of task.now.posters task.now.takers }
    requires agents { S.agents set.now ≡ agents_of task.now.posters task.now.takers }
    ensures worked { IfOk result (λ w. WorkedOver L.Links L.bounds L.rests S.SharedSet set.now task.now.lines.now task.now.posters task.now.takers task.now.rows w) }
    ensures usable { IfOk result (λ w. All (λ p. S.usable set.now p) w.set.items) }
    ensures numbered { IfOk result (λ w. (i : ℕ) (p : S.Pass) → i < length w.set.items → S.agent_of set.now (slice_index_or w.set.items i p) ≡ i) }
    ensures passes { IfOk result (λ w. length w.set.items ≡ agents_of task.now.posters task.now.takers) }
{
    let shape = task.shape(2);
    let (queue, queue_passes) = queue_over::<L>(alloc, &shape, 0)?;
    let (rush, rush_passes) = queue_over::<L>(alloc, &shape, 0)?;
    let passes = room_for_passes(alloc, shape.agents() as usize)?;
    let mut desks = fresh_desks(
        alloc,
        &queue,
        &rush,
        set,
        queue_passes,
        rush_passes,
        set_passes,
    )?;
    let replies = run_at_desks(
        rt,
        alloc,
        task.lines,
        task.posters,
        task.takers,
        &queue,
        &rush,
        set,
        &mut desks,
        gate,
    )?;
    let Ends { queue, rush, set } = end_queues(queue, rush, set, desks, passes);
    Ok(Worked {
        queue,
        rush,
        set,
        replies,
    })
}
