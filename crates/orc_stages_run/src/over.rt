//! A run of the pipeline whose queues are over any domain.

ghost use Rattle.std.specs.Prelude.{◌≤◌, IfOk};
ghost use Rattle.orc_jobs.specs.GoodLines.{AreGood};
ghost use Rattle.orc_stages_run.specs.Over.{WentOver};

use crate::ending::{end_queues, room_for_passes};
use crate::making::{Row, make_row};
use orc_any_domain::Domain;
use orc_board::{Gate, ReplyList};
use orc_fault::NoMemory;
use orc_fifo_rule::Fifo;
use orc_history::SharedQueue;
use orc_jobs::Lines;
use orc_pipeline::{StagesDone, run_stages};
use orc_queue::Queue;
use std::alloc::Global;
use std::sync::Wait;
use std::thread::Threads;

/// What a run of the pipeline over any domain leaves: the domains of its queues at rest, in their order, and the replies.
#[derive(Drop)]
pub(crate) struct Left<A> {
    pub(crate) queues: ReplyList<A>,
    pub(crate) done: StagesDone,
}

// Sends the jobs of these lines through the stages, and brings the domains of all queues to rest.
pub(crate) fn run_over<
    R: Threads + Wait + Sync,
    L: Domain<Rule = Fifo> + Sync + Drop,
    G: Gate + Sync,
>(
    rt: &R,
    alloc: Global,
    lines: &Lines,
    posters: u32,
    stages: u32,
    rows: u32,
    gate: &G,
) -> Result<Left<L::Rest>, NoMemory>
where
    L::Pass: Send,
    requires good { AreGood lines.now }
    requires posters { (1 ≤ posters) × (posters ≤ 8) }
    requires stages { (1 ≤ stages) × (stages ≤ 6) }
    requires rows { (2 ≤ rows) × (rows ≤ 65535) }
    ensures { IfOk result (λ f. WentOver (λ queue. queue.links) L.Links L.bounds L.rests ⟦<Queue<L> as SharedQueue>⟧
        lines.now posters stages rows f) }
{
    let agents = 1 + posters + stages;
    let many = stages as usize + 1;
    let Row { queues, mut desks } = make_row::<L>(alloc, many, rows, agents)?;
    let rooms = room_for_passes(alloc, many, agents as usize)?;
    let mut rests = ReplyList::new(alloc, many)?;
    let done = run_stages(
        rt,
        alloc,
        lines,
        posters,
        queues.as_slice(),
        &mut desks,
        gate,
    )?;
    end_queues(queues, desks.as_mut_slice(), rooms, &mut rests);
    Ok(Left {
        queues: rests,
        done,
    })
}
