//! The whole run.

ghost use Rattle.std.specs.Prelude.{◌≤◌, IfOk};
ghost use Rattle.orc_jobs.specs.GoodLines.{AreGood};
ghost use Rattle.orc_stages_run.specs.Runs.{WentThrough};

use crate::ending::RestList;
use crate::over::{Left, run_over};
use orc_board::Gate;
use orc_domain::OrcDomain;
use orc_fault::NoMemory;
use orc_fifo_rule::Fifo;
use orc_jobs::Lines;
use orc_pipeline::StagesDone;
use std::alloc::Global;
use std::sync::Wait;
use std::thread::Threads;

/// What a run of the pipeline leaves: the domains of its queues at rest, in their order, and the replies.
#[derive(Drop)]
pub struct StagesFinished {
    pub queues: RestList,
    pub done: StagesDone,
}

/// Sends the jobs of these lines through 1 to 6 stages, with 1 to 8 posters ahead of them, each on a thread of its own where one can
/// be started. There is one queue more than stages, each of 2 to 65,535 rows. Then the caller moves what is left, and all domains are
/// brought to rest.
///
/// # Errors
///
/// `NoMemory` where memory is refused. All of it is taken before the first worker starts.
pub fn run_pipeline<R: Threads + Wait + Sync, G: Gate + Sync>(
    rt: &R,
    alloc: Global,
    lines: &Lines,
    posters: u32,
    stages: u32,
    rows: u32,
    gate: &G,
) -> Result<StagesFinished, NoMemory>
    requires good { AreGood lines.now }
    requires posters { (1 ≤ posters) × (posters ≤ 8) }
    requires stages { (1 ≤ stages) × (stages ≤ 6) }
    requires rows { (2 ≤ rows) × (rows ≤ 65535) }
    ensures { IfOk result (λ f. WentThrough lines.now posters stages rows f) }
{
    let Left { queues, done } = run_over::<R, OrcDomain<Fifo>, G>(
        rt, alloc, lines, posters, stages, rows, gate,
    )?;
    Ok(StagesFinished { queues, done })
}
