//! The workers of a pipeline.
ghost use Rattle.std.specs.Prelude.{◌≡◌, length};
ghost use Rattle.orc_pipeline.specs.Team.{IsReady, DidWork};

use crate::desk::{run_poster_at, run_stage_at};
use orc_board::Gate;
use orc_history::SharedQueue;
use orc_jobs::Lines;
use orc_stages::StageWorker;
use orc_team::Worker;
use std::sync::Wait;
use std::sync::atomic::AtomicU64;

/// Lets this worker work on the thread that calls: as a poster, or as its stage. `putting` counts for each of seven queues how many
/// workers still put into it: all posters for the first, and one for each other; the worker takes one from it at its end.
pub fn run_worker<R: Wait, Q: SharedQueue, G: Gate>(
    rt: &R,
    queues: &[Q],
    posters: u32,
    lines: &Lines,
    gate: &G,
    putting: &[AtomicU64],
    worker: StageWorker<Q::Pass>,
) -> StageWorker<Q::Pass>
    requires ready { IsReady Q.SharedQueue queues.now lines.now posters worker }
    requires counts { length putting.now ≡ 7 }
    ensures { DidWork Q.SharedQueue queues.now lines.now posters worker result }
{
    let Worker {
        agent,
        mut desk,
        mut replies,
    } = worker;
    if agent <= posters {
        run_poster_at(
            rt,
            queues,
            desk.passes.as_mut_slice(),
            agent,
            posters,
            lines,
            gate,
            &putting[0],
            &mut replies.posts,
        );
        return Worker {
            agent,
            desk,
            replies,
        };
    }
    let stage = agent - posters;
    let place = stage as usize - 1;
    run_stage_at(
        rt,
        queues,
        desk.passes.as_mut_slice(),
        agent,
        place,
        stage,
        lines,
        gate,
        putting,
        &mut replies.takes,
    );
    Worker {
        agent,
        desk,
        replies,
    }
}
