//! The work of one worker.
ghost use Rattle.orc_workers.specs.Team.{DidWork, IsReady};

use crate::work::{run_poster, run_taker};
use orc_board::{Desk, Gate, TakeReply};
use orc_history::{SharedQueue, SharedSet};
use orc_jobs::Lines;
use orc_team::{Room, Worker};
use std::sync::Wait;
use std::sync::atomic::AtomicU64;

// A poster or a taker.
pub(crate) type BoardWorker<A, B> = Worker<Desk<A, B>, Room<TakeReply>>;

// Runs this worker on the thread that calls.
pub(crate) fn run_worker<R: Wait, Q: SharedQueue, S: SharedSet, G: Gate>(
    rt: &R,
    queue: &Q,
    rush: &Q,
    set: &S,
    posters: u32,
    lines: &Lines,
    gate: &G,
    left: &AtomicU64,
    worker: BoardWorker<Q::Pass, S::Pass>,
) -> BoardWorker<Q::Pass, S::Pass>
    requires ready { IsReady Q.SharedQueue S.SharedSet queue.now rush.now set.now lines.now posters worker }
    ensures { DidWork Q.SharedQueue S.SharedSet queue.now rush.now set.now lines.now posters worker result }
{
    let Worker {
        agent,
        desk,
        replies: Room { posts, takes },
    } = worker;
    if agent <= posters {
        let (desk, posts) = run_poster(
            rt, queue, rush, set, desk, agent, posters, lines, gate, left, posts,
        );
        Worker {
            agent,
            desk,
            replies: Room { posts, takes },
        }
    } else {
        let (desk, takes) = run_taker(
            rt,
            queue,
            rush,
            set,
            desk,
            agent - posters,
            lines,
            gate,
            left,
            takes,
        );
        Worker {
            agent,
            desk,
            replies: Room { posts, takes },
        }
    }
}
