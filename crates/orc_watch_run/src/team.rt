//! The work of a watcher.

ghost use Rattle.orc_watch_run.specs.Team.{DidWork, IsReady};

use crate::lines::watch_lines;
use orc_board::Gate;
use orc_cell::Cell;
use orc_heap::Links;
use orc_pairs_rule::Pairs;
use orc_team::Worker;
use orc_watch::{WatchLines, WatchList};
use std::sync::Wait;

// Lets this worker work on the thread that calls.
pub(crate) fn run_worker<R: Wait, L: Links<Rule = Pairs>, G: Gate>(
    rt: &R,
    cell: &Cell<L>,
    workers: u32,
    lines: &WatchLines,
    gate: &G,
    worker: Worker<L::Pass, WatchList>,
) -> Worker<L::Pass, WatchList>
    requires { IsReady L.Links cell.now.links lines.now workers worker }
    ensures { DidWork L.Links cell.now.links lines.now workers worker result }
{
    let Worker {
        agent,
        mut desk,
        mut replies,
    } = worker;
    watch_lines(
        rt,
        cell,
        &mut desk,
        agent,
        workers,
        lines,
        gate,
        &mut replies,
    );
    Worker {
        agent,
        desk,
        replies,
    }
}
