//! The whole run.

ghost use Rattle.std.specs.Prelude.{◌≤◌, IfOk, length};
ghost use Rattle.orc_watch_domain.specs.Runs.{WatchedThrough};

use crate::over::{Left, watch_over};
use orc_board::Gate;
use orc_domain::{OrcDomain, OrcRest};
use orc_fault::NoMemory;
use orc_pairs_rule::Pairs;
use orc_watch::{WatchLines, WatchList};
use std::alloc::Global;
use std::sync::Wait;
use std::thread::Threads;

/// What a watch leaves: the domain of its cell at rest, with the journal of all that happened on it, the replies, and both parts
/// that the caller read at last.
#[derive(Drop)]
pub struct WatchFinished {
    pub cell: OrcRest<Pairs>,
    pub replies: WatchList,
    pub now_left: u64,
    pub now_right: u64,
}

/// Works through these lines with 1 to 8 workers, each on a thread of its own where one can be started, over a new cell of 2 to
/// 65,535 rows. Then the caller reads the cell once, and its domain is brought to rest.
///
/// # Errors
///
/// `NoMemory` where memory is refused. All of it is taken before the first worker starts.
pub fn watch_new_cell<R: Threads + Wait + Sync, G: Gate + Sync>(
    rt: &R,
    alloc: Global,
    lines: &WatchLines,
    workers: u32,
    rows: u32,
    gate: &G,
) -> Result<WatchFinished, NoMemory>
    requires few { length lines.now ≤ 65535 }
    requires workers { (1 ≤ workers) × (workers ≤ 8) }
    requires rows { (2 ≤ rows) × (rows ≤ 65535) }
    ensures { IfOk result (λ f. WatchedThrough lines.now workers rows f) }
{
    let Left {
        cell,
        replies,
        now_left,
        now_right,
    } = watch_over::<R, OrcDomain<Pairs>, G>(rt, alloc, lines, workers, rows, gate)?;
    Ok(WatchFinished {
        cell,
        replies,
        now_left,
        now_right,
    })
}
