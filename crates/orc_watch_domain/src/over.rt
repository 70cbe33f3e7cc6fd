//! A watch whose cell is over any domain.

ghost use Rattle.std.specs.Prelude.{◌≤◌, IfOk, length};
ghost use Rattle.orc_watch_domain.specs.Over.{WatchedOver};

use crate::cell::make_cell;
use orc_any_domain::Domain;
use orc_board::Gate;
use orc_containers::cell_at_rest;
use orc_fault::NoMemory;
use orc_pairs_rule::Pairs;
use orc_watch::{WatchLines, WatchList};
use orc_watch_run::{Watched, run_watch};
use std::alloc::Global;
use std::sync::Wait;
use std::thread::Threads;

/// What a watch over any domain leaves: the domain of its cell at rest, the replies, and both parts that the caller read at last.
#[derive(Drop)]
pub(crate) struct Left<A> {
    pub(crate) cell: A,
    pub(crate) replies: WatchList,
    pub(crate) now_left: u64,
    pub(crate) now_right: u64,
}

// Works through these lines over a new cell, which the caller reads once at last; then its domain is brought to rest.
pub(crate) fn watch_over<
    R: Threads + Wait + Sync,
    L: Domain<Rule = Pairs> + Sync + Drop,
    G: Gate + Sync,
>(
    rt: &R,
    alloc: Global,
    lines: &WatchLines,
    workers: u32,
    rows: u32,
    gate: &G,
) -> Result<Left<L::Rest>, NoMemory>
where
    L::Pass: Send,
    requires few { length lines.now ≤ 65535 }
    requires workers { (1 ≤ workers) × (workers ≤ 8) }
    requires rows { (2 ≤ rows) × (rows ≤ 65535) }
    ensures { IfOk result (λ f. WatchedOver L.Links L.bounds L.rests lines.now workers rows f) }
{
    let (cell, mut passes) = make_cell::<L>(alloc, rows, 1 + workers)?;
    let Watched {
        replies,
        now_left,
        now_right,
    } = run_watch(rt, alloc, lines, workers, &cell, &mut passes, gate)?;
    Ok(Left {
        cell: cell_at_rest(cell, passes),
        replies,
        now_left,
        now_right,
    })
}
