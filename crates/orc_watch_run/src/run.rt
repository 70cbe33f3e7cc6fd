//! A whole run.

ghost use Rattle.std.specs.Prelude.{◌≡◌, ◌+◌, ◌≤◌, IfOk, OnErr, length, vec_len};
ghost use Rattle.orc_team.specs.Seats.{AreSeated, all_of};
ghost use Rattle.orc_watch_run.specs.{
  CameBack.{AllCameBack, IsNew},
  Passes.{AreFresh, AreUsable, FollowsPasses, HaveSeenTheSame, IsFreshPass},
  Team.{DidWork, IsReady, IsRoom},
};

use crate::answer::read_parts;
use crate::at_cell::{AtCell, tell_laws};
use crate::team::run_worker;
use orc_board::Gate;
use orc_cell::Cell;
use orc_fault::NoMemory;
use orc_heap::Links;
use orc_pairs_rule::Pairs;
use orc_team::{Reserved, Worker, hand_back, learn_from_team, reserve, run_workers, seat};
use orc_watch::{WatchLines, WatchList};
use std::alloc::Global;
use std::sync::Wait;
use std::thread::Threads;

/// What came of a run.
#[derive(Drop)]
pub struct Watched {
    /// The replies of workers in order of number, each in file order.
    pub replies: WatchList,
    /// The left part that the caller read once all workers were back.
    pub now_left: u64,
    /// The right part of the same read.
    pub now_right: u64,
}

// The caller's pass, the parts that it read at last, and the workers in order.
#[derive(Drop)]
pub(crate) struct CameBack<P> {
    pub(crate) pass: P,
    pub(crate) now_left: u64,
    pub(crate) now_right: u64,
    pub(crate) workers: Vec<Worker<P, WatchList>>,
}

/// Runs workers 1 to `workers` over the cell, each on a thread of its own where one can be started, and then reads the cell once
/// as agent 0. Record i is done by worker 1 + (i mod `workers`). A worker whose thread can't be started is run by the caller. The
/// passes are one per agent in order, and come back so; each has then seen all that happened.
///
/// # Errors
///
/// `NoMemory` where memory is refused. All of it is taken before the first worker starts: the passes stay as they were, and the
/// cell's history is empty.
pub fn run_watch<R: Threads + Wait + Sync, L: Links<Rule = Pairs> + Sync, G: Gate + Sync>(
    rt: &R,
    alloc: Global,
    lines: &WatchLines,
    workers: u32,
    cell: &Cell<L>,
    passes: &mut Vec<L::Pass>,
    gate: &G,
) -> Result<Watched, NoMemory>
where
    L::Pass: Send,
    requires workers { 1 ≤ workers }
    requires few { length lines.now ≤ 65535 }
    requires passes { AreFresh L.Links cell.now.links 0 passes.old.items }
    requires count { vec_len passes.old ≡ 1 + workers }
    requires agents { L.agents cell.now.links ≡ 1 + workers }
    ensures usable { IfOk result (λ r. AreUsable L.Links cell.now.links 0 passes.new.items) }
    ensures all { IfOk result (λ r. length passes.new.items ≡ 1 + workers) }
    ensures seen { IfOk result (λ r. HaveSeenTheSame L.Links cell.now.links passes.new.items) }
    ensures follows { IfOk result (λ r. FollowsPasses L.Links cell.now.links lines.now workers passes.new.items r.replies.items r.now_left r.now_right) }
    ensures kept { OnErr result (passes.new ≡ passes.old) }
{
    let many = lines.len();
    let room = |_agent: usize| -> Result<WatchList, NoMemory>
        ensures { IfOk result (IsRoom many) }
    { WatchList::new(alloc, many) };
    let Reserved {
        rooms,
        waiting,
        done,
    } = reserve(alloc, passes.len() - 1, &room)?;
    let mut replies = WatchList::new(alloc, many)?;
    let pass = passes.remove(0);
    let waiting = seat(&AtCell { cell }, passes, rooms, waiting);
    let CameBack {
        pass,
        now_left,
        now_right,
        workers: team,
    } = run_team(rt, cell, workers, lines, gate, pass, waiting, done);
    let Ok(()) = passes.push(pass) else {
        unreachable!()
    };
    hand_back(team, passes, &mut replies);
    Ok(Watched {
        replies,
        now_left,
        now_right,
    })
}

// Runs the workers, and then reads the cell. All memory has been taken before.
fn run_team<R: Threads + Wait + Sync, L: Links<Rule = Pairs> + Sync, G: Gate + Sync>(
    rt: &R,
    cell: &Cell<L>,
    workers: u32,
    lines: &WatchLines,
    gate: &G,
    mut pass: L::Pass,
    waiting: Vec<Worker<L::Pass, WatchList>>,
    done: Vec<Worker<L::Pass, WatchList>>,
) -> CameBack<L::Pass>
where
    L::Pass: Send,
    requires workers { 1 ≤ workers }
    requires pass { IsFreshPass L.Links cell.now.links 0 pass }
    requires team { AreSeated (IsReady L.Links cell.now.links lines.now workers) (IsNew L.Links cell.now.links) workers waiting done }
    requires agents { L.agents cell.now.links ≡ 1 + workers }
    ensures back { AllCameBack L.Links cell.now.links lines.now workers result.pass result.now_left result.now_right result.workers.items }
    ensures few { length (all_of (λ w. w.replies.items) result.workers.items) ≤ length lines.now }
{
    let work = |worker: Worker<L::Pass, WatchList>| -> Worker<L::Pass, WatchList>
        requires { IsReady L.Links cell.now.links lines.now workers worker }
        ensures { DidWork L.Links cell.entry.now.links lines.entry.now workers worker result }
    { run_worker(rt, cell, workers, lines, gate, worker) };
    let mut team = run_workers(rt, &work, waiting, done);
    let here = AtCell { cell };
    learn_from_team(&here, 0, &mut pass, &mut team);
    tell_laws(cell, &pass);
    let (now_left, now_right) = read_parts(rt, cell, &mut pass);
    learn_from_team(&here, 0, &mut pass, &mut team);
    tell_laws(cell, &pass);
    CameBack {
        pass,
        now_left,
        now_right,
        workers: team,
    }
}
