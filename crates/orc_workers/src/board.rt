//! A whole run.
ghost use Rattle.std.specs.Prelude.{◌≡◌, ◌+◌, ◌≤◌, Bool, [], length, IfOk, OnErr, vec_len};
ghost use Rattle.orc_history.specs.{QueueHistory.{IsLegalQueue, waiting_after}, SetHistory.{IsLegalSet}};
ghost use Rattle.orc_jobs.specs.GoodLines.{AreGood};
ghost use Rattle.orc_board.specs.Reportable.{AreReportable};
ghost use Rattle.orc_workers.specs.{
  Desks.{IsFreshDesk, AreFresh, AreIdle, HaveSeenTheSame, RepliesFollow, queue_history, set_history},
  Team.{DidWork, IsReady},
  CameBack.{IsNew, AllCameBack},
};
ghost use Rattle.orc_team.specs.Seats.{AreSeated, IsEmptyRoom, all_of};

use crate::at_board::{AtBoard, tell_laws};
use crate::team::{BoardWorker, run_worker};
use crate::work::count_jobs;
use orc_board::{Desk, Gate, PostList, Replies, TakeList, TakeReply, take_rest};
use orc_fault::NoMemory;
use orc_history::{LearnQueue, LearnSet};
use orc_jobs::Lines;
use orc_team::{
    Reserved, Room, hand_back, learn_from_team, reserve, reserve_room, run_workers, seat,
};
use std::alloc::Global;
use std::sync::Wait;
use std::sync::atomic::AtomicU64;
use std::thread::Threads;

// The caller's desk and replies, and the workers in order.
#[derive(Drop)]
pub(crate) struct Seated<A, B> {
    pub(crate) desk: Desk<A, B>,
    pub(crate) takes: TakeList,
    pub(crate) workers: Vec<BoardWorker<A, B>>,
}

/// Runs all posters and takers at these desks, each on a thread of its own where one can be started, and then takes what they
/// left. A worker whose thread can't be started is run by the caller: first such posters, then such takers. The desks are one per
/// agent in order: the caller's, those of posters 1 to `posters`, and those of takers 1 to `takers`. They come back so, and each
/// pass has then seen all that happened.
///
/// # Errors
///
/// `NoMemory` where memory is refused. All of it is taken before the first worker starts: the desks stay as they were, and all
/// three histories are empty.
pub fn run_at_desks<
    R: Threads + Wait + Sync,
    Q: LearnQueue + Sync,
    S: LearnSet + Sync,
    G: Gate + Sync,
>(
    rt: &R,
    alloc: Global,
    lines: &Lines,
    posters: u32,
    takers: u32,
    queue: &Q,
    rush: &Q,
    set: &S,
    desks: &mut Vec<Desk<Q::Pass, S::Pass>>,
    gate: &G,
) -> Result<Replies, NoMemory>
where
    Q::Pass: Send,
    S::Pass: Send,
    requires posters { 1 ≤ posters }
    requires good { AreGood lines.now }
    requires desks { AreFresh Q.SharedQueue S.SharedSet queue.now rush.now set.now 0 desks.old.items }
    requires count { vec_len desks.old ≡ 1 + (posters + takers) }
    requires agents { (Q.agents queue.now ≡ 1 + (posters + takers)) × (Q.agents rush.now ≡ 1 + (posters + takers))
        × (S.agents set.now ≡ 1 + (posters + takers)) }
    requires first { (Q.first queue.now ≡ 0) × (Q.first rush.now ≡ 0) }
    ensures idle { IfOk result (λ r. AreIdle Q.SharedQueue S.SharedSet queue.now rush.now set.now 0 desks.new.items) }
    ensures all { IfOk result (λ r. length desks.new.items ≡ 1 + (posters + takers)) }
    ensures seen { IfOk result (λ r. HaveSeenTheSame Q.SharedQueue S.SharedSet desks.new.items) }
    ensures follows { IfOk result (λ r. RepliesFollow Q.SharedQueue S.SharedSet queue.now rush.now set.now lines.now posters takers desks.new.items r) }
    ensures queues_legal { IfOk result (λ r. (b : Bool) → IsLegalQueue 0 (queue_history Q.SharedQueue queue.now rush.now desks.new.items b)) }
    ensures set_legal { IfOk result (λ r. IsLegalSet (set_history S.SharedSet set.now desks.new.items)) }
    ensures empty { IfOk result (λ r. (b : Bool) → waiting_after [] (queue_history Q.SharedQueue queue.now rush.now desks.new.items b) ≡ []) }
    ensures reportable { IfOk result (λ r. AreReportable lines.now r.posts.items r.takes.items) }
    ensures kept { OnErr result (desks.new ≡ desks.old) }
{
    let many = lines.len();
    let jobs = count_jobs(lines);
    let room = |agent: usize| -> Result<Room<TakeReply>, NoMemory>
        ensures { IfOk result (IsEmptyRoom posters many jobs agent) }
    { reserve_room(alloc, posters, agent, many, jobs) };
    let Reserved {
        rooms,
        waiting,
        done,
    } = reserve(alloc, desks.len() - 1, &room)?;
    let (own, mut replies) = empty_lists(alloc, many)?;
    let desk = desks.remove(0);
    let waiting = seat(&AtBoard { queue, rush, set }, desks, rooms, waiting);
    let Seated {
        desk,
        takes: own,
        workers,
    } = run_seated(
        rt, queue, rush, set, posters, takers, lines, gate, desk, own, waiting, done,
    );
    replies.takes.append(own);
    let Ok(()) = desks.push(desk) else {
        unreachable!()
    };
    hand_back(workers, desks, &mut replies);
    let Room { posts, takes } = replies;
    Ok(Replies { posts, takes })
}

// Lists with room for `many` replies each: of the caller's takes, and of all posts and takes.
fn empty_lists(alloc: Global, many: usize) -> Result<(TakeList, Room<TakeReply>), NoMemory>
    ensures own { IfOk result (λ r. (r.0.items ≡ []) × (many ≤ r.0.spare)) }
    ensures posts { IfOk result (λ r. (r.1.posts.items ≡ []) × (many ≤ r.1.posts.spare)) }
    ensures takes { IfOk result (λ r. (r.1.takes.items ≡ []) × (many ≤ r.1.takes.spare)) }
{
    let own = TakeList::new(alloc, many)?;
    let posts = PostList::new(alloc, many)?;
    let takes = TakeList::new(alloc, many)?;
    Ok((own, Room { posts, takes }))
}

// Runs the workers, and then takes what they left. All memory has been taken before.
pub(crate) fn run_seated<
    R: Threads + Wait + Sync,
    Q: LearnQueue + Sync,
    S: LearnSet + Sync,
    G: Gate + Sync,
>(
    rt: &R,
    queue: &Q,
    rush: &Q,
    set: &S,
    posters: u32,
    takers: u32,
    lines: &Lines,
    gate: &G,
    mut desk: Desk<Q::Pass, S::Pass>,
    mut takes: TakeList,
    waiting: Vec<BoardWorker<Q::Pass, S::Pass>>,
    done: Vec<BoardWorker<Q::Pass, S::Pass>>,
) -> Seated<Q::Pass, S::Pass>
where
    Q::Pass: Send,
    S::Pass: Send,
    requires posters { 1 ≤ posters }
    requires good { AreGood lines.now }
    requires first { (Q.first queue.now ≡ 0) × (Q.first rush.now ≡ 0) }
    requires desk { IsFreshDesk Q.SharedQueue S.SharedSet queue.now rush.now set.now 0 desk }
    requires none { takes.items ≡ [] }
    requires enough { length lines.now ≤ takes.spare }
    requires team { AreSeated (IsReady Q.SharedQueue S.SharedSet queue.now rush.now set.now lines.now posters)
        (IsNew Q.SharedQueue S.SharedSet queue.now rush.now set.now) (posters + takers) waiting done }
    requires agents { (Q.agents queue.now ≡ 1 + (posters + takers)) × (Q.agents rush.now ≡ 1 + (posters + takers))
        × (S.agents set.now ≡ 1 + (posters + takers)) }
    ensures back { AllCameBack Q.SharedQueue S.SharedSet queue.now rush.now set.now lines.now posters takers
        result.desk result.takes.items result.workers.items }
    ensures few { (length (all_of (λ w. w.replies.posts.items) result.workers.items) ≤ length lines.now)
        × (length result.takes.items + length (all_of (λ w. w.replies.takes.items) result.workers.items) ≤ length lines.now) }
{
    let _ = takers;
    let left = AtomicU64::new(u64::from(posters));
    let work = |worker: BoardWorker<Q::Pass, S::Pass>| -> BoardWorker<Q::Pass, S::Pass>
        requires { IsReady Q.SharedQueue S.SharedSet queue.now rush.now set.now lines.now posters worker }
        ensures { DidWork Q.SharedQueue S.SharedSet queue.entry.now rush.entry.now set.entry.now lines.entry.now posters worker result }
    { run_worker(rt, queue, rush, set, posters, lines, gate, &left, worker) };
    let mut workers = run_workers(rt, &work, waiting, done);
    let here = AtBoard { queue, rush, set };
    learn_from_team(&here, 0, &mut desk, &mut workers);
    tell_laws(queue, rush, set, &desk);
    take_rest(rt, queue, rush, set, &mut desk, 0, lines, gate, &mut takes);
    learn_from_team(&here, 0, &mut desk, &mut workers);
    tell_laws(queue, rush, set, &desk);
    Seated {
        desk,
        takes,
        workers,
    }
}
