//! A whole run of a pipeline.
ghost use Rattle.std.specs.Prelude.{ℕ, ◌≡◌, ◌+◌, ◌-◌, ◌*◌, ◌≤◌, [], length, IfOk, OnErr, vec_len};
ghost use Rattle.orc_jobs.specs.GoodLines.{AreGood};
ghost use Rattle.orc_team.specs.Seats.{AreSeated, IsEmptyRoom, all_of};
ghost use Rattle.orc_stages.specs.Desks.{ArePasses};
ghost use Rattle.orc_pipeline.specs.{Learning.{AreFor}, Team.{DidWork, IsReady}, Run.{AllCameBack, AreFresh, AreIdle, Begins, CallerMovedFor, HaveSeenTheSame, IsNew, IsRunOf}};

use crate::at_queues::{AtQueues, tell_laws};
use crate::run_worker;
use orc_board::{Gate, PostList};
use orc_fault::NoMemory;
use orc_history::LearnQueue;
use orc_jobs::Lines;
use orc_stages::{OutList, StageDesk, StageList, StageReply, StageWorker, move_all};
use orc_team::{
    Reserved, Room, hand_back, learn_from_team, reserve, reserve_room, run_workers, seat,
};
use std::alloc::Global;
use std::sync::Wait;
use std::sync::atomic::AtomicU64;
use std::thread::Threads;

/// The replies of a run, and the jobs that came out of its last queue.
#[derive(Drop)]
pub struct StagesDone {
    /// What came of each record: first those of poster 1 in file order, then those of poster 2, and so on.
    pub posts: PostList,
    /// What each stage did: first the replies of stage 1 in its order, then those of stage 2, and so on.
    pub moves: StageList,
    /// The numbers of the records whose jobs came out, in their order.
    pub outs: OutList,
}

// The caller's desk, the workers in order, and what came out.
#[derive(Drop)]
struct Seated<P> {
    desk: StageDesk<P>,
    workers: Vec<StageWorker<P>>,
    outs: OutList,
}

/// Runs the posters and one worker for each stage at these desks, each on a thread of its own where one can be started; then moves
/// what is left, stage by stage, and takes what comes out of the last queue. A worker whose thread can't be started is run by the
/// caller: posters first, and each stage before the next. The desks are one per agent in order: the caller's, those of posters 1 to
/// `posters`, and those of stages 1 to K, where there are K + 1 queues. They come back so, and each pass has then seen all that
/// happened in its queue.
///
/// # Errors
///
/// `NoMemory` where memory is refused. All of it is taken before the first worker starts: the desks stay as they were, and the
/// histories of all queues are empty.
pub fn run_stages<R: Threads + Wait + Sync, Q: LearnQueue + Sync, G: Gate + Sync>(
    rt: &R,
    alloc: Global,
    lines: &Lines,
    posters: u32,
    queues: &[Q],
    desks: &mut Vec<StageDesk<Q::Pass>>,
    gate: &G,
) -> Result<StagesDone, NoMemory>
where
    Q::Pass: Send,
    requires posters { 1 ≤ posters }
    requires good { AreGood lines.now }
    requires queues { (2 ≤ length queues.now) × (length queues.now ≤ 7) }
    requires desks { AreFresh Q.SharedQueue queues.now 0 desks.old.items }
    requires count { vec_len desks.old ≡ posters + length queues.now }
    requires agents { AreFor Q.SharedQueue Q.agents (posters + length queues.now) queues.now }
    ensures idle { IfOk result (λ r. AreIdle Q.SharedQueue queues.now 0 desks.new.items) }
    ensures all { IfOk result (λ r. length desks.new.items ≡ posters + length queues.now) }
    ensures seen { IfOk result (λ r. HaveSeenTheSame Q.SharedQueue desks.new.items) }
    ensures pipeline { IfOk result (IsRunOf Q.SharedQueue queues.now lines.now posters desks.new.items) }
    ensures kept { OnErr result (desks.new ≡ desks.old) }
{
    let many = lines.len();
    let room = |agent: usize| -> Result<Room<StageReply>, NoMemory>
        ensures { IfOk result (IsEmptyRoom posters many many agent) }
    { reserve_room(alloc, posters, agent, many, many) };
    let Reserved {
        rooms,
        waiting,
        done,
    } = reserve(alloc, desks.len() - 1, &room)?;
    let (mut replies, outs) = empty_lists(alloc, queues.len() - 1, many)?;
    let desk = desks.remove(0);
    let waiting = seat(&AtQueues { queues }, desks, rooms, waiting);
    let Seated {
        desk,
        workers,
        outs,
    } = run_seated(rt, queues, posters, lines, gate, desk, outs, waiting, done);
    let Ok(()) = desks.push(desk) else {
        unreachable!()
    };
    hand_back(workers, desks, &mut replies);
    let Room { posts, takes } = replies;
    Ok(StagesDone {
        posts,
        moves: takes,
        outs,
    })
}

// Lists with room for the posts of so many lines, for the moves of so many stages of each, and for what comes out.
fn empty_lists(
    alloc: Global,
    stages: usize,
    lines: usize,
) -> Result<(Room<StageReply>, OutList), NoMemory>
    requires few { (stages ≤ 6) × (lines ≤ 65535) }
    ensures posts { IfOk result (λ r. (r.0.posts.items ≡ []) × (r.0.posts.spare ≡ lines)) }
    ensures moves { IfOk result (λ r. (r.0.takes.items ≡ []) × (r.0.takes.spare ≡ stages * lines)) }
    ensures outs { IfOk result (λ r. (r.1.items ≡ []) × (r.1.spare ≡ lines)) }
{
    let posts = PostList::new(alloc, lines)?;
    let takes = StageList::new(alloc, stages * lines)?;
    let outs = OutList::new(alloc, lines)?;
    Ok((Room { posts, takes }, outs))
}

// Runs the workers, and then moves what is left. All memory has been taken before.
fn run_seated<R: Threads + Wait + Sync, Q: LearnQueue + Sync, G: Gate + Sync>(
    rt: &R,
    queues: &[Q],
    posters: u32,
    lines: &Lines,
    gate: &G,
    mut desk: StageDesk<Q::Pass>,
    mut outs: OutList,
    waiting: Vec<StageWorker<Q::Pass>>,
    done: Vec<StageWorker<Q::Pass>>,
) -> Seated<Q::Pass>
where
    Q::Pass: Send,
    requires posters { 1 ≤ posters }
    requires good { AreGood lines.now }
    requires queues { (2 ≤ length queues.now) × (length queues.now ≤ 7) }
    requires agents { AreFor Q.SharedQueue Q.agents (posters + length queues.now) queues.now }
    requires desk { ArePasses Q.SharedQueue 0 queues.now desk.passes.items }
    requires new { IsNew Q.SharedQueue queues.now desk.passes.items }
    requires outs { (outs.items ≡ []) × (length lines.now ≤ outs.spare) }
    requires team { AreSeated (IsReady Q.SharedQueue queues.now lines.now posters) (Begins Q.SharedQueue queues.now lines.now posters)
        (posters + (length queues.now - 1)) waiting done }
    ensures back { AllCameBack Q.SharedQueue queues.now lines.now posters (length queues.now - 1) result.desk.passes.items result.workers.items result.outs.items }
    ensures few { (length (all_of (λ w. w.replies.posts.items) result.workers.items) ≤ length lines.now)
        × (length (all_of (λ w. w.replies.takes.items) result.workers.items) ≤ (length queues.now - 1) * length lines.now) }
{
    let putting = [
        AtomicU64::new(u64::from(posters)),
        AtomicU64::new(1),
        AtomicU64::new(1),
        AtomicU64::new(1),
        AtomicU64::new(1),
        AtomicU64::new(1),
        AtomicU64::new(1),
    ];
    let work = |worker: StageWorker<Q::Pass>| -> StageWorker<Q::Pass>
        requires { IsReady Q.SharedQueue queues.now lines.now posters worker }
        ensures { DidWork Q.SharedQueue queues.entry.now lines.entry.now posters worker result }
    { run_worker(rt, queues, posters, lines, gate, &putting, worker) };
    let mut workers = run_workers(rt, &work, waiting, done);
    let here = AtQueues { queues };
    learn_from_team(&here, 0, &mut desk, &mut workers);
    tell_laws(queues, &desk);
    move_left(
        rt,
        queues,
        &mut desk,
        posters,
        lines,
        &mut workers,
        &mut outs,
    );
    learn_from_team(&here, 0, &mut desk, &mut workers);
    tell_laws(queues, &desk);
    Seated {
        desk,
        workers,
        outs,
    }
}

// Moves what is left as each of the stages, whose workers stand behind those of the posters, and takes what comes out.
fn move_left<R: Wait, Q: LearnQueue>(
    rt: &R,
    queues: &[Q],
    desk: &mut StageDesk<Q::Pass>,
    posters: u32,
    lines: &Lines,
    workers: &mut Vec<StageWorker<Q::Pass>>,
    outs: &mut OutList,
)
    requires passes { ArePasses Q.SharedQueue 0 queues.now desk.old.passes.items }
    requires all { vec_len workers.old + 1 ≡ posters + length queues.now }
    requires queues { (2 ≤ length queues.now) × (length queues.now ≤ 7) }
    requires good { AreGood lines.now }
    requires no_outs { outs.old.items ≡ [] }
    ensures passes { ArePasses Q.SharedQueue 0 queues.now desk.new.passes.items }
    ensures moved { CallerMovedFor Q.SharedQueue queues.now lines.now posters desk.old.passes.items desk.new.passes.items
        workers.old.items workers.new.items outs.new }
    ensures spare { length outs.new.items + outs.new.spare ≡ outs.old.spare }
    ensures len { vec_len workers.new ≡ vec_len workers.old }
{
    move_behind(
        rt,
        queues,
        desk.passes.as_mut_slice(),
        posters,
        lines,
        workers.as_mut_slice(),
        outs,
    );
}

// The same for the passes of a desk and the workers of a slice.
fn move_behind<R: Wait, Q: LearnQueue>(
    rt: &R,
    queues: &[Q],
    passes: &mut [Q::Pass],
    posters: u32,
    lines: &Lines,
    workers: &mut [StageWorker<Q::Pass>],
    outs: &mut OutList,
)
    requires passes { ArePasses Q.SharedQueue 0 queues.now passes.old }
    requires all { length workers.old + 1 ≡ posters + length queues.now }
    requires queues { (2 ≤ length queues.now) × (length queues.now ≤ 7) }
    requires good { AreGood lines.now }
    requires no_outs { outs.old.items ≡ [] }
    ensures passes { ArePasses Q.SharedQueue 0 queues.now passes.new }
    ensures moved { CallerMovedFor Q.SharedQueue queues.now lines.now posters passes.old passes.new workers.old workers.new outs.new }
    ensures spare { length outs.new.items + outs.new.spare ≡ outs.old.spare }
{
    let (_posters, stages) = workers.split_at_mut(posters as usize);
    move_all(rt, queues, passes, 0, 1, lines, stages, outs);
}
