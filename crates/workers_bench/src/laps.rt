//! Laps: so many posts on threads, and then the takes of all jobs.

ghost use Rattle.std.specs.Prelude.{◌≡◌, ◌+◌, ◌≤◌, length};
ghost use Rattle.orc_jobs.specs.GoodLines.{AreGood};
ghost use Rattle.orc_workers.specs.Desks.{AreFresh};
ghost use Rattle.workers_bench.specs.Usable.{IsNewQueue, IsNewSet, MayCall};

use crate::calls::{post, take};
use orc_board::{Desk, Gate};
use orc_chain_rule::Chain;
use orc_containers::{Domain, new_queue, new_set};
use orc_fifo_rule::Fifo;
use orc_history::{LearnQueue, LearnSet};
use orc_jobs::Lines;
use orc_workers::{fresh_desks, run_at_desks, run_workers};
use std::alloc::Global;
use std::io;
use std::io::ErrorKind;
use std::sync::Wait;
use std::sync::atomic::{AtomicU64, Ordering};
use std::thread::Threads;
use std::time::{Clock, Instant};

// How many rows each domain has.
const ROWS: u32 = 65_535;

// So many posters and takers.
#[derive(Clone, Copy, Drop)]
pub(crate) struct Crew {
    pub(crate) posters: u32,
    pub(crate) takers: u32,
    ghost some_posters: { (1 ≤ posters) × (posters ≤ 8) },
    ghost few_takers: { takers ≤ 7 },
}

// Microseconds until the caller begins to take, microseconds of the whole lap, and how many jobs were taken.
#[derive(Clone, Copy, Drop)]
pub(crate) struct Lap {
    pub(crate) posting: u64,
    pub(crate) all: u64,
    pub(crate) jobs: u64,
}

// A gate that notes when the caller, who is agent 0, begins to take.
#[derive(Drop)]
struct Stopwatch<'a, R> {
    clock: &'a R,
    start: Instant,
    posting: AtomicU64,
}

impl<R: Clock> Gate for Stopwatch<'_, R> {
    fn before(&self, worker: u32, call: u64) {
        if worker == 0 && call == 0 {
            self.posting
                .store(micros_since(self.clock, self.start), Ordering::SeqCst);
        }
    }
}

// The microseconds since then, or 0 where the clock can't be read.
fn micros_since(clock: &impl Clock, start: Instant) -> u64 {
    match start.elapsed(clock) {
        Ok(time) => u64::try_from(time.as_micros()).unwrap_or(u64::MAX),
        Err(_) => 0,
    }
}

// What is answered where memory is refused.
pub(crate) fn no_memory() -> io::Error {
    io::Error::from(ErrorKind::OutOfMemory)
}

// A lap by workers of the board.
fn lap_of_workers<R: Threads + Wait + Clock + Sync, Q: LearnQueue + Sync, S: LearnSet + Sync>(
    rt: &R,
    alloc: Global,
    lines: &Lines,
    crew: Crew,
    queue: &Q,
    rush: &Q,
    set: &S,
    mut desks: Vec<Desk<Q::Pass, S::Pass>>,
) -> io::Result<Lap>
where
    Q::Pass: Send,
    S::Pass: Send,
    requires good { AreGood lines.now }
    requires desks { AreFresh Q.SharedQueue S.SharedSet queue.now rush.now set.now 0 desks.items }
    requires count { length desks.items ≡ 1 + (crew.posters + crew.takers) }
    requires agents { (Q.agents queue.now ≡ 1 + (crew.posters + crew.takers)) × (Q.agents rush.now ≡ 1 + (crew.posters + crew.takers))
        × (S.agents set.now ≡ 1 + (crew.posters + crew.takers)) }
    requires first { (Q.first queue.now ≡ 0) × (Q.first rush.now ≡ 0) }
{
    let start = Instant::now(rt)?;
    let watch = Stopwatch {
        clock: rt,
        start,
        posting: AtomicU64::new(0),
    };
    let Ok(replies) = run_at_desks(
        rt,
        alloc,
        lines,
        crew.posters,
        crew.takers,
        queue,
        rush,
        set,
        &mut desks,
        &watch,
    ) else {
        return Err(no_memory());
    };
    let all = micros_since(rt, start);
    let posting = watch.posting.load(Ordering::SeqCst);
    let jobs = replies.takes.len() as u64;
    Ok(Lap { posting, all, jobs })
}

// A lap by bare calls, on as many threads as there are desks but one, with which the caller takes.
fn lap_of_calls<R: Threads + Clock + Sync, Q: LearnQueue + Sync, S: LearnSet + Sync>(
    rt: &R,
    alloc: Global,
    posts: u32,
    threads: u32,
    queue: &Q,
    rush: &Q,
    set: &S,
    mut desks: Vec<Desk<Q::Pass, S::Pass>>,
) -> io::Result<Lap>
where
    Q::Pass: Send,
    S::Pass: Send,
    requires desks { AreFresh Q.SharedQueue S.SharedSet queue.now rush.now set.now 0 desks.items }
    requires threads { 1 ≤ threads }
{
    let done = Vec::with_capacity(alloc, desks.len())?;
    let Some(own) = desks.pop() else {
        return Err(no_memory());
    };
    let work = |desk: Desk<Q::Pass, S::Pass>| -> Desk<Q::Pass, S::Pass>
        requires { MayCall Q.SharedQueue S.SharedSet queue.now set.now desk × (1 ≤ threads) }
    { post(queue, set, desk, posts, threads) };
    let start = Instant::now(rt)?;
    let _done = run_workers(rt, &work, desks, done);
    let posting = micros_since(rt, start);
    let jobs = take(queue, set, own, posts);
    let all = micros_since(rt, start);
    Ok(Lap { posting, all, jobs })
}

// A lap with new queues and a new set, which have one pass for each agent, by workers or by bare calls on as many threads as posters.
fn lap_at_new<R: Threads + Wait + Clock + Sync, Q: LearnQueue + Sync, S: LearnSet + Sync>(
    rt: &R,
    alloc: Global,
    lines: &Lines,
    crew: Crew,
    bare: bool,
    queue: &Q,
    rush: &Q,
    set: &S,
    queue_passes: Vec<Q::Pass>,
    rush_passes: Vec<Q::Pass>,
    set_passes: Vec<S::Pass>,
) -> io::Result<Lap>
where
    Q::Pass: Send,
    S::Pass: Send,
    requires good { AreGood lines.now }
    requires queue { IsNewQueue Q.SharedQueue Q.agents queue.now queue_passes.items (1 + (crew.posters + crew.takers)) }
    requires rush { IsNewQueue Q.SharedQueue Q.agents rush.now rush_passes.items (1 + (crew.posters + crew.takers)) }
    requires set { IsNewSet S.SharedSet S.agents set.now set_passes.items (1 + (crew.posters + crew.takers)) }
{
    let Ok(desks) = fresh_desks(
        alloc,
        queue,
        rush,
        set,
        queue_passes,
        rush_passes,
        set_passes,
    ) else {
        return Err(no_memory());
    };
    if bare {
        lap_of_calls(
            rt,
            alloc,
            lines.len() as u32,
            crew.posters,
            queue,
            rush,
            set,
            desks,
        )
    } else {
        lap_of_workers(rt, alloc, lines, crew, queue, rush, set, desks)
    }
}

// A lap over new domains of these types, by workers or by bare calls on as many threads as posters.
pub(crate) fn run_lap<
    R: Threads + Wait + Clock + Sync,
    F: Domain<Rule = Fifo> + Sync + Drop,
    C: Domain<Rule = Chain> + Sync + Drop,
>(rt: &R, alloc: Global, lines: &Lines, buckets: u32, crew: Crew, bare: bool) -> io::Result<Lap>
where
    F::Pass: Send,
    C::Pass: Send,
    requires { AreGood lines.now }
{
    let agents = 1 + (crew.posters + crew.takers);
    let Ok((queue, queue_passes)) = new_queue::<F>(alloc, ROWS, agents) else {
        return Err(no_memory());
    };
    let Ok((rush, rush_passes)) = new_queue::<F>(alloc, ROWS, agents) else {
        return Err(no_memory());
    };
    let Ok((set, set_passes)) = new_set::<C>(alloc, ROWS, agents, buckets) else {
        return Err(no_memory());
    };
    lap_at_new(
        rt,
        alloc,
        lines,
        crew,
        bare,
        &queue,
        &rush,
        &set,
        queue_passes,
        rush_passes,
        set_passes,
    )
}
