//! Two threads put jobs into a queue and take them out, over 64 rows that are used again and again. Then the domain comes to rest.
#![tactic(auto)]

ghost use Rattle.std.specs.Prelude.{◌≡◌, ◌<◌, ℕ, All, length, slice_index_or, true};

use orc_containers::{Domain, new_queue, queue_at_rest};
use orc_domain::OrcDomain;
use orc_fifo_rule::Fifo;
use orc_history::SharedQueue;
use orc_queue::Queue;
use std::alloc::Global;
use std::process::ExitCode;
use std::sync::atomic::{AtomicU64, Ordering};
use std::thread::{Threads, for_each_mut};

// What all threads did: the sums of the jobs that were put, and of those that were taken, and how many jobs a thread took
// from a lower position than the job before.
#[derive(Drop)]
struct Work {
    put: AtomicU64,
    taken: AtomicU64,
    misplaced: AtomicU64,
}

impl Work {
    fn new() -> Work {
        Work {
            put: AtomicU64::new(0),
            taken: AtomicU64::new(0),
            misplaced: AtomicU64::new(0),
        }
    }
}

// How a run ended.
#[derive(Clone, Copy, Drop)]
struct Ending {
    all_taken: bool,
    in_order: bool,
    linked: u32,
}

// Takes a job, if there is one, at this position or a higher one. Answers the lowest position that the next may have.
fn take_one<Q: SharedQueue>(queue: &Q, pass: &mut Q::Pass, lowest: u64, work: &Work) -> u64
    requires { Q.usable queue.now pass.old }
    ensures { Q.usable queue.now pass.new }
{
    let Ok(Some((job, at))) = queue.dequeue(pass, 64) else {
        return lowest;
    };
    work.taken.fetch_add(job, Ordering::SeqCst);
    if at < lowest {
        work.misplaced.fetch_add(1, Ordering::SeqCst);
    }
    at.saturating_add(1)
}

// Tries to put a thousand jobs, from this one on, and to take one after each; then takes what is left. A put is refused
// where no row is free.
fn put_and_take<Q: SharedQueue>(queue: &Q, pass: &mut Q::Pass, first: u64, work: &Work)
    requires { Q.usable queue.now pass.old }
    ensures { Q.usable queue.now pass.new }
{
    let mut lowest = 0;
    for number in 0..1000 {
        let job = first.wrapping_add(number);
        if queue.enqueue(pass, job, 64).is_ok() {
            work.put.fetch_add(job, Ordering::SeqCst);
        }
        lowest = take_one(queue, pass, lowest, work);
    }
    for _call in 0..1000 {
        lowest = take_one(queue, pass, lowest, work);
    }
}

// Each agent puts and takes in a thread of its own.
fn put_and_take_by_all<R: Threads + Sync, Q: SharedQueue + Sync>(
    rt: &R,
    queue: &Q,
    passes: &mut [Q::Pass],
    work: &Work,
)
where
    Q::Pass: Send,
    requires usable { All (λ p. Q.usable queue.now p) passes.old }
    ensures usable { All (λ p. Q.usable queue.now p) passes.new }
    ensures many { length passes.new ≡ length passes.old }
{
    let calls = move |place: usize, p: &mut Q::Pass|
        requires { Q.usable queue.now p.old }
        ensures { Q.usable queue.entry.now p.new }
    { put_and_take(queue, p, (place as u64).wrapping_mul(1000), work) };
    for_each_mut(rt, passes, 2, &calls);
}

// Whether the passes are in order of agent.
fn are_in_order<Q: SharedQueue>(queue: &Q, passes: &[Q::Pass]) -> bool
    requires { All (λ p. Q.usable queue.now p) passes.now }
    ensures { result ≡ true → (i : ℕ) (p : Q.Pass) → i < length passes.now
        → Q.agent_of queue.now (slice_index_or passes.now i p) ≡ i }
{
    for place in 0..passes.len() {
        if queue.agent(&passes[place]) as usize != place {
            return false;
        }
    }
    true
}

// Lets each agent put and take in a thread of its own. Answers whether the passes are in order of agent then.
fn work_in_order<R: Threads + Sync, Q: SharedQueue + Sync>(
    rt: &R,
    queue: &Q,
    passes: &mut Vec<Q::Pass>,
    work: &Work,
) -> bool
where
    Q::Pass: Send,
    requires usable { All (λ p. Q.usable queue.now p) passes.old.items }
    ensures usable { All (λ p. Q.usable queue.now p) passes.new.items }
    ensures many { length passes.new.items ≡ length passes.old.items }
    ensures order { result ≡ true → (i : ℕ) (p : Q.Pass) → i < length passes.new.items
        → Q.agent_of queue.now (slice_index_or passes.new.items i p) ≡ i }
{
    put_and_take_by_all(rt, queue, passes.as_mut_slice(), work);
    are_in_order(queue, passes.as_slice())
}

// Makes a queue over 64 rows of any domain, lets two agents work, and brings the domain to rest.
fn run<L: Domain<Rule = Fifo> + Sync + Drop, R: Threads + Sync>(
    rt: &R,
    alloc: Global,
) -> Option<Ending>
where
    L::Pass: Send,
{
    let Ok((queue, mut passes)) = new_queue::<L>(alloc, 64, 2) else {
        return None;
    };
    let work = Work::new();
    if !work_in_order(rt, &queue, &mut passes, &work) {
        return None;
    }
    Some(Ending {
        all_taken: work.put.load(Ordering::SeqCst) == work.taken.load(Ordering::SeqCst),
        in_order: work.misplaced.load(Ordering::SeqCst) == 0,
        linked: L::counts(&queue_at_rest(queue, passes)).linked,
    })
}

fn main(rt: HostRuntime) -> ExitCode {
    let Some(outcome) = run::<OrcDomain<Fifo>, _>(&rt, rt.alloc()) else {
        return ExitCode::FAILURE;
    };
    let Ending {
        all_taken,
        in_order,
        linked,
    } = outcome;
    match println!(rt;
        "each job that was put was taken: {all_taken}\neach thread took rising positions: {in_order}\nrows linked at rest: {linked}"
    ) {
        Ok(()) => ExitCode::SUCCESS,
        Err(_) => ExitCode::FAILURE,
    }
}
