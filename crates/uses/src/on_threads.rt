//! A queue and a set that agents call, each in a thread of its own, from their making to their rest.

ghost use Rattle.std.specs.Prelude.{◌≡◌, ◌+◌, ◌<◌, All, IfOk, IfSome, length};

use crate::crew::{are_in_order, backlog_when_settled};
use crate::many_threads::{QueueSums, SetSums, bits_left_by_all, put_and_take_by_all};
use orc_chain_rule::Chain;
use orc_containers::{Domain, RowCounts, Unmade, new_queue, new_set, queue_at_rest, set_at_rest};
use orc_fifo_rule::Fifo;
use orc_history::{SharedQueue, SharedSet};
use orc_queue::Queue;
use orc_set::Set;
use std::alloc::Global;
use std::thread::Threads;

/// How many calls of a queue were answered, how many more jobs were put than taken, how many retired rows were left once each agent
/// had settled alone, and what its domain tells at rest.
#[derive(Clone, Copy, PartialEq, Eq, Drop)]
pub struct QueueWork {
    pub answered: u64,
    pub left: u64,
    pub waiting: u32,
    pub counts: RowCounts,
}

// Each agent puts and takes in turn. Answers how many rows wait once each has settled alone.
fn work_at_queue<R: Threads + Sync, L: Domain<Rule = Fifo> + Sync>(
    rt: &R,
    queue: &Queue<L>,
    passes: &mut Vec<L::Pass>,
    rounds: u64,
    sums: &QueueSums,
) -> u32
where
    L::Pass: Send,
    requires usable { All (λ p. ⟦<Queue<L> as SharedQueue>⟧.usable queue.now p) passes.old.items }
    ensures usable { All (λ p. ⟦<Queue<L> as SharedQueue>⟧.usable queue.now p) passes.new.items }
    ensures many { length passes.new.items ≡ length passes.old.items }
{
    let passes = passes.as_mut_slice();
    put_and_take_by_all(rt, queue, passes, rounds, sums);
    backlog_when_settled(queue.links(), passes)
}

/// Lets each agent of a new queue put and take in turn, in so many rounds, in a thread of its own, and brings the queue to rest. None
/// where the passes aren't in order of agent afterwards.
///
/// # Errors
///
/// * `Shape` with the first number that is out of range.
/// * `NoMemory` where memory is refused.
pub fn queue_on_threads<R: Threads + Sync, L: Domain<Rule = Fifo> + Sync + Drop>(
    rt: &R,
    alloc: Global,
    rows: u32,
    agents: u32,
    rounds: u64,
) -> Result<Option<QueueWork>, Unmade>
where
    L::Pass: Send,
    ensures balance { IfOk result (λ told. IfSome told (λ work. work.counts.given ≡ work.counts.reused + work.counts.linked)) }
{
    let (queue, mut passes) = new_queue::<L>(alloc, rows, agents)?;
    let sums = QueueSums::new();
    let waiting = work_at_queue(rt, &queue, &mut passes, rounds, &sums);
    if !are_in_order(queue.links(), passes.as_slice()) {
        return Ok(None);
    }
    let rest = queue_at_rest(queue, passes);
    Ok(Some(QueueWork {
        answered: sums.answered(),
        left: sums.put().wrapping_sub(sums.taken()),
        waiting,
        counts: L::counts(&rest),
    }))
}

/// How many calls of a set were answered, the bits of the keys that were added, less those of the keys that were taken out, and the
/// bits of those that the first agent found present; how many retired rows were left once each agent had settled alone, and what its
/// domain tells at rest.
#[derive(Clone, Copy, PartialEq, Eq, Drop)]
pub struct SetWork {
    pub answered: u64,
    pub balance: u64,
    pub found: Option<u64>,
    pub waiting: u32,
    pub counts: RowCounts,
}

// Each agent inserts, removes and asks in turn, over 64 keys. Answers the bits of the keys that are then present, and how many rows
// wait once each has settled alone.
fn work_at_set<R: Threads + Sync, L: Domain<Rule = Chain> + Sync>(
    rt: &R,
    set: &Set<L>,
    passes: &mut Vec<L::Pass>,
    calls: u64,
    sums: &SetSums,
) -> (Option<u64>, u32)
where
    L::Pass: Send,
    requires usable { All (λ p. ⟦<Set<L> as SharedSet>⟧.usable set.now p) passes.old.items }
    ensures usable { All (λ p. ⟦<Set<L> as SharedSet>⟧.usable set.now p) passes.new.items }
    ensures many { length passes.new.items ≡ length passes.old.items }
{
    let passes = passes.as_mut_slice();
    let found = bits_left_by_all(rt, set, passes, calls, sums);
    let waiting = backlog_when_settled(set.links(), passes);
    (found, waiting)
}

/// Lets each agent of a new set insert, remove and ask in turn, in so many calls over 64 keys, in a thread of its own, and brings the
/// set to rest. None where the passes aren't in order of agent afterwards.
///
/// # Errors
///
/// * `Shape` with the first number that is out of range.
/// * `NoMemory` where memory is refused.
pub fn set_on_threads<R: Threads + Sync, L: Domain<Rule = Chain> + Sync + Drop>(
    rt: &R,
    alloc: Global,
    rows: u32,
    agents: u32,
    buckets: u32,
    calls: u64,
) -> Result<Option<SetWork>, Unmade>
where
    L::Pass: Send,
    ensures balance { IfOk result (λ told. IfSome told (λ work. work.counts.given ≡ work.counts.reused + work.counts.linked)) }
{
    let (set, mut passes) = new_set::<L>(alloc, rows, agents, buckets)?;
    let sums = SetSums::new();
    let (found, waiting) = work_at_set(rt, &set, &mut passes, calls, &sums);
    if !are_in_order(set.links(), passes.as_slice()) {
        return Ok(None);
    }
    let rest = set_at_rest(set, passes);
    Ok(Some(SetWork {
        answered: sums.answered(),
        balance: sums.balance(),
        found,
        waiting,
        counts: L::counts(&rest),
    }))
}
