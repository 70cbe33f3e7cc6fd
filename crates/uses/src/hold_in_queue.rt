//! A queue whose oldest node one agent holds while others call.

ghost use Rattle.std.specs.Prelude.{◌≡◌, ◌+◌, ◌<◌, All, IfOk, IfSome, length};
ghost use Rattle.std.specs.List.{AllByRecursion};

use crate::crew::{are_in_order, backlog_of_all};
use orc_containers::{Domain, RowCounts, Unmade, new_queue, queue_at_rest};
use orc_fifo_rule::Fifo;
use orc_heap::{At, Links, Looked};
use orc_history::SharedQueue;
use orc_queue::Queue;
use std::alloc::Global;

/// How many jobs were put and taken beside a hold, how many retired rows were left for the passes once it had been let go, and what
/// the domain tells at rest.
#[derive(Clone, Copy, PartialEq, Eq, Drop)]
pub struct HeldQueue {
    pub put: u64,
    pub taken: u64,
    pub waiting: u32,
    pub counts: RowCounts,
}

// Puts this job, and tells whether it is there.
fn is_put<Q: SharedQueue>(queue: &Q, p: &mut Q::Pass, job: u64) -> bool
    requires { Q.usable queue.now p.old }
    ensures { Q.usable queue.now p.new }
{
    queue.enqueue(p, job, 64).is_ok()
}

// Takes a job, and tells whether there was one.
fn is_taken<Q: SharedQueue>(queue: &Q, p: &mut Q::Pass) -> bool
    requires { Q.usable queue.now p.old }
    ensures { Q.usable queue.now p.new }
{
    matches!(queue.dequeue(p, 64), Ok(Some(_)))
}

// 1,000 calls: one agent puts, and the other takes two of three. Answers how many jobs were put, and how many taken.
fn put_and_take<Q: SharedQueue>(queue: &Q, one: &mut Q::Pass, two: &mut Q::Pass) -> (u64, u64)
    requires one { Q.usable queue.now one.old }
    requires two { Q.usable queue.now two.old }
    ensures one { Q.usable queue.now one.new }
    ensures two { Q.usable queue.now two.new }
{
    let mut put: u64 = 0;
    let mut taken: u64 = 0;
    for job in 0..600 {
        put = put.wrapping_add(u64::from(is_put(queue, one, job)));
        if job % 3 != 0 {
            taken = taken.wrapping_add(u64::from(is_taken(queue, two)));
        }
    }
    (put, taken)
}

// They do so while an agent holds the dummy, which it lets go late, without settling; and then one stops in a put.
fn beside_a_hold<L: Links<Rule = Fifo>>(
    queue: &Queue<L>,
    holder: &mut L::Pass,
    one: &mut L::Pass,
    two: &mut L::Pass,
) -> Option<(u64, u64)>
    requires root { 0 < (L.numbers queue.now.links).roots }
    requires holder { ⟦<Queue<L> as SharedQueue>⟧.usable queue.now holder.old }
    requires one { ⟦<Queue<L> as SharedQueue>⟧.usable queue.now one.old }
    requires two { ⟦<Queue<L> as SharedQueue>⟧.usable queue.now two.old }
    ensures holder { ⟦<Queue<L> as SharedQueue>⟧.usable queue.now holder.new }
    ensures one { ⟦<Queue<L> as SharedQueue>⟧.usable queue.now one.new }
    ensures two { ⟦<Queue<L> as SharedQueue>⟧.usable queue.now two.new }
{
    let links = queue.links();
    match links.look(holder, &At::Root(0), 1) {
        Looked::Stable(_, Some(held)) => {
            let (put, taken) = put_and_take(queue, one, two);
            links.release(holder, held);
            let stopped = queue.put_and_stop(two, 600).is_some();
            Some((put.wrapping_add(u64::from(stopped)), taken))
        }
        Looked::Stable(_, None) | Looked::Moved => None,
    }
}

// The first three of a queue's passes do so.
fn by_the_first_three<L: Links<Rule = Fifo>>(
    queue: &Queue<L>,
    passes: &mut [L::Pass],
) -> Option<(u64, u64)>
    requires root { 0 < (L.numbers queue.now.links).roots }
    requires usable { AllByRecursion (λ p. ⟦<Queue<L> as SharedQueue>⟧.usable queue.now p) passes.old }
    ensures usable { AllByRecursion (λ p. ⟦<Queue<L> as SharedQueue>⟧.usable queue.now p) passes.new }
{
    let (holder, others) = passes.split_first_mut()?;
    let (one, others) = others.split_first_mut()?;
    let (two, _) = others.split_first_mut()?;
    beside_a_hold(queue, holder, one, two)
}

// The passes of a queue do so.
fn by_three<L: Links<Rule = Fifo>>(
    queue: &Queue<L>,
    passes: &mut Vec<L::Pass>,
) -> Option<(u64, u64)>
    requires root { 0 < (L.numbers queue.now.links).roots }
    requires usable { All (λ p. ⟦<Queue<L> as SharedQueue>⟧.usable queue.now p) passes.old.items }
    ensures usable { All (λ p. ⟦<Queue<L> as SharedQueue>⟧.usable queue.now p) passes.new.items }
    ensures many { length passes.new.items ≡ length passes.old.items }
{
    by_the_first_three(queue, passes.as_mut_slice())
}

/// 1,000 calls of a new queue by two agents, while a third one holds the dummy, which it lets go late, without settling; then one of
/// the two stops in a put, and the queue is brought to rest. None where there was nothing to hold, or the passes aren't in order of
/// agent afterwards.
///
/// # Errors
///
/// `NoMemory` where memory is refused.
pub fn calls_beside_a_held_dummy<L: Domain<Rule = Fifo> + Drop>(
    alloc: Global,
) -> Result<Option<HeldQueue>, Unmade>
    ensures balance { IfOk result (λ told. IfSome told (λ work. work.counts.given ≡ work.counts.reused + work.counts.linked)) }
{
    let (queue, mut passes) = new_queue::<L>(alloc, 1_024, 3)?;
    let Some((put, taken)) = by_three(&queue, &mut passes) else {
        return Ok(None);
    };
    let waiting = backlog_of_all(queue.links(), passes.as_slice());
    if !are_in_order(queue.links(), passes.as_slice()) {
        return Ok(None);
    }
    let rest = queue_at_rest(queue, passes);
    Ok(Some(HeldQueue {
        put,
        taken,
        waiting,
        counts: L::counts(&rest),
    }))
}
