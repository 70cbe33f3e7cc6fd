//! Sets and queues are called, call by call, and their answers held to those that are wanted.

ghost use Rattle.std.specs.Prelude.{◌≡◌, ◌<◌, ◌≤◌, ◌^◌, ℕ, All, length, slice_index_or};
ghost use Rattle.orc_words.specs.Bounds.{bounds_of};

use crate::passes::{next_list_pass, next_pass};
use orc_chain_rule::Chain;
use orc_containers::{Domain, queue_over, set_over};
use orc_fault::{Again, NoMemory};
use orc_fifo_rule::Fifo;
use orc_history::{ListRefused, QueueRefused, SharedQueue, SharedSet};
use orc_words::Shape;
use std::alloc::Global;

/// A call of a set with this key, and the answer that is wanted.
#[derive(Clone, Copy, Drop)]
pub enum SetCase {
    Insert(u64, Result<bool, ListRefused>),
    Remove(u64, Result<bool, Again>),
    Contains(u64, Result<bool, Again>),
}

// Whether the call, with so many turns, is answered so.
pub(crate) fn set_answers<S: SharedSet>(
    set: &S,
    p: &mut S::Pass,
    turns: u64,
    case: &SetCase,
) -> bool
    requires { S.usable set.now p.old }
    ensures usable { S.usable set.now p.new }
    ensures agent { S.agent_of set.now p.new ≡ S.agent_of set.now p.old }
{
    match case {
        SetCase::Insert(key, wanted) => set.insert(p, *key, turns) == *wanted,
        SetCase::Remove(key, wanted) => set.remove(p, *key, turns) == *wanted,
        SetCase::Contains(key, wanted) => set.contains(p, *key, turns) == *wanted,
    }
}

// The place of the first call that isn't answered so, where the last of the agents makes each with so many turns.
fn other_answer_of<S: SharedSet>(
    set: &S,
    mut passes: Vec<S::Pass>,
    cases: &[(u64, SetCase)],
) -> Option<usize>
    requires usable { All (λ p. S.usable set.now p) passes.items }
    requires agents { (i : ℕ) (p : S.Pass) → i < length passes.items → S.agent_of set.now (slice_index_or passes.items i p) ≡ i }
{
    let Some(mut pass) = next_list_pass(set, &mut passes) else {
        return Some(0);
    };
    for place in 0..cases.len() {
        let (turns, case) = &cases[place];
        if !set_answers(set, &mut pass, *turns, case) {
            return Some(place);
        }
    }
    None
}

/// In an empty set over a domain of this shape, the place of the first call that isn't answered so, where the last of the agents
/// makes each with so many turns.
///
/// # Errors
///
/// `NoMemory` where memory is refused.
pub fn first_other_answer<L: Domain<Rule = Chain> + Drop>(
    alloc: Global,
    shape: &Shape,
    cases: &[(u64, SetCase)],
) -> Result<Option<usize>, NoMemory> {
    let (set, passes) = set_over::<L>(alloc, shape)?;
    set.members();
    let place = other_answer_of(&set, passes, cases);
    let _domain = set.into_links();
    Ok(place)
}

/// A put of this job, or a take, and the answer that is wanted.
#[derive(Clone, Copy, Drop)]
pub enum QueueCase {
    Put(u64, Result<u64, QueueRefused>),
    Take(Result<Option<(u64, u64)>, Again>),
}

// Whether the call, with so many turns, is answered so.
pub(crate) fn queue_answers<Q: SharedQueue>(
    queue: &Q,
    p: &mut Q::Pass,
    turns: u64,
    case: &QueueCase,
) -> bool
    requires { Q.usable queue.now p.old }
    ensures { Q.usable queue.now p.new }
{
    match case {
        QueueCase::Put(job, wanted) => queue.enqueue(p, *job, turns) == *wanted,
        QueueCase::Take(wanted) => queue.dequeue(p, turns) == *wanted,
    }
}

// The place of the first call that isn't answered so, where the last of the agents makes each with so many turns.
fn other_reply_of<Q: SharedQueue>(
    queue: &Q,
    mut passes: Vec<Q::Pass>,
    cases: &[(u64, QueueCase)],
) -> Option<usize>
    requires usable { All (λ p. Q.usable queue.now p) passes.items }
    requires agents { (i : ℕ) (p : Q.Pass) → i < length passes.items → Q.agent_of queue.now (slice_index_or passes.items i p) ≡ i }
{
    let Some(mut pass) = next_pass(queue, &mut passes) else {
        return Some(0);
    };
    for place in 0..cases.len() {
        let (turns, case) = &cases[place];
        if !queue_answers(queue, &mut pass, *turns, case) {
            return Some(place);
        }
    }
    None
}

/// In an empty queue over a domain of this shape, whose first job gets the position `first`, the place of the first call that isn't
/// answered so, where the last of the agents makes each with so many turns.
///
/// # Errors
///
/// `NoMemory` where memory is refused.
pub fn first_other_reply<L: Domain<Rule = Fifo> + Drop>(
    alloc: Global,
    shape: &Shape,
    first: u64,
    cases: &[(u64, QueueCase)],
) -> Result<Option<usize>, NoMemory>
    requires roots { 2 ≤ (bounds_of shape.now).roots }
    requires first { first ≤ 2 ^ 62 }
{
    let (queue, passes) = queue_over::<L>(alloc, shape, first)?;
    queue.members();
    Ok(other_reply_of(&queue, passes, cases))
}
