//! Two agents that learn from each other.

ghost use Rattle.std.specs.Prelude.{◌≡◌, ◌<◌, ℕ, All, length, slice_index_or};

use crate::passes::{two_list_passes, two_passes};
use orc_chain_rule::Chain;
use orc_containers::{Domain, Unmade, new_list, new_queue};
use orc_fifo_rule::Fifo;
use orc_history::{LearnQueue, LearnSet};
use std::alloc::Global;

/// Whether, in a new queue, each of two agents took what the other had put, once it had learned from it.
///
/// # Errors
///
/// `NoMemory` where memory is refused.
pub fn each_takes_the_others<L: Domain<Rule = Fifo> + Drop>(alloc: Global) -> Result<bool, Unmade> {
    let (queue, passes) = new_queue::<L>(alloc, 8, 2)?;
    Ok(take_each_others(&queue, passes))
}

// Whether each of two agents of a queue from position 0 on takes what the other has put.
fn take_each_others<Q: LearnQueue>(queue: &Q, passes: Vec<Q::Pass>) -> bool
    requires usable { All (λ p. Q.usable queue.now p) passes.items }
    requires agents { (i : ℕ) (p : Q.Pass) → i < length passes.items → Q.agent_of queue.now (slice_index_or passes.items i p) ≡ i }
{
    let Some((mut first, mut second)) = two_passes(queue, passes) else {
        return false;
    };
    let one = queue.enqueue(&mut first, 3, 2);
    queue.learn(&mut second, &mut first);
    let two = queue.enqueue(&mut second, 4, 2);
    queue.learn(&mut first, &mut second);
    let second_took = queue.dequeue(&mut second, 2);
    let first_took = queue.dequeue(&mut first, 2);
    one == Ok(0)
        && two == Ok(1)
        && second_took == Ok(Some((3, 0)))
        && first_took == Ok(Some((4, 1)))
}

/// Whether, in an empty list, each of two agents saw what the other had added or taken out, once it had learned from it.
///
/// # Errors
///
/// `NoMemory` where memory is refused.
pub fn each_sees_the_others<L: Domain<Rule = Chain> + Drop>(alloc: Global) -> Result<bool, Unmade> {
    let (list, passes) = new_list::<L>(alloc, 8, 2)?;
    Ok(see_each_others(&list, passes))
}

// Whether each of two agents of an empty set sees what the other adds and takes out.
fn see_each_others<S: LearnSet>(set: &S, passes: Vec<S::Pass>) -> bool
    requires usable { All (λ p. S.usable set.now p) passes.items }
    requires agents { (i : ℕ) (p : S.Pass) → i < length passes.items → S.agent_of set.now (slice_index_or passes.items i p) ≡ i }
{
    let Some((mut first, mut second)) = two_list_passes(set, passes) else {
        return false;
    };
    let added = set.insert(&mut first, 3, 1);
    set.learn(&mut second, &mut first);
    let again = set.insert(&mut second, 3, 1);
    let taken_out = set.remove(&mut second, 3, 1);
    let other = set.insert(&mut second, 20, 1);
    set.learn(&mut first, &mut second);
    let found = set.contains(&mut first, 3, 1);
    let other_out = set.remove(&mut first, 20, 1);
    let first_key = (added, again, taken_out, found);
    first_key == (Ok(true), Ok(false), Ok(true), Ok(false))
        && other == Ok(true)
        && other_out == Ok(true)
}
