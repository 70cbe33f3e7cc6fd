//! One agent stops in the middle of a call, and another goes on.

ghost use Rattle.std.specs.Prelude.{◌≡◌, ◌<◌, ℕ, All, length, slice_index_or};

use crate::passes::{two_list_passes, two_passes};
use orc_chain_rule::Chain;
use orc_containers::{Domain, Unmade, new_list, queue_over};
use orc_fifo_rule::Fifo;
use orc_heap::Links;
use orc_history::{QueueRefused, SharedQueue, SharedSet};
use orc_queue::Queue;
use orc_set::Set;
use orc_words::{HIGHEST_LIMIT, Shape};
use std::alloc::Global;

/// Whether, in a new queue whose rows have so many links, a put that found the tail behind helped it on, in a turn of its own: with
/// one turn it used that up, and with two it put its job behind the one that had been left.
///
/// # Errors
///
/// * `Shape` where rows can't have so many links.
/// * `NoMemory` where memory is refused.
pub fn helps_a_lagging_tail_on<L: Domain<Rule = Fifo> + Drop>(
    alloc: Global,
    links: u32,
) -> Result<bool, Unmade> {
    let shape = Shape::with_links(8, 2, 2, HIGHEST_LIMIT, links)?;
    let (queue, passes) = queue_over::<L>(alloc, &shape, 0)?;
    Ok(helps_the_tail_on(&queue, passes))
}

// Whether a put into a queue from position 0 on does so.
fn helps_the_tail_on<L: Links<Rule = Fifo>>(queue: &Queue<L>, passes: Vec<L::Pass>) -> bool
    requires usable { All (λ p. ⟦<Queue<L> as SharedQueue>⟧.usable queue.now p) passes.items }
    requires agents { (i : ℕ) (p : L.Pass) → i < length passes.items
        → ⟦<Queue<L> as SharedQueue>⟧.agent_of queue.now (slice_index_or passes.items i p) ≡ i }
{
    let Some((mut first, mut second)) = two_passes(queue, passes) else {
        return false;
    };
    let stopped = queue.put_and_stop(&mut second, 5);
    let helped = queue.enqueue(&mut first, 6, 1);
    let put = queue.enqueue(&mut first, 6, 1);
    let stopped_again = queue.put_and_stop(&mut second, 7);
    let put_again = queue.enqueue(&mut first, 8, 2);
    let taken = queue.dequeue(&mut first, 2);
    stopped == Some(0)
        && helped == Err(QueueRefused::Again)
        && put == Ok(1)
        && stopped_again == Some(2)
        && put_again == Ok(3)
        && taken == Ok(Some((5, 0)))
}

/// Whether, in an empty list, an insert went past two nodes that were marked and still linked, in one turn.
///
/// # Errors
///
/// `NoMemory` where memory is refused.
pub fn goes_past_marked_nodes<L: Domain<Rule = Chain> + Drop>(
    alloc: Global,
) -> Result<bool, Unmade> {
    let (list, passes) = new_list::<L>(alloc, 8, 2)?;
    Ok(goes_past_two_marked(&list, passes))
}

// Whether an insert into an empty list does so.
fn goes_past_two_marked<L: Links<Rule = Chain>>(list: &Set<L>, passes: Vec<L::Pass>) -> bool
    requires usable { All (λ p. ⟦<Set<L> as SharedSet>⟧.usable list.now p) passes.items }
    requires agents { (i : ℕ) (p : L.Pass) → i < length passes.items
        → ⟦<Set<L> as SharedSet>⟧.agent_of list.now (slice_index_or passes.items i p) ≡ i }
{
    let Some((mut first, mut second)) = two_list_passes(list, passes) else {
        return false;
    };
    add_past_marked_nodes(list, &mut first, &mut second) && are_these_left(list, &mut first)
}

// Adds 3, 5 and 9, leaves 3 and 5 marked, and adds 4.
fn add_past_marked_nodes<L: Links<Rule = Chain>>(
    list: &Set<L>,
    first: &mut L::Pass,
    second: &mut L::Pass,
) -> bool
    requires first { ⟦<Set<L> as SharedSet>⟧.usable list.now first.old }
    requires second { ⟦<Set<L> as SharedSet>⟧.usable list.now second.old }
    ensures first { ⟦<Set<L> as SharedSet>⟧.usable list.now first.new }
    ensures second { ⟦<Set<L> as SharedSet>⟧.usable list.now second.new }
{
    let three = list.insert(first, 3, 2);
    let five = list.insert(first, 5, 2);
    let nine = list.insert(first, 9, 2);
    let marked = list.mark_and_stop(second, 3);
    let marked_too = list.mark_and_stop(second, 5);
    let four = list.insert(first, 4, 1);
    (three, five, nine) == (Ok(true), Ok(true), Ok(true))
        && marked
        && marked_too
        && four == Ok(true)
}

// Whether 4 and 9 are left, and 3 and 5 aren't.
fn are_these_left<S: SharedSet>(set: &S, p: &mut S::Pass) -> bool
    requires { S.usable set.now p.old }
    ensures { S.usable set.now p.new }
{
    let three = set.contains(p, 3, 1);
    let five = set.contains(p, 5, 1);
    let four = set.contains(p, 4, 1);
    let nine = set.contains(p, 9, 1);
    (three, four, five, nine) == (Ok(false), Ok(true), Ok(false), Ok(true))
}
