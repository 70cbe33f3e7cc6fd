//! A queue and its passes.

ghost use Rattle.std.specs.Prelude.{◌≡◌, ◌<◌, ◌≤◌, ◌^◌, ℕ, [], All, IfErr, IfOk, length, slice_index_or};
ghost use Rattle.orc_fifo_rule.specs.declared.fifo.FifoNote.TheVariants.{Begin};
ghost use Rattle.orc_heap.specs.{Seeds.{opening_events}, declared.seed.Seed.TheVariants.{Dummy}};
ghost use Rattle.orc_containers.specs.Unmade.{IsCauseOf, asked};
ghost use Rattle.orc_words.specs.Bounds.{bounds_of};

use crate::unmade::Unmade;
use orc_any_domain::Domain;
use orc_fault::NoMemory;
use orc_fifo_rule::{Fifo, FifoNote};
use orc_heap::Seed;
use orc_history::{LearnQueue, SharedQueue};
use orc_queue::Queue;
use orc_words::{HIGHEST_LIMIT, Shape};
use std::alloc::Global;

/// A queue over a domain of this shape, whose first job gets the position `first`, at most 2^62, and a pass for each agent, in
/// order. Over a domain that gives its rows once it takes as many jobs in its life as it has rows, less one; over one that reclaims
/// them it has room for as many at a time, less those that are still to be freed.
///
/// # Errors
///
/// `NoMemory` where memory is refused.
pub fn queue_over<L: Domain<Rule = Fifo>>(
    alloc: Global,
    shape: &Shape,
    first: u64,
) -> Result<(Queue<L>, Vec<L::Pass>), NoMemory>
    requires roots { 2 ≤ (bounds_of shape.now).roots }
    requires first { first ≤ 2 ^ 62 }
    ensures usable { IfOk result (λ made. All (λ p. ⟦<Queue<L> as SharedQueue>⟧.usable made.0 p) made.1.items) }
    ensures agents { IfOk result (λ made. (i : ℕ) (p : L.Pass) → i < length made.1.items
        → ⟦<Queue<L> as SharedQueue>⟧.agent_of made.0 (slice_index_or made.1.items i p) ≡ i) }
    ensures passes { IfOk result (λ made. length made.1.items ≡ (bounds_of shape.now).agents) }
    ensures fresh { IfOk result (λ made. All (λ p. ⟦<Queue<L> as SharedQueue>⟧.history made.0
        (⟦<Queue<L> as SharedQueue>⟧.journal p) ≡ []) made.1.items) }
    ensures all { IfOk result (λ made. ⟦<Queue<L> as LearnQueue>⟧.agents made.0 ≡ (bounds_of shape.now).agents) }
    ensures first { IfOk result (λ made. ⟦<Queue<L> as SharedQueue>⟧.first made.0 ≡ first) }
    ensures bounds { IfOk result (λ made. L.bounds made.0.links ≡ bounds_of shape.now) }
    ensures opening { IfOk result (λ made. L.opening made.0.links ≡ opening_events (Dummy first Begin)) }
{
    let seed = Seed::Dummy {
        first,
        begin: FifoNote::Begin,
    };
    let (domain, passes) = L::make(alloc, shape, seed)?;
    Ok((Queue::new(domain), passes))
}

/// An empty queue of 2 to 65,535 rows whose first job gets position 0, and a pass for each of 1 to 16 agents, in order.
///
/// # Errors
///
/// * `Shape` with the first number that is out of range.
/// * `NoMemory` where memory is refused.
pub fn new_queue<L: Domain<Rule = Fifo>>(
    alloc: Global,
    rows: u32,
    agents: u32,
) -> Result<(Queue<L>, Vec<L::Pass>), Unmade>
    ensures usable { IfOk result (λ made. All (λ p. ⟦<Queue<L> as SharedQueue>⟧.usable made.0 p) made.1.items) }
    ensures agents { IfOk result (λ made. (i : ℕ) (p : L.Pass) → i < length made.1.items
        → ⟦<Queue<L> as SharedQueue>⟧.agent_of made.0 (slice_index_or made.1.items i p) ≡ i) }
    ensures passes { IfOk result (λ made. length made.1.items ≡ agents) }
    ensures few { IfOk result (λ made. agents ≤ 16) }
    ensures fresh { IfOk result (λ made. All (λ p. ⟦<Queue<L> as SharedQueue>⟧.history made.0
        (⟦<Queue<L> as SharedQueue>⟧.journal p) ≡ []) made.1.items) }
    ensures all { IfOk result (λ made. ⟦<Queue<L> as LearnQueue>⟧.agents made.0 ≡ agents) }
    ensures first { IfOk result (λ made. ⟦<Queue<L> as SharedQueue>⟧.first made.0 ≡ 0) }
    ensures bounds { IfOk result (λ made. L.bounds made.0.links ≡ asked rows 1 2 agents) }
    ensures refused { IfErr result (IsCauseOf (asked rows 1 2 agents)) }
{
    let shape = Shape::new(rows, 2, agents, HIGHEST_LIMIT)?;
    let made = queue_over(alloc, &shape, 0)?;
    Ok(made)
}

/// Lets all passes of a queue drain, in order, and brings its domain to rest.
pub fn queue_at_rest<L: Domain<Rule = Fifo>>(queue: Queue<L>, passes: Vec<L::Pass>) -> L::Rest
    requires usable { All (λ p. ⟦<Queue<L> as SharedQueue>⟧.usable queue p) passes.items }
    requires agents { (i : ℕ) (p : L.Pass) → i < length passes.items
        → ⟦<Queue<L> as SharedQueue>⟧.agent_of queue (slice_index_or passes.items i p) ≡ i }
    requires many { length passes.items ≡ ⟦<Queue<L> as LearnQueue>⟧.agents queue }
    ensures { L.rests queue.links passes.items result }
{
    queue.into_links().end(passes)
}
