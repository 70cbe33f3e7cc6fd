//! A set of sorted lists and its passes; one list is a set with one bucket.

ghost use Rattle.std.specs.Prelude.{◌≡◌, ◌<◌, ◌≤◌, ℕ, [], All, IfErr, IfOk, length, slice_index_or};
ghost use Rattle.orc_containers.specs.Unmade.{IsCauseOf, asked};
ghost use Rattle.orc_words.specs.Bounds.{bounds_of};

use crate::unmade::Unmade;
use orc_any_domain::Domain;
use orc_chain_rule::Chain;
use orc_fault::NoMemory;
use orc_heap::Seed;
use orc_history::{LearnSet, SharedSet};
use orc_list::List;
use orc_set::Set;
use orc_words::{HIGHEST_LIMIT, Shape};
use std::alloc::Global;

/// An empty set over a domain of this shape, with a bucket for each of its roots, and a pass for each agent, in order.
///
/// # Errors
///
/// `NoMemory` where memory is refused.
pub fn set_over<L: Domain<Rule = Chain>>(
    alloc: Global,
    shape: &Shape,
) -> Result<(Set<L>, Vec<L::Pass>), NoMemory>
    ensures usable { IfOk result (λ made. All (λ p. ⟦<Set<L> as SharedSet>⟧.usable made.0 p) made.1.items) }
    ensures agents { IfOk result (λ made. (i : ℕ) (p : L.Pass) → i < length made.1.items
        → ⟦<Set<L> as SharedSet>⟧.agent_of made.0 (slice_index_or made.1.items i p) ≡ i) }
    ensures passes { IfOk result (λ made. length made.1.items ≡ (bounds_of shape.now).agents) }
    ensures fresh { IfOk result (λ made. All (λ p. ⟦<Set<L> as SharedSet>⟧.history made.0
        (⟦<Set<L> as SharedSet>⟧.journal p) ≡ []) made.1.items) }
    ensures all { IfOk result (λ made. ⟦<Set<L> as LearnSet>⟧.agents made.0 ≡ (bounds_of shape.now).agents) }
    ensures bounds { IfOk result (λ made. L.bounds made.0.list.links ≡ bounds_of shape.now) }
    ensures opening { IfOk result (λ made. L.opening made.0.list.links ≡ []) }
{
    let (domain, passes) = L::make(alloc, shape, Seed::Empty)?;
    let list = List::new(domain);
    let set = Set::new(list, shape.roots());
    Ok((set, passes))
}

/// An empty set of 2 to 65,535 rows and 1 to 257 buckets, and a pass for each of 1 to 16 agents, in order.
///
/// # Errors
///
/// * `Shape` with the first number that is out of range.
/// * `NoMemory` where memory is refused.
pub fn new_set<L: Domain<Rule = Chain>>(
    alloc: Global,
    rows: u32,
    agents: u32,
    buckets: u32,
) -> Result<(Set<L>, Vec<L::Pass>), Unmade>
    ensures usable { IfOk result (λ made. All (λ p. ⟦<Set<L> as SharedSet>⟧.usable made.0 p) made.1.items) }
    ensures agents { IfOk result (λ made. (i : ℕ) (p : L.Pass) → i < length made.1.items
        → ⟦<Set<L> as SharedSet>⟧.agent_of made.0 (slice_index_or made.1.items i p) ≡ i) }
    ensures passes { IfOk result (λ made. length made.1.items ≡ agents) }
    ensures few { IfOk result (λ made. agents ≤ 16) }
    ensures fresh { IfOk result (λ made. All (λ p. ⟦<Set<L> as SharedSet>⟧.history made.0
        (⟦<Set<L> as SharedSet>⟧.journal p) ≡ []) made.1.items) }
    ensures all { IfOk result (λ made. ⟦<Set<L> as LearnSet>⟧.agents made.0 ≡ agents) }
    ensures bounds { IfOk result (λ made. L.bounds made.0.list.links ≡ asked rows 1 buckets agents) }
    ensures refused { IfErr result (IsCauseOf (asked rows 1 buckets agents)) }
{
    let shape = Shape::new(rows, buckets, agents, HIGHEST_LIMIT)?;
    let made = set_over(alloc, &shape)?;
    Ok(made)
}

/// An empty list: a set of one bucket, as `new_set` makes it.
///
/// # Errors
///
/// As of `new_set`.
pub fn new_list<L: Domain<Rule = Chain>>(
    alloc: Global,
    rows: u32,
    agents: u32,
) -> Result<(Set<L>, Vec<L::Pass>), Unmade>
    ensures usable { IfOk result (λ made. All (λ p. ⟦<Set<L> as SharedSet>⟧.usable made.0 p) made.1.items) }
    ensures agents { IfOk result (λ made. (i : ℕ) (p : L.Pass) → i < length made.1.items
        → ⟦<Set<L> as SharedSet>⟧.agent_of made.0 (slice_index_or made.1.items i p) ≡ i) }
    ensures passes { IfOk result (λ made. length made.1.items ≡ agents) }
    ensures few { IfOk result (λ made. agents ≤ 16) }
    ensures fresh { IfOk result (λ made. All (λ p. ⟦<Set<L> as SharedSet>⟧.history made.0
        (⟦<Set<L> as SharedSet>⟧.journal p) ≡ []) made.1.items) }
    ensures all { IfOk result (λ made. ⟦<Set<L> as LearnSet>⟧.agents made.0 ≡ agents) }
    ensures bounds { IfOk result (λ made. L.bounds made.0.list.links ≡ asked rows 1 1 agents) }
    ensures refused { IfErr result (IsCauseOf (asked rows 1 1 agents)) }
{
    new_set(alloc, rows, agents, 1)
}

/// Lets all passes of a set drain, in order, and brings its domain to rest.
pub fn set_at_rest<L: Domain<Rule = Chain>>(set: Set<L>, passes: Vec<L::Pass>) -> L::Rest
    requires usable { All (λ p. ⟦<Set<L> as SharedSet>⟧.usable set p) passes.items }
    requires agents { (i : ℕ) (p : L.Pass) → i < length passes.items
        → ⟦<Set<L> as SharedSet>⟧.agent_of set (slice_index_or passes.items i p) ≡ i }
    requires many { length passes.items ≡ ⟦<Set<L> as LearnSet>⟧.agents set }
    ensures { L.rests set.list.links passes.items result }
{
    set.into_links().end(passes)
}
