//! A split-ordered set and its passes.

ghost use Rattle.std.specs.Prelude.{◌≡◌, ◌+◌, ◌<◌, ◌≤◌, ℕ, [], All, IfErr, IfOk, length, slice_index_or};
ghost use Rattle.orc_split_rule.specs.SplitDiscipline.{IsSize};
ghost use Rattle.orc_containers.specs.Unmade.{IsCauseOf, asked};
ghost use Rattle.orc_words.specs.Bounds.{bounds_of};

use crate::unmade::Unmade;
use orc_any_domain::Domain;
use orc_fault::NoMemory;
use orc_heap::Seed;
use orc_history::{LearnSet, SharedSet};
use orc_split_rule::Split;
use orc_split_set::SplitSet;
use orc_words::{HIGHEST_LIMIT, Shape};
use std::alloc::Global;

/// An empty set over a domain of this shape, which doubles its buckets up to the `greatest` number of them, a power of two up to
/// 256 and one less than there are roots; and a pass for each agent, in order.
///
/// # Errors
///
/// `NoMemory` where memory is refused.
pub fn split_set_over<L: Domain<Rule = Split>>(
    alloc: Global,
    shape: &Shape,
    greatest: u32,
) -> Result<(SplitSet<L>, Vec<L::Pass>), NoMemory>
    requires size { IsSize 256 greatest }
    requires roots { (bounds_of shape.now).roots ≡ greatest + 1 }
    ensures usable { IfOk result (λ made. All (λ p. ⟦<SplitSet<L> as SharedSet>⟧.usable made.0 p) made.1.items) }
    ensures agents { IfOk result (λ made. (i : ℕ) (p : L.Pass) → i < length made.1.items
        → ⟦<SplitSet<L> as SharedSet>⟧.agent_of made.0 (slice_index_or made.1.items i p) ≡ i) }
    ensures passes { IfOk result (λ made. length made.1.items ≡ (bounds_of shape.now).agents) }
    ensures fresh { IfOk result (λ made. All (λ p. ⟦<SplitSet<L> as SharedSet>⟧.history made.0
        (⟦<SplitSet<L> as SharedSet>⟧.journal p) ≡ []) made.1.items) }
    ensures all { IfOk result (λ made. ⟦<SplitSet<L> as LearnSet>⟧.agents made.0 ≡ (bounds_of shape.now).agents) }
    ensures bounds { IfOk result (λ made. L.bounds made.0.links ≡ bounds_of shape.now) }
    ensures opening { IfOk result (λ made. L.opening made.0.links ≡ []) }
{
    let (domain, passes) = L::make(alloc, shape, Seed::Empty)?;
    Ok((SplitSet::new(domain, greatest), passes))
}

/// An empty set of 2 to 65,535 rows, which doubles its buckets up to the `greatest` number of them, a power of two up to 256; and a
/// pass for each of 1 to 16 agents, in order.
///
/// # Errors
///
/// * `Shape` with the first number that is out of range.
/// * `NoMemory` where memory is refused.
pub fn new_split_set<L: Domain<Rule = Split>>(
    alloc: Global,
    rows: u32,
    agents: u32,
    greatest: u32,
) -> Result<(SplitSet<L>, Vec<L::Pass>), Unmade>
    requires { IsSize 256 greatest }
    ensures usable { IfOk result (λ made. All (λ p. ⟦<SplitSet<L> as SharedSet>⟧.usable made.0 p) made.1.items) }
    ensures agents { IfOk result (λ made. (i : ℕ) (p : L.Pass) → i < length made.1.items
        → ⟦<SplitSet<L> as SharedSet>⟧.agent_of made.0 (slice_index_or made.1.items i p) ≡ i) }
    ensures passes { IfOk result (λ made. length made.1.items ≡ agents) }
    ensures few { IfOk result (λ made. agents ≤ 16) }
    ensures fresh { IfOk result (λ made. All (λ p. ⟦<SplitSet<L> as SharedSet>⟧.history made.0
        (⟦<SplitSet<L> as SharedSet>⟧.journal p) ≡ []) made.1.items) }
    ensures all { IfOk result (λ made. ⟦<SplitSet<L> as LearnSet>⟧.agents made.0 ≡ agents) }
    ensures bounds { IfOk result (λ made. L.bounds made.0.links ≡ asked rows 1 (greatest + 1) agents) }
    ensures refused { IfErr result (IsCauseOf (asked rows 1 (greatest + 1) agents)) }
{
    let shape = Shape::new(rows, greatest + 1, agents, HIGHEST_LIMIT)?;
    let made = split_set_over(alloc, &shape, greatest)?;
    Ok(made)
}

/// Lets all passes of a set drain, in order, and brings its domain to rest.
pub fn split_set_at_rest<L: Domain<Rule = Split>>(set: SplitSet<L>, passes: Vec<L::Pass>) -> L::Rest
    requires usable { All (λ p. ⟦<SplitSet<L> as SharedSet>⟧.usable set p) passes.items }
    requires agents { (i : ℕ) (p : L.Pass) → i < length passes.items
        → ⟦<SplitSet<L> as SharedSet>⟧.agent_of set (slice_index_or passes.items i p) ≡ i }
    requires many { length passes.items ≡ ⟦<SplitSet<L> as LearnSet>⟧.agents set }
    ensures { L.rests set.links passes.items result }
{
    set.into_links().end(passes)
}
