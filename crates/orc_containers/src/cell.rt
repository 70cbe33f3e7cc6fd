//! A cell of two parts and its passes.

ghost use Rattle.std.specs.Prelude.{◌≡◌, ◌+◌, ◌*◌, ◌<◌, ◌≤◌, ℕ, [], All, IfErr, IfOk, length, min, slice_index_or};
ghost use Rattle.orc_cell.specs.CellCalls.{IsUsable, history};
ghost use Rattle.orc_heap.specs.Domains.{agent};
ghost use Rattle.orc_containers.specs.Unmade.{IsCauseOf, asked};
ghost use Rattle.orc_words.specs.Bounds.{bounds_of};

use crate::unmade::Unmade;
use orc_any_domain::Domain;
use orc_cell::Cell;
use orc_fault::NoMemory;
use orc_heap::Seed;
use orc_pairs_rule::Pairs;
use orc_words::{HIGHEST_LIMIT, Shape};
use std::alloc::Global;

/// How many agents a domain has at most.
const MOST_AGENTS: u32 = 16;

/// A cell over a domain of this shape, whose rows have two links and which has 1 + 2 × agents roots, and a pass for each agent, in
/// order. It starts as (0, 0).
///
/// # Errors
///
/// `NoMemory` where memory is refused.
pub fn cell_over<L: Domain<Rule = Pairs>>(
    alloc: Global,
    shape: &Shape,
) -> Result<(Cell<L>, Vec<L::Pass>), NoMemory>
    requires links { (bounds_of shape.now).links ≡ 2 }
    requires roots { (bounds_of shape.now).roots ≡ 1 + 2 * (bounds_of shape.now).agents }
    ensures usable { IfOk result (λ made. All (λ p. IsUsable L.Links made.0.links p) made.1.items) }
    ensures agents { IfOk result (λ made. (i : ℕ) (p : L.Pass) → i < length made.1.items
        → agent L.Links made.0.links (slice_index_or made.1.items i p) ≡ i) }
    ensures passes { IfOk result (λ made. length made.1.items ≡ (bounds_of shape.now).agents) }
    ensures fresh { IfOk result (λ made. All (λ p. history L.Links made.0.links p ≡ []) made.1.items) }
    ensures all { IfOk result (λ made. L.agents made.0.links ≡ (bounds_of shape.now).agents) }
    ensures bounds { IfOk result (λ made. L.bounds made.0.links ≡ bounds_of shape.now) }
    ensures opening { IfOk result (λ made. L.opening made.0.links ≡ []) }
{
    let (domain, passes) = L::make(alloc, shape, Seed::Empty)?;
    Ok((Cell::new(domain), passes))
}

/// A cell of 2 to 65,535 rows, and a pass for each of 1 to 16 agents, in order. It starts as (0, 0).
///
/// # Errors
///
/// * `Shape` with the first number that is out of range.
/// * `NoMemory` where memory is refused.
pub fn new_cell<L: Domain<Rule = Pairs>>(
    alloc: Global,
    rows: u32,
    agents: u32,
) -> Result<(Cell<L>, Vec<L::Pass>), Unmade>
    ensures usable { IfOk result (λ made. All (λ p. IsUsable L.Links made.0.links p) made.1.items) }
    ensures agents { IfOk result (λ made. (i : ℕ) (p : L.Pass) → i < length made.1.items
        → agent L.Links made.0.links (slice_index_or made.1.items i p) ≡ i) }
    ensures passes { IfOk result (λ made. length made.1.items ≡ agents) }
    ensures few { IfOk result (λ made. agents ≤ 16) }
    ensures fresh { IfOk result (λ made. All (λ p. history L.Links made.0.links p ≡ []) made.1.items) }
    ensures all { IfOk result (λ made. L.agents made.0.links ≡ agents) }
    ensures bounds { IfOk result (λ made. L.bounds made.0.links ≡ asked rows 2 (1 + 2 * agents) agents) }
    ensures refused { IfErr result (IsCauseOf (asked rows 2 (1 + 2 * min agents 16) agents)) }
{
    let roots = 1 + 2 * agents.min(MOST_AGENTS);
    let shape = Shape::with_links(rows, roots, agents, HIGHEST_LIMIT, 2)?;
    let made = cell_over(alloc, &shape)?;
    Ok(made)
}

/// Lets all passes of a cell drain, in order, and brings its domain to rest.
pub fn cell_at_rest<L: Domain<Rule = Pairs>>(cell: Cell<L>, passes: Vec<L::Pass>) -> L::Rest
    requires usable { All (λ p. IsUsable L.Links cell.links p) passes.items }
    requires agents { (i : ℕ) (p : L.Pass) → i < length passes.items → agent L.Links cell.links (slice_index_or passes.items i p) ≡ i }
    requires many { length passes.items ≡ L.agents cell.links }
    ensures { L.rests cell.links passes.items result }
{
    cell.into_links().end(passes)
}
