//! The cell of a watch, and its passes.

ghost use Rattle.std.specs.Prelude.{◌≡◌, ◌≤◌, IfOk, length};
ghost use Rattle.orc_at_rest.specs.Domains.{IsMadeSo, empty_seed};
ghost use Rattle.orc_watch_domain.specs.Cells.{cell_bounds};
ghost use Rattle.orc_watch_run.specs.Passes.{AreFresh};
ghost use Rattle.orc_words.specs.Bounds.{bounds_of};

use orc_any_domain::Domain;
use orc_cell::Cell;
use orc_containers::cell_over;
use orc_fault::NoMemory;
use orc_pairs_rule::Pairs;
use orc_words::{HIGHEST_LIMIT, Shape};
use std::alloc::Global;

// The shape of a cell's domain with so many rows and agents.
fn shape_of(rows: u32, agents: u32) -> Shape
    requires rows { (2 ≤ rows) × (rows ≤ 65535) }
    requires agents { (1 ≤ agents) × (agents ≤ 16) }
    ensures { bounds_of result ≡ cell_bounds rows agents }
{
    let Ok(shape) = Shape::with_links(rows, 1 + 2 * agents, agents, HIGHEST_LIMIT, 2) else {
        unreachable!()
    };
    shape
}

// Makes a cell of so many rows, and a pass for each agent, in order.
pub(crate) fn make_cell<L: Domain<Rule = Pairs>>(
    alloc: Global,
    rows: u32,
    agents: u32,
) -> Result<(Cell<L>, Vec<L::Pass>), NoMemory>
    requires rows { (2 ≤ rows) × (rows ≤ 65535) }
    requires agents { (1 ≤ agents) × (agents ≤ 16) }
    ensures fresh { IfOk result (λ made. AreFresh L.Links made.0.links 0 made.1.items) }
    ensures passes { IfOk result (λ made. length made.1.items ≡ agents) }
    ensures agents { IfOk result (λ made. L.agents made.0.links ≡ agents) }
    ensures made { IfOk result (λ made. IsMadeSo L.Links L.bounds (cell_bounds rows agents) empty_seed made.0.links) }
{
    let (cell, passes) = cell_over(alloc, &shape_of(rows, agents))?;
    Ok((cell, passes))
}
