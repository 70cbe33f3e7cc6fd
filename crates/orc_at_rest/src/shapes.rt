//! The sizes of a run's domains.

ghost use Rattle.std.specs.Prelude.{◌≡◌, ◌≤◌};
ghost use Rattle.orc_words.specs.Bounds.{bounds_of};
ghost use Rattle.orc_at_rest.specs.Domains.{run_bounds};

use orc_words::{HIGHEST_LIMIT, Shape};

/// The shape of a domain with 2 to 65,535 rows, 1 to 257 roots and 1 to 16 agents, whose rows don't wear out in practice.
pub fn shape_of(rows: u32, roots: u32, agents: u32) -> Shape
    requires rows { (2 ≤ rows) × (rows ≤ 65535) }
    requires roots { (1 ≤ roots) × (roots ≤ 257) }
    requires agents { (1 ≤ agents) × (agents ≤ 16) }
    ensures { bounds_of result ≡ run_bounds rows roots agents }
{
    let Ok(shape) = Shape::new(rows, roots, agents, HIGHEST_LIMIT) else {
        unreachable!()
    };
    shape
}
