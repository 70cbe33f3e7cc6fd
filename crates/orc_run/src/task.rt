//! What is asked of a run, whatever its set.

ghost use Rattle.std.specs.Prelude.{◌≡◌, ◌≤◌};
ghost use Rattle.orc_words.specs.Bounds.{bounds_of};
ghost use Rattle.orc_at_rest.specs.Domains.{agents_of, run_bounds};

use orc_at_rest::shape_of;
use orc_jobs::Lines;
use orc_words::Shape;

/// The lines of a run, how many posters (1 to 8) and takers (0 to 7) work through them, and how many rows (2 to 65,535) each container
/// has.
#[derive(Drop)]
pub struct Task<'a> {
    pub lines: &'a Lines,
    pub posters: u32,
    pub takers: u32,
    pub rows: u32,
    ghost some_posters: { (1 ≤ posters) × (posters ≤ 8) },
    ghost few_takers: { takers ≤ 7 },
    ghost some_rows: { (2 ≤ rows) × (rows ≤ 65535) },
}

impl Task<'_> {
    // The sizes of a domain of the run that has so many roots.
    pub(crate) fn shape(&self, roots: u32) -> Shape
        requires { (1 ≤ roots) × (roots ≤ 257) }
        ensures sizes { bounds_of result ≡ run_bounds self.now.rows roots (agents_of self.now.posters self.now.takers) }
        ensures agents { (bounds_of result).agents ≡ agents_of self.now.posters self.now.takers }
        ensures roots { (bounds_of result).roots ≡ roots }
    {
        shape_of(self.rows, roots, 1 + self.posters + self.takers)
    }
}
