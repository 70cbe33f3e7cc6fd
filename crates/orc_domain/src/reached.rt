//! What a domain at rest has left.

ghost use Rattle.std.specs.Prelude.{◌≡◌, List, length, ℕ};
ghost use Rattle.orc_heap.specs.Journals.{run_heap};
ghost use Rattle.orc_machine_board.specs.Rules.{run_of};
ghost use Rattle.orc_projection.specs.Projection.{present_ids, project};
ghost use Rattle.orc_domain.specs.{Passes.{domain_bounds, domain_numbers}, Rest.{IsShown, rest_domain, rest_journal}};
ghost use Rattle.orc_rest.specs.{Reached.{AreTheReached, IsReached, LiesInOneRow}, Rest.{IsAtRest}, Reuse.{rows_out}};
ghost use Rattle.orc_sound.specs.Linked.{IsOut};

use crate::at_rest::OrcRest;
use orc_heap::Ranked;

/// Nothing leaks where links rise: the nodes that the roots reach are as many as the rows that are out.
pub fn what_is_left_is_reached<D: Ranked>(rest: &OrcRest<D>)
    requires shown { IsShown rest.now }
    requires rest { IsAtRest (run_of (domain_bounds (rest_domain rest.now)) (rest_journal rest.now)) }
    ensures reached { let b = domain_bounds (rest_domain rest.now) in
        let n = domain_numbers (rest_domain rest.now) in
        (r : ℕ) → IsOut (run_of b (rest_journal rest.now)) r
        → IsReached n (run_heap n (project b (rest_journal rest.now))) ((present_ids b (rest_journal rest.now)).node r) }
    ensures one_row { let b = domain_bounds (rest_domain rest.now) in
        let n = domain_numbers (rest_domain rest.now) in
        (id : ℕ) → IsReached n (run_heap n (project b (rest_journal rest.now))) id
        → LiesInOneRow (run_of b (rest_journal rest.now)) (present_ids b (rest_journal rest.now)) id }
    ensures linked { let b = domain_bounds (rest_domain rest.now) in
        let n = domain_numbers (rest_domain rest.now) in
        (ids : List ℕ) × AreTheReached n (run_heap n (project b (rest_journal rest.now))) ids × (length ids ≡ rows_out (run_of b (rest_journal rest.now))) }
{}
