//! The calls, over any domain.

ghost use Rattle.std.specs.Prelude.{◌≡◌, ◌<◌, ℕ, IfSome, length, slice_index_or};
ghost use Rattle.orc_heap.specs.Domains.{agent};
ghost use Rattle.orc_cell.specs.CellCalls.{IsUsable};
ghost use Rattle.container_tests.specs.CellPasses.{AreUsable};

use orc_cell::{Cell, CellRefused};
use orc_heap::Links;
use orc_pairs_rule::Pairs;

// What a publish and a read answer: both parts, left and right.
type Published = Result<(u64, u64), CellRefused>;

type Read = Option<(u64, u64)>;

/// What three publishes and two reads answer.
pub type Answers = (Published, Read, Published, Published, Read);

// Publishes the left part, reads, publishes both and then the right one, and reads again.
fn publish_and_read<L: Links<Rule = Pairs>>(cell: &Cell<L>, p: &mut L::Pass) -> Answers
    requires usable { IsUsable L.Links cell.now.links p.old }
    ensures usable { IsUsable L.Links cell.now.links p.new }
    ensures agent { agent L.Links cell.now.links p.new ≡ agent L.Links cell.now.links p.old }
{
    let left = cell.publish(p, Some(5), None, 64);
    let then = cell.read(p, 64).ok();
    let both = cell.publish(p, Some(1), Some(2), 64);
    let right = cell.publish(p, None, Some(9), 64);
    let last = cell.read(p, 64).ok();
    (left, then, both, right, last)
}

/// Lets the one agent do so.
pub fn one_publishes<L: Links<Rule = Pairs>>(
    cell: &Cell<L>,
    mut passes: Vec<L::Pass>,
) -> Option<(Answers, Vec<L::Pass>)>
    requires usable { AreUsable L.Links cell.now.links passes.items }
    requires one { length passes.items ≡ 1 }
    ensures usable { IfSome result (λ r. AreUsable L.Links cell.now.links r.1.items) }
    ensures one { IfSome result (λ r. length r.1.items ≡ 1) }
{
    let mut p = passes.pop()?;
    let answers = publish_and_read(cell, &mut p);
    passes.push(p).ok()?;
    Some((answers, passes))
}

/// What five publishes and a read answer, of which all but the first two stand around a part that another agent has staged.
pub type Around = (Published, bool, Published, Published, Published, Read);

// Publishes both parts; while the second agent has staged a part and stopped, both and the left one; once it has gone on, both; and reads.
fn publish_around<L: Links<Rule = Pairs>>(
    cell: &Cell<L>,
    first: &mut L::Pass,
    second: &mut L::Pass,
) -> Around
    requires first { IsUsable L.Links cell.now.links first.old }
    requires second { IsUsable L.Links cell.now.links second.old }
    ensures first { IsUsable L.Links cell.now.links first.new }
    ensures second { IsUsable L.Links cell.now.links second.new }
    ensures first_agent { agent L.Links cell.now.links first.new ≡ agent L.Links cell.now.links first.old }
    ensures second_agent { agent L.Links cell.now.links second.new ≡ agent L.Links cell.now.links second.old }
{
    let before = cell.publish(first, Some(1), Some(2), 64);
    let staged = cell.stage_and_stop(second, 7);
    let stops = staged.is_some();
    let refused = cell.publish(first, Some(3), Some(4), 64);
    let left = cell.publish(first, Some(5), None, 64);
    if let Some(part) = staged {
        cell.unstage(second, part);
    }
    let after = cell.publish(first, Some(3), Some(4), 64);
    (
        before,
        stops,
        refused,
        left,
        after,
        cell.read(second, 64).ok(),
    )
}

// Takes the last pass and lets it do so with the second one.
fn first_publishes_around<L: Links<Rule = Pairs>>(
    cell: &Cell<L>,
    passes: &mut Vec<L::Pass>,
    second: &mut L::Pass,
) -> Option<Around>
    requires usable { AreUsable L.Links cell.now.links passes.old.items }
    requires second { IsUsable L.Links cell.now.links second.old }
    ensures usable { AreUsable L.Links cell.now.links passes.new.items }
    ensures many { length passes.new.items ≡ length passes.old.items }
    ensures second { IsUsable L.Links cell.now.links second.new }
    ensures agent { agent L.Links cell.now.links second.new ≡ agent L.Links cell.now.links second.old }
{
    let mut first = passes.pop()?;
    let answers = publish_around(cell, &mut first, second);
    let Ok(()) = passes.push(first) else {
        unreachable!()
    };
    Some(answers)
}

/// Lets the two agents do so.
pub fn two_publish<L: Links<Rule = Pairs>>(
    cell: &Cell<L>,
    mut passes: Vec<L::Pass>,
) -> Option<(Around, Vec<L::Pass>)>
    requires usable { AreUsable L.Links cell.now.links passes.items }
    requires two { length passes.items ≡ 2 }
    ensures usable { IfSome result (λ r. AreUsable L.Links cell.now.links r.1.items) }
    ensures two { IfSome result (λ r. length r.1.items ≡ 2) }
{
    let mut second = passes.pop()?;
    let answers = first_publishes_around(cell, &mut passes, &mut second)?;
    passes.push(second).ok()?;
    Some((answers, passes))
}
