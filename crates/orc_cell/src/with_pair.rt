//! A publish whose parts are staged: the new pair is given, published and let go.

ghost use Rattle.std.specs.Prelude.{Err, IfErr, None, Some, [], false, length, ℕ, ◌*◌, ◌+◌, ◌<◌, ◌≡◌, ◌≢◌, ◌⊎◌};
ghost use mathlib.Core.List.{IsPrefix};
ghost use Rattle.orc_heap.specs.{
  Domains.{MakesAtMost},
  Slots.{IsFree},
  OwnEvents.{Only},
  Heap.{null, shown},
  Seats.{IsIdle, heap_of},
  declared.events.Place.{Place},
};
ghost use Rattle.orc_history.specs.Parts.{part_begin};
ghost use Rattle.orc_cell.specs.{
  Answers.{PublishAnswers},
  Causes.{CausedInPart, CausedWithin},
  Publishes.{IsPublished, SideHeld, events_of_turns, given_of, nodes_for, part_count, staging_root},
  Turns.{FindsOnly, IsCellDomain},
  declared.publish.Half.{Half},
  declared.refused.CellRefused.{CellRefused},
};

use crate::new_parts::{Staging, let_go, ready};
use crate::publish::{New, PublishTurn, publish_given};
use crate::read::PAIR;
use crate::refused::CellRefused;
use orc_heap::{At, Links, Want};
use orc_pairs_rule::Pairs;

// Publishes a pair of these parts, in at most so many turns.
pub(crate) fn publish_pair<L: Links<Rule = Pairs>>(
    links: &L,
    p: &mut L::Pass,
    left: &New,
    right: &New,
    turns: u64,
) -> Result<(u64, u64), CellRefused>
    requires pass { L.belongs links.now p.old }
    requires made { IsCellDomain (L.numbers links.now) (L.agents links.now) (L.opening links.now) }
    requires no_fresh { (L.seat links.now p.old).fresh ≡ None }
    requires left { SideHeld (L.numbers links.now) (staging_root Half.Left (L.seat links.now p.old).agent) left.now (L.seat links.now p.old) }
    requires right { SideHeld (L.numbers links.now) (staging_root Half.Right (L.seat links.now p.old).agent) right.now (L.seat links.now p.old) }
    requires slots { IsFree (L.seat links.now p.old).slots 3 × IsFree (L.seat links.now p.old).slots 4 × IsFree (L.seat links.now p.old).slots 5 }
    ensures pass { L.belongs links.now p.new }
    ensures later { IsPrefix (L.journal p.old) (L.journal p.new) }
    ensures tries { MakesAtMost L.Links links.now (3 + events_of_turns turns (given_of left.now) (given_of right.now)) p.old p.new }
    ensures answered { PublishAnswers (L.numbers links.now) 1 turns (given_of left.now) (given_of right.now) (L.seat links.now p.old) result
        (L.seat links.now p.new) }
    ensures refused { IfErr result (λ why. CausedWithin L.Links links.now p.old p.new why) }
{
    let pair = match links.give(p, 3, 0, 0) {
        Ok(pair) => pair,
        Err(_) => return Err(CellRefused::NoNode),
    };
    let turn = publish_given(links, p, &pair, left, right, turns);
    links.release(p, pair);
    match turn {
        PublishTurn::Published(x, y) => Ok((x, y)),
        PublishTurn::Over => Err(CellRefused::Again),
        PublishTurn::Spent(spent) => Err(CellRefused::Spent(spent)),
    }
}

// Makes the right part ready, publishes, and lets the part go.
fn publish_right<L: Links<Rule = Pairs>>(
    links: &L,
    p: &mut L::Pass,
    root: u32,
    left: &New,
    right: (Option<u64>, bool),
    turns: u64,
) -> Result<(u64, u64), CellRefused>
    requires pass { L.belongs links.now p.old }
    requires made { IsCellDomain (L.numbers links.now) (L.agents links.now) (L.opening links.now) }
    requires no_fresh { (L.seat links.now p.old).fresh ≡ None }
    requires root { root ≡ staging_root Half.Right (L.seat links.now p.old).agent }
    requires there { root < (L.numbers links.now).roots }
    requires null { shown (heap_of (L.numbers links.now) (L.seat links.now p.old)) (Place.Root root) ≡ Some null }
    requires left { SideHeld (L.numbers links.now) (staging_root Half.Left (L.seat links.now p.old).agent) left.now (L.seat links.now p.old) }
    requires published { right.0 ≡ None → right.1 ≡ false → IsPublished (heap_of (L.numbers links.now) (L.seat links.now p.old)) }
    requires slots { IsFree (L.seat links.now p.old).slots 2 × IsFree (L.seat links.now p.old).slots 3 × IsFree (L.seat links.now p.old).slots 4
        × IsFree (L.seat links.now p.old).slots 5 }
    ensures pass { L.belongs links.now p.new }
    ensures later { IsPrefix (L.journal p.old) (L.journal p.new) }
    ensures tries { MakesAtMost L.Links links.now (8 + events_of_turns turns (given_of left.now) right.0) p.old p.new }
    ensures answered { PublishAnswers (L.numbers links.now) (1 + nodes_for right.0 right.1) turns (given_of left.now) right.0 (L.seat links.now p.old) result
        (L.seat links.now p.new) }
    ensures refused { IfErr result (λ why. CausedWithin L.Links links.now p.old p.new why) }
{
    let part = match ready(links, p, Staging { slot: 2, root }, right.0, right.1) {
        Ok(part) => part,
        Err(_) => return Err(CellRefused::NoNode),
    };
    let answer = publish_pair(links, p, left, &part, turns);
    let_go(links, p, root, part);
    answer
}

// Makes both parts ready, the left one first, publishes, and lets them go.
pub(crate) fn publish_both<L: Links<Rule = Pairs>>(
    links: &L,
    p: &mut L::Pass,
    roots: (u32, u32),
    left: (Option<u64>, bool),
    right: (Option<u64>, bool),
    turns: u64,
) -> Result<(u64, u64), CellRefused>
    requires pass { L.belongs links.now p.old }
    requires made { IsCellDomain (L.numbers links.now) (L.agents links.now) (L.opening links.now) }
    requires no_fresh { (L.seat links.now p.old).fresh ≡ None }
    requires roots { (roots.0 ≡ staging_root Half.Left (L.seat links.now p.old).agent) × (roots.1 ≡ staging_root Half.Right (L.seat links.now p.old).agent) }
    requires there { (roots.0 < (L.numbers links.now).roots) × (roots.1 < (L.numbers links.now).roots) }
    requires null { (shown (heap_of (L.numbers links.now) (L.seat links.now p.old)) (Place.Root roots.0) ≡ Some null)
        × (shown (heap_of (L.numbers links.now) (L.seat links.now p.old)) (Place.Root roots.1) ≡ Some null) }
    requires left_published { left.0 ≡ None → left.1 ≡ false → IsPublished (heap_of (L.numbers links.now) (L.seat links.now p.old)) }
    requires right_published { right.0 ≡ None → right.1 ≡ false → IsPublished (heap_of (L.numbers links.now) (L.seat links.now p.old)) }
    requires slots { IsFree (L.seat links.now p.old).slots 1 × IsFree (L.seat links.now p.old).slots 2 × IsFree (L.seat links.now p.old).slots 3
        × IsFree (L.seat links.now p.old).slots 4 × IsFree (L.seat links.now p.old).slots 5 }
    ensures pass { L.belongs links.now p.new }
    ensures later { IsPrefix (L.journal p.old) (L.journal p.new) }
    ensures tries { MakesAtMost L.Links links.now (13 + events_of_turns turns left.0 right.0) p.old p.new }
    ensures answered { PublishAnswers (L.numbers links.now) (1 + nodes_for right.0 right.1 + nodes_for left.0 left.1) turns left.0 right.0
        (L.seat links.now p.old) result (L.seat links.now p.new) }
    ensures refused { IfErr result (λ why. CausedWithin L.Links links.now p.old p.new why) }
{
    let at = Staging {
        slot: 1,
        root: roots.0,
    };
    let part = match ready(links, p, at, left.0, left.1) {
        Ok(part) => part,
        Err(_) => return Err(CellRefused::NoNode),
    };
    let answer = publish_right(links, p, roots.1, &part, right, turns);
    let_go(links, p, roots.0, part);
    answer
}

// Whether no pair was published yet.
fn is_null<L: Links<Rule = Pairs>>(links: &L, p: &mut L::Pass) -> bool
    requires pass { L.belongs links.now p.old }
    requires made { IsCellDomain (L.numbers links.now) (L.agents links.now) (L.opening links.now) }
    ensures pass { L.belongs links.now p.new }
    ensures later { IsPrefix (L.journal p.old) (L.journal p.new) }
    ensures tries { MakesAtMost L.Links links.now 1 p.old p.new }
    ensures only { FindsOnly (L.seat links.now p.old) [] (L.seat links.now p.new) }
    ensures published { result ≡ false → IsPublished (heap_of (L.numbers links.now) (L.seat links.now p.new)) }
    ensures was_published { IsPublished (heap_of (L.numbers links.now) (L.seat links.now p.old)) → result ≡ false }
    ensures begun { part_begin L.agent_of (L.seat links.now p.old).agent (L.journal p.old) (L.journal p.new) < length (L.journal p.new) }
{
    links.same(p, &At::Root(PAIR), &Want::Null(false), None)
}

// Publishes these parts, in at most so many turns.
pub(crate) fn publish_parts<L: Links<Rule = Pairs>>(
    links: &L,
    p: &mut L::Pass,
    roots: (u32, u32),
    left: Option<u64>,
    right: Option<u64>,
    turns: u64,
) -> Result<(u64, u64), CellRefused>
    requires pass { L.belongs links.now p.old }
    requires made { IsCellDomain (L.numbers links.now) (L.agents links.now) (L.opening links.now) }
    requires idle { IsIdle (L.seat links.now p.old) }
    requires given { (left ≢ None) ⊎ (right ≢ None) }
    requires roots { (roots.0 ≡ staging_root Half.Left (L.seat links.now p.old).agent) × (roots.1 ≡ staging_root Half.Right (L.seat links.now p.old).agent) }
    requires there { (roots.0 < (L.numbers links.now).roots) × (roots.1 < (L.numbers links.now).roots) }
    requires null { (shown (heap_of (L.numbers links.now) (L.seat links.now p.old)) (Place.Root roots.0) ≡ Some null)
        × (shown (heap_of (L.numbers links.now) (L.seat links.now p.old)) (Place.Root roots.1) ≡ Some null) }
    ensures pass { L.belongs links.now p.new }
    ensures later { IsPrefix (L.journal p.old) (L.journal p.new) }
    ensures tries { MakesAtMost L.Links links.now (6 * turns + 15) p.old p.new }
    ensures answered { PublishAnswers (L.numbers links.now) 3 turns left right (L.seat links.now p.old) result (L.seat links.now p.new) }
    ensures shared { IsPublished (heap_of (L.numbers links.now) (L.seat links.now p.old)) → PublishAnswers (L.numbers links.now)
        (1 + part_count left + part_count right) turns left right (L.seat links.now p.old) result (L.seat links.now p.new) }
    ensures no_turns { turns ≡ 0 → result ≡ Err CellRefused.Again }
    ensures nothing { turns ≡ 0 → Only [] (L.seat links.now p.old) (L.seat links.now p.new) }
    ensures refused { IfErr result (λ why. CausedInPart L.Links links.now p.old p.new why) }
{
    if turns == 0 {
        return Err(CellRefused::Again);
    }
    let empty = is_null(links, p);
    publish_both(links, p, roots, (left, empty), (right, empty), turns)
}
