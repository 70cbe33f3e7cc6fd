//! Doubling the number of buckets.

ghost use Rattle.std.specs.Prelude.{◌≡◌, ◌*◌, ◌≤◌, ◌↔◌, None, Some, true};
ghost use mathlib.Core.List.{IsPrefix};
ghost use Rattle.orc_heap.specs.{Domains.{MakesAtMost}, Seats.{IsIdle, heap_of}, Slots.{IsFree, id_in}};
ghost use Rattle.orc_ordered_search.specs.Searches.{HoldsIfAny, target_at};
ghost use Rattle.orc_split_rule.specs.{SplitDiscipline.{greatest}, Watches.{StandsFor}};
ghost use Rattle.orc_split_set.specs.{
  Growths.{Doubles, DoublesAndGoes, GrowsAfter, HoldsSize, IsCrowded, ShowsSize, grown_by},
  SetCalls.{NewTells, PartTells},
};

use crate::bucket::Rooted;
use orc_fault::Spent;
use orc_heap::{At, Held, Links, Looked, Want};
use orc_ordered_search::{InsertTurn, let_go, link_to};
use orc_split_rule::{Split, SplitNote};

// What came of a try to double, by what came of its one swing.
fn grown_of(swung: Result<bool, Spent>) -> Rooted
    ensures { result ≡ grown_by swung }
{
    match swung {
        Ok(true) => Rooted::Done,
        Ok(false) => Rooted::Moved,
        Err(spent) => Rooted::Spent(spent),
    }
}

// Gives a node of twice the size, unless there would be too many buckets, and lets the size's root name it, if it still
// names the old one.
fn double<L: Links<Rule = Split>>(
    links: &L,
    p: &mut L::Pass,
    most: u32,
    size: u32,
    old: &Option<Held>,
) -> Rooted
    requires pass { L.belongs links.now p.old }
    requires most { (most ≡ greatest (L.numbers links.now)) × (1 ≤ most) }
    requires old { HoldsIfAny (L.seat links.now p.old).slots old.now
        × StandsFor (heap_of (L.numbers links.now) (L.seat links.now p.old)) (target_at (L.seat links.now p.old).slots old.now) size }
    requires one { IsFree (L.seat links.now p.old).slots 1 }
    requires fresh { (L.seat links.now p.old).fresh ≡ None }
    ensures pass { L.belongs links.now p.new }
    ensures later { IsPrefix (L.journal p.old) (L.journal p.new) }
    ensures tries { MakesAtMost L.Links links.now 4 p.old p.new }
    ensures doubled { Doubles (L.numbers links.now) (ShowsSize (L.numbers links.now) (target_at (L.seat links.now p.old).slots old.now)
        (L.seat links.now p.old)) (L.seat links.now p.old) result (L.seat links.now p.new) }
    ensures told { NewTells L.Links links.now result p.old p.new }
{
    if size > most / 2 {
        return Rooted::Done;
    }
    match links.give(p, 1, u64::from(size) * 2, 2) {
        Ok(new) => {
            let swung = links.swing(
                p,
                &At::Root(most),
                &link_to(old, false),
                &Want::Node(&new, false),
                Some(SplitNote::Grow),
            );
            links.release(p, new);
            grown_of(swung)
        }
        Err(_) => Rooted::NoNode,
    }
}

// The same for the size of the node in hand, which is let go.
fn double_held<L: Links<Rule = Split>>(links: &L, p: &mut L::Pass, most: u32, node: Held) -> Rooted
    requires pass { L.belongs links.now p.old }
    requires most { (most ≡ greatest (L.numbers links.now)) × (1 ≤ most) }
    requires node { HoldsSize (L.numbers links.now) node (L.seat links.now p.old) }
    requires one { IsFree (L.seat links.now p.old).slots 1 }
    requires fresh { (L.seat links.now p.old).fresh ≡ None }
    ensures pass { L.belongs links.now p.new }
    ensures later { IsPrefix (L.journal p.old) (L.journal p.new) }
    ensures tries { MakesAtMost L.Links links.now 4 p.old p.new }
    ensures doubled { DoublesAndGoes (L.numbers links.now) (ShowsSize (L.numbers links.now) (Some (id_in (L.seat links.now p.old).slots node))
        (L.seat links.now p.old)) node (L.seat links.now p.old) result (L.seat links.now p.new) }
    ensures told { NewTells L.Links links.now result p.old p.new }
{
    let size = links.value(p, &node, 0) as u32;
    let old = Some(node);
    let doubled = double(links, p, most, size, &old);
    let_go(links, p, old);
    doubled
}

// One try to double the number of buckets, if there would not be too many.
fn grow<L: Links<Rule = Split>>(links: &L, p: &mut L::Pass, most: u32) -> Rooted
    requires pass { L.belongs links.now p.old }
    requires most { (most ≡ greatest (L.numbers links.now)) × (1 ≤ most) }
    requires idle { IsIdle (L.seat links.now p.old) }
    ensures pass { L.belongs links.now p.new }
    ensures later { IsPrefix (L.journal p.old) (L.journal p.new) }
    ensures tries { MakesAtMost L.Links links.now 6 p.old p.new }
    ensures doubled { Doubles (L.numbers links.now) (Unit {0}) (L.seat links.now p.old) result (L.seat links.now p.new) }
    ensures told { PartTells L.Links links.now result p.old p.new }
{
    match links.look(p, &At::Root(most), 2) {
        Looked::Stable(_, Some(node)) => double_held(links, p, most, node),
        Looked::Stable(_, None) => double(links, p, most, 1, &None),
        Looked::Moved => Rooted::Moved,
    }
}

// Whether an insert whose turns ended so added its key, and went past more than 8 others.
fn is_crowded(turn: InsertTurn) -> bool
    ensures { (result ≡ true) ↔ IsCrowded turn }
{
    match turn {
        InsertTurn::Answered(true, passed) => passed > 8,
        _ => false,
    }
}

// What follows the turns of an insert: one try to double the number of buckets, if its own bucket was crowded.
pub(crate) fn grow_after<L: Links<Rule = Split>>(
    links: &L,
    p: &mut L::Pass,
    most: u32,
    turn: InsertTurn,
) -> Rooted
    requires pass { L.belongs links.now p.old }
    requires most { (most ≡ greatest (L.numbers links.now)) × (1 ≤ most) }
    requires idle { IsIdle (L.seat links.now p.old) }
    ensures pass { L.belongs links.now p.new }
    ensures later { IsPrefix (L.journal p.old) (L.journal p.new) }
    ensures tries { MakesAtMost L.Links links.now 6 p.old p.new }
    ensures grown { GrowsAfter (L.numbers links.now) turn (L.seat links.now p.old) result (L.seat links.now p.new) }
    ensures told { PartTells L.Links links.now result p.old p.new }
{
    if is_crowded(turn) {
        return grow(links, p, most);
    }
    Rooted::Done
}
