//! The search for the place of a rank. The parts of a step stand in line, so that what is in hand isn't written to memory between them.

ghost use Rattle.std.specs.Prelude.{◌≡◌, ◌+◌, ◌<◌, ℕ, None, Some, false, true};
ghost use mathlib.Core.List.{IsPrefix};
ghost use Rattle.orc_heap.specs.{Seats.{Seat}, declared.events.Place.{Place}};
ghost use Rattle.orc_ordered_search.specs.{
  Reading.{reading_by},
  Searches.{FindsMoved, HasRoom, LooksBy, LooksOn, Passed, Stops, Walks, count_on},
  Steps.{BeginsPlain, Finds, StepsTo},
  Ways.{IsFew},
};

use crate::in_hand::{keep_first, let_all_go, let_go, place_of, slot_of, spare_slot};
use crate::rank::Rank;
use crate::walk::{Searched, Stepped, Walk};
use orc_heap::{At, Held, Links, Looked, LookedOn};

// Goes on at the next node, or ends where there is none.
#[inline(always)]
fn go_on<K: Rank, L: Links<Rule = K::Rule>>(
    links: &L,
    p: &mut L::Pass,
    left: Option<Held>,
    first: Option<Held>,
    next: Option<Held>,
    passed: u32,
) -> Stepped<K>
    requires pass { L.belongs links.now p.old }
    requires passed { (start : Place) × (wanted : ℕ) × (s : Seat K.Rule.Note) × (least : ℕ)
        × Passed (reading_by (L.numbers links.now) K.manner) start wanted least passed left first next s (L.seat links.now p.old) }
    ensures pass { L.belongs links.now p.new }
    ensures later { IsPrefix (L.journal p.old) (L.journal p.new) }
    ensures stepped { (start : Place) (wanted : ℕ) (s : Seat K.Rule.Note) (least : ℕ)
        → Passed (reading_by (L.numbers links.now) K.manner) start wanted least passed left first next s (L.seat links.now p.old)
        → StepsTo (reading_by (L.numbers links.now) K.manner) K.number K.counted start wanted least s result (L.seat links.now p.new) }
{
    match next {
        Some(at) => {
            let rank = K::read(links, p, &at);
            Stepped::On(Walk {
                left,
                first,
                at,
                rank,
                passed,
            })
        }
        None => Stepped::End(Searched::Absent {
            left,
            first,
            right: None,
            passed,
        }),
    }
}

// One node more that was passed, if it is counted.
#[inline]
fn count_one(is_counted: bool, passed: u32) -> u32
    ensures { result ≡ count_on is_counted passed }
{
    if !is_counted {
        passed
    } else if passed < 9 {
        passed + 1
    } else {
        9
    }
}

// Goes on behind a marked node.
#[inline(always)]
fn step_past<K: Rank, L: Links<Rule = K::Rule>>(
    links: &L,
    p: &mut L::Pass,
    walk: Walk<K>,
    next: Option<Held>,
) -> Stepped<K>
    requires pass { L.belongs links.now p.old }
    requires looks { (start : Place) × (wanted : ℕ) × (s : Seat K.Rule.Note)
        × LooksOn (reading_by (L.numbers links.now) K.manner) start wanted walk.left walk.first walk.at (K.number walk.rank) (K.counted walk.rank) walk.passed true
        next s
        (L.seat links.now p.old) }
    ensures pass { L.belongs links.now p.new }
    ensures later { IsPrefix (L.journal p.old) (L.journal p.new) }
    ensures stepped { (start : Place) (wanted : ℕ) (s : Seat K.Rule.Note)
        → LooksOn (reading_by (L.numbers links.now) K.manner) start wanted walk.left walk.first walk.at (K.number walk.rank) (K.counted walk.rank) walk.passed true
        next s
        (L.seat links.now p.old)
        → StepsTo (reading_by (L.numbers links.now) K.manner) K.number K.counted start wanted (K.number walk.rank + 1) s result (L.seat links.now p.new) }
{
    let Walk {
        left,
        first,
        at,
        rank: _,
        passed,
    } = walk;
    let first = keep_first(links, p, first, at);
    go_on(links, p, left, Some(first), next, passed)
}

// Goes on behind an unmarked node with a lower rank, which is the left place from then on.
#[inline(always)]
fn step_behind<K: Rank, L: Links<Rule = K::Rule>>(
    links: &L,
    p: &mut L::Pass,
    wanted: K,
    walk: Walk<K>,
    next: Option<Held>,
) -> Stepped<K>
    requires pass { L.belongs links.now p.old }
    requires looks { (start : Place) × (s : Seat K.Rule.Note)
        × LooksOn (reading_by (L.numbers links.now) K.manner) start (K.number wanted) walk.left walk.first walk.at (K.number walk.rank) (K.counted walk.rank)
        walk.passed false next s
        (L.seat links.now p.old) }
    requires lower { K.number walk.rank < K.number wanted }
    ensures pass { L.belongs links.now p.new }
    ensures later { IsPrefix (L.journal p.old) (L.journal p.new) }
    ensures stepped { (start : Place) (s : Seat K.Rule.Note)
        → LooksOn (reading_by (L.numbers links.now) K.manner) start (K.number wanted) walk.left walk.first walk.at (K.number walk.rank) (K.counted walk.rank)
        walk.passed false next s
        (L.seat links.now p.old)
        → StepsTo (reading_by (L.numbers links.now) K.manner) K.number K.counted start (K.number wanted) (K.number walk.rank + 1) s result (L.seat links.now p.new) }
{
    let Walk {
        left,
        first,
        at,
        rank,
        passed,
    } = walk;
    let_go(links, p, left);
    let_go(links, p, first);
    let passed = count_one(rank.is_counted(), passed);
    go_on(links, p, Some(at), None, next, passed)
}

// Goes on by what the link of the node was, that the search has come to.
#[inline(always)]
fn step_from<K: Rank, L: Links<Rule = K::Rule>>(
    links: &L,
    p: &mut L::Pass,
    wanted: K,
    walk: Walk<K>,
    mark: bool,
    next: Option<Held>,
) -> Stepped<K>
    requires pass { L.belongs links.now p.old }
    requires looks { (start : Place) × (s : Seat K.Rule.Note)
        × LooksOn (reading_by (L.numbers links.now) K.manner) start (K.number wanted) walk.left walk.first walk.at (K.number walk.rank) (K.counted walk.rank)
        walk.passed mark next s
        (L.seat links.now p.old) }
    ensures pass { L.belongs links.now p.new }
    ensures later { IsPrefix (L.journal p.old) (L.journal p.new) }
    ensures stepped { (start : Place) (s : Seat K.Rule.Note)
        → LooksOn (reading_by (L.numbers links.now) K.manner) start (K.number wanted) walk.left walk.first walk.at (K.number walk.rank) (K.counted walk.rank)
        walk.passed mark next s
        (L.seat links.now p.old)
        → StepsTo (reading_by (L.numbers links.now) K.manner) K.number K.counted start (K.number wanted) (K.number walk.rank + 1) s result (L.seat links.now p.new) }
{
    if mark {
        return step_past(links, p, walk, next);
    }
    if walk.rank.is_before(wanted) {
        return step_behind(links, p, wanted, walk, next);
    }
    let Walk {
        left,
        first,
        at,
        rank,
        passed,
    } = walk;
    if wanted.is_before(rank) {
        let_go(links, p, next);
        return Stepped::End(Searched::Absent {
            left,
            first,
            right: Some(at),
            passed,
        });
    }
    Stepped::End(Searched::Present {
        left,
        first,
        node: at,
        next,
        passed,
    })
}

// A link moved meanwhile: lets all nodes go.
fn stop<K: Rank, L: Links<Rule = K::Rule>>(links: &L, p: &mut L::Pass, walk: Walk<K>)
    requires pass { L.belongs links.now p.old }
    requires stops { (start : Place) × (wanted : ℕ) × (s : Seat K.Rule.Note)
        × Stops (reading_by (L.numbers links.now) K.manner) start wanted walk.left walk.first walk.at s (L.seat links.now p.old) }
    ensures pass { L.belongs links.now p.new }
    ensures later { IsPrefix (L.journal p.old) (L.journal p.new) }
    ensures moved { (start : Place) (wanted : ℕ) (s : Seat K.Rule.Note)
        → Stops (reading_by (L.numbers links.now) K.manner) start wanted walk.left walk.first walk.at s (L.seat links.now p.old)
        → (f : FindsMoved (reading_by (L.numbers links.now) K.manner) s (L.seat links.now p.new)) × IsFew 4 f.own }
{
    let Walk {
        left,
        first,
        at,
        rank: _,
        passed: _,
    } = walk;
    let_all_go::<K, L>(links, p, left, first, Some(at), None);
}

// Goes on by what the look at the link of that node found.
#[inline(always)]
fn step_by<K: Rank, L: Links<Rule = K::Rule>>(
    links: &L,
    p: &mut L::Pass,
    wanted: K,
    walk: Walk<K>,
    looked: Looked,
) -> Stepped<K>
    requires pass { L.belongs links.now p.old }
    requires looked { (start : Place) × (s : Seat K.Rule.Note)
        × LooksBy (reading_by (L.numbers links.now) K.manner) start (K.number wanted) walk.left walk.first walk.at (K.number walk.rank) (K.counted walk.rank)
        walk.passed s looked
        (L.seat links.now p.old) }
    ensures pass { L.belongs links.now p.new }
    ensures later { IsPrefix (L.journal p.old) (L.journal p.new) }
    ensures stepped { (start : Place) (s : Seat K.Rule.Note)
        → LooksBy (reading_by (L.numbers links.now) K.manner) start (K.number wanted) walk.left walk.first walk.at (K.number walk.rank) (K.counted walk.rank)
        walk.passed s looked
        (L.seat links.now p.old)
        → StepsTo (reading_by (L.numbers links.now) K.manner) K.number K.counted start (K.number wanted) (K.number walk.rank + 1) s result (L.seat links.now p.new) }
{
    match looked {
        Looked::Stable(seen, next) => step_from(links, p, wanted, walk, seen.mark, next),
        Looked::Moved => {
            stop(links, p, walk);
            Stepped::End(Searched::Over)
        }
    }
}

// Looks at the link of the node that the search has come to.
#[inline(always)]
fn step<K: Rank, L: Links<Rule = K::Rule>>(
    links: &L,
    p: &mut L::Pass,
    wanted: K,
    walk: Walk<K>,
) -> Stepped<K>
    requires pass { L.belongs links.now p.old }
    requires walks { (start : Place) × (s : Seat K.Rule.Note) × HasRoom s.slots
        × Walks (reading_by (L.numbers links.now) K.manner) start (K.number wanted) walk.left walk.first walk.at (K.number walk.rank) (K.counted walk.rank) walk.passed s
        (L.seat links.now p.old) }
    ensures pass { L.belongs links.now p.new }
    ensures later { IsPrefix (L.journal p.old) (L.journal p.new) }
    ensures stepped { (start : Place) (s : Seat K.Rule.Note) → HasRoom s.slots
        → Walks (reading_by (L.numbers links.now) K.manner) start (K.number wanted) walk.left walk.first walk.at (K.number walk.rank) (K.counted walk.rank) walk.passed s
        (L.seat links.now p.old)
        → StepsTo (reading_by (L.numbers links.now) K.manner) K.number K.counted start (K.number wanted) (K.number walk.rank + 1) s result (L.seat links.now p.new) }
{
    let slot = spare_slot(slot_of(&walk.left), slot_of(&walk.first), walk.at.slot());
    let looked = links.look(p, &At::Node(&walk.at), slot);
    step_by(links, p, wanted, walk, looked)
}

// Goes on over unmarked nodes with lower ranks, and then one step more. The two nodes in hand stand in variables of their own, and
// so in registers: most steps of a search are of this kind.
fn pass_lower<K: Rank, L: Links<Rule = K::Rule>>(
    links: &L,
    p: &mut L::Pass,
    wanted: K,
    left: Held,
    at: Held,
    rank: K,
    passed: u32,
) -> Stepped<K>
    requires pass { L.belongs links.now p.old }
    requires walks { (start : Place) × (s : Seat K.Rule.Note) × HasRoom s.slots
        × Walks (reading_by (L.numbers links.now) K.manner) start (K.number wanted) (Some left) None at (K.number rank) (K.counted rank) passed s (L.seat links.now
        p.old) }
    ensures pass { L.belongs links.now p.new }
    ensures later { IsPrefix (L.journal p.old) (L.journal p.new) }
    ensures stepped { (start : Place) (s : Seat K.Rule.Note) → HasRoom s.slots
        → Walks (reading_by (L.numbers links.now) K.manner) start (K.number wanted) (Some left) None at (K.number rank) (K.counted rank) passed s (L.seat links.now p.old)
        → StepsTo (reading_by (L.numbers links.now) K.manner) K.number K.counted start (K.number wanted) (K.number rank + 1) s result (L.seat links.now p.new) }
{
    let mut left = left;
    let mut at = at;
    let mut rank = rank;
    let mut passed = passed;
    let spare = spare_slot(left.slot(), 8, at.slot());
    while rank.is_before(wanted) {
        match links.look_on(p, &At::Node(&at), left, spare) {
            LookedOn::On(next) => {
                passed = count_one(rank.is_counted(), passed);
                rank = K::read(links, p, &next);
                left = at;
                at = next;
            }
            LookedOn::Stays(left, looked) => {
                let walk = Walk {
                    left: Some(left),
                    first: None,
                    at,
                    rank,
                    passed,
                };
                return step_by(links, p, wanted, walk, looked);
            }
            LookedOn::Moved => {
                links.release(p, at);
                return Stepped::End(Searched::Over);
            }
        }
    }
    let walk = Walk {
        left: Some(left),
        first: None,
        at,
        rank,
        passed,
    };
    step(links, p, wanted, walk)
}

// Goes on as far as may be at once: over all unmarked nodes with lower ranks, where no marked one is in hand, and else by one step.
fn step_on<K: Rank, L: Links<Rule = K::Rule>>(
    links: &L,
    p: &mut L::Pass,
    wanted: K,
    walk: Walk<K>,
) -> Stepped<K>
    requires pass { L.belongs links.now p.old }
    requires walks { (start : Place) × (s : Seat K.Rule.Note) × HasRoom s.slots
        × Walks (reading_by (L.numbers links.now) K.manner) start (K.number wanted) walk.left walk.first walk.at (K.number walk.rank) (K.counted walk.rank) walk.passed s
        (L.seat links.now p.old) }
    ensures pass { L.belongs links.now p.new }
    ensures later { IsPrefix (L.journal p.old) (L.journal p.new) }
    ensures stepped { (start : Place) (s : Seat K.Rule.Note) → HasRoom s.slots
        → Walks (reading_by (L.numbers links.now) K.manner) start (K.number wanted) walk.left walk.first walk.at (K.number walk.rank) (K.counted walk.rank) walk.passed s
        (L.seat links.now p.old)
        → StepsTo (reading_by (L.numbers links.now) K.manner) K.number K.counted start (K.number wanted) (K.number walk.rank + 1) s result (L.seat links.now p.new) }
{
    let Walk {
        left,
        first,
        at,
        rank,
        passed,
    } = walk;
    match first {
        Some(first) => {
            let first = Some(first);
            step(
                links,
                p,
                wanted,
                Walk {
                    left,
                    first,
                    at,
                    rank,
                    passed,
                },
            )
        }
        None => match left {
            Some(left) => pass_lower(links, p, wanted, left, at, rank, passed),
            None => step(
                links,
                p,
                wanted,
                Walk {
                    left: None,
                    first: None,
                    at,
                    rank,
                    passed,
                },
            ),
        },
    }
}

// Looks at the link at which the search begins.
fn start<K: Rank, L: Links<Rule = K::Rule>>(
    links: &L,
    p: &mut L::Pass,
    root: u32,
    wanted: K,
    left: Option<Held>,
) -> Stepped<K>
    requires pass { L.belongs links.now p.old }
    requires root { (root < (L.numbers links.now).roots) × (root ≡ (reading_by (L.numbers links.now) K.manner).order.root (K.number wanted)) }
    requires begins { (place : Place) × (s : Seat K.Rule.Note) × HasRoom s.slots
        × BeginsPlain (reading_by (L.numbers links.now) K.manner) (K.Rule.may (L.numbers links.now)) place (K.number wanted) left s (L.seat links.now p.old) }
    ensures pass { L.belongs links.now p.new }
    ensures later { IsPrefix (L.journal p.old) (L.journal p.new) }
    ensures stepped { (place : Place) (s : Seat K.Rule.Note) → HasRoom s.slots
        → BeginsPlain (reading_by (L.numbers links.now) K.manner) (K.Rule.may (L.numbers links.now)) place (K.number wanted) left s (L.seat links.now p.old)
        → StepsTo (reading_by (L.numbers links.now) K.manner) K.number K.counted place (K.number wanted) 0 s result (L.seat links.now p.new) }
{
    let slot = spare_slot(slot_of(&left), 8, 8);
    match links.look(p, &place_of(root, &left), slot) {
        Looked::Stable(_, next) => go_on(links, p, left, None, next, 0),
        Looked::Moved => {
            let_go(links, p, left);
            Stepped::End(Searched::Over)
        }
    }
}

/// Searches the chain of a root for the place of a rank, from the root or from a node in hand. Ranks rise along it, so the search ends.
pub fn search_chain<K: Rank, L: Links<Rule = K::Rule>>(
    links: &L,
    p: &mut L::Pass,
    root: u32,
    wanted: K,
    left: Option<Held>,
) -> Searched
    requires pass { L.belongs links.now p.old }
    requires root { (root < (L.numbers links.now).roots) × (root ≡ (reading_by (L.numbers links.now) K.manner).order.root (K.number wanted)) }
    requires begins { (place : Place) × (s : Seat K.Rule.Note) × HasRoom s.slots
        × BeginsPlain (reading_by (L.numbers links.now) K.manner) (K.Rule.may (L.numbers links.now)) place (K.number wanted) left s (L.seat links.now p.old) }
    ensures pass { L.belongs links.now p.new }
    ensures later { IsPrefix (L.journal p.old) (L.journal p.new) }
    ensures found { (place : Place) (s : Seat K.Rule.Note) → HasRoom s.slots
        → BeginsPlain (reading_by (L.numbers links.now) K.manner) (K.Rule.may (L.numbers links.now)) place (K.number wanted) left s (L.seat links.now p.old)
        → Finds (reading_by (L.numbers links.now) K.manner) place (K.number wanted) s result (L.seat links.now p.new) }
{
    let mut walk = match start(links, p, root, wanted, left) {
        Stepped::On(walk) => walk,
        Stepped::End(found) => return found,
    };
    loop {
        match step_on(links, p, wanted, walk) {
            Stepped::On(next) => walk = next,
            Stepped::End(found) => return found,
        }
    }
}
