//! The calls of one agent or two, over any domain.

ghost use Rattle.std.specs.Prelude.{◌<◌, All, IfSome};
ghost use Rattle.orc_split_set.specs.SetCalls.{IsUsable};

use orc_containers::{Domain, new_split_set};
use orc_heap::{At, Links, Looked};
use orc_history::SharedSet;
use orc_split_rule::Split;
use orc_split_set::SplitSet;
use std::alloc::Global;

// A new set of at most 256 buckets, and the pass of its one agent.
fn set_of_one<L: Domain<Rule = Split> + Drop>(alloc: Global) -> Option<(SplitSet<L>, L::Pass)>
    ensures { IfSome result (λ made. IsUsable L.Links made.0.links made.1) }
{
    let Ok((set, mut passes)) = new_split_set::<L>(alloc, 2_048, 1, 256) else {
        return None;
    };
    let p = next_pass(&set, &mut passes)?;
    Some((set, p))
}

// A new set of at most four buckets, and the passes of its two agents.
fn set_of_two<L: Domain<Rule = Split> + Drop>(
    alloc: Global,
) -> Option<(SplitSet<L>, L::Pass, L::Pass)>
    ensures usable { IfSome result (λ made. IsUsable L.Links made.0.links made.1 × IsUsable L.Links made.0.links made.2) }
    ensures roots { IfSome result (λ made. 2 < (L.numbers made.0.links).roots) }
{
    let Ok((set, mut passes)) = new_split_set::<L>(alloc, 64, 2, 4) else {
        return None;
    };
    let two = next_pass(&set, &mut passes)?;
    let one = next_pass(&set, &mut passes)?;
    Some((set, one, two))
}

// Inserts nine even keys, in order. Answers how many were added.
fn insert_evens<L: Links<Rule = Split>>(set: &SplitSet<L>, p: &mut L::Pass) -> u32
    requires usable { IsUsable L.Links set.now.links p.old }
    ensures usable { IsUsable L.Links set.now.links p.new }
{
    let mut added: u32 = 0;
    for half in 0..9u64 {
        added = added.wrapping_add(u32::from(set.insert(p, 2 * half, 2) == Ok(true)));
    }
    added
}

// How many of the keys below this one are present.
fn present_below<L: Links<Rule = Split>>(set: &SplitSet<L>, p: &mut L::Pass, end: u64) -> u32
    requires usable { IsUsable L.Links set.now.links p.old }
    ensures usable { IsUsable L.Links set.now.links p.new }
{
    let mut found: u32 = 0;
    for key in 0..end {
        found = found.wrapping_add(u32::from(set.contains(p, key, 2) == Ok(true)));
    }
    found
}

/// What nine even keys and then 1 come to: how many even ones were added, the number of buckets, whether the odd one
/// was added, the number of buckets then, and how many keys below 18 are present, and whether 3 is.
#[derive(PartialEq, Drop)]
pub struct Doubled {
    pub added: u32,
    pub buckets: Option<u32>,
    pub odd: Option<bool>,
    pub buckets_then: Option<u32>,
    pub present: u32,
    pub three: Option<bool>,
}

// Inserts nine even keys, and then 1.
fn double_once<L: Links<Rule = Split>>(set: &SplitSet<L>, p: &mut L::Pass) -> Doubled
    requires usable { IsUsable L.Links set.now.links p.old }
    ensures usable { IsUsable L.Links set.now.links p.new }
{
    let added = insert_evens(set, p);
    let buckets = set.size(p, 2).ok();
    let odd = set.insert(p, 1, 2).ok();
    let buckets_then = set.size(p, 2).ok();
    let present = present_below(set, p, 18);
    let three = set.contains(p, 3, 2).ok();
    Doubled {
        added,
        buckets,
        odd,
        buckets_then,
        present,
        three,
    }
}

/// With one bucket an even key goes past at most 7 others, and 1 past all nine.
pub const DOUBLED: Doubled = Doubled {
    added: 9,
    buckets: Some(1),
    odd: Some(true),
    buckets_then: Some(2),
    present: 10,
    three: Some(false),
};

/// Lets the one agent of a new set do so.
pub fn one_doubles<L: Domain<Rule = Split> + Drop>(alloc: Global) -> Option<Doubled> {
    let (set, mut p) = set_of_one::<L>(alloc)?;
    Some(double_once(&set, &mut p))
}

// The numbers of buckets once one agent stopped before it doubled them, behind nine even keys, and once another one inserted 3.
// None where an answer was another.
fn double_after_a_stop<L: Links<Rule = Split>>(
    set: &SplitSet<L>,
    one: &mut L::Pass,
    two: &mut L::Pass,
) -> Option<(u32, u32)>
    requires one { IsUsable L.Links set.now.links one.old }
    requires two { IsUsable L.Links set.now.links two.old }
    ensures one { IsUsable L.Links set.now.links one.new }
    ensures two { IsUsable L.Links set.now.links two.new }
{
    let evens = insert_evens(set, one);
    let stopped = set.insert_and_stop(one, 1, 2);
    let left = set.size(two, 2).ok()?;
    let added = set.insert(two, 3, 2);
    let doubled = set.size(two, 2).ok()?;
    if (evens, stopped, added) == (9, Ok(true), Ok(true)) {
        Some((left, doubled))
    } else {
        None
    }
}

/// Lets the two agents of a new set do so.
pub fn the_next_doubles<L: Domain<Rule = Split> + Drop>(alloc: Global) -> Option<(u32, u32)> {
    let (set, mut one, mut two) = set_of_two::<L>(alloc)?;
    double_after_a_stop(&set, &mut one, &mut two)
}

// Whether the root of bucket 1 names a node. None where it moved meanwhile.
fn is_named<L: Links<Rule = Split>>(set: &SplitSet<L>, p: &mut L::Pass) -> Option<bool>
    requires usable { IsUsable L.Links set.now.links p.old }
    requires root { 1 < (L.numbers set.now.links).roots }
    ensures usable { IsUsable L.Links set.now.links p.new }
{
    let links = set.links();
    match links.look(p, &At::Root(1), 2) {
        Looked::Stable(_, Some(dummy)) => {
            links.release(p, dummy);
            Some(true)
        }
        Looked::Stable(_, None) => Some(false),
        Looked::Moved => None,
    }
}

/// What two agents find of bucket 1, where one of them stops between the bucket's dummy and its root: whether it linked the
/// dummy, whether it did so again, whether the root names it then, whether 1 is present to the other agent, and whether the
/// root names the dummy then.
#[derive(PartialEq, Drop)]
pub struct Unnamed {
    pub linked: bool,
    pub again: bool,
    pub named: Option<bool>,
    pub present: Option<bool>,
    pub named_then: Option<bool>,
}

// Inserts nine even keys, and then 1, which makes two buckets. The second agent stops, and the first one asks for 1.
fn ask_after_a_stop<L: Links<Rule = Split>>(
    set: &SplitSet<L>,
    one: &mut L::Pass,
    two: &mut L::Pass,
) -> Unnamed
    requires one { IsUsable L.Links set.now.links one.old }
    requires two { IsUsable L.Links set.now.links two.old }
    requires roots { 2 < (L.numbers set.now.links).roots }
    ensures one { IsUsable L.Links set.now.links one.new }
    ensures two { IsUsable L.Links set.now.links two.new }
{
    insert_evens(set, one);
    let _odd = set.insert(one, 1, 2);
    let linked = set.link_dummy_and_stop(two, 1);
    let again = set.link_dummy_and_stop(two, 1);
    let named = is_named(set, one);
    let present = set.contains(one, 1, 2).ok();
    let named_then = is_named(set, one);
    Unnamed {
        linked,
        again,
        named,
        present,
        named_then,
    }
}

/// The other agent's question names the dummy.
pub const ANCHORED: Unnamed = Unnamed {
    linked: true,
    again: false,
    named: Some(false),
    present: Some(true),
    named_then: Some(true),
};

/// Lets the two agents of a new set do so.
pub fn the_next_anchors<L: Domain<Rule = Split> + Drop>(alloc: Global) -> Option<Unnamed> {
    let (set, mut one, mut two) = set_of_two::<L>(alloc)?;
    Some(ask_after_a_stop(&set, &mut one, &mut two))
}

// Whether the two least numbers, one in the middle and the greatest were all added.
fn insert_ends<L: Links<Rule = Split>>(set: &SplitSet<L>, p: &mut L::Pass) -> bool
    requires usable { IsUsable L.Links set.now.links p.old }
    ensures usable { IsUsable L.Links set.now.links p.new }
{
    let greatest = set.insert(p, u64::MAX, 2);
    let least = set.insert(p, 0, 2);
    let middle = set.insert(p, 1 << 63, 2);
    let next = set.insert(p, 1, 2);
    (greatest, least, middle, next) == (Ok(true), Ok(true), Ok(true), Ok(true))
}

// Whether all of them are present, or all absent.
fn are_ends<L: Links<Rule = Split>>(set: &SplitSet<L>, p: &mut L::Pass, yes: bool) -> bool
    requires usable { IsUsable L.Links set.now.links p.old }
    ensures usable { IsUsable L.Links set.now.links p.new }
{
    let least = set.contains(p, 0, 2);
    let next = set.contains(p, 1, 2);
    let middle = set.contains(p, 1 << 63, 2);
    let greatest = set.contains(p, u64::MAX, 2);
    (least, next, middle, greatest) == (Ok(yes), Ok(yes), Ok(yes), Ok(yes))
}

// Whether all of them were taken out.
fn remove_ends<L: Links<Rule = Split>>(set: &SplitSet<L>, p: &mut L::Pass) -> bool
    requires usable { IsUsable L.Links set.now.links p.old }
    ensures usable { IsUsable L.Links set.now.links p.new }
{
    let middle = set.remove(p, 1 << 63, 2);
    let greatest = set.remove(p, u64::MAX, 2);
    let least = set.remove(p, 0, 2);
    let next = set.remove(p, 1, 2);
    (middle, greatest, least, next) == (Ok(true), Ok(true), Ok(true), Ok(true))
}

// Inserts the keys from the first to before the second number. Answers the number of buckets then; none where an answer
// was another than true, or the number fell.
fn insert_all<L: Links<Rule = Split>>(
    set: &SplitSet<L>,
    p: &mut L::Pass,
    from: u64,
    to: u64,
) -> Option<u32>
    requires usable { IsUsable L.Links set.now.links p.old }
    ensures usable { IsUsable L.Links set.now.links p.new }
{
    let mut buckets: u32 = 0;
    for key in from..to {
        let added = set.insert(p, key, 2);
        let now = set.size(p, 2);
        match (added, now) {
            (Ok(true), Ok(now)) if now >= buckets => buckets = now,
            _ => return None,
        }
    }
    Some(buckets)
}

// The number of buckets once the keys from 2 to 999 were inserted, beside the two least numbers, one in the middle and the
// greatest: these are found before and afterwards, and then taken out. None where an answer was another.
fn ends_among_many<L: Links<Rule = Split>>(set: &SplitSet<L>, p: &mut L::Pass) -> Option<u32>
    requires usable { IsUsable L.Links set.now.links p.old }
    ensures usable { IsUsable L.Links set.now.links p.new }
{
    let added = insert_ends(set, p) && are_ends(set, p, true);
    let buckets = insert_all(set, p, 2, 1_000);
    let found = are_ends(set, p, true);
    let removed = remove_ends(set, p) && are_ends(set, p, false);
    let left = present_below(set, p, 1_001);
    if added && found && removed && left == 998 {
        buckets
    } else {
        None
    }
}

/// Lets the one agent of a new set do so.
pub fn one_finds_ends<L: Domain<Rule = Split> + Drop>(alloc: Global) -> Option<u32> {
    let (set, mut p) = set_of_one::<L>(alloc)?;
    ends_among_many(&set, &mut p)
}

/// The next pass, of the agent with the greatest number that is left.
pub fn next_pass<L: Links<Rule = Split>>(
    set: &SplitSet<L>,
    passes: &mut Vec<L::Pass>,
) -> Option<L::Pass>
    requires usable { All (λ p. IsUsable L.Links set.now.links p) passes.old.items }
    ensures usable { All (λ p. IsUsable L.Links set.now.links p) passes.new.items }
    ensures popped { IfSome result (λ p. IsUsable L.Links set.now.links p) }
{
    passes.pop()
}
