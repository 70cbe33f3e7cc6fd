//! Where a search begins: at the dummy of the nearest bucket that has one.

ghost use Rattle.std.specs.Prelude.{◌≡◌, ◌≤◌, ◌<◌, ◌+◌, ◌/◌, ◌*◌, ◌^◌, List, None, Some, [], ℕ};
ghost use mathlib.Core.List.{IsPrefix};
ghost use Rattle.orc_heap.specs.{Domains.{MakesAtMost}, Seats.{Seat, heap_of}, declared.events.Event.{Event}};
ghost use Rattle.orc_ordered_search.specs.Searches.{HasRoom, Quiet};
ghost use Rattle.orc_split_rule.specs.{
  SplitDiscipline.{IsSize, greatest, size_of},
  SplitOrder.{bucket_of},
  declared.split.SplitNote.{SplitNote},
};
ghost use Rattle.orc_split_set.specs.{
  Beginnings.{BeginsKey, BeginsByBucket, GoesNear, MayBeginAt},
  Crowds.{SeesOwn},
  Looks.{HasStart, LoadsFew, root_loads},
  NewNodes.{node_value},
  declared.begin.Begun.{Begun},
  SplitSearches.{split_reading},
};

use crate::node::NewNode;
use crate::size::read_size;
use orc_heap::{At, Held, Links, Looked};
use orc_split_rule::Split;

/// Where a search begins.
pub enum Begun {
    /// A link moved meanwhile.
    Moved,
    /// At the link of this dummy, or else at root 0.
    From(Option<Held>),
}

// Looks at the root of the node's bucket, where there are so many buckets, if half as many don't tell the same.
fn begin_at<L: Links<Rule = Split>>(
    links: &L,
    p: &mut L::Pass,
    new: NewNode,
    size: u32,
) -> Option<Begun>
    requires pass { L.belongs links.now p.old }
    requires size { IsSize (greatest (L.numbers links.now)) size × (2 ≤ size) }
    requires begins { MayBeginAt new size }
    requires room { HasRoom (L.seat links.now p.old).slots }
    ensures pass { L.belongs links.now p.new }
    ensures later { IsPrefix (L.journal p.old) (L.journal p.new) }
    ensures begun { (s : Seat SplitNote) (own : List (Event SplitNote)) → Quiet (split_reading (L.numbers links.now)) s own (L.seat links.now p.old)
        → (L.seat links.now p.old).slots ≡ s.slots → GoesNear (L.numbers links.now) new size s result (L.seat links.now p.new) }
    ensures held { result ≡ None → (L.seat links.now p.new).slots ≡ (L.seat links.now p.old).slots }
    ensures agent { (L.seat links.now p.new).agent ≡ (L.seat links.now p.old).agent }
    ensures tries { MakesAtMost L.Links links.now 2 p.old p.new }
    ensures few { (begun : Begun) → result ≡ Some begun → LoadsFew (root_loads (bucket_of (node_value new) size)) (L.seat links.now p.old)
        (L.seat links.now p.new) }
    ensures none { result ≡ None → HasStart (heap_of (L.numbers links.now) (L.seat links.now p.old)) (bucket_of (node_value new) size)
        → (k : SeesOwn (L.seat links.now p.old) (L.seat links.now p.new))
        → (bucket_of (node_value new) size ≡ bucket_of (node_value new) (size / 2)) × (k.part ≡ []) }
{
    let bucket = (new.value() % u64::from(size)) as u32;
    if bucket < size / 2 {
        return None;
    }
    match links.look(p, &At::Root(bucket), 2) {
        Looked::Stable(_, Some(dummy)) => Some(Begun::From(Some(dummy))),
        Looked::Stable(_, None) => None,
        Looked::Moved => Some(Begun::Moved),
    }
}

// Finds the dummy of the node's bucket, where there are so many buckets, or of the nearest ancestor that has one. A bucket's
// ancestors are those of half as many buckets, of a quarter as many, and so on.
pub(crate) fn begin_near<L: Links<Rule = Split>>(
    links: &L,
    p: &mut L::Pass,
    new: NewNode,
    size: u32,
) -> Begun
    requires pass { L.belongs links.now p.old }
    requires size { IsSize (greatest (L.numbers links.now)) size }
    requires begins { MayBeginAt new size }
    requires room { HasRoom (L.seat links.now p.old).slots }
    ensures pass { L.belongs links.now p.new }
    ensures later { IsPrefix (L.journal p.old) (L.journal p.new) }
    ensures agent { (L.seat links.now p.new).agent ≡ (L.seat links.now p.old).agent }
    ensures tries { (k : ℕ) → size ≤ 2 ^ k → MakesAtMost L.Links links.now (2 * k) p.old p.new }
    ensures begun { (s : Seat SplitNote) (own : List (Event SplitNote)) → Quiet (split_reading (L.numbers links.now)) s own (L.seat links.now p.old)
        → (L.seat links.now p.old).slots ≡ s.slots → BeginsByBucket (L.numbers links.now) new size s result (L.seat links.now p.new) }
    ensures few { HasStart (heap_of (L.numbers links.now) (L.seat links.now p.old)) (bucket_of (node_value new) size)
        → LoadsFew (root_loads (bucket_of (node_value new) size)) (L.seat links.now p.old) (L.seat links.now p.new) }
{
    let mut size = size;
    while size > 1 {
        if let Some(begun) = begin_at(links, p, new, size) {
            return begun;
        }
        size = size / 2;
    }
    Begun::From(None)
}

// Begins a search for a key: reads the number of buckets, and finds where the key's bucket begins.
pub(crate) fn begin<L: Links<Rule = Split>>(
    links: &L,
    p: &mut L::Pass,
    most: u32,
    key: u64,
) -> Begun
    requires pass { L.belongs links.now p.old }
    requires most { (most ≡ greatest (L.numbers links.now)) × (1 ≤ most) }
    requires room { HasRoom (L.seat links.now p.old).slots }
    ensures pass { L.belongs links.now p.new }
    ensures later { IsPrefix (L.journal p.old) (L.journal p.new) }
    ensures agent { (L.seat links.now p.new).agent ≡ (L.seat links.now p.old).agent }
    ensures tries { (k : ℕ) → most ≤ 2 ^ k → MakesAtMost L.Links links.now (2 + 2 * k) p.old p.new }
    ensures begun { BeginsKey (L.numbers links.now) key (L.seat links.now p.old) result (L.seat links.now p.new) }
    ensures few { HasStart (heap_of (L.numbers links.now) (L.seat links.now p.old))
        (bucket_of key (size_of (L.numbers links.now) (L.seat links.now p.old).seen))
        → LoadsFew (2 + root_loads (bucket_of key (size_of (L.numbers links.now) (L.seat links.now p.old).seen)))
        (L.seat links.now p.old) (L.seat links.now p.new) }
{
    match read_size(links, p, most) {
        Some(size) => begin_near(links, p, NewNode::Key(key), size),
        None => Begun::Moved,
    }
}
