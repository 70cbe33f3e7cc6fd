//! What a call does before its turns: its key's bucket gets a dummy, and a root that names it.

ghost use Rattle.std.specs.Prelude.{◌≡◌, ◌<◌, ◌≤◌, ◌+◌, ◌*◌, ◌^◌, ◌++◌, [], ℕ, List, None};
ghost use mathlib.Core.List.{IsPrefix};
ghost use Rattle.orc_heap.specs.{
  Domains.{MakesAtMost},
  Seats.{IsIdle, Seat, heap_of},
  Slots.{Holds, id_in},
  declared.events.{Event.{Event}, Place.{Place}},
  Allowed.{events_by},
  Journals.{run_heap},
};
ghost use Rattle.orc_ordered_search.specs.{Inserts.{HasRoomFor}, Searches.{FindsAbsent, Quiet}};
ghost use Rattle.orc_split_rule.specs.{
  SplitDiscipline.{IsDummy, IsSize, greatest},
  SplitOrder.{dummy_place},
  declared.split.SplitNote.{SplitNote},
};
ghost use Rattle.orc_split_set.specs.{
  Crowds.{seat_after},
  FewEvents.{MadeFewBySearch},
  Looks.{HasStart, LoadsFew, bucket_now, root_loads},
  Rootings.{Anchors, AnchorsAndGoes, Prepares, Roots},
  SetCalls.{NewTells, PartTells},
  SplitSearches.{BeginsAt, split_reading},
};

use crate::begin::{Begun, begin_near};
use crate::node::NewNode;
use crate::order::SplitPlace;
use crate::search::search_for;
use crate::size::read_size;
use orc_fault::Spent;
use orc_heap::{At, Held, Links, Looked, Want};
use orc_ordered_search::{Searched, add_node, let_all_go};
use orc_split_rule::{Split, SplitNote};

/// What came of a root that was to name a node: the dummy of its bucket, or a node of twice the size.
#[derive(Clone, Copy)]
pub enum Rooted {
    /// It names one, unless none is wanted: the first bucket has no dummy, and there may be no roots for twice the size.
    Done,
    /// A link moved meanwhile.
    Moved,
    /// No node could be had.
    NoNode,
    /// A row that was to be linked is used up.
    Spent(Spent),
}

// Lets the bucket's root name its dummy, if it is null.
fn anchor<L: Links<Rule = Split>>(links: &L, p: &mut L::Pass, bucket: u32, dummy: &Held) -> Rooted
    requires pass { L.belongs links.now p.old }
    requires bucket { (1 ≤ bucket) × (bucket < greatest (L.numbers links.now)) }
    requires dummy { Holds (L.seat links.now p.old).slots dummy.now
        × IsDummy (heap_of (L.numbers links.now) (L.seat links.now p.old)) (id_in (L.seat links.now p.old).slots dummy.now) bucket }
    ensures pass { L.belongs links.now p.new }
    ensures later { IsPrefix (L.journal p.old) (L.journal p.new) }
    ensures tries { MakesAtMost L.Links links.now 1 p.old p.new }
    ensures anchored { Anchors (L.numbers links.now) bucket (L.seat links.now p.old) result (L.seat links.now p.new) }
    ensures told { NewTells L.Links links.now result p.old p.new }
{
    match links.swing(
        p,
        &At::Root(bucket),
        &Want::Null(false),
        &Want::Node(dummy, false),
        Some(SplitNote::Anchor),
    ) {
        Ok(_) => Rooted::Done,
        Err(spent) => Rooted::Spent(spent),
    }
}

// The same, and then lets the dummy go.
fn anchor_and_go<L: Links<Rule = Split>>(
    links: &L,
    p: &mut L::Pass,
    bucket: u32,
    dummy: Held,
) -> Rooted
    requires pass { L.belongs links.now p.old }
    requires bucket { (1 ≤ bucket) × (bucket < greatest (L.numbers links.now)) }
    requires dummy { Holds (L.seat links.now p.old).slots dummy
        × IsDummy (heap_of (L.numbers links.now) (L.seat links.now p.old)) (id_in (L.seat links.now p.old).slots dummy) bucket }
    ensures pass { L.belongs links.now p.new }
    ensures later { IsPrefix (L.journal p.old) (L.journal p.new) }
    ensures tries { MakesAtMost L.Links links.now 1 p.old p.new }
    ensures anchored { AnchorsAndGoes (L.numbers links.now) bucket dummy (L.seat links.now p.old) result (L.seat links.now p.new) }
    ensures told { NewTells L.Links links.now result p.old p.new }
{
    let anchored = anchor(links, p, bucket, &dummy);
    links.release(p, dummy);
    anchored
}

// A search found the place of the bucket's dummy, which isn't there: links one, and lets the bucket's root name it.
fn add_dummy<L: Links<Rule = Split>>(
    links: &L,
    p: &mut L::Pass,
    bucket: u32,
    left: Option<Held>,
    first: Option<Held>,
    right: Option<Held>,
) -> Rooted
    requires pass { L.belongs links.now p.old }
    requires bucket { (1 ≤ bucket) × (bucket < greatest (L.numbers links.now)) }
    requires absent { (start : Place) × (passed : ℕ) × (s : Seat SplitNote) × HasRoomFor s.slots × (s.fresh ≡ None)
        × FindsAbsent (split_reading (L.numbers links.now)) start (dummy_place bucket) passed left first right s (L.seat links.now p.old) }
    ensures pass { L.belongs links.now p.new }
    ensures later { IsPrefix (L.journal p.old) (L.journal p.new) }
    ensures tries { (start : Place) (passed : ℕ) (s : Seat SplitNote) → HasRoomFor s.slots → s.fresh ≡ None
        → FindsAbsent (split_reading (L.numbers links.now)) start (dummy_place bucket) passed left first right s (L.seat links.now p.old)
        → MadeFewBySearch 4 1 4 s (L.seat links.now p.new) }
    ensures rooted { (start : Place) (passed : ℕ) (s : Seat SplitNote) → HasRoomFor s.slots → s.fresh ≡ None
        → FindsAbsent (split_reading (L.numbers links.now)) start (dummy_place bucket) passed left first right s (L.seat links.now p.old)
        → Roots (L.numbers links.now) bucket s result (L.seat links.now p.new) }
    ensures told { NewTells L.Links links.now result p.old p.new }
{
    match links.give(p, 1, u64::from(bucket), 0) {
        Ok(dummy) => {
            let note = SplitNote::Bucket;
            match add_node::<SplitPlace, L>(links, p, 0, note, left, first, right, &dummy) {
                Ok(true) => anchor_and_go(links, p, bucket, dummy),
                Ok(false) => {
                    links.release(p, dummy);
                    Rooted::Moved
                }
                Err(spent) => {
                    links.release(p, dummy);
                    Rooted::Spent(spent)
                }
            }
        }
        Err(_) => {
            let_all_go::<SplitPlace, L>(links, p, left, first, right, None);
            Rooted::NoNode
        }
    }
}

// Searches the bucket's dummy from the dummy in hand, or else from root 0, links one if it isn't there, and lets the
// bucket's root name it.
fn root_from<L: Links<Rule = Split>>(
    links: &L,
    p: &mut L::Pass,
    bucket: u32,
    left: Option<Held>,
) -> Rooted
    requires pass { L.belongs links.now p.old }
    requires bucket { (1 ≤ bucket) × (bucket < greatest (L.numbers links.now)) }
    requires begins { (start : Place) × (s : Seat SplitNote) × HasRoomFor s.slots × (s.fresh ≡ None)
        × BeginsAt (L.numbers links.now) start (dummy_place bucket) left s (L.seat links.now p.old) }
    ensures pass { L.belongs links.now p.new }
    ensures later { IsPrefix (L.journal p.old) (L.journal p.new) }
    ensures tries { MadeFewBySearch 4 1 4 (L.seat links.now p.old) (L.seat links.now p.new) }
    ensures rooted { (start : Place) (s : Seat SplitNote) → HasRoomFor s.slots → s.fresh ≡ None
        → BeginsAt (L.numbers links.now) start (dummy_place bucket) left s (L.seat links.now p.old)
        → Roots (L.numbers links.now) bucket s result (L.seat links.now p.new) }
    ensures told { PartTells L.Links links.now result p.old p.new }
{
    match search_for(links, p, NewNode::Dummy(bucket), left) {
        Searched::Over => Rooted::Moved,
        Searched::Absent {
            left,
            first,
            right,
            passed: _,
        } => add_dummy(links, p, bucket, left, first, right),
        Searched::Present {
            left,
            first,
            node,
            next,
            passed: _,
        } => {
            let anchored = anchor(links, p, bucket, &node);
            let_all_go::<SplitPlace, L>(links, p, left, first, Some(node), next);
            anchored
        }
    }
}

// The greatest number of buckets that is no more than this one, where so many are the most.
fn size_within(bucket: u32, most: u32) -> u32
    requires bucket { 1 ≤ bucket }
    ensures low { result ≤ bucket }
    ensures within { result ≤ most }
    ensures size { (all : ℕ) → IsSize all most → IsSize all result }
{
    let mut size = most;
    while size > bucket {
        size = size / 2;
    }
    size
}

// Looks for the nearest ancestor of the bucket that has a dummy, and from there for the bucket's own.
fn root_near<L: Links<Rule = Split>>(links: &L, p: &mut L::Pass, bucket: u32, size: u32) -> Rooted
    requires pass { L.belongs links.now p.old }
    requires bucket { (1 ≤ bucket) × (bucket < greatest (L.numbers links.now)) }
    requires size { IsSize (greatest (L.numbers links.now)) size }
    requires begun { (s : Seat SplitNote) × (own : List (Event SplitNote)) × Quiet (split_reading (L.numbers links.now)) s own (L.seat links.now p.old)
        × ((L.seat links.now p.old).slots ≡ s.slots) × IsIdle s }
    ensures pass { L.belongs links.now p.new }
    ensures later { IsPrefix (L.journal p.old) (L.journal p.new) }
    ensures tries { (k : ℕ) → size ≤ 2 ^ k → MadeFewBySearch (4 + 2 * k) 1 4 (L.seat links.now p.old) (L.seat links.now p.new) }
    ensures rooted { (s : Seat SplitNote) (own : List (Event SplitNote)) → Quiet (split_reading (L.numbers links.now)) s own (L.seat links.now p.old)
        → (L.seat links.now p.old).slots ≡ s.slots → IsIdle s → Roots (L.numbers links.now) bucket s result (L.seat links.now p.new) }
    ensures told { PartTells L.Links links.now result p.old p.new }
{
    match begin_near(links, p, NewNode::Dummy(bucket), size_within(bucket, size)) {
        Begun::Moved => Rooted::Moved,
        Begun::From(left) => root_from(links, p, bucket, left),
    }
}

// Lets the bucket's root name its dummy, where it is null, unless the bucket is the first one.
fn root_bucket<L: Links<Rule = Split>>(links: &L, p: &mut L::Pass, bucket: u32, size: u32) -> Rooted
    requires pass { L.belongs links.now p.old }
    requires bucket { bucket < greatest (L.numbers links.now) }
    requires size { IsSize (greatest (L.numbers links.now)) size }
    requires idle { IsIdle (L.seat links.now p.old) }
    ensures pass { L.belongs links.now p.new }
    ensures later { IsPrefix (L.journal p.old) (L.journal p.new) }
    ensures tries { (k : ℕ) → size ≤ 2 ^ k → MadeFewBySearch (4 + 2 * k) 1 6 (L.seat links.now p.old) (L.seat links.now p.new) }
    ensures rooted { Roots (L.numbers links.now) bucket (L.seat links.now p.old) result (L.seat links.now p.new) }
    ensures told { PartTells L.Links links.now result p.old p.new }
    ensures few { HasStart (heap_of (L.numbers links.now) (L.seat links.now p.old)) bucket
        → LoadsFew (root_loads bucket) (L.seat links.now p.old) (L.seat links.now p.new) }
{
    if bucket == 0 {
        return Rooted::Done;
    }
    match links.look(p, &At::Root(bucket), 2) {
        Looked::Stable(_, Some(dummy)) => {
            links.release(p, dummy);
            Rooted::Done
        }
        Looked::Stable(_, None) => root_near(links, p, bucket, size),
        Looked::Moved => Rooted::Moved,
    }
}

// What a call does before its turns: where the root of its key's bucket is null, the bucket gets a dummy, which the root
// names from then on. One try; whatever comes of it, the call goes on. With no turns it does nothing.
pub(crate) fn prepare<L: Links<Rule = Split>>(
    links: &L,
    p: &mut L::Pass,
    most: u32,
    key: u64,
    turns: u64,
) -> Rooted
    requires pass { L.belongs links.now p.old }
    requires most { (most ≡ greatest (L.numbers links.now)) × (1 ≤ most) }
    requires idle { IsIdle (L.seat links.now p.old) }
    ensures pass { L.belongs links.now p.new }
    ensures later { IsPrefix (L.journal p.old) (L.journal p.new) }
    ensures tries { (k : ℕ) → most ≤ 2 ^ k → MadeFewBySearch (6 + 2 * k) 1 6 (L.seat links.now p.old) (L.seat links.now p.new) }
    ensures idle { IsIdle (L.seat links.now p.new) }
    ensures prepared { Prepares (L.numbers links.now) key turns (L.seat links.now p.old) result (L.seat links.now p.new) }
    ensures told { PartTells L.Links links.now result p.old p.new }
    ensures few { (gap : List (Event SplitNote)) → events_by (L.seat links.now p.old).agent gap ≡ []
        → HasStart (run_heap (L.numbers links.now) ((L.seat links.now p.old).seen ++ gap))
        (bucket_now (L.numbers links.now) key (seat_after (L.seat links.now p.old) gap))
        → LoadsFew (2 + root_loads (bucket_now (L.numbers links.now) key (seat_after (L.seat links.now p.old) gap)))
        (seat_after (L.seat links.now p.old) gap) (L.seat links.now p.new) }
{
    if turns == 0 {
        return Rooted::Done;
    }
    match read_size(links, p, most) {
        Some(size) => root_bucket(links, p, (key % u64::from(size)) as u32, size),
        None => Rooted::Moved,
    }
}
