//! The nodes that a search has in hand, and the places and links that they stand for.

ghost use Rattle.std.specs.Prelude.{◌≡◌, ◌≢◌, ◌≤◌, ◌<◌, Some, false};
ghost use mathlib.Core.List.{IsPrefix};
ghost use Rattle.orc_heap.specs.{Heap.{HeapNumbers}, Slots.{Holds, Slots}, Seats.{HoldsPlace, HoldsWant, link_in, place_in}};
ghost use Rattle.orc_ordered_search.specs.{
  Reading.{reading_by},
  Searches.{AllGone, HoldsIfAny, InHand, KeepsFirst, LetsGo, first_or, place_at, slot_in, target_at},
};

use crate::rank::Rank;
use orc_heap::{At, Held, Links, Want};

/// Lets a node go, if there is one.
pub fn let_go<L: Links>(links: &L, p: &mut L::Pass, node: Option<Held>)
    requires pass { L.belongs links.now p.old }
    requires held { HoldsIfAny (L.seat links.now p.old).slots node }
    ensures pass { L.belongs links.now p.new }
    ensures later { IsPrefix (L.journal p.old) (L.journal p.new) }
    ensures let_go { LetsGo node (L.seat links.now p.old) (L.seat links.now p.new) }
{
    if let Some(node) = node {
        links.release(p, node);
    }
}

/// Lets four nodes go, as far as there are so many.
pub fn let_all_go<K: Rank, L: Links<Rule = K::Rule>>(
    links: &L,
    p: &mut L::Pass,
    left: Option<Held>,
    first: Option<Held>,
    at: Option<Held>,
    next: Option<Held>,
)
    requires pass { L.belongs links.now p.old }
    requires hands { (slots : Slots) × InHand (reading_by (L.numbers links.now) K.manner) slots left first at next (L.seat links.now p.old) }
    ensures pass { L.belongs links.now p.new }
    ensures later { IsPrefix (L.journal p.old) (L.journal p.new) }
    ensures gone { (slots : Slots) → InHand (reading_by (L.numbers links.now) K.manner) slots left first at next (L.seat links.now p.old)
        → AllGone slots (L.seat links.now p.old) (L.seat links.now p.new) }
{
    let_go(links, p, left);
    let_go(links, p, first);
    let_go(links, p, at);
    let_go(links, p, next);
}

/// The first of the marked nodes: this one, or the other, where there is none yet. The other is let go if it isn't.
pub fn keep_first<L: Links>(links: &L, p: &mut L::Pass, first: Option<Held>, at: Held) -> Held
    requires pass { L.belongs links.now p.old }
    requires held { Holds (L.seat links.now p.old).slots at }
    ensures pass { L.belongs links.now p.new }
    ensures later { IsPrefix (L.journal p.old) (L.journal p.new) }
    ensures kept { KeepsFirst first at result (L.seat links.now p.old) (L.seat links.now p.new) }
{
    match first {
        Some(first) => {
            links.release(p, at);
            first
        }
        None => at,
    }
}

/// The slot of a node, or 8 where there is none.
#[inline]
pub fn slot_of(node: &Option<Held>) -> u32
    ensures { result ≡ slot_in node.now }
{
    match node {
        Some(node) => node.slot(),
        None => 8,
    }
}

/// A slot from 2 to 5 other than these three.
#[inline]
pub fn spare_slot(left: u32, first: u32, at: u32) -> u32
    ensures range { (2 ≤ result) × (result < 6) }
    ensures left { result ≢ left }
    ensures first { result ≢ first }
    ensures at { result ≢ at }
{
    if left != 2 && first != 2 && at != 2 {
        2
    } else if left != 3 && first != 3 && at != 3 {
        3
    } else if left != 4 && first != 4 && at != 4 {
        4
    } else {
        5
    }
}

/// The place at which a search stands: the link of the node in hand, or else this root.
#[inline]
pub fn place_of<'a>(root: u32, left: &'a Option<Held>) -> At<'a>
    ensures place { (slots : Slots) → place_in slots result ≡ place_at slots root left.now }
    ensures held { (n : HeapNumbers) (slots : Slots) → root < n.roots → HoldsIfAny slots left.now → HoldsPlace n slots result }
{
    match left {
        Some(node) => At::Node(node),
        None => At::Root(root),
    }
}

/// A link to this node, or to none.
#[inline]
pub fn link_to<'a>(node: &'a Option<Held>, mark: bool) -> Want<'a>
    ensures link { (slots : Slots) → link_in slots result ≡ record { to = target_at slots node.now; mark = mark } }
    ensures held { (slots : Slots) → HoldsIfAny slots node.now → HoldsWant slots result }
{
    match node {
        Some(node) => Want::Node(node, mark),
        None => Want::Null(mark),
    }
}

/// The unmarked link that leads to the first of the marked nodes, or else to the right node.
#[inline]
pub fn link_of<'a>(first: &'a Option<Held>, right: &'a Option<Held>) -> Want<'a>
    ensures link { (slots : Slots) → link_in slots result ≡ record { to = target_at slots (first_or first.now right.now); mark = false } }
    ensures held { (slots : Slots) → HoldsIfAny slots first.now → HoldsIfAny slots right.now → HoldsWant slots result }
{
    match first {
        Some(node) => Want::Node(node, false),
        None => link_to(right, false),
    }
}

/// The first of the marked nodes, or else the node behind them.
#[inline]
pub fn node_or<'a>(first: &'a Option<Held>, node: &'a Held) -> &'a Held
    ensures { Some result.now ≡ first_or first.now (Some node.now) }
{
    match first {
        Some(first) => first,
        None => node,
    }
}
