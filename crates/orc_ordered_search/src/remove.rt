//! Taking a key out: its node's own link is marked, and then the left place is led past the marked nodes.

ghost use Rattle.std.specs.Prelude.{◌≡◌, ◌<◌, ℕ, List, ◌∷◌, Some, true};
ghost use mathlib.Core.List.{IsPrefix};
ghost use Rattle.orc_heap.specs.{Seats.{Seat, heap_of}, Slots.{Holds, id_in}, declared.events.Place.{Place}};
ghost use Rattle.orc_history.specs.declared.set.SetEntry.{SetEntry};
ghost use Rattle.orc_ordered_chains.specs.Chains.{HasRank, IsChainPlace, IsRun, link_over};
ghost use Rattle.orc_ordered_search.specs.{
  Causes.{HasWorn},
  Reading.{reading_by},
  Searches.{FindsPresent, HoldsIfAny, NextFollows, place_at, target_at},
  Turns.{Marks, TakesOut, TriesUnlink},
};

use crate::in_hand::{let_all_go, link_to, node_or, place_of};
use crate::set_rank::SetRank;
use orc_heap::{At, Held, Links, Want};
use orc_history::SetEntry;

/// Marks the link of the node with the key. A swing that changes the mark alone is never refused.
pub fn mark_node<K: SetRank, L: Links<Rule = K::Rule>>(
    links: &L,
    p: &mut L::Pass,
    key: u64,
    node: &Held,
    next: &Option<Held>,
) -> bool
    requires pass { L.belongs links.now p.old }
    requires node { Holds (L.seat links.now p.old).slots node.now }
    requires next { HoldsIfAny (L.seat links.now p.old).slots next.now }
    requires key { HasRank (reading_by (L.numbers links.now) K.manner).order (heap_of (L.numbers links.now) (L.seat links.now p.old)) (id_in
        (L.seat links.now p.old).slots node.now) (K.key_rank key) }
    requires follows { NextFollows (reading_by (L.numbers links.now) K.manner) (id_in (L.seat links.now p.old).slots node.now) (target_at
        (L.seat links.now p.old).slots next.now) (L.seat links.now p.old) }
    ensures pass { L.belongs links.now p.new }
    ensures later { IsPrefix (L.journal p.old) (L.journal p.new) }
    ensures marked { Marks (K.noted (SetEntry.Removed (L.seat links.now p.old).agent key true)) (id_in (L.seat links.now p.old).slots node.now)
        (target_at (L.seat links.now p.old).slots next.now) (L.seat links.now p.old) result (L.seat links.now p.new) }
{
    let agent = links.agent(p);
    let yes = true;
    let note = K::note(SetEntry::Removed { agent, key, yes });
    match links.swing(
        p,
        &At::Node(node),
        &link_to(next, false),
        &link_to(next, true),
        Some(note),
    ) {
        Ok(done) => done,
        Err(_) => unreachable!(),
    }
}

// One try to lead the left place past the run that ends with the marked node, whatever comes of it.
fn unlink_run<K: SetRank, L: Links<Rule = K::Rule>>(
    links: &L,
    p: &mut L::Pass,
    root: u32,
    left: &Option<Held>,
    first: &Held,
    next: &Option<Held>,
)
    requires pass { L.belongs links.now p.old }
    requires root { root < (L.numbers links.now).roots }
    requires held { HoldsIfAny (L.seat links.now p.old).slots left.now × Holds (L.seat links.now p.old).slots first.now
        × HoldsIfAny (L.seat links.now p.old).slots next.now }
    requires left { IsChainPlace (reading_by (L.numbers links.now) K.manner).order (heap_of (L.numbers links.now) (L.seat links.now p.old)) (place_at
        (L.seat links.now p.old).slots root left.now) }
    requires run { (others : List ℕ) × IsRun (heap_of (L.numbers links.now) (L.seat links.now p.old)) (link_over (target_at (L.seat links.now p.old).slots
        (Some first.now)))
        (id_in (L.seat links.now p.old).slots first.now ∷ others) (target_at (L.seat links.now p.old).slots next.now) }
    requires follows { (id : ℕ) × NextFollows (reading_by (L.numbers links.now) K.manner) id (target_at (L.seat links.now p.old).slots next.now)
        (L.seat links.now p.old) }
    ensures pass { L.belongs links.now p.new }
    ensures later { IsPrefix (L.journal p.old) (L.journal p.new) }
    ensures tried { TriesUnlink K.unlinking (place_at (L.seat links.now p.old).slots root left.now) (id_in (L.seat links.now p.old).slots first.now)
        (target_at (L.seat links.now p.old).slots next.now)
        (HasWorn (L.worn links.now (L.seat links.now p.old).agent) (L.journal p.old) (L.journal p.new))
        (L.seat links.now p.old) (L.seat links.now p.new) }
{
    let note = K::unlink_note();
    let _tried = links.swing(
        p,
        &place_of(root, left),
        &Want::Node(first, false),
        &link_to(next, false),
        Some(note),
    );
}

/// Takes the key out at its node, which a search found. Lets all nodes go.
pub fn take_out<K: SetRank, L: Links<Rule = K::Rule>>(
    links: &L,
    p: &mut L::Pass,
    root: u32,
    key: u64,
    left: Option<Held>,
    first: Option<Held>,
    node: Held,
    next: Option<Held>,
) -> bool
    requires pass { L.belongs links.now p.old }
    requires root { (root < (L.numbers links.now).roots) × (root ≡ (reading_by (L.numbers links.now) K.manner).order.root (K.key_rank key)) }
    requires present { (start : Place) × (passed : ℕ) × (s : Seat K.Rule.Note)
        × FindsPresent (reading_by (L.numbers links.now) K.manner) start (K.key_rank key) passed left first node next s (L.seat links.now p.old) }
    ensures pass { L.belongs links.now p.new }
    ensures later { IsPrefix (L.journal p.old) (L.journal p.new) }
    ensures removed { (start : Place) (passed : ℕ) (s : Seat K.Rule.Note)
        → (f : FindsPresent (reading_by (L.numbers links.now) K.manner) start (K.key_rank key) passed left first node next s (L.seat links.now p.old))
        → TakesOut (reading_by (L.numbers links.now) K.manner) (K.noted (SetEntry.Removed (L.seat links.now p.old).agent key true)) K.unlinking start
        (K.key_rank key) passed left first node next (HasWorn (L.worn links.now (L.seat links.now p.old).agent) (L.journal p.old) (L.journal p.new)) s
        (L.seat links.now p.old) f result (L.seat links.now p.new) }
{
    if !mark_node::<K, L>(links, p, key, &node, &next) {
        let_all_go::<K, L>(links, p, left, first, Some(node), next);
        return false;
    }
    unlink_run::<K, L>(links, p, root, &left, node_or(&first, &node), &next);
    let_all_go::<K, L>(links, p, left, first, Some(node), next);
    true
}
