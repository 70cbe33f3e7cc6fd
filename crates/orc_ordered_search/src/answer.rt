//! Answers that change nothing: one load that still finds the link on which the answer rests.

ghost use Rattle.std.specs.Prelude.{◌≡◌, ◌<◌, ℕ};
ghost use mathlib.Core.List.{IsPrefix};
ghost use Rattle.orc_heap.specs.{Seats.{Seat}, declared.events.Place.{Place}};
ghost use Rattle.orc_ordered_search.specs.{
  Entries.{IsAbsence, IsPresence},
  Reading.{reading_by},
  Searches.{FindsAbsent, FindsPresent},
  Turns.{EntersFew, LoadsOnce},
};

use crate::in_hand::{let_all_go, link_of, link_to, place_of};
use crate::set_rank::SetRank;
use orc_heap::{At, Held, Links};
use orc_history::SetEntry;

/// Enters an answer that rests on the key's absence, if the left place still shows its link. Lets all nodes go.
pub fn enter_absent<K: SetRank, L: Links<Rule = K::Rule>>(
    links: &L,
    p: &mut L::Pass,
    root: u32,
    key: u64,
    left: Option<Held>,
    first: Option<Held>,
    right: Option<Held>,
    entry: SetEntry,
) -> bool
    requires pass { L.belongs links.now p.old }
    requires root { (root < (L.numbers links.now).roots) × (root ≡ (reading_by (L.numbers links.now) K.manner).order.root (K.key_rank key)) }
    requires entry { IsAbsence (L.seat links.now p.old).agent key entry }
    requires absent { (start : Place) × (passed : ℕ) × (s : Seat K.Rule.Note)
        × FindsAbsent (reading_by (L.numbers links.now) K.manner) start (K.key_rank key) passed left first right s (L.seat links.now p.old) }
    ensures pass { L.belongs links.now p.new }
    ensures later { IsPrefix (L.journal p.old) (L.journal p.new) }
    ensures entered { (start : Place) (passed : ℕ) (s : Seat K.Rule.Note)
        → FindsAbsent (reading_by (L.numbers links.now) K.manner) start (K.key_rank key) passed left first right s (L.seat links.now p.old)
        → EntersFew (reading_by (L.numbers links.now) K.manner) entry s result (L.seat links.now p.new) }
    ensures load { LoadsOnce (L.seat links.now p.old) (L.seat links.now p.new) }
{
    let note = K::note(entry);
    let entered = links.same(
        p,
        &place_of(root, &left),
        &link_of(&first, &right),
        Some(note),
    );
    let_all_go::<K, L>(links, p, left, first, right, None);
    entered
}

/// Enters an answer that rests on the key's presence, if its node still shows its unmarked link. Lets all nodes go.
pub fn enter_present<K: SetRank, L: Links<Rule = K::Rule>>(
    links: &L,
    p: &mut L::Pass,
    key: u64,
    left: Option<Held>,
    first: Option<Held>,
    node: Held,
    next: Option<Held>,
    entry: SetEntry,
) -> bool
    requires pass { L.belongs links.now p.old }
    requires entry { IsPresence (L.seat links.now p.old).agent key entry }
    requires present { (start : Place) × (passed : ℕ) × (s : Seat K.Rule.Note)
        × FindsPresent (reading_by (L.numbers links.now) K.manner) start (K.key_rank key) passed left first node next s (L.seat links.now p.old) }
    ensures pass { L.belongs links.now p.new }
    ensures later { IsPrefix (L.journal p.old) (L.journal p.new) }
    ensures entered { (start : Place) (passed : ℕ) (s : Seat K.Rule.Note)
        → FindsPresent (reading_by (L.numbers links.now) K.manner) start (K.key_rank key) passed left first node next s (L.seat links.now p.old)
        → EntersFew (reading_by (L.numbers links.now) K.manner) entry s result (L.seat links.now p.new) }
    ensures load { LoadsOnce (L.seat links.now p.old) (L.seat links.now p.new) }
{
    let note = K::note(entry);
    let entered = links.same(p, &At::Node(&node), &link_to(&next, false), Some(note));
    let_all_go::<K, L>(links, p, left, first, Some(node), next);
    entered
}
