//! The search for a place in split order.

ghost use Rattle.std.specs.Prelude.{◌<◌};
ghost use mathlib.Core.List.{IsPrefix};
ghost use Rattle.orc_heap.specs.{Seats.{Seat}, declared.events.Place.{Place}};
ghost use Rattle.orc_ordered_search.specs.{Searches.{HasRoom}, Steps.{Finds}};
ghost use Rattle.orc_split_rule.specs.declared.split.SplitNote.{SplitNote};
ghost use Rattle.orc_split_set.specs.{NewNodes.{place_for}, SplitSearches.{BeginsAt, split_reading}};

use crate::node::NewNode;
use orc_heap::{Held, Links};
use orc_ordered_search::{Searched, search_chain};
use orc_split_rule::Split;

// Searches the place where this node belongs.
pub(crate) fn search_for<L: Links<Rule = Split>>(
    links: &L,
    p: &mut L::Pass,
    wanted: NewNode,
    left: Option<Held>,
) -> Searched
    requires pass { L.belongs links.now p.old }
    requires roots { 0 < (L.numbers links.now).roots }
    requires begins { (place : Place) × (s : Seat SplitNote) × HasRoom s.slots
        × BeginsAt (L.numbers links.now) place (place_for wanted) left s (L.seat links.now p.old) }
    ensures pass { L.belongs links.now p.new }
    ensures later { IsPrefix (L.journal p.old) (L.journal p.new) }
    ensures found { (place : Place) (s : Seat SplitNote) → HasRoom s.slots
        → BeginsAt (L.numbers links.now) place (place_for wanted) left s (L.seat links.now p.old)
        → Finds (split_reading (L.numbers links.now)) place (place_for wanted) s result (L.seat links.now p.new) }
{
    search_chain(links, p, 0, wanted.place(), left)
}
