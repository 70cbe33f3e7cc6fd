//! A call that stops between the dummy of a bucket and the root that is to name it.

ghost use Rattle.std.specs.Prelude.{◌≡◌, ◌<◌, ◌≤◌};
ghost use mathlib.Core.List.{IsPrefix};
ghost use Rattle.orc_fault.specs.declared.Spent.{Spent};
ghost use Rattle.orc_heap.specs.Seats.{IsIdle};
ghost use Rattle.orc_ordered_search.specs.declared.turn.InsertTurn.{InsertTurn};
ghost use Rattle.orc_split_rule.specs.SplitDiscipline.{greatest};
ghost use Rattle.orc_split_set.specs.{SetCalls.{FindsWorn, LacksRow}, Stops.{StopsUnnamed, linked_by}};

use crate::node::NewNode;
use crate::order::SplitPlace;
use crate::search::search_for;
use orc_heap::Links;
use orc_ordered_search::{InsertTurn, Searched, add_node, let_all_go, turn_of};
use orc_split_rule::{Split, SplitNote};

// Links the dummy of a bucket that has none, in one turn, and leaves the bucket's root as it was.
pub(crate) fn stop_a_bucket<L: Links<Rule = Split>>(
    links: &L,
    p: &mut L::Pass,
    bucket: u32,
) -> InsertTurn
    requires pass { L.belongs links.now p.old }
    requires bucket { (1 ≤ bucket) × (bucket < greatest (L.numbers links.now)) }
    requires idle { IsIdle (L.seat links.now p.old) }
    ensures pass { L.belongs links.now p.new }
    ensures later { IsPrefix (L.journal p.old) (L.journal p.new) }
    ensures stopped { StopsUnnamed (L.numbers links.now) bucket (L.seat links.now p.old) result (L.seat links.now p.new) }
    ensures lacking { result ≡ InsertTurn.NoNode → LacksRow L.Links links.now p.old p.new }
    ensures worn { (why : Spent) → result ≡ InsertTurn.Spent why → FindsWorn L.Links links.now why p.old p.new }
{
    match search_for(links, p, NewNode::Dummy(bucket), None) {
        Searched::Over => InsertTurn::Over,
        Searched::Absent {
            left,
            first,
            right,
            passed,
        } => match links.give(p, 1, u64::from(bucket), 0) {
            Ok(dummy) => {
                let note = SplitNote::Bucket;
                let done = add_node::<SplitPlace, L>(links, p, 0, note, left, first, right, &dummy);
                links.release(p, dummy);
                turn_of(passed, done)
            }
            Err(_) => {
                let_all_go::<SplitPlace, L>(links, p, left, first, right, None);
                InsertTurn::NoNode
            }
        },
        Searched::Present {
            left,
            first,
            node,
            next,
            passed,
        } => {
            let_all_go::<SplitPlace, L>(links, p, left, first, Some(node), next);
            InsertTurn::Answered(false, passed)
        }
    }
}

// Whether a turn that ended so linked the node.
pub(crate) fn has_linked(turn: InsertTurn) -> bool
    ensures { result ≡ linked_by turn }
{
    match turn {
        InsertTurn::Over => false,
        InsertTurn::Answered(linked, _) => linked,
        InsertTurn::NoNode => false,
        InsertTurn::Spent(_) => false,
    }
}
