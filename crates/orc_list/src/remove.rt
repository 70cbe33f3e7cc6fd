//! A remove that stops before its last step.

ghost use Rattle.std.specs.Prelude.{◌≡◌, ◌<◌, ◌%◌};
ghost use mathlib.Core.List.{IsPrefix};
ghost use Rattle.orc_ordered_search.specs.Searches.{HasRoom};
ghost use Rattle.orc_list.specs.Stops.{MarkStops};

use crate::key::Key;
use orc_chain_rule::Chain;
use orc_heap::Links;
use orc_ordered_search::{Searched, let_all_go, mark_node, search_chain};

// Marks the node with the key, in one turn, and stops before any place is led past it.
pub(crate) fn stop_a_remove<L: Links<Rule = Chain>>(
    links: &L,
    p: &mut L::Pass,
    root: u32,
    key: u64,
) -> bool
    requires pass { L.belongs links.now p.old }
    requires root { (root < (L.numbers links.now).roots) × (root ≡ key % (L.numbers links.now).roots) }
    requires room { HasRoom (L.seat links.now p.old).slots }
    ensures pass { L.belongs links.now p.new }
    ensures later { IsPrefix (L.journal p.old) (L.journal p.new) }
    ensures stopped { MarkStops (L.numbers links.now) key (L.seat links.now p.old) result (L.seat links.now p.new) }
{
    match search_chain(links, p, root, Key(key), None) {
        Searched::Over => false,
        Searched::Absent {
            left,
            first,
            right,
            passed: _,
        } => {
            let_all_go::<Key, L>(links, p, left, first, right, None);
            false
        }
        Searched::Present {
            left,
            first,
            node,
            next,
            passed: _,
        } => {
            let marked = mark_node::<Key, L>(links, p, key, &node, &next);
            let_all_go::<Key, L>(links, p, left, first, Some(node), next);
            marked
        }
    }
}
