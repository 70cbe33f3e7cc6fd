//! The discipline of roots of one's own.

ghost use Rattle.links_example.specs.{
  Laws.OwnRoots.{own_roots_allows_plain, own_roots_keeps, own_roots_moves_linked},
  OwnRoots.{OwnRootsHolds, OwnRootsMay},
};

use orc_heap::Discipline;

/// Each agent has a root of its own, that of its number, which it alone changes. A Move is noted with the number
/// of its agent. Links in nodes are set before the node is linked, and no link is marked.
pub struct OwnRoots;

impl Discipline for OwnRoots {
    type Note = u32;

    ghost holds = { OwnRootsHolds };

    ghost may = { OwnRootsMay };

    ghost keeps = { own_roots_keeps };

    ghost fits = { λ n seen e h m. m.0 };

    ghost allows_plain = { own_roots_allows_plain };

    ghost moves_linked = { own_roots_moves_linked };
}
