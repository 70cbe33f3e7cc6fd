//! Laws of heaps and their journals.

ghost use Rattle.std.specs.List.{list_any};
ghost use Rattle.std.specs.Prelude.{◌≡◌, ◌≢◌, ℕ, ◌↔◌, ◌++◌, List, Some, true, slice_get};
ghost use Rattle.orc_heap.specs.{
  Heap.{Heap, HeapNumbers, Node, shown},
  Acts.{Fits, StaysLinked, heap_after, moved_link, moved_side},
  Journals.{IsLawful, IsLawfulFrom, is_once_linked, is_once_named, run_from, run_heap},
  Moves.{IsLinkedPlace, moves_place},
  declared.events.{Act.{Act}, Event.{Event}, Link.{Link}, Place.{Place}},
};

/// A node to which a Move made a link stays such a node, keeps both values, and keeps each of its links but for a
/// Move of it.
pub fn once_linked_nodes_stay()
    ensures first { (agent : ℕ) (act : Act) (h : Heap) (id : ℕ) (old : Node) → Fits agent act h
        → slice_get h.nodes id ≡ Some old → old.linked ≡ true
        → StaysLinked (heap_after agent act h) id old (moved_link act id old.link) }
    ensures second { (agent : ℕ) (act : Act) (h : Heap) (id : ℕ) (old node : Node) → Fits agent act h
        → slice_get h.nodes id ≡ Some old → old.linked ≡ true → slice_get (heap_after agent act h).nodes id ≡ Some node
        → node.side ≡ moved_side act id old.side }
{}

/// After a lawful list of events a node's record says whether some Move, and whether some Aim, AimSide or Move, of the
/// list made a link to it.
pub fn a_node_tells_its_journal<N>()
    ensures linked { (n : HeapNumbers) (es : List (Event N)) (id : ℕ) (node : Node) → IsLawful n es
        → slice_get (run_heap n es).nodes id ≡ Some node → node.linked ≡ is_once_linked es id }
    ensures named { (n : HeapNumbers) (es : List (Event N)) (id : ℕ) (node : Node) → IsLawful n es
        → slice_get (run_heap n es).nodes id ≡ Some node → node.named ≡ is_once_named es id }
{}

/// A run over two lists of events is a run over the first and then one over the second.
pub fn journals_go_on<N>()
    ensures heap { (h : Heap) (first second : List (Event N)) → run_from h (first ++ second) ≡ run_from (run_from h first) second }
    ensures lawful { (h : Heap) (first second : List (Event N))
        → IsLawfulFrom h (first ++ second) ↔ (IsLawfulFrom h first × IsLawfulFrom (run_from h first) second) }
{}

/// Where a root, or a link of a once linked node, shows one link and later another, a Move of it stands in between.
pub fn a_changed_link_was_moved<N>()
    ensures { (h : Heap) (place : Place) (one two : Link) (es : List (Event N)) → IsLawfulFrom h es → IsLinkedPlace place h
        → shown h place ≡ Some one → shown (run_from h es) place ≡ Some two → one ≢ two
        → list_any (λ e. moves_place place e.act) es ≡ true }
{}

/// A node to which a root leads was linked by a Move.
pub fn roots_lead_to_linked_nodes<N>()
    ensures { (n : HeapNumbers) (es : List (Event N)) (root id : ℕ) (link : Link) → link.to ≡ Some id
        → shown (run_heap n es) (Place.Root root) ≡ Some link → is_once_linked es id ≡ true }
{}
