//! Laws of ordered chains.

ghost use Rattle.std.specs.Prelude.{◌≡◌, ℕ, ◌<◌, List, Option, Some, true, false};
ghost use Rattle.orc_heap.specs.{
  Acts.{Fits, heap_after},
  Heap.{Heap, HeapNumbers, new_heap, shown},
  Moves.{move_with},
  declared.events.{Act.{Act}, Link.{Link}, Place.{Place}},
};
ghost use Rattle.orc_ordered_chains.specs.Chains.{AreChains, FollowsOn, HasRank, IsAbove, IsLive, IsOnChain, IsPath, IsRun, MayLink, MayMark, MayUnlink, Order};

/// The chains of a new heap are in order, and stay so where a node is linked, where one is marked, where marked nodes
/// are led past, and after each act that is no Move.
pub fn chains_stay_in_order()
    ensures nothing { (o : Order) (n : HeapNumbers) → AreChains o (new_heap n) }
    ensures linked { (o : Order) (h : Heap) (agent : ℕ) (place : Place) (from to : Link) (rank : ℕ) → AreChains o h
        → MayLink o h place from to rank → Fits agent (Act.Move place from to) h
        → AreChains o (heap_after agent (Act.Move place from to) h) }
    ensures marked { (o : Order) (h : Heap) (agent id : ℕ) (from to : Link) → AreChains o h
        → MayMark o h id from to → Fits agent (Act.Move (Place.Next id) from to) h
        → AreChains o (heap_after agent (Act.Move (Place.Next id) from to) h) }
    ensures unlinked { (o : Order) (h : Heap) (agent : ℕ) (place : Place) (from to : Link) → AreChains o h
        → MayUnlink o h place from to → Fits agent (Act.Move place from to) h
        → AreChains o (heap_after agent (Act.Move place from to) h) }
    ensures other { (o : Order) (h : Heap) (agent : ℕ) (act : Act) → AreChains o h
        → move_with act ≡ 0 → Fits agent act h → AreChains o (heap_after agent act h) }
{}

/// A node is reached only from the root of its rank.
pub fn a_node_is_reached_from_one_root()
    ensures { (o : Order) (h : Heap) (root id rank : ℕ) → AreChains o h → o.begins root ≡ true
        → IsOnChain h root id → HasRank o h id rank → o.root rank ≡ root }
{}

/// Of nodes whose own link is unmarked, no two have one rank, and one with a greater rank of the same root stands behind
/// the other.
pub fn unmarked_nodes_stand_in_order()
    ensures one { (o : Order) (h : Heap) (id other rank : ℕ) → AreChains o h
        → IsLive o h id rank → IsLive o h other rank → id ≡ other }
    ensures behind { (o : Order) (h : Heap) (id other low high : ℕ) → AreChains o h
        → IsLive o h id low → IsLive o h other high → low < high → o.root low ≡ o.root high
        → (over : List ℕ) × IsPath h (Place.Next id) over (Some other) }
{}

/// No node whose own link is unmarked has a rank that may follow a place which shows an unmarked link, and from there a run
/// of marked nodes, possibly none, leads to null or above the rank.
pub fn ranks_left_out_are_absent()
    ensures { (o : Order) (h : Heap) (place : Place) (from : Link) (over : List ℕ) (to : Option ℕ) (id rank : ℕ) → AreChains o h
        → FollowsOn o h place rank → shown h place ≡ Some from → from.mark ≡ false
        → IsRun h from over to → IsAbove o h to rank → ¬ IsLive o h id rank }
{}
