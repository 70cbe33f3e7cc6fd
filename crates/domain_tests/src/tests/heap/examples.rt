//! Worked examples of the definitions, computed by hand and proved.

ghost use Rattle.std.specs.Prelude.{◌≡◌, ◌≢◌, ℕ, ◌+◌, List, ◌∷◌, [], Some, None, true, false};
ghost use Rattle.orc_heap.specs.{
  declared.events.{Event.{Event}, Link.{Link}},
  Heap.{Heap, HeapNumbers, Node, change, new_heap, new_node, null, shown},
  Acts.{Fits, IsFresh, IsKnown, IsTarget, StaysLinked, change_target, as_named, heap_after, moved_link, set_link, with_value},
  Journals.{FitsAfter, IsLawful, IsPlain, is_once_linked, is_once_named, moves_to, points_to, run_heap},
};

use orc_heap::{Act, Place};

// A new heap of two roots has two null links and no node.
fn new_heaps()
    ensures new { new_heap (record { roots = 2; links = 1 }) ≡ record { nodes = []; roots = null ∷ null ∷ []; links = 1 } }
    ensures root { shown (new_heap (record { roots = 2; links = 1 })) (Place.Root 1) ≡ Some null }
    ensures no_third_root { shown (new_heap (record { roots = 2; links = 1 })) (Place.Root 2) ≡ None }
    ensures no_node { shown (new_heap (record { roots = 2; links = 1 })) (Place.Next 0) ≡ None }
    ensures side { shown (record { nodes = new_node 3 ∷ []; roots = []; links = 2 }) (Place.Side 0) ≡ Some null }
    ensures no_side { shown (record { nodes = new_node 3 ∷ []; roots = []; links = 1 }) (Place.Side 0) ≡ None }
    ensures changed { change (λ (n : ℕ). n + 1) 1 (4 ∷ 7 ∷ 9 ∷ []) ≡ 4 ∷ 8 ∷ 9 ∷ [] }
    ensures beyond { change (λ (n : ℕ). n + 1) 3 (4 ∷ 7 ∷ 9 ∷ []) ≡ 4 ∷ 7 ∷ 9 ∷ [] }
{}

// Agent 3 is given node 0, fills it and links it from the one root: after each act, the heap.
fn acts()
    ensures given { heap_after 3 Act.Give (new_heap (record { roots = 1; links = 1 })) ≡ record { nodes = new_node 3 ∷ []; roots = null ∷ []; links = 1 } }
    ensures filled { heap_after 3 (Act.Fill 0 1 8) (record { nodes = new_node 3 ∷ []; roots = null ∷ []; links = 1 })
        ≡ record { nodes = record { giver = 3; first = None; second = Some 8; link = null; side = null; named = false; linked = false } ∷ []; roots = null ∷ []; links = 1 } }
    ensures moved { heap_after 3 (Act.Move (Place.Root 0) null (record { to = Some 0; mark = false })) (record { nodes = new_node 3 ∷ []; roots = null ∷ []; links = 1 })
        ≡ record {
          nodes = record { giver = 3; first = None; second = None; link = null; side = null; named = true; linked = true } ∷ [];
          roots = record { to = Some 0; mark = false } ∷ [];
          links = 1;
        } }
    ensures aimed { heap_after 3 (Act.Aim 1 (Some 0)) (record { nodes = new_node 2 ∷ new_node 3 ∷ []; roots = null ∷ []; links = 1 })
        ≡ record {
          nodes = record { giver = 2; first = None; second = None; link = null; side = null; named = true; linked = false }
              ∷ record { giver = 3; first = None; second = None; link = record { to = Some 0; mark = false }; side = null; named = false; linked = false } ∷ [];
          roots = null ∷ [];
          links = 1;
        } }
    ensures second_aimed { heap_after 3 (Act.AimSide 0 (Some 0)) (record { nodes = new_node 3 ∷ []; roots = null ∷ []; links = 2 })
        ≡ record {
          nodes = record { giver = 3; first = None; second = None; link = null; side = record { to = Some 0; mark = false }; named = true; linked = false } ∷ [];
          roots = null ∷ [];
          links = 2;
        } }
    ensures missed { heap_after 3 (Act.Miss (Place.Root 0) (record { to = Some 0; mark = true }) null) (new_heap (record { roots = 1; links = 1 })) ≡ new_heap
        (record { roots = 1; links = 1 }) }
{}

// Node 0 was given to agent 3, and nothing was linked.
fn fitting()
    ensures its_own { Fits 3 (Act.Fill 0 1 8) (record { nodes = new_node 3 ∷ []; roots = null ∷ []; links = 1 }) }
    ensures no_third_value { ¬ Fits 3 (Act.Fill 0 2 8) (record { nodes = new_node 3 ∷ []; roots = null ∷ []; links = 1 }) }
    ensures of_another { ¬ Fits 2 (Act.Fill 0 1 8) (record { nodes = new_node 3 ∷ []; roots = null ∷ []; links = 1 }) }
    ensures reaches { Fits 3 (Act.Move (Place.Root 0) null (record { to = Some 0; mark = false })) (record { nodes = new_node 3 ∷ []; roots = null ∷ []; links = 1 }) }
    ensures out_of_reach { ¬ Fits 2 (Act.Move (Place.Root 0) null (record { to = Some 0; mark = false }))
        (record { nodes = new_node 3 ∷ []; roots = null ∷ []; links = 1 }) }
    ensures second_link { Fits 3 (Act.AimSide 0 None) (record { nodes = new_node 3 ∷ []; roots = null ∷ []; links = 2 }) }
    ensures no_second_link { ¬ Fits 3 (Act.AimSide 0 None) (record { nodes = new_node 3 ∷ []; roots = null ∷ []; links = 1 }) }
    ensures looks { Fits 2 (Act.Look (Place.Root 0) null) (record { nodes = new_node 3 ∷ []; roots = null ∷ []; links = 1 }) }
    ensures looks_elsewhere { ¬ Fits 2 (Act.Look (Place.Root 1) null) (record { nodes = new_node 3 ∷ []; roots = null ∷ []; links = 1 }) }
    ensures no_miss { ¬ Fits 2 (Act.Miss (Place.Root 0) null null) (record { nodes = new_node 3 ∷ []; roots = null ∷ []; links = 1 }) }
{}

// Node 0 still is linked, with its values and this link.
fn nodes_that_stay()
    ensures stays { let old : Node = record { giver = 3; first = Some 7; second = None; link = null; side = null; named = true; linked = true } in
        StaysLinked (record { nodes = old ∷ new_node 2 ∷ []; roots = []; links = 1 }) 0 old null }
    ensures refilled { let old : Node = record { giver = 3; first = Some 7; second = None; link = null; side = null; named = true; linked = true } in
        let node : Node = record { giver = 3; first = Some 8; second = None; link = null; side = null; named = true; linked = true } in
        ¬ StaysLinked (record { nodes = node ∷ []; roots = []; links = 1 }) 0 old null }
{}

// A once linked node's link after a Move of it, and of another place.
fn linked_nodes()
    ensures moved { moved_link (Act.Move (Place.Next 4) null (record { to = Some 0; mark = false })) 4 null ≡ record { to = Some 0; mark = false } }
    ensures another { moved_link (Act.Move (Place.Next 5) null (record { to = Some 0; mark = false })) 4 null ≡ null }
    ensures of_a_root { moved_link (Act.Move (Place.Root 4) null (record { to = Some 0; mark = false })) 4 null ≡ null }
{}

// Agent 3 links its node 0 from the root; agent 2 looks, and then aims its own node at it.
fn journals()
    ensures lawful { let es : List (Event ℕ) =
        record { agent = 3; act = Act.Give; note = None }
        ∷ record { agent = 3; act = Act.Move (Place.Root 0) null (record { to = Some 0; mark = false }); note = Some 7 }
        ∷ record { agent = 2; act = Act.Look (Place.Root 0) (record { to = Some 0; mark = false }); note = None } ∷ [] in
        IsLawful (record { roots = 1; links = 1 }) es × (is_once_linked es 0 ≡ true) × (is_once_linked es 1 ≡ false) }
    ensures unlawful { let es : List (Event ℕ) =
        record { agent = 3; act = Act.Give; note = None }
        ∷ record { agent = 2; act = Act.Fill 0 0 5; note = None } ∷ [] in
        ¬ IsLawful (record { roots = 1; links = 1 }) es }
    ensures aimed { let es : List (Event ℕ) =
        record { agent = 3; act = Act.Give; note = None }
        ∷ record { agent = 3; act = Act.Aim 0 (Some 0); note = None } ∷ [] in
        IsLawful (record { roots = 1; links = 1 }) es × (is_once_named es 0 ≡ true) × (is_once_linked es 0 ≡ false) }
    ensures plain { let e : Event ℕ = record { agent = 3; act = Act.Aim 0 None; note = None } in IsPlain e }
    ensures noted { let e : Event ℕ = record { agent = 3; act = Act.Look (Place.Root 0) null; note = Some 7 } in ¬ IsPlain e }
    ensures linking { let e : Event ℕ = record { agent = 3; act = Act.Aim 1 (Some 0); note = None } in ¬ IsPlain e }
{}
