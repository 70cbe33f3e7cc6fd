//! Worked examples of what passes show and calls tell, computed by hand and proved.

ghost use Rattle.std.specs.Prelude.{◌≡◌, ◌≢◌, ℕ, ◌==◌, List, ◌∷◌, [], Some, None, true, false, replicate};
ghost use Rattle.orc_fault.specs.declared.Spent.{Spent};
ghost use Rattle.orc_heap.specs.{
  declared.events.Event.{Event},
  Heap.{HeapNumbers, new_node, null},
  Journals.{IsLawful},
  Allowed.{AllAllowed, AllowedLater, Later, MovesLinked, Rises, events_by},
  Moves.{IsLinkedPlace, from_own, gives_in, moves_in, moves_place},
  Slots.{Hold, Holds, IsFree, SlotNode, Slots, id_in},
  Hands.{Hands, hand},
  Seats.{IsIdle, Seat, target_in},
  OwnEvents.{IsBelow, Only, Puts},
  Calls.{IsLonger, IsWorn, Releases, RefusesAim, links_made, unless_node},
};
ghost use Rattle.orc_history.specs.{Journals.{own_of}, Parts.{InPart, IsAlone, part_begin, part_of}};

use orc_heap::{Act, Place};

// Of three events, agent 1 made the first and the last.
fn whose_events()
    ensures own { events_by {N = ℕ} 1 (record { agent = 1; act = Act.Give; note = Some 7 } ∷ record { agent = 2; act = Act.Give; note = None }
        ∷ record { agent = 1; act = Act.Give; note = None } ∷ [])
        ≡ record { agent = 1; act = Act.Give; note = Some 7 } ∷ record { agent = 1; act = Act.Give; note = None } ∷ [] }
    ensures below { IsBelow {N = ℕ} 3 (record { agent = 1; act = Act.Give; note = Some 7 } ∷ record { agent = 2; act = Act.Give; note = None } ∷ []) }
    ensures not_below { ¬ IsBelow {N = ℕ} 2 (record { agent = 1; act = Act.Give; note = Some 7 } ∷ record { agent = 2; act = Act.Give; note = None } ∷ []) }
{}

// Where only agent 2 may give, its Give may come later for agent 1, but is none of agent 2's later events.
fn later_events()
    ensures of_others { Later (λ (seen : List (Event ℕ)) e. e.agent ≡ 2) 1 [] (record { agent = 2; act = Act.Give; note = None } ∷ []) }
    ensures of_its_own { ¬ Later (λ (seen : List (Event ℕ)) e. e.agent ≡ 2) 2 [] (record { agent = 2; act = Act.Give; note = None } ∷ []) }
    ensures not_allowed { ¬ AllAllowed (λ (seen : List (Event ℕ)) e. e.agent ≡ 2) [] (record { agent = 1; act = Act.Give; note = None } ∷ []) }
    ensures at_a_root { MovesLinked (Act.Move (Place.Root 0) null null) (record { nodes = []; roots = null ∷ []; links = 1 }) }
    ensures at_no_node { ¬ MovesLinked (Act.Move (Place.Next 0) null null) (record { nodes = []; roots = null ∷ []; links = 1 }) }
{}

// Steps are numbers, each the number of its agent. A call of agent 1 saw the steps 2 1 2 1 beyond the first two.
fn parts_of_calls()
    ensures begin { part_begin (λ (s : ℕ). s) 1 (2 ∷ 1 ∷ []) (2 ∷ 1 ∷ 2 ∷ 1 ∷ 2 ∷ 1 ∷ []) ≡ 3 }
    ensures part { part_of (λ (s : ℕ). s) 1 (2 ∷ 1 ∷ []) (2 ∷ 1 ∷ 2 ∷ 1 ∷ 2 ∷ 1 ∷ []) ≡ 1 ∷ 2 ∷ 1 ∷ [] }
    ensures not_alone { ¬ IsAlone (λ (s : ℕ). s) 1 (2 ∷ 1 ∷ []) (2 ∷ 1 ∷ 2 ∷ 1 ∷ 2 ∷ 1 ∷ []) }
    ensures alone { IsAlone (λ (s : ℕ). s) 1 (2 ∷ []) (2 ∷ 2 ∷ 1 ∷ 1 ∷ []) }
    ensures no_step { part_begin (λ (s : ℕ). s) 1 (1 ∷ []) (1 ∷ 2 ∷ 2 ∷ []) ≡ 3 }
    ensures between { InPart (λ (s : ℕ). s) 1 (2 ∷ []) (2 ∷ 2 ∷ 1 ∷ 1 ∷ []) (λ from to. (from ≡ 2) × (to ≡ 4)) }
    ensures steps { own_of (λ (s : ℕ). s) 1 (2 ∷ 1 ∷ 2 ∷ 1 ∷ []) ≡ 1 ∷ 1 ∷ [] }
{}

// A pass holds node 5, in row 3, in slot 2.
fn holds()
    ensures held { Holds (None ∷ None ∷ Some (record { row = 3; id = 5 }) ∷ []) (record { row = 3; slot = 2 }) }
    ensures other_row { ¬ Holds (None ∷ None ∷ Some (record { row = 3; id = 5 }) ∷ []) (record { row = 4; slot = 2 }) }
    ensures node { id_in (None ∷ None ∷ Some (record { row = 3; id = 5 }) ∷ []) (record { row = 3; slot = 2 }) ≡ 5 }
    ensures free { IsFree (None ∷ None ∷ Some (record { row = 3; id = 5 }) ∷ []) 1 }
    ensures taken { ¬ IsFree (None ∷ None ∷ Some (record { row = 3; id = 5 }) ∷ []) 2 }
    ensures scratch { ¬ IsFree (None ∷ None ∷ Some (record { row = 3; id = 5 }) ∷ []) 0 }
    ensures idle { (slots : Slots) → slots ≡ replicate 8 None → IsIdle {N = ℕ} (record { agent = 1; seen = []; slots = slots; fresh = None }) }
    ensures not_idle { ¬ IsIdle {N = ℕ} (record { agent = 1; seen = []; slots = replicate 8 None; fresh = Some 5 }) }
{}

// A call took node 5, in row 3, in hand, in slot 1, which was free.
fn hands_of_a_call()
    ensures in_hand { Hands (None ∷ None ∷ []) (None ∷ Some (record { row = 3; id = 5 }) ∷ []) (hand (Some (record { row = 3; slot = 1 })) 5 ∷ []) }
    ensures left { ¬ Hands (None ∷ None ∷ []) (None ∷ Some (record { row = 3; id = 5 }) ∷ []) [] }
{}

// A fresh node is fresh no more once it is linked or released.
fn fresh_nodes()
    ensures linked { unless_node (Some 5) (Some 5) ≡ None }
    ensures another { unless_node (Some 5) (Some 4) ≡ Some 5 }
    ensures to_null { unless_node (Some 5) None ≡ Some 5 }
{}

// Two of three events made a link to node 5: too few for a refusal.
fn worn_rows()
    ensures links { links_made {N = ℕ} (record { agent = 1; act = Act.Aim 6 (Some 5); note = Some 7 } ∷ record { agent = 1; act = Act.Give; note = None }
        ∷ record { agent = 1; act = Act.Move (Place.Root 0) null (record { to = Some 5; mark = true }); note = None } ∷ []) 5 ≡ 2 }
    ensures too_few { (why : Spent) → ¬ IsWorn {N = ℕ} (Some (record { row = 3; id = 5 }) ∷ []) (record { row = 3; slot = 0 }) why [] }
    ensures no_target { (why : Spent) → ¬ RefusesAim {N = ℕ} [] None why [] }
{}

// Of two lists of which one begins the other, the longer.
fn longer_lists()
    ensures second { IsLonger {A = ℕ} (4 ∷ []) (4 ∷ 6 ∷ []) (4 ∷ 6 ∷ []) }
    ensures first { IsLonger {A = ℕ} (4 ∷ 6 ∷ []) (4 ∷ []) (4 ∷ 6 ∷ []) }
    ensures shorter { ¬ IsLonger {A = ℕ} (4 ∷ 6 ∷ []) (4 ∷ []) (4 ∷ []) }
{}

// A Move of root 1 is one of root 1 alone. The link of a node that was never linked is no such place.
fn moves_of_places()
    ensures there { moves_place (Place.Root 1) (Act.Move (Place.Root 1) null null) ≡ true }
    ensures elsewhere { moves_place (Place.Next 1) (Act.Move (Place.Root 1) null null) ≡ false }
    ensures look { moves_place (Place.Root 1) (Act.Look (Place.Root 1) null) ≡ false }
    ensures moves { moves_in {N = ℕ}
        (record { agent = 1; act = Act.Give; note = None } ∷ record { agent = 1; act = Act.Move (Place.Root 1) null null; note = None } ∷ []) ≡ 1 }
    ensures gives { gives_in {N = ℕ}
        (record { agent = 1; act = Act.Give; note = None } ∷ record { agent = 1; act = Act.Move (Place.Root 1) null null; note = None } ∷ []) ≡ 1 }
    ensures own { from_own {N = ℕ} 2 (record { agent = 1; act = Act.Give; note = None } ∷ record { agent = 2; act = Act.Give; note = None } ∷ [])
        ≡ record { agent = 2; act = Act.Give; note = None } ∷ [] }
    ensures unlinked { ¬ IsLinkedPlace (Place.Next 0) (record { nodes = new_node 3 ∷ []; roots = []; links = 1 }) }
{}
