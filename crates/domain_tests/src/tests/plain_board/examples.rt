//! Worked examples of the definitions, computed by hand and proved.

ghost use Rattle.std.specs.Prelude.{◌≡◌, ℕ, [], ◌∷◌, None, Some, false, true};
ghost use Rattle.orc_words.specs.Bounds.{Bounds};
ghost use Rattle.orc_heap.specs.declared.events.Act.TheVariants as act;
ghost use Rattle.orc_heap.specs.declared.events.Place.TheVariants as at;
ghost use Rattle.orc_any_domain.specs.Rows.{IsListed, index_of};
ghost use Rattle.orc_plain_board.specs.{
  Calls.{IsGateWord, seen_free, unless_linked},
  Machine.{link_by, place_by, project, written},
  Rules.{step_of},
  Words.{IsWord},
};
ghost use Rattle.orc_heap.specs.Journals.{event_by};

use orc_plain_board::PlainOp;
use orc_words::Word;

// Rows 3 and then 7 were given: they are nodes 0 and 1.
fn rows_and_nodes()
    ensures first { index_of 3 (3 ∷ 7 ∷ []) ≡ 0 }
    ensures second { index_of 7 (3 ∷ 7 ∷ []) ≡ 1 }
    ensures never_given { index_of 9 (3 ∷ 7 ∷ []) ≡ 2 }
    ensures out { IsListed (3 ∷ 7 ∷ []) 7 }
    ensures not_out { ¬ IsListed (3 ∷ 7 ∷ []) 9 }
    ensures link { link_by (3 ∷ 7 ∷ []) (record { to = Some 7; mark = true }) ≡ record { to = Some 1; mark = true } }
    ensures next { place_by (3 ∷ 7 ∷ []) (Word.Next 3) ≡ at.Next 0 }
    ensures side { place_by (3 ∷ 7 ∷ []) (Word.Side 7) ≡ at.Side 1 }
    ensures root { place_by (3 ∷ 7 ∷ []) (Word.Root 1) ≡ at.Root 1 }
{}

// Node 1 is row 7, so a marked link to it is 2 × (7 + 1) + 1.
fn link_words_by_node()
    ensures marked { IsWord (3 ∷ 7 ∷ []) (Some 1) true 17 }
    ensures unmarked { IsWord (3 ∷ 7 ∷ []) (Some 1) false 16 }
    ensures null { IsWord (3 ∷ 7 ∷ []) None false 0 }
    ensures of_another { ¬ IsWord (3 ∷ 7 ∷ []) (Some 0) true 17 }
{}

// A gate word is 3 once its row was given, and 0 before; only the free row is seen as free.
fn gates()
    ensures out { IsGateWord (3 ∷ []) 3 3 }
    ensures free { IsGateWord (3 ∷ []) 7 0 }
    ensures not_free { ¬ IsGateWord (3 ∷ []) 3 0 }
    ensures seen { seen_free 7 0 ≡ Some 7 }
    ensures not_seen { seen_free 3 3 ≡ None }
    ensures taken { written (PlainOp.GateTake 7) 0 ≡ 3 }
    ensures lost { written (PlainOp.GateTake 3) 3 ≡ 3 }
{}

// A fresh row stays fresh until it is linked.
fn fresh_rows()
    ensures linked { unless_linked (Some 4) (Some 4) ≡ None }
    ensures other { unless_linked (Some 4) (Some 5) ≡ Some 4 }
    ensures unlinked { unless_linked (Some 4) None ≡ Some 4 }
{}

// Agent 1 takes row 0, and stores null in both of its links.
fn stores_of_both_links()
    ensures { let b : Bounds = record { rows = 2; roots = 1; agents = 2; limit = 8; links = 2 } in
        project b (step_of {N = Unit {0}} 1 (PlainOp.GateTake 0) None ∷ step_of 1 (PlainOp.LinkStore 0 0 None) None
        ∷ step_of 1 (PlainOp.LinkStore 0 1 None) None ∷ [])
        ≡ event_by 1 act.Give None ∷ event_by 1 (act.Aim 0 None) None ∷ event_by 1 (act.AimSide 0 None) None ∷ [] }
{}

// Two agents take row 1: the first gets it, and the other's step is no event. Then a load finds null.
fn events_of_steps()
    ensures { let b : Bounds = record { rows = 2; roots = 1; agents = 2; limit = 8; links = 1 } in
        project b (step_of {N = Unit {0}} 0 (PlainOp.GateTake 1) None ∷ step_of 1 (PlainOp.GateTake 1) None
        ∷ step_of 1 (PlainOp.LinkLoad (Word.Root 0) None) None ∷ [])
        ≡ event_by 0 act.Give None ∷ event_by 1 (act.Look (at.Root 0) (record { to = None; mark = false })) None ∷ [] }
{}
