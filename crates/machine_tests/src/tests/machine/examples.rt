//! Worked examples of the definitions, computed by hand and proved.

ghost use Rattle.std.specs.Prelude.{◌≡◌, ◌≢◌, ℕ, ◌+◌, ◌∷◌, [], Some, None, true, false, nat_lt, ◌==◌};
ghost use Rattle.orc_core.specs.{
  declared.records.Agent.{Agent},
  Listed.{listed_more, listed_name, listed_rest, first_is},
  RecordParts.{any_holds, checked_below, holds, is_clear, names, scan_empty},
  Actions.{action_of, clear_word, IsPackable},
  After.{after, bared, cut_of, due_after, promoted, scan_on, IsRecordable},
  Allowed.{fits, forced, in_order, may, may_change, may_place},
  Machine.{answer, has_room, is_allowed, new_machine, nobody, step, word_in},
  Runs.{IsLawful, run},
  Sums.{count_below, some_below, sum_below},
  Counts.{census_of, is_target, links_to},
};

use orc_core::{Op, SlotUse};
use orc_words::{Operation, Word};

// A work list is taken from at its front and added to at its end.
fn work_lists()
    ensures more { listed_more (record { items = 4 ∷ []; room = 9 }) 7 ≡ record { items = 4 ∷ 7 ∷ []; room = 9 } }
    ensures rest { listed_rest (record { items = 4 ∷ 7 ∷ []; room = 9 }) ≡ record { items = 7 ∷ []; room = 9 } }
    ensures none { listed_name (record { items = 4 ∷ []; room = 9 }) None ≡ record { items = 4 ∷ []; room = 9 } }
    ensures first { first_is (4 ∷ 7 ∷ []) 4 ≡ true }
    ensures not_last { first_is (4 ∷ 7 ∷ []) 7 ≡ false }
{}

// 37,748,736 is 2 × 2^24 + 2^22: count 0, no bit, sequence 2. With the bit it is 46,137,344.
fn parts()
    ensures named { names (Some 3) 3 ≡ true }
    ensures not_named { names None 0 ≡ false }
    ensures held { any_holds (SlotUse.Empty ∷ SlotUse.Held 2 ∷ []) 2 ≡ true }
    ensures published { any_holds (SlotUse.Published 2 ∷ []) 2 ≡ false }
    ensures below { checked_below (Some (record { row = 1; number = 7 })) 1 8 ≡ true }
    ensures at_the_limit { checked_below (Some (record { row = 1; number = 8 })) 1 8 ≡ false }
    ensures clear { is_clear 37748736 ≡ true }
    ensures with_the_bit { is_clear 46137344 ≡ false }
    ensures count_1 { is_clear 20971521 ≡ false }
{}

// Scan place 10 is slot 2 of agent 1, and slot words hold the row + 1.
fn actions()
    ensures sequence_2 { clear_word 2 ≡ 37748736 }
    ensures look { action_of 0 (Op.SlotLook 10) (nobody 2) ≡ record { word = Word.Slot 1 2; operation = Operation.Load } }
    ensures hand { action_of 0 (Op.Hand 10) (record (nobody 2) { scan = Some (record { row = 6; word = 4194304; place = 10; found = true }) })
        ≡ record { word = Word.Handover 1 2; operation = Operation.Swap 7 } }
    ensures arm { action_of 3 (Op.Arm 6) (nobody 2) ≡ record { word = Word.Slot 3 0; operation = Operation.Store 7 } }
    ensures take { action_of 0 (Op.GateTake 5) (record (nobody 2) { looked = Some (record { row = 5; number = 2 }) })
        ≡ record { word = Word.Gate 5; operation = Operation.CompareExchange 4 7 } }
    ensures not_the_second { action_of 0 (Op.Fill 5 0 9) (nobody 2) ≢ record { word = Word.Second 5; operation = Operation.Store 9 } }
    ensures too_far { ¬ IsPackable (Op.SetRetired 0 1099511627776) (nobody 2) }
{}

// What follows from the word that was read.
fn records()
    ensures taken { (after (Op.GateTake 1) (record (nobody 2) { looked = Some (record { row = 1; number = 3 }) }) 6).fresh ≡ Some 1 }
    ensures lost { (after (Op.GateTake 1) (record (nobody 2) { looked = Some (record { row = 1; number = 3 }) }) 9).fresh ≡ None }
    ensures due { due_after 0 37748736 None ≡ Some (record { row = 0; number = 2 }) }
    ensures not_due { due_after 0 20971521 None ≡ None }
    ensures held { promoted (SlotUse.Published 4) 11 ≡ SlotUse.Held 4 }
    ensures another_row { promoted (SlotUse.Published 4) 12 ≡ SlotUse.Published 4 }
    ensures found { scan_on (Some (record { row = 4; word = 9; place = 3; found = false })) 5 ≡ Some (record { row = 4; word = 9; place = 3; found = true }) }
    ensures goes_on { scan_on (Some (record { row = 4; word = 9; place = 3; found = false })) 0 ≡ Some
        (record { row = 4; word = 9; place = 4; found = false }) }
    ensures listed { (after (Op.TakeIn 2) (nobody 2) 1).list.items ≡ 0 ∷ [] }
    ensures nothing_in { (after (Op.TakeIn 2) (nobody 2) 0).list.items ≡ [] }
    ensures ninth_slot { ¬ IsRecordable (Op.Clear 8) (nobody 2) }
{}

// A due row stands before a pending increment, and that before a pending decrement.
fn order()
    ensures due { in_order (Some (record { row = 1; number = 2 })) (Some 3) (Some 4) (Op.SetRetired 1 2) ≡ true }
    ensures not_inc { in_order (Some (record { row = 1; number = 2 })) (Some 3) (Some 4) (Op.Inc 3) ≡ false }
    ensures inc { in_order None (Some 3) (Some 4) (Op.Inc 3) ≡ true }
    ensures not_dec { in_order None (Some 3) (Some 4) (Op.Dec 4) ≡ false }
    ensures arm { in_order None None (Some 4) (Op.Arm 4) ≡ true }
    ensures other_row { in_order None None (Some 4) (Op.Arm 3) ≡ false }
    ensures free { in_order None None None Op.Enroll ≡ true }
{}

// An agent that isn't enrolled may only enroll, and a look is for every row of the table.
fn permissions()
    ensures enroll { may (record { rows = 2; roots = 1; agents = 2; limit = 8; links = 1 }) 1 1 Op.Enroll (nobody 2) ≡ true }
    ensures too_early { may (record { rows = 2; roots = 1; agents = 2; limit = 8; links = 1 }) 0 1 Op.Enroll (nobody 2) ≡ false }
    ensures not_enrolled { may (record { rows = 2; roots = 1; agents = 2; limit = 8; links = 1 }) 0 0 (Op.GateLook 0) (nobody 2) ≡ false }
    ensures look { may (record { rows = 2; roots = 1; agents = 2; limit = 8; links = 1 }) 1 0 (Op.GateLook 1) (record (nobody 2) { enrolled = true }) ≡ true }
    ensures no_row { may (record { rows = 2; roots = 1; agents = 2; limit = 8; links = 1 }) 1 0 (Op.GateLook 2) (record (nobody 2) { enrolled = true }) ≡ false }
    ensures same_row { may_change (nobody 2) 72 (Some 1) (Some 1) ≡ true }
    ensures unchecked { may_change (nobody 2) 72 None (Some 1) ≡ false }
    ensures root { may_place (record { rows = 2; roots = 1; agents = 2; limit = 8; links = 1 }) (Word.Root 0) (λ r. false) ≡ true }
    ensures gate { may_place (record { rows = 2; roots = 1; agents = 2; limit = 8; links = 1 }) (Word.Gate 0) (λ r. true) ≡ false }
{}

// The first agent enrolls first.
fn states()
    ensures enrolled { word_in (step (new_machine (record { rows = 2; roots = 1; agents = 2; limit = 8; links = 1 })) 0 Op.Enroll) Word.Enrolled ≡ 1 }
    ensures answered { answer (new_machine (record { rows = 2; roots = 1; agents = 2; limit = 8; links = 1 })) 0 Op.Enroll ≡ 0 }
    ensures room { has_room (new_machine (record { rows = 2; roots = 1; agents = 2; limit = 8; links = 1 })) 0 ≡ true }
    ensures lawful { IsLawful (new_machine (record { rows = 2; roots = 1; agents = 2; limit = 8; links = 1 })) ((0, Op.Enroll) ∷ (1, Op.Enroll) ∷ []) }
    ensures not_lawful { ¬ IsLawful (new_machine (record { rows = 2; roots = 1; agents = 2; limit = 8; links = 1 })) ((1, Op.Enroll) ∷ []) }
{}

// 0 + 1 + 2 + 3, and which of these are below 2.
fn sums()
    ensures sum { sum_below 4 (λ i. i) ≡ 6 }
    ensures count { count_below 4 (λ i. nat_lt i 2) ≡ 2 }
    ensures some { some_below 4 (λ i. i == 3) ≡ true }
    ensures none { some_below 3 (λ i. i == 3) ≡ false }
    ensures link { links_to 11 4 ≡ true }
    ensures null { links_to 1 0 ≡ false }
    ensures listed { (census_of (new_machine (record { rows = 2; roots = 1; agents = 2; limit = 8; links = 1 }))).listed ≡ 0 }
    ensures no_target { is_target (new_machine (record { rows = 2; roots = 1; agents = 2; limit = 8; links = 1 })) 0 ≡ false }
{}
