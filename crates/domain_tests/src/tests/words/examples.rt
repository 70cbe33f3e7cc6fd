//! Worked examples of the definitions, computed by hand and proved.

ghost use mathlib.Core.List.{IsPrefix};
ghost use Rattle.orc_shared_words.specs.{Lists.{Each, EachAt, IsLonger}, Runs.{AgentsBelow}, declared.journal.JournalStep.{JournalStep}};
ghost use Rattle.orc_history.specs.Journals.{own_of};
ghost use Rattle.domain_tests.specs.Ticks.{counts, looks, tick_rules};
ghost use Rattle.std.specs.Prelude.{◌≡◌, ◌+◌, ◌<◌, ◌∷◌, [], Bool, List, None, Some, false, true, ℕ};

use orc_heap::Act;

// Agent 0 counts, agent 1 counts with the note 7, and agent 0 looks.
fn two_counts_and_a_look()
    ensures words { (tick_rules {N = ℕ}).words 2 (counts 0 None ∷ counts 1 (Some 7) ∷ looks 0 ∷ []) ≡ 2 ∷ [] }
    ensures found_by_0 { (tick_rules {N = ℕ}).own 2 (counts 0 None ∷ counts 1 (Some 7) ∷ looks 0 ∷ []) 0 ≡ 2 }
    ensures found_by_1 { (tick_rules {N = ℕ}).own 2 (counts 0 None ∷ counts 1 (Some 7) ∷ looks 0 ∷ []) 1 ≡ 1 }
    ensures steps_of_1 { own_of (λ (s : JournalStep Bool ℕ). s.agent) 1 (counts 0 None ∷ counts 1 (Some 7) ∷ looks 0 ∷ []) ≡ counts 1 (Some 7) ∷ [] }
    ensures events { (tick_rules {N = ℕ}).project 2 (counts 0 None ∷ counts 1 (Some 7) ∷ looks 0 ∷ []) ≡ record {
      agent = 0;
      act = Act.Give;
      note =
          None;
    } ∷ record { agent = 1; act = Act.Give; note = Some 7 } ∷ [] }
{}

// Prefixes and members of short lists.
fn lists()
    ensures prefix { IsPrefix {A = ℕ} (4 ∷ []) (4 ∷ 5 ∷ 6 ∷ []) }
    ensures longer { IsLonger {A = ℕ} (4 ∷ []) (4 ∷ 5 ∷ []) (4 ∷ 5 ∷ []) }
    ensures each_of_one { Each (λ (n : ℕ). n < 5) (4 ∷ []) }
    ensures each_at { EachAt (λ i (n : ℕ). n ≡ i + 4) (4 ∷ 5 ∷ []) }
    ensures agents { AgentsBelow (λ (n : ℕ). n) 3 (2 ∷ 0 ∷ []) }
{}
