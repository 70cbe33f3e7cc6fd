//! Laws of the board's journals.

ghost use Rattle.std.specs.Prelude.{◌≡◌, ◌<◌, ◌++◌, ◌∷◌, [], List, Option, ℕ};
ghost use Rattle.orc_core.specs.Machine.{new_machine, record_at};
ghost use Rattle.orc_history.specs.Journals.{own_of};
ghost use Rattle.orc_machine_board.specs.{
  Holding.{HasRow},
  Passes.{TookInAll},
  Rules.{run_of, step_of},
  Views.{MachineView, Makes},
  declared.machine.Request.{Request},
};
ghost use Rattle.orc_projection.specs.Projection.{present_ids};
ghost use Rattle.orc_shared_words.specs.Runs.{AgentsBelow};
ghost use Rattle.orc_sound.specs.{Journals.{IsLawfulJournal}, declared.steps.Step.{Step}};
ghost use Rattle.orc_words.specs.Bounds.{Bounds, IsShape};

/// A row keeps its node while an agent holds it, or has it fresh, whatever others do.
pub fn a_held_row_keeps_its_node<N>()
    ensures { (b : Bounds) (j more : List (Step N)) (a r : ℕ) → IsShape b → IsLawfulJournal (new_machine b) (j ++ more) → a < b.agents
        → own_of (λ (s : Step N). s.agent) a more ≡ [] → HasRow (record_at (run_of b j) a) r
        → (present_ids b (j ++ more)).node r ≡ (present_ids b j).node r }
{}

/// A step of a pass that took in the passes of all other agents comes right after what the pass had seen.
pub fn a_pass_that_took_in_all_steps_next<N>()
    ensures { (b : Bounds) (q : Request) (note : Option N) (s t : MachineView N) (n : ℕ) → Makes b q note s n t → TookInAll b s
        → AgentsBelow (λ (x : Step N). x.agent) b.agents t.journal → t.journal ≡ s.journal ++ step_of s.agent q note ∷ [] }
{}
