//! The definitions at values that were worked out by hand.
ghost use Rattle.std.specs.Prelude.{[], ◌∷◌, true, false, codes, Some, None};
ghost use Rattle.orc_history.specs.{
  declared.queue.{QueueEntry.{QueueEntry}, QueueRefused.{QueueRefused}},
  declared.set.SetEntry.{SetEntry},
};
ghost use Rattle.orc_jobs.specs.{declared.line.{Job.{Job}, Line.{Line}}};
ghost use Rattle.orc_board.specs.{
  declared.replies.{PostWord.{PostWord}, TakeWord.{TakeWord}},
  Stretches.{View, just, nothing, pick},
  Table.{PostRow, ClaimRow, TakeEnds},
};

// Record 1 is `rush,2,bytes,bb`, by poster 1: its job stands in the rush queue alone.
fn rows_of_a_rush()
    ensures rushed { PostRow 1 1 (Line.Rush 2 Job.Bytes (codes "bb")) (PostWord.Rushed 4)
        (record { queues = pick nothing (just (QueueEntry.Put 1 1 4 ∷ [])); set = just (SetEntry.Added 1 2 true ∷ []) }) }
    ensures not_posted { ¬ PostRow 1 1 (Line.Rush 2 Job.Bytes (codes "bb")) (PostWord.Posted 4)
        (record { queues = pick nothing (just (QueueEntry.Put 1 1 4 ∷ [])); set = just (SetEntry.Added 1 2 true ∷ []) }) }
    ensures not_on_the_queue { ¬ PostRow 1 1 (Line.Rush 2 Job.Bytes (codes "bb")) (PostWord.Rushed 4)
        (record { queues = pick (just (QueueEntry.Put 1 1 4 ∷ [])) nothing; set = just (SetEntry.Added 1 2 true ∷ []) }) }
{}

// The lines are `post,1,bytes,a` and `rush,2,bytes,bb`, and taker 0 claims the second.
fn row_of_a_rush_claim()
    ensures done { ClaimRow (Line.Post 1 Job.Bytes (codes "a") ∷ Line.Rush 2 Job.Bytes (codes "bb") ∷ []) 0 (λ rush. []) true 1 4 (TakeWord.Done 2)
        (record { queues = pick nothing (just (QueueEntry.Took 0 1 4 ∷ [])); set = just (SetEntry.Removed 0 2 true ∷ []) }) }
    ensures not_without_rush { ¬ ClaimRow (Line.Post 1 Job.Bytes (codes "a") ∷ Line.Rush 2 Job.Bytes (codes "bb") ∷ []) 0 (λ rush. []) false 1 4
        (TakeWord.Done 2) (record { queues = pick (just (QueueEntry.Took 0 1 4 ∷ [])) nothing; set = just (SetEntry.Removed 0 2 true ∷ []) }) }
{}

// Agent 0 took job 0 at position 3 of the queue, or found both queues empty.
fn last_of_a_take()
    ensures rush_first { let q : View QueueEntry QueueEntry QueueRefused = record { history = λ j. j; licence = λ agent why j from to. ⊥; crowd = λ agent. ⊥ } in
        TakeEnds (λ rush. q) 0 (Some (false, 0, 3)) (λ rush. []) (pick (QueueEntry.Took 0 0 3 ∷ []) (QueueEntry.Empty 0 ∷ [])) }
    ensures not_unasked { let q : View QueueEntry QueueEntry QueueRefused = record { history = λ j. j; licence = λ agent why j from to. ⊥; crowd = λ agent. ⊥ } in
        ¬ TakeEnds (λ rush. q) 0 (Some (false, 0, 3)) (λ rush. []) (pick (QueueEntry.Took 0 0 3 ∷ []) []) }
    ensures not_one_alone { let q : View QueueEntry QueueEntry QueueRefused = record { history = λ j. j; licence = λ agent why j from to. ⊥; crowd = λ agent. ⊥ } in
        ¬ TakeEnds (λ rush. q) 0 None (λ rush. []) (pick [] (QueueEntry.Empty 0 ∷ [])) }
{}
