//! Worked examples of the definitions, computed by hand and proved.

ghost use Rattle.std.specs.Prelude.{◌≡◌, ◌-◌, ◌^◌, List, ◌∷◌, ◌++◌, [], Some, None, true, false};
ghost use Rattle.orc_heap.specs.{
  Allowed.{AllAllowed},
  Heap.{Node, null, link_to},
  Journals.{run_heap, event_by},
  declared.events.{Act.{Act}, Event.{Event}, Place.{Place}},
  Calls.{links_made},
  Moves.{moves_in},
};
ghost use Rattle.orc_history.specs.declared.queue.QueueEntry.{QueueEntry};
ghost use Rattle.orc_fifo_rule.specs.{
  declared.fifo.FifoNote.{FifoNote},
  Counts.{entries_of_others, off_the_head, swings_in, tooks_in},
  QueueDiscipline.{FifoMay, IsInTime, LeadsOn, MayAct, MayEnter, entries_of, has_begun, position_of},
  Watches.{IsLeftBehind, WasNamed, node_to_put},
};
ghost use Rattle.container_tests.specs.QueueHeaps.{dummy, last_node, links_node, no_nodes, opening, put_at, roots_at};

// Agent 0 makes a queue whose first position is 5: it is given node 0, fills it, and begins both roots.
fn the_opening()
    ensures { let es = opening 5 in
        AllAllowed (FifoMay (record { roots = 2; links = 1 })) [] es × (has_begun es ≡ true) × (entries_of es ≡ [])
        × (position_of (run_heap (record { roots = 2; links = 1 }) es) 0 ≡ 5) }
{}

// Then agent 1 puts job 7 with its node 1 and swings the tail, and agent 2 takes the job and finds nothing more.
fn a_job_goes_through_the_queue()
    ensures { let es : List (Event FifoNote) =
        opening 5 ++ event_by 1 Act.Give None
        ∷ event_by 1 (Act.Fill 1 0 7) None
        ∷ event_by 1 (Act.Fill 1 1 6) None
        ∷ event_by 1 links_node (put_at 5)
        ∷ event_by 1 (Act.Move (Place.Root 1) (link_to 0) (link_to 1)) (Some FifoNote.Swing)
        ∷ event_by 2 (Act.Move (Place.Root 0) (link_to 0) (link_to 1)) (Some (FifoNote.Entry (QueueEntry.Took 2 7 5)))
        ∷ event_by 2 (Act.Look (Place.Next 1) null) (Some (FifoNote.Entry (QueueEntry.Empty 2))) ∷ [] in
        AllAllowed (FifoMay (record { roots = 2; links = 1 })) [] es
        × (entries_of es ≡ QueueEntry.Put 1 7 5 ∷ QueueEntry.Took 2 7 5 ∷ QueueEntry.Empty 2 ∷ [])
        × (links_made es 0 ≡ 2) × (links_made es 1 ≡ 3) × (links_made es 2 ≡ 0) × (swings_in es ≡ 1)
        × (tooks_in (entries_of es) ≡ 1) × (entries_of_others 2 (entries_of es) ≡ QueueEntry.Put 1 7 5 ∷ [])
        × (moves_in es ≡ 5) × (moves_in (off_the_head es) ≡ 3)
        × (position_of (run_heap (record { roots = 2; links = 1 }) es) 1 ≡ 6) }
{}

// Head and tail name the dummy, node 0, and node 1 of job 7 at position 5 is linked behind it: the tail lags. Root
// 1 may swing to node 1 alone, no job may be taken yet, and nobody may say that the queue is empty.
fn while_the_tail_lags()
    ensures allowed { let h = roots_at 0 0 (dummy (Some 5) (link_to 1) ∷ last_node ∷ []) in
        MayAct h (Act.Move (Place.Root 1) (link_to 0) (link_to 1)) (Some FifoNote.Swing) × WasNamed h 1 0 }
    ensures refused { let h = roots_at 0 0 (dummy (Some 5) (link_to 1) ∷ last_node ∷ []) in
        (¬ MayAct h (Act.Move (Place.Root 1) (link_to 0) (link_to 2)) (Some FifoNote.Swing))
        × (¬ MayAct h (Act.Move (Place.Root 0) (link_to 0) (link_to 1)) (Some FifoNote.Swing))
        × (¬ MayAct h (Act.Move (Place.Root 0) (link_to 0) (link_to 1)) (Some (FifoNote.Entry (QueueEntry.Took 2 7 5))))
        × (¬ MayAct h (Act.Look (Place.Next 0) (link_to 1)) (Some (FifoNote.Entry (QueueEntry.Empty 2))))
        × (¬ MayAct h (Act.Look (Place.Next 1) null) (Some (FifoNote.Entry (QueueEntry.Empty 2))))
        × (¬ WasNamed h 1 1) × (¬ IsLeftBehind h 0) }
{}

// Node 1 holds job 7 with the last second value that a Put may give, and with the first that it may not.
fn positions_end()
    ensures last { MayAct (roots_at 0 0 (dummy (Some (2 ^ 62 - 1)) null ∷ node_to_put 1 7 (2 ^ 62 - 1) ∷ [])) links_node (put_at (2 ^ 62 - 1)) }
    ensures beyond { ¬ MayAct (roots_at 0 0 (dummy (Some (2 ^ 62)) null ∷ node_to_put 1 7 (2 ^ 62) ∷ [])) links_node (put_at (2 ^ 62)) }
    ensures another { ¬ MayAct (roots_at 0 0 (dummy (Some 5) null ∷ node_to_put 1 7 6 ∷ [])) links_node (put_at 5) }
{}

// A Move needs a note, an Aim a null target; a note needs its kind of event, the two Begins before it, and an entry
// of the event's agent with which the history stays legal.
fn refusals()
    ensures without_a_note { ¬ MayAct no_nodes (Act.Move (Place.Root 0) null (link_to 0)) None }
    ensures aimed { ¬ MayAct no_nodes (Act.Aim 1 (Some 0)) None }
    ensures aimed_at_none { MayAct no_nodes (Act.Aim 1 None) None }
    ensures note_on_a_give { ¬ MayAct no_nodes Act.Give (Some FifoNote.Begin) }
    ensures put_at_a_second_link { ¬ MayAct (record { nodes = dummy (Some 5) null ∷ node_to_put 1 7 5 ∷ []; roots = link_to 0 ∷ link_to 0 ∷ []; links = 2 }) (Act.Move (Place.Side 0) null (link_to 1)) (Some (FifoNote.Entry (QueueEntry.Put 1 7 5))) }
    ensures too_early { ¬ IsInTime false (Some FifoNote.Swing) }
    ensures of_another_agent { ¬ MayEnter 5 [] 1 (Some (FifoNote.Entry (QueueEntry.Empty 2))) }
    ensures not_legal { ¬ MayEnter 5 [] 1 (Some (FifoNote.Entry (QueueEntry.Put 1 7 6))) }
{}

// Where links lead.
fn links()
    ensures leads { let es : List (Event FifoNote) =
        event_by 1 links_node (put_at 5) ∷ [] in
        LeadsOn es 5 (link_to 1) × LeadsOn es 5 null × (¬ LeadsOn es 6 (link_to 1)) × (¬ LeadsOn es 5 (record { to = Some 1; mark = true })) }
    ensures position { position_of (record { nodes = dummy None null ∷ []; roots = []; links = 1 }) 0 ≡ 0 }
{}
