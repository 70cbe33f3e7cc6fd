//! Worked examples of the definitions, computed by hand and proved.

ghost use Rattle.std.specs.Prelude.{◌≡◌, List, ◌∷◌, [], Some, None, true, false};
ghost use Rattle.orc_heap.specs.{
  Allowed.{AllAllowed},
  Heap.{Node, null, link_to},
  Journals.{run_heap, event_by},
  Moves.{moves_in},
  declared.events.{Act.{Act}, Event.{Event}, Place.{Place}},
};
ghost use Rattle.orc_history.specs.declared.set.SetEntry.{SetEntry};
ghost use Rattle.orc_chain_rule.specs.{
  declared.chain.ChainNote.{ChainNote},
  ChainDiscipline.{ChainMay, FollowsOn, IsAbove, IsOnNoChain, IsPresent, MayAct, entries_of, key_of, set_after},
  Counts.{AreLeftOver, IsLeftOver, adds_in, entries_of_others, removes_in, unlinks_in},
  Watches.{LeavesOut},
};
ghost use Rattle.orc_ordered_chains.specs.Chains.{IsPath, IsRun};
ghost use Rattle.container_tests.specs.ChainHeaps.{added, leads_root, linked_node, marked_link, unlinked_node, run_of_two, two_roots};

// Agents 0 and 1 make a chain of three: 5, then 3 before it, then 9 behind them. Node 1 has the key 3, node 0 the key
// 5, node 2 the key 9.
fn a_chain_of_three()
    ensures { let es : List (Event ChainNote) =
        event_by 0 Act.Give None
        ∷ event_by 0 (Act.Fill 0 0 5) None
        ∷ event_by 0 (Act.Move (Place.Root 0) null (link_to 0)) (Some (ChainNote.Entry (SetEntry.Added 0 5 true)))
        ∷ event_by 1 Act.Give None
        ∷ event_by 1 (Act.Fill 1 0 3) None
        ∷ event_by 1 (Act.Aim 1 (Some 0)) None
        ∷ event_by 1 (Act.Move (Place.Root 0) (link_to 0) (link_to 1)) (Some (ChainNote.Entry (SetEntry.Added 1 3 true)))
        ∷ event_by 0 Act.Give None
        ∷ event_by 0 (Act.Fill 2 0 9) None
        ∷ event_by 0 (Act.Move (Place.Next 0) null (link_to 2)) (Some (ChainNote.Entry (SetEntry.Added 0 9 true)))
        ∷ event_by 2 (Act.Look (Place.Next 0) (link_to 2)) (Some (ChainNote.Entry (SetEntry.Added 2 5 false))) ∷ [] in
        AllAllowed (ChainMay (record { roots = 1; links = 1 })) [] es
        × (entries_of es ≡ SetEntry.Added 0 5 true ∷ SetEntry.Added 1 3 true ∷ SetEntry.Added 0 9 true ∷ SetEntry.Added 2 5 false ∷ [])
        × (set_after es ≡ 5 ∷ 3 ∷ 9 ∷ [])
        × IsPath (run_heap (record { roots = 1; links = 1 }) es) (Place.Root 0) (1 ∷ 0 ∷ []) (Some 2) }
{}

// From a root that names the node of 3, marked, and behind it that of 5, marked, and that of 9: agent 1's node with
// the key 4, aimed at 9, may be linked in place of the run, and the run may be left out.
fn a_run_of_two_marked_nodes()
    ensures run { IsRun run_of_two (link_to 0) (0 ∷ 1 ∷ []) (Some 2) × IsPath run_of_two (Place.Root 0) (0 ∷ 1 ∷ []) (Some 2) × IsLeftOver run_of_two 1
        × LeavesOut 1 run_of_two (Place.Root 0) (link_to 0) (0 ∷ 1 ∷ []) (Some 2) 5
        × (¬ IsRun run_of_two (link_to 0) (0 ∷ []) (Some 2)) × (¬ IsRun run_of_two (link_to 0) (0 ∷ 1 ∷ 2 ∷ []) None)
        × (¬ LeavesOut 1 run_of_two (Place.Root 0) (link_to 0) (0 ∷ 1 ∷ []) (Some 2) 9) }
    ensures left_over { AreLeftOver run_of_two (0 ∷ 1 ∷ []) × (¬ AreLeftOver run_of_two (0 ∷ [])) }
    ensures inserted_over { MayAct 1 run_of_two (9 ∷ []) (leads_root (link_to 3)) (added 4) }
    ensures left_out { MayAct 1 run_of_two (9 ∷ []) (leads_root (link_to 2)) (Some ChainNote.Unlink) }
{}

// With two roots, root 1 names node 0 with the key 3, behind which a key must be greater and odd. Node 1 with the key 5
// is given, and nothing links to it.
fn keys_and_roots()
    ensures follows { let h = two_roots (linked_node 3 None ∷ unlinked_node 5 None ∷ []) in
        FollowsOn 2 h (Place.Root 1) 5 × FollowsOn 2 h (Place.Next 0) 5 × (¬ FollowsOn 2 h (Place.Root 0) 5) × (¬ FollowsOn 2 h (Place.Next 0) 4)
        × (¬ FollowsOn 2 h (Place.Next 0) 3) × (¬ FollowsOn 2 h (Place.Next 1) 7) }
    ensures above { let h = two_roots (linked_node 3 None ∷ unlinked_node 5 None ∷ []) in
        IsAbove h None 5 × IsAbove h (Some 0) 2 × (¬ IsAbove h (Some 0) 3) × (key_of h 0 ≡ 3) × (key_of h 2 ≡ 0) }
    ensures present { let h = two_roots (linked_node 3 None ∷ unlinked_node 5 None ∷ []) in
        IsPresent 2 h 3 × IsOnNoChain h 1 }
{}

// Agent 0 adds 5, agent 1 marks its node, and agent 0 adds 7 in place of it and leads the root past 7 once that is marked
// as well: three keys went in or out for each of the two ways past.
fn moves_are_counted()
    ensures { let es : List (Event ChainNote) =
        event_by 0 (Act.Move (Place.Root 0) null (link_to 0)) (Some (ChainNote.Entry (SetEntry.Added 0 5 true)))
        ∷ event_by 1 (Act.Move (Place.Next 0) null (marked_link None)) (Some (ChainNote.Entry (SetEntry.Removed 1 5 true)))
        ∷ event_by 0 (Act.Move (Place.Root 0) (link_to 0) (link_to 1)) (Some (ChainNote.Entry (SetEntry.Added 0 7 true)))
        ∷ event_by 1 (Act.Look (Place.Next 1) null) (Some (ChainNote.Entry (SetEntry.Asked 1 7 true)))
        ∷ event_by 1 (Act.Look (Place.Root 0) (link_to 1)) (Some (ChainNote.Entry (SetEntry.Removed 1 5 false)))
        ∷ event_by 1 (Act.Move (Place.Next 1) null (marked_link None)) (Some (ChainNote.Entry (SetEntry.Removed 1 7 true)))
        ∷ event_by 0 (Act.Move (Place.Root 0) (link_to 1) null) (Some ChainNote.Unlink) ∷ [] in
        (adds_in (entries_of es) ≡ 2) × (removes_in (entries_of es) ≡ 2) × (unlinks_in es ≡ 1) × (moves_in es ≡ 5) × (set_after es ≡ [])
        × (entries_of_others 1 (entries_of es) ≡ SetEntry.Added 0 5 true ∷ SetEntry.Added 0 7 true ∷ []) }
{}
