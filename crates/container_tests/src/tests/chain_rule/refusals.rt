//! Events that the discipline refuses, one for each part of what it asks.

ghost use Rattle.std.specs.Prelude.{◌∷◌, [], Some, None, true, false};
ghost use Rattle.orc_heap.specs.{
  Acts.{as_linked, with_link, with_side},
  Heap.{Node, null, link_to},
  declared.events.{Act.{Act}, Place.{Place}},
};
ghost use Rattle.orc_history.specs.declared.set.SetEntry.{SetEntry};
ghost use Rattle.orc_chain_rule.specs.{declared.chain.ChainNote.{ChainNote}, ChainDiscipline.{IsOwnEntry, MayAct}, Watches.{node_to_add}};
ghost use Rattle.orc_ordered_chains.specs.Answers.{MayAnswer};
ghost use Rattle.container_tests.specs.ChainHeaps.{added, leads_root, linked_node, links_node, marked_link, marked_node, marks_node, unlinked_node, no_nodes, one_root, removed, two_roots};

// With two roots, root 1 names node 0 with the key 3, and node 1 with the key 5 is agent 1's. It may be linked behind
// node 0, and each other clause changes one thing.
fn an_added()
    ensures allowed { MayAct 2 (two_roots (linked_node 3 None ∷ unlinked_node 5 None ∷ [])) (3 ∷ []) links_node (added 5) }
    ensures another_root { ¬ MayAct 2 (two_roots (linked_node 3 None ∷ unlinked_node 5 None ∷ [])) (3 ∷ []) (Act.Move (Place.Root 0) null (link_to 1)) (added 5) }
    ensures no_greater_key { ¬ MayAct 2 (two_roots (linked_node 3 None ∷ unlinked_node 3 None ∷ [])) (3 ∷ []) links_node (added 3) }
    ensures behind_a_marked_node { ¬ MayAct 2 (two_roots (marked_node 3 None ∷ unlinked_node 5 None ∷ [])) [] (Act.Move (Place.Next 0) (marked_link None) (link_to 1)) (added 5) }
    ensures a_marked_link { ¬ MayAct 2 (two_roots (linked_node 3 None ∷ unlinked_node 5 None ∷ [])) (3 ∷ []) (Act.Move (Place.Next 0) null (marked_link (Some 1))) (added 5) }
    ensures a_linked_node { ¬ MayAct 2 (two_roots (linked_node 3 None ∷ as_linked (node_to_add 1 5 0 None) ∷ [])) (3 ∷ []) links_node (added 5) }
    ensures no_node { ¬ MayAct 2 (two_roots (linked_node 3 None ∷ [])) (3 ∷ []) links_node (added 5) }
    ensures another_key { ¬ MayAct 2 (two_roots (linked_node 3 None ∷ unlinked_node 5 None ∷ [])) (3 ∷ []) links_node (added 7) }
    ensures marked_itself { ¬ MayAct 2 (two_roots (linked_node 3 None ∷ with_link (marked_link None) (node_to_add 1 5 0 None) ∷ [])) (3 ∷ []) links_node (added 5) }
    ensures past_an_unmarked_node { ¬ MayAct 2 (two_roots (linked_node 3 (Some 2) ∷ unlinked_node 5 None ∷ linked_node 9 None ∷ [])) (3 ∷ 9 ∷ []) (Act.Move (Place.Next 0) (link_to 2) (link_to 1)) (added 5) }
    ensures aimed_at_a_lower_key { ¬ MayAct 2 (two_roots (linked_node 3 (Some 2) ∷ unlinked_node 11 (Some 2) ∷ linked_node 9 None ∷ [])) (3 ∷ 9 ∷ []) (Act.Move (Place.Next 0) (link_to 2) (link_to 1)) (added 11) }
    ensures answer_false { ¬ MayAct 2 (two_roots (linked_node 3 None ∷ unlinked_node 5 None ∷ [])) (3 ∷ []) links_node (Some (ChainNote.Entry (SetEntry.Added 1 5 false))) }
{}

// The root names node 0 with the key 3, behind which node 1 has the key 5. Node 0 may be marked, and each other clause
// changes one thing.
fn a_removed()
    ensures allowed { MayAct 1 (one_root (linked_node 3 (Some 1) ∷ linked_node 5 None ∷ [])) (3 ∷ 5 ∷ []) marks_node (removed 3) }
    ensures another_key { ¬ MayAct 1 (one_root (linked_node 3 (Some 1) ∷ linked_node 5 None ∷ [])) (3 ∷ 5 ∷ []) marks_node (removed 5) }
    ensures never_linked { ¬ MayAct 1 (record { nodes = node_to_add 0 3 0 (Some 1) ∷ linked_node 5 None ∷ []; roots = link_to 1 ∷ []; links = 1 }) (5 ∷ []) marks_node (removed 3) }
    ensures marked_before { ¬ MayAct 1 (one_root (marked_node 3 (Some 1) ∷ linked_node 5 None ∷ [])) (5 ∷ []) (Act.Move (Place.Next 0) (marked_link (Some 1)) (marked_link (Some 1))) (removed 3) }
    ensures without_a_mark { ¬ MayAct 1 (one_root (linked_node 3 (Some 1) ∷ linked_node 5 None ∷ [])) (3 ∷ 5 ∷ []) (Act.Move (Place.Next 0) (link_to 1) (link_to 1)) (removed 3) }
    ensures another_target { ¬ MayAct 1 (one_root (linked_node 3 (Some 1) ∷ linked_node 5 None ∷ [])) (3 ∷ 5 ∷ []) (Act.Move (Place.Next 0) (link_to 1) (marked_link None)) (removed 3) }
    ensures of_a_root { ¬ MayAct 1 (one_root (linked_node 3 (Some 1) ∷ linked_node 5 None ∷ [])) (3 ∷ 5 ∷ []) (leads_root (marked_link (Some 0))) (removed 3) }
    ensures answer_false { ¬ MayAct 1 (one_root (linked_node 3 (Some 1) ∷ linked_node 5 None ∷ [])) (3 ∷ 5 ∷ []) marks_node (Some (ChainNote.Entry (SetEntry.Removed 1 3 false))) }
{}

// The root names node 0 with the key 3, marked, behind which node 1 has the key 5. The root may be led to
// node 1, and each other clause changes one thing.
fn an_unlink()
    ensures allowed { MayAct 1 (one_root (marked_node 3 (Some 1) ∷ linked_node 5 None ∷ [])) (5 ∷ []) (leads_root (link_to 1)) (Some ChainNote.Unlink) }
    ensures past_an_unmarked_node { ¬ MayAct 1 (one_root (marked_node 3 (Some 1) ∷ linked_node 5 None ∷ [])) (5 ∷ []) (leads_root null) (Some ChainNote.Unlink) }
    ensures past_no_node { ¬ MayAct 1 (one_root (marked_node 3 (Some 1) ∷ linked_node 5 None ∷ [])) (5 ∷ []) (leads_root (link_to 0)) (Some ChainNote.Unlink) }
    ensures to_another_node { ¬ MayAct 1 (one_root (marked_node 3 (Some 1) ∷ linked_node 5 None ∷ unlinked_node 4 (Some 1) ∷ [])) (5 ∷ []) (leads_root (link_to 2)) (Some ChainNote.Unlink) }
    ensures a_marked_link { ¬ MayAct 1 (one_root (marked_node 3 (Some 1) ∷ linked_node 5 None ∷ [])) (5 ∷ []) (leads_root (marked_link (Some 1))) (Some ChainNote.Unlink) }
    ensures behind_a_marked_node { ¬ MayAct 1 (one_root (marked_node 3 (Some 1) ∷ marked_node 5 None ∷ [])) [] (Act.Move (Place.Next 0) (marked_link (Some 1)) null) (Some ChainNote.Unlink) }
    ensures behind_a_node_never_linked { ¬ MayAct 1 (one_root (marked_node 3 (Some 1) ∷ linked_node 5 None ∷ unlinked_node 2 (Some 0) ∷ [])) (5 ∷ []) (Act.Move (Place.Next 2) (link_to 0) (link_to 1)) (Some ChainNote.Unlink) }
    ensures of_a_second_link { ¬ MayAct 1 (record { nodes = marked_node 3 (Some 1) ∷ linked_node 5 None ∷ with_side (link_to 0) (linked_node 2 None) ∷ []; roots = link_to 2 ∷ []; links = 2 }) (2 ∷ 5 ∷ []) (Act.Move (Place.Side 2) (link_to 0) (link_to 1)) (Some ChainNote.Unlink) }
{}

// What a Look may answer of the set that has the key 3 alone, and which acts may carry a note.
fn answers()
    ensures allowed { MayAnswer (3 ∷ []) (SetEntry.Added 1 3 false) × MayAnswer (3 ∷ []) (SetEntry.Removed 1 5 false)
        × MayAnswer (3 ∷ []) (SetEntry.Asked 1 3 true) × MayAnswer (3 ∷ []) (SetEntry.Asked 1 5 false) }
    ensures refused { (¬ MayAnswer (3 ∷ []) (SetEntry.Added 1 5 false)) × (¬ MayAnswer (3 ∷ []) (SetEntry.Removed 1 3 false))
        × (¬ MayAnswer (3 ∷ []) (SetEntry.Asked 1 3 false)) × (¬ MayAnswer (3 ∷ []) (SetEntry.Asked 1 5 true))
        × (¬ MayAnswer (3 ∷ []) (SetEntry.Added 1 5 true)) × (¬ MayAnswer (3 ∷ []) (SetEntry.Removed 1 3 true)) }
    ensures of_another_agent { ¬ IsOwnEntry 1 (Some (ChainNote.Entry (SetEntry.Asked 2 3 true))) }
    ensures move_without_a_note { ¬ MayAct 1 no_nodes [] (Act.Move (Place.Root 0) null (link_to 0)) None }
    ensures asked_by_a_move { ¬ MayAct 1 no_nodes [] (Act.Move (Place.Root 0) null null)
        (Some (ChainNote.Entry (SetEntry.Asked 1 3 false))) }
    ensures look_that_unlinks { ¬ MayAct 1 no_nodes [] (Act.Look (Place.Root 0) null) (Some ChainNote.Unlink) }
    ensures note_on_a_give { ¬ MayAct 1 no_nodes [] Act.Give
        (Some (ChainNote.Entry (SetEntry.Asked 1 3 false))) }
{}
