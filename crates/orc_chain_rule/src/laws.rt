//! Laws of the chain discipline.

ghost use Rattle.std.specs.Prelude.{Contains, ◌≡◌, ℕ, ◌%◌, List, [], ◌∷◌, ◌++◌, ◌+◌, ◌-◌, ◌*◌, ◌≤◌, Option, Some, length, true, false, slice_get};
ghost use Rattle.orc_heap.specs.{
  Allowed.{AllAllowed, AllowedLater, HasLink, IsLinkedNode, Later, events_by},
  Heap.{HeapNumbers, Node, link_to, shown},
  Journals.{event_by, run_heap},
  Moves.{moves_in},
  declared.events.{Act.{Act}, Event.{Event}, Link.{Link}, Place.{Place}},
};
ghost use Rattle.orc_history.specs.{Journals.{own_of}, SetHistory.{IsLegalSet, agent_of_set_entry, has}, declared.set.SetEntry.{SetEntry}};
ghost use Rattle.orc_chain_rule.specs.{
  declared.chain.ChainNote.{ChainNote},
  ChainDiscipline.{ChainHolds, ChainMay, FollowsOn, HasKey, IsAbove, IsChainPlace, IsOnNoChain, entries_of, set_after},
  Counts.{AreLeftOver, adds_in, removes_in, unlinks_in},
  Watches.{LeavesOut, node_to_add},
};
ghost use Rattle.orc_ordered_chains.specs.Chains.{IsOnChain, IsRun, link_over};

/// The empty list obeys the discipline, and so does each list that goes on with events that are allowed where
/// they stand.
pub fn allowed_events_obey_the_discipline()
    ensures nothing { (n : HeapNumbers) → ChainHolds n [] }
    ensures more { (n : HeapNumbers) (seen more : List (Event ChainNote)) → ChainHolds n seen → AllAllowed (ChainMay n) seen more
        → ChainHolds n (seen ++ more) }
{}

/// The history of a set is that of a plain finite set, and an agent's entries are those of its own events.
pub fn set_histories_are_legal()
    ensures legal { (n : HeapNumbers) (es : List (Event ChainNote)) → ChainHolds n es → IsLegalSet (entries_of es) }
    ensures from_nothing { (n : HeapNumbers) (es : List (Event ChainNote)) → AllAllowed (ChainMay n) [] es
        → IsLegalSet (entries_of es) }
    ensures own { (n : HeapNumbers) (agent : ℕ) (seen more : List (Event ChainNote)) → AllAllowed (ChainMay n) seen more
        → own_of agent_of_set_entry agent (entries_of more) ≡ entries_of (events_by agent more) }
{}

/// A node is reached only from the root of its key.
pub fn a_node_is_reached_from_one_root()
    ensures { (n : HeapNumbers) (es : List (Event ChainNote)) (root id key : ℕ) → ChainHolds n es
        → IsOnChain (run_heap n es) root id → HasKey (run_heap n es) id key → key % n.roots ≡ root }
{}

/// A key is absent where a place below it shows an unmarked link that leads over a run of marked nodes, possibly none,
/// to null or above the key. It is present where a node with the key has an unmarked link.
pub fn keys_absent_and_present()
    ensures absent { (n : HeapNumbers) (es : List (Event ChainNote)) (place : Place) (from : Link) (over : List ℕ) (to : Option ℕ) (key : ℕ)
        → ChainHolds n es → shown (run_heap n es) place ≡ Some from
        → LeavesOut n.roots (run_heap n es) place from over to key → has key (set_after es) ≡ false }
    ensures present { (n : HeapNumbers) (es : List (Event ChainNote)) (id key : ℕ) (link : Link) → ChainHolds n es
        → HasKey (run_heap n es) id key → shown (run_heap n es) (Place.Next id) ≡ Some link → link.mark ≡ false
        → has key (set_after es) ≡ true }
{}

/// What stays true whatever is allowed: the key of a once linked node, a marked link and so a run of marked nodes,
/// what lies below and above a key, and that a place's link leaves it out. A fresh node stays as it is while other
/// agents act.
pub fn facts_of_chains_stay()
    ensures key { (n : HeapNumbers) (seen more : List (Event ChainNote)) (id key : ℕ) → AllAllowed (ChainMay n) seen more
        → HasKey (run_heap n seen) id key → HasKey (run_heap n (seen ++ more)) id key }
    ensures marked { (n : HeapNumbers) (seen more : List (Event ChainNote)) (id : ℕ) (link : Link) → AllAllowed (ChainMay n) seen more
        → HasLink (run_heap n seen) id link → link.mark ≡ true → HasLink (run_heap n (seen ++ more)) id link }
    ensures run { (n : HeapNumbers) (seen more : List (Event ChainNote)) (from : Link) (over : List ℕ) (to : Option ℕ)
        → AllAllowed (ChainMay n) seen more → IsRun (run_heap n seen) from over to → IsRun (run_heap n (seen ++ more)) from over to }
    ensures below { (n : HeapNumbers) (seen more : List (Event ChainNote)) (roots : ℕ) (place : Place) (key : ℕ)
        → AllAllowed (ChainMay n) seen more → FollowsOn roots (run_heap n seen) place key
        → FollowsOn roots (run_heap n (seen ++ more)) place key }
    ensures above { (n : HeapNumbers) (seen more : List (Event ChainNote)) (to : Option ℕ) (key : ℕ) → AllAllowed (ChainMay n) seen more
        → IsAbove (run_heap n seen) to key → IsAbove (run_heap n (seen ++ more)) to key }
    ensures left_out { (n : HeapNumbers) (seen more : List (Event ChainNote)) (roots : ℕ) (place : Place) (from : Link) (over : List ℕ)
        (to : Option ℕ) (key : ℕ) → AllAllowed (ChainMay n) seen more → LeavesOut roots (run_heap n seen) place from over to key
        → LeavesOut roots (run_heap n (seen ++ more)) place from over to key }
    ensures fresh { (n : HeapNumbers) (seen more : List (Event ChainNote)) (agent id : ℕ) (node : Node) → ChainHolds n seen
        → Later (ChainMay n) agent seen more → slice_get (run_heap n seen).nodes id ≡ Some node
        → node.giver ≡ agent → node.named ≡ false → node.linked ≡ false
        → slice_get (run_heap n (seen ++ more)).nodes id ≡ Some node }
{}

/// An agent that saw a link leave out a key may link its fresh node with the key, aimed where the link leads, wherever
/// the place shows the link.
pub fn an_added_may_come()
    ensures { (n : HeapNumbers) (agent : ℕ) (place : Place) (from : Link) (over : List ℕ) (to : Option ℕ) (key second fresh : ℕ)
        (seen : List (Event ChainNote)) → ChainHolds n seen → LeavesOut n.roots (run_heap n seen) place from over to key
        → slice_get (run_heap n seen).nodes fresh ≡ Some (node_to_add agent key second to)
        → AllowedLater (ChainMay n) n agent seen place from
        (event_by agent (Act.Move place from (link_to fresh)) (Some (ChainNote.Entry (SetEntry.Added agent key true)))) }
{}

/// An agent that saw a once linked node with a key may mark it wherever its link is this unmarked one.
pub fn a_removed_may_come()
    ensures { (n : HeapNumbers) (agent id key : ℕ) (from : Link) (seen : List (Event ChainNote)) → ChainHolds n seen
        → HasKey (run_heap n seen) id key → from.mark ≡ false
        → AllowedLater (ChainMay n) n agent seen (Place.Next id) from
        (event_by agent (Act.Move (Place.Next id) from (record { to = from.to; mark = true }))
        (Some (ChainNote.Entry (SetEntry.Removed agent key true)))) }
{}

/// An agent that saw an unmarked link lead to a run of marked nodes may lead it past them wherever a root or a once
/// linked node shows it.
pub fn an_unlink_may_come()
    ensures { (n : HeapNumbers) (agent : ℕ) (place : Place) (from : Link) (first : ℕ) (others : List ℕ) (to : Option ℕ)
        (seen : List (Event ChainNote)) → ChainHolds n seen → IsChainPlace place (run_heap n seen) → from.mark ≡ false
        → IsRun (run_heap n seen) from (first ∷ others) to
        → AllowedLater (ChainMay n) n agent seen place from
        (event_by agent (Act.Move place from (link_over to)) (Some ChainNote.Unlink)) }
{}

/// An agent that saw a link leave out a key may say that the key is absent wherever the place shows the link again.
pub fn absent_answers_may_come()
    ensures removed { (n : HeapNumbers) (agent : ℕ) (place : Place) (from : Link) (over : List ℕ) (to : Option ℕ) (key : ℕ)
        (seen : List (Event ChainNote)) → ChainHolds n seen → LeavesOut n.roots (run_heap n seen) place from over to key
        → AllowedLater (ChainMay n) n agent seen place from
        (event_by agent (Act.Look place from) (Some (ChainNote.Entry (SetEntry.Removed agent key false)))) }
    ensures asked { (n : HeapNumbers) (agent : ℕ) (place : Place) (from : Link) (over : List ℕ) (to : Option ℕ) (key : ℕ)
        (seen : List (Event ChainNote)) → ChainHolds n seen → LeavesOut n.roots (run_heap n seen) place from over to key
        → AllowedLater (ChainMay n) n agent seen place from
        (event_by agent (Act.Look place from) (Some (ChainNote.Entry (SetEntry.Asked agent key false)))) }
{}

/// An agent that saw a once linked node with a key may say that the key is present wherever the node's link is this
/// unmarked one.
pub fn present_answers_may_come()
    ensures added { (n : HeapNumbers) (agent id key : ℕ) (link : Link) (seen : List (Event ChainNote)) → ChainHolds n seen
        → HasKey (run_heap n seen) id key → link.mark ≡ false
        → AllowedLater (ChainMay n) n agent seen (Place.Next id) link
        (event_by agent (Act.Look (Place.Next id) link) (Some (ChainNote.Entry (SetEntry.Added agent key false)))) }
    ensures asked { (n : HeapNumbers) (agent id key : ℕ) (link : Link) (seen : List (Event ChainNote)) → ChainHolds n seen
        → HasKey (run_heap n seen) id key → link.mark ≡ false
        → AllowedLater (ChainMay n) n agent seen (Place.Next id) link
        (event_by agent (Act.Look (Place.Next id) link) (Some (ChainNote.Entry (SetEntry.Asked agent key true)))) }
{}

/// Each node of a run that an Unlink or an Added leads past is on no chain then. A once linked node that is on no
/// chain stays on none.
pub fn nodes_of_a_run_leave_the_chain()
    ensures unlinked { (n : HeapNumbers) (agent : ℕ) (place : Place) (from : Link) (over : List ℕ) (to : Option ℕ) (id : ℕ)
        (seen : List (Event ChainNote)) → ChainHolds n seen
        → (let e : Event ChainNote = event_by agent (Act.Move place from (link_over to)) (Some ChainNote.Unlink) in
        ChainMay n seen e → IsRun (run_heap n seen) from over to → Contains over id → IsOnNoChain (run_heap n (seen ++ e ∷ [])) id) }
    ensures added { (n : HeapNumbers) (agent : ℕ) (place : Place) (from : Link) (over : List ℕ) (to : Option ℕ) (key fresh id : ℕ)
        (seen : List (Event ChainNote)) → ChainHolds n seen
        → (let e : Event ChainNote = event_by agent (Act.Move place from (link_to fresh))
        (Some (ChainNote.Entry (SetEntry.Added agent key true))) in
        ChainMay n seen e → shown (run_heap n seen) (Place.Next fresh) ≡ Some (link_over to)
        → IsRun (run_heap n seen) from over to → Contains over id → IsOnNoChain (run_heap n (seen ++ e ∷ [])) id) }
    ensures later { (n : HeapNumbers) (seen more : List (Event ChainNote)) (id : ℕ) → ChainHolds n seen → AllAllowed (ChainMay n) seen more
        → IsLinkedNode (run_heap n seen) id → IsOnNoChain (run_heap n seen) id → IsOnNoChain (run_heap n (seen ++ more)) id }
{}

/// In any stretch, Unlinks number at most the keys that were taken out in it and the marked nodes that were still on a
/// chain at its start, whatever list these are covered by.
pub fn unlinks_cost_removes()
    ensures { (n : HeapNumbers) (seen more : List (Event ChainNote)) (ids : List ℕ) → ChainHolds n seen → AllAllowed (ChainMay n) seen more
        → AreLeftOver (run_heap n seen) ids → unlinks_in more ≤ removes_in (entries_of more) + length ids }
{}

/// Each Move adds a key, takes a key out, or is an Unlink.
pub fn moves_are_of_three_kinds()
    ensures { (n : HeapNumbers) (seen more : List (Event ChainNote)) → AllAllowed (ChainMay n) seen more
        → moves_in more ≡ adds_in (entries_of more) + removes_in (entries_of more) + unlinks_in more }
{}

/// Where so many turns each have a Move in a stretch, each key that was added there cost at most one of them, and each that
/// was taken out at most two; and so did each marked node that was still on a chain at its start at most one, whatever list
/// these are covered by. So keys that went in or out number at least half of all turns but those.
pub fn moves_cost_entries()
    ensures turns { (n : HeapNumbers) (seen more : List (Event ChainNote)) (ids : List ℕ) (turns : ℕ) → ChainHolds n seen
        → AllAllowed (ChainMay n) seen more → AreLeftOver (run_heap n seen) ids → turns ≤ moves_in more
        → turns ≤ adds_in (entries_of more) + 2 * removes_in (entries_of more) + length ids }
    ensures half { (n : HeapNumbers) (seen more : List (Event ChainNote)) (ids : List ℕ) (turns : ℕ) → ChainHolds n seen
        → AllAllowed (ChainMay n) seen more → AreLeftOver (run_heap n seen) ids → turns ≤ moves_in more
        → turns - length ids ≤ 2 * (adds_in (entries_of more) + removes_in (entries_of more)) }
{}
