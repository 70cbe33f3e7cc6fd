//! Laws of the queue discipline.

ghost use Rattle.std.specs.Prelude.{◌≡◌, ◌≢◌, ℕ, ◌+◌, ◌/◌, ◌<◌, ◌≤◌, ◌^◌, List, [], ◌∷◌, ◌++◌, Some, true, false, slice_get};
ghost use Rattle.orc_heap.specs.{
  Allowed.{AllAllowed, AllowedLater, Later, IsLinkedNode, events_by, HasLink},
  Heap.{HeapNumbers, Node, null, shown, link_to},
  Journals.{run_heap, event_by},
  declared.events.{Act.{Act}, Event.{Event}, Place.{Place}},
  Calls.{links_made},
  Moves.{moves_in},
};
ghost use Rattle.orc_history.specs.{
  Journals.{own_of},
  QueueHistory.{IsLegalQueue, agent_of_entry, puts_in},
  declared.queue.QueueEntry.{QueueEntry},
};
ghost use Rattle.orc_fifo_rule.specs.{
  declared.fifo.FifoNote.{FifoNote},
  Counts.{off_the_head, swings_in, tooks_in},
  QueueDiscipline.{FifoHolds, FifoMay, HasJob, entries_of, has_begun, position_of},
  Watches.{IsLeftBehind, WasNamed, node_to_put},
};

/// The empty list obeys the discipline, and so does each list that goes on with events that are allowed where
/// they stand.
pub fn allowed_events_obey_the_discipline()
    ensures nothing { (n : HeapNumbers) → FifoHolds n [] }
    ensures more { (n : HeapNumbers) (seen more : List (Event FifoNote)) → FifoHolds n seen → AllAllowed (FifoMay n) seen more
        → FifoHolds n (seen ++ more) }
{}

/// The history of a queue is that of a plain list, from the second value of node 0 on. This first position stays
/// once both roots have begun, and an agent's entries are those of its own events.
pub fn queue_histories_are_legal()
    ensures legal { (n : HeapNumbers) (es : List (Event FifoNote)) → FifoHolds n es
        → IsLegalQueue (position_of (run_heap n es) 0) (entries_of es) }
    ensures from_nothing { (n : HeapNumbers) (es : List (Event FifoNote)) → AllAllowed (FifoMay n) [] es
        → IsLegalQueue (position_of (run_heap n es) 0) (entries_of es) }
    ensures first { (n : HeapNumbers) (seen more : List (Event FifoNote)) → FifoHolds n seen → has_begun seen ≡ true
        → AllAllowed (FifoMay n) seen more → position_of (run_heap n (seen ++ more)) 0 ≡ position_of (run_heap n seen) 0 }
    ensures own { (n : HeapNumbers) (agent : ℕ) (seen more : List (Event FifoNote)) → AllAllowed (FifoMay n) seen more
        → own_of agent_of_entry agent (entries_of more) ≡ entries_of (events_by agent more) }
{}

/// Where root 1 has named a node whose link is null, the node's second value is the next position, also on the
/// empty queue.
pub fn the_last_node_says_the_next_position()
    ensures { (n : HeapNumbers) (es : List (Event FifoNote)) (id : ℕ) → FifoHolds n es → has_begun es ≡ true
        → WasNamed (run_heap n es) 1 id → shown (run_heap n es) (Place.Next id) ≡ Some null
        → position_of (run_heap n es) id ≡ position_of (run_heap n es) 0 + puts_in (entries_of es) }
{}

/// At most three links are made to a node in all: by its Put, by one Swing and by one Took. To node 0 at most two
/// are made, by the Begins.
pub fn a_node_is_linked_at_most_three_times()
    ensures three { (n : HeapNumbers) (es : List (Event FifoNote)) (id : ℕ) → AllAllowed (FifoMay n) [] es
        → links_made es id ≤ 3 }
    ensures two { (n : HeapNumbers) (es : List (Event FifoNote)) → AllAllowed (FifoMay n) [] es → links_made es 0 ≤ 2 }
{}

/// In any stretch after both roots have begun, Swings number at most the Puts and one.
pub fn swings_cost_puts()
    ensures { (n : HeapNumbers) (seen more : List (Event FifoNote)) → FifoHolds n seen → has_begun seen ≡ true
        → AllAllowed (FifoMay n) seen more → swings_in more ≤ puts_in (entries_of more) + 1 }
{}

/// In any stretch after both roots have begun, each Move is a Put, a Took or a Swing, and a Took alone moves root 0. So
/// where so many turns each have a Move in the stretch, Puts and Tooks number at least half of them, rounded down.
pub fn moves_cost_entries()
    ensures kinds { (n : HeapNumbers) (seen more : List (Event FifoNote)) → FifoHolds n seen → has_begun seen ≡ true
        → AllAllowed (FifoMay n) seen more → moves_in more ≡ puts_in (entries_of more) + tooks_in (entries_of more) + swings_in more }
    ensures off_the_head { (n : HeapNumbers) (seen more : List (Event FifoNote)) → FifoHolds n seen → has_begun seen ≡ true
        → AllAllowed (FifoMay n) seen more → moves_in (off_the_head more) ≡ puts_in (entries_of more) + swings_in more }
    ensures half { (n : HeapNumbers) (seen more : List (Event FifoNote)) (turns : ℕ) → FifoHolds n seen → has_begun seen ≡ true
        → AllAllowed (FifoMay n) seen more → turns ≤ moves_in more
        → turns / 2 ≤ puts_in (entries_of more) + tooks_in (entries_of more) }
{}

/// What stays true of a node whatever is allowed: that a root named it, that root 1 has left it, where its link
/// leads, its position, and the job of a Put. A fresh node stays as it is while other agents act.
pub fn facts_of_nodes_stay()
    ensures named { (n : HeapNumbers) (seen more : List (Event FifoNote)) (root id : ℕ) → AllAllowed (FifoMay n) seen more
        → WasNamed (run_heap n seen) root id → WasNamed (run_heap n (seen ++ more)) root id }
    ensures left { (n : HeapNumbers) (seen more : List (Event FifoNote)) (id : ℕ) → FifoHolds n seen → has_begun seen ≡ true
        → AllAllowed (FifoMay n) seen more → IsLeftBehind (run_heap n seen) id → IsLeftBehind (run_heap n (seen ++ more)) id }
    ensures link { (n : HeapNumbers) (seen more : List (Event FifoNote)) (id next : ℕ) → AllAllowed (FifoMay n) seen more
        → HasLink (run_heap n seen) id (link_to next) → HasLink (run_heap n (seen ++ more)) id (link_to next) }
    ensures position { (n : HeapNumbers) (seen more : List (Event FifoNote)) (id : ℕ) → AllAllowed (FifoMay n) seen more
        → IsLinkedNode (run_heap n seen) id → position_of (run_heap n (seen ++ more)) id ≡ position_of (run_heap n seen) id }
    ensures job { (n : HeapNumbers) (seen more : List (Event FifoNote)) (id job at : ℕ) → AllAllowed (FifoMay n) seen more
        → HasJob (run_heap n seen) id job at → HasJob (run_heap n (seen ++ more)) id job at }
    ensures fresh { (n : HeapNumbers) (seen more : List (Event FifoNote)) (agent id : ℕ) (node : Node) → FifoHolds n seen
        → Later (FifoMay n) agent seen more → slice_get (run_heap n seen).nodes id ≡ Some node
        → node.giver ≡ agent → node.named ≡ false → node.linked ≡ false
        → slice_get (run_heap n (seen ++ more)).nodes id ≡ Some node }
{}

/// An agent that saw root 0 name a node may enter an Empty wherever it finds the node's link null.
pub fn an_empty_may_come()
    ensures { (n : HeapNumbers) (agent id : ℕ) (seen : List (Event FifoNote)) → FifoHolds n seen → has_begun seen ≡ true
        → WasNamed (run_heap n seen) 0 id
        → AllowedLater (FifoMay n) n agent seen (Place.Next id) null
        (event_by agent (Act.Look (Place.Next id) null) (Some (FifoNote.Entry (QueueEntry.Empty agent)))) }
{}

/// An agent that saw a node's link lead to another may swing root 1 to that one wherever root 1 names the node.
pub fn a_swing_may_come()
    ensures { (n : HeapNumbers) (agent id next : ℕ) (seen : List (Event FifoNote)) → FifoHolds n seen → has_begun seen ≡ true
        → HasLink (run_heap n seen) id (link_to next)
        → AllowedLater (FifoMay n) n agent seen (Place.Root 1) (link_to id)
        (event_by agent (Act.Move (Place.Root 1) (link_to id) (link_to next)) (Some FifoNote.Swing)) }
{}

/// An agent that saw that root 1 has left a node, and that the node's link leads to one with this job, may take
/// the job wherever root 0 names the node. A node that root 0 has named is left where root 1 names another.
pub fn a_took_may_come()
    ensures took { (n : HeapNumbers) (agent id next job at : ℕ) (seen : List (Event FifoNote)) → FifoHolds n seen → has_begun seen ≡ true
        → IsLeftBehind (run_heap n seen) id → HasLink (run_heap n seen) id (link_to next) → HasJob (run_heap n seen) next job at
        → AllowedLater (FifoMay n) n agent seen (Place.Root 0) (link_to id)
        (event_by agent (Act.Move (Place.Root 0) (link_to id) (link_to next)) (Some (FifoNote.Entry (QueueEntry.Took agent job at)))) }
    ensures left { (n : HeapNumbers) (es : List (Event FifoNote)) (id : ℕ) → FifoHolds n es → has_begun es ≡ true
        → WasNamed (run_heap n es) 0 id → shown (run_heap n es) (Place.Root 1) ≢ Some (link_to id) → IsLeftBehind (run_heap n es) id }
{}

/// An agent that saw root 1 name a node may put its fresh node, with the values for the node's second value as
/// position, wherever it finds the node's link null.
pub fn a_put_may_come()
    ensures { (n : HeapNumbers) (agent id fresh job at : ℕ) (seen : List (Event FifoNote)) → FifoHolds n seen → has_begun seen ≡ true
        → WasNamed (run_heap n seen) 1 id → position_of (run_heap n seen) id ≡ at → at < 2 ^ 62
        → slice_get (run_heap n seen).nodes fresh ≡ Some (node_to_put agent job at)
        → AllowedLater (FifoMay n) n agent seen (Place.Next id) null
        (event_by agent (Act.Move (Place.Next id) null (link_to fresh)) (Some (FifoNote.Entry (QueueEntry.Put agent job at)))) }
{}
