//! Laws of the discipline of a cell.

ghost use Rattle.std.specs.Prelude.{◌≡◌, ◌⊎◌, ℕ, ◌<◌, List, [], ◌∷◌, ◌++◌, None, Option, Some, false, true, slice_get};
ghost use Rattle.orc_heap.specs.{
  Allowed.{AllAllowed, AllowedLater, IsLinkedNode, Later, events_by},
  Heap.{HeapNumbers, Node, link_to, null, shown},
  Journals.{event_by, run_heap},
  Moves.{moves_place},
  declared.events.{Act.{Act}, Event.{Event}, Link.{Link}, Place.{Place}},
};
ghost use Rattle.orc_history.specs.Journals.{own_of};
ghost use Rattle.orc_pairs_rule.specs.{
  CellHistory.{IsLegalCell, Parts, agent_of_entry, no_parts, parts_after, replaced},
  PairsDiscipline.{HasPair, HasPart, IsPart, IsStaging, PairsHolds, PairsMay, ShowsParts, entries_in, entries_of, pairs_rank, parts_of},
  Watches.{MayFollow, IsOwnPair},
  declared.entry.CellEntry.{CellEntry},
  declared.pairs.PairsNote.{PairsNote},
};

/// The empty list obeys the discipline over a heap with a root, and so does each list that goes on with events that are
/// allowed where they stand.
pub fn allowed_events_obey_the_discipline()
    ensures nothing { (n : HeapNumbers) → 0 < n.roots → PairsHolds n [] }
    ensures more { (n : HeapNumbers) (seen more : List (Event PairsNote)) → PairsHolds n seen → AllAllowed (PairsMay n) seen more
        → PairsHolds n (seen ++ more) }
{}

/// In a legal history each Seen shows both parts as they stand after all that is before it, and each Published tells those
/// parts with the given ones replaced. So no answer has parts of two versions.
pub fn legal_histories_show_one_version()
    ensures seen { (before after : List CellEntry) (agent left right : ℕ) → IsLegalCell (before ++ CellEntry.Seen agent left right ∷ after)
        → parts_after no_parts before ≡ record { left = left; right = right } }
    ensures published { (before after : List CellEntry) (agent : ℕ) (left right : Option ℕ) (x y : ℕ)
        → IsLegalCell (before ++ CellEntry.Published agent left right x y ∷ after)
        → replaced left right (parts_after no_parts before) ≡ record { left = x; right = y } }
{}

/// The history of a cell is legal, root 0 shows the parts after it, and an agent's entries are those of its own events.
pub fn cell_histories_are_legal()
    ensures legal { (n : HeapNumbers) (es : List (Event PairsNote)) → 0 < n.roots → AllAllowed (PairsMay n) [] es → IsLegalCell (entries_of es) }
    ensures shows { (n : HeapNumbers) (es : List (Event PairsNote)) → 0 < n.roots → AllAllowed (PairsMay n) [] es
        → ShowsParts (run_heap n es) (parts_of es) }
    ensures own { (n : HeapNumbers) (agent : ℕ) (seen more : List (Event PairsNote)) → AllAllowed (PairsMay n) seen more
        → own_of agent_of_entry agent (entries_of more) ≡ entries_of (events_by agent more) }
{}

/// What stays true whatever is allowed: that a node is a part with its value, or a pair with its parts. A fresh node, and what
/// an agent's staging roots show, stay while other agents act.
pub fn facts_of_a_cell_stay()
    ensures part { (n : HeapNumbers) (seen more : List (Event PairsNote)) (id value : ℕ) → AllAllowed (PairsMay n) seen more
        → HasPart (run_heap n seen) id value → HasPart (run_heap n (seen ++ more)) id value }
    ensures pair { (n : HeapNumbers) (seen more : List (Event PairsNote)) (id left right : ℕ) (parts : Parts) → AllAllowed (PairsMay n) seen more
        → HasPair (run_heap n seen) id left right parts → HasPair (run_heap n (seen ++ more)) id left right parts }
    ensures fresh { (n : HeapNumbers) (seen more : List (Event PairsNote)) (agent id : ℕ) (node : Node) → PairsHolds n seen
        → Later (PairsMay n) agent seen more → slice_get (run_heap n seen).nodes id ≡ Some node
        → node.giver ≡ agent → node.named ≡ false → node.linked ≡ false
        → slice_get (run_heap n (seen ++ more)).nodes id ≡ Some node }
    ensures staging { (n : HeapNumbers) (seen more : List (Event PairsNote)) (agent root : ℕ) → IsStaging agent root
        → Later (PairsMay n) agent seen more → shown (run_heap n (seen ++ more)) (Place.Root root) ≡ shown (run_heap n seen) (Place.Root root) }
{}

/// An event that enters nothing is no Move of root 0: each version of the pair has its entry.
pub fn a_move_of_the_pair_has_an_entry()
    ensures { (n : HeapNumbers) (es : List (Event PairsNote)) (e : Event PairsNote) → PairsMay n es e → entries_in e.note ≡ []
        → moves_place (Place.Root 0) e.act ≡ false }
{}

/// An agent may enter a Seen of two zeros wherever it finds root 0 null, and one of a pair's parts wherever it finds that
/// root 0 names that pair.
pub fn a_seen_may_come()
    ensures null { (n : HeapNumbers) (agent : ℕ) (seen : List (Event PairsNote)) → PairsHolds n seen
        → AllowedLater (PairsMay n) n agent seen (Place.Root 0) null
        (event_by agent (Act.Look (Place.Root 0) null) (Some (PairsNote.Entry (CellEntry.Seen agent 0 0)))) }
    ensures pair { (n : HeapNumbers) (agent : ℕ) (seen : List (Event PairsNote)) (id left right : ℕ) (parts : Parts) → PairsHolds n seen
        → HasPair (run_heap n seen) id left right parts
        → AllowedLater (PairsMay n) n agent seen (Place.Root 0) (link_to id)
        (event_by agent (Act.Look (Place.Root 0) (link_to id)) (Some (PairsNote.Entry (CellEntry.Seen agent parts.left parts.right)))) }
{}

/// An agent may set its staging root from null to its fresh part, and back to null from whatever it shows.
pub fn a_stage_may_come()
    ensures stage { (n : HeapNumbers) (agent : ℕ) (seen : List (Event PairsNote)) (root id value : ℕ) (node : Node) → PairsHolds n seen
        → IsStaging agent root → slice_get (run_heap n seen).nodes id ≡ Some node → node.giver ≡ agent → node.named ≡ false
        → node.linked ≡ false → IsPart node value
        → AllowedLater (PairsMay n) n agent seen (Place.Root root) null
        (event_by agent (Act.Move (Place.Root root) null (link_to id)) (Some PairsNote.Stage)) }
    ensures unstage { (n : HeapNumbers) (agent : ℕ) (seen : List (Event PairsNote)) (root : ℕ) (from : Link) → PairsHolds n seen
        → IsStaging agent root
        → AllowedLater (PairsMay n) n agent seen (Place.Root root) from
        (event_by agent (Act.Move (Place.Root root) from null) (Some PairsNote.Unstage)) }
{}

/// An agent whose own pair leads to two parts may publish it wherever root 0 shows what the pair may follow: null, or a pair
/// of which it has the parts that aren't given.
pub fn a_published_may_come()
    ensures { (n : HeapNumbers) (agent : ℕ) (seen : List (Event PairsNote)) (left right : Option ℕ) (from : Link) (id l r : ℕ) (parts : Parts)
        → PairsHolds n seen → n.links ≡ 2 → IsOwnPair (run_heap n seen) agent id l r parts
        → MayFollow (run_heap n seen) left right from l r parts
        → AllowedLater (PairsMay n) n agent seen (Place.Root 0) from
        (event_by agent (Act.Move (Place.Root 0) from (link_to id)) (Some (PairsNote.Entry (CellEntry.Published agent left right parts.left parts.right)))) }
{}
