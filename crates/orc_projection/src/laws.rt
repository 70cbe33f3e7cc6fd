//! Laws of the projection.

ghost use Rattle.std.specs.Prelude.{◌≡◌, ◌↔◌, ◌++◌, ◌+◌, ◌*◌, ◌<◌, ◌≤◌, List, Some, length, slice_get, ℕ};
ghost use Rattle.std.specs.Option.{option_map};
ghost use Rattle.orc_words.specs.{
  Bounds.{Bounds, IsShape, link_limit},
  Packed.{link_of, sequence_of},
  Places.{link_at},
  declared.place.Word.TheVariants.{Counter, Root},
  declared.packed.RowLink.{RowLink},
};
ghost use Rattle.orc_core.specs.{Machine.{Machine, new_machine, word_in}, Runs.{run}};
ghost use Rattle.orc_heap.specs.{Calls.{links_made}, Journals.{IsLawful, run_heap}};
ghost use Rattle.orc_sound.specs.{
  Balance.{decrements, increments},
  Linked.{IsOut, linked},
  declared.steps.Step.{Step},
  Journals.{IsLawfulJournal, plain},
};
ghost use Rattle.orc_projection.specs.{
  PresentIds.{PresentIds},
  Projection.{StoresUnmarked, ids_from, present_ids, project, project_from},
  Taken.{LinksOut, rows_taken, rows_taken_from},
  Mirror.{Mirrors, numbers_of},
};

/// Reused rows look like nodes that are never reused. From a new state on, the events of every lawful list of
/// steps that stores no marked link are a lawful heap journal, and the words then show its heap.
pub fn every_journal_projects_to_a_heap_journal<N>()
    ensures lawful { (b : Bounds) (steps : List (Step N)) → IsShape b → IsLawfulJournal (new_machine b) steps → StoresUnmarked steps
        → IsLawful (numbers_of b) (project b steps) }
    ensures mirrors { (b : Bounds) (steps : List (Step N)) → IsShape b → IsLawfulJournal (new_machine b) steps → StoresUnmarked steps
        → Mirrors (run (new_machine b) (plain steps)) (present_ids b steps) (run_heap (numbers_of b) (project b steps)) }
{}

/// The events of two lists of steps are those of the first, and then those of the second from there on; so are
/// the present ids. Two lists store no marked link where each of them stores none.
pub fn projections_go_on<N>()
    ensures events { (m : Machine) (p : PresentIds) (first second : List (Step N)) → project_from m p (first ++ second)
        ≡ project_from m p first ++ project_from (run m (plain first)) (ids_from m p first) second }
    ensures ids { (m : Machine) (p : PresentIds) (first second : List (Step N)) → ids_from m p (first ++ second)
        ≡ ids_from (run m (plain first)) (ids_from m p first) second }
    ensures unmarked { (first second : List (Step N)) → StoresUnmarked (first ++ second)
        ↔ (StoresUnmarked first × StoresUnmarked second) }
{}

/// A link that is made to a node raises its row's sequence by two: by one when it is counted, and by one when it is
/// taken out again. A row is taken with a sequence below the limit, so what its sequence has come to, with what is
/// still to come of its links and pending changes, is less than the limit and twice the links ever made to its
/// present node. Where the sequence is at the limit for links, more than 32 links were made.
pub fn a_worn_row_was_linked<N>()
    ensures spending { (b : Bounds) (steps : List (Step N)) (r : ℕ) → IsShape b → IsLawfulJournal (new_machine b) steps
        → let m = run (new_machine b) (plain steps) in
        IsOut m r → sequence_of (word_in m (Counter r)) + increments m r + decrements m r + linked m r
        < b.limit + 2 * links_made (project b steps) ((present_ids b steps).node r) }
    ensures worn { (b : Bounds) (steps : List (Step N)) (r : ℕ) → IsShape b → IsLawfulJournal (new_machine b) steps
        → let m = run (new_machine b) (plain steps) in
        IsOut m r → link_limit b ≤ sequence_of (word_in m (Counter r))
        → 33 ≤ links_made (project b steps) ((present_ids b steps).node r) }
{}

/// Each node lies in one row. The rows that were taken, in order, only grow, and a row that is out stands there at the
/// id of its present node. So rows that are out at two moments, and have one node, are one row.
pub fn each_node_lies_in_one_row<N>()
    ensures count { (b : Bounds) (steps : List (Step N)) → IsShape b → IsLawfulJournal (new_machine b) steps
        → length (rows_taken b steps) ≡ (present_ids b steps).given }
    ensures row { (b : Bounds) (steps : List (Step N)) (r : ℕ) → IsShape b → IsLawfulJournal (new_machine b) steps
        → IsOut (run (new_machine b) (plain steps)) r → slice_get (rows_taken b steps) ((present_ids b steps).node r) ≡ Some r }
    ensures grows { (m : Machine) (first second : List (Step N)) → rows_taken_from m (first ++ second)
        ≡ rows_taken_from m first ++ rows_taken_from (run m (plain first)) second }
    ensures one { (b : Bounds) (first second : List (Step N)) (q r : ℕ) → IsShape b → IsLawfulJournal (new_machine b) (first ++ second)
        → IsOut (run (new_machine b) (plain first)) q → IsOut (run (new_machine b) (plain (first ++ second))) r
        → (present_ids b first).node q ≡ (present_ids b (first ++ second)).node r → q ≡ r }
{}

/// Links of different rows, in use at two moments, are links of different nodes.
pub fn links_of_two_rows_are_links_of_two_nodes<N>()
    ensures root { (b : Bounds) (steps : List (Step N)) (i : ℕ) → IsShape b → IsLawfulJournal (new_machine b) steps
        → let m = run (new_machine b) (plain steps) in
        i < b.roots → LinksOut m (link_of (word_in m (Root i))) }
    ensures row { (b : Bounds) (steps : List (Step N)) (r n : ℕ) → IsShape b → IsLawfulJournal (new_machine b) steps
        → let m = run (new_machine b) (plain steps) in
        n < b.links → IsOut m r → LinksOut m (link_of (word_in m (link_at n r))) }
    ensures two { (b : Bounds) (first second : List (Step N)) (k l : RowLink) → IsShape b → IsLawfulJournal (new_machine b) (first ++ second)
        → LinksOut (run (new_machine b) (plain first)) k → LinksOut (run (new_machine b) (plain (first ++ second))) l
        → option_map (present_ids b first).node k.to ≡ option_map (present_ids b (first ++ second)).node l.to → k.to ≡ l.to }
{}
