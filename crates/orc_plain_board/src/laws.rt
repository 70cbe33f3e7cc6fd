//! Laws of boards and of what passes have seen.

ghost use Rattle.std.specs.Prelude.{◌≡◌, ◌<◌, ◌++◌, ◌⊎◌, ℕ, List, Some, [], length, slice_get};
ghost use Rattle.orc_words.specs.Bounds.{Bounds};
ghost use Rattle.orc_heap.specs.{
  Allowed.{AllAllowed},
  Heap.{HeapNumbers},
  OwnEvents.{IsBelow},
  Journals.{IsLawful, run_heap},
  declared.events.Event.{Event},
  Seeds.{opening_events},
};
ghost use mathlib.Core.List.{IsPrefix};
ghost use Rattle.orc_shared_words.specs.Lists.{Among};
ghost use Rattle.orc_any_domain.specs.Rows.{Once, index_of};
ghost use Rattle.orc_plain_board.specs.{
  Calls.{AddsOwn},
  Machine.{AllowedFrom, numbers, project, run},
  Views.{Belongs, IsFreshRow, PlainView, board_bounds, board_numbers, board_seed, heap_of, shows},
  Words.{Tie},
  declared.machine.PlainStep.{PlainStep},
};

use crate::pass::{PlainBoard, PlainBoardPass};
use orc_heap::Discipline;

/// After a lawful journal the words show the heap of its events, where each row that was given is the node of its place
/// in the list of these rows.
pub fn words_show_the_heap<N>()
    ensures { (b : Bounds) (j : List (PlainStep N)) → AllowedFrom b j → IsLawful (numbers b) (project b j)
        → Tie b (run b j).words (run b j).given (run_heap (numbers b) (project b j)) }
{}

/// A row that was given keeps its node as more rows are given.
pub fn rows_keep_their_nodes()
    ensures { (rows more : List ℕ) (row : ℕ) → index_of row rows < length rows
        → index_of row (rows ++ more) ≡ index_of row rows }
{}

/// A call of a pass that took in the passes of all other agents adds its own events alone.
pub fn a_pass_that_took_in_all_is_alone<D: Discipline>()
    ensures { (n : HeapNumbers) (agents : ℕ) (own : List (Event D.Note)) (s t : PlainView D.Note)
        → AddsOwn (D.may n) own s t → IsBelow agents t.events
        → ((agent : ℕ) → agent < agents → (s.agent ≡ agent) ⊎ Among agent s.absorbed) → t.events ≡ s.events ++ own }
{}

impl<D: Discipline> PlainBoard<D> {
    /// What is true of all that a pass of the board has seen.
    pub fn seen_by(&self, p: &PlainBoardPass<D>)
        requires belongs { Belongs self.now p.now }
        ensures lawful { IsLawful (board_numbers self.now) (shows self.now p.now).events }
        ensures kept { D.holds (board_numbers self.now) (shows self.now p.now).events }
        ensures each { AllAllowed (D.may (board_numbers self.now)) [] (shows self.now p.now).events }
        ensures opened { IsPrefix (opening_events (board_seed self.now)) (shows self.now p.now).events }
        ensures agent { (shows self.now p.now).agent < (board_bounds self.now).agents }
        ensures below { IsBelow (board_bounds self.now).agents (shows self.now p.now).events }
        ensures even { length (shows self.now p.now).rows ≡ length (heap_of (board_bounds self.now) (shows self.now p.now)).nodes }
        ensures once { Once (shows self.now p.now).rows }
        ensures inside { (id row : ℕ) → slice_get (shows self.now p.now).rows id ≡ Some row → row < (board_bounds self.now).rows }
        ensures fresh { (row : ℕ) → (shows self.now p.now).fresh ≡ Some row → IsFreshRow (board_bounds self.now) (shows self.now p.now) row }
    {}
}
