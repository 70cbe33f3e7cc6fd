//! Laws over every lawful list of steps, from a new state of any shape on.

ghost use Rattle.std.specs.Prelude.{◌≡◌, ℕ, ◌+◌, ◌*◌, ◌<◌, ◌≤◌, ◌⊎◌, ◌↔◌, ◌++◌, List, None, length, true};
ghost use Rattle.orc_words.specs.{Packed.{bit}, Bounds.{Bounds, IsShape}};
ghost use Rattle.orc_core.specs.{
  declared.ops.Op.{Op},
  Actions.{action_of},
  Counts.{is_out},
  Machine.{LeavesRoom, Machine, answer, is_allowed, new_machine, record_at, step, word_read},
  RecordParts.{names},
  Runs.{IsLawful, run},
};
ghost use Rattle.orc_sound.specs.{
  declared.steps.Step.{Step},
  Backlog.{backlog},
  Journals.{IsLawfulJournal, plain},
  Lifetimes.{NoWrap, times_freed, times_taken},
  Linked.{IsOut, IsUnreachable},
  Sound.{IsSound},
};

/// Every lawful list of steps leaves a sound state.
pub fn every_run_is_sound()
    ensures { (b : Bounds) (steps : List (ℕ × Op)) → IsShape b → IsLawful (new_machine b) steps
        → IsSound (run (new_machine b) steps) }
{}

/// The steps of a lawful journal are a lawful list, so that all these laws hold of them; and the journal
/// leaves a sound state.
pub fn every_journal_is_sound<N>()
    ensures lawful { (b : Bounds) (journal : List (Step N)) → IsLawfulJournal (new_machine b) journal
        → IsLawful (new_machine b) (plain journal) }
    ensures sound { (b : Bounds) (journal : List (Step N)) → IsShape b → IsLawfulJournal (new_machine b) journal
        → IsSound (run (new_machine b) (plain journal)) }
{}

/// A journal of two parts is lawful where its first part is, and its second from the state on that the first leaves.
pub fn journals_go_on<N>()
    ensures steps { (first second : List (Step N)) → plain (first ++ second) ≡ plain first ++ plain second }
    ensures states { (m : Machine) (first second : List (Step N))
        → run m (plain (first ++ second)) ≡ run (run m (plain first)) (plain second) }
    ensures lawful { (m : Machine) (first second : List (Step N)) → IsLawfulJournal m (first ++ second)
        ↔ (IsLawfulJournal m first × IsLawfulJournal (run m (plain first)) second) }
{}

/// A row that is freed is out, nothing links it, nobody holds it, and no change of it is pending or due.
pub fn a_freed_row_is_unreachable()
    ensures { (b : Bounds) (steps : List (ℕ × Op)) (a r : ℕ) → IsShape b → IsLawful (new_machine b) steps
        → is_allowed (run (new_machine b) steps) a (Op.Free r) ≡ true
        → IsOut (run (new_machine b) steps) r × IsUnreachable (run (new_machine b) steps) r }
{}

/// A row was taken as often as it was freed, and once more while it is out. Between a GateTake of a row that
/// succeeds and a later one it is freed once more than it is taken there: exactly once, if the later one is
/// the next.
pub fn a_row_is_freed_once_a_life()
    ensures lives { (b : Bounds) (steps : List (ℕ × Op)) (r : ℕ) → IsShape b → r < b.rows
        → IsLawful (new_machine b) steps
        → times_taken (new_machine b) steps r ≡ times_freed steps r + bit (is_out (run (new_machine b) steps) r) }
    ensures between { (b : Bounds) (before between : List (ℕ × Op)) (a x r : ℕ) → IsShape b
        → IsLawful (new_machine b) before
        → let m = run (new_machine b) before in
        let taken = step m a (Op.GateTake r) in
        is_allowed m a (Op.GateTake r) ≡ true → answer m a (Op.GateTake r) ≡ 1
        → IsLawful taken between
        → is_allowed (run taken between) x (Op.GateTake r) ≡ true → answer (run taken between) x (Op.GateTake r) ≡ 1
        → times_freed between r ≡ times_taken taken between r + 1 }
{}

/// At most nine retired rows for each agent are in no work list.
pub fn the_backlog_is_bounded()
    ensures { (b : Bounds) (steps : List (ℕ × Op)) → IsShape b → IsLawful (new_machine b) steps
        → backlog (run (new_machine b) steps) ≤ 9 * b.agents }
{}

/// No work list has more entries than the table has rows, so the condition of `apply` holds of every step.
pub fn work_lists_have_room()
    ensures length { (b : Bounds) (steps : List (ℕ × Op)) (a : ℕ) → IsShape b → IsLawful (new_machine b) steps
        → a < b.agents → length (record_at (run (new_machine b) steps) a).list.items ≤ b.rows }
    ensures room { (b : Bounds) (steps : List (ℕ × Op)) (a : ℕ) (op : Op) → IsShape b → IsLawful (new_machine b) steps
        → LeavesRoom (run (new_machine b) steps) a op }
{}

/// A row that came out of a handover word is one of the table's, so its scan may begin. An agent with a due row has no
/// increment pending.
pub fn records_are_in_order()
    ensures hand { (b : Bounds) (steps : List (ℕ × Op)) (a r : ℕ) → IsShape b → IsLawful (new_machine b) steps
        → names (record_at (run (new_machine b) steps) a).hand r ≡ true → r < b.rows }
    ensures due { (b : Bounds) (steps : List (ℕ × Op)) (a : ℕ) → IsShape b → IsLawful (new_machine b) steps
        → let d = record_at (run (new_machine b) steps) a in (d.due ≡ None) ⊎ (d.inc ≡ None) }
{}

/// No sum and no difference that a step makes of a word wraps.
pub fn no_sum_wraps()
    ensures { (b : Bounds) (steps : List (ℕ × Op)) (a : ℕ) (op : Op) → IsShape b → IsLawful (new_machine b) steps
        → is_allowed (run (new_machine b) steps) a op ≡ true
        → let m = run (new_machine b) steps in
        NoWrap (action_of a op (record_at m a)).operation (word_read m a op) }
{}
