//! Laws of an agent that settles, of draining, of states at rest, and of what was given and freed.

ghost use Rattle.orc_core.specs.{
  Machine.{Machine, is_allowed, new_machine, record_at, step, word_in},
  RecordParts.{is_empty, slot_of},
  Runs.{IsLawful, run},
  Sums.{sum_below},
  declared.ops.Op.{Op},
};
ghost use Rattle.orc_rest.specs.{
  Drains.{Drained, DrainedInOrder, TookIn},
  Reached.{AreTheReached, IsReached, LiesInOneRow},
  Rest.{IsAtRest, EndsAtRest},
  Reuse.{given, reused, rows_out},
  Records.{IsBetweenRounds},
  Rounds.{Settled},
  Turns.{IsReachedState, MadeAfterOthers, Turn},
  Work.{IsSettlingStep, drop_of, work_left},
};
ghost use Rattle.orc_heap.specs.Journals.{run_heap};
ghost use Rattle.orc_projection.specs.{Mirror.{numbers_of}, Projection.{present_ids, project}};
ghost use Rattle.orc_sound.specs.{Journals.{plain}, Lifetimes.{times_taken}, Linked.{IsOut}, declared.steps.Step.{Step}};
ghost use Rattle.orc_words.specs.{Bounds.{Bounds, IsShape}, Packed.{gate_of}, declared.place.Word.{Word}};
ghost use Rattle.std.specs.Prelude.{◌≡◌, ◌≢◌, ◌+◌, ◌*◌, ◌<◌, ◌≤◌, ℕ, List, None, true, length};

use orc_heap::Ranked;

/// No step that settles raises the work that is left to its agent. An End, a Hand, an Unretire of a scanned row and a Free
/// lower it, so each round lowers it. With nothing pending it is within the bound on rounds.
pub fn settling_uses_up_the_work()
    ensures falls { (b : Bounds) (steps : List (ℕ × Op)) (a : ℕ) (op : Op) → IsShape b → IsLawful (new_machine b) steps
        → let m = run (new_machine b) steps in
        is_allowed m a op ≡ true → IsSettlingStep (word_in m) op (record_at m a)
        → work_left (step m a op) a + drop_of op (record_at m a) ≤ work_left m a }
    ensures bound { (b : Bounds) (steps : List (ℕ × Op)) (a : ℕ) → IsShape b → IsLawful (new_machine b) steps → a < b.agents
        → let m = run (new_machine b) steps in
        (record_at m a).dec ≡ None → (record_at m a).due ≡ None → work_left m a ≤ 4 * (b.rows + 8 * b.agents) }
{}

/// A step that settles leaves the agent's own handover words that are 0 so. Where no slot of another agent names a row, it leaves
/// those of others so, too.
pub fn settling_hands_nothing_over()
    ensures own { (b : Bounds) (steps : List (ℕ × Op)) (a : ℕ) (op : Op) (k : ℕ) → IsShape b → IsLawful (new_machine b) steps → k < 8
        → let m = run (new_machine b) steps in
        is_allowed m a op ≡ true → IsSettlingStep (word_in m) op (record_at m a)
        → word_in m (Word.Handover a k) ≡ 0 → word_in (step m a op) (Word.Handover a k) ≡ 0 }
    ensures others { (b : Bounds) (steps : List (ℕ × Op)) (a : ℕ) (op : Op) (x k : ℕ) → IsShape b → IsLawful (new_machine b) steps → k < 8
        → x ≢ a → let m = run (new_machine b) steps in
        x < m.bounds.agents → is_allowed m a op ≡ true → IsSettlingStep (word_in m) op (record_at m a)
        → ((y j : ℕ) → y ≢ a → is_empty (slot_of (record_at m y) j) ≡ true)
        → word_in m (Word.Handover x k) ≡ 0 → word_in (step m a op) (Word.Handover x k) ≡ 0 }
{}

/// A step that settles is a turn that lowers the work by its drop.
pub fn a_settling_step_is_a_turn()
    ensures { (m n : Machine) (a : ℕ) (op : Op) → IsReachedState m → is_allowed m a op ≡ true → IsSettlingStep (word_in m) op (record_at m a)
        → MadeAfterOthers a op m n → Turn a (drop_of op (record_at m a)) m n }
{}

/// Two turns make one, and their drops add up.
pub fn turns_follow_one_another()
    ensures { (a x y : ℕ) (m n k : Machine) → Turn a x m n → Turn a y n k → Turn a (x + y) m k }
{}

/// An agent that is idle may take in each of its handover words. Once it took in all eight, one after another, and settled, it has
/// drained.
pub fn a_drain_takes_in_and_settles()
    ensures allowed { (m : Machine) (a k : ℕ) → a < m.bounds.agents → IsBetweenRounds (record_at m a) → k < 8
        → is_allowed m a (Op.TakeIn k) ≡ true }
    ensures idle { (m n : Machine) (a k : ℕ) → IsReachedState m → a < m.bounds.agents → IsBetweenRounds (record_at m a)
        → MadeAfterOthers a (Op.TakeIn k) m n → IsBetweenRounds (record_at n a) }
    ensures end { (m : Machine) (a : ℕ) → IsReachedState m → TookIn a 8 m m }
    ensures takes { (m n o : Machine) (a k : ℕ) → IsReachedState m → a < m.bounds.agents → IsBetweenRounds (record_at m a) → k < 8
        → MadeAfterOthers a (Op.TakeIn k) m n → TookIn a (k + 1) n o → TookIn a k m o }
    ensures drains { (m f n o : Machine) (a : ℕ) → IsReachedState m → a < m.bounds.agents
        → MadeAfterOthers a (Op.TakeIn 0) m f → TookIn a 1 f n → Settled a n o → Drained a m o }
{}

/// Where each agent is idle, and each drains alone, one after another, the machine is at rest afterwards.
pub fn drains_lead_to_rest()
    ensures { (agents : ℕ) (ms : ℕ → Machine) → IsReachedState (ms 0) → (ms 0).bounds.agents ≡ agents
        → ((a : ℕ) → a < agents → IsBetweenRounds (record_at (ms 0) a)) → DrainedInOrder agents ms → IsAtRest (ms agents) }
{}

/// Nothing leaks at rest, where the links rise as the discipline ranks the nodes: the roots reach the present node of each row that
/// is out, each node that they reach lies in exactly one row that is out, and so the rows that are out are as many as the nodes that
/// are reached.
pub fn nothing_leaks_at_rest<D: Ranked>()
    ensures reached { (b : Bounds) (steps : List (Step D.Note)) (r : ℕ) → EndsAtRest (D.holds (numbers_of b)) (D.may (numbers_of b)) b steps
        → IsOut (run (new_machine b) (plain steps)) r
        → IsReached (numbers_of b) (run_heap (numbers_of b) (project b steps)) ((present_ids b steps).node r) }
    ensures one_row { (b : Bounds) (steps : List (Step D.Note)) (id : ℕ) → EndsAtRest (D.holds (numbers_of b)) (D.may (numbers_of b)) b steps
        → IsReached (numbers_of b) (run_heap (numbers_of b) (project b steps)) id
        → LiesInOneRow (run (new_machine b) (plain steps)) (present_ids b steps) id }
    ensures linked { (b : Bounds) (steps : List (Step D.Note)) → EndsAtRest (D.holds (numbers_of b)) (D.may (numbers_of b)) b steps
        → (ids : List ℕ) × AreTheReached (numbers_of b) (run_heap (numbers_of b) (project b steps)) ids
        × (length ids ≡ rows_out (run (new_machine b) (plain steps))) }
{}

/// What was given is what was freed and what is out. A row's life tells how often it was taken, so the lives of all rows
/// together tell what was given.
pub fn each_life_is_a_taking()
    ensures balance { (b : Bounds) (steps : List (ℕ × Op)) → IsShape b → IsLawful (new_machine b) steps
        → given (new_machine b) steps ≡ reused steps + rows_out (run (new_machine b) steps) }
    ensures life { (b : Bounds) (steps : List (ℕ × Op)) (r : ℕ) → IsShape b → IsLawful (new_machine b) steps → r < b.rows
        → (gate_of (word_in (run (new_machine b) steps) (Word.Gate r))).life ≡ times_taken (new_machine b) steps r }
    ensures given { (b : Bounds) (steps : List (ℕ × Op)) → IsShape b → IsLawful (new_machine b) steps
        → given (new_machine b) steps ≡ sum_below b.rows (λ r. (gate_of (word_in (run (new_machine b) steps) (Word.Gate r))).life) }
{}
