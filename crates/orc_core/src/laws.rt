//! Laws of the machine's definitions.

ghost use Rattle.std.specs.Prelude.{◌≡◌, ◌≢◌, ℕ, ◌↔◌, ◌⊎◌, ◌++◌, List, Some, None, true, false};
ghost use Rattle.orc_words.specs.{declared.place.Word.{Word}, Bounds.{Bounds, IsShape}, Places.{IsWithin}, Operations.{word_after}};
ghost use Rattle.orc_core.specs.{
  declared.ops.Op.{Op},
  declared.records.{Agent.{Agent}, Reading.{Reading}},
  Actions.{action_of},
  After.{after},
  Allowed.{completes, may},
  Machine.{IsWhole, Machine, answer, is_allowed, new_machine, record_at, step, word_in, word_read},
  Runs.{IsLawful, run},
};

/// What is pending comes first. An agent with a due row may try that row's bit alone; else one with a
/// pending increment may make it alone; else one with a pending decrement may arm and make it, or make it under a hold, alone. All
/// other kinds wait until nothing is pending.
pub fn pending_changes_come_first()
    ensures due { (b : Bounds) (e a : ℕ) (op : Op) (d : Agent) (s : Reading) → d.due ≡ Some s
        → may b e a op d ≡ true → op ≡ Op.SetRetired s.row s.number }
    ensures increment { (b : Bounds) (e a : ℕ) (op : Op) (d : Agent) (r : ℕ) → d.due ≡ None → d.inc ≡ Some r
        → may b e a op d ≡ true → op ≡ Op.Inc r }
    ensures decrement { (b : Bounds) (e a : ℕ) (op : Op) (d : Agent) (r : ℕ) → d.due ≡ None → d.inc ≡ None → d.dec ≡ Some r
        → may b e a op d ≡ true → (op ≡ Op.Arm r) ⊎ (op ≡ Op.Dec r) ⊎ (op ≡ Op.DecHeld r) }
    ensures others { (b : Bounds) (e a : ℕ) (op : Op) (d : Agent) → completes op ≡ false
        → may b e a op d ≡ true → (d.due ≡ None) × (d.inc ≡ None) × (d.dec ≡ None) }
{}

/// Whether an agent may make a step is a fact about its own record, except for Enroll.
pub fn permission_lies_in_the_record()
    ensures { (b : Bounds) (e f a : ℕ) (op : Op) (d : Agent) → op ≢ Op.Enroll → may b e a op d ≡ may b f a op d }
{}

/// A step that is allowed writes its one word and its agent's record, and leaves all others.
pub fn a_step_writes_one_word_and_one_record()
    ensures word { (m : Machine) (a : ℕ) (op : Op) → IsWhole m → is_allowed m a op ≡ true
        → let action = action_of a op (record_at m a) in
        word_in (step m a op) action.word ≡ word_after action.operation (word_read m a op) }
    ensures other_words { (m : Machine) (a : ℕ) (op : Op) (w : Word) → IsWhole m → is_allowed m a op ≡ true → IsWithin m.bounds w
        → w ≢ (action_of a op (record_at m a)).word → word_in (step m a op) w ≡ word_in m w }
    ensures its_record { (m : Machine) (a : ℕ) (op : Op) → IsWhole m → is_allowed m a op ≡ true
        → record_at (step m a op) a ≡ after op (record_at m a) (word_read m a op) }
    ensures other_records { (m : Machine) (a : ℕ) (op : Op) (x : ℕ) → x ≢ a → record_at (step m a op) x ≡ record_at m x }
{}

/// A run over two lists of steps is a run over the first and then one over the second.
pub fn runs_go_on()
    ensures states { (m : Machine) (first second : List (ℕ × Op)) → run m (first ++ second) ≡ run (run m first) second }
    ensures lawful { (m : Machine) (first second : List (ℕ × Op))
        → IsLawful m (first ++ second) ↔ (IsLawful m first × IsLawful (run m first) second) }
{}

/// From a new state on, every run keeps all words, all records and the room of each work list.
pub fn every_run_is_whole()
    ensures { (b : Bounds) (steps : List (ℕ × Op)) → IsShape b → IsWhole (run (new_machine b) steps) }
{}

/// Moving on is clearing the slot and publishing the row in it, with nothing in between.
pub fn moving_on_is_clearing_and_publishing()
    ensures allowed { (m : Machine) (a k r : ℕ) → IsWhole m → is_allowed m a (Op.MoveOn k r) ≡ true
        → (is_allowed m a (Op.Clear k) ≡ true) × (is_allowed (step m a (Op.Clear k)) a (Op.Publish k r) ≡ true) }
    ensures step { (m : Machine) (a k r : ℕ) → IsWhole m → is_allowed m a (Op.MoveOn k r) ≡ true
        → step m a (Op.MoveOn k r) ≡ step (step m a (Op.Clear k)) a (Op.Publish k r) }
{}

/// A look at a handover word changes nothing. Where it answers 0, so would a take-in, which would change nothing either.
pub fn a_look_at_nothing_is_a_take_in_of_nothing()
    ensures allowed { (m : Machine) (a k : ℕ) → is_allowed m a (Op.HandoverLook k) ≡ is_allowed m a (Op.TakeIn k) }
    ensures unchanged { (m : Machine) (a k : ℕ) → step m a (Op.HandoverLook k) ≡ m }
    ensures nothing { (m : Machine) (a k : ℕ) → answer m a (Op.HandoverLook k) ≡ 0
        → (step m a (Op.TakeIn k) ≡ m) × (answer m a (Op.TakeIn k) ≡ 0) }
{}

/// A decrement under a hold does what a decrement does, and may be made wherever that may.
pub fn a_decrement_under_a_hold_is_a_decrement()
    ensures allowed { (m : Machine) (a r : ℕ) → is_allowed m a (Op.Dec r) ≡ true → is_allowed m a (Op.DecHeld r) ≡ true }
    ensures step { (m : Machine) (a r : ℕ) → step m a (Op.DecHeld r) ≡ step m a (Op.Dec r) }
{}
