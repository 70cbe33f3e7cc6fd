//! Worked examples of the definitions, computed by hand and proved by the check.

ghost use Rattle.std.specs.Prelude.{◌≡◌, ℕ, Bool, ◌==◌, ◌&&◌, not, List, [], ◌∷◌, replicate, Option, Some, None, true, false, nat_lt, pos};
ghost use Rattle.orc_words.specs.{declared.place.Word.{Word}, Packed.{counter_of}, declared.operation.Operation.{Operation}};
ghost use Rattle.orc_core.specs.{
  declared.ops.{CounterUse.{CounterUse}, Op.{Op}},
  declared.records.{Agent.{Agent}, Doom.{Doom}, Scan.{Scan}, Reading.{Reading}, SlotUse.{SlotUse}},
  Machine.{Machine, new_machine, nobody, record_at, word_in},
  Runs.{run},
};
ghost use Rattle.orc_sound.specs.{
  Backlog.{backlog, is_listed},
  Balance.{decrements, increments},
  Decisions.{agent_fits, all_below, all_fit, count_fits, doom_fits, enrolment_fits, free_fits, fresh_fits, looks_fit, named_passes, out_in, range_fits, row_fits, row_held, scan_fits, slot_fits, target_fits, token_fits},
  Doomed.{cuts_past, dooms, dooms_cut},
  Journals.{plain},
  Lifetimes.{NoWrap, times_freed, times_taken},
  Linked.{changes, held, linked},
  NoLeak.{has_reason, keeps_out},
  SoundParts.{slot_word},
  QuietScan.{is_linked_anew},
  RetirementToken.{dooming, tokens},
};

// Row 0 is taken, held in slot 1 and linked from root 0, and that link isn't counted yet.
fn a_link_that_is_not_counted_yet()
    ensures linked { let m =
        run (new_machine (record { rows = 2; roots = 1; agents = 1; limit = 8; links = 1 }))
        ((0, Op.Enroll) ∷ (0, Op.GateLook 0) ∷ (0, Op.CounterLoad 0 CounterUse.Check) ∷ (0, Op.GateTake 0) ∷ (0, Op.Publish 1 0)
        ∷ (0, Op.CounterLoad 0 CounterUse.Check)
        ∷ (0, Op.LinkCas (Word.Root 0) (record { to = None; mark = false }) (record { to = Some 0; mark = false })) ∷ []) in
        (linked m 0 ≡ 1) × (increments m 0 ≡ 1) × (decrements m 0 ≡ 0) × ((counter_of (word_in m (Word.Counter 0))).count ≡ pos 0) }
    ensures held { let m =
        run (new_machine (record { rows = 2; roots = 1; agents = 1; limit = 8; links = 1 }))
        ((0, Op.Enroll) ∷ (0, Op.GateLook 0) ∷ (0, Op.CounterLoad 0 CounterUse.Check) ∷ (0, Op.GateTake 0) ∷ (0, Op.Publish 1 0)
        ∷ (0, Op.CounterLoad 0 CounterUse.Check)
        ∷ (0, Op.LinkCas (Word.Root 0) (record { to = None; mark = false }) (record { to = Some 0; mark = false })) ∷ []) in
        (held m 0 ≡ true) × (held m 1 ≡ false) × (is_linked_anew m 0 1 ≡ true) × (is_linked_anew m 0 2 ≡ false) × (has_reason m 0 ≡ true)
        × (has_reason m 1 ≡ false) }
{}

// Root 0 and both links of row 1 name row 0.
fn links_of_both_numbers()
    ensures linked { let m =
        run (new_machine (record { rows = 2; roots = 1; agents = 1; limit = 8; links = 2 }))
        ((0, Op.Enroll) ∷ (0, Op.GateLook 0) ∷ (0, Op.CounterLoad 0 CounterUse.Check) ∷ (0, Op.GateTake 0) ∷ (0, Op.Publish 1 0)
        ∷ (0, Op.CounterLoad 0 CounterUse.Check)
        ∷ (0, Op.LinkCas (Word.Root 0) (record { to = None; mark = false }) (record { to = Some 0; mark = false })) ∷ (0, Op.Inc 0)
        ∷ (0, Op.GateLook 1) ∷ (0, Op.CounterLoad 1 CounterUse.Check) ∷ (0, Op.GateTake 1) ∷ (0, Op.Publish 2 1)
        ∷ (0, Op.CounterLoad 0 CounterUse.Check) ∷ (0, Op.LinkStore 1 (record { to = Some 0; mark = false }) 0) ∷ (0, Op.Inc 0)
        ∷ (0, Op.CounterLoad 0 CounterUse.Check) ∷ (0, Op.LinkStore 1 (record { to = Some 0; mark = false }) 1) ∷ (0, Op.Inc 0) ∷ []) in
        (linked m 0 ≡ 3) × (linked m 1 ≡ 0) × ((counter_of (word_in m (Word.Counter 0))).count ≡ pos 3) }
{}

// Row 0 is taken and retired: first it waits in the work list, then it is scanned.
fn a_retired_row()
    ensures listed { let m =
        run (new_machine (record { rows = 2; roots = 1; agents = 1; limit = 8; links = 1 }))
        ((0, Op.Enroll) ∷ (0, Op.GateLook 0) ∷ (0, Op.CounterLoad 0 CounterUse.Check) ∷ (0, Op.GateTake 0) ∷ (0, Op.SetRetired 0 0) ∷ []) in
        (tokens m 0 ≡ 1) × (is_listed m 0 ≡ true) × (backlog m ≡ 0) × (tokens m 1 ≡ 0) }
    ensures scanned { let m =
        run (new_machine (record { rows = 2; roots = 1; agents = 1; limit = 8; links = 1 }))
        ((0, Op.Enroll) ∷ (0, Op.GateLook 0) ∷ (0, Op.CounterLoad 0 CounterUse.Check) ∷ (0, Op.GateTake 0) ∷ (0, Op.SetRetired 0 0)
        ∷ (0, Op.CounterLoad 0 CounterUse.Start) ∷ []) in
        (tokens m 0 ≡ 1) × (is_listed m 0 ≡ false) × (backlog m ≡ 1) }
    ensures taken { times_taken (new_machine (record { rows = 2; roots = 1; agents = 1; limit = 8; links = 1 }))
        ((0, Op.Enroll) ∷ (0, Op.GateLook 0) ∷ (0, Op.CounterLoad 0 CounterUse.Check) ∷ (0, Op.GateTake 0) ∷ []) 0 ≡ 1 }
    ensures freed { times_freed ((0, Op.Free 0) ∷ (1, Op.Free 1) ∷ (0, Op.Free 0) ∷ []) 0 ≡ 2 }
{}

// Parts of a record, and slot words.
fn parts_of_a_record()
    ensures doom { (dooms (Some (record { row = 3; cuts = 0; bare = false })) 3 ≡ true)
        × (dooms (Some (record { row = 3; cuts = 0; bare = false })) 4 ≡ false)
        × (dooms_cut 1 (Some (record { row = 3; cuts = 0; bare = false })) 3 ≡ false)
        × (dooms_cut 1 (Some (record { row = 3; cuts = 1; bare = false })) 3 ≡ true)
        × (dooms_cut 2 (Some (record { row = 3; cuts = 1; bare = false })) 3 ≡ false) }
    ensures cut { (cuts_past (Some (record { row = 3; cuts = 1; bare = false })) 3 0 ≡ true)
        × (cuts_past (Some (record { row = 3; cuts = 1; bare = false })) 3 1 ≡ false)
        × (cuts_past (Some (record { row = 3; cuts = 1; bare = false })) 4 0 ≡ false) }
    ensures bare { (dooming (Some (record { row = 3; cuts = 1; bare = false })) 3 ≡ true)
        × (dooming (Some (record { row = 3; cuts = 1; bare = true })) 3 ≡ false) }
    ensures nothing { (changes (nobody 2) 0 ≡ false) × (keeps_out (nobody 2) 0 0 ≡ false) }
    ensures slots { (slot_word SlotUse.Empty ≡ 0) × (slot_word (SlotUse.Published 4) ≡ 5) × (slot_word (SlotUse.Held 4) ≡ 5) }
    ensures sums { (NoWrap (Operation.Sub 1) 1) × ¬ (NoWrap (Operation.Sub 1) 0) }
{}

// The tests that a state is sound by, and the steps of a journal.
fn tests_and_journals()
    ensures numbers { (all_below 3 (λ n. nat_lt n 3) ≡ true) × (all_below 4 (λ n. nat_lt n 3) ≡ false) }
    ensures names { (named_passes None (λ n. false) ≡ true) × (named_passes (Some 2) (λ n. n == 3) ≡ false) × (row_held (SlotUse.Published 4) ≡ None)
        × (row_held (SlotUse.Held 4) ≡ Some 4) }
    ensures new { let m = new_machine (record { rows = 2; roots = 1; agents = 1; limit = 8; links = 1 }) in
        (target_fits m 0 ≡ true) × (target_fits m 2 ≡ false) × (out_in m 0 ≡ false) × (row_fits m 1 ≡ true) × (agent_fits m 0 ≡ true) × (all_fit m ≡ true) }
    ensures journal { plain {N = ℕ} (record { agent = 1; op = Op.Free 3; want = None; note = Some 7 } ∷ []) ≡ (1, Op.Free 3) ∷ [] }
{}

// States made by hand: three that are sound, and thirteen that break one part each. `state` takes the words of root
// 0, and of row 0 its gate, counter and link, then the word of slot 1, and the record of the one agent.
fn states_with_one_part_broken()
    ensures one_by_one { let state : ℕ → ℕ → ℕ → ℕ → ℕ → Agent → Machine = λ root gate counter next slot d. record {
      bounds = record { rows = 2; roots = 1; agents = 1; limit = 8; links = 1 };
      words = 1 ∷ root ∷ gate ∷ counter ∷ 0 ∷ 0 ∷ next ∷ 0 ∷ 4194304 ∷ 0 ∷ 0 ∷ 0 ∷ 0 ∷ slot ∷ replicate 14 0;
      agents = d ∷ [];
    } in
        let agent : Bool → List SlotUse → Option ℕ → Option Reading → Option Reading → Option Scan → Option Doom → Agent =
        λ enrolled slots fresh looked checked scan doom. record {
          enrolled = enrolled;
          slots = slots;
          fresh = fresh;
          looked = looked;
          checked = checked;
          inc = None;
          dec = None;
          due = None;
          hand = None;
          scan = scan;
          doom = doom;
          list = record { items = []; room = 2 };
        } in
        let empty : List SlotUse = replicate 8 SlotUse.Empty in
        let idle : Agent = agent true empty None None None None None in
        let scanning : List SlotUse → ℕ → ℕ → Agent =
        λ slots word place. agent true slots None None None (Some (record { row = 0; word = word; place = place; found = false })) None in
        let holding : List SlotUse = SlotUse.Empty ∷ SlotUse.Held 0 ∷ replicate 6 SlotUse.Empty in
        let breaks : (Machine → Bool) → Machine → Bool = λ part m. not (part m) && not (all_fit m) in
        (all_fit (state 2 1 20971521 0 0 idle) ≡ true)
        × (all_fit (state 0 0 4194304 0 0 idle) ≡ true)
        × (all_fit (state 0 1 29360128 0 1 (scanning holding 29360128 1)) ≡ true)
        × (breaks (λ m. count_fits m 0) (state 2 1 20971520 0 0 idle) ≡ true)
        × (breaks (λ m. token_fits m 0) (state 2 1 29360129 0 0 idle) ≡ true)
        × (breaks (λ m. scan_fits m (record_at m 0).scan) (state 0 1 29360128 0 1 (scanning holding 29360128 2)) ≡ true)
        × (breaks (λ m. doom_fits m 0 (record_at m 0).doom)
        (state 2 1 29360129 0 0 (agent true empty None None None None (Some (record { row = 0; cuts = 0; bare = false })))) ≡ true)
        × (breaks (λ m. free_fits m 0) (state 0 0 4194304 1 0 idle) ≡ true)
        × (breaks (λ m. has_reason m 0) (state 0 1 4194304 0 0 idle) ≡ true)
        × (breaks (λ m. enrolment_fits m 0) (state 2 1 20971521 0 0 (agent false empty None None None None None)) ≡ true)
        × (breaks (λ m. slot_fits m 0 1) (state 2 1 20971521 0 1 idle) ≡ true)
        × (breaks (λ m. target_fits m (word_in m (Word.Root 0))) (state 6 0 4194304 0 0 idle) ≡ true)
        × (breaks (λ m. fresh_fits m 0 0) (state 2 1 20971521 0 0 (agent true empty (Some 0) None None None None)) ≡ true)
        × (breaks (λ m. scan_fits m (record_at m 0).scan) (state 0 1 29360128 0 0 (scanning empty 20971520 0)) ≡ true)
        × (breaks (λ m. looks_fit m (record_at m 0))
        (state 0 0 4194304 0 0 (agent true empty None (Some (record { row = 0; number = 0 })) (Some (record { row = 0; number = 5 })) None None)) ≡ true)
        × (breaks (λ m. range_fits m 0) (state 2 1 9223380832951992321 0 0 idle) ≡ true) }
{}
