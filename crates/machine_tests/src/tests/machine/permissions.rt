//! Where each kind of step is allowed, at both sides of each condition. The answers are computed by hand from the rules in
//! docs/MACHINE.md. In the table of two rows, one root and two agents with limit 8 a scan ends at place 16. The counter words
//! are 4,194,304 for count 0 and 4,194,305 for count 1.

ghost use Rattle.std.specs.Prelude.{◌≡◌, ℕ, ◌∷◌, [], List, Option, Some, None, replicate, true, false};
ghost use Rattle.orc_words.specs.{Bounds.{Bounds}, declared.packed.RowLink.{RowLink}};
ghost use Rattle.orc_core.specs.{
  declared.records.{Agent.{Agent}, Doom.{Doom}, Scan.{Scan}, SlotUse.{SlotUse}},
  Allowed.{fits, may},
  Machine.{nobody},
};

use orc_core::{CounterUse, Op, SlotUse};
use orc_words::Word;

// The agents enroll in order, each once, and every row of the table may be looked at and checked.
fn enroll_look_and_check()
    ensures enroll { let b : Bounds = record { rows = 2; roots = 1; agents = 2; limit = 8; links = 1 } in
        (fits b 1 1 Op.Enroll (nobody 2) ≡ true) × (fits b 0 1 Op.Enroll (nobody 2) ≡ false)
        × (fits b 1 1 Op.Enroll (record (nobody 2) { enrolled = true }) ≡ false) }
    ensures third_agent { let b : Bounds = record { rows = 2; roots = 1; agents = 2; limit = 8; links = 1 } in
        may b 2 2 Op.Enroll (nobody 2) ≡ false }
    ensures look { let b : Bounds = record { rows = 2; roots = 1; agents = 2; limit = 8; links = 1 } in
        (fits b 1 0 (Op.GateLook 1) (nobody 2) ≡ true) × (fits b 1 0 (Op.GateLook 2) (nobody 2) ≡ false) }
    ensures check { let b : Bounds = record { rows = 2; roots = 1; agents = 2; limit = 8; links = 1 } in
        (fits b 1 0 (Op.CounterLoad 1 CounterUse.Check) (nobody 2) ≡ true)
        × (fits b 1 0 (Op.CounterLoad 2 CounterUse.Check) (nobody 2) ≡ false) }
{}

// A row is taken with a life and a sequence that were read of it, both below the limit, and with no fresh row.
fn take_a_row()
    ensures numbers { let b : Bounds = record { rows = 2; roots = 1; agents = 2; limit = 8; links = 1 } in
        let d : ℕ → ℕ → Agent = λ life sequence. record (nobody 2) {
          looked = Some (record { row = 1; number = life });
          checked = Some (record { row = 1; number = sequence });
        } in
        (fits b 1 0 (Op.GateTake 1) (d 7 7) ≡ true) × (fits b 1 0 (Op.GateTake 1) (d 8 7) ≡ false)
        × (fits b 1 0 (Op.GateTake 1) (d 7 8) ≡ false) }
    ensures rows { let b : Bounds = record { rows = 2; roots = 1; agents = 2; limit = 8; links = 1 } in
        let d : ℕ → ℕ → Agent = λ r q. record (nobody 2) {
          looked = Some (record { row = r; number = 0 });
          checked = Some (record { row = q; number = 0 });
        } in
        (fits b 1 0 (Op.GateTake 0) (d 0 0) ≡ true) × (fits b 1 0 (Op.GateTake 0) (d 1 0) ≡ false)
        × (fits b 1 0 (Op.GateTake 0) (d 0 1) ≡ false) × (fits b 1 0 (Op.GateTake 2) (d 2 2) ≡ false) }
    ensures fresh { let b : Bounds = record { rows = 2; roots = 1; agents = 2; limit = 8; links = 1 } in
        fits b 1 0 (Op.GateTake 1) (record (nobody 2) {
          fresh = Some 0;
          looked = Some (record { row = 1; number = 0 });
          checked = Some (record { row = 1; number = 0 });
        }) ≡ false }
{}

// The values of the fresh row are written; those of a held or fresh row are read.
fn fill_and_read()
    ensures fill { let b : Bounds = record { rows = 2; roots = 1; agents = 2; limit = 8; links = 1 } in
        let d : ℕ → Agent = λ r. record (nobody 2) { fresh = Some r } in
        (fits b 1 0 (Op.Fill 1 1 9) (d 1) ≡ true) × (fits b 1 0 (Op.Fill 1 2 9) (d 1) ≡ false)
        × (fits b 1 0 (Op.Fill 1 0 9) (d 0) ≡ false) × (fits b 1 0 (Op.Fill 2 0 9) (d 2) ≡ false) }
    ensures held_fill { let b : Bounds = record { rows = 2; roots = 1; agents = 2; limit = 8; links = 1 } in
        fits b 1 0 (Op.Fill 1 0 9) (record (nobody 2) { slots = SlotUse.Empty ∷ SlotUse.Held 1 ∷ [] }) ≡ false }
    ensures read { let b : Bounds = record { rows = 2; roots = 1; agents = 2; limit = 8; links = 1 } in
        let d : SlotUse → Agent = λ s. record (nobody 2) { slots = SlotUse.Empty ∷ s ∷ [] } in
        (fits b 1 0 (Op.Read 1 1) (d (SlotUse.Held 1)) ≡ true) × (fits b 1 0 (Op.Read 1 2) (d (SlotUse.Held 1)) ≡ false)
        × (fits b 1 0 (Op.Read 1 0) (d (SlotUse.Published 1)) ≡ false) × (fits b 1 0 (Op.Read 2 0) (d (SlotUse.Held 2)) ≡ false) }
    ensures read_fresh { let b : Bounds = record { rows = 2; roots = 1; agents = 2; limit = 8; links = 1 } in
        fits b 1 0 (Op.Read 1 0) (record (nobody 2) { fresh = Some 1 }) ≡ true }
{}

// The link of a root, or of a held or fresh row, is loaded; a slot that is named with it is Published.
fn load_a_link()
    ensures root { let b : Bounds = record { rows = 2; roots = 1; agents = 2; limit = 8; links = 1 } in
        (fits b 1 0 (Op.LinkLoad (Word.Root 0) None) (nobody 2) ≡ true)
        × (fits b 1 0 (Op.LinkLoad (Word.Root 1) None) (nobody 2) ≡ false) }
    ensures row { let b : Bounds = record { rows = 2; roots = 1; agents = 2; limit = 8; links = 1 } in
        let d : SlotUse → Agent = λ s. record (nobody 2) { slots = SlotUse.Empty ∷ s ∷ [] } in
        (fits b 1 0 (Op.LinkLoad (Word.Next 1) None) (d (SlotUse.Held 1)) ≡ true)
        × (fits b 1 0 (Op.LinkLoad (Word.Next 1) None) (d (SlotUse.Published 1)) ≡ false)
        × (fits b 1 0 (Op.LinkLoad (Word.Next 2) None) (d (SlotUse.Held 2)) ≡ false)
        × (fits b 1 0 (Op.LinkLoad (Word.First 1) None) (d (SlotUse.Held 1)) ≡ false) }
    ensures fresh_row { let b : Bounds = record { rows = 2; roots = 1; agents = 2; limit = 8; links = 1 } in
        fits b 1 0 (Op.LinkLoad (Word.Next 1) None) (record (nobody 2) { fresh = Some 1 }) ≡ true }
    ensures slot { let b : Bounds = record { rows = 2; roots = 1; agents = 2; limit = 8; links = 1 } in
        let d : SlotUse → Agent = λ s. record (nobody 2) { slots = SlotUse.Empty ∷ s ∷ [] } in
        (fits b 1 0 (Op.LinkLoad (Word.Root 0) (Some 1)) (d (SlotUse.Published 1)) ≡ true)
        × (fits b 1 0 (Op.LinkLoad (Word.Root 0) (Some 1)) (d (SlotUse.Held 1)) ≡ false)
        × (fits b 1 0 (Op.LinkLoad (Word.Root 0) (Some 2)) (d (SlotUse.Published 1)) ≡ false)
        × (fits b 1 0 (Op.LinkLoad (Word.Root 1) (Some 1)) (d (SlotUse.Published 1)) ≡ false) }
{}

// An empty slot from 1 to 7 may name any row. A slot is emptied unless it holds the fresh row: one that was Published
// before the row was taken may be emptied.
fn publish_and_clear()
    ensures publish { let b : Bounds = record { rows = 2; roots = 1; agents = 2; limit = 8; links = 1 } in
        (fits b 1 0 (Op.Publish 7 1) (nobody 2) ≡ true) × (fits b 1 0 (Op.Publish 0 1) (nobody 2) ≡ false)
        × (fits b 1 0 (Op.Publish 8 1) (nobody 2) ≡ false) × (fits b 1 0 (Op.Publish 7 2) (nobody 2) ≡ false) }
    ensures publish_again { let b : Bounds = record { rows = 2; roots = 1; agents = 2; limit = 8; links = 1 } in
        fits b 1 0 (Op.Publish 1 1) (record (nobody 2) { slots = SlotUse.Empty ∷ SlotUse.Published 1 ∷ [] }) ≡ false }
    ensures clear { let b : Bounds = record { rows = 2; roots = 1; agents = 2; limit = 8; links = 1 } in
        let d : SlotUse → Agent = λ s. record (nobody 2) { slots = SlotUse.Empty ∷ s ∷ [] } in
        (fits b 1 0 (Op.Clear 1) (d (SlotUse.Held 0)) ≡ true) × (fits b 1 0 (Op.Clear 1) (d (SlotUse.Published 0)) ≡ true)
        × (fits b 1 0 (Op.Clear 1) (d SlotUse.Empty) ≡ false) × (fits b 1 0 (Op.Clear 8) (d (SlotUse.Held 0)) ≡ false) }
    ensures clear_fresh { let b : Bounds = record { rows = 2; roots = 1; agents = 2; limit = 8; links = 1 } in
        let d : SlotUse → Agent = λ s. record (nobody 2) { fresh = Some 0; slots = SlotUse.Empty ∷ s ∷ [] } in
        (fits b 1 0 (Op.Clear 1) (d (SlotUse.Held 0)) ≡ false) × (fits b 1 0 (Op.Clear 1) (d (SlotUse.Published 0)) ≡ true)
        × (fits b 1 0 (Op.Clear 1) (d (SlotUse.Held 1)) ≡ true) }
{}

// A row that a link newly shows was checked, with a sequence below limit + 64 = 72, and is held, as the old target is.
fn swing_a_link()
    ensures sequences { let b : Bounds = record { rows = 2; roots = 1; agents = 2; limit = 8; links = 1 } in
        let d : ℕ → Agent = λ n. record (nobody 2) { slots = SlotUse.Empty ∷ SlotUse.Held 1 ∷ []; checked = Some (record { row = 1; number = n }) } in
        let op : Op = Op.LinkCas (Word.Root 0) (record { to = None; mark = false }) (record { to = Some 1; mark = false }) in
        (fits b 1 0 op (d 7) ≡ true) × (fits b 1 0 op (d 8) ≡ true) × (fits b 1 0 op (d 71) ≡ true) × (fits b 1 0 op (d 72) ≡ false) }
    ensures checked { let b : Bounds = record { rows = 2; roots = 1; agents = 2; limit = 8; links = 1 } in
        let d : ℕ → Agent = λ r. record (nobody 2) {
          slots = SlotUse.Empty ∷ SlotUse.Held 0 ∷ SlotUse.Held 1 ∷ [];
          checked = Some (record { row = r; number = 0 });
        } in
        let op : Op = Op.LinkCas (Word.Root 0) (record { to = Some 0; mark = false }) (record { to = Some 1; mark = false }) in
        (fits b 1 0 op (d 1) ≡ true) × (fits b 1 0 op (d 0) ≡ false) }
    ensures same_target { let b : Bounds = record { rows = 2; roots = 1; agents = 2; limit = 8; links = 1 } in
        fits b 1 0 (Op.LinkCas (Word.Root 0) (record { to = Some 1; mark = false }) (record { to = Some 1; mark = true }))
        (record (nobody 2) { slots = SlotUse.Empty ∷ SlotUse.Held 1 ∷ [] }) ≡ true }
    ensures targets { let b : Bounds = record { rows = 2; roots = 1; agents = 2; limit = 8; links = 1 } in
        let d : List SlotUse → Agent = λ slots. record (nobody 2) { slots = slots; checked = Some (record { row = 1; number = 0 }) } in
        let op : Op = Op.LinkCas (Word.Root 0) (record { to = Some 0; mark = false }) (record { to = Some 1; mark = false }) in
        (fits b 1 0 op (d (SlotUse.Empty ∷ SlotUse.Held 0 ∷ [])) ≡ false) × (fits b 1 0 op (d (SlotUse.Empty ∷ SlotUse.Held 1 ∷ [])) ≡ false)
        × (fits b 1 0 op (d (SlotUse.Held 0 ∷ SlotUse.Held 0 ∷ SlotUse.Held 1 ∷ [])) ≡ false) }
    ensures no_third_row { let b : Bounds = record { rows = 2; roots = 1; agents = 2; limit = 8; links = 1 } in
        fits b 1 0 (Op.LinkCas (Word.Root 0) (record { to = None; mark = false }) (record { to = Some 2; mark = false }))
        (record (nobody 2) { slots = SlotUse.Empty ∷ SlotUse.Held 2 ∷ []; checked = Some (record { row = 2; number = 0 }) }) ≡ false }
{}

// The link of a held row that isn't fresh may be changed.
fn swing_at_a_place()
    ensures places { let b : Bounds = record { rows = 2; roots = 1; agents = 2; limit = 8; links = 1 } in
        let d : Option ℕ → Agent = λ fresh. record (nobody 2) { fresh = fresh; slots = SlotUse.Empty ∷ SlotUse.Held 1 ∷ SlotUse.Published 0 ∷ [] } in
        let op : Word → Op = λ w. Op.LinkCas w (record { to = None; mark = false }) (record { to = None; mark = true }) in
        (fits b 1 0 (op (Word.Root 0)) (d None) ≡ true) × (fits b 1 0 (op (Word.Root 1)) (d None) ≡ false)
        × (fits b 1 0 (op (Word.Next 1)) (d None) ≡ true) × (fits b 1 0 (op (Word.Next 0)) (d None) ≡ false)
        × (fits b 1 0 (op (Word.Next 1)) (d (Some 1)) ≡ false) × (fits b 1 0 (op (Word.Second 1)) (d None) ≡ false) }
{}

// The fresh row's link is set to null, or to a held row that was checked below limit + 64 = 72; a doomed row's to the word 0.
fn store_a_link()
    ensures sequences { let b : Bounds = record { rows = 2; roots = 1; agents = 2; limit = 8; links = 1 } in
        let d : ℕ → Agent = λ n. record (nobody 2) {
          fresh = Some 0;
          slots = SlotUse.Empty ∷ SlotUse.Held 1 ∷ [];
          checked = Some (record { row = 1; number = n });
        } in
        let op : Op = Op.LinkStore 0 (record { to = Some 1; mark = false }) 0 in
        (fits b 1 0 op (d 71) ≡ true) × (fits b 1 0 op (d 72) ≡ false)
        × (fits b 1 0 (Op.LinkStore 1 (record { to = Some 1; mark = false }) 0) (d 71) ≡ false) }
    ensures held { let b : Bounds = record { rows = 2; roots = 1; agents = 2; limit = 8; links = 1 } in
        let d : List SlotUse → Agent = λ slots. record (nobody 2) { fresh = Some 0; slots = slots; checked = Some (record { row = 1; number = 0 }) } in
        let op : Op = Op.LinkStore 0 (record { to = Some 1; mark = false }) 0 in
        (fits b 1 0 op (d (SlotUse.Empty ∷ SlotUse.Held 1 ∷ [])) ≡ true) × (fits b 1 0 op (d (SlotUse.Empty ∷ SlotUse.Published 1 ∷ [])) ≡ false)
        × (fits b 1 0 op (d (SlotUse.Held 1 ∷ SlotUse.Held 1 ∷ [])) ≡ false) }
    ensures null { let b : Bounds = record { rows = 2; roots = 1; agents = 2; limit = 8; links = 1 } in
        (fits b 1 0 (Op.LinkStore 0 (record { to = None; mark = false }) 0) (record (nobody 2) { fresh = Some 0 }) ≡ true)
        × (fits b 1 0 (Op.LinkStore 2 (record { to = None; mark = false }) 0) (record (nobody 2) { fresh = Some 2 }) ≡ false) }
    ensures doomed { let b : Bounds = record { rows = 2; roots = 1; agents = 2; limit = 8; links = 1 } in
        let d : Doom → Agent = λ doom. record (nobody 2) { doom = Some doom } in
        let op : RowLink → Op = λ l. Op.LinkStore 0 l 0 in
        (fits b 1 0 (op (record { to = None; mark = false })) (d (record { row = 0; cuts = 0; bare = false })) ≡ true)
        × (fits b 1 0 (op (record { to = None; mark = true })) (d (record { row = 0; cuts = 0; bare = false })) ≡ false)
        × (fits b 1 0 (op (record { to = Some 1; mark = false })) (d (record { row = 0; cuts = 0; bare = false })) ≡ false)
        × (fits b 1 0 (op (record { to = None; mark = false })) (d (record { row = 0; cuts = 1; bare = false })) ≡ false)
        × (fits b 1 0 (op (record { to = None; mark = false })) (d (record { row = 1; cuts = 0; bare = false })) ≡ false) }
{}

// Slot 0 protects a row that is to be decremented, or a scanned row whose count isn't 0.
fn arm_and_count()
    ensures arm { let b : Bounds = record { rows = 2; roots = 1; agents = 2; limit = 8; links = 1 } in
        let d : SlotUse → Agent = λ s. record (nobody 2) { dec = Some 1; slots = s ∷ [] } in
        (fits b 1 0 (Op.Arm 1) (d SlotUse.Empty) ≡ true) × (fits b 1 0 (Op.Arm 0) (d SlotUse.Empty) ≡ false)
        × (fits b 1 0 (Op.Arm 1) (d (SlotUse.Held 1)) ≡ false) × (fits b 1 0 (Op.Arm 2) (record (nobody 2) { dec = Some 2 }) ≡ false) }
    ensures arm_scanned { let b : Bounds = record { rows = 2; roots = 1; agents = 2; limit = 8; links = 1 } in
        let d : ℕ → Agent = λ w. record (nobody 2) { scan = Some (record { row = 1; word = w; place = 0; found = false }) } in
        (fits b 1 0 (Op.Arm 1) (d 4194305) ≡ true) × (fits b 1 0 (Op.Arm 1) (d 4194304) ≡ false)
        × (fits b 1 0 (Op.Arm 0) (d 4194305) ≡ false) }
    ensures increment { let b : Bounds = record { rows = 2; roots = 1; agents = 2; limit = 8; links = 1 } in
        let d : ℕ → Agent = λ r. record (nobody 2) { inc = Some r } in
        (fits b 1 0 (Op.Inc 1) (d 1) ≡ true) × (fits b 1 0 (Op.Inc 0) (d 1) ≡ false) × (fits b 1 0 (Op.Inc 2) (d 2) ≡ false) }
    ensures decrement { let b : Bounds = record { rows = 2; roots = 1; agents = 2; limit = 8; links = 1 } in
        let d : SlotUse → Agent = λ s. record (nobody 2) { dec = Some 1; slots = s ∷ SlotUse.Held 1 ∷ [] } in
        (fits b 1 0 (Op.Dec 1) (d (SlotUse.Held 1)) ≡ true) × (fits b 1 0 (Op.Dec 1) (d (SlotUse.Held 0)) ≡ false)
        × (fits b 1 0 (Op.Dec 1) (d SlotUse.Empty) ≡ false)
        × (fits b 1 0 (Op.Dec 0) (record (nobody 2) { dec = Some 1; slots = SlotUse.Held 0 ∷ [] }) ≡ false) }
{}

// A due row's bit is tried at its sequence, and a fresh row's at any below 2^40.
fn try_the_bit()
    ensures due { let b : Bounds = record { rows = 2; roots = 1; agents = 2; limit = 8; links = 1 } in
        let d : ℕ → Agent = λ n. record (nobody 2) { due = Some (record { row = 1; number = n }) } in
        (fits b 1 0 (Op.SetRetired 1 5) (d 5) ≡ true) × (fits b 1 0 (Op.SetRetired 1 4) (d 5) ≡ false)
        × (fits b 1 0 (Op.SetRetired 0 5) (d 5) ≡ false) × (fits b 1 0 (Op.SetRetired 1 1099511627776) (d 1099511627776) ≡ false) }
    ensures fresh { let b : Bounds = record { rows = 2; roots = 1; agents = 2; limit = 8; links = 1 } in
        let d : ℕ → Agent = λ r. record (nobody 2) { fresh = Some r } in
        (fits b 1 0 (Op.SetRetired 1 1099511627775) (d 1) ≡ true) × (fits b 1 0 (Op.SetRetired 1 1099511627776) (d 1) ≡ false)
        × (fits b 1 0 (Op.SetRetired 1 0) (d 0) ≡ false) × (fits b 1 0 (Op.SetRetired 2 0) (d 2) ≡ false) }
{}

// The row in hand is scanned before those of the list, which are scanned in their order; one row at a time.
fn start_a_scan()
    ensures list { let b : Bounds = record { rows = 2; roots = 1; agents = 2; limit = 8; links = 1 } in
        let d : Option ℕ → Agent = λ hand. record (nobody 2) { hand = hand; list = record { items = 1 ∷ 0 ∷ []; room = 2 } } in
        (fits b 1 0 (Op.CounterLoad 1 CounterUse.Start) (d None) ≡ true) × (fits b 1 0 (Op.CounterLoad 0 CounterUse.Start) (d None) ≡ false)
        × (fits b 1 0 (Op.CounterLoad 0 CounterUse.Start) (d (Some 0)) ≡ true) × (fits b 1 0 (Op.CounterLoad 1 CounterUse.Start) (d (Some 0)) ≡ false)
        × (fits b 1 0 (Op.CounterLoad 2 CounterUse.Start) (d (Some 2)) ≡ false) }
    ensures one_at_a_time { let b : Bounds = record { rows = 2; roots = 1; agents = 2; limit = 8; links = 1 } in
        let d : Option Scan → Option Doom → Agent = λ scan doom. record (nobody 2) { scan = scan; doom = doom; hand = Some 0 } in
        (fits b 1 0 (Op.CounterLoad 0 CounterUse.Start) (d (Some (record { row = 1; word = 4194304; place = 0; found = false })) None) ≡ false)
        × (fits b 1 0 (Op.CounterLoad 0 CounterUse.Start) (d None (Some (record { row = 1; cuts = 0; bare = false }))) ≡ false) }
{}

// A scan of a row with count 0 looks at each place in turn, up to one that names its row, and ends after the last.
fn go_on_with_a_scan()
    ensures look { let b : Bounds = record { rows = 2; roots = 1; agents = 2; limit = 8; links = 1 } in
        let d : ℕ → ℕ → Agent = λ w k. record (nobody 2) { scan = Some (record { row = 1; word = w; place = k; found = false }) } in
        (fits b 1 0 (Op.SlotLook 15) (d 4194304 15) ≡ true) × (fits b 1 0 (Op.SlotLook 14) (d 4194304 15) ≡ false)
        × (fits b 1 0 (Op.SlotLook 16) (d 4194304 16) ≡ false) × (fits b 1 0 (Op.SlotLook 15) (d 4194305 15) ≡ false)
        × (fits b 1 0 (Op.Hand 15) (d 4194304 15) ≡ false) }
    ensures found { let b : Bounds = record { rows = 2; roots = 1; agents = 2; limit = 8; links = 1 } in
        let d : ℕ → Agent = λ k. record (nobody 2) { scan = Some (record { row = 1; word = 4194304; place = k; found = true }) } in
        (fits b 1 0 (Op.SlotLook 10) (d 10) ≡ false) × (fits b 1 0 (Op.Hand 10) (d 10) ≡ true)
        × (fits b 1 0 (Op.Hand 11) (d 10) ≡ false) × (fits b 1 0 (Op.Hand 16) (d 16) ≡ false) }
    ensures end { let b : Bounds = record { rows = 2; roots = 1; agents = 2; limit = 8; links = 1 } in
        let d : ℕ → ℕ → Agent = λ w k. record (nobody 2) { scan = Some (record { row = 1; word = w; place = k; found = false }) } in
        (fits b 1 0 (Op.CounterLoad 1 CounterUse.End) (d 4194304 16) ≡ true) × (fits b 1 0 (Op.CounterLoad 1 CounterUse.End) (d 4194304 15) ≡ false)
        × (fits b 1 0 (Op.CounterLoad 1 CounterUse.End) (d 4194305 16) ≡ false) × (fits b 1 0 (Op.CounterLoad 0 CounterUse.End) (d 4194304 16) ≡ false) }
{}

// The bit is cleared of a scanned row with another count than 0, under a hold, or of a doomed row whose links are out;
// a row whose bit is clear is freed.
fn clear_the_bit_and_free()
    ensures scanned { let b : Bounds = record { rows = 2; roots = 1; agents = 2; limit = 8; links = 1 } in
        let d : ℕ → SlotUse → Agent = λ w s. record (nobody 2) { scan = Some (record { row = 1; word = w; place = 0; found = false }); slots = s ∷ [] } in
        (fits b 1 0 (Op.Unretire 1) (d 4194305 (SlotUse.Held 1)) ≡ true) × (fits b 1 0 (Op.Unretire 1) (d 4194305 SlotUse.Empty) ≡ false)
        × (fits b 1 0 (Op.Unretire 1) (d 4194304 (SlotUse.Held 1)) ≡ false) × (fits b 1 0 (Op.Unretire 0) (d 4194305 (SlotUse.Held 0)) ≡ false) }
    ensures doomed { let b : Bounds = record { rows = 2; roots = 1; agents = 2; limit = 8; links = 1 } in
        let d : Doom → Agent = λ doom. record (nobody 2) { doom = Some doom } in
        (fits b 1 0 (Op.Unretire 1) (d (record { row = 1; cuts = 1; bare = false })) ≡ true)
        × (fits b 1 0 (Op.Unretire 1) (d (record { row = 1; cuts = 0; bare = false })) ≡ false)
        × (fits b 1 0 (Op.Unretire 1) (d (record { row = 1; cuts = 1; bare = true })) ≡ false)
        × (fits b 1 0 (Op.Unretire 0) (d (record { row = 1; cuts = 1; bare = false })) ≡ false) }
    ensures free { let b : Bounds = record { rows = 2; roots = 1; agents = 2; limit = 8; links = 1 } in
        let d : Doom → Agent = λ doom. record (nobody 2) { doom = Some doom } in
        (fits b 1 0 (Op.Free 1) (d (record { row = 1; cuts = 1; bare = true })) ≡ true)
        × (fits b 1 0 (Op.Free 1) (d (record { row = 1; cuts = 1; bare = false })) ≡ false)
        × (fits b 1 0 (Op.Free 0) (d (record { row = 1; cuts = 1; bare = true })) ≡ false) }
    ensures take_in { let b : Bounds = record { rows = 2; roots = 1; agents = 2; limit = 8; links = 1 } in
        (fits b 1 0 (Op.TakeIn 7) (nobody 2) ≡ true) × (fits b 1 0 (Op.TakeIn 8) (nobody 2) ≡ false)
        × (fits b 1 0 (Op.TakeIn 1) (record (nobody 2) { slots = SlotUse.Empty ∷ SlotUse.Published 0 ∷ [] }) ≡ false) }
{}

// A slot from 1 to 7 that is used moves on to any row, unless it holds the fresh row. A handover word is looked at beside an
// empty slot. A decrement under a hold needs the row in any slot that holds it, slot 0 or another.
fn move_on_look_and_decrement()
    ensures move_on { let b : Bounds = record { rows = 2; roots = 1; agents = 2; limit = 8; links = 1 } in
        let d : SlotUse → Agent = λ s. record (nobody 2) { slots = s ∷ s ∷ [] } in
        (fits b 1 0 (Op.MoveOn 1 1) (d (SlotUse.Held 0)) ≡ true) × (fits b 1 0 (Op.MoveOn 1 1) (d (SlotUse.Published 0)) ≡ true)
        × (fits b 1 0 (Op.MoveOn 1 1) (d SlotUse.Empty) ≡ false) × (fits b 1 0 (Op.MoveOn 0 1) (d (SlotUse.Held 0)) ≡ false)
        × (fits b 1 0 (Op.MoveOn 1 2) (d (SlotUse.Held 0)) ≡ false) }
    ensures ninth_slot { let b : Bounds = record { rows = 2; roots = 1; agents = 2; limit = 8; links = 1 } in
        let d : Agent = record (nobody 2) { slots = replicate 9 (SlotUse.Held 0) } in
        (fits b 1 0 (Op.MoveOn 7 1) d ≡ true) × (fits b 1 0 (Op.MoveOn 8 1) d ≡ false) }
    ensures from_fresh { let b : Bounds = record { rows = 2; roots = 1; agents = 2; limit = 8; links = 1 } in
        let d : SlotUse → Agent = λ s. record (nobody 2) { fresh = Some 0; slots = SlotUse.Empty ∷ s ∷ [] } in
        (fits b 1 0 (Op.MoveOn 1 1) (d (SlotUse.Held 0)) ≡ false) × (fits b 1 0 (Op.MoveOn 1 1) (d (SlotUse.Published 0)) ≡ true)
        × (fits b 1 0 (Op.MoveOn 1 0) (d (SlotUse.Held 1)) ≡ true) }
    ensures look { let b : Bounds = record { rows = 2; roots = 1; agents = 2; limit = 8; links = 1 } in
        (fits b 1 0 (Op.HandoverLook 7) (nobody 2) ≡ true) × (fits b 1 0 (Op.HandoverLook 8) (nobody 2) ≡ false)
        × (fits b 1 0 (Op.HandoverLook 1) (record (nobody 2) { slots = SlotUse.Empty ∷ SlotUse.Published 0 ∷ [] }) ≡ false) }
    ensures decrement { let b : Bounds = record { rows = 2; roots = 1; agents = 2; limit = 8; links = 1 } in
        let d : SlotUse → SlotUse → Agent = λ s t. record (nobody 2) { dec = Some 1; slots = s ∷ t ∷ [] } in
        (fits b 1 0 (Op.DecHeld 1) (d SlotUse.Empty (SlotUse.Held 1)) ≡ true) × (fits b 1 0 (Op.DecHeld 1) (d (SlotUse.Held 1) SlotUse.Empty) ≡ true)
        × (fits b 1 0 (Op.DecHeld 1) (d (SlotUse.Held 0) (SlotUse.Published 1)) ≡ false)
        × (fits b 1 0 (Op.DecHeld 0) (d SlotUse.Empty (SlotUse.Held 0)) ≡ false)
        × (fits b 1 0 (Op.DecHeld 2) (record (nobody 2) { dec = Some 2; slots = SlotUse.Held 2 ∷ [] }) ≡ false) }
{}

// A second link is a place where rows have two. A doomed row's links are taken out in their order, and its bit is cleared
// after the last.
fn second_links()
    ensures load { let b : ℕ → Bounds = λ links. record { rows = 2; roots = 1; agents = 2; limit = 8; links = links } in
        let d : SlotUse → Agent = λ s. record (nobody 2) { slots = SlotUse.Empty ∷ s ∷ [] } in
        let op : ℕ → Op = λ r. Op.LinkLoad (Word.Side r) None in
        (fits (b 2) 1 0 (op 1) (d (SlotUse.Held 1)) ≡ true) × (fits (b 1) 1 0 (op 1) (d (SlotUse.Held 1)) ≡ false)
        × (fits (b 2) 1 0 (op 1) (d (SlotUse.Published 1)) ≡ false) × (fits (b 2) 1 0 (op 2) (d (SlotUse.Held 2)) ≡ false) }
    ensures swing { let b : ℕ → Bounds = λ links. record { rows = 2; roots = 1; agents = 2; limit = 8; links = links } in
        let d : Option ℕ → Agent = λ fresh. record (nobody 2) { fresh = fresh; slots = SlotUse.Empty ∷ SlotUse.Held 1 ∷ [] } in
        let op : Op = Op.LinkCas (Word.Side 1) (record { to = None; mark = false }) (record { to = None; mark = true }) in
        (fits (b 2) 1 0 op (d None) ≡ true) × (fits (b 1) 1 0 op (d None) ≡ false) × (fits (b 2) 1 0 op (d (Some 1)) ≡ false) }
    ensures store { let b : ℕ → Bounds = λ links. record { rows = 2; roots = 1; agents = 2; limit = 8; links = links } in
        let d : Agent = record (nobody 2) { fresh = Some 0 } in
        let op : ℕ → Op = λ n. Op.LinkStore 0 (record { to = None; mark = false }) n in
        (fits (b 2) 1 0 (op 1) d ≡ true) × (fits (b 1) 1 0 (op 1) d ≡ false) × (fits (b 2) 1 0 (op 2) d ≡ false) }
    ensures doomed { let b : Bounds = record { rows = 2; roots = 1; agents = 2; limit = 8; links = 2 } in
        let d : ℕ → Agent = λ cuts. record (nobody 2) { doom = Some (record { row = 0; cuts = cuts; bare = false }) } in
        let op : ℕ → Op = λ n. Op.LinkStore 0 (record { to = None; mark = false }) n in
        (fits b 1 0 (op 0) (d 0) ≡ true) × (fits b 1 0 (op 1) (d 0) ≡ false) × (fits b 1 0 (op 1) (d 1) ≡ true)
        × (fits b 1 0 (op 0) (d 1) ≡ false) × (fits b 1 0 (Op.Unretire 0) (d 1) ≡ false) × (fits b 1 0 (Op.Unretire 0) (d 2) ≡ true) }
{}
