//! Worked examples of what a domain begins with.

ghost use Rattle.std.specs.Prelude.{◌≡◌, ℕ, [], ◌∷◌, ◌≤◌, None, Some, false};
ghost use Rattle.orc_heap.specs.Seeds.{HasRoots, opening_event, opening_events};

use orc_heap::{Act, Place, Seed};

// No event, or a dummy with the values 0 and 5, and a link to it from root 0 and from root 1.
fn openings()
    ensures empty { opening_events {N = Unit {0}} Seed.Empty ≡ [] }
    ensures dummy { opening_events {N = ℕ} (Seed.Dummy 5 4) ≡ opening_event Act.Give None
        ∷ opening_event (Act.Fill 0 0 0) None
        ∷ opening_event (Act.Fill 0 1 5) None
        ∷ opening_event (Act.Move (Place.Root 0) (record { to = None; mark = false }) (record { to = Some 0; mark = false })) (Some 4)
        ∷ opening_event (Act.Move (Place.Root 1) (record { to = None; mark = false }) (record { to = Some 0; mark = false })) (Some 4)
        ∷ [] }
    ensures by_agent_0 { opening_event {N = ℕ} Act.Give None ≡ record { agent = 0; act = Act.Give; note = None } }
    ensures one_root { ¬ HasRoots {N = ℕ} (record { roots = 1; links = 1 }) (Seed.Dummy 5 4) }
{}
