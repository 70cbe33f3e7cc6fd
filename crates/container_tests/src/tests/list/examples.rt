//! Worked examples of the definitions, computed by hand and proved, and what a caller of the set sees.

ghost use Rattle.std.specs.Prelude.{◌≡◌, List, ◌∷◌, [], IfErr, Some, true, false};
ghost use Rattle.orc_heap.specs.{Heap.{null, link_to}, Journals.{event_by}, declared.events.{Act.{Act}, Event.{Event}, Place.{Place}}};
ghost use Rattle.orc_history.specs.declared.set.SetEntry.{SetEntry};
ghost use Rattle.orc_chain_rule.specs.declared.chain.ChainNote.{ChainNote};
ghost use Rattle.container_tests.specs.ChainHeaps.{around_five};
ghost use Rattle.orc_list.specs.{Causes.{CostTurns, UsesTurns, entered_by_others}, ListCalls.{CostsOthers}, SetMembers.{IsUsable}};

use orc_chain_rule::{Chain, ChainNote};
use orc_fault::Again;
use orc_heap::{Act, Links, Place};
use orc_history::{SetEntry, SharedSet};
use orc_set::Set;

// While agent 1 looked, agent 2 added 5 and took it out, and agent 3 led past its node: these use up three turns of agent 1, and
// not four. An answer that changes nothing uses up none.
fn others_use_up_turns()
    ensures three { UsesTurns {S = Event ChainNote} (record { roots = 1; links = 1 }) (λ e. e.agent) (λ j. j) 1 3 around_five 0 5 }
    ensures not_four { ¬ CostTurns {S = Event ChainNote} (record { roots = 1; links = 1 }) (λ j. j) 1 4 around_five 0 5 }
    ensures entered { let es : List (Event ChainNote) =
        event_by 1 (Act.Look (Place.Root 0) null) (Some (ChainNote.Entry (SetEntry.Asked 1 5 false)))
        ∷ event_by 2 (Act.Move (Place.Root 0) null (link_to 0)) (Some (ChainNote.Entry (SetEntry.Added 2 5 true)))
        ∷ event_by 1 (Act.Look (Place.Next 0) null) (Some (ChainNote.Entry (SetEntry.Asked 1 5 true)))
        ∷ event_by 3 (Act.Look (Place.Next 0) null) (Some (ChainNote.Entry (SetEntry.Asked 3 5 true))) ∷ [] in
        (entered_by_others {S = Event ChainNote} (λ j. j) 1 es 0 4 ≡ SetEntry.Added 2 5 true ∷ SetEntry.Asked 3 5 true ∷ [])
        × (entered_by_others {S = Event ChainNote} (λ j. j) 1 es 2 4 ≡ SetEntry.Asked 3 5 true ∷ []) }
{}

// A caller that names the set's type sees what its lists promise, and not the trait's clauses alone.
fn remove_in_three_turns<L: Links<Rule = Chain>>(
    set: &Set<L>,
    p: &mut L::Pass,
) -> Result<bool, Again>
    requires { IsUsable L.Links set.now.list.links p.old }
    ensures { IfErr result (λ e. CostsOthers L.Links set.now.list.links 3 p.old p.new) }
{
    set.remove(p, 7, 3)
}
