//! The laws of a cell, and worked examples of its histories, computed by hand and proved.

ghost use Rattle.std.specs.Prelude.{◌≡◌, List, ◌∷◌, [], Some, None};
ghost use Rattle.orc_pairs_rule.specs.{CellHistory.{IsLegalCell, no_parts, parts_after}, declared.entry.CellEntry.{CellEntry as Entry}};

use orc_pairs_rule::*;

// Agent 1 publishes 5 on the left, both parts, and 9 on the right, and looks in between; agent 0 looks at the end.
fn a_cell_of_settings()
    ensures { let history : List Entry =
        Entry.Published 1 (Some 5) None 5 0
        ∷ Entry.Seen 1 5 0
        ∷ Entry.Published 1 (Some 1) (Some 2) 1 2
        ∷ Entry.Published 1 None (Some 9) 1 9
        ∷ Entry.Seen 1 1 9
        ∷ Entry.Seen 0 1 9 ∷ [] in
        IsLegalCell history × (parts_after no_parts history ≡ record { left = 1; right = 9 }) }
{}

// No read may show the left part of one version beside the right part of the next.
fn a_read_of_two_versions()
    ensures { ¬ IsLegalCell (Entry.Published 1 (Some 1) (Some 2) 1 2 ∷ Entry.Published 1 (Some 3) (Some 4) 3 4 ∷ Entry.Seen 0 1 4 ∷ []) }
{}

#[test]
fn the_laws_stand() {
    allowed_events_obey_the_discipline();
    legal_histories_show_one_version();
    cell_histories_are_legal();
    facts_of_a_cell_stay();
    a_move_of_the_pair_has_an_entry();
    a_seen_may_come();
    a_stage_may_come();
    a_published_may_come();
    a_cell_of_settings();
    a_read_of_two_versions();
}
