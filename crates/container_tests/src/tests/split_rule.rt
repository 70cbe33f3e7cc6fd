//! The laws of the split order, and a worked example of its definitions, computed by hand and proved.

ghost use Rattle.std.specs.Prelude.{◌≡◌, ◌*◌, ◌^◌, List, ◌∷◌, [], Some, None, true, map};
ghost use Rattle.orc_heap.specs.{
  Allowed.{AllAllowed},
  Heap.{HeapNumbers, null, link_to},
  Journals.{run_heap, event_by},
  declared.events.{Act.{Act}, Event.{Event}, Place.{Place}},
};
ghost use Rattle.orc_history.specs.declared.set.SetEntry.{SetEntry};
ghost use Rattle.orc_ordered_chains.specs.Chains.{IsPath};
ghost use Rattle.orc_split_rule.specs.{
  declared.split.SplitNote.{SplitNote},
  SplitOrder.{IsAncestor, IsParent, reversed},
  SplitDiscipline.{SplitMay, set_after, size_of},
};

use orc_split_rule::*;

// The even keys up to 16 in split order, and then the odd ones, which bucket 1 has where there are two buckets. The parent
// of bucket 6 is bucket 2, and that one's is bucket 0.
fn numbers_by_their_lowest_bits()
    ensures order { map reversed (0 ∷ 16 ∷ 8 ∷ 4 ∷ 12 ∷ 2 ∷ 10 ∷ 6 ∷ 14 ∷ 1 ∷ [])
        ≡ map (λ k. k * 2 ^ 59) (0 ∷ 1 ∷ 2 ∷ 4 ∷ 6 ∷ 8 ∷ 10 ∷ 12 ∷ 14 ∷ 16 ∷ []) }
    ensures parents { IsParent 2 6 × IsAncestor 2 0 6 × (¬ IsParent 4 6) }
{}

// Agent 0 adds the key 2, and agent 1 the key 1 behind it. Agent 0 doubles the number of buckets, and agent 1 links the
// dummy of bucket 1 before the key 1 and leads the bucket's root to it.
fn a_set_that_grows()
    ensures { let n : HeapNumbers = record { roots = 3; links = 1 } in
        let es : List (Event SplitNote) =
        event_by 0 Act.Give None
        ∷ event_by 0 (Act.Fill 0 0 2) None
        ∷ event_by 0 (Act.Fill 0 1 1) None
        ∷ event_by 0 (Act.Move (Place.Root 0) null (link_to 0)) (Some (SplitNote.Entry (SetEntry.Added 0 2 true)))
        ∷ event_by 1 Act.Give None
        ∷ event_by 1 (Act.Fill 1 0 1) None
        ∷ event_by 1 (Act.Fill 1 1 1) None
        ∷ event_by 1 (Act.Move (Place.Next 0) null (link_to 1)) (Some (SplitNote.Entry (SetEntry.Added 1 1 true)))
        ∷ event_by 0 Act.Give None
        ∷ event_by 0 (Act.Fill 2 0 2) None
        ∷ event_by 0 (Act.Fill 2 1 2) None
        ∷ event_by 0 (Act.Move (Place.Root 2) null (link_to 2)) (Some SplitNote.Grow)
        ∷ event_by 1 Act.Give None
        ∷ event_by 1 (Act.Fill 3 0 1) None
        ∷ event_by 1 (Act.Fill 3 1 0) None
        ∷ event_by 1 (Act.Aim 3 (Some 1)) None
        ∷ event_by 1 (Act.Move (Place.Next 0) (link_to 1) (link_to 3)) (Some SplitNote.Bucket)
        ∷ event_by 1 (Act.Move (Place.Root 1) null (link_to 3)) (Some SplitNote.Anchor)
        ∷ event_by 2 (Act.Look (Place.Next 1) null) (Some (SplitNote.Entry (SetEntry.Asked 2 1 true))) ∷ [] in
        AllAllowed (SplitMay n) [] es × (set_after es ≡ 2 ∷ 1 ∷ []) × (size_of n es ≡ 2)
        × IsPath (run_heap n es) (Place.Root 0) (0 ∷ 3 ∷ []) (Some 1) }
{}

#[test]
fn the_laws_stand() {
    allowed_events_obey_the_discipline();
    set_histories_are_legal();
    the_set_stands_on_the_chain();
    dummies_are_never_marked();
    searches_may_begin_at_dummies();
    sizes_double();
    keys_absent_and_present();
    facts_of_the_chain_stay();
    an_added_may_come();
    a_bucket_may_come();
    a_removed_may_come();
    an_unlink_may_come();
    an_anchor_may_come();
    a_grow_may_come();
    absent_answers_may_come();
    present_answers_may_come();
    numbers_by_their_lowest_bits();
    a_set_that_grows();
}
