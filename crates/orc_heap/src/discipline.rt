//! Disciplines: which events a container allows, and what these keep.

ghost use Rattle.std.specs.Prelude.{ℕ, List, [], ◌∷◌, ◌++◌};
ghost use Rattle.orc_heap.specs.{
  Heap.{HeapNumbers},
  Journals.{FitsAfter, IsPlain, run_heap},
  Allowed.{MovesLinked, Rises},
  declared.events.Event.{Event},
};

/// What the events of a container obey.
pub trait Discipline {
    /// What a container says of its Moves, and of some of its Looks.
    type Note: Copy;

    // the events so far, over a heap of these numbers, obey the discipline
    ghost holds: { HeapNumbers → List (Event Self.Note) → Type 0 };

    // after these events, the discipline allows this one
    ghost may: { HeapNumbers → List (Event Self.Note) → Event Self.Note → Type 0 };

    // an event that is allowed keeps the discipline
    ghost keeps: { (n : HeapNumbers) (seen : List (Event Self.Note)) (e : Event Self.Note)
        → holds n seen → may n seen e → holds n (seen ++ e ∷ []) };

    // an event that is allowed fits
    ghost fits: { (n : HeapNumbers) (seen : List (Event Self.Note)) (e : Event Self.Note)
        → holds n seen → may n seen e → FitsAfter n seen e };

    // an event that fits, has no note, and is neither a Move nor an Aim or AimSide with a target is allowed
    ghost allows_plain: { (n : HeapNumbers) (seen : List (Event Self.Note)) (e : Event Self.Note)
        → holds n seen → FitsAfter n seen e → IsPlain e → may n seen e };

    // an allowed Move changes a root or a link of a once linked node
    ghost moves_linked: { (n : HeapNumbers) (seen : List (Event Self.Note)) (e : Event Self.Note)
        → holds n seen → may n seen e → MovesLinked e.act (run_heap n seen) };
}

/// A discipline whose links rise, first and second ones alike, so that they lead in no circle.
pub trait Ranked: Discipline {
    // after these events, the rank of the node of this id
    ghost rank: { HeapNumbers → List (Event Self.Note) → ℕ → ℕ };

    // each link of each once linked node is null or names a once linked node of a greater rank
    ghost rises: { (n : HeapNumbers) (seen : List (Event Self.Note))
        → Self.holds n seen → Rises (rank n seen) (run_heap n seen) };
}
