//! Ranks of the nodes of a set.

ghost use Rattle.std.specs.Prelude.{◌≡◌, ◌∷◌, ℕ, Some, []};
ghost use Rattle.orc_heap.specs.Heap.{HeapNumbers};
ghost use Rattle.orc_history.specs.declared.set.SetEntry.{SetEntry};
ghost use Rattle.orc_ordered_search.specs.{
  Entries.{AllowsAbsence, AllowsAdd, AllowsAim, AllowsMark, AllowsPresence, AllowsUnlink},
  Reading.{reading_by},
};

use crate::rank::Rank;
use orc_heap::Discipline;
use orc_history::SetEntry;

/// A rank of the nodes of a set, whose keys have ranks, and whose history is told in notes.
pub trait SetRank: Rank {
    // the rank of a key
    ghost key_rank: { ℕ → ℕ };

    // the note that enters this
    ghost noted: { SetEntry → Self.Rule.Note };

    // the note of a Move that leads past marked nodes
    ghost unlinking: { Self.Rule.Note };

    // the second value of the node of a key
    ghost key_kind: { ℕ };

    /// The note that enters this in the history.
    fn note(entry: SetEntry) -> <Self::Rule as Discipline>::Note
        ensures { result ≡ noted entry };

    /// The note of a Move that leads past marked nodes.
    fn unlink_note() -> <Self::Rule as Discipline>::Note
        ensures { result ≡ unlinking };

    /// The second value of the node of a key.
    fn kind_of_keys() -> u64
        ensures { result ≡ key_kind };

    // the one enters this alone, and the other nothing
    ghost enters: { (n : HeapNumbers) (entry : SetEntry) → (Self.manner n).entries_in (Some (noted entry)) ≡ entry ∷ [] };

    ghost enters_none: { (n : HeapNumbers) → (Self.manner n).entries_in (Some unlinking) ≡ [] };

    // the rule allows an Aim wherever that fits
    ghost allows_aim: { (n : HeapNumbers) → AllowsAim n (Self.Rule.may n) };

    // it allows answers where a search found the key absent, and where it found it present
    ghost allows_absence: { (n : HeapNumbers) → AllowsAbsence (reading_by n Self.manner) (Self.Rule.holds n) (Self.Rule.may n) key_rank noted };

    ghost allows_presence: { (n : HeapNumbers) → AllowsPresence (reading_by n Self.manner) (Self.Rule.holds n) (Self.Rule.may n) key_rank noted };

    // it allows a key's node to be marked or linked, and a place to be led past marked nodes
    ghost allows_mark: { (n : HeapNumbers) → AllowsMark (reading_by n Self.manner) (Self.Rule.holds n) (Self.Rule.may n) key_rank noted };

    ghost allows_add: { (n : HeapNumbers) → AllowsAdd (reading_by n Self.manner) (Self.Rule.holds n) (Self.Rule.may n) key_rank noted key_kind };

    ghost allows_unlink: { (n : HeapNumbers) → AllowsUnlink (reading_by n Self.manner) (Self.Rule.holds n) (Self.Rule.may n) unlinking };
}
