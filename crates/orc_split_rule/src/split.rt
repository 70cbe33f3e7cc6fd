//! The discipline as an implementation of the traits of disciplines.

ghost use Rattle.orc_split_rule.specs.{
  SplitDiscipline.{SplitHolds, SplitMay, split_rank},
  Laws.Kept.{split_allows_plain, split_keeps, split_moves_linked, split_rises},
};

use orc_heap::{Discipline, Ranked};
use orc_history::SetEntry;

/// What a split-ordered set says of its Moves, and of the Looks that answer a call.
#[derive(Clone, Copy)]
pub enum SplitNote {
    /// The event is this call's entry in the history.
    Entry(SetEntry),
    /// Marked nodes are left out of the chain.
    Unlink,
    /// The dummy of a bucket is linked.
    Bucket,
    /// A bucket's root names its dummy from now on.
    Anchor,
    /// The number of buckets is doubled.
    Grow,
}

/// The discipline of the split-ordered set: one chain, which begins at root 0 and has all keys in split order, with a dummy
/// for each bucket that has one. The other roots but the last name dummies, and the last names a node with the number of
/// buckets.
pub struct Split;

impl Discipline for Split {
    type Note = SplitNote;

    ghost holds = { SplitHolds };

    ghost may = { SplitMay };

    ghost keeps = { split_keeps };

    ghost fits = { λ n seen e holds may. may.fits };

    ghost allows_plain = { split_allows_plain };

    ghost moves_linked = { split_moves_linked };
}

impl Ranked for Split {
    ghost rank = { split_rank };

    ghost rises = { split_rises };
}
