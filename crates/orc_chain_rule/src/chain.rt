//! The discipline as an implementation of the traits of disciplines.

ghost use Rattle.orc_chain_rule.specs.{
  ChainDiscipline.{ChainHolds, ChainMay, chain_rank},
  Laws.Kept.{chain_allows_plain, chain_keeps, chain_moves_linked, chain_rises},
};

use orc_heap::{Discipline, Ranked};
use orc_history::SetEntry;

/// What a sorted list says of its Moves, and of the Looks that answer a call.
#[derive(Clone, Copy)]
pub enum ChainNote {
    /// The event is this call's entry in the history.
    Entry(SetEntry),
    /// Marked nodes are left out of the chain.
    Unlink,
}

/// The discipline of Harris's sorted list: one chain for each root, and a key belongs to the root of its remainder by
/// the number of roots.
pub struct Chain;

impl Discipline for Chain {
    type Note = ChainNote;

    ghost holds = { ChainHolds };

    ghost may = { ChainMay };

    ghost keeps = { chain_keeps };

    ghost fits = { λ n seen e holds may. may.fits };

    ghost allows_plain = { chain_allows_plain };

    ghost moves_linked = { chain_moves_linked };
}

impl Ranked for Chain {
    ghost rank = { chain_rank };

    ghost rises = { chain_rises };
}
