//! The discipline as an implementation of the traits of disciplines.

ghost use Rattle.orc_fifo_rule.specs.{
  QueueDiscipline.{FifoHolds, FifoMay, fifo_rank},
  Laws.Kept.{fifo_allows_plain, fifo_keeps, fifo_moves_linked, fifo_rises},
};

use orc_heap::{Discipline, Ranked};
use orc_history::QueueEntry;

/// What a queue says of its Moves, and of the Look of a dequeue that finds nothing.
#[derive(Clone, Copy)]
pub enum FifoNote {
    /// The event is this call's entry in the history.
    Entry(QueueEntry),
    /// The tail goes one node on.
    Swing,
    /// The head or the tail is set to the first dummy.
    Begin,
}

/// The discipline of Michael and Scott's queue. Root 0 is the head, root 1 the tail.
pub struct Fifo;

impl Discipline for Fifo {
    type Note = FifoNote;

    ghost holds = { FifoHolds };

    ghost may = { FifoMay };

    ghost keeps = { fifo_keeps };

    ghost fits = { λ n seen e holds may. may.fits };

    ghost allows_plain = { fifo_allows_plain };

    ghost moves_linked = { fifo_moves_linked };
}

impl Ranked for Fifo {
    ghost rank = { fifo_rank };

    ghost rises = { fifo_rises };
}
