//! The domain and its passes.

ghost use Rattle.std.specs.Prelude.{◌≡◌};
ghost use Rattle.orc_heap.specs.Moves.{gives_in};
ghost use Rattle.orc_plain_domain.specs.Passes.{seat_of};

use orc_heap::Discipline;
use orc_plain_board::{Plain, PlainBoard, PlainOp, PlainShape, PlainStep};
use orc_shared_words::Machine;
use orc_words::Shape;

/// A domain of links in which each row is given once. It has no counts.
#[derive(Drop)]
pub struct PlainDomain<D: Discipline> {
    pub(crate) board: PlainBoard<D>,
}

/// An agent's pass to a domain: its pass to the board, the rows in its slots, the row after the one that it was
/// given last, and the sizes of the board.
#[derive(Drop)]
pub struct PlainPass<D: Discipline>
where
    Plain: Machine<D::Note>,
{
    pub(crate) pass: orc_plain_board::PlainBoardPass<D>,
    pub(crate) slots: [Option<u32>; 8],
    pub(crate) next: u32,
    pub(crate) shape: Shape,
}

/// A domain at rest, with the one pass that is left.
#[derive(Drop)]
pub struct PlainRest<D: Discipline>
where
    Plain: Machine<
        D::Note,
        Shape = PlainShape<D::Note>,
        Op = PlainOp,
        Step = PlainStep<D::Note>,
        Record = (),
        Own = (),
    >,
{
    pub(crate) domain: PlainDomain<D>,
    pub(crate) pass: PlainPass<D>,
    pub(crate) given: u32,
    ghost counted: { given ≡ gives_in (seat_of domain pass).seen },
}
