//! The board and its passes.

ghost use Rattle.std.specs.Prelude.{◌≡◌};
ghost use Rattle.orc_layout.specs.Layout.{table_length};
ghost use Rattle.orc_words.specs.Bounds.{bounds_of};

use crate::machine::{MachineShape, Reclaiming, Request};
use orc_core::Agent;
use orc_heap::Discipline;
use orc_shared_words::{Machine, SharedPass, SharedWords};
use orc_sound::Step;

/// Words that agents share, whose rows are counted, retired, scanned for and freed.
#[derive(Drop)]
pub struct MachineBoard<D: Discipline> {
    pub(crate) words: SharedWords<Reclaiming, D>,
    ghost sized: { words.table.shared.table_id.words ≡ table_length (bounds_of words.shape.shape) },
}

/// An agent's pass to a board, with its record.
#[derive(Drop)]
pub struct MachineBoardPass<D: Discipline>
where
    Reclaiming: Machine<
        D::Note,
        Shape = MachineShape<D::Note>,
        Op = Request,
        Step = Step<D::Note>,
        Record = Agent,
        Own = Agent,
    >,
{
    pub(crate) pass: SharedPass<Reclaiming, D>,
}
