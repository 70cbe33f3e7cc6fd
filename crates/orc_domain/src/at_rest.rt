//! Domains at rest.

ghost use Rattle.orc_machine_rest.specs.Ends.{CountsOf};
ghost use Rattle.orc_machine_board.specs.Views.{board_bounds, shows};

use crate::domain::OrcDomain;
use orc_any_domain::RowCounts;
use orc_core::Agent;
use orc_heap::Discipline;
use orc_machine_board::{MachineBoardPass, MachineShape, Reclaiming, Request};
use orc_shared_words::Machine;
use orc_sound::Step;

/// A domain at rest, with the one pass that is left.
#[derive(Drop)]
pub struct OrcRest<D: Discipline>
where
    Reclaiming: Machine<
        D::Note,
        Shape = MachineShape<D::Note>,
        Op = Request,
        Step = Step<D::Note>,
        Record = Agent,
        Own = Agent,
    >,
{
    pub(crate) domain: OrcDomain<D>,
    pub(crate) pass: MachineBoardPass<D>,
    pub(crate) counts: RowCounts,
    ghost counted: { CountsOf (board_bounds domain.board) (shows pass).journal counts },
}
