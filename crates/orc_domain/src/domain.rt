//! The domain and its passes.

ghost use Rattle.std.specs.Prelude.{◌≡◌};
ghost use Rattle.orc_machine_board.specs.{Passes.{backlog_in}, Views.{shows}};
ghost use Rattle.orc_domain.specs.Passes.{IsPassOf};

use orc_core::Agent;
use orc_heap::Discipline;
use orc_machine_board::{MachineBoard, MachineBoardPass, MachineShape, Reclaiming, Request};
use orc_shared_words::Machine;
use orc_sound::Step;

/// A domain of links whose rows are reclaimed (OrcGC, Correia, Ramalhete and Felber 2021).
#[derive(Drop)]
pub struct OrcDomain<D: Discipline> {
    pub(crate) board: MachineBoard<D>,
}

/// An agent's pass to a domain: its pass to the board, and the row after the one that it was given last.
#[derive(Drop)]
pub struct OrcPass<D: Discipline>
where
    Reclaiming: Machine<
        D::Note,
        Shape = MachineShape<D::Note>,
        Op = Request,
        Step = Step<D::Note>,
        Record = Agent,
        Own = Agent,
    >,
{
    pub(crate) pass: MachineBoardPass<D>,
    pub(crate) next: u32,
}

impl<D: Discipline> OrcDomain<D> {
    /// How many rows the pass has still to work through: the entries of its work list, and one more where it keeps a hand
    /// or a scan.
    pub fn backlog(&self, p: &OrcPass<D>) -> u32
        requires pass { IsPassOf self.now p.now }
        ensures { result ≡ backlog_in (shows p.now.pass).record_is }
    {
        p.pass.backlog()
    }
}
