//! The cell as what the workers of a watch work at.
ghost use Rattle.orc_watch_run.specs.{Learning.{LawsTell, cell_site}, Passes.{IsUsablePassOf}};

use orc_cell::Cell;
use orc_heap::Links;
use orc_pairs_rule::Pairs;
use orc_team::Workplace;

// A cell, of which each worker has a pass.
#[derive(Drop)]
pub(crate) struct AtCell<'a, L: Links<Rule = Pairs>> {
    pub(crate) cell: &'a Cell<L>,
}

impl<L: Links<Rule = Pairs>> Workplace for AtCell<'_, L> {
    type Desk = L::Pass;

    ghost site = { λ at. cell_site L.Links at.cell.now.links };

    fn agent(&self, desk: &L::Pass) -> u32 {
        self.cell.links().agent(desk)
    }

    fn learn(&self, me: u32, desk: &mut L::Pass, other: u32, more: &mut L::Pass) {
        self.cell.learn(desk, more)
    }
}

// What the laws of the cell say of the caller's pass.
pub(crate) fn tell_laws<L: Links<Rule = Pairs>>(cell: &Cell<L>, pass: &L::Pass)
    requires { IsUsablePassOf L.Links cell.now.links 0 pass.now }
    ensures { LawsTell L.Links cell.now.links pass.now }
{}
