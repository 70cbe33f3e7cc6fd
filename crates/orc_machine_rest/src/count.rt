//! A pass that took in all others looks at each gate.

ghost use Rattle.std.specs.Prelude.{◌≡◌, ◌+◌, ◌++◌};
ghost use Rattle.orc_machine_rest.specs.Looks.{MayLookAtGates, gate_looks};
ghost use Rattle.orc_core.specs.Machine.{new_machine};
ghost use Rattle.orc_machine_board.specs.{Passes.{TookInAll}, Rules.{run_of}, Views.{Belongs, board_bounds, shows}};
ghost use Rattle.orc_rest.specs.Reuse.{given, reused, rows_out};
ghost use Rattle.orc_sound.specs.Journals.{plain};

use orc_any_domain::RowCounts;
use orc_heap::Discipline;
use orc_machine_board::{MachineBoard, MachineBoardPass};

/// Looks at the gate of each row, and tells from its life and its lowest bit what was given, freed, and is out. The pass took in
/// all others, so nobody steps meanwhile.
pub fn count_rows<D: Discipline>(board: &MachineBoard<D>, p: &mut MachineBoardPass<D>) -> RowCounts
    requires belongs { Belongs board.now p.old }
    requires looks { MayLookAtGates (shows p.old).record_is }
    requires all { TookInAll (board_bounds board.now) (shows p.old) }
    ensures belongs { Belongs board.now p.new }
    ensures all { TookInAll (board_bounds board.now) (shows p.new) }
    ensures journal { (shows p.new).journal ≡ (shows p.old).journal ++ gate_looks (shows p.old).agent (board_bounds board.now).rows }
    ensures given { result.given ≡ given (new_machine (board_bounds board.now)) (plain (shows p.new).journal) }
    ensures reused { result.reused ≡ reused (plain (shows p.new).journal) }
    ensures linked { result.linked ≡ rows_out (run_of (board_bounds board.now) (shows p.new).journal) }
    ensures balance { result.given ≡ result.reused + result.linked }
{
    let mut given = 0;
    let mut linked = 0;
    for row in 0..board.shape().rows() {
        let gate = board.gate_look(p, row);
        given += gate / 2;
        linked += (gate % 2) as u32;
    }
    let reused = given - u64::from(linked);
    RowCounts {
        given,
        reused,
        linked,
    }
}
