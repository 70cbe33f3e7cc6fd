//! Taking in slot by slot, and draining.

ghost use Rattle.std.specs.Prelude.{◌≡◌, ◌<◌, ◌≤◌, ◌+◌, ◌-◌, ◌*◌, ℕ};
ghost use Rattle.orc_machine_rest.specs.{
  Drains.{Drains, TakesInFrom},
  OwnSteps.{AtMostMore, HasTakenIn, LeavesNothing, TakesInAll, most_rounds, steps_a_round},
  Parts.{NoEvents},
  Passes.{IsPassOf, agent_record, state_of},
};
ghost use Rattle.orc_history.specs.Parts.{IsAlone};
ghost use Rattle.orc_machine_board.specs.Views.{Belongs, board_bounds, shows};
ghost use Rattle.orc_rest.specs.{Records.{IsBetweenRounds, IsDone}, Turns.{NoneHanded}};

use crate::rounds::settle_all;
use crate::steps::take_in;
use orc_heap::Discipline;
use orc_machine_board::{MachineBoard, MachineBoardPass};

// Takes in what was handed over beside this slot and each later one.
fn take_in_from<D: Discipline>(
    board: &MachineBoard<D>,
    p: &mut MachineBoardPass<D>,
    agent: u32,
    k: u32,
)
    requires pass { IsPassOf board.now agent p.old }
    requires between { IsBetweenRounds (agent_record board.now agent p.old) }
    requires slot { k ≤ 8 }
    ensures pass { IsPassOf board.now agent p.new }
    ensures between { IsBetweenRounds (agent_record board.now agent p.new) }
    ensures takes { TakesInFrom (board_bounds board.now) agent k (shows p.old) (shows p.new) }
    ensures taken_in { (slot : ℕ) → k ≤ slot → slot < 8 → HasTakenIn agent slot (shows p.old).journal (shows p.new).journal }
    ensures few { AtMostMore agent (8 - k) (shows p.old).journal (shows p.new).journal }
{
    if k == 8 {
        return;
    }
    take_in(board, p, agent, k);
    take_in_from(board, p, agent, k + 1);
}

// Takes in all, and settles.
fn drain_own<D: Discipline>(board: &MachineBoard<D>, p: &mut MachineBoardPass<D>, agent: u32)
    requires pass { IsPassOf board.now agent p.old }
    requires between { IsBetweenRounds (agent_record board.now agent p.old) }
    ensures pass { IsPassOf board.now agent p.new }
    ensures between { IsBetweenRounds (agent_record board.now agent p.new) }
    ensures drains { Drains (board_bounds board.now) agent (shows p.old) (shows p.new) }
    ensures takes_all { TakesInAll agent (shows p.old).journal (shows p.new).journal }
    ensures few { AtMostMore agent (8 + most_rounds (board_bounds board.now) * steps_a_round (board_bounds board.now))
        (shows p.old).journal (shows p.new).journal }
{
    take_in(board, p, agent, 0);
    take_in_from(board, p, agent, 1);
    settle_all(board, p, agent);
}

/// Takes in what was handed over beside each of the eight slots, and settles, in at most `4 * (rows + 8 * agents)` rounds. What is
/// left afterwards is left only where another agent steps meanwhile.
pub fn drain<D: Discipline>(board: &MachineBoard<D>, p: &mut MachineBoardPass<D>)
    requires belongs { Belongs board.now p.old }
    requires between { IsBetweenRounds (shows p.old).record_is }
    ensures belongs { Belongs board.now p.new }
    ensures agent { (shows p.new).agent ≡ (shows p.old).agent }
    ensures between { IsBetweenRounds (shows p.new).record_is }
    ensures quiet { NoEvents (board_bounds board.now) (shows p.old).agent (shows p.old).journal (shows p.new).journal }
    ensures taken_in { LeavesNothing (shows p.old).agent (shows p.old).journal (shows p.new).journal }
    ensures done { IsAlone (λ s. s.agent) (shows p.old).agent (shows p.old).journal (shows p.new).journal → IsDone (shows p.new).record_is }
    ensures handovers { IsAlone (λ s. s.agent) (shows p.old).agent (shows p.old).journal (shows p.new).journal
        → NoneHanded (shows p.old).agent (state_of board.now p.new) }
    ensures drains { Drains (board_bounds board.now) (shows p.old).agent (shows p.old) (shows p.new) }
    ensures takes_all { TakesInAll (shows p.old).agent (shows p.old).journal (shows p.new).journal }
    ensures few { AtMostMore (shows p.old).agent (8 + most_rounds (board_bounds board.now) * steps_a_round (board_bounds board.now))
        (shows p.old).journal (shows p.new).journal }
{
    let agent = p.agent();
    drain_own(board, p, agent);
}
