//! Rounds, and settling by as many of them as it takes.

ghost use Rattle.std.specs.Prelude.{◌≡◌, ◌-◌, ◌+◌, ◌*◌, ◌≤◌, IfSome, None, true};
ghost use Rattle.orc_machine_rest.specs.{
  Drains.{TakesInAndSettles},
  OwnSteps.{AtMostMore, HasTakenIn, LeavesNothing, most_rounds, steps_a_round},
  Parts.{MakesRounds, NoEvents, OpensTurn, Settles},
  Passes.{IsPassOf, agent_record},
};
ghost use Rattle.orc_core.specs.RecordParts.{scans};
ghost use Rattle.orc_history.specs.Parts.{IsAlone};
ghost use Rattle.orc_machine_board.specs.Views.{Belongs, board_bounds, shows};
ghost use Rattle.orc_rest.specs.Records.{IsBetweenRounds, IsDone, IsScannedNext, IsScanOf, IsStill};

use crate::steps::{free_doomed, kept, look_step, settle_step, take_in, unretire_scanned};
use orc_core::{CounterUse, Op};
use orc_heap::Discipline;
use orc_machine_board::{MachineBoard, MachineBoardPass};
use orc_words::{NEW_COUNTER, RETIRED};

// The part of a counter word that holds its count lies below the retired bit.
const COUNT_RANGE: u64 = RETIRED;

// What that part is where the count is 0.
const NO_LINKS: u64 = NEW_COUNTER;

// Looks at the slots from this one on, and hands the scanned row over where one names it. If none does, ends the scan, and
// frees the row if it is doomed.
fn look_over<D: Discipline>(
    board: &MachineBoard<D>,
    p: &mut MachineBoardPass<D>,
    agent: u32,
    row: u32,
    first: u32,
)
    requires pass { IsPassOf board.now agent p.old }
    requires still { IsStill (agent_record board.now agent p.old) }
    requires doom { (agent_record board.now agent p.old).doom ≡ None }
    requires scan { IsScanOf row first (agent_record board.now agent p.old).scan }
    requires place { first ≤ 8 * (board_bounds board.now).agents }
    ensures pass { IsPassOf board.now agent p.new }
    ensures opens { OpensTurn (board_bounds board.now) agent 1 (shows p.old) (shows p.new) }
    ensures between { IsBetweenRounds (agent_record board.now agent p.new) }
    ensures few { AtMostMore agent (steps_a_round (board_bounds board.now) - 1) (shows p.old).journal (shows p.new).journal }
{
    let end = 8 * board.shape().agents();
    for k in first..end {
        if look_step(board, p, agent, row, k) {
            settle_step(board, p, agent, Op::Hand { k });
            return;
        }
    }
    let how = CounterUse::End;
    settle_step(board, p, agent, Op::CounterLoad { row, how });
    if kept(board, p, agent).scan.is_none() {
        free_doomed(board, p, agent, row);
    }
}

// What is to be settled next: the scanned row, the row in hand, or the oldest entry.
fn next_work<D: Discipline>(
    board: &MachineBoard<D>,
    p: &MachineBoardPass<D>,
    agent: u32,
) -> Option<u32>
    requires pass { IsPassOf board.now agent p.now }
    ensures some { IfSome result (λ row. IsScannedNext row (agent_record board.now agent p.now)) }
    ensures none { result ≡ None → IsDone (agent_record board.now agent p.now) }
{
    let record = kept(board, p, agent);
    match (record.scan, record.hand) {
        (Some(scan), _) => Some(scan.row),
        (None, Some(row)) => Some(row),
        (None, None) => record.list.first(),
    }
}

// A round whose scan has begun.
fn scan_round<D: Discipline>(
    board: &MachineBoard<D>,
    p: &mut MachineBoardPass<D>,
    agent: u32,
    row: u32,
)
    requires pass { IsPassOf board.now agent p.old }
    requires between { IsBetweenRounds (agent_record board.now agent p.old) }
    requires scans { scans (agent_record board.now agent p.old).scan row ≡ true }
    ensures pass { IsPassOf board.now agent p.new }
    ensures opens { OpensTurn (board_bounds board.now) agent 1 (shows p.old) (shows p.new) }
    ensures between { IsBetweenRounds (agent_record board.now agent p.new) }
    ensures few { AtMostMore agent (steps_a_round (board_bounds board.now) - 1) (shows p.old).journal (shows p.new).journal }
{
    let Some(scan) = kept(board, p, agent).scan else {
        return;
    };
    if scan.word % COUNT_RANGE == NO_LINKS {
        look_over(board, p, agent, row, scan.place);
    } else {
        unretire_scanned(board, p, agent, row);
    }
}

// One round.
fn round<D: Discipline>(board: &MachineBoard<D>, p: &mut MachineBoardPass<D>, agent: u32, row: u32)
    requires pass { IsPassOf board.now agent p.old }
    requires between { IsBetweenRounds (agent_record board.now agent p.old) }
    requires next { IsScannedNext row (agent_record board.now agent p.old) }
    ensures pass { IsPassOf board.now agent p.new }
    ensures opens { OpensTurn (board_bounds board.now) agent 1 (shows p.old) (shows p.new) }
    ensures between { IsBetweenRounds (agent_record board.now agent p.new) }
    ensures few { AtMostMore agent (steps_a_round (board_bounds board.now)) (shows p.old).journal (shows p.new).journal }
{
    if kept(board, p, agent).scan.is_some() {
        scan_round(board, p, agent, row);
        return;
    }
    let how = CounterUse::Start;
    settle_step(board, p, agent, Op::CounterLoad { row, how });
    scan_round(board, p, agent, row);
}

// At most `left` rounds.
fn settle_rounds<D: Discipline>(
    board: &MachineBoard<D>,
    p: &mut MachineBoardPass<D>,
    agent: u32,
    left: u32,
)
    requires pass { IsPassOf board.now agent p.old }
    requires between { IsBetweenRounds (agent_record board.now agent p.old) }
    ensures pass { IsPassOf board.now agent p.new }
    ensures rounds { MakesRounds (board_bounds board.now) agent left (shows p.old) (shows p.new) }
    ensures between { IsBetweenRounds (agent_record board.now agent p.new) }
    ensures few { AtMostMore agent (left * steps_a_round (board_bounds board.now)) (shows p.old).journal (shows p.new).journal }
{
    for _turn in 0..left {
        let Some(row) = next_work(board, p, agent) else {
            return;
        };
        round(board, p, agent, row);
    }
}

// Makes as many rounds as it takes, and at most `4 * (rows + 8 * agents)`.
pub(crate) fn settle_all<D: Discipline>(
    board: &MachineBoard<D>,
    p: &mut MachineBoardPass<D>,
    agent: u32,
)
    requires pass { IsPassOf board.now agent p.old }
    requires between { IsBetweenRounds (agent_record board.now agent p.old) }
    ensures pass { IsPassOf board.now agent p.new }
    ensures settles { Settles (board_bounds board.now) agent (shows p.old) (shows p.new) }
    ensures between { IsBetweenRounds (agent_record board.now agent p.new) }
    ensures few { AtMostMore agent (most_rounds (board_bounds board.now) * steps_a_round (board_bounds board.now))
        (shows p.old).journal (shows p.new).journal }
{
    let shape = board.shape();
    let bound = 4 * (shape.rows() + 8 * shape.agents());
    if let Some(row) = next_work(board, p, agent) {
        round(board, p, agent, row);
        settle_rounds(board, p, agent, bound - 1);
    }
}

/// Takes in what was handed over beside slot 0, and works through the retired rows that the pass has in its work list, in hand or
/// scanned, in at most `4 * (rows + 8 * agents)` rounds, of `8 * agents + 6 * links + 4` steps at most. Some remain only where another
/// agent steps meanwhile.
pub fn settle<D: Discipline>(board: &MachineBoard<D>, p: &mut MachineBoardPass<D>)
    requires belongs { Belongs board.now p.old }
    requires between { IsBetweenRounds (shows p.old).record_is }
    ensures belongs { Belongs board.now p.new }
    ensures agent { (shows p.new).agent ≡ (shows p.old).agent }
    ensures between { IsBetweenRounds (shows p.new).record_is }
    ensures quiet { NoEvents (board_bounds board.now) (shows p.old).agent (shows p.old).journal (shows p.new).journal }
    ensures taken_in { LeavesNothing (shows p.old).agent (shows p.old).journal (shows p.new).journal }
    ensures done { IsAlone (λ s. s.agent) (shows p.old).agent (shows p.old).journal (shows p.new).journal → IsDone (shows p.new).record_is }
    ensures settles { TakesInAndSettles (board_bounds board.now) (shows p.old).agent (shows p.old) (shows p.new) }
    ensures slot_0 { HasTakenIn (shows p.old).agent 0 (shows p.old).journal (shows p.new).journal }
    ensures few { AtMostMore (shows p.old).agent (1 + most_rounds (board_bounds board.now) * steps_a_round (board_bounds board.now))
        (shows p.old).journal (shows p.new).journal }
{
    let agent = p.agent();
    take_in(board, p, agent, 0);
    settle_all(board, p, agent);
}
