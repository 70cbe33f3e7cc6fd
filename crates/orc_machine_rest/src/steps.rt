//! The parts of a round: steps, and what follows one another without a choice.

ghost use Rattle.std.specs.Prelude.{◌≡◌, ◌<◌, ◌*◌, ◌+◌, None, Some, [], ◌∷◌, false, true};
ghost use Rattle.orc_machine_rest.specs.{
  Drains.{TakesInOne},
  OwnSteps.{AtMostMore, HasTakenIn, TakesInCleared, answers_word},
  Parts.{Goes, OpensTurn},
  Passes.{IsPassOf, agent_record, state_of},
};
ghost use Rattle.orc_core.specs.{
  After.{after},
  Machine.{is_allowed, word_in},
  RecordParts.{is_empty, scan_empty, scan_found, scans, slot_of},
  declared.ops.Op.{Op},
  declared.records.SlotUse.TheVariants.{Empty},
};
ghost use Rattle.orc_machine_board.specs.{Kinds.{is_plain_kind}, Views.{board_bounds, shows}};
ghost use Rattle.orc_rest.specs.{
  Records.{DueFits, IsBetweenRounds, IsDoomOf, IsScanOf, IsSettling, IsStill, SameTasks},
  Rounds.{AfterStep, IsNoHand, LooksAtSlot},
  Work.{IsSettlingStep, drop_of},
};

use orc_core::{Agent, Op, Reading};
use orc_heap::Discipline;
use orc_machine_board::{MachineBoard, MachineBoardPass, due_by};
use orc_words::{DECREMENT, RETIRED, RowLink, named};

// What the pass keeps of the agent's record.
pub(crate) fn kept<'a, D: Discipline>(
    board: &MachineBoard<D>,
    p: &'a MachineBoardPass<D>,
    agent: u32,
) -> &'a Agent
    requires pass { IsPassOf board.now agent p.now }
    ensures hand { result.now.hand ≡ (agent_record board.now agent p.now).hand }
    ensures scan { result.now.scan ≡ (agent_record board.now agent p.now).scan }
    ensures list { result.now.list ≡ (agent_record board.now agent p.now).list }
{
    p.kept()
}

// Makes a step that settles, of a kind that changes no link and clears no slot, and answers what the board does.
#[inline(always)]
pub(crate) fn settle_step<D: Discipline>(
    board: &MachineBoard<D>,
    p: &mut MachineBoardPass<D>,
    agent: u32,
    op: Op,
) -> u64
    requires pass { IsPassOf board.now agent p.old }
    requires plain { is_plain_kind op ≡ true }
    requires clears_none { TakesInCleared (op ∷ []) }
    requires allowed { is_allowed (state_of board.now p.old) agent op ≡ true }
    requires settles { IsSettlingStep (word_in (state_of board.now p.old)) op (agent_record board.now agent p.old) }
    ensures pass { IsPassOf board.now agent p.new }
    ensures goes { Goes (board_bounds board.now) agent (drop_of op (agent_record board.now agent p.old)) (shows p.old) (shows p.new) }
    ensures opens { IsNoHand op → OpensTurn (board_bounds board.now) agent (drop_of op (agent_record board.now agent p.old)) (shows p.old) (shows p.new) }
    ensures after { AfterStep agent op (state_of board.now p.old) (state_of board.now p.new) }
    ensures read { answers_word op ≡ true → agent_record board.now agent p.new ≡ after op (agent_record board.now agent p.old) result }
    ensures few { AtMostMore agent 1 (shows p.old).journal (shows p.new).journal }
{
    board.plain_step(p, op, None)
}

// Looks at a slot for the scanned row, and answers whether it names the row.
pub(crate) fn look_step<D: Discipline>(
    board: &MachineBoard<D>,
    p: &mut MachineBoardPass<D>,
    agent: u32,
    row: u32,
    k: u32,
) -> bool
    requires pass { IsPassOf board.now agent p.old }
    requires still { IsStill (agent_record board.now agent p.old) }
    requires scan { IsScanOf row k (agent_record board.now agent p.old).scan }
    requires place { k < 8 * (state_of board.now p.old).bounds.agents }
    ensures pass { IsPassOf board.now agent p.new }
    ensures opens { OpensTurn (board_bounds board.now) agent 0 (shows p.old) (shows p.new) }
    ensures looks { LooksAtSlot agent row k (state_of board.now p.old) (state_of board.now p.new) }
    ensures found { result ≡ scan_found (agent_record board.now agent p.new).scan }
    ensures few { AtMostMore agent 1 (shows p.old).journal (shows p.new).journal }
{
    let _ = board.slot_look(p, k);
    is_found(p.kept())
}

// Whether the agent's scan is found.
pub(crate) fn is_found(agent: &Agent) -> bool
    ensures { result ≡ scan_found agent.now.scan }
{
    match agent.scan {
        Some(scan) => scan.found,
        None => false,
    }
}

// Takes the link of this number out of a doomed row, and answers its target.
pub(crate) fn take_link_out<D: Discipline>(
    board: &MachineBoard<D>,
    p: &mut MachineBoardPass<D>,
    agent: u32,
    row: u32,
    number: u32,
) -> Option<u32>
    requires pass { IsPassOf board.now agent p.old }
    requires still { IsStill (agent_record board.now agent p.old) }
    requires number { number < (state_of board.now p.old).bounds.links }
    requires doom { IsDoomOf row number (agent_record board.now agent p.old).doom }
    ensures pass { IsPassOf board.now agent p.new }
    ensures goes { Goes (board_bounds board.now) agent 0 (shows p.old) (shows p.new) }
    ensures after { AfterStep agent (Op.LinkStore row (record { to = None; mark = false }) number) (state_of board.now p.old) (state_of board.now p.new) }
    ensures dec { (agent_record board.now agent p.new).dec ≡ result }
    ensures few { AtMostMore agent 1 (shows p.old).journal (shows p.new).journal }
{
    let null = RowLink {
        to: None,
        mark: false,
    };
    let link = board.link_store(p, row, number, null);
    named(link / 2)
}

// Empties slot 0, and takes in what was handed over beside it meanwhile.
pub(crate) fn leave_slot_zero<D: Discipline>(
    board: &MachineBoard<D>,
    p: &mut MachineBoardPass<D>,
    agent: u32,
)
    requires pass { IsPassOf board.now agent p.old }
    requires calm { IsSettling (agent_record board.now agent p.old) }
    requires used { is_empty (slot_of (agent_record board.now agent p.old) 0) ≡ false }
    requires dec { (agent_record board.now agent p.old).dec ≡ None }
    requires due { (agent_record board.now agent p.old).due ≡ None }
    ensures pass { IsPassOf board.now agent p.new }
    ensures goes { Goes (board_bounds board.now) agent 0 (shows p.old) (shows p.new) }
    ensures still { IsStill (agent_record board.now agent p.new) }
    ensures kept { SameTasks (agent_record board.now agent p.old) (agent_record board.now agent p.new) }
    ensures few { AtMostMore agent 2 (shows p.old).journal (shows p.new).journal }
{
    let _ = board.clear(p, 0);
    let _ = board.take_in(p, 0);
}

// Takes in what was handed over beside a slot.
pub(crate) fn take_in<D: Discipline>(
    board: &MachineBoard<D>,
    p: &mut MachineBoardPass<D>,
    agent: u32,
    k: u32,
)
    requires pass { IsPassOf board.now agent p.old }
    requires between { IsBetweenRounds (agent_record board.now agent p.old) }
    requires slot { k < 8 }
    ensures pass { IsPassOf board.now agent p.new }
    ensures between { IsBetweenRounds (agent_record board.now agent p.new) }
    ensures takes { TakesInOne (board_bounds board.now) agent k (shows p.old) (shows p.new) }
    ensures taken_in { HasTakenIn agent k (shows p.old).journal (shows p.new).journal }
    ensures few { AtMostMore agent 1 (shows p.old).journal (shows p.new).journal }
{
    let _ = board.take_in(p, k);
}

// Tries the bit of a row that is due, in the course of a settling.
pub(crate) fn settle_due<D: Discipline>(
    board: &MachineBoard<D>,
    p: &mut MachineBoardPass<D>,
    agent: u32,
    due: Option<Reading>,
)
    requires pending { (agent_record board.now agent p.old).due ≡ due }
    requires pass { IsPassOf board.now agent p.old }
    requires calm { IsSettling (agent_record board.now agent p.old) }
    requires dec { (agent_record board.now agent p.old).dec ≡ None }
    requires scan { (agent_record board.now agent p.old).scan ≡ None }
    requires due { DueFits (state_of board.now p.old).bounds (agent_record board.now agent p.old).due }
    ensures pass { IsPassOf board.now agent p.new }
    ensures goes { Goes (board_bounds board.now) agent 0 (shows p.old) (shows p.new) }
    ensures calm { IsSettling (agent_record board.now agent p.new) }
    ensures dec { (agent_record board.now agent p.new).dec ≡ None }
    ensures due { (agent_record board.now agent p.new).due ≡ None }
    ensures slots { (agent_record board.now agent p.new).slots ≡ (agent_record board.now agent p.old).slots }
    ensures kept { SameTasks (agent_record board.now agent p.old) (agent_record board.now agent p.new) }
    ensures few { AtMostMore agent 1 (shows p.old).journal (shows p.new).journal }
{
    if let Some(seen) = due {
        let (row, sequence) = (seen.row, seen.number);
        settle_step(board, p, agent, Op::SetRetired { row, sequence });
    }
}

// Clears the bit of a scanned row that is linked again.
pub(crate) fn unretire_scanned<D: Discipline>(
    board: &MachineBoard<D>,
    p: &mut MachineBoardPass<D>,
    agent: u32,
    row: u32,
)
    requires pass { IsPassOf board.now agent p.old }
    requires still { IsStill (agent_record board.now agent p.old) }
    requires scans { scans (agent_record board.now agent p.old).scan row ≡ true }
    requires linked { scan_empty (agent_record board.now agent p.old).scan ≡ false }
    requires doom { (agent_record board.now agent p.old).doom ≡ None }
    ensures pass { IsPassOf board.now agent p.new }
    ensures opens { OpensTurn (board_bounds board.now) agent 1 (shows p.old) (shows p.new) }
    ensures between { IsBetweenRounds (agent_record board.now agent p.new) }
    ensures few { AtMostMore agent 5 (shows p.old).journal (shows p.new).journal }
{
    settle_step(board, p, agent, Op::Arm { row });
    let word = settle_step(board, p, agent, Op::Unretire { row });
    settle_due(board, p, agent, due_by(row, word.wrapping_sub(RETIRED)));
    leave_slot_zero(board, p, agent);
}

// Takes the link that was taken out from its target's count.
pub(crate) fn settle_decrement<D: Discipline>(
    board: &MachineBoard<D>,
    p: &mut MachineBoardPass<D>,
    agent: u32,
    target: Option<u32>,
)
    requires pending { (agent_record board.now agent p.old).dec ≡ target }
    requires pass { IsPassOf board.now agent p.old }
    requires calm { IsSettling (agent_record board.now agent p.old) }
    requires zero { slot_of (agent_record board.now agent p.old) 0 ≡ Empty }
    requires due { (agent_record board.now agent p.old).due ≡ None }
    requires scan { (agent_record board.now agent p.old).scan ≡ None }
    ensures pass { IsPassOf board.now agent p.new }
    ensures goes { Goes (board_bounds board.now) agent 0 (shows p.old) (shows p.new) }
    ensures still { IsStill (agent_record board.now agent p.new) }
    ensures kept { SameTasks (agent_record board.now agent p.old) (agent_record board.now agent p.new) }
    ensures few { AtMostMore agent 5 (shows p.old).journal (shows p.new).journal }
{
    if let Some(row) = target {
        settle_step(board, p, agent, Op::Arm { row });
        let word = settle_step(board, p, agent, Op::Dec { row });
        settle_due(board, p, agent, due_by(row, word.wrapping_add(DECREMENT)));
        leave_slot_zero(board, p, agent);
    }
}

// Takes the links out of a doomed row, in order, each from its target's count.
pub(crate) fn take_links_out<D: Discipline>(
    board: &MachineBoard<D>,
    p: &mut MachineBoardPass<D>,
    agent: u32,
    row: u32,
)
    requires pass { IsPassOf board.now agent p.old }
    requires still { IsStill (agent_record board.now agent p.old) }
    requires scan { (agent_record board.now agent p.old).scan ≡ None }
    requires doom { IsDoomOf row 0 (agent_record board.now agent p.old).doom }
    ensures pass { IsPassOf board.now agent p.new }
    ensures goes { Goes (board_bounds board.now) agent 0 (shows p.old) (shows p.new) }
    ensures still { IsStill (agent_record board.now agent p.new) }
    ensures scan { (agent_record board.now agent p.new).scan ≡ None }
    ensures doom { IsDoomOf row (board_bounds board.now).links (agent_record board.now agent p.new).doom }
    ensures few { AtMostMore agent (6 * (board_bounds board.now).links) (shows p.old).journal (shows p.new).journal }
{
    let links = board.shape().links();
    for number in 0..links {
        let target = take_link_out(board, p, agent, row, number);
        settle_decrement(board, p, agent, target);
    }
}

// Frees a doomed row.
pub(crate) fn free_doomed<D: Discipline>(
    board: &MachineBoard<D>,
    p: &mut MachineBoardPass<D>,
    agent: u32,
    row: u32,
)
    requires pass { IsPassOf board.now agent p.old }
    requires still { IsStill (agent_record board.now agent p.old) }
    requires scan { (agent_record board.now agent p.old).scan ≡ None }
    requires doom { IsDoomOf row 0 (agent_record board.now agent p.old).doom }
    ensures pass { IsPassOf board.now agent p.new }
    ensures goes { Goes (board_bounds board.now) agent 1 (shows p.old) (shows p.new) }
    ensures between { IsBetweenRounds (agent_record board.now agent p.new) }
    ensures few { AtMostMore agent (6 * (board_bounds board.now).links + 2) (shows p.old).journal (shows p.new).journal }
{
    take_links_out(board, p, agent, row);
    settle_step(board, p, agent, Op::Unretire { row });
    settle_step(board, p, agent, Op::Free { row });
}
