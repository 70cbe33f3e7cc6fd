//! The board whose rows are never given again, under a discipline that allows all that fits, and worked examples of its definitions.

ghost use Rattle.std.specs.Prelude.{◌≡◌, ◌<◌, All, IfSome, MatchBool, None, Some, false};
ghost use Rattle.orc_plain_board.specs.Views.{Belongs, board_bounds, shows};

use orc_heap::{AnyFit, Seed};
use orc_plain_board::{PlainBoard, PlainBoardPass};
use orc_words::{RowLink, Shape, Word};
use std::alloc::Global;

mod examples;

type Board = PlainBoard<AnyFit>;

type Pass = PlainBoardPass<AnyFit>;

const NULL: RowLink = RowLink {
    to: None,
    mark: false,
};

fn to_row(row: u32) -> RowLink
    ensures { result ≡ record { to = Some row; mark = false } }
{
    RowLink {
        to: Some(row),
        mark: false,
    }
}

// Takes the row out, if it is free.
fn take_row(board: &Board, p: &mut Pass, row: u32) -> bool
    requires belongs { Belongs board.now p.old }
    requires row { row < (board_bounds board.now).rows }
    requires fresh { (shows board.now p.old).fresh ≡ None }
    ensures belongs { Belongs board.now p.new }
    ensures fresh { MatchBool result ((shows board.now p.new).fresh ≡ Some row) ((shows board.now p.new).fresh ≡ None) }
{
    let gate = board.gate_look(p, row);
    if gate != 0 {
        return false;
    }
    board.gate_take(p, row) == 1
}

// Fills the fresh row, and tells whether its values are read so.
fn fill_row(board: &Board, p: &mut Pass, row: u32) -> bool
    requires belongs { Belongs board.now p.old }
    requires row { row < (board_bounds board.now).rows }
    requires fresh { (shows board.now p.old).fresh ≡ Some row }
    ensures belongs { Belongs board.now p.new }
    ensures fresh { (shows board.now p.new).fresh ≡ Some row }
{
    board.fill(p, row, 0, 7);
    board.fill(p, row, 1, 8);
    board.link_store(p, row, 0, NULL);
    board.seen_by(p);
    let first = board.read(p, row, 0);
    board.seen_by(p);
    let second = board.read(p, row, 1);
    (first, second) == (7, 8)
}

// Links the fresh row from root 0, where that is null.
fn link_row(board: &Board, p: &mut Pass, row: u32) -> bool
    requires belongs { Belongs board.now p.old }
    requires roots { 0 < (board_bounds board.now).roots }
    requires fresh { (shows board.now p.old).fresh ≡ Some row }
    ensures belongs { Belongs board.now p.new }
    ensures fresh { MatchBool result ((shows board.now p.new).fresh ≡ None) ((shows board.now p.new).fresh ≡ Some row) }
{
    board.seen_by(p);
    board.link_cas(p, Word::Root(0), NULL, to_row(row), Some(9)) == 1
}

// Takes out each row that is free, fills it, and links it from root 0, where that is null. Answers how many rows were taken and
// read as they were filled.
fn work(board: &Board, p: &mut Pass) -> u32
    requires belongs { Belongs board.now p.old }
    requires roots { 0 < (board_bounds board.now).roots }
    requires fresh { (shows board.now p.old).fresh ≡ None }
    ensures belongs { Belongs board.now p.new }
    ensures fresh { (shows board.now p.new).fresh ≡ None }
{
    let mut taken = 0;
    for row in 0..board.shape().rows() {
        if take_row(board, p, row) {
            if fill_row(board, p, row) {
                taken += 1;
            }
            if !link_row(board, p, row) {
                board.give_up(p, row);
            }
        }
    }
    taken
}

// Loads the link of root 0 twice, the second time with a wanted link and a note.
fn look_at_root(board: &Board, p: &mut Pass) -> (u64, u64)
    requires belongs { Belongs board.now p.old }
    requires roots { 0 < (board_bounds board.now).roots }
    ensures belongs { Belongs board.now p.new }
    ensures fresh { (shows board.now p.new).fresh ≡ (shows board.now p.old).fresh }
{
    let found = board.link_load(p, Word::Root(0), None, None);
    let again = board.link_load(p, Word::Root(0), Some(NULL), Some(5));
    (found, again)
}

// Answers the last of the board's new passes.
fn next_pass(board: &Board, passes: &mut Vec<Pass>) -> Option<Pass>
    requires belongs { All (λ p. Belongs board.now p) passes.old.items }
    requires fresh { All (λ p. (shows board.now p).fresh ≡ None) passes.old.items }
    ensures belongs { All (λ p. Belongs board.now p) passes.new.items }
    ensures fresh { All (λ p. (shows board.now p).fresh ≡ None) passes.new.items }
    ensures popped { IfSome result (λ p. Belongs board.now p) }
    ensures idle { IfSome result (λ p. (shows board.now p).fresh ≡ None) }
{
    passes.pop()
}

// What is told: what each look at root 0 found, before the work and after it, how many rows were taken, and the gate of row 1.
type Told = ((u64, u64), (u64, u64), u32, u64);

// Lets the first agent work while the other looks before and afterwards; and the first learns from the other and takes it in.
fn make_each_call(board: &Board, first: &mut Pass, mut second: Pass) -> Told
    requires first { Belongs board.now first.old × ((shows board.now first.old).fresh ≡ None) }
    requires second { Belongs board.now second }
    requires shape { (1 < (board_bounds board.now).rows) × (0 < (board_bounds board.now).roots) }
    ensures first { Belongs board.now first.new }
{
    let before = look_at_root(board, &mut second);
    let taken = work(board, first);
    let after = look_at_root(board, &mut second);
    board.learn(first, &mut second);
    board.absorb(first, second);
    (before, after, taken, board.gate_look(first, 1))
}

// Lets two agents of a new board of two rows do so. Answers what is told, both agents, and the fresh row of the first then.
fn two_make_each_call(alloc: Global) -> Option<(Told, (u32, u32), Option<u32>)> {
    let Ok(shape) = Shape::new(2, 1, 2, 8) else {
        return None;
    };
    let Ok((board, mut passes)) = Board::make(alloc, &shape, Seed::Empty) else {
        return None;
    };
    let second = next_pass(&board, &mut passes)?;
    let mut first = next_pass(&board, &mut passes)?;
    let agents = (first.agent(), second.agent());
    let told = make_each_call(&board, &mut first, second);
    Some((told, agents, first.fresh()))
}

// One agent takes both rows, links the first and gives the second up, as the other sees.
#[test]
fn one_agent_makes_each_call(rt: HostRuntime) {
    let told = two_make_each_call(rt.alloc());
    assert_eq!(rt; told, Some((((0, 0), (2, 2), 2, 3), (0, 1), None)));
}
