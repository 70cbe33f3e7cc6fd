//! Calls on gates and values.

ghost use Rattle.std.specs.Prelude.{◌≡◌, ◌<◌, ◌≤◌, None};
ghost use Rattle.orc_plain_board.specs.{
  BoardCalls.{GivesRow, HasNoFresh, IsFresh, KeepsFresh, KeepsLook, KnowsRow, LosesRow, MakesFill, MakesNoEvent, ReadsRow, SawFree},
  Calls.{IsGateWord, seen_free},
  Views.{Belongs, board_bounds, shows},
};

use crate::machine::PlainOp;
use crate::pass::{PlainBoard, PlainBoardPass};
use orc_heap::Discipline;

impl<D: Discipline> PlainBoard<D> {
    /// Reads a row's gate word.
    pub fn gate_look(&self, p: &mut PlainBoardPass<D>, row: u32) -> u64
        requires belongs { Belongs self.now p.old }
        requires row { row < (board_bounds self.now).rows }
        ensures belongs { Belongs self.now p.new }
        ensures gate { IsGateWord (shows self.now p.new).rows row result }
        ensures adds { MakesNoEvent self.now p.old p.new }
        ensures looked { (shows self.now p.new).looked ≡ seen_free row result }
        ensures fresh { KeepsFresh self.now p.old p.new }
    {
        let gate = self.step(p, PlainOp::GateLook { row }, &None);
        p.looked = if gate % 2 == 0 { Some(row) } else { None };
        gate
    }

    /// Takes a row out, if it is still free. Answers 1 if so, and else 0.
    pub fn gate_take(&self, p: &mut PlainBoardPass<D>, row: u32) -> u64
        requires belongs { Belongs self.now p.old }
        requires row { row < (board_bounds self.now).rows }
        requires looked { SawFree self.now p.old row }
        requires fresh { HasNoFresh self.now p.old }
        ensures belongs { Belongs self.now p.new }
        ensures answer { result ≤ 1 }
        ensures won { result ≡ 1 → GivesRow self.now p.old p.new row }
        ensures lost { result ≡ 0 → LosesRow self.now p.old p.new row }
        ensures looked { (shows self.now p.new).looked ≡ None }
    {
        let gate = self.step(p, PlainOp::GateTake { row }, &None);
        p.looked = None;
        if gate == 0 {
            p.fresh = Some(row);
            return 1;
        }
        0
    }

    /// Writes the fresh row's first (0) or second (1) value. Answers the value.
    pub fn fill(&self, p: &mut PlainBoardPass<D>, row: u32, which: u32, value: u64) -> u64
        requires belongs { Belongs self.now p.old }
        requires row { row < (board_bounds self.now).rows }
        requires fresh { IsFresh self.now p.old row }
        requires which { which < 2 }
        ensures belongs { Belongs self.now p.new }
        ensures answer { result ≡ value }
        ensures adds { MakesFill self.now p.old p.new row which value }
        ensures looked { KeepsLook self.now p.old p.new }
        ensures fresh { KeepsFresh self.now p.old p.new }
    {
        self.step(p, PlainOp::Fill { row, which, value }, &None)
    }

    /// Reads a row's first (0) or second (1) value.
    pub fn read(&self, p: &mut PlainBoardPass<D>, row: u32, which: u32) -> u64
        requires belongs { Belongs self.now p.old }
        requires row { KnowsRow self.now p.old row }
        requires which { which < 2 }
        ensures belongs { Belongs self.now p.new }
        ensures value { ReadsRow self.now p.old p.new row which result }
        ensures adds { MakesNoEvent self.now p.old p.new }
        ensures looked { KeepsLook self.now p.old p.new }
        ensures fresh { KeepsFresh self.now p.old p.new }
    {
        self.step(p, PlainOp::Read { row, which }, &None)
    }
}
