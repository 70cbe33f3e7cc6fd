//! Steps on counter words, and scans.

ghost use Rattle.std.specs.Prelude.{◌≡◌};
ghost use Rattle.orc_core.specs.declared.ops.Op.{Op};
ghost use Rattle.orc_machine_board.specs.{Kinds.{MayDo, MakesPlain}, Views.{Belongs, board_bounds, shows}};

use crate::board::{MachineBoard, MachineBoardPass};
use orc_core::{CounterUse, Op};
use orc_heap::Discipline;

impl<D: Discipline> MachineBoard<D> {
    /// Protects, in slot 0, a row that is to be decremented or unretired.
    pub fn arm(&self, p: &mut MachineBoardPass<D>, row: u32) -> u64
        requires belongs { Belongs self.now p.old }
        requires allowed { MayDo (board_bounds self.now) (shows p.old) (Op.Arm row) }
        ensures belongs { Belongs self.now p.new }
        ensures made { MakesPlain (board_bounds self.now) (Op.Arm row) (shows p.old) result (shows p.new) }
    {
        self.plain_step(p, Op::Arm { row }, None)
    }

    /// Counts a link that was made.
    pub fn inc(&self, p: &mut MachineBoardPass<D>, row: u32) -> u64
        requires belongs { Belongs self.now p.old }
        requires allowed { MayDo (board_bounds self.now) (shows p.old) (Op.Inc row) }
        ensures belongs { Belongs self.now p.new }
        ensures made { MakesPlain (board_bounds self.now) (Op.Inc row) (shows p.old) result (shows p.new) }
    {
        self.plain_step(p, Op::Inc { row }, None)
    }

    /// Counts a link that was taken out.
    pub fn dec(&self, p: &mut MachineBoardPass<D>, row: u32) -> u64
        requires belongs { Belongs self.now p.old }
        requires allowed { MayDo (board_bounds self.now) (shows p.old) (Op.Dec row) }
        ensures belongs { Belongs self.now p.new }
        ensures made { MakesPlain (board_bounds self.now) (Op.Dec row) (shows p.old) result (shows p.new) }
    {
        self.plain_step(p, Op::Dec { row }, None)
    }

    /// Counts a link that was taken out, to a row that some slot holds.
    pub fn dec_held(&self, p: &mut MachineBoardPass<D>, row: u32) -> u64
        requires belongs { Belongs self.now p.old }
        requires allowed { MayDo (board_bounds self.now) (shows p.old) (Op.DecHeld row) }
        ensures belongs { Belongs self.now p.new }
        ensures made { MakesPlain (board_bounds self.now) (Op.DecHeld row) (shows p.old) result (shows p.new) }
    {
        self.plain_step(p, Op::DecHeld { row }, None)
    }

    /// Tries the retired bit of a row. Answers 1 if it is set, and else 0.
    pub fn set_retired(&self, p: &mut MachineBoardPass<D>, row: u32, sequence: u64) -> u64
        requires belongs { Belongs self.now p.old }
        requires allowed { MayDo (board_bounds self.now) (shows p.old) (Op.SetRetired row sequence) }
        ensures belongs { Belongs self.now p.new }
        ensures made { MakesPlain (board_bounds self.now) (Op.SetRetired row sequence) (shows p.old) result (shows p.new) }
    {
        self.plain_step(p, Op::SetRetired { row, sequence }, None)
    }

    /// Reads a counter word.
    pub fn counter_load(&self, p: &mut MachineBoardPass<D>, row: u32, how: CounterUse) -> u64
        requires belongs { Belongs self.now p.old }
        requires allowed { MayDo (board_bounds self.now) (shows p.old) (Op.CounterLoad row how) }
        ensures belongs { Belongs self.now p.new }
        ensures made { MakesPlain (board_bounds self.now) (Op.CounterLoad row how) (shows p.old) result (shows p.new) }
    {
        self.plain_step(p, Op::CounterLoad { row, how }, None)
    }

    /// Clears the retired bit.
    pub fn unretire(&self, p: &mut MachineBoardPass<D>, row: u32) -> u64
        requires belongs { Belongs self.now p.old }
        requires allowed { MayDo (board_bounds self.now) (shows p.old) (Op.Unretire row) }
        ensures belongs { Belongs self.now p.new }
        ensures made { MakesPlain (board_bounds self.now) (Op.Unretire row) (shows p.old) result (shows p.new) }
    {
        self.plain_step(p, Op::Unretire { row }, None)
    }

    /// Reads the slot at a scan place.
    pub fn slot_look(&self, p: &mut MachineBoardPass<D>, k: u32) -> u64
        requires belongs { Belongs self.now p.old }
        requires allowed { MayDo (board_bounds self.now) (shows p.old) (Op.SlotLook k) }
        ensures belongs { Belongs self.now p.new }
        ensures made { MakesPlain (board_bounds self.now) (Op.SlotLook k) (shows p.old) result (shows p.new) }
    {
        self.plain_step(p, Op::SlotLook { k }, None)
    }

    /// Puts the scanned row into the handover word at a scan place.
    pub fn hand(&self, p: &mut MachineBoardPass<D>, k: u32) -> u64
        requires belongs { Belongs self.now p.old }
        requires allowed { MayDo (board_bounds self.now) (shows p.old) (Op.Hand k) }
        ensures belongs { Belongs self.now p.new }
        ensures made { MakesPlain (board_bounds self.now) (Op.Hand k) (shows p.old) result (shows p.new) }
    {
        self.plain_step(p, Op::Hand { k }, None)
    }

    /// Gives a row back.
    pub fn free(&self, p: &mut MachineBoardPass<D>, row: u32) -> u64
        requires belongs { Belongs self.now p.old }
        requires allowed { MayDo (board_bounds self.now) (shows p.old) (Op.Free row) }
        ensures belongs { Belongs self.now p.new }
        ensures made { MakesPlain (board_bounds self.now) (Op.Free row) (shows p.old) result (shows p.new) }
    {
        self.plain_step(p, Op::Free { row }, None)
    }
}
