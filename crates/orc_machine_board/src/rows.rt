//! Steps on gates, values, slots and handover words.

ghost use Rattle.std.specs.Prelude.{◌≡◌};
ghost use Rattle.orc_core.specs.declared.ops.Op.{Op};
ghost use Rattle.orc_machine_board.specs.{Kinds.{MayDo, MakesPlain}, Views.{Belongs, board_bounds, shows}};

use crate::board::{MachineBoard, MachineBoardPass};
use orc_core::Op;
use orc_heap::Discipline;

impl<D: Discipline> MachineBoard<D> {
    /// Reads a row's gate.
    pub fn gate_look(&self, p: &mut MachineBoardPass<D>, row: u32) -> u64
        requires belongs { Belongs self.now p.old }
        requires allowed { MayDo (board_bounds self.now) (shows p.old) (Op.GateLook row) }
        ensures belongs { Belongs self.now p.new }
        ensures made { MakesPlain (board_bounds self.now) (Op.GateLook row) (shows p.old) result (shows p.new) }
    {
        self.plain_step(p, Op::GateLook { row }, None)
    }

    /// Takes a row that was seen free. Answers 1 if it is taken, and else 0.
    pub fn gate_take(&self, p: &mut MachineBoardPass<D>, row: u32) -> u64
        requires belongs { Belongs self.now p.old }
        requires allowed { MayDo (board_bounds self.now) (shows p.old) (Op.GateTake row) }
        ensures belongs { Belongs self.now p.new }
        ensures made { MakesPlain (board_bounds self.now) (Op.GateTake row) (shows p.old) result (shows p.new) }
    {
        self.plain_step(p, Op::GateTake { row }, None)
    }

    /// Stores the first (0) or second (1) value of the fresh row.
    pub fn fill(&self, p: &mut MachineBoardPass<D>, row: u32, which: u32, value: u64) -> u64
        requires belongs { Belongs self.now p.old }
        requires allowed { MayDo (board_bounds self.now) (shows p.old) (Op.Fill row which value) }
        ensures belongs { Belongs self.now p.new }
        ensures made { MakesPlain (board_bounds self.now) (Op.Fill row which value) (shows p.old) result (shows p.new) }
    {
        self.plain_step(p, Op::Fill { row, which, value }, None)
    }

    /// Reads the first (0) or second (1) value of a row.
    pub fn read(&self, p: &mut MachineBoardPass<D>, row: u32, which: u32) -> u64
        requires belongs { Belongs self.now p.old }
        requires allowed { MayDo (board_bounds self.now) (shows p.old) (Op.Read row which) }
        ensures belongs { Belongs self.now p.new }
        ensures made { MakesPlain (board_bounds self.now) (Op.Read row which) (shows p.old) result (shows p.new) }
    {
        self.plain_step(p, Op::Read { row, which }, None)
    }

    /// Names a row in a slot.
    pub fn publish(&self, p: &mut MachineBoardPass<D>, slot: u32, row: u32) -> u64
        requires belongs { Belongs self.now p.old }
        requires allowed { MayDo (board_bounds self.now) (shows p.old) (Op.Publish slot row) }
        ensures belongs { Belongs self.now p.new }
        ensures made { MakesPlain (board_bounds self.now) (Op.Publish slot row) (shows p.old) result (shows p.new) }
    {
        self.plain_step(p, Op::Publish { slot, row }, None)
    }

    /// Names a row in a slot over the row that the slot names.
    pub fn move_on(&self, p: &mut MachineBoardPass<D>, slot: u32, row: u32) -> u64
        requires belongs { Belongs self.now p.old }
        requires allowed { MayDo (board_bounds self.now) (shows p.old) (Op.MoveOn slot row) }
        ensures belongs { Belongs self.now p.new }
        ensures made { MakesPlain (board_bounds self.now) (Op.MoveOn slot row) (shows p.old) result (shows p.new) }
    {
        self.plain_step(p, Op::MoveOn { slot, row }, None)
    }

    /// Empties a slot.
    pub fn clear(&self, p: &mut MachineBoardPass<D>, slot: u32) -> u64
        requires belongs { Belongs self.now p.old }
        requires allowed { MayDo (board_bounds self.now) (shows p.old) (Op.Clear slot) }
        ensures belongs { Belongs self.now p.new }
        ensures made { MakesPlain (board_bounds self.now) (Op.Clear slot) (shows p.old) result (shows p.new) }
    {
        self.plain_step(p, Op::Clear { slot }, None)
    }

    /// Reads the handover word beside an empty slot.
    pub fn handover_look(&self, p: &mut MachineBoardPass<D>, slot: u32) -> u64
        requires belongs { Belongs self.now p.old }
        requires allowed { MayDo (board_bounds self.now) (shows p.old) (Op.HandoverLook slot) }
        ensures belongs { Belongs self.now p.new }
        ensures made { MakesPlain (board_bounds self.now) (Op.HandoverLook slot) (shows p.old) result (shows p.new) }
    {
        self.plain_step(p, Op::HandoverLook { slot }, None)
    }

    /// Empties the handover word beside a slot.
    pub fn take_in(&self, p: &mut MachineBoardPass<D>, slot: u32) -> u64
        requires belongs { Belongs self.now p.old }
        requires allowed { MayDo (board_bounds self.now) (shows p.old) (Op.TakeIn slot) }
        ensures belongs { Belongs self.now p.new }
        ensures made { MakesPlain (board_bounds self.now) (Op.TakeIn slot) (shows p.old) result (shows p.new) }
    {
        self.plain_step(p, Op::TakeIn { slot }, None)
    }
}
