//! One step of a board's machine.

ghost use Rattle.std.specs.Prelude.{◌≡◌};
ghost use Rattle.orc_shared_words.specs.Steps.{Extends, IsAllowedLater};
ghost use Rattle.orc_plain_board.specs.{Machine.{Allowed}, Rules.{plain_rules}, Views.{board_bounds, board_numbers}};

use crate::machine::PlainOp;
use crate::pass::{PlainBoard, PlainBoardPass};
use orc_heap::Discipline;

impl<D: Discipline> PlainBoard<D> {
    // Makes one step, which leaves the pass's own notes of its rows as they are.
    #[inline(always)]
    pub(crate) fn step(&self, p: &mut PlainBoardPass<D>, op: PlainOp, note: &Option<D::Note>) -> u64
        requires table { p.old.pass.seat.table_id ≡ self.now.words.table.shared.table_id }
        requires allowed { Allowed (board_bounds self.now) op }
        requires licensed { IsAllowedLater plain_rules self.now.words.shape (D.holds (board_numbers self.now)) (D.may (board_numbers self.now))
            p.old.pass.seat.me.0 p.old.pass.agent op note.now }
        ensures table { p.new.pass.seat.table_id ≡ p.old.pass.seat.table_id }
        ensures agent { p.new.pass.agent ≡ p.old.pass.agent }
        ensures fresh { p.new.fresh ≡ p.old.fresh }
        ensures looked { p.new.looked ≡ p.old.looked }
        ensures step { Extends plain_rules self.now.words.shape (D.holds (board_numbers self.now)) (D.may (board_numbers self.now)) op note.now
            p.old.pass.seat.me.0 result p.new.pass.seat.me.0 }
    {
        self.words.step(&mut p.pass, &op, note)
    }
}
