//! One step of a board's machine.

ghost use Rattle.std.specs.Prelude.{◌≡◌, None, true};
ghost use Rattle.orc_shared_words.specs.Steps.{IsAllowedLater};
ghost use Rattle.orc_sound.specs.Journals.{IsWanted};
ghost use Rattle.orc_machine_board.specs.{
  Kinds.{MayDo, is_plain_kind, wants},
  Rules.{RequestAllowed, counted_rules},
  Views.{Belongs, Makes, board_bounds, board_numbers, shows},
};

use crate::board::{MachineBoard, MachineBoardPass};
use crate::machine::Request;
use orc_core::{Op, action_of};
use orc_heap::Discipline;
use orc_words::RowLink;

impl<D: Discipline> MachineBoard<D> {
    // Makes a step, and answers what `apply` does.
    #[inline(always)]
    pub(crate) fn step(
        &self,
        p: &mut MachineBoardPass<D>,
        request: Request,
        note: &Option<D::Note>,
    ) -> u64
        requires belongs { Belongs self.now p.old }
        requires allowed { RequestAllowed (board_bounds self.now) (shows p.old).agent request (shows p.old).record_is }
        requires licensed { IsAllowedLater counted_rules self.now.words.shape (D.holds (board_numbers self.now)) (D.may (board_numbers self.now))
            p.old.pass.seat.me.0 p.old.pass.agent request note.now }
        ensures belongs { Belongs self.now p.new }
        ensures makes { Makes (board_bounds self.now) request note.now (shows p.old) result (shows p.new) }
    {
        let action = action_of(p.pass.agent, &request.op, &p.pass.own);
        let n = self.words.step(&mut p.pass, &request, note);
        action.operation.answer(n)
    }

    /// Makes a step that changes no link, without a note, and answers what `apply` does. The calls that are named for the kinds
    /// of step make it so.
    #[inline(always)]
    pub fn plain_step(&self, p: &mut MachineBoardPass<D>, op: Op, want: Option<RowLink>) -> u64
        requires belongs { Belongs self.now p.old }
        requires plain { is_plain_kind op ≡ true }
        requires allowed { MayDo (board_bounds self.now) (shows p.old) op }
        requires wanted { IsWanted (shows p.old).record_is op want }
        ensures belongs { Belongs self.now p.new }
        ensures makes { Makes (board_bounds self.now) (wants op want) None (shows p.old) result (shows p.new) }
    {
        self.step(p, Request { op, want }, &None)
    }
}
