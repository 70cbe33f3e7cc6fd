//! Steps on links.

ghost use Rattle.std.specs.Prelude.{◌≡◌, None, Some, false, true};
ghost use Rattle.orc_core.specs.{RecordParts.{names}, declared.ops.Op.{Op}};
ghost use Rattle.orc_sound.specs.Journals.{IsWanted};
ghost use Rattle.orc_words.specs.declared.packed.RowLink.{RowLink};
ghost use Rattle.orc_machine_board.specs.{
  Kinds.{MayDo, asks, wants},
  Licences.{AimAllowed, LookAllowed, MoveAllowed},
  Views.{Belongs, Makes, board_bounds, board_numbers, shows},
};

use crate::board::{MachineBoard, MachineBoardPass};
use crate::machine::Request;
use orc_core::Op;
use orc_heap::Discipline;
use orc_words::{RowLink, Word};

impl<D: Discipline> MachineBoard<D> {
    /// Reads a link word. A note goes to the event where the wanted link is found.
    #[inline(always)]
    pub fn link_load(
        &self,
        p: &mut MachineBoardPass<D>,
        place: Word,
        slot: Option<u32>,
        want: Option<RowLink>,
        note: Option<D::Note>,
    ) -> u64
        requires belongs { Belongs self.now p.old }
        requires allowed { MayDo (board_bounds self.now) (shows p.old) (Op.LinkLoad place slot) }
        requires wanted { IsWanted (shows p.old).record_is (Op.LinkLoad place slot) want }
        requires noted { want ≡ None → note ≡ None }
        requires licensed { (link : RowLink) (said : D.Note) → want ≡ Some link → note ≡ Some said
            → LookAllowed (D.may (board_numbers self.now)) (board_bounds self.now) (shows p.old) place link note }
        ensures belongs { Belongs self.now p.new }
        ensures makes { Makes (board_bounds self.now) (wants (Op.LinkLoad place slot) want) note (shows p.old) result (shows p.new) }
    {
        let op = Op::LinkLoad { place, slot };
        self.step(p, Request { op, want }, &note)
    }

    /// Changes a link word that is `from`. Answers 1 if it was, and else 0. A note goes to the event where it was.
    #[inline(always)]
    pub fn link_cas(
        &self,
        p: &mut MachineBoardPass<D>,
        place: Word,
        from: RowLink,
        to: RowLink,
        note: Option<D::Note>,
    ) -> u64
        requires belongs { Belongs self.now p.old }
        requires allowed { MayDo (board_bounds self.now) (shows p.old) (Op.LinkCas place from to) }
        requires licensed { MoveAllowed (D.may (board_numbers self.now)) (board_bounds self.now) (shows p.old) place from to note }
        ensures belongs { Belongs self.now p.new }
        ensures makes { Makes (board_bounds self.now) (asks (Op.LinkCas place from to)) note (shows p.old) result (shows p.new) }
    {
        let op = Op::LinkCas { place, from, to };
        self.step(p, Request { op, want: None }, &note)
    }

    /// Swaps the fresh row's link of this number, 0 or 1, or takes that out of a doomed row. Answers the word that was there.
    pub fn link_store(
        &self,
        p: &mut MachineBoardPass<D>,
        row: u32,
        number: u32,
        link: RowLink,
    ) -> u64
        requires belongs { Belongs self.now p.old }
        requires allowed { MayDo (board_bounds self.now) (shows p.old) (Op.LinkStore row link number) }
        requires without_mark { link.mark ≡ false }
        requires licensed { names (shows p.old).record_is.fresh row ≡ true
            → AimAllowed (D.may (board_numbers self.now)) (board_bounds self.now) (shows p.old) row number link.to }
        ensures belongs { Belongs self.now p.new }
        ensures makes { Makes (board_bounds self.now) (asks (Op.LinkStore row link number)) None (shows p.old) result (shows p.new) }
    {
        let op = Op::LinkStore { row, number, link };
        self.step(p, Request { op, want: None }, &None)
    }
}
