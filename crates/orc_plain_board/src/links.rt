//! Calls on links.

ghost use Rattle.std.specs.Prelude.{◌≡◌, ◌≢◌, ◌<◌, ◌≤◌, None, Some, false};
ghost use Rattle.orc_words.specs.{Packed.{link_word}, declared.packed.RowLink.{RowLink}};
ghost use Rattle.orc_plain_board.specs.{
  BoardCalls.{FailsToMove, FindsWord, IsFresh, KeepsFresh, KeepsFreshUnless, KeepsLook, KnowsLink, KnowsPlace, MakesLook, MakesMove, MayAim, MayLook, MayMove, MissesLink, ReplacesWord},
  Calls.{unless_linked},
  Views.{Belongs, board_bounds},
};

use crate::machine::PlainOp;
use crate::pass::{PlainBoard, PlainBoardPass};
use orc_heap::Discipline;
use orc_words::{RowLink, Word, pack_link};

impl<D: Discipline> PlainBoard<D> {
    /// Reads a link word. A note goes to the event where the wanted link is found.
    #[inline(always)]
    pub fn link_load(
        &self,
        p: &mut PlainBoardPass<D>,
        place: Word,
        want: Option<RowLink>,
        note: Option<D::Note>,
    ) -> u64
        requires belongs { Belongs self.now p.old }
        requires place { KnowsPlace self.now p.old place }
        requires want { (link : RowLink) → want ≡ Some link → KnowsLink self.now p.old link }
        requires noted { want ≡ None → note ≡ None }
        requires allowed { (link : RowLink) (said : D.Note) → want ≡ Some link → note ≡ Some said
            → MayLook self.now p.old place link note }
        ensures belongs { Belongs self.now p.new }
        ensures finds { want ≡ None → FindsWord self.now p.old p.new place result }
        ensures meets { (link : RowLink) → want ≡ Some link → result ≡ link_word link
            → MakesLook self.now p.old p.new place link note }
        ensures misses { (link : RowLink) → want ≡ Some link → result ≢ link_word link
            → MissesLink self.now p.old p.new place link result }
        ensures looked { KeepsLook self.now p.old p.new }
        ensures fresh { KeepsFresh self.now p.old p.new }
    {
        self.step(p, PlainOp::LinkLoad { place, want }, &note)
    }

    /// Writes a link word that is the word of `from`. Answers 1 if it was, and else 0. A note goes to the event where
    /// it was.
    #[inline(always)]
    pub fn link_cas(
        &self,
        p: &mut PlainBoardPass<D>,
        place: Word,
        from: RowLink,
        to: RowLink,
        note: Option<D::Note>,
    ) -> u64
        requires belongs { Belongs self.now p.old }
        requires place { KnowsPlace self.now p.old place }
        requires from { KnowsLink self.now p.old from }
        requires to { KnowsLink self.now p.old to }
        requires allowed { MayMove self.now p.old place from to note }
        ensures belongs { Belongs self.now p.new }
        ensures answer { result ≤ 1 }
        ensures moves { result ≡ 1 → MakesMove self.now p.old p.new place from to note }
        ensures linked { result ≡ 1 → KeepsFreshUnless self.now p.old p.new to.to }
        ensures fails { result ≡ 0 → FailsToMove self.now p.old p.new place from }
        ensures looked { KeepsLook self.now p.old p.new }
    {
        let wanted = pack_link(from);
        let found = self.step(p, PlainOp::LinkCas { place, from, to }, &note);
        if found == wanted {
            p.fresh = unless_linked(p.fresh, to.to);
            return 1;
        }
        0
    }

    /// Writes the fresh row's first (0) or second (1) link, without a mark. Answers the word that was there.
    pub fn link_store(&self, p: &mut PlainBoardPass<D>, row: u32, number: u32, link: RowLink) -> u64
        requires belongs { Belongs self.now p.old }
        requires row { row < (board_bounds self.now).rows }
        requires number { number < (board_bounds self.now).links }
        requires fresh { IsFresh self.now p.old row }
        requires unmarked { link.mark ≡ false }
        requires other { link.to ≢ Some row }
        requires target { KnowsLink self.now p.old link }
        requires allowed { MayAim self.now p.old row number link }
        ensures belongs { Belongs self.now p.new }
        ensures replaces { ReplacesWord self.now p.old p.new row number result link }
        ensures looked { KeepsLook self.now p.old p.new }
        ensures fresh { KeepsFresh self.now p.old p.new }
    {
        self.step(
            p,
            PlainOp::LinkStore {
                row,
                number,
                to: link.to,
            },
            &None,
        )
    }
}

// Answers the fresh row, unless it is the one that was linked.
fn unless_linked(fresh: Option<u32>, to: Option<u32>) -> Option<u32>
    ensures { result ≡ unless_linked fresh to }
{
    match (fresh, to) {
        (Some(row), Some(linked)) if row == linked => None,
        _ => fresh,
    }
}
