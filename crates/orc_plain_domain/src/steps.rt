//! The parts of which the calls are made.

ghost use Rattle.std.specs.Prelude.{◌≡◌, ◌<◌, ◌%◌, ◌+◌, ◌∷◌, [], MatchBool, None, Some, slice_get};
ghost use mathlib.Core.List.{IsPrefix};
ghost use Rattle.orc_heap.specs.{Heap.{new_node}, OwnEvents.{Only}};
ghost use Rattle.orc_any_domain.specs.{Aims.{MayAimLink, aim_at}, Rows.{index_of}};
ghost use Rattle.orc_plain_board.specs.{Calls.{KnowsPlace}, Machine.{place_by}, Views.{heap_of, shows}};
ghost use Rattle.orc_plain_domain.specs.{
  Calls.{Furnishes, IsSame, Loads, Loses, Retires, GivesFreshRow},
  Passes.{IsPassOf, domain_bounds, domain_numbers, journal_of, next_row, rows_of, seat_of},
};

use crate::domain::{PlainDomain, PlainPass};
use orc_any_domain::{around, target_link};
use orc_heap::{Discipline, Held};
use orc_words::{RowLink, Word, read_link};

impl<D: Discipline> PlainDomain<D> {
    // Takes the row out, if it is free.
    pub(crate) fn take(&self, p: &mut PlainPass<D>, row: u32) -> bool
        requires pass { IsPassOf self.now p.old }
        requires row { row < (domain_bounds self.now).rows }
        requires fresh { (shows self.now.board p.old.pass).fresh ≡ None }
        ensures pass { IsPassOf self.now p.new }
        ensures same { IsSame p.old p.new }
        ensures took { MatchBool result
            (GivesFreshRow (domain_bounds self.now) row p.old.slots (shows self.now.board p.old.pass) (shows self.now.board p.new.pass))
            (Loses row p.old.slots (shows self.now.board p.old.pass) (shows self.now.board p.new.pass)) }
    {
        let gate = self.board.gate_look(&mut p.pass, row);
        if gate % 2 == 1 {
            return false;
        }
        self.board.gate_take(&mut p.pass, row) == 1
    }

    // Fills the values of the row that was just given, and holds it in the slot.
    pub(crate) fn furnish(
        &self,
        p: &mut PlainPass<D>,
        row: u32,
        slot: u32,
        first: u64,
        second: u64,
    ) -> Held
        requires pass { IsPassOf self.now p.old }
        requires row { row < (domain_bounds self.now).rows }
        requires fresh { (shows self.now.board p.old.pass).fresh ≡ Some row }
        requires slot { slot < 8 }
        requires node { slice_get (heap_of (domain_bounds self.now) (shows self.now.board p.old.pass)).nodes
            (index_of row (shows self.now.board p.old.pass).rows)
            ≡ Some (new_node (shows self.now.board p.old.pass).agent) }
        ensures pass { IsPassOf self.now p.new }
        ensures shape { p.new.shape ≡ p.old.shape }
        ensures hold { result ≡ record { row = row; slot = slot } }
        ensures rows { IsPrefix (rows_of self.now p.old) (rows_of self.now p.new) }
        ensures next { next_row p.new ≡ (row + 1) % (domain_bounds self.now).rows }
        ensures furnished { Furnishes (domain_numbers self.now) row (index_of row (shows self.now.board p.old.pass).rows) slot first second
            (seat_of self.now p.old) (seat_of self.now p.new) }
    {
        self.board.fill(&mut p.pass, row, 0, first);
        self.board.fill(&mut p.pass, row, 1, second);
        p.slots[slot as usize] = Some(row);
        p.next = around(row + 1, p.shape.rows());
        Held::new(row, slot)
    }

    // Sets the first (0) or second (1) link of the fresh node.
    pub(crate) fn store(&self, p: &mut PlainPass<D>, fresh: &Held, number: u32, to: Option<&Held>)
        requires pass { IsPassOf self.now p.old }
        requires number { number < (domain_bounds self.now).links }
        requires may { MayAimLink (D.may (domain_numbers self.now)) (domain_numbers self.now) (seat_of self.now p.old) number fresh.now to }
        ensures pass { IsPassOf self.now p.new }
        ensures later { IsPrefix (journal_of p.old) (journal_of p.new) }
        ensures aimed { Only (aim_at (seat_of self.now p.old) number fresh.now to.entry ∷ []) (seat_of self.now p.old) (seat_of self.now p.new) }
        ensures next { next_row p.new ≡ next_row p.old }
    {
        let link = target_link(to);
        self.board
            .link_store(&mut p.pass, fresh.row(), number, link);
    }

    // Reads a link.
    #[inline(always)]
    pub(crate) fn load(&self, p: &mut PlainPass<D>, at: Word) -> RowLink
        requires pass { IsPassOf self.now p.old }
        requires place { KnowsPlace (domain_bounds self.now) (shows self.now.board p.old.pass) at }
        ensures pass { IsPassOf self.now p.new }
        ensures same { IsSame p.old p.new }
        ensures loaded { Loads (D.may (domain_numbers self.now)) (domain_bounds self.now) (place_by (shows self.now.board p.old.pass).rows at) result
            (shows self.now.board p.old.pass) (shows self.now.board p.new.pass) }
    {
        let word = self.board.link_load(&mut p.pass, at, None, None);
        let Some(link) = read_link(word) else {
            unreachable!()
        };
        link
    }

    // Lets the row be fresh no more, if it was.
    pub(crate) fn retire(&self, p: &mut PlainPass<D>, row: u32)
        requires pass { IsPassOf self.now p.old }
        ensures pass { IsPassOf self.now p.new }
        ensures same { IsSame p.old p.new }
        ensures retired { Retires row (shows self.now.board p.old.pass) (shows self.now.board p.new.pass) }
    {
        if p.pass.fresh() == Some(row) {
            self.board.give_up(&mut p.pass, row);
        }
    }
}
