//! The parts of which the calls that change links are made.

ghost use Rattle.std.specs.Prelude.{◌≡◌, ◌<◌, ◌∷◌, [], IfErr, IfOk, None, Some, false, true, ℕ};
ghost use mathlib.Core.List.{IsPrefix};
ghost use Rattle.orc_core.specs.{Allowed.{may_change}, RecordParts.{checked_below, names}};
ghost use Rattle.orc_any_domain.specs.{Aims.{MayAimLink, aim_at}, Names.{row_link}};
ghost use Rattle.orc_heap.specs.{
  Calls.{IsWorn, MayMove, RefusesAim, RefusesSwing, Swings},
  OwnEvents.{Only},
  Seats.{HoldsPlace, HoldsWant, IsNotFresh},
  Slots.{Holds},
};
ghost use Rattle.orc_machine_board.specs.Views.{Belongs, shows};
ghost use Rattle.orc_domain.specs.{
  Causes.{ReadsWorn},
  Changes.{MayStore, Stores},
  Passes.{IsFreshUntouched, IsPassOf, domain_bounds, domain_numbers, journal_of, next_row, seat_of},
  Searches.{Idles},
  Seats.{IsBetweenCalls, seat_by},
};
ghost use Rattle.orc_machine_rest.specs.OwnSteps.{LeavesNothing};
ghost use Rattle.orc_words.specs.Bounds.{link_limit};

use crate::domain::{OrcDomain, OrcPass};
use orc_any_domain::{row_link, word_at};
use orc_core::{CounterUse, SEQUENCE};
use orc_fault::Spent;
use orc_heap::{At, Discipline, Held, Want};
use orc_machine_board::{MachineBoardPass, to_count};
use orc_words::{RowLink, named};

impl<D: Discipline> OrcDomain<D> {
    // Reads the sequence of a row that is to be linked.
    #[inline(always)]
    pub(crate) fn check(&self, p: &mut MachineBoardPass<D>, h: &Held) -> Result<(), Spent>
        requires belongs { Belongs self.now.board p.old }
        requires ready { IsBetweenCalls (shows p.old).record_is }
        requires held { Holds (seat_by (domain_bounds self.now) (shows p.old)).slots h.now }
        ensures belongs { Belongs self.now.board p.new }
        ensures checks { Idles (domain_bounds self.now) (shows p.old) (shows p.new) }
        ensures low { IfOk result (λ _. checked_below (shows p.new).record_is.checked h.now.row (link_limit (domain_bounds self.now)) ≡ true) }
        ensures spent { IfErr result (λ e. IsWorn (seat_by (domain_bounds self.now) (shows p.old)).slots h.now e
            (seat_by (domain_bounds self.now) (shows p.new)).seen) }
        ensures worn { IfErr result (ReadsWorn (domain_bounds self.now) (shows p.old).agent (shows p.old).journal (shows p.new).journal) }
    {
        let row = h.row();
        let counter = self.board.counter_load(p, row, CounterUse::Check);
        let sequence = counter / SEQUENCE;
        if sequence >= self.board.shape().link_limit() {
            return Err(Spent { row, sequence });
        }
        Ok(())
    }

    // Checks the new target of a link, unless it is the old one or none.
    #[inline(always)]
    pub(crate) fn prepare(
        &self,
        p: &mut MachineBoardPass<D>,
        from: &Want,
        to: &Want,
    ) -> Result<(), Spent>
        requires belongs { Belongs self.now.board p.old }
        requires ready { IsBetweenCalls (shows p.old).record_is }
        requires links { HoldsWant (seat_by (domain_bounds self.now) (shows p.old)).slots from.now
            × HoldsWant (seat_by (domain_bounds self.now) (shows p.old)).slots to.now }
        ensures belongs { Belongs self.now.board p.new }
        ensures checks { Idles (domain_bounds self.now) (shows p.old) (shows p.new) }
        ensures low { IfOk result (λ _. may_change (shows p.new).record_is (link_limit (domain_bounds self.now)) (row_link from.now).to (row_link to.now).to
            ≡ true) }
        ensures spent { IfErr result (λ e. RefusesSwing (seat_by (domain_bounds self.now) (shows p.old)).slots from.now to.now e
            (seat_by (domain_bounds self.now) (shows p.new)).seen) }
        ensures worn { IfErr result (ReadsWorn (domain_bounds self.now) (shows p.old).agent (shows p.old).journal (shows p.new).journal) }
    {
        let Want::Node(h, _) = to else {
            return Ok(());
        };
        if row_link(from).to == Some(h.row()) {
            return Ok(());
        }
        self.check(p, h)
    }

    // Changes a link, whose new target was checked, if it is `from`, and then counts what was linked and unlinked.
    #[inline(always)]
    pub(crate) fn exchange(
        &self,
        p: &mut MachineBoardPass<D>,
        place: &At,
        from: &Want,
        to: &Want,
        note: Option<D::Note>,
    ) -> bool
        requires belongs { Belongs self.now.board p.old }
        requires ready { IsBetweenCalls (shows p.old).record_is }
        requires untouched { IsFreshUntouched (domain_numbers self.now) (seat_by (domain_bounds self.now) (shows p.old)) }
        requires place { HoldsPlace (domain_numbers self.now) (seat_by (domain_bounds self.now) (shows p.old)).slots place.now }
        requires linked { IsNotFresh (seat_by (domain_bounds self.now) (shows p.old)) place.now }
        requires links { HoldsWant (seat_by (domain_bounds self.now) (shows p.old)).slots from.now
            × HoldsWant (seat_by (domain_bounds self.now) (shows p.old)).slots to.now }
        requires low { may_change (shows p.old).record_is (link_limit (domain_bounds self.now)) (row_link from.now).to (row_link to.now).to ≡ true }
        requires allowed { MayMove (D.may (domain_numbers self.now)) (domain_numbers self.now) (seat_by (domain_bounds self.now) (shows p.old))
            place.now from.now to.now note }
        ensures belongs { Belongs self.now.board p.new }
        ensures ready { IsBetweenCalls (shows p.new).record_is }
        ensures untouched { IsFreshUntouched (domain_numbers self.now) (seat_by (domain_bounds self.now) (shows p.new)) }
        ensures swung { Swings place.now from.now to.now note (seat_by (domain_bounds self.now) (shows p.old)) result
            (seat_by (domain_bounds self.now) (shows p.new)) }
        ensures leaves { LeavesNothing (shows p.old).agent (shows p.old).journal (shows p.new).journal }
    {
        let word = word_at(place);
        let old = row_link(from);
        let new = row_link(to);
        let moved = self.board.link_cas(p, word, old, new, note);
        if moved != 1 {
            return false;
        }
        let (up, down) = to_count(old.to, new.to);
        self.complete_held(p, up, down);
        true
    }

    // Sets the link of this number of the fresh row, and then counts what was linked and unlinked.
    pub(crate) fn store(&self, p: &mut MachineBoardPass<D>, row: u32, number: u32, to: Option<u32>)
        requires belongs { Belongs self.now.board p.old }
        requires ready { IsBetweenCalls (shows p.old).record_is }
        requires untouched { IsFreshUntouched (domain_numbers self.now) (seat_by (domain_bounds self.now) (shows p.old)) }
        requires number { number < (domain_bounds self.now).links }
        requires fresh { names (shows p.old).record_is.fresh row ≡ true }
        requires may { MayStore (D.may (domain_numbers self.now)) (domain_bounds self.now) row number to (shows p.old) }
        ensures belongs { Belongs self.now.board p.new }
        ensures ready { IsBetweenCalls (shows p.new).record_is }
        ensures untouched { IsFreshUntouched (domain_numbers self.now) (seat_by (domain_bounds self.now) (shows p.new)) }
        ensures stores { Stores (domain_bounds self.now) row number to (shows p.old) (shows p.new) }
        ensures leaves { LeavesNothing (shows p.old).agent (shows p.old).journal (shows p.new).journal }
    {
        let link = RowLink { to, mark: false };
        let old = self.board.link_store(p, row, number, link);
        let (up, down) = to_count(named(old / 2), to);
        self.complete(p, up, down);
    }

    // Sets the link of this number of the fresh node, and counts the target.
    pub(crate) fn aim_link(
        &self,
        p: &mut OrcPass<D>,
        fresh: &Held,
        number: u32,
        to: Option<&Held>,
    ) -> Result<(), Spent>
        requires pass { IsPassOf self.now p.old }
        requires number { number < (domain_bounds self.now).links }
        requires may { MayAimLink (D.may (domain_numbers self.now)) (domain_numbers self.now) (seat_of self.now p.old) number fresh.now to }
        ensures pass { IsPassOf self.now p.new }
        ensures later { IsPrefix (journal_of p.old) (journal_of p.new) }
        ensures aimed { IfOk result (λ _. Only (aim_at (seat_of self.now p.old) number fresh.now to.entry ∷ []) (seat_of self.now p.old)
            (seat_of self.now p.new)) }
        ensures none { IfErr result (λ e. Only [] (seat_of self.now p.old) (seat_of self.now p.new)) }
        ensures spent { IfErr result (λ e. RefusesAim (seat_of self.now p.old).slots to.entry e (seat_of self.now p.new).seen) }
        ensures worn { IfErr result (ReadsWorn (domain_bounds self.now) (seat_of self.now p.old).agent (journal_of p.old) (journal_of p.new)) }
        ensures taken_in { LeavesNothing (seat_of self.now p.old).agent (journal_of p.old) (journal_of p.new) }
        ensures next { next_row p.new ≡ next_row p.old }
    {
        let Some(h) = to else {
            self.store(&mut p.pass, fresh.row(), number, None);
            return Ok(());
        };
        self.check(&mut p.pass, h)?;
        self.store(&mut p.pass, fresh.row(), number, Some(h.row()));
        Ok(())
    }
}
