//! The calls of links, over a board.

ghost use Rattle.std.specs.Prelude.{◌≡◌, ◌≢◌, ◌<◌, ◌+◌, ◌%◌, ℕ, ◌∷◌, [], None, Some, IfErr, IfOk, refl, true};
ghost use mathlib.Core.List.{IsPrefix};
ghost use Rattle.orc_fault.specs.declared.Spent.{Spent};
ghost use Rattle.orc_heap.specs.{
  Calls.{Gives, Learns, Looks, MayAim, MayAimSide, MayLook, MayMove, MovesOn, ReadsValue, RefusesAim, RefusesSwing, Releases, Swings, Tests, aim_of, aim_side_of, fill_of},
  Journals.{run_heap},
  OwnEvents.{Only},
  Slots.{Holds, IsFree, id_in},
  Seats.{HoldsFresh, HoldsPlace, HoldsTarget, HoldsWant, IsIdle, IsNotFresh, IsOutside, place_in},
};
ghost use Rattle.orc_history.specs.Parts.{InPart};
ghost use Rattle.orc_plain_domain.specs.{
  Given.{IsLacking},
  Passes.{IsPassOf, domain_bounds, domain_numbers, journal_of, next_row, rows_of, seat_of},
};
ghost use Rattle.orc_any_domain.specs.{Rows.{IsListed}, Turns.{IsNext}};

use crate::domain::{PlainDomain, PlainPass};
use orc_any_domain::{around, row_link, word_at};
use orc_fault::{NoNode, Spent};
use orc_heap::{At, Discipline, Event, Held, Links, Looked, LookedOn, Seen, Want};
use orc_words::pack_link;

impl<D: Discipline> Links for PlainDomain<D> {
    ghost use Rattle.orc_plain_domain.specs.{
      Laws.Passes.{all_below, all_given, all_of_agents, begins_so, fresh_untouched, held_known, lacking_later, one_more, seen_by},
      Passes.{domain_opening},
    };

    type Rule = D;

    type Pass = PlainPass<D>;

    type Step = Event<D::Note>;

    ghost numbers = { λ d. domain_numbers d };

    ghost rows = { λ d. (domain_bounds d).rows };

    ghost agents = { λ d. (domain_bounds d).agents };

    ghost opening = { λ d. domain_opening d };

    ghost agent_of = { λ s. s.agent };

    ghost journal = { λ p. journal_of p };

    ghost events = { λ d j. j };

    ghost seat = { λ d p. seat_of d p };

    ghost backlog = { λ p. 0 };

    ghost belongs = { λ d p. IsPassOf d p };

    ghost lacking = { λ d agent j from to. IsLacking (domain_bounds d).rows j to };

    ghost worn = { λ d agent why j from to. ⊥ };

    fn agent(&self, p: &PlainPass<D>) -> u32 {
        p.pass.agent()
    }

    /// Gives a new node with these values and a null link, held in this slot. It is the pass's fresh node until it is
    /// linked or released. Its row is the first one, from the row after the one that the pass was given last, that was never given.
    /// NoNode leaves all as it was.
    ///
    /// # Errors
    ///
    /// `NoNode` where all rows were given.
    fn give(&self, p: &mut PlainPass<D>, slot: u32, first: u64, second: u64) -> Result<Held, NoNode>
        requires pass { IsPassOf self.now p.old }
        requires slot { IsFree (seat_of self.now p.old).slots slot }
        requires no_other { (seat_of self.now p.old).fresh ≡ None }
        ensures pass { IsPassOf self.now p.new }
        ensures later { IsPrefix (journal_of p.old) (journal_of p.new) }
        ensures given { IfOk result (λ h. Gives (domain_numbers self.now) slot first second (seat_of self.now p.old) h (seat_of self.now p.new)) }
        ensures none { IfErr result (λ e. Only [] (seat_of self.now p.old) (seat_of self.now p.new)) }
        ensures lacking { IfErr result (λ e. InPart (λ s. s.agent) (seat_of self.now p.old).agent (journal_of p.old) (journal_of p.new)
            (λ from to. IsLacking (domain_bounds self.now).rows (journal_of p.new) to)) }
        ensures in_turn { IfOk result (λ h. IsNext (domain_bounds self.now).rows (next_row p.old) (IsListed (rows_of self.now p.new)) h.row) }
        ensures next { IfOk result (λ h. next_row p.new ≡ (h.row + 1) % (domain_bounds self.now).rows) }
        ensures same_next { IfErr result (λ e. next_row p.new ≡ next_row p.old) }
    {
        let rows = p.shape.rows();
        let begin = p.next;
        for offset in 0..rows {
            let row = around(begin + offset, rows);
            if self.take(p, row) {
                return Ok(self.furnish(p, row, slot, first, second));
            }
        }
        Err(NoNode)
    }

    fn fill(&self, p: &mut PlainPass<D>, fresh: &Held, which: u32, value: u64)
        requires pass { IsPassOf self.now p.old }
        requires fresh { HoldsFresh (seat_of self.now p.old) fresh.now }
        requires which { which < 2 }
        ensures pass { IsPassOf self.now p.new }
        ensures later { IsPrefix (journal_of p.old) (journal_of p.new) }
        ensures filled { Only (fill_of (seat_of self.now p.old) fresh.now which value ∷ []) (seat_of self.now p.old) (seat_of self.now p.new) }
        ensures next { next_row p.new ≡ next_row p.old }
    {
        self.board.fill(&mut p.pass, fresh.row(), which, value);
    }

    #[inline(always)]
    fn look(&self, p: &mut PlainPass<D>, place: &At, slot: u32) -> Looked
        requires pass { IsPassOf self.now p.old }
        requires place { HoldsPlace (domain_numbers self.now) (seat_of self.now p.old).slots place.now }
        requires slot { IsFree (seat_of self.now p.old).slots slot }
        ensures pass { IsPassOf self.now p.new }
        ensures later { IsPrefix (journal_of p.old) (journal_of p.new) }
        ensures looked { Looks (place_in (seat_of self.now p.old).slots place.now) slot (seat_of self.now p.old) result (seat_of self.now p.new) }
        ensures next { next_row p.new ≡ next_row p.old }
    {
        let word = word_at(place);
        let one = self.load(p, word);
        let mark = one.mark;
        let Some(row) = one.to else {
            return Looked::Stable(Seen { null: true, mark }, None);
        };
        let two = self.load(p, word);
        if two != one {
            return Looked::Moved;
        }
        p.slots[slot as usize] = Some(row);
        Looked::Stable(Seen { null: false, mark }, Some(Held::new(row, slot)))
    }

    #[inline(always)]
    fn look_on(&self, p: &mut PlainPass<D>, place: &At, from: Held, slot: u32) -> LookedOn
        requires pass { IsPassOf self.now p.old }
        requires place { HoldsPlace (domain_numbers self.now) (seat_of self.now p.old).slots place.now }
        requires from { Holds (seat_of self.now p.old).slots from }
        requires linked { (seat_of self.now p.old).fresh ≢ Some (id_in (seat_of self.now p.old).slots from) }
        requires outside { IsOutside from place.now }
        requires slot { IsFree (seat_of self.now p.old).slots slot }
        ensures pass { IsPassOf self.now p.new }
        ensures later { IsPrefix (journal_of p.old) (journal_of p.new) }
        ensures looked { MovesOn (place_in (seat_of self.now p.old).slots place.now) slot (seat_of self.now p.old) from result (seat_of self.now p.new) }
        ensures next { next_row p.new ≡ next_row p.old }
    {
        let word = word_at(place);
        let one = self.load(p, word);
        let mark = one.mark;
        let Some(row) = one.to else {
            return LookedOn::Stays(from, Looked::Stable(Seen { null: true, mark }, None));
        };
        let again = self.load(p, word);
        if mark {
            if again != one {
                return LookedOn::Stays(from, Looked::Moved);
            }
            p.slots[slot as usize] = Some(row);
            let held = Held::new(row, slot);
            return LookedOn::Stays(from, Looked::Stable(Seen { null: false, mark }, Some(held)));
        }
        let freed = from.slot();
        from.end();
        if again != one {
            p.slots[freed as usize] = None;
            return LookedOn::Moved;
        }
        p.slots[freed as usize] = Some(row);
        LookedOn::On(Held::new(row, freed))
    }

    fn same(
        &self,
        p: &mut PlainPass<D>,
        place: &At,
        link: &Want,
        note: Option<<Self::Rule as Discipline>::Note>,
    ) -> bool
        requires pass { IsPassOf self.now p.old }
        requires place { HoldsPlace (domain_numbers self.now) (seat_of self.now p.old).slots place.now }
        requires link { HoldsWant (seat_of self.now p.old).slots link.now }
        requires allowed { MayLook (D.may (domain_numbers self.now)) (domain_numbers self.now) (seat_of self.now p.old) place.now link.now note }
        ensures pass { IsPassOf self.now p.new }
        ensures later { IsPrefix (journal_of p.old) (journal_of p.new) }
        ensures tested { Tests place.now link.now note (seat_of self.now p.old) result (seat_of self.now p.new) }
        ensures next { next_row p.new ≡ next_row p.old }
    {
        let want = row_link(link);
        let found = self
            .board
            .link_load(&mut p.pass, word_at(place), Some(want), note);
        found == pack_link(want)
    }

    fn value(&self, p: &mut PlainPass<D>, h: &Held, which: u32) -> u64
        requires pass { IsPassOf self.now p.old }
        requires held { Holds (seat_of self.now p.old).slots h.now }
        requires which { which < 2 }
        ensures pass { IsPassOf self.now p.new }
        ensures later { IsPrefix (journal_of p.old) (journal_of p.new) }
        ensures value { ReadsValue (run_heap (domain_numbers self.now) (seat_of self.now p.new).seen) (id_in (seat_of self.now p.old).slots h.now) which result }
        ensures nothing { Only [] (seat_of self.now p.old) (seat_of self.now p.new) }
        ensures next { next_row p.new ≡ next_row p.old }
    {
        self.board.read(&mut p.pass, h.row(), which)
    }

    fn aim(&self, p: &mut PlainPass<D>, fresh: &Held, to: Option<&Held>) -> Result<(), Spent>
        requires pass { IsPassOf self.now p.old }
        requires fresh { HoldsFresh (seat_of self.now p.old) fresh.now }
        requires target { HoldsTarget (seat_of self.now p.old) to }
        requires allowed { MayAim (D.may (domain_numbers self.now)) (domain_numbers self.now) (seat_of self.now p.old) fresh.now to }
        ensures pass { IsPassOf self.now p.new }
        ensures later { IsPrefix (journal_of p.old) (journal_of p.new) }
        ensures aimed { IfOk result (λ _. Only (aim_of (seat_of self.now p.old) fresh.now to.entry ∷ []) (seat_of self.now p.old) (seat_of self.now p.new)) }
        ensures none { IfErr result (λ e. Only [] (seat_of self.now p.old) (seat_of self.now p.new)) }
        ensures spent { IfErr result (λ e. RefusesAim (seat_of self.now p.old).slots to.entry e (seat_of self.now p.new).seen) }
        ensures worn { IfErr result (λ e. ⊥) }
        ensures next { next_row p.new ≡ next_row p.old }
    {
        self.store(p, fresh, 0, to);
        Ok(())
    }

    fn aim_side(&self, p: &mut PlainPass<D>, fresh: &Held, to: Option<&Held>) -> Result<(), Spent>
        requires pass { IsPassOf self.now p.old }
        requires two { (domain_numbers self.now).links ≡ 2 }
        requires fresh { HoldsFresh (seat_of self.now p.old) fresh.now }
        requires target { HoldsTarget (seat_of self.now p.old) to }
        requires allowed { MayAimSide (D.may (domain_numbers self.now)) (domain_numbers self.now) (seat_of self.now p.old) fresh.now to }
        ensures pass { IsPassOf self.now p.new }
        ensures later { IsPrefix (journal_of p.old) (journal_of p.new) }
        ensures aimed { IfOk result (λ _. Only (aim_side_of (seat_of self.now p.old) fresh.now to.entry ∷ []) (seat_of self.now p.old) (seat_of self.now p.new)) }
        ensures none { IfErr result (λ e. Only [] (seat_of self.now p.old) (seat_of self.now p.new)) }
        ensures spent { IfErr result (λ e. RefusesAim (seat_of self.now p.old).slots to.entry e (seat_of self.now p.new).seen) }
        ensures worn { IfErr result (λ e. ⊥) }
        ensures next { next_row p.new ≡ next_row p.old }
    {
        self.store(p, fresh, 1, to);
        Ok(())
    }

    #[inline(always)]
    fn swing(
        &self,
        p: &mut PlainPass<D>,
        place: &At,
        from: &Want,
        to: &Want,
        note: Option<<Self::Rule as Discipline>::Note>,
    ) -> Result<bool, Spent>
        requires pass { IsPassOf self.now p.old }
        requires place { HoldsPlace (domain_numbers self.now) (seat_of self.now p.old).slots place.now }
        requires linked { IsNotFresh (seat_of self.now p.old) place.now }
        requires links { HoldsWant (seat_of self.now p.old).slots from.now × HoldsWant (seat_of self.now p.old).slots to.now }
        requires allowed { MayMove (D.may (domain_numbers self.now)) (domain_numbers self.now) (seat_of self.now p.old) place.now from.now to.now note }
        ensures pass { IsPassOf self.now p.new }
        ensures later { IsPrefix (journal_of p.old) (journal_of p.new) }
        ensures swung { IfOk result (λ done. Swings place.now from.now to.now note (seat_of self.now p.old) done (seat_of self.now p.new)) }
        ensures none { IfErr result (λ e. Only [] (seat_of self.now p.old) (seat_of self.now p.new)) }
        ensures spent { IfErr result (λ e. RefusesSwing (seat_of self.now p.old).slots from.now to.now e (seat_of self.now p.new).seen) }
        ensures worn { IfErr result (λ e. ⊥) }
        ensures next { next_row p.new ≡ next_row p.old }
    {
        let moved = self.board.link_cas(
            &mut p.pass,
            word_at(place),
            row_link(from),
            row_link(to),
            note,
        );
        Ok(moved == 1)
    }

    fn release(&self, p: &mut PlainPass<D>, h: Held)
        requires pass { IsPassOf self.now p.old }
        requires held { Holds (seat_of self.now p.old).slots h }
        ensures pass { IsPassOf self.now p.new }
        ensures later { IsPrefix (journal_of p.old) (journal_of p.new) }
        ensures released { Releases (seat_of self.now p.old) h (seat_of self.now p.new) }
        ensures next { next_row p.new ≡ next_row p.old }
    {
        self.retire(p, h.row());
        p.slots[h.slot() as usize] = None;
        h.end();
    }

    fn settle(&self, p: &mut PlainPass<D>)
        requires pass { IsPassOf self.now p.old }
        requires idle { IsIdle (seat_of self.now p.old) }
        ensures pass { IsPassOf self.now p.new }
        ensures later { IsPrefix (journal_of p.old) (journal_of p.new) }
        ensures nothing { Only [] (seat_of self.now p.old) (seat_of self.now p.new) }
        ensures next { next_row p.new ≡ next_row p.old }
    {}

    fn learn(&self, into: &mut PlainPass<D>, from: &mut PlainPass<D>)
        requires passes { IsPassOf self.now into.old × IsPassOf self.now from.old }
        requires agents { (seat_of self.now into.old).agent ≢ (seat_of self.now from.old).agent }
        ensures passes { IsPassOf self.now into.new × IsPassOf self.now from.new }
        ensures learned { Learns (λ e. e.agent) (seat_of self.now into.old) (seat_of self.now from.old) (seat_of self.now into.new)
            (seat_of self.now from.new) (journal_of into.old) (journal_of from.old) (journal_of into.new) (journal_of from.new) }
        ensures next { (next_row into.new ≡ next_row into.old) × (next_row from.new ≡ next_row from.old) }
    {
        self.board.learn(&mut into.pass, &mut from.pass);
    }

    ghost seen_is = { λ d p h. seen_by d p h };

    ghost steps_add = { λ d j s. one_more j s };

    ghost opens = { λ d p h. begins_so d p h };

    ghost begins = { λ d p h. h.board.keeps.began };

    ghost allowed = { λ d p h. h.board.keeps.now.each };

    ghost obeys = { λ d p h. h.board.keeps.now.kept };

    ghost agents_below = { λ d p h. all_below d p h };

    ghost steps_below = { λ d p h. all_of_agents d p h };

    ghost fresh_is = { λ d p id h e. fresh_untouched d p h id e };

    ghost held_is = { λ d p hold h e. held_known d p h hold e };

    ghost lacking_stays = { λ d agent j more from to l. lacking_later (domain_bounds d).rows j more to l };

    ghost lacking_gave = { λ d agent j from to l. all_given (domain_bounds d).rows j to l };

    ghost worn_stays = { λ d agent why j more from to l. l };
}
