//! The calls of links, over the board.

ghost use Rattle.std.specs.Prelude.{◌≡◌, ◌≢◌, ◌<◌, ◌*◌, ◌+◌, ◌%◌, ◌∷◌, [], IfErr, IfOk, None, Some, refl};
ghost use mathlib.Core.List.{IsPrefix};
ghost use Rattle.orc_any_domain.specs.Turns.{IsNext};
ghost use Rattle.orc_heap.specs.{
  Calls.{Gives, Learns, Looks, MayAim, MayAimSide, MayLook, MayMove, MovesOn, ReadsValue, RefusesAim, RefusesSwing, Releases, Swings, Tests, aim_of, aim_side_of, fill_of},
  Journals.{run_heap},
  OwnEvents.{Only},
  Seats.{HoldsFresh, HoldsPlace, HoldsTarget, HoldsWant, IsIdle, IsNotFresh, IsOutside, place_in},
  Slots.{Holds, IsFree, id_in},
};
ghost use Rattle.orc_history.specs.Parts.{InPart, IsAlone};
ghost use Rattle.orc_domain.specs.{
  Causes.{IsLacking, IsWornIn, ReadsWorn},
  OwnSteps.{TakesInFree},
  Passes.{IsPassOf, domain_bounds, domain_numbers, journal_of, next_row, seat_of},
  Searches.{Found},
};
ghost use Rattle.orc_machine_rest.specs.OwnSteps.{AtMostMore, HasTakenIn, LeavesNothing, most_rounds, steps_a_round};

use crate::domain::{OrcDomain, OrcPass};
use crate::steps::numbers_of;
use orc_any_domain::{around, row_link, word_at};
use orc_fault::{NoNode, Spent};
use orc_heap::{At, Discipline, Held, Links, Looked, LookedOn, Seen, Want};
use orc_machine_rest::settle;
use orc_sound::Step;
use orc_words::pack_link;

impl<D: Discipline> Links for OrcDomain<D> {
    ghost use Rattle.orc_machine_board.specs.{Passes.{backlog_in}, Views.{shows}};
    ghost use Rattle.orc_projection.specs.Projection.{project};
    ghost use Rattle.orc_domain.specs.{
      Laws.{Adding.{one_more}, Lacking.{lacking_all}, Lasting.{lacking_later, worn_later}, Passes.{all_below, all_of_agents, begins_so, held_known}},
      Passes.{domain_opening},
    };

    type Rule = D;

    type Pass = OrcPass<D>;

    type Step = Step<D::Note>;

    ghost numbers = { λ d. domain_numbers d };

    ghost rows = { λ d. (domain_bounds d).rows };

    ghost agents = { λ d. (domain_bounds d).agents };

    ghost opening = { λ d. domain_opening d };

    ghost agent_of = { λ s. s.agent };

    ghost journal = { λ p. journal_of p };

    ghost events = { λ d j. project (domain_bounds d) j };

    ghost seat = { λ d p. seat_of d p };

    ghost backlog = { λ p. backlog_in (shows p.pass).record_is };

    ghost belongs = { λ d p. IsPassOf d p };

    ghost lacking = { λ d agent j from to. IsLacking (domain_bounds d) agent j from to };

    ghost worn = { λ d agent why j from to. IsWornIn (domain_bounds d) agent why j from to };

    fn agent(&self, p: &OrcPass<D>) -> u32 {
        p.pass.agent()
    }

    /// Gives a new node with these values and null links, held in this slot. It is the pass's fresh node until it is
    /// linked or released. Its row is the first one, from the row after the one that the pass was given last, that could be given. NoNode leaves what the pass holds as it was, and comes once what was handed over beside each
    /// empty slot was taken in: the pass settles it next.
    ///
    /// # Errors
    ///
    /// `NoNode` where each row was out, or spent, at some time since the call's first step.
    fn give(&self, p: &mut OrcPass<D>, slot: u32, first: u64, second: u64) -> Result<Held, NoNode>
        requires pass { IsPassOf self.now p.old }
        requires slot { IsFree (seat_of self.now p.old).slots slot }
        requires no_other { (seat_of self.now p.old).fresh ≡ None }
        ensures pass { IsPassOf self.now p.new }
        ensures later { IsPrefix (journal_of p.old) (journal_of p.new) }
        ensures given { IfOk result (λ h. Gives (domain_numbers self.now) slot first second (seat_of self.now p.old) h (seat_of self.now p.new)) }
        ensures none { IfErr result (λ e. Only [] (seat_of self.now p.old) (seat_of self.now p.new)) }
        ensures lacking { IfErr result (λ e. InPart (λ s. s.agent) (seat_of self.now p.old).agent (journal_of p.old) (journal_of p.new)
            (IsLacking (domain_bounds self.now) (seat_of self.now p.old).agent (journal_of p.new))) }
        ensures taken_in { IfErr result (λ e. TakesInFree (seat_of self.now p.old) (journal_of p.old) (journal_of p.new)) }
        ensures leaves { LeavesNothing (seat_of self.now p.old).agent (journal_of p.old) (journal_of p.new) }
        ensures in_turn { IfOk result (λ h. IsNext (domain_bounds self.now).rows (next_row p.old)
            (Found (domain_bounds self.now) (seat_of self.now p.old).agent (journal_of p.old) (journal_of p.new)) h.row) }
        ensures next { IfOk result (λ h. next_row p.new ≡ (h.row + 1) % (domain_bounds self.now).rows) }
        ensures same_next { IfErr result (λ e. next_row p.new ≡ next_row p.old) }
    {
        let begin = p.next;
        let Some(row) = self.search(&mut p.pass, begin) else {
            self.take_in_free(&mut p.pass);
            return Err(NoNode);
        };
        self.board.fill(&mut p.pass, row, 0, first);
        self.board.fill(&mut p.pass, row, 1, second);
        self.board.publish(&mut p.pass, slot, row);
        p.next = around(row + 1, self.board.shape().rows());
        Ok(Held::new(row, slot))
    }

    fn fill(&self, p: &mut OrcPass<D>, fresh: &Held, which: u32, value: u64)
        requires pass { IsPassOf self.now p.old }
        requires fresh { HoldsFresh (seat_of self.now p.old) fresh.now }
        requires which { which < 2 }
        ensures pass { IsPassOf self.now p.new }
        ensures later { IsPrefix (journal_of p.old) (journal_of p.new) }
        ensures filled { Only (fill_of (seat_of self.now p.old) fresh.now which value ∷ []) (seat_of self.now p.old) (seat_of self.now p.new) }
        ensures taken_in { LeavesNothing (seat_of self.now p.old).agent (journal_of p.old) (journal_of p.new) }
        ensures next { next_row p.new ≡ next_row p.old }
    {
        self.board.fill(&mut p.pass, fresh.row(), which, value);
    }

    /// One try of a protected load: reads the link, protects its target in this slot, and reads the link again. Where the
    /// link moved, it takes in what was handed over beside the slot meanwhile.
    #[inline(always)]
    fn look(&self, p: &mut OrcPass<D>, place: &At, slot: u32) -> Looked
        requires pass { IsPassOf self.now p.old }
        requires place { HoldsPlace (domain_numbers self.now) (seat_of self.now p.old).slots place.now }
        requires slot { IsFree (seat_of self.now p.old).slots slot }
        ensures pass { IsPassOf self.now p.new }
        ensures later { IsPrefix (journal_of p.old) (journal_of p.new) }
        ensures looked { Looks (place_in (seat_of self.now p.old).slots place.now) slot (seat_of self.now p.old) result (seat_of self.now p.new) }
        ensures taken_in { LeavesNothing (seat_of self.now p.old).agent (journal_of p.old) (journal_of p.new) }
        ensures next { next_row p.new ≡ next_row p.old }
    {
        let word = word_at(place);
        let one = self.load(&mut p.pass, word);
        let mark = one.mark;
        let Some(row) = one.to else {
            return Looked::Stable(Seen { null: true, mark }, None);
        };
        let same = self.protect(&mut p.pass, word, slot, row, one);
        if same {
            let held = Held::new(row, slot);
            return Looked::Stable(Seen { null: false, mark }, Some(held));
        }
        Looked::Moved
    }

    /// One try of a protected load by which a hold moves on: reads the link, and where that is an unmarked one to a node, lets
    /// the slot of `from` protect that node in one store, and reads the link again. What was handed over beside the slot
    /// meanwhile stays there until the slot is cleared; where the link moved, that is at once. A link that is null or
    /// marked is looked at with the other slot.
    #[inline(always)]
    fn look_on(&self, p: &mut OrcPass<D>, place: &At, from: Held, slot: u32) -> LookedOn
        requires pass { IsPassOf self.now p.old }
        requires place { HoldsPlace (domain_numbers self.now) (seat_of self.now p.old).slots place.now }
        requires from { Holds (seat_of self.now p.old).slots from }
        requires linked { (seat_of self.now p.old).fresh ≢ Some (id_in (seat_of self.now p.old).slots from) }
        requires outside { IsOutside from place.now }
        requires slot { IsFree (seat_of self.now p.old).slots slot }
        ensures pass { IsPassOf self.now p.new }
        ensures later { IsPrefix (journal_of p.old) (journal_of p.new) }
        ensures looked { MovesOn (place_in (seat_of self.now p.old).slots place.now) slot (seat_of self.now p.old) from result (seat_of self.now p.new) }
        ensures taken_in { LeavesNothing (seat_of self.now p.old).agent (journal_of p.old) (journal_of p.new) }
        ensures next { next_row p.new ≡ next_row p.old }
    {
        let word = word_at(place);
        let one = self.load(&mut p.pass, word);
        let mark = one.mark;
        let Some(row) = one.to else {
            return LookedOn::Stays(from, Looked::Stable(Seen { null: true, mark }, None));
        };
        if mark {
            let (kind, number) = numbers_of(place);
            let same = self.protect_marked(&mut p.pass, kind, number, slot, row);
            if same {
                let held = Held::new(row, slot);
                return LookedOn::Stays(
                    from,
                    Looked::Stable(Seen { null: false, mark }, Some(held)),
                );
            }
            return LookedOn::Stays(from, Looked::Moved);
        }
        let moving = from.slot();
        from.end();
        self.board.move_on(&mut p.pass, moving, row);
        let stays = self.read_again(&mut p.pass, word, moving, one);
        if stays {
            return LookedOn::On(Held::new(row, moving));
        }
        self.unlock_moved(&mut p.pass, moving);
        LookedOn::Moved
    }

    fn same(
        &self,
        p: &mut OrcPass<D>,
        place: &At,
        link: &Want,
        note: Option<<Self::Rule as Discipline>::Note>,
    ) -> bool
        requires pass { IsPassOf self.now p.old }
        requires place { HoldsPlace (domain_numbers self.now) (seat_of self.now p.old).slots place.now }
        requires link { HoldsWant (seat_of self.now p.old).slots link.now }
        requires allowed { MayLook (D.may (domain_numbers self.now)) (domain_numbers self.now) (seat_of self.now p.old) place.now link.now note }
        ensures pass { IsPassOf self.now p.new }
        ensures later { IsPrefix (journal_of p.old) (journal_of p.new) }
        ensures tested { Tests place.now link.now note (seat_of self.now p.old) result (seat_of self.now p.new) }
        ensures taken_in { LeavesNothing (seat_of self.now p.old).agent (journal_of p.old) (journal_of p.new) }
        ensures next { next_row p.new ≡ next_row p.old }
    {
        let want = row_link(link);
        let found = self
            .board
            .link_load(&mut p.pass, word_at(place), None, Some(want), note);
        found == pack_link(want)
    }

    fn value(&self, p: &mut OrcPass<D>, h: &Held, which: u32) -> u64
        requires pass { IsPassOf self.now p.old }
        requires held { Holds (seat_of self.now p.old).slots h.now }
        requires which { which < 2 }
        ensures pass { IsPassOf self.now p.new }
        ensures later { IsPrefix (journal_of p.old) (journal_of p.new) }
        ensures value { ReadsValue (run_heap (domain_numbers self.now) (seat_of self.now p.new).seen) (id_in (seat_of self.now p.old).slots h.now) which result }
        ensures nothing { Only [] (seat_of self.now p.old) (seat_of self.now p.new) }
        ensures taken_in { LeavesNothing (seat_of self.now p.old).agent (journal_of p.old) (journal_of p.new) }
        ensures next { next_row p.new ≡ next_row p.old }
    {
        self.board.read(&mut p.pass, h.row(), which)
    }

    /// Sets the first link of the fresh node, and counts the target. Spent leaves it as it was.
    ///
    /// # Errors
    ///
    /// `Spent` where the sequence of the target's row was read as the shape's limit + 64 or more.
    fn aim(&self, p: &mut OrcPass<D>, fresh: &Held, to: Option<&Held>) -> Result<(), Spent>
        requires pass { IsPassOf self.now p.old }
        requires fresh { HoldsFresh (seat_of self.now p.old) fresh.now }
        requires target { HoldsTarget (seat_of self.now p.old) to }
        requires allowed { MayAim (D.may (domain_numbers self.now)) (domain_numbers self.now) (seat_of self.now p.old) fresh.now to }
        ensures pass { IsPassOf self.now p.new }
        ensures later { IsPrefix (journal_of p.old) (journal_of p.new) }
        ensures aimed { IfOk result (λ _. Only (aim_of (seat_of self.now p.old) fresh.now to.entry ∷ []) (seat_of self.now p.old) (seat_of self.now p.new)) }
        ensures none { IfErr result (λ e. Only [] (seat_of self.now p.old) (seat_of self.now p.new)) }
        ensures spent { IfErr result (λ e. RefusesAim (seat_of self.now p.old).slots to.entry e (seat_of self.now p.new).seen) }
        ensures worn { IfErr result (ReadsWorn (domain_bounds self.now) (seat_of self.now p.old).agent (journal_of p.old) (journal_of p.new)) }
        ensures taken_in { LeavesNothing (seat_of self.now p.old).agent (journal_of p.old) (journal_of p.new) }
        ensures next { next_row p.new ≡ next_row p.old }
    {
        self.aim_link(p, fresh, 0, to)
    }

    /// Sets the second link of the fresh node, where nodes have two, and counts the target. Spent leaves it as it was.
    ///
    /// # Errors
    ///
    /// `Spent` where the sequence of the target's row was read as the shape's limit + 64 or more.
    fn aim_side(&self, p: &mut OrcPass<D>, fresh: &Held, to: Option<&Held>) -> Result<(), Spent>
        requires pass { IsPassOf self.now p.old }
        requires two { (domain_numbers self.now).links ≡ 2 }
        requires fresh { HoldsFresh (seat_of self.now p.old) fresh.now }
        requires target { HoldsTarget (seat_of self.now p.old) to }
        requires allowed { MayAimSide (D.may (domain_numbers self.now)) (domain_numbers self.now) (seat_of self.now p.old) fresh.now to }
        ensures pass { IsPassOf self.now p.new }
        ensures later { IsPrefix (journal_of p.old) (journal_of p.new) }
        ensures aimed { IfOk result (λ _. Only (aim_side_of (seat_of self.now p.old) fresh.now to.entry ∷ []) (seat_of self.now p.old) (seat_of self.now p.new)) }
        ensures none { IfErr result (λ e. Only [] (seat_of self.now p.old) (seat_of self.now p.new)) }
        ensures spent { IfErr result (λ e. RefusesAim (seat_of self.now p.old).slots to.entry e (seat_of self.now p.new).seen) }
        ensures worn { IfErr result (ReadsWorn (domain_bounds self.now) (seat_of self.now p.old).agent (journal_of p.old) (journal_of p.new)) }
        ensures taken_in { LeavesNothing (seat_of self.now p.old).agent (journal_of p.old) (journal_of p.new) }
        ensures next { next_row p.new ≡ next_row p.old }
    {
        self.aim_link(p, fresh, 1, to)
    }

    /// One compare-and-swap of a link: true where it was `from`, and then it is `to`, and both targets are counted. Spent
    /// leaves it as it was.
    ///
    /// # Errors
    ///
    /// `Spent` where `to` has another target than `from`, and the sequence of its row was read as the shape's limit + 64
    /// or more.
    #[inline(always)]
    fn swing(
        &self,
        p: &mut OrcPass<D>,
        place: &At,
        from: &Want,
        to: &Want,
        note: Option<<Self::Rule as Discipline>::Note>,
    ) -> Result<bool, Spent>
        requires pass { IsPassOf self.now p.old }
        requires place { HoldsPlace (domain_numbers self.now) (seat_of self.now p.old).slots place.now }
        requires linked { IsNotFresh (seat_of self.now p.old) place.now }
        requires links { HoldsWant (seat_of self.now p.old).slots from.now × HoldsWant (seat_of self.now p.old).slots to.now }
        requires allowed { MayMove (D.may (domain_numbers self.now)) (domain_numbers self.now) (seat_of self.now p.old) place.now from.now to.now note }
        ensures pass { IsPassOf self.now p.new }
        ensures later { IsPrefix (journal_of p.old) (journal_of p.new) }
        ensures swung { IfOk result (λ done. Swings place.now from.now to.now note (seat_of self.now p.old) done (seat_of self.now p.new)) }
        ensures none { IfErr result (λ e. Only [] (seat_of self.now p.old) (seat_of self.now p.new)) }
        ensures spent { IfErr result (λ e. RefusesSwing (seat_of self.now p.old).slots from.now to.now e (seat_of self.now p.new).seen) }
        ensures worn { IfErr result (ReadsWorn (domain_bounds self.now) (seat_of self.now p.old).agent (journal_of p.old) (journal_of p.new)) }
        ensures taken_in { LeavesNothing (seat_of self.now p.old).agent (journal_of p.old) (journal_of p.new) }
        ensures next { next_row p.new ≡ next_row p.old }
    {
        self.prepare(&mut p.pass, from, to)?;
        let done = self.exchange(&mut p.pass, place, from, to, note);
        Ok(done)
    }

    /// Frees the slot, and takes in what was handed over beside it. If it held the fresh node, which was never linked,
    /// that is retired, and the pass has no fresh node any more.
    fn release(&self, p: &mut OrcPass<D>, h: Held)
        requires pass { IsPassOf self.now p.old }
        requires held { Holds (seat_of self.now p.old).slots h }
        ensures pass { IsPassOf self.now p.new }
        ensures later { IsPrefix (journal_of p.old) (journal_of p.new) }
        ensures released { Releases (seat_of self.now p.old) h (seat_of self.now p.new) }
        ensures taken_in { LeavesNothing (seat_of self.now p.old).agent (journal_of p.old) (journal_of p.new) }
        ensures next { next_row p.new ≡ next_row p.old }
    {
        self.give_up(&mut p.pass, h.row());
        self.unlock(&mut p.pass, h.slot());
        h.end();
    }

    /// Takes in what was handed over beside slot 0, and works through the retired rows that the pass has in its work list, in
    /// hand or scanned, in at most `4 * (rows + 8 * agents)` rounds: those that nothing links or holds are freed. Some remain
    /// only where another agent steps meanwhile.
    fn settle(&self, p: &mut OrcPass<D>)
        requires pass { IsPassOf self.now p.old }
        requires idle { IsIdle (seat_of self.now p.old) }
        ensures pass { IsPassOf self.now p.new }
        ensures later { IsPrefix (journal_of p.old) (journal_of p.new) }
        ensures nothing { Only [] (seat_of self.now p.old) (seat_of self.now p.new) }
        ensures settled { IsAlone (λ s. s.agent) (seat_of self.now p.old).agent (journal_of p.old) (journal_of p.new)
            → backlog_in (shows p.new.pass).record_is ≡ 0 }
        ensures slot_0 { HasTakenIn (seat_of self.now p.old).agent 0 (journal_of p.old) (journal_of p.new) }
        ensures few { AtMostMore (seat_of self.now p.old).agent (1 + most_rounds (domain_bounds self.now) * steps_a_round (domain_bounds self.now))
            (journal_of p.old) (journal_of p.new) }
        ensures taken_in { LeavesNothing (seat_of self.now p.old).agent (journal_of p.old) (journal_of p.new) }
        ensures next { next_row p.new ≡ next_row p.old }
    {
        settle(&self.board, &mut p.pass);
    }

    fn learn(&self, into: &mut OrcPass<D>, from: &mut OrcPass<D>)
        requires passes { IsPassOf self.now into.old × IsPassOf self.now from.old }
        requires agents { (seat_of self.now into.old).agent ≢ (seat_of self.now from.old).agent }
        ensures passes { IsPassOf self.now into.new × IsPassOf self.now from.new }
        ensures learned { Learns (λ s. s.agent) (seat_of self.now into.old) (seat_of self.now from.old) (seat_of self.now into.new)
            (seat_of self.now from.new) (journal_of into.old) (journal_of from.old) (journal_of into.new) (journal_of from.new) }
        ensures next { (next_row into.new ≡ next_row into.old) × (next_row from.new ≡ next_row from.old) }
    {
        self.board.learn(&mut into.pass, &mut from.pass);
    }

    ghost seen_is = { λ d p h. refl };

    ghost steps_add = { λ d j s. one_more (domain_bounds d) j s };

    ghost opens = { λ d p h. begins_so d p h };

    ghost begins = { λ d p h. h.board.keeps.began };

    ghost allowed = { λ d p h. h.board.keeps.now.each };

    ghost obeys = { λ d p h. h.board.keeps.now.kept };

    ghost agents_below = { λ d p h. all_below d p h };

    ghost steps_below = { λ d p h. all_of_agents d p h };

    ghost fresh_is = { λ d p id h e. h.untouched id e };

    ghost held_is = { λ d p hold h e. held_known d p h hold e };

    ghost lacking_stays = { λ d agent j more from to l. lacking_later (domain_bounds d) agent j more from to l };

    ghost worn_stays = { λ d agent why j more from to w. worn_later (domain_bounds d) agent why j more from to w };

    ghost lacking_gave = { λ d agent j from to l. lacking_all (domain_bounds d) agent j from to l };
}
