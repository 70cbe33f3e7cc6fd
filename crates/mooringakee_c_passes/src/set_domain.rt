//! The domain on which a bucketed set stands.

ghost use Rattle.std.specs.Prelude.{◌≡◌, [], IfErr, IfOk, refl};
ghost use mathlib.Core.List.{IsPrefix};
ghost use Rattle.orc_heap.specs.{
  Calls.{MayLook, MayMove, RefusesSwing, Swings, Tests},
  OwnEvents.{Only},
  Seats.{HoldsPlace, HoldsWant, IsNotFresh},
};
ghost use Rattle.orc_machine_board.specs.{Passes.{backlog_in}, Views.{shows}};
ghost use Rattle.orc_projection.specs.Projection.{project};
ghost use Rattle.orc_domain.specs.{
  Causes.{IsLacking, IsWornIn, ReadsWorn},
  Laws.{Adding.{one_more}, Lacking.{lacking_all}, Lasting.{lacking_later, worn_later}, Passes.{all_below, all_of_agents, begins_so, held_known}},
  Passes.{IsPassOf, domain_bounds, domain_numbers, domain_opening, journal_of, seat_of},
};

use orc_chain_rule::{Chain, ChainNote};
use orc_domain::{OrcDomain, OrcPass};
use orc_fault::{NoNode, Spent};
use orc_heap::{At, Discipline, Held, Links, Looked, LookedOn, Want};
use orc_sound::Step;

/// A domain whose rows are reclaimed, for one bucketed set. It passes each call on, and has no parameters, which keeps the proofs of what stands
/// on it small.
#[derive(Drop)]
pub struct SetDomain {
    pub(crate) domain: OrcDomain<Chain>,
}

impl Links for SetDomain {
    type Rule = Chain;

    type Pass = OrcPass<Chain>;

    type Step = Step<ChainNote>;

    ghost numbers = { λ d. domain_numbers d.domain };

    ghost rows = { λ d. (domain_bounds d.domain).rows };

    ghost agents = { λ d. (domain_bounds d.domain).agents };

    ghost opening = { λ d. domain_opening d.domain };

    ghost agent_of = { λ s. s.agent };

    ghost journal = { λ p. journal_of p };

    ghost events = { λ d j. project (domain_bounds d.domain) j };

    ghost seat = { λ d p. seat_of d.domain p };

    ghost backlog = { λ p. backlog_in (shows p.pass).record_is };

    ghost belongs = { λ d p. IsPassOf d.domain p };

    ghost lacking = { λ d agent j from to. IsLacking (domain_bounds d.domain) agent j from to };

    ghost worn = { λ d agent why j from to. IsWornIn (domain_bounds d.domain) agent why j from to };

    fn agent(&self, p: &OrcPass<Chain>) -> u32 {
        self.domain.agent(p)
    }

    fn give(
        &self,
        p: &mut OrcPass<Chain>,
        slot: u32,
        first: u64,
        second: u64,
    ) -> Result<Held, NoNode> {
        self.domain.give(p, slot, first, second)
    }

    fn fill(&self, p: &mut OrcPass<Chain>, fresh: &Held, which: u32, value: u64) {
        self.domain.fill(p, fresh, which, value);
    }

    #[inline(always)]
    fn look(&self, p: &mut OrcPass<Chain>, place: &At, slot: u32) -> Looked {
        self.domain.look(p, place, slot)
    }

    #[inline(always)]
    fn look_on(&self, p: &mut OrcPass<Chain>, place: &At, from: Held, slot: u32) -> LookedOn {
        self.domain.look_on(p, place, from, slot)
    }

    fn same(&self, p: &mut OrcPass<Chain>, place: &At, link: &Want, note: Option<ChainNote>) -> bool
        requires pass { IsPassOf self.now.domain p.old }
        requires place { HoldsPlace (domain_numbers self.now.domain) (seat_of self.now.domain p.old).slots place.now }
        requires link { HoldsWant (seat_of self.now.domain p.old).slots link.now }
        requires allowed { MayLook (⟦<Chain as Discipline>⟧.may (domain_numbers self.now.domain)) (domain_numbers self.now.domain)
            (seat_of self.now.domain p.old) place.now link.now note }
        ensures pass { IsPassOf self.now.domain p.new }
        ensures later { IsPrefix (journal_of p.old) (journal_of p.new) }
        ensures tested { Tests place.now link.now note (seat_of self.now.domain p.old) result (seat_of self.now.domain p.new) }
    {
        self.domain.same(p, place, link, note)
    }

    fn value(&self, p: &mut OrcPass<Chain>, h: &Held, which: u32) -> u64 {
        self.domain.value(p, h, which)
    }

    fn aim(&self, p: &mut OrcPass<Chain>, fresh: &Held, to: Option<&Held>) -> Result<(), Spent> {
        self.domain.aim(p, fresh, to)
    }

    fn aim_side(
        &self,
        p: &mut OrcPass<Chain>,
        fresh: &Held,
        to: Option<&Held>,
    ) -> Result<(), Spent> {
        self.domain.aim_side(p, fresh, to)
    }

    #[inline(always)]
    fn swing(
        &self,
        p: &mut OrcPass<Chain>,
        place: &At,
        from: &Want,
        to: &Want,
        note: Option<ChainNote>,
    ) -> Result<bool, Spent>
        requires pass { IsPassOf self.now.domain p.old }
        requires place { HoldsPlace (domain_numbers self.now.domain) (seat_of self.now.domain p.old).slots place.now }
        requires linked { IsNotFresh (seat_of self.now.domain p.old) place.now }
        requires links { HoldsWant (seat_of self.now.domain p.old).slots from.now × HoldsWant (seat_of self.now.domain p.old).slots to.now }
        requires allowed { MayMove (⟦<Chain as Discipline>⟧.may (domain_numbers self.now.domain)) (domain_numbers self.now.domain)
            (seat_of self.now.domain p.old) place.now from.now to.now note }
        ensures pass { IsPassOf self.now.domain p.new }
        ensures later { IsPrefix (journal_of p.old) (journal_of p.new) }
        ensures swung { IfOk result (λ done. Swings place.now from.now to.now note (seat_of self.now.domain p.old) done (seat_of self.now.domain p.new)) }
        ensures none { IfErr result (λ e. Only [] (seat_of self.now.domain p.old) (seat_of self.now.domain p.new)) }
        ensures spent { IfErr result (λ e. RefusesSwing (seat_of self.now.domain p.old).slots from.now to.now e (seat_of self.now.domain p.new).seen) }
        ensures worn { IfErr result (ReadsWorn (domain_bounds self.now.domain) (seat_of self.now.domain p.old).agent (journal_of p.old) (journal_of p.new)) }
    {
        self.domain.swing(p, place, from, to, note)
    }

    fn release(&self, p: &mut OrcPass<Chain>, h: Held) {
        self.domain.release(p, h);
    }

    fn settle(&self, p: &mut OrcPass<Chain>) {
        self.domain.settle(p);
    }

    fn learn(&self, into: &mut OrcPass<Chain>, from: &mut OrcPass<Chain>) {
        self.domain.learn(into, from);
    }

    ghost seen_is = { λ d p h. refl };

    ghost steps_add = { λ d j s. one_more (domain_bounds d.domain) j s };

    ghost opens = { λ d p h. begins_so d.domain p h };

    ghost begins = { λ d p h. h.board.keeps.began };

    ghost allowed = { λ d p h. h.board.keeps.now.each };

    ghost obeys = { λ d p h. h.board.keeps.now.kept };

    ghost agents_below = { λ d p h. all_below d.domain p h };

    ghost steps_below = { λ d p h. all_of_agents d.domain p h };

    ghost fresh_is = { λ d p id h e. h.untouched id e };

    ghost held_is = { λ d p hold h e. held_known d.domain p h hold e };

    ghost lacking_stays = { λ d agent j more from to l. lacking_later (domain_bounds d.domain) agent j more from to l };

    ghost worn_stays = { λ d agent why j more from to w. worn_later (domain_bounds d.domain) agent why j more from to w };

    ghost lacking_gave = { λ d agent j from to l. lacking_all (domain_bounds d.domain) agent j from to l };
}
