//! What a domain of links promises the containers that it serves.

ghost use Rattle.std.specs.Prelude.{◌≡◌, ◌≢◌, ℕ, ◌+◌, ◌<◌, ◌≤◌, List, [], ◌∷◌, ◌++◌, take, None, Some, true, ◌==◌, IfOk, IfErr};
ghost use Rattle.std.specs.List.{AllByRecursion, list_all};
ghost use mathlib.Core.List.{IsPrefix};
ghost use Rattle.orc_fault.specs.declared.Spent.{Spent};
ghost use Rattle.orc_heap.specs.{
  Heap.{HeapNumbers},
  Acts.{IsKnown},
  Journals.{run_heap},
  Moves.{gives_in},
  Allowed.{AllAllowed},
  Slots.{Hold, Holds, IsFree, id_in},
  Seats.{HoldsFresh, HoldsPlace, HoldsTarget, HoldsWant, IsIdle, IsNotFresh, IsOutside, IsUntouched, Seat, place_in},
  OwnEvents.{IsBelow, Only},
  Calls.{Gives, Learns, Looks, MayAim, MayAimSide, MayLook, MayMove, MovesOn, ReadsValue, RefusesAim, RefusesSwing, Releases, Swings, Tests, aim_of, aim_side_of, fill_of},
  declared.events.Event.{Event},
};
ghost use Rattle.orc_history.specs.Parts.{InPart, IsAlone};

use crate::discipline::Discipline;
use crate::holds::{At, Held, Looked, LookedOn, Want};
use orc_fault::{NoNode, Spent};

/// A domain of links: memory for the nodes of a container, which agents share. Each agent calls it with a pass of
/// its own. Loads are protected by slots (OrcGC, Correia, Ramalhete and Felber 2021), so a node that is held is
/// never reused; to its callers each node is new memory.
///
/// What a call does stands in the journal that its pass has seen, after all that the pass had seen before. Events of
/// other agents may stand among it, each allowed by the discipline where it stands.
pub trait Links {
    /// What the events of the container obey.
    type Rule: Discipline;

    /// What an agent calls with: its number, what it has seen, and what it holds.
    type Pass: Drop;

    /// One step of the journal.
    type Step;

    // the numbers of the heap
    ghost numbers: { Self → HeapNumbers };

    // how many rows there are for nodes
    ghost rows: { Self → ℕ };

    // how many agents there are
    ghost agents: { Self → ℕ };

    // the events with which those of each pass begin
    ghost opening: { Self → List (Event Self.Rule.Note) };

    // whose step it is
    ghost agent_of: { Self.Step → ℕ };

    // the steps that the pass has seen
    ghost journal: { Self.Pass → List Self.Step };

    // the events of a journal
    ghost events: { Self → List Self.Step → List (Event Self.Rule.Note) };

    // what the pass shows
    ghost seat: { Self → Self.Pass → Seat Self.Rule.Note };

    // how many retired rows the pass has yet to work through
    ghost backlog: { Self.Pass → ℕ };

    // the pass is one of this domain
    ghost belongs: { Self → Self.Pass → Type 0 };

    // between two places of a journal, no row could be given to this agent
    ghost lacking: { Self → ℕ → List Self.Step → ℕ → ℕ → Type 0 };

    // between two places of a journal, this agent read the refused row's sequence at its limit
    ghost worn: { Self → ℕ → Spent → List Self.Step → ℕ → ℕ → Type 0 };

    /// The number of the pass's agent. It makes no step.
    fn agent(&self, p: &Self::Pass) -> u32
        ensures { result ≡ (seat self.now p.now).agent };

    /// Gives a new node with these values and null links, held in this slot. It is the pass's fresh node until it is
    /// linked or released. NoNode leaves all as it was.
    fn give(&self, p: &mut Self::Pass, slot: u32, first: u64, second: u64) -> Result<Held, NoNode>
        requires pass { belongs self.now p.old }
        requires slot { IsFree (seat self.now p.old).slots slot }
        requires no_other { (seat self.now p.old).fresh ≡ None }
        ensures pass { belongs self.now p.new }
        ensures later { IsPrefix (journal p.old) (journal p.new) }
        ensures given { IfOk result (λ h. Gives (numbers self.now) slot first second (seat self.now p.old) h (seat self.now p.new)) }
        ensures none { IfErr result (λ e. Only [] (seat self.now p.old) (seat self.now p.new)) }
        ensures lacking { IfErr result (λ e. InPart agent_of (seat self.now p.old).agent (journal p.old) (journal p.new)
            (lacking self.now (seat self.now p.old).agent (journal p.new))) };

    /// Sets the first (0) or second (1) value of the fresh node.
    fn fill(&self, p: &mut Self::Pass, fresh: &Held, which: u32, value: u64)
        requires pass { belongs self.now p.old }
        requires fresh { HoldsFresh (seat self.now p.old) fresh.now }
        requires which { which < 2 }
        ensures pass { belongs self.now p.new }
        ensures later { IsPrefix (journal p.old) (journal p.new) }
        ensures filled { Only (fill_of (seat self.now p.old) fresh.now which value ∷ []) (seat self.now p.old) (seat self.now p.new) };

    /// One try of a protected load: reads the link, protects its target in this slot, and reads the link again.
    fn look(&self, p: &mut Self::Pass, place: &At, slot: u32) -> Looked
        requires pass { belongs self.now p.old }
        requires place { HoldsPlace (numbers self.now) (seat self.now p.old).slots place.now }
        requires slot { IsFree (seat self.now p.old).slots slot }
        ensures pass { belongs self.now p.new }
        ensures later { IsPrefix (journal p.old) (journal p.new) }
        ensures looked { Looks (place_in (seat self.now p.old).slots place.now) slot (seat self.now p.old) result (seat self.now p.new) };

    /// One try of a protected load by which a hold moves on. Where the first load shows a link to a node without a mark, the
    /// slot of `from` protects that node, and `from` is held no more. Else `from` stays held, and this is a look with
    /// the free slot.
    fn look_on(&self, p: &mut Self::Pass, place: &At, from: Held, slot: u32) -> LookedOn
        requires pass { belongs self.now p.old }
        requires place { HoldsPlace (numbers self.now) (seat self.now p.old).slots place.now }
        requires from { Holds (seat self.now p.old).slots from }
        requires linked { (seat self.now p.old).fresh ≢ Some (id_in (seat self.now p.old).slots from) }
        requires outside { IsOutside from place.now }
        requires slot { IsFree (seat self.now p.old).slots slot }
        ensures pass { belongs self.now p.new }
        ensures later { IsPrefix (journal p.old) (journal p.new) }
        ensures looked { MovesOn (place_in (seat self.now p.old).slots place.now) slot (seat self.now p.old) from result (seat self.now p.new) };

    /// One load: whether the link is this one. Then the note stands in the journal at this load.
    fn same(
        &self,
        p: &mut Self::Pass,
        place: &At,
        link: &Want,
        note: Option<<Self::Rule as Discipline>::Note>,
    ) -> bool
        requires pass { belongs self.now p.old }
        requires place { HoldsPlace (numbers self.now) (seat self.now p.old).slots place.now }
        requires link { HoldsWant (seat self.now p.old).slots link.now }
        requires allowed { MayLook (Self.Rule.may (numbers self.now)) (numbers self.now) (seat self.now p.old) place.now link.now note }
        ensures pass { belongs self.now p.new }
        ensures later { IsPrefix (journal p.old) (journal p.new) }
        ensures tested { Tests place.now link.now note (seat self.now p.old) result (seat self.now p.new) };

    /// The first (0) or second (1) value of a node, if it was filled.
    fn value(&self, p: &mut Self::Pass, h: &Held, which: u32) -> u64
        requires pass { belongs self.now p.old }
        requires held { Holds (seat self.now p.old).slots h.now }
        requires which { which < 2 }
        ensures pass { belongs self.now p.new }
        ensures later { IsPrefix (journal p.old) (journal p.new) }
        ensures value { ReadsValue (run_heap (numbers self.now) (seat self.now p.new).seen) (id_in (seat self.now p.old).slots h.now) which result }
        ensures nothing { Only [] (seat self.now p.old) (seat self.now p.new) };

    /// Sets the first link of the fresh node. Spent leaves it as it was.
    fn aim(&self, p: &mut Self::Pass, fresh: &Held, to: Option<&Held>) -> Result<(), Spent>
        requires pass { belongs self.now p.old }
        requires fresh { HoldsFresh (seat self.now p.old) fresh.now }
        requires target { HoldsTarget (seat self.now p.old) to }
        requires allowed { MayAim (Self.Rule.may (numbers self.now)) (numbers self.now) (seat self.now p.old) fresh.now to }
        ensures pass { belongs self.now p.new }
        ensures later { IsPrefix (journal p.old) (journal p.new) }
        ensures aimed { IfOk result (λ _. Only (aim_of (seat self.now p.old) fresh.now to.entry ∷ []) (seat self.now p.old) (seat self.now p.new)) }
        ensures none { IfErr result (λ e. Only [] (seat self.now p.old) (seat self.now p.new)) }
        ensures spent { IfErr result (λ e. RefusesAim (seat self.now p.old).slots to.entry e (seat self.now p.new).seen) }
        ensures worn { IfErr result (λ e. InPart agent_of (seat self.now p.old).agent (journal p.old) (journal p.new)
            (worn self.now (seat self.now p.old).agent e (journal p.new))) };

    /// Sets the second link of the fresh node, where nodes have two. Spent leaves it as it was.
    fn aim_side(&self, p: &mut Self::Pass, fresh: &Held, to: Option<&Held>) -> Result<(), Spent>
        requires pass { belongs self.now p.old }
        requires two { (numbers self.now).links ≡ 2 }
        requires fresh { HoldsFresh (seat self.now p.old) fresh.now }
        requires target { HoldsTarget (seat self.now p.old) to }
        requires allowed { MayAimSide (Self.Rule.may (numbers self.now)) (numbers self.now) (seat self.now p.old) fresh.now to }
        ensures pass { belongs self.now p.new }
        ensures later { IsPrefix (journal p.old) (journal p.new) }
        ensures aimed { IfOk result (λ _. Only (aim_side_of (seat self.now p.old) fresh.now to.entry ∷ []) (seat self.now p.old) (seat self.now p.new)) }
        ensures none { IfErr result (λ e. Only [] (seat self.now p.old) (seat self.now p.new)) }
        ensures spent { IfErr result (λ e. RefusesAim (seat self.now p.old).slots to.entry e (seat self.now p.new).seen) }
        ensures worn { IfErr result (λ e. InPart agent_of (seat self.now p.old).agent (journal p.old) (journal p.new)
            (worn self.now (seat self.now p.old).agent e (journal p.new))) };

    /// One compare-and-swap of a link: true where it was `from`, and then it is `to`. Spent leaves it as it was.
    fn swing(
        &self,
        p: &mut Self::Pass,
        place: &At,
        from: &Want,
        to: &Want,
        note: Option<<Self::Rule as Discipline>::Note>,
    ) -> Result<bool, Spent>
        requires pass { belongs self.now p.old }
        requires place { HoldsPlace (numbers self.now) (seat self.now p.old).slots place.now }
        requires linked { IsNotFresh (seat self.now p.old) place.now }
        requires links { HoldsWant (seat self.now p.old).slots from.now × HoldsWant (seat self.now p.old).slots to.now }
        requires allowed { MayMove (Self.Rule.may (numbers self.now)) (numbers self.now) (seat self.now p.old) place.now from.now to.now note }
        ensures pass { belongs self.now p.new }
        ensures later { IsPrefix (journal p.old) (journal p.new) }
        ensures swung { IfOk result (λ done. Swings place.now from.now to.now note (seat self.now p.old) done (seat self.now p.new)) }
        ensures none { IfErr result (λ e. Only [] (seat self.now p.old) (seat self.now p.new)) }
        ensures spent { IfErr result (λ e. RefusesSwing (seat self.now p.old).slots from.now to.now e (seat self.now p.new).seen) }
        ensures worn { IfErr result (λ e. InPart agent_of (seat self.now p.old).agent (journal p.old) (journal p.new)
            (worn self.now (seat self.now p.old).agent e (journal p.new))) };

    /// Frees the slot. If it held the fresh node, which was never linked, the pass has no fresh node any more.
    fn release(&self, p: &mut Self::Pass, h: Held)
        requires pass { belongs self.now p.old }
        requires held { Holds (seat self.now p.old).slots h }
        ensures pass { belongs self.now p.new }
        ensures later { IsPrefix (journal p.old) (journal p.new) }
        ensures released { Releases (seat self.now p.old) h (seat self.now p.new) };

    /// Works through the retired rows that the pass has in hand.
    fn settle(&self, p: &mut Self::Pass)
        requires pass { belongs self.now p.old }
        requires idle { IsIdle (seat self.now p.old) }
        ensures pass { belongs self.now p.new }
        ensures later { IsPrefix (journal p.old) (journal p.new) }
        ensures nothing { Only [] (seat self.now p.old) (seat self.now p.new) }
        ensures settled { IsAlone agent_of (seat self.now p.old).agent (journal p.old) (journal p.new) → backlog p.new ≡ 0 };

    /// Lets each of two passes see what the other has seen. It makes no step.
    fn learn(&self, into: &mut Self::Pass, from: &mut Self::Pass)
        requires passes { belongs self.now into.old × belongs self.now from.old }
        requires agents { (seat self.now into.old).agent ≢ (seat self.now from.old).agent }
        ensures passes { belongs self.now into.new × belongs self.now from.new }
        ensures learned { Learns agent_of (seat self.now into.old) (seat self.now from.old) (seat self.now into.new) (seat self.now from.new)
            (journal into.old) (journal from.old) (journal into.new) (journal from.new) };

    // the events that a pass has seen are those of its journal
    ghost seen_is: { (d : Self) (p : Self.Pass) → belongs d p → (seat d p).seen ≡ events d (journal p) };

    // one more step adds events of its agent alone
    ghost steps_add: { (d : Self) (j : List Self.Step) (s : Self.Step)
        → (es : List (Event Self.Rule.Note)) × (events d (j ++ s ∷ []) ≡ events d j ++ es) × (list_all (λ e. e.agent == agent_of s) es ≡ true) };

    // the events of each pass begin with the opening
    ghost opens: { (d : Self) (p : Self.Pass) → belongs d p → IsPrefix (opening d) (seat d p).seen };

    // the discipline holds before all events
    ghost begins: { (d : Self) (p : Self.Pass) → belongs d p → Self.Rule.holds (numbers d) [] };

    // each event that a pass has seen is allowed where it stands
    ghost allowed: { (d : Self) (p : Self.Pass) → belongs d p → AllAllowed (Self.Rule.may (numbers d)) [] (seat d p).seen };

    // so the discipline holds of them
    ghost obeys: { (d : Self) (p : Self.Pass) → belongs d p → Self.Rule.holds (numbers d) (seat d p).seen };

    // each of them is of one of the domain's agents, and so is the pass
    ghost agents_below: { (d : Self) (p : Self.Pass) → belongs d p → ((seat d p).agent < agents d) × IsBelow (agents d) (seat d p).seen };

    // each step of its journal, too, is of one of the domain's agents
    ghost steps_below: { (d : Self) (p : Self.Pass) → belongs d p → AllByRecursion (λ s. agent_of s < agents d) (journal p) };

    // a fresh node was given to the pass's agent, and nothing was linked to it
    ghost fresh_is: { (d : Self) (p : Self.Pass) (id : ℕ) → belongs d p → (seat d p).fresh ≡ Some id
        → IsUntouched (seat d p).agent (run_heap (numbers d) (seat d p).seen) id };

    // what a pass holds is known to its agent
    ghost held_is: { (d : Self) (p : Self.Pass) (h : Hold) → belongs d p → Holds (seat d p).slots h
        → IsKnown (seat d p).agent (run_heap (numbers d) (seat d p).seen) (id_in (seat d p).slots h) };

    // the causes of refusals stay so as the journal goes on
    ghost lacking_stays: { (d : Self) (agent : ℕ) (j more : List Self.Step) (from to : ℕ)
        → lacking d agent j from to → lacking d agent (j ++ more) from to };

    ghost worn_stays: { (d : Self) (agent : ℕ) (why : Spent) (j more : List Self.Step) (from to : ℕ)
        → worn d agent why j from to → worn d agent why (j ++ more) from to };

    // where no row could be given, as many nodes as there are rows had been given
    ghost lacking_gave: { (d : Self) (agent : ℕ) (j : List Self.Step) (from to : ℕ)
        → lacking d agent j from to → rows d ≤ gives_in (events d (take to j)) };
}
