//! The set, and its calls.

ghost use Rattle.std.specs.Prelude.{◌≡◌, ◌≢◌, ◌+◌, ◌*◌, ◌<◌, ◌≤◌, ◌↔◌, ◌⊎◌, ◌∷◌, [], ℕ, Err, IfErr, IfOk, IsErr, Ok, false, length, true};
ghost use mathlib.Core.List.{IsPrefix};
ghost use Rattle.orc_heap.specs.Domains.{IsCallAlone, MakesAtMost, MakesNoEvent, agent, heap};
ghost use Rattle.orc_history.specs.{Journals.{Within}, declared.set.{ListRefused.{ListRefused}, SetEntry.{SetEntry}}};
ghost use Rattle.orc_ordered_search.specs.Entries.{entry_by};
ghost use Rattle.orc_split_rule.specs.SplitDiscipline.{IsSize};
ghost use Rattle.orc_split_set.specs.{
  SetCalls.{Enters, EntersNone, FindsAbsent, FindsWorn, GivesAtMost, GrowsCrowded, HadSize, HasCause, IsUsable, LacksRow, LinksDummy, LooksFew, MakesFewBySearch, RootsBucket, TakesFew, UsesAllTurns, set_history},
  Rootings.{IsRootSet},
  Stops.{HasDummyOnChain},
  Laws.SetLaws.{cause_stays, entries_below, history_grows, seen_legal},
};

use crate::answer::call_turns;
use crate::bucket::prepare;
use crate::grow::grow_after;
use crate::insert::insert_key;
use crate::size::size_turns;
use crate::stop::{has_linked, stop_a_bucket};
use orc_fault::{Again, Spent};
use orc_heap::Links;
use orc_history::{LearnSet, ListRefused, SharedSet};
use orc_ordered_search::{Call, answer_of};
use orc_split_rule::Split;

/// A set of numbers that agents share, over a domain of links: one chain from root 0, in split order, and a root for each bucket
/// but the first, from which the chain is searched where it names the bucket's dummy. No call takes memory or waits.
#[derive(Drop)]
pub struct SplitSet<L: Links<Rule = Split>> {
    links: L,
    greatest: u32,
    ghost rooted: { (1 ≤ greatest) × ((L.numbers links).roots ≡ greatest + 1) },
    ghost sized: { ∥ IsSize 256 greatest ∥₁ },
}

impl<L: Links<Rule = Split>> SplitSet<L> {
    /// The set of a domain with roots for at most `greatest` buckets, a power of two up to 256, and one root for their number.
    pub fn new(links: L, greatest: u32) -> SplitSet<L>
        requires size { IsSize 256 greatest }
        requires roots { (L.numbers links).roots ≡ greatest + 1 }
        ensures { result.links ≡ links }
    {
        SplitSet { links, greatest }
    }

    /// The domain of links that the set stands on.
    pub fn links(&self) -> &L
        ensures { result.now ≡ self.now.links }
    {
        &self.links
    }

    /// Gives the set up for its domain of links.
    pub fn into_links(self) -> L
        ensures { result ≡ self.links }
    {
        let SplitSet { links, greatest: _ } = self;
        links
    }

    /// The number of buckets, a power of two, in at most `turns` tries: as many as there were at a moment of the call.
    ///
    /// # Errors
    ///
    /// `Again` if all tries were used up, each by a Move of another agent. With no turns it makes no event.
    pub fn size(&self, p: &mut L::Pass, turns: u64) -> Result<u32, Again>
        requires usable { IsUsable L.Links self.now.links p.old }
        ensures usable { IsUsable L.Links self.now.links p.new }
        ensures agent { agent L.Links self.now.links p.new ≡ agent L.Links self.now.links p.old }
        ensures later { IsPrefix (L.journal p.old) (L.journal p.new) }
        ensures size { IfOk result (λ size. HadSize L.Links self.now.links size p.old p.new) }
        ensures none { EntersNone L.Links self.now.links p.old p.new }
        ensures no_turns { turns ≡ 0 → IsErr result }
        ensures no_event { turns ≡ 0 → MakesNoEvent L.Links self.now.links p.old p.new }
        ensures again { IfErr result (λ e. UsesAllTurns L.Links self.now.links turns p.old p.new) }
        ensures tries { MakesAtMost L.Links self.now.links (2 * turns) p.old p.new }
        ensures gives { GivesAtMost L.Links self.now.links 0 p.old p.new }
        ensures settled { IsCallAlone L.Links self.now.links p.old p.new → L.backlog p.new ≡ 0 }
    {
        let answer = size_turns(&self.links, p, self.greatest, turns);
        self.links.settle(p);
        answer
    }

    // Answers whether the key is present, or takes it out, in at most so many turns. Sets the root of the key's bucket before.
    fn answer(&self, p: &mut L::Pass, key: u64, call: Call, turns: u64) -> Result<bool, Again>
        requires usable { IsUsable L.Links self.now.links p.old }
        ensures usable { IsUsable L.Links self.now.links p.new }
        ensures agent { agent L.Links self.now.links p.new ≡ agent L.Links self.now.links p.old }
        ensures later { IsPrefix (L.journal p.old) (L.journal p.new) }
        ensures rooted { IfOk result (λ yes. RootsBucket L.Links self.now.links key p.old p.new) }
        ensures few { call ≡ Call.Ask → turns ≢ 0 → LooksFew L.Links self.now.links key p.old p.new }
        ensures taken { call ≡ Call.Remove → result ≡ Ok true → TakesFew L.Links self.now.links 1 key p.old p.new }
        ensures entered { IfOk result (λ yes. Enters L.Links self.now.links p.old p.new (λ agent. entry_by call agent key yes ∷ [])) }
        ensures none { IfErr result (λ e. EntersNone L.Links self.now.links p.old p.new) }
        ensures licence { IfErr result (λ e. Within (length (L.journal p.old)) (length (L.journal p.new))
            (HasCause L.Links self.now.links (agent L.Links self.now.links p.old) turns ListRefused.Again (L.journal p.new))) }
        ensures no_turns { turns ≡ 0 → IsErr result }
        ensures no_event { turns ≡ 0 → MakesNoEvent L.Links self.now.links p.old p.new }
        ensures again { IfErr result (λ e. UsesAllTurns L.Links self.now.links turns p.old p.new) }
        ensures tries { MakesFewBySearch L.Links self.now.links (turns + 1) 6 p.old p.new }
        ensures gives { GivesAtMost L.Links self.now.links 1 p.old p.new }
        ensures settled { IsCallAlone L.Links self.now.links p.old p.new → L.backlog p.new ≡ 0 }
    {
        let _rooted = prepare(&self.links, p, self.greatest, key, turns);
        let answer = call_turns(&self.links, p, self.greatest, key, call, turns);
        self.links.settle(p);
        answer
    }

    /// Inserts as `insert` does, in at most `turns` tries, and stops where a call that added its key may still double the number
    /// of buckets: so an agent leaves the set whose thread is stopped there. It gives its key's bucket no dummy.
    ///
    /// # Errors
    ///
    /// As `insert`.
    pub fn insert_and_stop(
        &self,
        p: &mut L::Pass,
        key: u64,
        turns: u64,
    ) -> Result<bool, ListRefused>
        requires usable { IsUsable L.Links self.now.links p.old }
        ensures usable { IsUsable L.Links self.now.links p.new }
        ensures agent { agent L.Links self.now.links p.new ≡ agent L.Links self.now.links p.old }
        ensures later { IsPrefix (L.journal p.old) (L.journal p.new) }
        ensures added { IfOk result (λ yes. Enters L.Links self.now.links p.old p.new (λ agent. SetEntry.Added agent key yes ∷ [])) }
        ensures none { IfErr result (λ e. EntersNone L.Links self.now.links p.old p.new) }
        ensures no_turns { turns ≡ 0 → result ≡ Err ListRefused.Again }
        ensures no_event { turns ≡ 0 → MakesNoEvent L.Links self.now.links p.old p.new }
        ensures again { result ≡ Err ListRefused.Again → UsesAllTurns L.Links self.now.links turns p.old p.new }
        ensures no_node { result ≡ Err ListRefused.NoNode → LacksRow L.Links self.now.links p.old p.new }
        ensures absent { result ≡ Err ListRefused.NoNode → FindsAbsent L.Links self.now.links key p.old p.new }
        ensures spent { (why : Spent) → result ≡ Err (ListRefused.Spent why) → FindsWorn L.Links self.now.links why p.old p.new }
        ensures tries { MakesFewBySearch L.Links self.now.links turns 3 p.old p.new }
        ensures gives { GivesAtMost L.Links self.now.links 1 p.old p.new }
        ensures settled { IsCallAlone L.Links self.now.links p.old p.new → L.backlog p.new ≡ 0 }
    {
        let turn = insert_key(&self.links, p, self.greatest, key, turns);
        self.links.settle(p);
        answer_of(turn)
    }

    /// Links the dummy of a bucket that has none, in one try, and stops where a call would let the bucket's root name it: so an
    /// agent leaves the set whose thread is stopped there. For tests of what the others do then. Answers whether it linked one:
    /// it is on the chain, and the bucket's root stays null until another call lets it name the dummy. None was linked where the
    /// bucket had one, a link moved meanwhile, no node could be had, or a row is used up.
    pub fn link_dummy_and_stop(&self, p: &mut L::Pass, bucket: u32) -> bool
        requires usable { IsUsable L.Links self.now.links p.old }
        requires bucket { (1 ≤ bucket) × (bucket + 1 < (L.numbers self.now.links).roots) }
        ensures usable { IsUsable L.Links self.now.links p.new }
        ensures agent { agent L.Links self.now.links p.new ≡ agent L.Links self.now.links p.old }
        ensures later { IsPrefix (L.journal p.old) (L.journal p.new) }
        ensures linked { result ≡ true → HasDummyOnChain (heap L.Links self.now.links p.new) bucket }
        ensures own { result ≡ true → LinksDummy L.Links self.now.links bucket p.old p.new }
        ensures unnamed { result ≡ true → IsCallAlone L.Links self.now.links p.old p.new → IsRootSet (heap L.Links self.now.links p.new) bucket → ⊥ }
        ensures missed { result ≡ false → IsCallAlone L.Links self.now.links p.old p.new
            → HasDummyOnChain (heap L.Links self.now.links p.new) bucket
            ⊎ (LacksRow L.Links self.now.links p.old p.new ⊎ ((why : Spent) × FindsWorn L.Links self.now.links why p.old p.new)) }
        ensures none { EntersNone L.Links self.now.links p.old p.new }
        ensures gives { GivesAtMost L.Links self.now.links 1 p.old p.new }
    {
        let turn = stop_a_bucket(&self.links, p, bucket);
        self.links.settle(p);
        has_linked(turn)
    }

    /// What the members of `SharedSet` and `LearnSet` mean here: the history is that of the domain's events; the domain's
    /// agents may step in between; each refusal has its cause.
    pub fn members(&self)
        ensures agent_of { (p : L.Pass) → ⟦<SplitSet<L> as SharedSet>⟧.agent_of self.now p ≡ agent L.Links self.now.links p }
        ensures journal { (p : L.Pass) → ⟦<SplitSet<L> as SharedSet>⟧.journal p ≡ L.journal p }
        ensures history { (journal : _) → ⟦<SplitSet<L> as SharedSet>⟧.history self.now journal ≡ set_history L.Links self.now.links journal }
        ensures usable { (p : L.Pass) → ⟦<SplitSet<L> as SharedSet>⟧.usable self.now p ↔ IsUsable L.Links self.now.links p }
        ensures crowd { (by : ℕ) → ⟦<SplitSet<L> as SharedSet>⟧.crowd self.now by → by < L.agents self.now.links }
        ensures agents { ⟦<SplitSet<L> as LearnSet>⟧.agents self.now ≡ L.agents self.now.links }
        ensures licence { (by turns : ℕ) (why : ListRefused) (journal : _) (from to : ℕ)
            → ⟦<SplitSet<L> as SharedSet>⟧.licence self.now by turns why journal from to
            → HasCause L.Links self.now.links by turns why journal from to }
    {}
}

impl<L: Links<Rule = Split>> SharedSet for SplitSet<L> {
    type Pass = L::Pass;

    type Step = L::Step;

    ghost agent_of = { λ s p. agent L.Links s.links p };

    ghost journal = { λ p. L.journal p };

    ghost history = { λ s journal. set_history L.Links s.links journal };

    ghost usable = { λ s p. IsUsable L.Links s.links p };

    ghost crowd = { λ s agent. agent < L.agents s.links };

    ghost licence = { λ s agent turns why journal from to. HasCause L.Links s.links agent turns why journal from to };

    ghost legal = { λ s p h. seen_legal (L.numbers s.links) (L.seat s.links p).seen (L.events s.links (L.journal p))
        (L.obeys s.links p h.0) (L.seen_is s.links p h.0) };

    ghost licence_stays = { λ s agent turns why seen more from to h.
        cause_stays L.agent_of (L.events s.links) (L.lacking s.links agent seen from to) _
        (λ spent. L.worn s.links agent spent seen from to) _ agent turns why seen more from to
        (L.lacking_stays s.links agent seen more from to)
        (λ spent. L.worn_stays s.links agent spent seen more from to) h };

    ghost grows = { λ s seen more. history_grows L.agent_of (L.events s.links) (L.steps_add s.links) seen more };

    fn agent(&self, p: &L::Pass) -> u32 {
        self.links.agent(p)
    }

    fn insert(&self, p: &mut L::Pass, key: u64, turns: u64) -> Result<bool, ListRefused>
        requires usable { IsUsable L.Links self.now.links p.old }
        ensures usable { IsUsable L.Links self.now.links p.new }
        ensures agent { agent L.Links self.now.links p.new ≡ agent L.Links self.now.links p.old }
        ensures later { IsPrefix (L.journal p.old) (L.journal p.new) }
        ensures rooted { IfOk result (λ yes. RootsBucket L.Links self.now.links key p.old p.new) }
        ensures grows { result ≡ Ok true → GrowsCrowded L.Links self.now.links key p.old p.new }
        ensures added { IfOk result (λ yes. Enters L.Links self.now.links p.old p.new (λ agent. SetEntry.Added agent key yes ∷ [])) }
        ensures none { IfErr result (λ e. EntersNone L.Links self.now.links p.old p.new) }
        ensures licence { IfErr result (λ e. Within (length (L.journal p.old)) (length (L.journal p.new))
            (HasCause L.Links self.now.links (agent L.Links self.now.links p.old) turns e (L.journal p.new))) }
        ensures no_turns { turns ≡ 0 → result ≡ Err ListRefused.Again }
        ensures no_event { turns ≡ 0 → MakesNoEvent L.Links self.now.links p.old p.new }
        ensures again { result ≡ Err ListRefused.Again → UsesAllTurns L.Links self.now.links turns p.old p.new }
        ensures no_node { result ≡ Err ListRefused.NoNode → LacksRow L.Links self.now.links p.old p.new }
        ensures absent { result ≡ Err ListRefused.NoNode → FindsAbsent L.Links self.now.links key p.old p.new }
        ensures spent { (why : Spent) → result ≡ Err (ListRefused.Spent why) → FindsWorn L.Links self.now.links why p.old p.new }
        ensures tries { MakesFewBySearch L.Links self.now.links (turns + 1) 15 p.old p.new }
        ensures gives { GivesAtMost L.Links self.now.links 3 p.old p.new }
        ensures settled { IsCallAlone L.Links self.now.links p.old p.new → L.backlog p.new ≡ 0 }
    {
        let _rooted = prepare(&self.links, p, self.greatest, key, turns); // whatever comes of it, the turns follow
        let turn = insert_key(&self.links, p, self.greatest, key, turns);
        let _grown = grow_after(&self.links, p, self.greatest, turn);
        self.links.settle(p);
        answer_of(turn)
    }

    fn remove(&self, p: &mut L::Pass, key: u64, turns: u64) -> Result<bool, Again>
        requires usable { IsUsable L.Links self.now.links p.old }
        ensures usable { IsUsable L.Links self.now.links p.new }
        ensures agent { agent L.Links self.now.links p.new ≡ agent L.Links self.now.links p.old }
        ensures later { IsPrefix (L.journal p.old) (L.journal p.new) }
        ensures rooted { IfOk result (λ yes. RootsBucket L.Links self.now.links key p.old p.new) }
        ensures few { result ≡ Ok true → TakesFew L.Links self.now.links 1 key p.old p.new }
        ensures removed { IfOk result (λ yes. Enters L.Links self.now.links p.old p.new (λ agent. SetEntry.Removed agent key yes ∷ [])) }
        ensures none { IfErr result (λ e. EntersNone L.Links self.now.links p.old p.new) }
        ensures licence { IfErr result (λ e. Within (length (L.journal p.old)) (length (L.journal p.new))
            (HasCause L.Links self.now.links (agent L.Links self.now.links p.old) turns ListRefused.Again (L.journal p.new))) }
        ensures no_turns { turns ≡ 0 → IsErr result }
        ensures no_event { turns ≡ 0 → MakesNoEvent L.Links self.now.links p.old p.new }
        ensures again { IfErr result (λ e. UsesAllTurns L.Links self.now.links turns p.old p.new) }
        ensures tries { MakesFewBySearch L.Links self.now.links (turns + 1) 6 p.old p.new }
        ensures gives { GivesAtMost L.Links self.now.links 1 p.old p.new }
        ensures settled { IsCallAlone L.Links self.now.links p.old p.new → L.backlog p.new ≡ 0 }
    {
        self.answer(p, key, Call::Remove, turns)
    }

    fn contains(&self, p: &mut L::Pass, key: u64, turns: u64) -> Result<bool, Again>
        requires usable { IsUsable L.Links self.now.links p.old }
        ensures usable { IsUsable L.Links self.now.links p.new }
        ensures agent { agent L.Links self.now.links p.new ≡ agent L.Links self.now.links p.old }
        ensures later { IsPrefix (L.journal p.old) (L.journal p.new) }
        ensures rooted { IfOk result (λ yes. RootsBucket L.Links self.now.links key p.old p.new) }
        ensures few { turns ≢ 0 → LooksFew L.Links self.now.links key p.old p.new }
        ensures asked { IfOk result (λ yes. Enters L.Links self.now.links p.old p.new (λ agent. SetEntry.Asked agent key yes ∷ [])) }
        ensures none { IfErr result (λ e. EntersNone L.Links self.now.links p.old p.new) }
        ensures licence { IfErr result (λ e. Within (length (L.journal p.old)) (length (L.journal p.new))
            (HasCause L.Links self.now.links (agent L.Links self.now.links p.old) turns ListRefused.Again (L.journal p.new))) }
        ensures no_turns { turns ≡ 0 → IsErr result }
        ensures no_event { turns ≡ 0 → MakesNoEvent L.Links self.now.links p.old p.new }
        ensures again { IfErr result (λ e. UsesAllTurns L.Links self.now.links turns p.old p.new) }
        ensures tries { MakesFewBySearch L.Links self.now.links (turns + 1) 6 p.old p.new }
        ensures gives { GivesAtMost L.Links self.now.links 1 p.old p.new }
        ensures settled { IsCallAlone L.Links self.now.links p.old p.new → L.backlog p.new ≡ 0 }
    {
        self.answer(p, key, Call::Ask, turns)
    }
}

impl<L: Links<Rule = Split>> LearnSet for SplitSet<L> {
    ghost agents = { λ s. L.agents s.links };

    fn learn(&self, into: &mut L::Pass, from: &mut L::Pass) {
        self.links.learn(into, from);
    }

    ghost agents_below = { λ s p h. (
      (L.agents_below s.links p h.0).0,
      entries_below (L.numbers s.links) (L.agents s.links) (L.seat s.links p).seen
          (L.events s.links (L.journal p)) (L.allowed s.links p h.0) (L.agents_below s.links p h.0).1 (L.seen_is s.links p h.0),
    ) };

    ghost crowd_below = { λ s agent below. below };
}
