//! The set, and its calls.

ghost use Rattle.std.specs.Prelude.{◌≡◌, ◌⊎◌, ◌<◌, ◌%◌, ◌↔◌, ◌∷◌, [], ℕ, Err, IfErr, IfOk, IsErr, Ok, false, length, true};
ghost use mathlib.Core.List.{IsPrefix};
ghost use Rattle.orc_heap.specs.Domains.{IsCallAlone, MakesNoEvent, agent};
ghost use Rattle.orc_history.specs.{Journals.{Within}, declared.set.{ListRefused.{ListRefused}, SetEntry.{SetEntry}}};
ghost use Rattle.orc_list.specs.{
  ListCalls.{CostsOthers, Enters, EntersNone, FindsAbsent, FindsWorn, GivesAtMost, LacksRow, LeavesMarked, LeavesOffChain, LeavesRunOffChain, LooksAlone, MakesFew, StopsBeforeWorn, UsesAllTurns},
  SetMembers.{HasCause, IsUsable, set_history},
  Laws.SetLaws.{cause_stays, entries_below, history_grows, seen_legal},
};

use orc_chain_rule::Chain;
use orc_fault::{Again, Spent};
use orc_heap::Links;
use orc_history::{LearnSet, ListRefused, SharedSet};
use orc_list::List;

/// A set of numbers that agents share, over a domain of links: a sorted list at each root, its bucket. A key stands in the
/// bucket that is its remainder by the number of roots. No call takes memory or waits.
#[derive(Drop)]
pub struct Set<L: Links<Rule = Chain>> {
    list: List<L>,
    roots: u32,
    ghost all_roots: { (0 < roots) × ((L.numbers list.links).roots ≡ roots) },
}

// The root of the key's bucket, where there are so many.
pub(crate) fn root_of(key: u64, roots: u32) -> u32
    requires some { 0 < roots }
    ensures below { result < roots }
    ensures root { result ≡ key % roots }
{
    (key % u64::from(roots)) as u32
}

impl<L: Links<Rule = Chain>> Set<L> {
    /// The set of all lists of a domain with so many roots.
    pub fn new(list: List<L>, roots: u32) -> Set<L>
        requires some { 0 < roots }
        requires all { (L.numbers list.links).roots ≡ roots }
        ensures { result.list ≡ list }
    {
        Set { list, roots }
    }

    /// The domain of links that the set stands on.
    pub fn links(&self) -> &L
        ensures { result.now ≡ self.now.list.links }
    {
        self.list.links()
    }

    /// Gives the set up for its domain of links.
    pub fn into_links(self) -> L
        ensures { result ≡ self.list.links }
    {
        let Set { list, roots: _ } = self;
        list.into_links()
    }

    /// Marks the node with the key in one try, and leaves it on its chain, as `List::mark_and_stop` does.
    pub fn mark_and_stop(&self, p: &mut L::Pass, key: u64) -> bool
        requires usable { IsUsable L.Links self.now.list.links p.old }
        ensures usable { IsUsable L.Links self.now.list.links p.new }
        ensures later { IsPrefix (L.journal p.old) (L.journal p.new) }
        ensures agent { agent L.Links self.now.list.links p.new ≡ agent L.Links self.now.list.links p.old }
        ensures removed { result ≡ true → Enters L.Links self.now.list.links p.old p.new (λ agent. SetEntry.Removed agent key true ∷ []) }
        ensures none { result ≡ false → EntersNone L.Links self.now.list.links p.old p.new }
        ensures marked { result ≡ true → LeavesMarked L.Links self.now.list.links key p.old p.new }
        ensures unmoved { result ≡ false → LooksAlone L.Links self.now.list.links p.old p.new }
        ensures absent { result ≡ false → IsCallAlone L.Links self.now.list.links p.old p.new → FindsAbsent L.Links self.now.list.links key p.old p.new }
    {
        self.list.mark_and_stop(p, root_of(key, self.roots), key)
    }

    /// What the members of `SharedSet` and `LearnSet` mean here: the history is that of the domain's events, of all buckets
    /// in one; the domain's agents may step in between; each refusal has its cause.
    pub fn members(&self)
        ensures agent_of { (p : L.Pass) → ⟦<Set<L> as SharedSet>⟧.agent_of self.now p ≡ agent L.Links self.now.list.links p }
        ensures journal { (p : L.Pass) → ⟦<Set<L> as SharedSet>⟧.journal p ≡ L.journal p }
        ensures history { (journal : _) → ⟦<Set<L> as SharedSet>⟧.history self.now journal ≡ set_history L.Links self.now.list.links journal }
        ensures usable { (p : L.Pass) → ⟦<Set<L> as SharedSet>⟧.usable self.now p ↔ IsUsable L.Links self.now.list.links p }
        ensures crowd { (by : ℕ) → ⟦<Set<L> as SharedSet>⟧.crowd self.now by → by < L.agents self.now.list.links }
        ensures agents { ⟦<Set<L> as LearnSet>⟧.agents self.now ≡ L.agents self.now.list.links }
        ensures licence { (by turns : ℕ) (why : ListRefused) (journal : _) (from to : ℕ)
            → ⟦<Set<L> as SharedSet>⟧.licence self.now by turns why journal from to
            → HasCause L.Links self.now.list.links by turns why journal from to }
    {}
}

impl<L: Links<Rule = Chain>> SharedSet for Set<L> {
    type Pass = L::Pass;

    type Step = L::Step;

    ghost agent_of = { λ s p. agent L.Links s.list.links p };

    ghost journal = { λ p. L.journal p };

    ghost history = { λ s journal. set_history L.Links s.list.links journal };

    ghost usable = { λ s p. IsUsable L.Links s.list.links p };

    ghost crowd = { λ s agent. agent < L.agents s.list.links };

    ghost licence = { λ s agent turns why journal from to. HasCause L.Links s.list.links agent turns why journal from to };

    ghost legal = { λ s p h. seen_legal (L.numbers s.list.links) (L.seat s.list.links p).seen (L.events s.list.links (L.journal p))
        (L.obeys s.list.links p h.0) (L.seen_is s.list.links p h.0) };

    ghost licence_stays = { λ s agent turns why seen more from to h.
        cause_stays (L.numbers s.list.links) L.agent_of (L.events s.list.links) (L.lacking s.list.links agent seen from to) _
        (λ spent. L.worn s.list.links agent spent seen from to) _ agent turns why seen more from to
        (L.lacking_stays s.list.links agent seen more from to)
        (λ spent. L.worn_stays s.list.links agent spent seen more from to) h };

    ghost grows = { λ s seen more. history_grows L.agent_of (L.events s.list.links) (L.steps_add s.list.links) seen more };

    fn agent(&self, p: &L::Pass) -> u32 {
        self.list.links().agent(p)
    }

    fn insert(&self, p: &mut L::Pass, key: u64, turns: u64) -> Result<bool, ListRefused>
        requires usable { IsUsable L.Links self.now.list.links p.old }
        ensures usable { IsUsable L.Links self.now.list.links p.new }
        ensures agent { agent L.Links self.now.list.links p.new ≡ agent L.Links self.now.list.links p.old }
        ensures later { IsPrefix (L.journal p.old) (L.journal p.new) }
        ensures added { IfOk result (λ yes. Enters L.Links self.now.list.links p.old p.new (λ agent. SetEntry.Added agent key yes ∷ [])) }
        ensures none { IfErr result (λ e. EntersNone L.Links self.now.list.links p.old p.new) }
        ensures licence { IfErr result (λ e. Within (length (L.journal p.old)) (length (L.journal p.new))
            (HasCause L.Links self.now.list.links (agent L.Links self.now.list.links p.old) turns e (L.journal p.new))) }
        ensures no_turns { turns ≡ 0 → result ≡ Err ListRefused.Again }
        ensures no_event { turns ≡ 0 → MakesNoEvent L.Links self.now.list.links p.old p.new }
        ensures again { result ≡ Err ListRefused.Again → UsesAllTurns L.Links self.now.list.links turns p.old p.new }
        ensures cost { result ≡ Err ListRefused.Again → CostsOthers L.Links self.now.list.links turns p.old p.new }
        ensures no_node { result ≡ Err ListRefused.NoNode → LacksRow L.Links self.now.list.links p.old p.new }
        ensures absent { result ≡ Err ListRefused.NoNode → FindsAbsent L.Links self.now.list.links key p.old p.new }
        ensures spent { (why : Spent) → result ≡ Err (ListRefused.Spent why) → FindsWorn L.Links self.now.list.links why p.old p.new }
        ensures gives { GivesAtMost L.Links self.now.list.links 1 p.old p.new }
        ensures tries { MakesFew L.Links self.now.list.links turns 3 p.old p.new }
        ensures off_the_chain { result ≡ Ok true → LeavesRunOffChain L.Links self.now.list.links key p.old p.new }
        ensures settled { IsCallAlone L.Links self.now.list.links p.old p.new → L.backlog p.new ≡ 0 }
    {
        self.list.insert(p, root_of(key, self.roots), key, turns)
    }

    fn remove(&self, p: &mut L::Pass, key: u64, turns: u64) -> Result<bool, Again>
        requires usable { IsUsable L.Links self.now.list.links p.old }
        ensures usable { IsUsable L.Links self.now.list.links p.new }
        ensures agent { agent L.Links self.now.list.links p.new ≡ agent L.Links self.now.list.links p.old }
        ensures later { IsPrefix (L.journal p.old) (L.journal p.new) }
        ensures removed { IfOk result (λ yes. Enters L.Links self.now.list.links p.old p.new (λ agent. SetEntry.Removed agent key yes ∷ [])) }
        ensures none { IfErr result (λ e. EntersNone L.Links self.now.list.links p.old p.new) }
        ensures licence { IfErr result (λ e. Within (length (L.journal p.old)) (length (L.journal p.new))
            (HasCause L.Links self.now.list.links (agent L.Links self.now.list.links p.old) turns ListRefused.Again (L.journal p.new))) }
        ensures no_turns { turns ≡ 0 → IsErr result }
        ensures no_event { turns ≡ 0 → MakesNoEvent L.Links self.now.list.links p.old p.new }
        ensures again { IfErr result (λ e. UsesAllTurns L.Links self.now.list.links turns p.old p.new) }
        ensures cost { IfErr result (λ e. CostsOthers L.Links self.now.list.links turns p.old p.new) }
        ensures gives { GivesAtMost L.Links self.now.list.links 0 p.old p.new }
        ensures tries { MakesFew L.Links self.now.list.links turns 0 p.old p.new }
        ensures off_the_chain { result ≡ Ok true → IsCallAlone L.Links self.now.list.links p.old p.new
            → LeavesOffChain L.Links self.now.list.links key p.old p.new ⊎ StopsBeforeWorn L.Links self.now.list.links key p.old p.new }
        ensures settled { IsCallAlone L.Links self.now.list.links p.old p.new → L.backlog p.new ≡ 0 }
    {
        self.list.remove(p, root_of(key, self.roots), key, turns)
    }

    fn contains(&self, p: &mut L::Pass, key: u64, turns: u64) -> Result<bool, Again>
        requires usable { IsUsable L.Links self.now.list.links p.old }
        ensures usable { IsUsable L.Links self.now.list.links p.new }
        ensures agent { agent L.Links self.now.list.links p.new ≡ agent L.Links self.now.list.links p.old }
        ensures later { IsPrefix (L.journal p.old) (L.journal p.new) }
        ensures asked { IfOk result (λ yes. Enters L.Links self.now.list.links p.old p.new (λ agent. SetEntry.Asked agent key yes ∷ [])) }
        ensures none { IfErr result (λ e. EntersNone L.Links self.now.list.links p.old p.new) }
        ensures licence { IfErr result (λ e. Within (length (L.journal p.old)) (length (L.journal p.new))
            (HasCause L.Links self.now.list.links (agent L.Links self.now.list.links p.old) turns ListRefused.Again (L.journal p.new))) }
        ensures no_turns { turns ≡ 0 → IsErr result }
        ensures no_event { turns ≡ 0 → MakesNoEvent L.Links self.now.list.links p.old p.new }
        ensures again { IfErr result (λ e. UsesAllTurns L.Links self.now.list.links turns p.old p.new) }
        ensures cost { IfErr result (λ e. CostsOthers L.Links self.now.list.links turns p.old p.new) }
        ensures gives { GivesAtMost L.Links self.now.list.links 0 p.old p.new }
        ensures tries { MakesFew L.Links self.now.list.links turns 0 p.old p.new }
        ensures settled { IsCallAlone L.Links self.now.list.links p.old p.new → L.backlog p.new ≡ 0 }
    {
        self.list.contains(p, root_of(key, self.roots), key, turns)
    }
}

impl<L: Links<Rule = Chain>> LearnSet for Set<L> {
    ghost agents = { λ s. L.agents s.list.links };

    fn learn(&self, into: &mut L::Pass, from: &mut L::Pass) {
        self.list.links().learn(into, from);
    }

    ghost agents_below = { λ s p h. (
      (L.agents_below s.list.links p h.0).0,
      entries_below (L.numbers s.list.links) (L.agents s.list.links) (L.seat s.list.links p).seen
          (L.events s.list.links (L.journal p)) (L.allowed s.list.links p h.0) (L.agents_below s.list.links p h.0).1 (L.seen_is s.list.links p h.0),
    ) };

    ghost crowd_below = { λ s agent below. below };
}
