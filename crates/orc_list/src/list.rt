//! The list, and its calls.

ghost use Rattle.std.specs.Prelude.{◌≡◌, ◌⊎◌, [], ◌∷◌, Err, IfErr, IfOk, IsErr, Ok, false, true};
ghost use mathlib.Core.List.{IsPrefix};
ghost use Rattle.orc_heap.specs.{Domains.{IsCallAlone, MakesNoEvent, agent}, Seats.{IsIdle}};
ghost use Rattle.orc_history.specs.{declared.set.{ListRefused.{ListRefused}, SetEntry.{SetEntry}}};
ghost use Rattle.orc_list.specs.{
  ListCalls.{CostsOthers, Enters, EntersNone, FindsAbsent, FindsWorn, GivesAtMost, IsRootOf, LacksRow, LeavesMarked, LeavesOffChain, LeavesRunOffChain, LooksAlone, MakesFew, StopsBeforeWorn, UsesAllTurns},
};
ghost use Rattle.orc_ordered_search.specs.Entries.{entry_by};

use crate::answer::call_turns;
use crate::insert::insert_key;
use crate::remove::stop_a_remove;
use orc_chain_rule::Chain;
use orc_fault::{Again, Spent};
use orc_heap::Links;
use orc_history::ListRefused;
use orc_ordered_search::Call;

/// Sorted lists over a domain of links, one chain of nodes at each root. A key stands on the chain of the root that is
/// its remainder by the number of roots. No call takes memory or waits.
///
/// A call's part of the journal begins with the first step of its own agent.
#[derive(Drop)]
pub struct List<L: Links<Rule = Chain>> {
    pub(crate) links: L,
}

impl<L: Links<Rule = Chain>> List<L> {
    /// The lists of a domain.
    pub fn new(links: L) -> List<L>
        ensures { result.links ≡ links }
    {
        List { links }
    }

    /// The domain of links that the lists stand on.
    pub fn links(&self) -> &L
        ensures { result.now ≡ self.now.links }
    {
        &self.links
    }

    /// Gives the lists up for their domain of links.
    pub fn into_links(self) -> L
        ensures { result ≡ self.links }
    {
        let List { links } = self;
        links
    }

    /// Adds a key, and answers true where it was absent, in at most `turns` tries. Its agent makes at most two events in
    /// each try for each node at whose link it looked, and 4, and 3 more for the new node.
    ///
    /// An insert that answered true leaves the marked nodes that it found at the place for the key on no chain, whatever
    /// other agents do.
    ///
    /// # Errors
    ///
    /// * `Again` if all tries were used up, each by a Move of another agent: one try for each key that was added meanwhile, two
    ///   for each that was taken out, and one for each marked node that was left, at most. With no turns it makes no event.
    /// * `NoNode` if the key was found absent, and the domain had no node to give.
    /// * `Spent` if a row that was to be linked is used up.
    pub fn insert(
        &self,
        p: &mut L::Pass,
        root: u32,
        key: u64,
        turns: u64,
    ) -> Result<bool, ListRefused>
        requires pass { L.belongs self.now.links p.old }
        requires idle { IsIdle (L.seat self.now.links p.old) }
        requires root { IsRootOf L.Links self.now.links root key }
        ensures pass { L.belongs self.now.links p.new }
        ensures idle { IsIdle (L.seat self.now.links p.new) }
        ensures agent { agent L.Links self.now.links p.new ≡ agent L.Links self.now.links p.old }
        ensures later { IsPrefix (L.journal p.old) (L.journal p.new) }
        ensures added { IfOk result (λ yes. Enters L.Links self.now.links p.old p.new (λ agent. SetEntry.Added agent key yes ∷ [])) }
        ensures none { IfErr result (λ e. EntersNone L.Links self.now.links p.old p.new) }
        ensures no_turns { turns ≡ 0 → result ≡ Err ListRefused.Again }
        ensures no_event { turns ≡ 0 → MakesNoEvent L.Links self.now.links p.old p.new }
        ensures again { result ≡ Err ListRefused.Again → UsesAllTurns L.Links self.now.links turns p.old p.new }
        ensures cost { result ≡ Err ListRefused.Again → CostsOthers L.Links self.now.links turns p.old p.new }
        ensures no_node { result ≡ Err ListRefused.NoNode → LacksRow L.Links self.now.links p.old p.new }
        ensures absent { result ≡ Err ListRefused.NoNode → FindsAbsent L.Links self.now.links key p.old p.new }
        ensures spent { (why : Spent) → result ≡ Err (ListRefused.Spent why) → FindsWorn L.Links self.now.links why p.old p.new }
        ensures gives { GivesAtMost L.Links self.now.links 1 p.old p.new }
        ensures tries { MakesFew L.Links self.now.links turns 3 p.old p.new }
        ensures off_the_chain { result ≡ Ok true → LeavesRunOffChain L.Links self.now.links key p.old p.new }
        ensures settled { IsCallAlone L.Links self.now.links p.old p.new → L.backlog p.new ≡ 0 }
    {
        let answer = insert_key(&self.links, p, root, key, turns);
        self.links.settle(p);
        answer
    }

    /// Takes a key out, and answers true where it was present, in at most `turns` tries. Its agent makes at most two
    /// events in each try for each node at whose link it looked, and 4.
    ///
    /// Where no other agent has a step in its part of the journal, a remove that answered true leaves the node of the key, and
    /// the marked nodes before it, on no chain; unless a row was read worn, and the node behind them, to which a link was to be
    /// made, is one to which at least 32 links were made.
    ///
    /// # Errors
    ///
    /// `Again` if all tries were used up, each by a Move of another agent: one try for each key that was added meanwhile, two
    /// for each that was taken out, and one for each marked node that was left, at most. With no turns it makes no event.
    pub fn remove(&self, p: &mut L::Pass, root: u32, key: u64, turns: u64) -> Result<bool, Again>
        requires pass { L.belongs self.now.links p.old }
        requires idle { IsIdle (L.seat self.now.links p.old) }
        requires root { IsRootOf L.Links self.now.links root key }
        ensures pass { L.belongs self.now.links p.new }
        ensures idle { IsIdle (L.seat self.now.links p.new) }
        ensures agent { agent L.Links self.now.links p.new ≡ agent L.Links self.now.links p.old }
        ensures later { IsPrefix (L.journal p.old) (L.journal p.new) }
        ensures removed { IfOk result (λ yes. Enters L.Links self.now.links p.old p.new (λ agent. SetEntry.Removed agent key yes ∷ [])) }
        ensures none { IfErr result (λ e. EntersNone L.Links self.now.links p.old p.new) }
        ensures no_turns { turns ≡ 0 → IsErr result }
        ensures no_event { turns ≡ 0 → MakesNoEvent L.Links self.now.links p.old p.new }
        ensures again { IfErr result (λ e. UsesAllTurns L.Links self.now.links turns p.old p.new) }
        ensures cost { IfErr result (λ e. CostsOthers L.Links self.now.links turns p.old p.new) }
        ensures gives { GivesAtMost L.Links self.now.links 0 p.old p.new }
        ensures tries { MakesFew L.Links self.now.links turns 0 p.old p.new }
        ensures off_the_chain { result ≡ Ok true → IsCallAlone L.Links self.now.links p.old p.new
            → LeavesOffChain L.Links self.now.links key p.old p.new ⊎ StopsBeforeWorn L.Links self.now.links key p.old p.new }
        ensures settled { IsCallAlone L.Links self.now.links p.old p.new → L.backlog p.new ≡ 0 }
    {
        self.answer(p, root, key, Call::Remove, turns)
    }

    /// Answers whether a key is present, in at most `turns` tries. Its agent makes at most two events in each try for each
    /// node at whose link it looked, and 4.
    ///
    /// # Errors
    ///
    /// `Again` if all tries were used up, each by a Move of another agent: one try for each key that was added meanwhile, two
    /// for each that was taken out, and one for each marked node that was left, at most. With no turns it makes no event.
    pub fn contains(&self, p: &mut L::Pass, root: u32, key: u64, turns: u64) -> Result<bool, Again>
        requires pass { L.belongs self.now.links p.old }
        requires idle { IsIdle (L.seat self.now.links p.old) }
        requires root { IsRootOf L.Links self.now.links root key }
        ensures pass { L.belongs self.now.links p.new }
        ensures idle { IsIdle (L.seat self.now.links p.new) }
        ensures agent { agent L.Links self.now.links p.new ≡ agent L.Links self.now.links p.old }
        ensures later { IsPrefix (L.journal p.old) (L.journal p.new) }
        ensures asked { IfOk result (λ yes. Enters L.Links self.now.links p.old p.new (λ agent. SetEntry.Asked agent key yes ∷ [])) }
        ensures none { IfErr result (λ e. EntersNone L.Links self.now.links p.old p.new) }
        ensures no_turns { turns ≡ 0 → IsErr result }
        ensures no_event { turns ≡ 0 → MakesNoEvent L.Links self.now.links p.old p.new }
        ensures again { IfErr result (λ e. UsesAllTurns L.Links self.now.links turns p.old p.new) }
        ensures cost { IfErr result (λ e. CostsOthers L.Links self.now.links turns p.old p.new) }
        ensures gives { GivesAtMost L.Links self.now.links 0 p.old p.new }
        ensures tries { MakesFew L.Links self.now.links turns 0 p.old p.new }
        ensures settled { IsCallAlone L.Links self.now.links p.old p.new → L.backlog p.new ≡ 0 }
    {
        self.answer(p, root, key, Call::Ask, turns)
    }

    // Answers whether the key is present, or takes it out, in at most so many turns.
    fn answer(
        &self,
        p: &mut L::Pass,
        root: u32,
        key: u64,
        call: Call,
        turns: u64,
    ) -> Result<bool, Again>
        requires pass { L.belongs self.now.links p.old }
        requires idle { IsIdle (L.seat self.now.links p.old) }
        requires root { IsRootOf L.Links self.now.links root key }
        ensures pass { L.belongs self.now.links p.new }
        ensures idle { IsIdle (L.seat self.now.links p.new) }
        ensures agent { agent L.Links self.now.links p.new ≡ agent L.Links self.now.links p.old }
        ensures later { IsPrefix (L.journal p.old) (L.journal p.new) }
        ensures entered { IfOk result (λ yes. Enters L.Links self.now.links p.old p.new (λ agent. entry_by call agent key yes ∷ [])) }
        ensures none { IfErr result (λ e. EntersNone L.Links self.now.links p.old p.new) }
        ensures no_turns { turns ≡ 0 → IsErr result }
        ensures no_event { turns ≡ 0 → MakesNoEvent L.Links self.now.links p.old p.new }
        ensures again { IfErr result (λ e. UsesAllTurns L.Links self.now.links turns p.old p.new) }
        ensures cost { IfErr result (λ e. CostsOthers L.Links self.now.links turns p.old p.new) }
        ensures gives { GivesAtMost L.Links self.now.links 0 p.old p.new }
        ensures tries { MakesFew L.Links self.now.links turns 0 p.old p.new }
        ensures off_the_chain { call ≡ Call.Remove → result ≡ Ok true → IsCallAlone L.Links self.now.links p.old p.new
            → LeavesOffChain L.Links self.now.links key p.old p.new ⊎ StopsBeforeWorn L.Links self.now.links key p.old p.new }
        ensures settled { IsCallAlone L.Links self.now.links p.old p.new → L.backlog p.new ≡ 0 }
    {
        let answer = call_turns(&self.links, p, root, key, call, turns);
        self.links.settle(p);
        answer
    }

    /// Marks the node with the key in one try, and leaves it on its chain: the state in which a thread leaves the list that
    /// is stopped in `remove` before its last step. For tests of what the others do then. Answers whether a node was marked,
    /// which is the call's only Move: the node stays on its chain until another call leads past it. None was marked where the
    /// key was absent, or a link moved meanwhile.
    pub fn mark_and_stop(&self, p: &mut L::Pass, root: u32, key: u64) -> bool
        requires pass { L.belongs self.now.links p.old }
        requires idle { IsIdle (L.seat self.now.links p.old) }
        requires root { IsRootOf L.Links self.now.links root key }
        ensures pass { L.belongs self.now.links p.new }
        ensures idle { IsIdle (L.seat self.now.links p.new) }
        ensures later { IsPrefix (L.journal p.old) (L.journal p.new) }
        ensures agent { agent L.Links self.now.links p.new ≡ agent L.Links self.now.links p.old }
        ensures removed { result ≡ true → Enters L.Links self.now.links p.old p.new (λ agent. SetEntry.Removed agent key true ∷ []) }
        ensures none { result ≡ false → EntersNone L.Links self.now.links p.old p.new }
        ensures marked { result ≡ true → LeavesMarked L.Links self.now.links key p.old p.new }
        ensures unmoved { result ≡ false → LooksAlone L.Links self.now.links p.old p.new }
        ensures absent { result ≡ false → IsCallAlone L.Links self.now.links p.old p.new → FindsAbsent L.Links self.now.links key p.old p.new }
    {
        stop_a_remove(&self.links, p, root, key)
    }
}
