//! The cell, and its calls.

ghost use Rattle.std.specs.Prelude.{◌≡◌, ◌≢◌, ◌⊎◌, ◌+◌, ◌*◌, ◌<◌, ◌^◌, [], ◌∷◌, Err, IfErr, IfOk, IfSome, IsErr, None, length};
ghost use mathlib.Core.List.{IsPrefix};
ghost use Rattle.orc_fault.specs.declared.Spent.{Spent as SpentRow};
ghost use Rattle.orc_heap.specs.{Domains.{IsCallAlone, MakesAtMost, MakesNoEvent, agent, heap}, Seats.{IsIdle}, Slots.{id_in}};
ghost use Rattle.orc_history.specs.Journals.{LearnsEntries, Within};
ghost use Rattle.orc_pairs_rule.specs.{
  CellHistory.{IsLegalCell, agent_of_entry, no_parts, parts_after},
  PairsDiscipline.{HasPart, ShowsParts, entries_of},
  declared.entry.CellEntry.{CellEntry},
};
ghost use Rattle.orc_cell.specs.{
  CellCalls.{Enters, EntersNone, FindsWorn, GivesAtMost, IsUsable, LacksRow, StagesPart, UsesAllTurns, history},
  Publishes.{IsPublished, part_count},
  Turns.{IsCellDomain},
  declared.refused.CellRefused.{CellRefused},
};

use crate::new_parts::{Staging, stage, unstage};
use crate::read::read_turns;
use crate::refused::CellRefused;
use crate::with_pair::publish_parts;
use orc_fault::Again;
use orc_heap::{Held, Links};
use orc_pairs_rule::Pairs;

/// A cell of two parts, left and right, over a domain of links. Root 0 names a pair node, whose first link names the left
/// part and whose second link the right one; a part that doesn't change is shared with the version before. A cell starts as
/// (0, 0). No call takes memory or waits.
///
/// A call's part of the journal begins with the first step of its own agent.
#[derive(Drop)]
pub struct Cell<L: Links<Rule = Pairs>> {
    links: L,
    ghost made: { IsCellDomain (L.numbers links) (L.agents links) (L.opening links) },
}

// The roots 1 + 2a and 2 + 2a, by which agent a names its new parts.
fn staging_roots(agent: u32) -> (u32, u32)
    requires { 2 + 2 * agent < 2 ^ 32 }
    ensures { (result.0 ≡ 1 + 2 * agent) × (result.1 ≡ 2 + 2 * agent) }
{
    (1 + 2 * agent, 2 + 2 * agent)
}

impl<L: Links<Rule = Pairs>> Cell<L> {
    /// The cell of a new domain without a seed, whose nodes have two links, with 1 + 2 × agents roots, fewer than 2^32.
    pub fn new(links: L) -> Cell<L>
        requires { IsCellDomain (L.numbers links) (L.agents links) (L.opening links) }
        ensures { result.links ≡ links }
    {
        Cell { links }
    }

    /// The domain of links that the cell stands on.
    pub fn links(&self) -> &L
        ensures { result.now ≡ self.now.links }
    {
        &self.links
    }

    /// Gives the cell up for its domain of links.
    pub fn into_links(self) -> L
        ensures { result ≡ self.links }
    {
        let Cell { links } = self;
        links
    }

    /// Replaces the parts that are given, at least one, and keeps the others, all at once, in at most `turns` tries.
    /// Answers both parts as they are then. It gives at most three nodes, and where its pass had seen a published pair, no
    /// more than the new pair and the parts that are given. It leaves its agent's staging roots null. Its agent makes at most 6
    /// events in each try, and 15 for what comes before and after them.
    ///
    /// # Errors
    ///
    /// * `Again` if all tries were used up, each by another agent's publish. With no turns it makes no event.
    /// * `NoNode` if the domain had no node to give.
    /// * `Spent` if the row of a part that was to be linked is used up.
    pub fn publish(
        &self,
        p: &mut L::Pass,
        left: Option<u64>,
        right: Option<u64>,
        turns: u64,
    ) -> Result<(u64, u64), CellRefused>
        requires usable { IsUsable L.Links self.now.links p.old }
        requires given { (left ≢ None) ⊎ (right ≢ None) }
        ensures usable { IsUsable L.Links self.now.links p.new }
        ensures agent { agent L.Links self.now.links p.new ≡ agent L.Links self.now.links p.old }
        ensures later { IsPrefix (L.journal p.old) (L.journal p.new) }
        ensures published { IfOk result (λ now. Enters L.Links self.now.links p.old p.new
            (λ agent. CellEntry.Published agent left right now.0 now.1 ∷ [])) }
        ensures none { IfErr result (λ e. EntersNone L.Links self.now.links p.old p.new) }
        ensures no_turns { turns ≡ 0 → result ≡ Err CellRefused.Again }
        ensures no_event { turns ≡ 0 → MakesNoEvent L.Links self.now.links p.old p.new }
        ensures again { result ≡ Err CellRefused.Again → UsesAllTurns L.Links self.now.links turns p.old p.new }
        ensures no_node { result ≡ Err CellRefused.NoNode → LacksRow L.Links self.now.links p.old p.new }
        ensures spent { (why : SpentRow) → result ≡ Err (CellRefused.Spent why) → FindsWorn L.Links self.now.links why p.old p.new }
        ensures gives { GivesAtMost L.Links self.now.links 3 p.old p.new }
        ensures shared { IsPublished (heap L.Links self.now.links p.old)
            → GivesAtMost L.Links self.now.links (1 + part_count left + part_count right) p.old p.new }
        ensures tries { MakesAtMost L.Links self.now.links (6 * turns + 15) p.old p.new }
        ensures settled { IsCallAlone L.Links self.now.links p.old p.new → L.backlog p.new ≡ 0 }
    {
        let agent = self.links.agent(p);
        let roots = staging_roots(agent);
        let answer = publish_parts(&self.links, p, roots, left, right, turns);
        self.links.settle(p);
        answer
    }

    /// Reads both parts of one version, in at most `turns` tries. Its agent makes at most 7 events in each.
    ///
    /// # Errors
    ///
    /// `Again` if all tries were used up, each by another agent's publish. With no turns it makes no event.
    pub fn read(&self, p: &mut L::Pass, turns: u64) -> Result<(u64, u64), Again>
        requires usable { IsUsable L.Links self.now.links p.old }
        ensures usable { IsUsable L.Links self.now.links p.new }
        ensures agent { agent L.Links self.now.links p.new ≡ agent L.Links self.now.links p.old }
        ensures later { IsPrefix (L.journal p.old) (L.journal p.new) }
        ensures seen { IfOk result (λ now. Enters L.Links self.now.links p.old p.new (λ agent. CellEntry.Seen agent now.0 now.1 ∷ [])) }
        ensures none { IfErr result (λ e. EntersNone L.Links self.now.links p.old p.new) }
        ensures no_turns { turns ≡ 0 → IsErr result }
        ensures no_event { turns ≡ 0 → MakesNoEvent L.Links self.now.links p.old p.new }
        ensures again { IfErr result (λ e. UsesAllTurns L.Links self.now.links turns p.old p.new) }
        ensures gives { GivesAtMost L.Links self.now.links 0 p.old p.new }
        ensures tries { MakesAtMost L.Links self.now.links (7 * turns) p.old p.new }
        ensures settled { IsCallAlone L.Links self.now.links p.old p.new → L.backlog p.new ≡ 0 }
    {
        let answer = read_turns(&self.links, p, turns);
        self.links.settle(p);
        answer
    }

    /// Stages a new left part, as a publish of it begins, and stops there: the first staging root of the pass's agent names the
    /// part, and the pass holds it. Answers the part, or None where the domain had no node to give, which leaves all as it was.
    /// While it is staged the pass may not call; `unstage` goes on. Its agent makes at most 4 events.
    pub fn stage_and_stop(&self, p: &mut L::Pass, left: u64) -> Option<Held>
        requires usable { IsUsable L.Links self.now.links p.old }
        ensures agent { agent L.Links self.now.links p.new ≡ agent L.Links self.now.links p.old }
        ensures later { IsPrefix (L.journal p.old) (L.journal p.new) }
        ensures staged { IfSome result (λ part. StagesPart L.Links self.now.links part p.new) }
        ensures left { IfSome result (λ part. HasPart (heap L.Links self.now.links p.new) (id_in (L.seat self.now.links p.new).slots part) left) }
        ensures usable { result ≡ None → IsUsable L.Links self.now.links p.new }
        ensures no_node { result ≡ None → Within (length (L.journal p.old)) (length (L.journal p.new))
            (L.lacking self.now.links (agent L.Links self.now.links p.old) (L.journal p.new)) }
        ensures none { EntersNone L.Links self.now.links p.old p.new }
        ensures gives { GivesAtMost L.Links self.now.links 1 p.old p.new }
        ensures tries { MakesAtMost L.Links self.now.links 4 p.old p.new }
    {
        let roots = staging_roots(self.links.agent(p));
        let at = Staging {
            slot: 1,
            root: roots.0,
        };
        match stage(&self.links, p, at, left) {
            Ok(part) => Some(part),
            Err(_) => None,
        }
    }

    /// Goes on after `stage_and_stop`: lets the part go unpublished, as a publish that is refused does. Its agent's staging roots
    /// are null then. Its agent makes at most one event.
    pub fn unstage(&self, p: &mut L::Pass, part: Held)
        requires staged { StagesPart L.Links self.now.links part p.old }
        ensures usable { IsUsable L.Links self.now.links p.new }
        ensures agent { agent L.Links self.now.links p.new ≡ agent L.Links self.now.links p.old }
        ensures later { IsPrefix (L.journal p.old) (L.journal p.new) }
        ensures none { EntersNone L.Links self.now.links p.old p.new }
        ensures gives { GivesAtMost L.Links self.now.links 0 p.old p.new }
        ensures tries { MakesAtMost L.Links self.now.links 1 p.old p.new }
        ensures settled { IsCallAlone L.Links self.now.links p.old p.new → L.backlog p.new ≡ 0 }
    {
        let roots = staging_roots(self.links.agent(p));
        unstage(&self.links, p, roots.0, part);
        self.links.settle(p);
    }

    /// Lets each of two passes of different agents see what the other has seen. It makes no step.
    pub fn learn(&self, into: &mut L::Pass, from: &mut L::Pass)
        requires usable { IsUsable L.Links self.now.links into.old × IsUsable L.Links self.now.links from.old }
        requires agents { agent L.Links self.now.links into.old ≢ agent L.Links self.now.links from.old }
        ensures usable { IsUsable L.Links self.now.links into.new × IsUsable L.Links self.now.links from.new }
        ensures agents { (agent L.Links self.now.links into.new ≡ agent L.Links self.now.links into.old)
            × (agent L.Links self.now.links from.new ≡ agent L.Links self.now.links from.old) }
        ensures learned { LearnsEntries (λ journal. entries_of (L.events self.now.links journal)) agent_of_entry
            (agent L.Links self.now.links into.old) (agent L.Links self.now.links from.old)
            (L.journal into.old) (L.journal from.old) (L.journal into.new) (L.journal from.new) }
    {
        self.links.learn(into, from);
    }

    /// The history that a pass has seen is legal: each read shows both parts of the one version that stood there. Root 0
    /// shows the parts after it.
    pub fn history_is_legal(&self, p: &L::Pass)
        requires pass { L.belongs self.now.links p.now }
        ensures legal { IsLegalCell (history L.Links self.now.links p.now) }
        ensures shows { ShowsParts (heap L.Links self.now.links p.now) (parts_after no_parts (history L.Links self.now.links p.now)) }
    {}

    /// A new pass of the domain may make a call.
    pub fn new_passes_are_usable(&self, p: &L::Pass)
        requires pass { L.belongs self.now.links p.now }
        requires idle { IsIdle (L.seat self.now.links p.now) }
        requires new { (L.seat self.now.links p.now).seen ≡ L.opening self.now.links }
        ensures { IsUsable L.Links self.now.links p.now }
    {}
}
