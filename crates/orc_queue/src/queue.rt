//! The queue, and its calls.

ghost use Rattle.std.specs.Prelude.{◌≡◌, ℕ, ◌*◌, ◌+◌, ◌<◌, ◌≤◌, ◌↔◌, List, [], ◌∷◌, Err, IfOk, IfErr, IfSome, IsErr, None, length, ◌⊎◌};
ghost use mathlib.Core.List.{IsPrefix};
ghost use Rattle.orc_heap.specs.{Domains.{GivesNodes, IsCallAlone, MakesAtMost, MakesNoEvent, agent}, Journals.{run_heap}, Seats.{IsIdle}};
ghost use Rattle.orc_history.specs.{
  Journals.{Within},
  QueueHistory.{entry_of_dequeue},
  declared.queue.{QueueEntry.{QueueEntry}, QueueRefused.{QueueRefused}},
};
ghost use Rattle.orc_fifo_rule.specs.QueueDiscipline.{entries_of, position_of};
ghost use Rattle.orc_queue.specs.{
  Answers.{gives_of},
  Causes.{Cause},
  Laws.Histories.{cause_puts, cause_stays, entries_below, history_grows, seen_legal},
  QueueCalls.{Enters, EntersNone, FindsNoPosition, LacksPositionAlone, LacksRow, LeavesTail, LeavesTailLast, UsesAllTurns, HasCause, others_puts, others_tooks},
  Turns.{HasDummy},
};

use crate::put::put_job;
use crate::stopped::stop_a_put;
use crate::take::take_job;
use orc_fault::Again;
use orc_fifo_rule::Fifo;
use orc_heap::Links;
use orc_history::{LearnQueue, QueueRefused, SharedQueue};

/// A queue over a domain of links: a chain of nodes behind a dummy. Root 0 names the dummy, root 1 the last node or
/// the one before it. No call takes memory or waits.
///
/// A call's part of the journal begins with the first step of its own agent.
#[derive(Drop)]
pub struct Queue<L: Links<Rule = Fifo>> {
    links: L,
    ghost made: { HasDummy (L.numbers links) (L.opening links) },
}

impl<L: Links<Rule = Fifo>> Queue<L> {
    /// The queue of a domain that was made with a dummy.
    pub fn new(links: L) -> Queue<L>
        requires { HasDummy (L.numbers links) (L.opening links) }
        ensures { result.links ≡ links }
    {
        Queue { links }
    }

    /// The domain of links that the queue stands on.
    pub fn links(&self) -> &L
        ensures { result.now ≡ self.now.links }
    {
        &self.links
    }

    /// Gives the queue up for its domain of links.
    pub fn into_links(self) -> L
        ensures { result ≡ self.links }
    {
        let Queue { links } = self;
        links
    }

    /// Puts a job at the back and answers its position, in at most `turns` tries. Its agent makes at most 6 events in
    /// each try, and 3 more for the node.
    ///
    /// Where no other agent has a step in its part of the journal, a put that answered leaves the tail at the last node.
    ///
    /// # Errors
    ///
    /// * `Again` if all tries were used up. With no turns it gives no node and makes no event. Each Put of another agent in
    ///   the call's part uses up at most two tries, and one try more may be used up by a swing of the tail.
    /// * `NoNode` if the domain had no node to give: from the call's first step on, or, where the refused give made no step, at
    ///   the place to which the journal had come. What others did before that licenses no answer.
    /// * `Positions` if it came to the last node and no position is left behind that.
    pub fn put(&self, p: &mut L::Pass, job: u64, turns: u64) -> Result<u64, QueueRefused>
        requires pass { L.belongs self.now.links p.old }
        requires idle { IsIdle (L.seat self.now.links p.old) }
        ensures pass { L.belongs self.now.links p.new }
        ensures idle { IsIdle (L.seat self.now.links p.new) }
        ensures agent { agent L.Links self.now.links p.new ≡ agent L.Links self.now.links p.old }
        ensures later { IsPrefix (L.journal p.old) (L.journal p.new) }
        ensures put { IfOk result (λ at. Enters L.Links self.now.links p.old p.new (λ agent. QueueEntry.Put agent job at ∷ [])) }
        ensures none { IfErr result (λ e. EntersNone L.Links self.now.links p.old p.new) }
        ensures no_turns { turns ≡ 0 → result ≡ Err QueueRefused.Again }
        ensures no_event { turns ≡ 0 → MakesNoEvent L.Links self.now.links p.old p.new }
        ensures again { result ≡ Err QueueRefused.Again → UsesAllTurns L.Links self.now.links turns p.old p.new }
        ensures cost { result ≡ Err QueueRefused.Again → turns ≤ 2 * others_puts L.Links self.now.links p.old p.new + 1 }
        ensures no_node { result ≡ Err QueueRefused.NoNode → LacksRow L.Links self.now.links p.old p.new }
        ensures positions { (result ≡ Err QueueRefused.Positions) ↔ FindsNoPosition L.Links self.now.links p.old p.new }
        ensures gives { GivesNodes L.Links self.now.links (gives_of turns result) p.old p.new }
        ensures tries { MakesAtMost L.Links self.now.links (6 * turns + 3 * gives_of turns result) p.old p.new }
        ensures tail { IfOk result (λ at. IsCallAlone L.Links self.now.links p.old p.new
            → LeavesTailLast L.Links self.now.links p.new) }
        ensures settled { IsCallAlone L.Links self.now.links p.old p.new → L.backlog p.new ≡ 0 }
    {
        let answer = put_job(&self.links, p, job, turns);
        self.links.settle(p);
        answer
    }

    /// Takes the job at the front and answers it with its position, or None on the empty queue, in at most `turns`
    /// tries. Its agent makes at most 6 events in each.
    ///
    /// # Errors
    ///
    /// `Again` if all tries were used up. With no turns it makes no event. Each Put of another agent in the call's part uses
    /// up at most two tries and each Took of another agent one, and one try more may be used up by a swing of the tail.
    pub fn take(&self, p: &mut L::Pass, turns: u64) -> Result<Option<(u64, u64)>, Again>
        requires pass { L.belongs self.now.links p.old }
        requires idle { IsIdle (L.seat self.now.links p.old) }
        ensures pass { L.belongs self.now.links p.new }
        ensures idle { IsIdle (L.seat self.now.links p.new) }
        ensures agent { agent L.Links self.now.links p.new ≡ agent L.Links self.now.links p.old }
        ensures later { IsPrefix (L.journal p.old) (L.journal p.new) }
        ensures took { IfOk result (λ got. Enters L.Links self.now.links p.old p.new (λ agent. entry_of_dequeue agent got ∷ [])) }
        ensures none { IfErr result (λ e. EntersNone L.Links self.now.links p.old p.new) }
        ensures no_turns { turns ≡ 0 → IsErr result }
        ensures no_event { turns ≡ 0 → MakesNoEvent L.Links self.now.links p.old p.new }
        ensures again { IfErr result (λ e. UsesAllTurns L.Links self.now.links turns p.old p.new) }
        ensures cost { IfErr result (λ e. turns ≤ 2 * others_puts L.Links self.now.links p.old p.new
            + others_tooks L.Links self.now.links p.old p.new + 1) }
        ensures gives { GivesNodes L.Links self.now.links 0 p.old p.new }
        ensures tries { MakesAtMost L.Links self.now.links (6 * turns) p.old p.new }
        ensures settled { IsCallAlone L.Links self.now.links p.old p.new → L.backlog p.new ≡ 0 }
    {
        let answer = take_job(&self.links, p, turns);
        self.links.settle(p);
        answer
    }
}

impl<L: Links<Rule = Fifo>> Queue<L> {
    /// Links a node with the job behind the node that the tail names, in one try, and leaves the tail there: the state in
    /// which a thread leaves the queue that is stopped in `put` before its last step. For tests of what the others do then.
    /// No event of the call moves the tail, which lags from then on until another call helps it on.
    ///
    /// Answers the job's position; None where nothing was linked: no row could be given; or a node was, and was let go,
    /// because no position was left, or the tail lagged or moved on meanwhile. So where the tail was at the last node before, and no
    /// other agent has an event among those that are new to the pass, None comes only for want of a row or a position.
    pub fn put_and_stop(&self, p: &mut L::Pass, job: u64) -> Option<u64>
        requires pass { L.belongs self.now.links p.old }
        requires idle { IsIdle (L.seat self.now.links p.old) }
        ensures pass { L.belongs self.now.links p.new }
        ensures idle { IsIdle (L.seat self.now.links p.new) }
        ensures later { IsPrefix (L.journal p.old) (L.journal p.new) }
        ensures agent { agent L.Links self.now.links p.new ≡ agent L.Links self.now.links p.old }
        ensures put { IfSome result (λ at. Enters L.Links self.now.links p.old p.new (λ agent. QueueEntry.Put agent job at ∷ [])) }
        ensures none { result ≡ None → EntersNone L.Links self.now.links p.old p.new }
        ensures missed { result ≡ None → LacksRow L.Links self.now.links p.old p.new ⊎ LacksPositionAlone L.Links self.now.links p.old p.new }
        ensures gives { GivesNodes L.Links self.now.links 1 p.old p.new ⊎ ((result ≡ None) × LacksRow L.Links self.now.links p.old p.new) }
        ensures tries { MakesAtMost L.Links self.now.links 9 p.old p.new }
        ensures tail { LeavesTail L.Links self.now.links p.old p.new }
    {
        stop_a_put(&self.links, p, job)
    }

    /// What the members of `SharedQueue` and `LearnQueue` mean here: the history is that of the domain's events, from
    /// the first position of its opening on; the domain's agents may step in between; each refusal has its cause.
    pub fn members(&self)
        ensures agent_of { (p : L.Pass) → ⟦<Queue<L> as SharedQueue>⟧.agent_of self.now p ≡ agent L.Links self.now.links p }
        ensures journal { (p : L.Pass) → ⟦<Queue<L> as SharedQueue>⟧.journal p ≡ L.journal p }
        ensures history { (journal : List L.Step) → ⟦<Queue<L> as SharedQueue>⟧.history self.now journal
            ≡ entries_of (L.events self.now.links journal) }
        ensures first { ⟦<Queue<L> as SharedQueue>⟧.first self.now
            ≡ position_of (run_heap (L.numbers self.now.links) (L.opening self.now.links)) 0 }
        ensures usable { (p : L.Pass) → ⟦<Queue<L> as SharedQueue>⟧.usable self.now p
            ↔ (L.belongs self.now.links p × IsIdle (L.seat self.now.links p)) }
        ensures crowd { (by : ℕ) → ⟦<Queue<L> as SharedQueue>⟧.crowd self.now by → by < L.agents self.now.links }
        ensures agents { ⟦<Queue<L> as LearnQueue>⟧.agents self.now ≡ L.agents self.now.links }
        ensures licence { (by turns : ℕ) (why : QueueRefused) (journal : List L.Step) (from to : ℕ)
            → ⟦<Queue<L> as SharedQueue>⟧.licence self.now by turns why journal from to
            → Cause L.agent_of (L.events self.now.links) (position_of (run_heap (L.numbers self.now.links) (L.opening self.now.links)) 0)
            (L.lacking self.now.links by journal from to) by turns why journal from to }
    {}
}

impl<L: Links<Rule = Fifo>> SharedQueue for Queue<L> {
    type Pass = L::Pass;

    type Step = L::Step;

    ghost agent_of = { λ q p. (L.seat q.links p).agent };

    ghost journal = { λ p. L.journal p };

    ghost history = { λ q journal. entries_of (L.events q.links journal) };

    ghost first = { λ q. position_of (run_heap (L.numbers q.links) (L.opening q.links)) 0 };

    ghost usable = { λ q p. L.belongs q.links p × IsIdle (L.seat q.links p) };

    ghost crowd = { λ q agent. agent < L.agents q.links };

    ghost licence = { λ q agent turns why journal from to.
        Cause L.agent_of (L.events q.links) (position_of (run_heap (L.numbers q.links) (L.opening q.links)) 0)
        (L.lacking q.links agent journal from to) agent turns why journal from to };

    ghost legal = { λ q p h. seen_legal (L.numbers q.links) (L.opening q.links) (L.seat q.links p).seen
        (L.events q.links (L.journal p)) q.made (L.opens q.links p h.0) (L.allowed q.links p h.0) (L.obeys q.links p h.0)
        (L.seen_is q.links p h.0) };

    ghost licence_stays = { λ q agent turns why seen more from to h.
        cause_stays L.agent_of (L.events q.links) (position_of (run_heap (L.numbers q.links) (L.opening q.links)) 0)
        (L.lacking q.links agent seen from to) _ agent turns why seen more from to
        (L.lacking_stays q.links agent seen more from to) h };

    ghost grows = { λ q seen more. history_grows L.agent_of (L.events q.links) (L.steps_add q.links) seen more };

    ghost many_puts = { λ q agent turns seen from to h.
        cause_puts L.agent_of (L.events q.links) (position_of (run_heap (L.numbers q.links) (L.opening q.links)) 0)
        turns (L.steps_add q.links) seen to h };

    fn agent(&self, p: &L::Pass) -> u32 {
        self.links.agent(p)
    }

    fn enqueue(&self, p: &mut L::Pass, job: u64, turns: u64) -> Result<u64, QueueRefused>
        requires { L.belongs self.now.links p.old × IsIdle (L.seat self.now.links p.old) }
        ensures usable { L.belongs self.now.links p.new × IsIdle (L.seat self.now.links p.new) }
        ensures agent { agent L.Links self.now.links p.new ≡ agent L.Links self.now.links p.old }
        ensures later { IsPrefix (L.journal p.old) (L.journal p.new) }
        ensures put { IfOk result (λ at. Enters L.Links self.now.links p.old p.new (λ agent. QueueEntry.Put agent job at ∷ [])) }
        ensures none { IfErr result (λ e. EntersNone L.Links self.now.links p.old p.new) }
        ensures licence { IfErr result (λ e. Within (length (L.journal p.old)) (length (L.journal p.new))
            (HasCause L.Links self.now.links (agent L.Links self.now.links p.old) turns e (L.journal p.new))) }
        ensures no_turns { turns ≡ 0 → result ≡ Err QueueRefused.Again }
        ensures no_event { turns ≡ 0 → MakesNoEvent L.Links self.now.links p.old p.new }
        ensures again { result ≡ Err QueueRefused.Again → UsesAllTurns L.Links self.now.links turns p.old p.new }
        ensures cost { result ≡ Err QueueRefused.Again → turns ≤ 2 * others_puts L.Links self.now.links p.old p.new + 1 }
        ensures no_node { result ≡ Err QueueRefused.NoNode → LacksRow L.Links self.now.links p.old p.new }
        ensures positions { (result ≡ Err QueueRefused.Positions) ↔ FindsNoPosition L.Links self.now.links p.old p.new }
        ensures gives { GivesNodes L.Links self.now.links (gives_of turns result) p.old p.new }
        ensures tries { MakesAtMost L.Links self.now.links (6 * turns + 3 * gives_of turns result) p.old p.new }
        ensures tail { IfOk result (λ at. IsCallAlone L.Links self.now.links p.old p.new → LeavesTailLast L.Links self.now.links p.new) }
        ensures settled { IsCallAlone L.Links self.now.links p.old p.new → L.backlog p.new ≡ 0 }
    {
        self.put(p, job, turns)
    }

    fn dequeue(&self, p: &mut L::Pass, turns: u64) -> Result<Option<(u64, u64)>, Again>
        requires { L.belongs self.now.links p.old × IsIdle (L.seat self.now.links p.old) }
        ensures usable { L.belongs self.now.links p.new × IsIdle (L.seat self.now.links p.new) }
        ensures agent { agent L.Links self.now.links p.new ≡ agent L.Links self.now.links p.old }
        ensures later { IsPrefix (L.journal p.old) (L.journal p.new) }
        ensures took { IfOk result (λ got. Enters L.Links self.now.links p.old p.new (λ agent. entry_of_dequeue agent got ∷ [])) }
        ensures none { IfErr result (λ e. EntersNone L.Links self.now.links p.old p.new) }
        ensures licence { IfErr result (λ e. Within (length (L.journal p.old)) (length (L.journal p.new))
            (HasCause L.Links self.now.links (agent L.Links self.now.links p.old) turns QueueRefused.Again (L.journal p.new))) }
        ensures no_turns { turns ≡ 0 → IsErr result }
        ensures no_event { turns ≡ 0 → MakesNoEvent L.Links self.now.links p.old p.new }
        ensures again { IfErr result (λ e. UsesAllTurns L.Links self.now.links turns p.old p.new) }
        ensures cost { IfErr result (λ e. turns ≤ 2 * others_puts L.Links self.now.links p.old p.new + others_tooks L.Links self.now.links p.old p.new + 1) }
        ensures gives { GivesNodes L.Links self.now.links 0 p.old p.new }
        ensures tries { MakesAtMost L.Links self.now.links (6 * turns) p.old p.new }
        ensures settled { IsCallAlone L.Links self.now.links p.old p.new → L.backlog p.new ≡ 0 }
    {
        self.take(p, turns)
    }
}

impl<L: Links<Rule = Fifo>> LearnQueue for Queue<L> {
    ghost agents = { λ q. L.agents q.links };

    fn learn(&self, into: &mut L::Pass, from: &mut L::Pass) {
        self.links.learn(into, from);
    }

    ghost agents_below = { λ q p h. (
      (L.agents_below q.links p h.0).0,
      entries_below (L.numbers q.links) (L.agents q.links) (L.seat q.links p).seen
          (L.events q.links (L.journal p)) (L.allowed q.links p h.0) (L.agents_below q.links p h.0).1 (L.seen_is q.links p h.0),
    ) };

    ghost crowd_below = { λ q agent below. below };
}
