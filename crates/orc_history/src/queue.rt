//! Histories of queues, and the trait of the queues that several agents share.
ghost use Rattle.std.specs.Prelude.{◌≡◌, ℕ, ◌+◌, ◌≤◌, ◌^◌, List, [], ◌∷◌, ◌++◌, length, IfOk, IfErr};
ghost use mathlib.Core.List.{IsPrefix};
ghost use Rattle.orc_history.specs.{
  Journals.{Adds, Within},
  QueueHistory.{IsLegalQueue, agent_of_entry, entry_of_dequeue, puts_in},
  declared.queue.{QueueEntry.{QueueEntry}, QueueRefused.{QueueRefused}},
};

use orc_fault::Again;

/// One entry of a queue's history: the agent of a call, and its kind, argument and answer.
#[derive(Clone, Copy)]
pub enum QueueEntry {
    /// An enqueue put this job, and answered this position.
    Put { agent: u32, job: u64, at: u64 },
    /// A dequeue took this job, which was put at this position.
    Took { agent: u32, job: u64, at: u64 },
    /// A dequeue found nothing.
    Empty { agent: u32 },
}

/// Why an enqueue was refused.
#[derive(Clone, Copy, Debug, PartialEq, Eq)]
pub enum QueueRefused {
    /// The turns are used up. The same call may be made again.
    Again,
    /// There is no room for a further item.
    NoNode,
    /// No position below 2^62 is left.
    Positions,
}

/// A queue that several agents share (Michael and Scott 1996). Each agent calls it with a pass of its own.
///
/// Each Ok call puts exactly one entry in the history, after all that its pass had seen. A refused call puts none.
pub trait SharedQueue {
    /// What an agent calls with: its number, and what it has seen.
    type Pass: Drop;

    /// One step of the journal.
    type Step;

    // the number of the pass's agent
    ghost agent_of: { Self → Self.Pass → ℕ };

    // the steps that the pass has seen
    ghost journal: { Self.Pass → List Self.Step };

    // the entries that stand in a journal
    ghost history: { Self → List Self.Step → List QueueEntry };

    // the position of the first Put
    ghost first: { Self → ℕ };

    // the pass is one of this object, and idle
    ghost usable: { Self → Self.Pass → Type 0 };

    // the agents whose entries may come between those of a call of another agent
    ghost crowd: { Self → ℕ → Type 0 };

    // what licenses a refusal of a call by this agent with these turns, between two places of a journal
    ghost licence: { Self → ℕ → ℕ → QueueRefused → List Self.Step → ℕ → ℕ → Type 0 };

    /// The number of the pass's agent.
    fn agent(&self, p: &Self::Pass) -> u32
        ensures { result ≡ agent_of self.now p.now };

    /// Puts a job at the back and answers its position, in at most `turns` tries.
    fn enqueue(&self, p: &mut Self::Pass, job: u64, turns: u64) -> Result<u64, QueueRefused>
        requires { usable self.now p.old }
        ensures usable { usable self.now p.new }
        ensures agent { agent_of self.now p.new ≡ agent_of self.now p.old }
        ensures later { IsPrefix (journal p.old) (journal p.new) }
        ensures put { IfOk result (λ at. Adds agent_of_entry (crowd self.now) (agent_of self.now p.old)
            (history self.now (journal p.old)) (QueueEntry.Put (agent_of self.now p.old) job at ∷ [])
            (history self.now (journal p.new))) }
        ensures none { IfErr result (λ e. Adds agent_of_entry (crowd self.now) (agent_of self.now p.old)
            (history self.now (journal p.old)) [] (history self.now (journal p.new))) }
        ensures licence { IfErr result (λ e. Within (length (journal p.old)) (length (journal p.new))
            (licence self.now (agent_of self.now p.old) turns e (journal p.new))) };

    /// Takes the job at the front and answers it with its position, or None on the empty queue, in at most `turns` tries.
    fn dequeue(&self, p: &mut Self::Pass, turns: u64) -> Result<Option<(u64, u64)>, Again>
        requires { usable self.now p.old }
        ensures usable { usable self.now p.new }
        ensures agent { agent_of self.now p.new ≡ agent_of self.now p.old }
        ensures later { IsPrefix (journal p.old) (journal p.new) }
        ensures took { IfOk result (λ got. Adds agent_of_entry (crowd self.now) (agent_of self.now p.old)
            (history self.now (journal p.old)) (entry_of_dequeue (agent_of self.now p.old) got ∷ [])
            (history self.now (journal p.new))) }
        ensures none { IfErr result (λ e. Adds agent_of_entry (crowd self.now) (agent_of self.now p.old)
            (history self.now (journal p.old)) [] (history self.now (journal p.new))) }
        ensures licence { IfErr result (λ e. Within (length (journal p.old)) (length (journal p.new))
            (licence self.now (agent_of self.now p.old) turns QueueRefused.Again (journal p.new))) };

    // the history that a pass has seen is legal
    ghost legal: { (q : Self) (p : Self.Pass) → usable q p → IsLegalQueue (first q) (history q (journal p)) };

    // a licence stays one as the journal goes on
    ghost licence_stays: { (q : Self) (agent turns : ℕ) (why : QueueRefused)
        (seen more : List Self.Step) (from to : ℕ)
        → licence q agent turns why seen from to
        → licence q agent turns why (seen ++ more) from to };

    // the history of a longer journal goes on
    ghost grows: { (q : Self) (seen more : List Self.Step) → IsPrefix (history q seen) (history q (seen ++ more)) };

    // positions run out only once the first one and the Puts make 2 ^ 62 or more
    ghost many_puts: { (q : Self) (agent turns : ℕ) (seen : List Self.Step) (from to : ℕ)
        → licence q agent turns QueueRefused.Positions seen from to
        → 2 ^ 62 ≤ first q + puts_in (history q seen) };
}
