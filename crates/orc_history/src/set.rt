//! Histories of sets, and the trait of the sets that several agents share.
ghost use Rattle.std.specs.Prelude.{◌≡◌, ℕ, List, [], ◌∷◌, ◌++◌, length, IfOk, IfErr};
ghost use mathlib.Core.List.{IsPrefix};
ghost use Rattle.orc_history.specs.{
  Journals.{Adds, Within},
  SetHistory.{IsLegalSet, agent_of_set_entry},
  declared.set.{SetEntry.{SetEntry}, ListRefused.{ListRefused}},
};

use orc_fault::{Again, Spent};

/// One entry of a set's history: the agent of a call, and its kind, argument and answer.
#[derive(Clone, Copy)]
pub enum SetEntry {
    /// An insert of this key: true where it was absent.
    Added { agent: u32, key: u64, yes: bool },
    /// A remove of this key: true where it was present.
    Removed { agent: u32, key: u64, yes: bool },
    /// Whether this key is present.
    Asked { agent: u32, key: u64, yes: bool },
}

/// Why an insert was refused.
#[derive(Clone, Copy, Debug, PartialEq, Eq)]
pub enum ListRefused {
    /// The turns are used up. The same call may be made again.
    Again,
    /// There is no room for a further key.
    NoNode,
    /// A row that the call would link is used up.
    Spent(Spent),
}

/// A set of numbers that several agents share (Harris 2001). Each agent calls it with a pass of its own.
///
/// Each Ok call puts exactly one entry in the history, after all that its pass had seen. A refused call puts none.
pub trait SharedSet {
    /// What an agent calls with: its number, and what it has seen.
    type Pass: Drop;

    /// One step of the journal.
    type Step;

    // the number of the pass's agent
    ghost agent_of: { Self → Self.Pass → ℕ };

    // the steps that the pass has seen
    ghost journal: { Self.Pass → List Self.Step };

    // the entries that stand in a journal
    ghost history: { Self → List Self.Step → List SetEntry };

    // the pass is one of this object, and idle
    ghost usable: { Self → Self.Pass → Type 0 };

    // the agents whose entries may come between those of a call of another agent
    ghost crowd: { Self → ℕ → Type 0 };

    // what licenses a refusal of a call by this agent with these turns, between two places of a journal
    ghost licence: { Self → ℕ → ℕ → ListRefused → List Self.Step → ℕ → ℕ → Type 0 };

    /// The number of the pass's agent.
    fn agent(&self, p: &Self::Pass) -> u32
        ensures { result ≡ agent_of self.now p.now };

    /// Adds a key in at most `turns` tries, and answers true where it was absent.
    fn insert(&self, p: &mut Self::Pass, key: u64, turns: u64) -> Result<bool, ListRefused>
        requires { usable self.now p.old }
        ensures usable { usable self.now p.new }
        ensures agent { agent_of self.now p.new ≡ agent_of self.now p.old }
        ensures later { IsPrefix (journal p.old) (journal p.new) }
        ensures added { IfOk result (λ yes. Adds agent_of_set_entry (crowd self.now) (agent_of self.now p.old)
            (history self.now (journal p.old)) (SetEntry.Added (agent_of self.now p.old) key yes ∷ [])
            (history self.now (journal p.new))) }
        ensures none { IfErr result (λ e. Adds agent_of_set_entry (crowd self.now) (agent_of self.now p.old)
            (history self.now (journal p.old)) [] (history self.now (journal p.new))) }
        ensures licence { IfErr result (λ e. Within (length (journal p.old)) (length (journal p.new))
            (licence self.now (agent_of self.now p.old) turns e (journal p.new))) };

    /// Takes a key out in at most `turns` tries, and answers true where it was present.
    fn remove(&self, p: &mut Self::Pass, key: u64, turns: u64) -> Result<bool, Again>
        requires { usable self.now p.old }
        ensures usable { usable self.now p.new }
        ensures agent { agent_of self.now p.new ≡ agent_of self.now p.old }
        ensures later { IsPrefix (journal p.old) (journal p.new) }
        ensures removed { IfOk result (λ yes. Adds agent_of_set_entry (crowd self.now) (agent_of self.now p.old)
            (history self.now (journal p.old)) (SetEntry.Removed (agent_of self.now p.old) key yes ∷ [])
            (history self.now (journal p.new))) }
        ensures none { IfErr result (λ e. Adds agent_of_set_entry (crowd self.now) (agent_of self.now p.old)
            (history self.now (journal p.old)) [] (history self.now (journal p.new))) }
        ensures licence { IfErr result (λ e. Within (length (journal p.old)) (length (journal p.new))
            (licence self.now (agent_of self.now p.old) turns ListRefused.Again (journal p.new))) };

    /// Answers in at most `turns` tries whether a key is present.
    fn contains(&self, p: &mut Self::Pass, key: u64, turns: u64) -> Result<bool, Again>
        requires { usable self.now p.old }
        ensures usable { usable self.now p.new }
        ensures agent { agent_of self.now p.new ≡ agent_of self.now p.old }
        ensures later { IsPrefix (journal p.old) (journal p.new) }
        ensures asked { IfOk result (λ yes. Adds agent_of_set_entry (crowd self.now) (agent_of self.now p.old)
            (history self.now (journal p.old)) (SetEntry.Asked (agent_of self.now p.old) key yes ∷ [])
            (history self.now (journal p.new))) }
        ensures none { IfErr result (λ e. Adds agent_of_set_entry (crowd self.now) (agent_of self.now p.old)
            (history self.now (journal p.old)) [] (history self.now (journal p.new))) }
        ensures licence { IfErr result (λ e. Within (length (journal p.old)) (length (journal p.new))
            (licence self.now (agent_of self.now p.old) turns ListRefused.Again (journal p.new))) };

    // the history that a pass has seen is legal
    ghost legal: { (s : Self) (p : Self.Pass) → usable s p → IsLegalSet (history s (journal p)) };

    // a licence stays one as the journal goes on
    ghost licence_stays: { (s : Self) (agent turns : ℕ) (why : ListRefused)
        (seen more : List Self.Step) (from to : ℕ)
        → licence s agent turns why seen from to
        → licence s agent turns why (seen ++ more) from to };

    // the history of a longer journal goes on
    ghost grows: { (s : Self) (seen more : List Self.Step) → IsPrefix (history s seen) (history s (seen ++ more)) };
}
