//! Containers whose passes can learn from each other what they have seen.
ghost use Rattle.std.specs.List.{AllByRecursion};
ghost use Rattle.std.specs.Prelude.{◌≡◌, ◌≢◌, ℕ, ◌<◌};
ghost use Rattle.orc_history.specs.{Journals.{LearnsEntries}, QueueHistory.{agent_of_entry}, SetHistory.{agent_of_set_entry}};

use crate::queue::SharedQueue;
use crate::set::SharedSet;

/// A queue for so many agents, whose passes learn from each other: once a pass has learned from all others, it has
/// seen the calls of each; once it has done so again, so have the others.
pub trait LearnQueue: SharedQueue {
    // how many agents the queue has
    ghost agents: { Self → ℕ };

    /// Lets each of two passes see what the other has seen. It makes no step.
    fn learn(&self, into: &mut Self::Pass, from: &mut Self::Pass)
        requires usable { Self.usable self.now into.old × Self.usable self.now from.old }
        requires agents { Self.agent_of self.now into.old ≢ Self.agent_of self.now from.old }
        ensures usable { Self.usable self.now into.new × Self.usable self.now from.new }
        ensures agents { (Self.agent_of self.now into.new ≡ Self.agent_of self.now into.old)
            × (Self.agent_of self.now from.new ≡ Self.agent_of self.now from.old) }
        ensures learned { LearnsEntries (Self.history self.now) agent_of_entry (Self.agent_of self.now into.old) (Self.agent_of self.now from.old)
            (Self.journal into.old) (Self.journal from.old) (Self.journal into.new) (Self.journal from.new) };

    // each entry that a pass has seen is of one of the queue's agents, and so is the pass
    ghost agents_below: { (q : Self) (p : Self.Pass) → Self.usable q p
        → (Self.agent_of q p < agents q) × AllByRecursion (λ e. agent_of_entry e < agents q) (Self.history q (Self.journal p)) };

    // and so is each agent whose entries may come between those of a call
    ghost crowd_below: { (q : Self) (agent : ℕ) → Self.crowd q agent → agent < agents q };
}

/// A set for so many agents, whose passes learn from each other: once a pass has learned from all others, it has
/// seen the calls of each; once it has done so again, so have the others.
pub trait LearnSet: SharedSet {
    // how many agents the set has
    ghost agents: { Self → ℕ };

    /// Lets each of two passes see what the other has seen. It makes no step.
    fn learn(&self, into: &mut Self::Pass, from: &mut Self::Pass)
        requires usable { Self.usable self.now into.old × Self.usable self.now from.old }
        requires agents { Self.agent_of self.now into.old ≢ Self.agent_of self.now from.old }
        ensures usable { Self.usable self.now into.new × Self.usable self.now from.new }
        ensures agents { (Self.agent_of self.now into.new ≡ Self.agent_of self.now into.old)
            × (Self.agent_of self.now from.new ≡ Self.agent_of self.now from.old) }
        ensures learned { LearnsEntries (Self.history self.now) agent_of_set_entry (Self.agent_of self.now into.old) (Self.agent_of self.now from.old)
            (Self.journal into.old) (Self.journal from.old) (Self.journal into.new) (Self.journal from.new) };

    // each entry that a pass has seen is of one of the set's agents, and so is the pass
    ghost agents_below: { (s : Self) (p : Self.Pass) → Self.usable s p
        → (Self.agent_of s p < agents s) × AllByRecursion (λ e. agent_of_set_entry e < agents s) (Self.history s (Self.journal p)) };

    // and so is each agent whose entries may come between those of a call
    ghost crowd_below: { (s : Self) (agent : ℕ) → Self.crowd s agent → agent < agents s };
}
