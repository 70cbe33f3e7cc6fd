//! Passes that learn from each other: worked examples, and a caller over any queue and any set.

ghost use Rattle.std.specs.Prelude.{◌≡◌, ◌≢◌, ℕ, ◌∷◌, []};
ghost use Rattle.orc_history.specs.{Journals.{LearnsEntries, own_of}, QueueHistory.{IsLegalQueue}, SetHistory.{IsLegalSet}};

use orc_history::{LearnQueue, LearnSet};

// Steps are entries, and each is the number of its agent. One pass had seen 1, the other 1 2.
fn passes_that_learned()
    ensures longer { LearnsEntries {S = ℕ} {E = ℕ} (λ j. j) (λ e. e) 1 2 (1 ∷ []) (1 ∷ 2 ∷ []) (1 ∷ 2 ∷ []) (1 ∷ 2 ∷ []) }
    ensures shorter { ¬ LearnsEntries {S = ℕ} {E = ℕ} (λ j. j) (λ e. e) 1 2 (1 ∷ []) (1 ∷ 2 ∷ []) (1 ∷ []) (1 ∷ []) }
    ensures one_way { ¬ LearnsEntries {S = ℕ} {E = ℕ} (λ j. j) (λ e. e) 1 2 (1 ∷ []) (1 ∷ 2 ∷ []) (1 ∷ 2 ∷ []) (1 ∷ []) }
    ensures unseen { ¬ LearnsEntries {S = ℕ} {E = ℕ} (λ j. j) (λ e. e) 1 2 (1 ∷ []) (1 ∷ 2 ∷ 1 ∷ []) (1 ∷ 2 ∷ 1 ∷ []) (1 ∷ 2 ∷ 1 ∷ []) }
{}

// What two passes have learned is a legal history of the queue.
fn learn_a_queue<Q: LearnQueue>(queue: &Q, into: &mut Q::Pass, from: &mut Q::Pass)
    requires usable { Q.usable queue.now into.old × Q.usable queue.now from.old }
    requires agents { Q.agent_of queue.now into.old ≢ Q.agent_of queue.now from.old }
    ensures one { Q.journal into.new ≡ Q.journal from.new }
    ensures legal { IsLegalQueue (Q.first queue.now) (Q.history queue.now (Q.journal into.new)) }
{
    queue.learn(into, from);
}

// What two passes have learned is a legal history of the set.
fn learn_a_set<S: LearnSet>(set: &S, into: &mut S::Pass, from: &mut S::Pass)
    requires usable { S.usable set.now into.old × S.usable set.now from.old }
    requires agents { S.agent_of set.now into.old ≢ S.agent_of set.now from.old }
    ensures one { S.journal into.new ≡ S.journal from.new }
    ensures legal { IsLegalSet (S.history set.now (S.journal into.new)) }
{
    set.learn(into, from);
}
