//! Passes of the last agents that are left.

ghost use Rattle.std.specs.Prelude.{◌≡◌, ◌≢◌, ◌+◌, ◌<◌, ℕ, All, IfSome, length, slice_index_or};

use orc_history::{SharedQueue, SharedSet};

// The pass of the last agent that is left.
pub(crate) fn next_pass<Q: SharedQueue>(queue: &Q, passes: &mut Vec<Q::Pass>) -> Option<Q::Pass>
    requires usable { All (λ p. Q.usable queue.now p) passes.old.items }
    requires agents { (i : ℕ) (p : Q.Pass) → i < length passes.old.items → Q.agent_of queue.now (slice_index_or passes.old.items i p) ≡ i }
    ensures usable { All (λ p. Q.usable queue.now p) passes.new.items }
    ensures agents { (i : ℕ) (p : Q.Pass) → i < length passes.new.items → Q.agent_of queue.now (slice_index_or passes.new.items i p) ≡ i }
    ensures popped { IfSome result (λ p. Q.usable queue.now p) }
    ensures agent { IfSome result (λ p. Q.agent_of queue.now p ≡ length passes.new.items) }
    ensures fewer { IfSome result (λ p. length passes.old.items ≡ length passes.new.items + 1) }
{
    passes.pop()
}

// The passes of the last two agents that are left, the one of the lower agent first.
pub(crate) fn two_passes<Q: SharedQueue>(
    queue: &Q,
    mut passes: Vec<Q::Pass>,
) -> Option<(Q::Pass, Q::Pass)>
    requires usable { All (λ p. Q.usable queue.now p) passes.items }
    requires agents { (i : ℕ) (p : Q.Pass) → i < length passes.items → Q.agent_of queue.now (slice_index_or passes.items i p) ≡ i }
    ensures first { IfSome result (λ both. Q.usable queue.now both.0) }
    ensures second { IfSome result (λ both. Q.usable queue.now both.1) }
    ensures agents { IfSome result (λ both. Q.agent_of queue.now both.0 ≢ Q.agent_of queue.now both.1) }
{
    let second = next_pass(queue, &mut passes)?;
    let first = next_pass(queue, &mut passes)?;
    Some((first, second))
}

// The pass of the last agent that is left.
pub(crate) fn next_list_pass<S: SharedSet>(set: &S, passes: &mut Vec<S::Pass>) -> Option<S::Pass>
    requires usable { All (λ p. S.usable set.now p) passes.old.items }
    requires agents { (i : ℕ) (p : S.Pass) → i < length passes.old.items → S.agent_of set.now (slice_index_or passes.old.items i p) ≡ i }
    ensures usable { All (λ p. S.usable set.now p) passes.new.items }
    ensures agents { (i : ℕ) (p : S.Pass) → i < length passes.new.items → S.agent_of set.now (slice_index_or passes.new.items i p) ≡ i }
    ensures popped { IfSome result (λ p. S.usable set.now p) }
    ensures agent { IfSome result (λ p. S.agent_of set.now p ≡ length passes.new.items) }
    ensures fewer { IfSome result (λ p. length passes.old.items ≡ length passes.new.items + 1) }
{
    passes.pop()
}

// The passes of the last two agents that are left, the one of the lower agent first.
pub(crate) fn two_list_passes<S: SharedSet>(
    set: &S,
    mut passes: Vec<S::Pass>,
) -> Option<(S::Pass, S::Pass)>
    requires usable { All (λ p. S.usable set.now p) passes.items }
    requires agents { (i : ℕ) (p : S.Pass) → i < length passes.items → S.agent_of set.now (slice_index_or passes.items i p) ≡ i }
    ensures first { IfSome result (λ both. S.usable set.now both.0) }
    ensures second { IfSome result (λ both. S.usable set.now both.1) }
    ensures agents { IfSome result (λ both. S.agent_of set.now both.0 ≢ S.agent_of set.now both.1) }
{
    let second = next_list_pass(set, &mut passes)?;
    let first = next_list_pass(set, &mut passes)?;
    Some((first, second))
}
