//! Desks from passes.

ghost use Rattle.std.specs.Prelude.{◌≡◌, ◌<◌, ℕ, [], All, IfOk, length, slice_index_or};
ghost use Rattle.orc_workers.specs.Desks.{AreFresh};

use orc_board::Desk;
use orc_fault::NoMemory;
use orc_history::{SharedQueue, SharedSet};
use std::alloc::Global;

/// A desk for each of these passes, in order.
///
/// # Errors
///
/// `NoMemory` where memory is refused.
pub fn fresh_desks<Q: SharedQueue, S: SharedSet>(
    alloc: Global,
    queue: &Q,
    rush: &Q,
    set: &S,
    mut queue_passes: Vec<Q::Pass>,
    mut rush_passes: Vec<Q::Pass>,
    mut set_passes: Vec<S::Pass>,
) -> Result<Vec<Desk<Q::Pass, S::Pass>>, NoMemory>
    requires queue_passes { All (λ p. Q.usable queue.now p) queue_passes.items }
    requires queue_fresh { All (λ p. Q.history queue.now (Q.journal p) ≡ []) queue_passes.items }
    requires queue_agents { (i : ℕ) (p : Q.Pass) → i < length queue_passes.items → Q.agent_of queue.now (slice_index_or queue_passes.items i p) ≡ i }
    requires rush_passes { All (λ p. Q.usable rush.now p) rush_passes.items }
    requires rush_fresh { All (λ p. Q.history rush.now (Q.journal p) ≡ []) rush_passes.items }
    requires rush_agents { (i : ℕ) (p : Q.Pass) → i < length rush_passes.items → Q.agent_of rush.now (slice_index_or rush_passes.items i p) ≡ i }
    requires set_passes { All (λ p. S.usable set.now p) set_passes.items }
    requires set_fresh { All (λ p. S.history set.now (S.journal p) ≡ []) set_passes.items }
    requires set_agents { (i : ℕ) (p : S.Pass) → i < length set_passes.items → S.agent_of set.now (slice_index_or set_passes.items i p) ≡ i }
    requires same { (length rush_passes.items ≡ length queue_passes.items) × (length set_passes.items ≡ length queue_passes.items) }
    ensures desks { IfOk result (λ v. AreFresh Q.SharedQueue S.SharedSet queue.now rush.now set.now 0 v.items) }
    ensures count { IfOk result (λ v. length v.items ≡ length queue_passes.items) }
{
    let mut desks = Vec::with_capacity(alloc, queue_passes.len())?;
    while let Some(queue_pass) = queue_passes.pop() {
        let Some(rush_pass) = rush_passes.pop() else {
            unreachable!()
        };
        let Some(set_pass) = set_passes.pop() else {
            unreachable!()
        };
        desks.insert(
            0,
            Desk {
                queue: queue_pass,
                rush: rush_pass,
                set: set_pass,
            },
        )?;
    }
    Ok(desks)
}
