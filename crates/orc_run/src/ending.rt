//! The passes of a run are taken from their desks, and its queues' domains are brought to rest.

ghost use Rattle.std.specs.Prelude.{◌≡◌, ◌<◌, ◌≤◌, Bool, ℕ, [], All, length, slice_index_or, vec_capacity};
ghost use Rattle.orc_at_rest.specs.Domains.{IsLeftOf};
ghost use Rattle.orc_board.specs.Stretches.{pick};
ghost use Rattle.orc_workers.specs.Desks.{AreIdle, HaveSeenTheSame, queue_seen, set_seen};

use crate::desks::{Passes, passes_apart};
use orc_any_domain::Domain;
use orc_board::Desk;
use orc_containers::queue_at_rest;
use orc_fifo_rule::Fifo;
use orc_history::{LearnQueue, SharedQueue, SharedSet};
use orc_queue::Queue;

/// The domains of both queues at rest, and the passes of the set.
#[derive(Drop)]
pub(crate) struct Ends<A, B> {
    pub(crate) queue: A,
    pub(crate) rush: A,
    pub(crate) set: Vec<B>,
}

// Takes the passes, which have all seen the same journals, from their desks, and brings the domains of both queues to rest. It takes
// no memory.
pub(crate) fn end_queues<L: Domain<Rule = Fifo>, S: SharedSet>(
    queue: Queue<L>,
    rush: Queue<L>,
    set: &S,
    desks: Vec<Desk<L::Pass, S::Pass>>,
    mut passes: Passes<L::Pass, S::Pass>,
) -> Ends<L::Rest, S::Pass>
    requires idle { AreIdle ⟦<Queue<L> as SharedQueue>⟧ S.SharedSet queue rush set.now 0 desks.items }
    requires seen { HaveSeenTheSame ⟦<Queue<L> as SharedQueue>⟧ S.SharedSet desks.items }
    requires all { (length desks.items ≡ ⟦<Queue<L> as LearnQueue>⟧.agents queue) × (length desks.items ≡ ⟦<Queue<L> as LearnQueue>⟧.agents rush) }
    requires none { (passes.queue.items ≡ []) × (passes.rush.items ≡ []) × (passes.set.items ≡ []) }
    requires room { (length desks.items ≤ vec_capacity passes.queue) × (length desks.items ≤ vec_capacity passes.rush)
        × (length desks.items ≤ vec_capacity passes.set) }
    ensures queues { (b : Bool) → IsLeftOf L.Links L.rests (pick queue rush b).links (queue_seen ⟦<Queue<L> as SharedQueue>⟧ desks.items b)
        (pick result.queue result.rush b) }
    ensures set_usable { All (λ p. S.usable set.now p) result.set.items }
    ensures set_numbered { (i : ℕ) (p : S.Pass) → i < length result.set.items → S.agent_of set.now (slice_index_or result.set.items i p) ≡ i }
    ensures set_passes { length result.set.items ≡ length desks.items }
    ensures set_seen { All (λ p. S.journal p ≡ set_seen S.SharedSet desks.items) result.set.items }
{
    passes_apart(desks, &mut passes);
    let Passes {
        queue: queue_passes,
        rush: rush_passes,
        set,
    } = passes;
    Ends {
        queue: queue_at_rest(queue, queue_passes),
        rush: queue_at_rest(rush, rush_passes),
        set,
    }
}
