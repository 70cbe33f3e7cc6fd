//! The passes of a pipeline are taken from their desks, and the domains of its queues are brought to rest.

ghost use Rattle.std.specs.Prelude.{◌≡◌, ◌<◌, ◌≤◌, ◌∷◌, ℕ, [], List, IfOk, length, vec_capacity};
ghost use Rattle.std.specs.List.{AllByRecursion};
ghost use Rattle.orc_pipeline.specs.Run.{AreIdle, HaveSeen};
ghost use Rattle.orc_stages_run.specs.Queues.{LeavesMore};

use orc_any_domain::Domain;
use orc_board::ReplyList;
use orc_containers::queue_at_rest;
use orc_domain::OrcRest;
use orc_fault::NoMemory;
use orc_fifo_rule::Fifo;
use orc_history::{LearnQueue, SharedQueue};
use orc_pipeline::take_first;
use orc_queue::Queue;
use orc_stages::StageDesk;
use std::alloc::Global;

/// The domains of queues at rest, each with the journal of all that happened on it, in the order of the queues.
pub type RestList = ReplyList<OrcRest<Fifo>>;

// Room for the passes of so many agents to each of so many queues.
pub(crate) fn room_for_passes<A: Drop>(
    alloc: Global,
    queues: usize,
    agents: usize,
) -> Result<Vec<Vec<A>>, NoMemory>
    ensures rooms { IfOk result (λ rooms. AllByRecursion (λ room. (room.items ≡ []) × (agents ≤ vec_capacity room)) rooms.items) }
    ensures all { IfOk result (λ rooms. length rooms.items ≡ queues) }
{
    let mut rooms = Vec::with_capacity(alloc, queues)?;
    for _queue in 0..queues {
        rooms.push(Vec::with_capacity(alloc, agents)?)?;
    }
    Ok(rooms)
}

// Takes the passes of one queue after another from the desks, brings its domain to rest, and puts what is left behind those that are
// there. It takes no memory.
pub(crate) fn end_queues<L: Domain<Rule = Fifo> + Drop>(
    mut queues: Vec<Queue<L>>,
    desks: &mut [StageDesk<L::Pass>],
    mut rooms: Vec<Vec<L::Pass>>,
    rests: &mut ReplyList<L::Rest>,
)
    requires idle { AreIdle ⟦<Queue<L> as SharedQueue>⟧ queues.items 0 desks.old }
    requires agents { AllByRecursion (λ queue. length desks.old ≡ ⟦<Queue<L> as LearnQueue>⟧.agents queue) queues.items }
    requires rooms { AllByRecursion (λ room. (room.items ≡ []) × (length desks.old ≤ vec_capacity room)) rooms.items }
    requires all { length rooms.items ≡ length queues.items }
    requires room { length queues.items ≤ rests.old.spare }
    ensures left { (k : ℕ → List L.Step) → HaveSeen ⟦<Queue<L> as SharedQueue>⟧ k desks.old
        → LeavesMore (λ queue. queue.links) L.Links L.rests queues.items k rests.old.items rests.new.items }
{
    if queues.is_empty() {
        return;
    }
    let queue = take_front(&mut queues);
    let mut passes = take_front(&mut rooms);
    take_first(desks, &mut passes);
    rests.push(queue_at_rest(queue, passes));
    end_queues(queues, desks, rooms, rests);
}

// Takes the first of these out.
fn take_front<T: Drop>(list: &mut Vec<T>) -> T
    requires { 0 < length list.old.items }
    ensures { list.old.items ≡ result ∷ list.new.items }
{
    list.remove(0)
}
