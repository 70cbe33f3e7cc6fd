//! Desks get the passes of one queue after another, the last queue first, and give them up, the first queue first.
ghost use Rattle.std.specs.Prelude.{◌≡◌, ◌<◌, ◌≤◌, ◌+◌, ◌∷◌, ℕ, [], All, IfOk, List, length, slice_index_or, vec_capacity, vec_len};
ghost use Rattle.std.specs.List.{AllByRecursion};
ghost use Rattle.orc_pipeline.specs.Run.{AreFresh, HasPass, StandAhead, TookFirst};

use orc_fault::NoMemory;
use orc_history::SharedQueue;
use orc_stages::StageDesk;
use std::alloc::Global;

/// Desks of so many agents without a pass of any queue.
///
/// # Errors
///
/// `NoMemory` where memory is refused.
pub fn empty_desks<Q: SharedQueue>(
    alloc: Global,
    agents: usize,
) -> Result<Vec<StageDesk<Q::Pass>>, NoMemory>
    ensures fresh { IfOk result (λ desks. AreFresh Q.SharedQueue [] 0 desks.items) }
    ensures all { IfOk result (λ desks. length desks.items ≡ agents) }
{
    let mut desks = Vec::with_capacity(alloc, agents)?;
    for _desk in 0..agents {
        desks.push(StageDesk {
            passes: Vec::new(alloc),
        })?;
    }
    Ok(desks)
}

/// Puts the passes of a queue ahead of those that these desks have, one for each desk: the queue comes ahead of theirs. The passes are
/// those of agents 0, 1 and so on.
///
/// # Errors
///
/// `NoMemory` where memory is refused. The first of the desks may have got their pass.
pub fn add_queue<Q: SharedQueue>(
    queue: &Q,
    desks: &mut [StageDesk<Q::Pass>],
    passes: Vec<Q::Pass>,
) -> Result<(), NoMemory>
    requires usable { All (λ p. Q.usable queue.now p) passes.items }
    requires fresh { All (λ p. Q.history queue.now (Q.journal p) ≡ []) passes.items }
    requires agents { (i : ℕ) (p : Q.Pass) → i < length passes.items → Q.agent_of queue.now (slice_index_or passes.items i p) ≡ i }
    requires all { length passes.items ≡ length desks.old }
    ensures fresh { IfOk result (λ done. (queues : List Q) → AreFresh Q.SharedQueue queues 0 desks.old
        → AreFresh Q.SharedQueue (queue.now ∷ queues) 0 desks.new) }
    ensures all { length desks.new ≡ length desks.old }
{
    let _ = queue;
    put_ahead(desks, passes)
}

// Puts each of these passes ahead of those of the desk at its place.
fn put_ahead<P: Drop>(desks: &mut [StageDesk<P>], mut passes: Vec<P>) -> Result<(), NoMemory>
    requires all { length passes.items ≡ length desks.old }
    ensures ahead { IfOk result (λ done. StandAhead passes.items desks.old desks.new) }
    ensures all { length desks.new ≡ length desks.old }
{
    let Some((desk, rest)) = desks.split_first_mut() else {
        return Ok(());
    };
    let pass = passes.remove(0);
    desk.passes.insert(0, pass)?;
    put_ahead(rest, passes)
}

/// Takes the first pass of each desk, in their order, and puts it behind those that are there. It takes no memory.
pub fn take_first<P: Drop>(desks: &mut [StageDesk<P>], passes: &mut Vec<P>)
    requires some { AllByRecursion HasPass desks.old }
    requires room { vec_len passes.old + length desks.old ≤ vec_capacity passes.old }
    ensures taken { TookFirst passes.old.items desks.old passes.new.items desks.new }
{
    let Some((desk, rest)) = desks.split_first_mut() else {
        return;
    };
    let pass = desk.passes.remove(0);
    let Ok(()) = passes.push(pass) else {
        unreachable!()
    };
    take_first(rest, passes);
}
