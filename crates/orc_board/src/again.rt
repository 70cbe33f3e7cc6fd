//! Calls that are made again until they are answered.
ghost use Rattle.std.specs.Prelude.{◌≡◌, ◌≢◌, [], ◌∷◌, IfOk, IfErr, Ok, Err};
ghost use Rattle.orc_history.specs.{
  declared.queue.{QueueEntry.{QueueEntry}, QueueRefused.{QueueRefused}},
  declared.set.{SetEntry.{SetEntry}, ListRefused.{ListRefused}},
  QueueHistory.{entry_of_dequeue},
};
ghost use Rattle.orc_board.specs.{
  DeskCalls.{KeepsQueueAgent, KeepsSetAgent, QueueCall, QueueEndsWith, QueueRefuses, SetCall, SetRefuses},
  Stretches.{turns},
  Table.{took_of},
};

use orc_history::{ListRefused, QueueRefused, SharedQueue, SharedSet};
use std::sync::Wait;

/// How many turns each call of a container has.
pub const TURNS: u64 = 64;

/// A law, with nothing to run: a call has as many turns as the refusals are licensed for.
pub fn calls_have_their_turns()
    ensures { TURNS ≡ turns }
{}

// Inserts the key.
pub(crate) fn insert_key<R: Wait, S: SharedSet>(
    rt: &R,
    set: &S,
    p: &mut S::Pass,
    key: u64,
) -> Result<bool, ListRefused>
    requires { S.usable set.now p.old }
    ensures usable { S.usable set.now p.new }
    ensures agent { KeepsSetAgent S.SharedSet set.now p.old p.new }
    ensures added { IfOk result (λ yes. SetCall S.SharedSet set.now p.old p.new (λ agent. SetEntry.Added agent key yes ∷ [])) }
    ensures refused { IfErr result (λ e. SetRefuses S.SharedSet set.now p.old p.new e) }
    ensures answered { IfErr result (λ e. e ≢ ListRefused.Again) }
{
    for _ in rt.forever() {
        match set.insert(p, key, TURNS) {
            Ok(yes) => return Ok(yes),
            Err(ListRefused::NoNode) => return Err(ListRefused::NoNode),
            Err(ListRefused::Spent(spent)) => return Err(ListRefused::Spent(spent)),
            Err(ListRefused::Again) => {}
        }
    }
    unreachable!()
}

// Removes the key.
pub(crate) fn remove_key<R: Wait, S: SharedSet>(rt: &R, set: &S, p: &mut S::Pass, key: u64) -> bool
    requires { S.usable set.now p.old }
    ensures usable { S.usable set.now p.new }
    ensures agent { KeepsSetAgent S.SharedSet set.now p.old p.new }
    ensures removed { SetCall S.SharedSet set.now p.old p.new (λ agent. SetEntry.Removed agent key result ∷ []) }
{
    for _ in rt.forever() {
        match set.remove(p, key, TURNS) {
            Ok(yes) => return yes,
            Err(_) => {}
        }
    }
    unreachable!()
}

/// Puts the job, and makes a call that answers Again once more until it is answered.
///
/// # Errors
///
/// `NoNode` or `Positions` where the queue's call answers so, never `Again`.
pub fn put_job<R: Wait, Q: SharedQueue>(
    rt: &R,
    queue: &Q,
    p: &mut Q::Pass,
    job: u64,
) -> Result<u64, QueueRefused>
    requires { Q.usable queue.now p.old }
    ensures usable { Q.usable queue.now p.new }
    ensures agent { KeepsQueueAgent Q.SharedQueue queue.now p.old p.new }
    ensures put { IfOk result (λ at. QueueCall Q.SharedQueue queue.now p.old p.new (λ agent. QueueEntry.Put agent job at ∷ [])) }
    ensures refused { IfErr result (λ e. QueueRefuses Q.SharedQueue queue.now p.old p.new e) }
    ensures answered { IfErr result (λ e. e ≢ QueueRefused.Again) }
{
    for _ in rt.forever() {
        match queue.enqueue(p, job, TURNS) {
            Ok(at) => return Ok(at),
            Err(QueueRefused::NoNode) => return Err(QueueRefused::NoNode),
            Err(QueueRefused::Positions) => return Err(QueueRefused::Positions),
            Err(QueueRefused::Again) => {}
        }
    }
    unreachable!()
}

/// Takes a job with its position, or finds none, and makes a call that answers Again once more until it is answered.
pub fn take_job<R: Wait, Q: SharedQueue>(rt: &R, queue: &Q, p: &mut Q::Pass) -> Option<(u64, u64)>
    requires { Q.usable queue.now p.old }
    ensures usable { Q.usable queue.now p.new }
    ensures agent { KeepsQueueAgent Q.SharedQueue queue.now p.old p.new }
    ensures took { QueueCall Q.SharedQueue queue.now p.old p.new (λ agent. took_of agent result) }
    ensures last { QueueEndsWith Q.SharedQueue queue.now p.old p.new (λ agent. entry_of_dequeue agent result) }
{
    for _ in rt.forever() {
        match queue.dequeue(p, TURNS) {
            Ok(Some(got)) => return Some(got),
            Ok(None) => return None,
            Err(_) => {}
        }
    }
    unreachable!()
}
