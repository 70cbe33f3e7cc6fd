//! Plain containers are called, call by call, and their answers held to those that are wanted.

ghost use Rattle.std.specs.Prelude.{◌≤◌, ◌^◌};

use super::super::{plain_queue, plain_set};
use orc_fault::Again;
use orc_history::{ListRefused, QueueRefused, SharedQueue, SharedSet};
use std::alloc::Global;
use std::process::Abort;
use std::test::Fail;

// A put of this job, or a take, and the answer that is wanted.
#[derive(Clone, Copy)]
enum QueueCall {
    Put(u64, Result<u64, QueueRefused>),
    Take(Result<Option<(u64, u64)>, Again>),
}

// Asks whether each call, with so many turns, is answered so.
fn queue_answers<R: Abort, Q: SharedQueue>(
    rt: &R,
    queue: &Q,
    p: &mut Q::Pass,
    calls: &[(u64, QueueCall)],
)
    requires { Q.usable queue.now p.old }
{
    assert!(rt; queue.agent(p) == 1);
    for place in 0..calls.len() {
        let (turns, call) = &calls[place];
        match call {
            QueueCall::Put(job, wanted) => {
                assert!(rt; queue.enqueue(p, *job, *turns) == *wanted, "call {place}");
            }
            QueueCall::Take(wanted) => {
                assert!(rt; queue.dequeue(p, *turns) == *wanted, "call {place}");
            }
        }
    }
}

// Asks this of a plain queue of this room, whose first job gets this position.
fn plain_queue_answers<R: Abort>(
    rt: &R,
    alloc: Global,
    room: u32,
    first: u64,
    calls: &[(u64, QueueCall)],
) -> Result<(), Fail>
    requires { first ≤ 2 ^ 62 }
{
    let (queue, mut pass) = plain_queue(alloc, room, first)?;
    queue.members();
    queue_answers(rt, &queue, &mut pass, calls);
    Ok(())
}

const ROOM_ONE: [(u64, QueueCall); 5] = [
    (0, QueueCall::Put(5, Err(QueueRefused::Again))),
    (1, QueueCall::Put(5, Ok(0))),
    (1, QueueCall::Put(6, Err(QueueRefused::NoNode))),
    (1, QueueCall::Take(Ok(Some((5, 0))))),
    (1, QueueCall::Take(Ok(None))),
];

#[test]
fn a_queue_of_room_one_is_filled(rt: HostRuntime) -> Result<(), Fail> {
    plain_queue_answers(&rt, rt.alloc(), 1, 0, &ROOM_ONE)
}

// One position is left, and none.
const LAST: u64 = 4611686018427387903;

const ONE_LEFT: [(u64, QueueCall); 3] = [
    (2, QueueCall::Put(1, Ok(LAST))),
    (2, QueueCall::Put(2, Err(QueueRefused::Positions))),
    (2, QueueCall::Take(Ok(Some((1, LAST))))),
];

const NONE_LEFT: [(u64, QueueCall); 1] = [(2, QueueCall::Put(2, Err(QueueRefused::Positions)))];

#[test]
fn positions_are_used_up(rt: HostRuntime) -> Result<(), Fail> {
    plain_queue_answers(&rt, rt.alloc(), 2, LAST, &ONE_LEFT)?;
    plain_queue_answers(&rt, rt.alloc(), 1, LAST + 1, &NONE_LEFT)
}

// A call with this key, and the answer that is wanted.
#[derive(Clone, Copy)]
enum SetCall {
    Insert(u64, Result<bool, ListRefused>),
    Remove(u64, Result<bool, Again>),
    Contains(u64, Result<bool, Again>),
}

// Asks whether each call, with so many turns, is answered so.
fn set_answers<R: Abort, S: SharedSet>(rt: &R, set: &S, p: &mut S::Pass, calls: &[(u64, SetCall)])
    requires { S.usable set.now p.old }
{
    assert!(rt; set.agent(p) == 1);
    for place in 0..calls.len() {
        let (turns, call) = &calls[place];
        let is_wanted = match call {
            SetCall::Insert(key, wanted) => set.insert(p, *key, *turns) == *wanted,
            SetCall::Remove(key, wanted) => set.remove(p, *key, *turns) == *wanted,
            SetCall::Contains(key, wanted) => set.contains(p, *key, *turns) == *wanted,
        };
        assert!(rt; is_wanted, "call {place}");
    }
}

// Asks this of a plain set of this room.
fn plain_set_answers<R: Abort>(
    rt: &R,
    alloc: Global,
    room: u32,
    calls: &[(u64, SetCall)],
) -> Result<(), Fail> {
    let (set, mut pass) = plain_set(alloc, room)?;
    set.members();
    set_answers(rt, &set, &mut pass, calls);
    Ok(())
}

const ONE_KEY: [(u64, SetCall); 7] = [
    (0, SetCall::Insert(7, Err(ListRefused::Again))),
    (1, SetCall::Insert(7, Ok(true))),
    (1, SetCall::Insert(7, Err(ListRefused::NoNode))),
    (1, SetCall::Insert(8, Err(ListRefused::NoNode))),
    (1, SetCall::Contains(7, Ok(true))),
    (1, SetCall::Remove(7, Ok(true))),
    (1, SetCall::Contains(7, Ok(false))),
];

#[test]
fn a_set_of_room_one_is_filled(rt: HostRuntime) -> Result<(), Fail> {
    plain_set_answers(&rt, rt.alloc(), 1, &ONE_KEY)
}

// The history of a set of room 0 takes four entries.
const FOUR_ENTRIES: [(u64, SetCall); 8] = [
    (1, SetCall::Insert(7, Err(ListRefused::NoNode))),
    (1, SetCall::Remove(7, Ok(false))),
    (1, SetCall::Remove(8, Ok(false))),
    (1, SetCall::Remove(9, Ok(false))),
    (1, SetCall::Contains(7, Ok(false))),
    (1, SetCall::Contains(7, Err(Again))),
    (1, SetCall::Remove(7, Err(Again))),
    (1, SetCall::Insert(7, Err(ListRefused::Again))),
];

#[test]
fn a_stored_history_is_filled(rt: HostRuntime) -> Result<(), Fail> {
    plain_set_answers(&rt, rt.alloc(), 0, &FOUR_ENTRIES)
}
