//! The same calls of the containers, made by no worker of the board.

ghost use Rattle.std.specs.Prelude.{◌≤◌};
ghost use Rattle.workers_bench.specs.Usable.{MayCall};

use orc_board::Desk;
use orc_history::{SharedQueue, SharedSet};

// More turns than there are events in a lap, so that no call is refused for want of them.
const TURNS: u64 = 1 << 30;

// Opens and puts each `step`th number, from that of the desk's agent on.
pub(crate) fn post<Q: SharedQueue, S: SharedSet>(
    queue: &Q,
    set: &S,
    mut desk: Desk<Q::Pass, S::Pass>,
    posts: u32,
    step: u32,
) -> Desk<Q::Pass, S::Pass>
    requires passes { MayCall Q.SharedQueue S.SharedSet queue.now set.now desk }
    requires some { 1 ≤ step }
{
    let first = queue.agent(&desk.queue) % step;
    for index in 0..posts {
        if index % step == first {
            let _opened = set.insert(&mut desk.set, u64::from(posts - 1 - index), TURNS);
            let _put = queue.enqueue(&mut desk.queue, u64::from(index), TURNS);
        }
    }
    desk
}

// Takes what there is and closes its number, and answers how many jobs there were.
pub(crate) fn take<Q: SharedQueue, S: SharedSet>(
    queue: &Q,
    set: &S,
    mut desk: Desk<Q::Pass, S::Pass>,
    posts: u32,
) -> u64
    requires passes { MayCall Q.SharedQueue S.SharedSet queue.now set.now desk }
{
    let mut taken: u64 = 0;
    for _call in 0..posts {
        if let Ok(Some((job, _at))) = queue.dequeue(&mut desk.queue, TURNS) {
            taken = taken.wrapping_add(1);
            let id = u64::from(posts).wrapping_sub(1).wrapping_sub(job);
            let _closed = set.remove(&mut desk.set, id, TURNS);
        }
    }
    taken
}
