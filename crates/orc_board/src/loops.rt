//! The work of one poster, and of a taker that takes what is left.
ghost use Rattle.std.specs.Prelude.{◌≡◌, ◌≢◌, ◌≤◌, ◌+◌, [], length, map};
ghost use Rattle.orc_jobs.specs.GoodLines.{AreGood};
ghost use Rattle.orc_board.specs.{Desk.{IsDesk}, DeskCalls.{FindsBothEmpty, Posts, TakesRest}, Follows.{own_records}};

use crate::desk::reply_to;
use crate::{Desk, Gate, PostList, TakeList, take_one};
use orc_history::{SharedQueue, SharedSet};
use orc_jobs::Lines;
use std::sync::Wait;

/// Works through the records of a poster in file order: record i belongs to poster 1 + (i mod `posters`).
pub fn post_records<R: Wait, Q: SharedQueue, S: SharedSet, G: Gate>(
    rt: &R,
    queue: &Q,
    rush: &Q,
    set: &S,
    desk: &mut Desk<Q::Pass, S::Pass>,
    poster: u32,
    posters: u32,
    lines: &Lines,
    gate: &G,
    replies: &mut PostList,
)
    requires desk { IsDesk Q.SharedQueue S.SharedSet queue.now rush.now set.now poster desk.old }
    requires good { AreGood lines.now }
    requires poster { (1 ≤ poster) × (poster ≤ posters) }
    requires none { replies.old.items ≡ [] }
    requires room { length (own_records posters poster (length lines.now)) ≤ replies.old.spare }
    ensures desk { IsDesk Q.SharedQueue S.SharedSet queue.now rush.now set.now poster desk.new }
    ensures posting { Posts Q.SharedQueue S.SharedSet queue.now rush.now set.now desk.old desk.new lines.now poster replies.new.items }
    ensures in_file_order { map (λ r. r.line) replies.new.items ≡ own_records posters poster (length lines.now) }
    ensures spare { length replies.new.items + replies.new.spare ≡ replies.old.spare }
{
    for index in 0..lines.len() {
        if index as u32 % posters == poster - 1 {
            gate.before(poster, replies.len() as u64);
            replies.push(reply_to(
                rt,
                queue,
                rush,
                set,
                desk,
                poster,
                index as u32,
                lines.get(index),
            ));
        }
    }
}

/// Takes jobs until it finds both queues empty, the rush queue first, or until the room for replies is used up.
pub fn take_rest<R: Wait, Q: SharedQueue, S: SharedSet, G: Gate>(
    rt: &R,
    queue: &Q,
    rush: &Q,
    set: &S,
    desk: &mut Desk<Q::Pass, S::Pass>,
    taker: u32,
    lines: &Lines,
    gate: &G,
    replies: &mut TakeList,
)
    requires desk { IsDesk Q.SharedQueue S.SharedSet queue.now rush.now set.now (Q.agent_of queue.now desk.old.queue) desk.old }
    requires good { AreGood lines.now }
    requires none { replies.old.items ≡ [] }
    ensures desk { IsDesk Q.SharedQueue S.SharedSet queue.now rush.now set.now (Q.agent_of queue.now desk.old.queue) desk.new }
    ensures taking { TakesRest Q.SharedQueue S.SharedSet queue.now rush.now set.now desk.old desk.new lines.now taker replies.new.items }
    ensures last { replies.new.spare ≢ 0 → FindsBothEmpty Q.SharedQueue S.SharedSet queue.now rush.now set.now desk.old desk.new }
    ensures spare { length replies.new.items + replies.new.spare ≡ replies.old.spare }
{
    for _ in rt.forever() {
        if replies.spare() == 0 {
            return;
        }
        gate.before(queue.agent(&desk.queue), replies.len() as u64);
        match take_one(rt, queue, rush, set, desk, taker, lines) {
            Some(reply) => replies.push(reply),
            None => return,
        }
    }
    unreachable!()
}
