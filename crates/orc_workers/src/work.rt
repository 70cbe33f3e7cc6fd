//! The work of a poster and of a taker, each at a desk of its own.
ghost use Rattle.std.specs.Prelude.{◌≡◌, ◌≤◌, ◌<◌, ◌+◌, [], ◌∷◌, length, map};
ghost use Rattle.orc_jobs.specs.{GoodLines.{AreGood}, Line.{jobs_in}};
ghost use Rattle.orc_board.specs.{Desk.{IsDesk}, DeskCalls.{FindsBothEmpty, Posts, TakesRest}, Follows.{own_records}};

use orc_board::{Desk, Gate, PostList, TakeList, post_records, take_one};
use orc_history::{SharedQueue, SharedSet};
use orc_jobs::{Line, Lines};
use std::sync::Wait;
use std::sync::atomic::{AtomicU64, Ordering};
use std::thread;

/// Works through the records of a poster in file order: record i belongs to poster 1 + (i mod `posters`). At its end it
/// takes one from `left`.
pub fn run_poster<R: Wait, Q: SharedQueue, S: SharedSet, G: Gate>(
    rt: &R,
    queue: &Q,
    rush: &Q,
    set: &S,
    mut desk: Desk<Q::Pass, S::Pass>,
    poster: u32,
    posters: u32,
    lines: &Lines,
    gate: &G,
    left: &AtomicU64,
    mut replies: PostList,
) -> (Desk<Q::Pass, S::Pass>, PostList)
    requires desk { IsDesk Q.SharedQueue S.SharedSet queue.now rush.now set.now poster desk }
    requires good { AreGood lines.now }
    requires poster { (1 ≤ poster) × (poster ≤ posters) }
    requires none { replies.items ≡ [] }
    requires room { length (own_records posters poster (length lines.now)) ≤ replies.spare }
    ensures desk { IsDesk Q.SharedQueue S.SharedSet queue.now rush.now set.now poster result.0 }
    ensures posting { Posts Q.SharedQueue S.SharedSet queue.now rush.now set.now desk result.0 lines.now poster result.1.items }
    ensures in_file_order { map (λ r. r.line) result.1.items ≡ own_records posters poster (length lines.now) }
    ensures spare { length result.1.items + result.1.spare ≡ replies.spare }
{
    post_records(
        rt,
        queue,
        rush,
        set,
        &mut desk,
        poster,
        posters,
        lines,
        gate,
        &mut replies,
    );
    left.fetch_sub(1, Ordering::SeqCst);
    (desk, replies)
}

/// Takes jobs until its replies are as many as the Posts and Rushes of the file, or until it finds both queues empty, the rush
/// queue first, after it had read that no poster is left.
pub fn run_taker<R: Wait, Q: SharedQueue, S: SharedSet, G: Gate>(
    rt: &R,
    queue: &Q,
    rush: &Q,
    set: &S,
    mut desk: Desk<Q::Pass, S::Pass>,
    taker: u32,
    lines: &Lines,
    gate: &G,
    left: &AtomicU64,
    mut replies: TakeList,
) -> (Desk<Q::Pass, S::Pass>, TakeList)
    requires desk { IsDesk Q.SharedQueue S.SharedSet queue.now rush.now set.now (Q.agent_of queue.now desk.queue) desk }
    requires good { AreGood lines.now }
    requires none { replies.items ≡ [] }
    requires room { jobs_in lines.now ≤ replies.spare }
    ensures desk { IsDesk Q.SharedQueue S.SharedSet queue.now rush.now set.now (Q.agent_of queue.now desk.queue) result.0 }
    ensures taking { TakesRest Q.SharedQueue S.SharedSet queue.now rush.now set.now desk result.0 lines.now taker result.1.items }
    ensures few { length result.1.items ≤ jobs_in lines.now }
    ensures last { length result.1.items < jobs_in lines.now
        → FindsBothEmpty Q.SharedQueue S.SharedSet queue.now rush.now set.now desk result.0 }
    ensures spare { length result.1.items + result.1.spare ≡ replies.spare }
{
    let jobs = count_jobs(lines);
    let mut call: u64 = 0;
    for _ in rt.forever() {
        if replies.len() >= jobs {
            return (desk, replies);
        }
        let none_left = left.load(Ordering::SeqCst) == 0;
        gate.before(queue.agent(&desk.queue), call);
        call = call.wrapping_add(1);
        match take_one(rt, queue, rush, set, &mut desk, taker, lines) {
            Some(reply) => replies.push(reply),
            None => {
                if none_left {
                    return (desk, replies);
                }
                thread::yield_now();
            }
        }
    }
    unreachable!()
}

// One for a Post or a Rush.
fn count_job(line: &Line) -> usize
    ensures is { result ≡ jobs_in (line.now ∷ []) }
    ensures few { result ≤ 1 }
{
    match line {
        Line::Post { .. } | Line::Rush { .. } => 1,
        Line::Drop { .. } => 0,
    }
}

/// How many of the lines are Posts or Rushes.
pub fn count_jobs(lines: &Lines) -> usize
    ensures { result ≡ jobs_in lines.now }
{
    let mut jobs = 0;
    for index in 0..lines.len() {
        jobs += count_job(lines.get(index));
    }
    jobs
}
