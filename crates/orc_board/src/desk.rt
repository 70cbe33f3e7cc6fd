//! One line posted or dropped, and one job taken.
ghost use Rattle.std.specs.Prelude.{◌≡◌, IfSome, IfNone};
ghost use Rattle.orc_jobs.specs.GoodLines.{AreGood};
ghost use Rattle.orc_board.specs.{
  Desk.{IsDesk},
  DeskCalls.{Closes, KeepsSetAgent, KeepsQueueAgent, LeavesLast, Replies, TakesNext, Opens, Drops},
  Table.{PostRow, JobPart, IsWordOf, IsPlacedAt, DropPart, TakenRow, PostsWithId, PostsNone, IsJob, IsNoJob},
};

use crate::again::{insert_key, put_job, remove_key, take_job};
use crate::{PostReply, PostWord, TakeReply, TakeWord};
use orc_history::{ListRefused, QueueRefused, SharedQueue, SharedSet};
use orc_jobs::{Line, Lines, job_value};
use std::sync::Wait;

/// A worker's three passes.
#[derive(Drop)]
pub struct Desk<A, B> {
    pub queue: A,
    pub rush: A,
    pub set: B,
}

/// Takes jobs, from the rush queue first, until one is the number of a line that posts it there, and closes that line's id; or finds
/// both queues empty, the rush queue first. Other jobs are passed over.
pub fn take_one<R: Wait, Q: SharedQueue, S: SharedSet>(
    rt: &R,
    queue: &Q,
    rush: &Q,
    set: &S,
    desk: &mut Desk<Q::Pass, S::Pass>,
    taker: u32,
    lines: &Lines,
) -> Option<TakeReply>
    requires desk { IsDesk Q.SharedQueue S.SharedSet queue.now rush.now set.now (Q.agent_of queue.now desk.old.queue) desk.old }
    requires good { AreGood lines.now }
    ensures desk { IsDesk Q.SharedQueue S.SharedSet queue.now rush.now set.now (Q.agent_of queue.now desk.old.queue) desk.new }
    ensures reply { IfSome result (λ r. r.taker ≡ taker) }
    ensures last { LeavesLast Q.SharedQueue S.SharedSet queue.now rush.now set.now desk.old desk.new result }
    ensures row { Replies Q.SharedQueue S.SharedSet queue.now rush.now set.now desk.old desk.new (Q.agent_of queue.now desk.old.queue)
        (TakenRow lines.now (Q.agent_of queue.now desk.old.queue) result) }
{
    for _ in rt.forever() {
        match take_next(rt, queue, rush, &mut desk.queue, &mut desk.rush) {
            None => return None,
            Some((is_rush, job, at)) => match posted_id(lines, is_rush, job) {
                Some(id) => {
                    return Some(close_job(
                        rt,
                        set,
                        &mut desk.set,
                        taker,
                        lines,
                        is_rush,
                        job,
                        at,
                        id,
                    ));
                }
                None => {}
            },
        }
    }
    unreachable!()
}

/// Works through one line. The id of a Post or a Rush is opened, and then the line's number is put, on the queue or on the rush queue;
/// where the number can't be put, the id is closed again. The id of a Drop is closed.
pub fn reply_to<R: Wait, Q: SharedQueue, S: SharedSet>(
    rt: &R,
    queue: &Q,
    rush: &Q,
    set: &S,
    desk: &mut Desk<Q::Pass, S::Pass>,
    poster: u32,
    index: u32,
    line: &Line,
) -> PostReply
    requires desk { IsDesk Q.SharedQueue S.SharedSet queue.now rush.now set.now poster desk.old }
    ensures desk { IsDesk Q.SharedQueue S.SharedSet queue.now rush.now set.now poster desk.new }
    ensures reply { (result.poster ≡ poster) × (result.line ≡ index) }
    ensures row { Replies Q.SharedQueue S.SharedSet queue.now rush.now set.now desk.old desk.new poster
        (PostRow poster index line.now result.what) }
{
    let what = match line {
        Line::Post { id, .. } => post_job(
            rt,
            queue,
            set,
            &mut desk.queue,
            &mut desk.set,
            poster,
            index,
            *id,
            false,
        ),
        Line::Rush { id, .. } => post_job(
            rt,
            rush,
            set,
            &mut desk.rush,
            &mut desk.set,
            poster,
            index,
            *id,
            true,
        ),
        Line::Drop { id } => drop_id(rt, set, &mut desk.set, *id),
    };
    PostReply {
        poster,
        line: index,
        what,
    }
}

// Opens the id and puts the job on this queue, which is the rush queue or isn't.
fn post_job<R: Wait, Q: SharedQueue, S: SharedSet>(
    rt: &R,
    queue: &Q,
    set: &S,
    p: &mut Q::Pass,
    ids: &mut S::Pass,
    poster: u32,
    index: u32,
    id: u32,
    is_rush: bool,
) -> PostWord
    requires queue { Q.usable queue.now p.old }
    requires queue_agent { Q.agent_of queue.now p.old ≡ poster }
    requires set { S.usable set.now ids.old }
    requires set_agent { S.agent_of set.now ids.old ≡ poster }
    ensures queue { Q.usable queue.now p.new }
    ensures queue_agent { Q.agent_of queue.now p.new ≡ poster }
    ensures set { S.usable set.now ids.new }
    ensures set_agent { S.agent_of set.now ids.new ≡ poster }
    ensures word { IsWordOf is_rush result }
    ensures part { Opens Q.SharedQueue S.SharedSet queue.now set.now p.old p.new ids.old ids.new poster
        (JobPart poster index id result) }
{
    match insert_key(rt, set, ids, id as u64) {
        Ok(true) => match put_job(rt, queue, p, index as u64) {
            Ok(at) => place_word(is_rush, at),
            Err(QueueRefused::Positions) => {
                remove_key(rt, set, ids, id as u64);
                PostWord::Positions
            }
            Err(QueueRefused::NoNode) => {
                remove_key(rt, set, ids, id as u64);
                PostWord::NoNode
            }
            Err(QueueRefused::Again) => unreachable!(),
        },
        Ok(false) => PostWord::Busy,
        Err(ListRefused::Spent(_)) => PostWord::Spent,
        Err(ListRefused::NoNode) => PostWord::NoNode,
        Err(ListRefused::Again) => unreachable!(),
    }
}

// The word for a job that was put at this position.
fn place_word(is_rush: bool, at: u64) -> PostWord
    ensures { IsPlacedAt is_rush at result }
{
    if is_rush {
        PostWord::Rushed(at)
    } else {
        PostWord::Posted(at)
    }
}

// Closes the id.
fn drop_id<R: Wait, S: SharedSet>(rt: &R, set: &S, ids: &mut S::Pass, id: u32) -> PostWord
    requires { S.usable set.now ids.old }
    ensures set { S.usable set.now ids.new }
    ensures agent { KeepsSetAgent S.SharedSet set.now ids.old ids.new }
    ensures part { Drops S.SharedSet set.now ids.old ids.new (S.agent_of set.now ids.old) (DropPart (S.agent_of set.now ids.old) id result) }
{
    if remove_key(rt, set, ids, id as u64) {
        PostWord::Dropped
    } else {
        PostWord::Unknown
    }
}

// Takes a job from the rush queue, or else from the queue, and tells which; or finds both empty.
fn take_next<R: Wait, Q: SharedQueue>(
    rt: &R,
    queue: &Q,
    rush: &Q,
    p: &mut Q::Pass,
    hurried: &mut Q::Pass,
) -> Option<(bool, u64, u64)>
    requires queue { Q.usable queue.now p.old }
    requires rush { Q.usable rush.now hurried.old }
    requires agent { Q.agent_of rush.now hurried.old ≡ Q.agent_of queue.now p.old }
    ensures queue { Q.usable queue.now p.new }
    ensures rush { Q.usable rush.now hurried.new }
    ensures queue_agent { KeepsQueueAgent Q.SharedQueue queue.now p.old p.new }
    ensures rush_agent { KeepsQueueAgent Q.SharedQueue rush.now hurried.old hurried.new }
    ensures took { TakesNext Q.SharedQueue queue.now rush.now p.old hurried.old p.new hurried.new result }
{
    match take_job(rt, rush, hurried) {
        Some((job, at)) => Some((true, job, at)),
        None => match take_job(rt, queue, p) {
            Some((job, at)) => Some((false, job, at)),
            None => None,
        },
    }
}

// The id of the job with this number, if the line with this number posts one on the rush queue, or on the queue.
fn posted_id(lines: &Lines, is_rush: bool, job: u64) -> Option<u32>
    requires { AreGood lines.now }
    ensures yes { IfSome result (IsJob lines.now is_rush job) }
    ensures no { IfNone result (IsNoJob lines.now is_rush job) }
{
    if job >= lines.len() as u64 {
        return None;
    }
    id_if(lines.get(job as usize), is_rush)
}

// The id of a line that posts a job on the rush queue, or on the queue.
fn id_if(line: &Line, is_rush: bool) -> Option<u32>
    ensures yes { IfSome result (λ id. PostsWithId line.now is_rush id) }
    ensures no { IfNone result (PostsNone line.now is_rush) }
{
    match line {
        Line::Post { id, .. } if !is_rush => Some(*id),
        Line::Rush { id, .. } if is_rush => Some(*id),
        Line::Post { .. } | Line::Rush { .. } | Line::Drop { .. } => None,
    }
}

// Closes the opening of a job that was taken.
fn close_job<R: Wait, S: SharedSet>(
    rt: &R,
    set: &S,
    p: &mut S::Pass,
    taker: u32,
    lines: &Lines,
    is_rush: bool,
    job: u64,
    at: u64,
    id: u32,
) -> TakeReply
    requires set { S.usable set.now p.old }
    requires good { AreGood lines.now }
    requires job { IsJob lines.now is_rush job id }
    ensures set { S.usable set.now p.new }
    ensures agent { KeepsSetAgent S.SharedSet set.now p.old p.new }
    ensures reply { (result.taker ≡ taker) × (result.at ≡ at) × (result.line ≡ job) × (result.rush ≡ is_rush) }
    ensures closed { Closes S.SharedSet set.now lines.now p.old p.new id result.line result.what }
{
    let what = if remove_key(rt, set, p, id as u64) {
        TakeWord::Done(job_value(lines.get(job as usize)))
    } else {
        TakeWord::Void
    };
    TakeReply {
        taker,
        at,
        line: job as u32,
        rush: is_rush,
        what,
    }
}
