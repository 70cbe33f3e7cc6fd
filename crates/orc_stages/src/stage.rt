//! One stage: it takes a job from its queue, and puts it into the next.
ghost use Rattle.std.specs.Prelude.{◌≡◌, ◌≢◌, ◌≤◌, ◌<◌, ◌+◌, ◌∷◌, [], length, IfNone, true, false};
ghost use Rattle.orc_history.specs.declared.queue.QueueEntry.{QueueEntry};
ghost use Rattle.orc_jobs.specs.{GoodLines.{AreGood}, Line.{jobs_in}};
ghost use Rattle.orc_board.specs.DeskCalls.{KeepsQueueAgent, QueueEndsWith};
ghost use Rattle.orc_stages.specs.{Stage.{IsItem, IsNoItem, IsStageValue}, Calls.{AreStagePasses, Moves, MovesOne, MovesMore, PutsItem}};

use crate::{StageList, StageReply};
use orc_board::{Gate, put_job, take_job};
use orc_history::SharedQueue;
use orc_jobs::{Line, Lines, job_value};
use orc_workers::count_jobs;
use std::sync::Wait;
use std::sync::atomic::{AtomicU64, Ordering};
use std::thread;

/// What a line is worth at a stage: its value times the number of the stage, from 1 to 6.
pub fn stage_value(line: &Line, stage: u32) -> u64
    requires good { AreGood (line.now ∷ []) }
    requires stage { (1 ≤ stage) × (stage ≤ 6) }
    ensures { IsStageValue line.now stage result }
{
    job_value(line) * u64::from(stage)
}

// Takes jobs of a queue until one is the number of a line that posts a job, and puts it into the next queue; or finds the queue
// empty. Other jobs are passed over.
pub(crate) fn move_one<R: Wait, Q: SharedQueue>(
    rt: &R,
    from: &Q,
    to: &Q,
    p: &mut Q::Pass,
    r: &mut Q::Pass,
    stage: u32,
    lines: &Lines,
) -> Option<StageReply>
    requires passes { AreStagePasses Q.SharedQueue from.now to.now (Q.agent_of from.now p.old) p.old r.old }
    requires good { AreGood lines.now }
    requires stage { (1 ≤ stage) × (stage ≤ 6) }
    ensures passes { AreStagePasses Q.SharedQueue from.now to.now (Q.agent_of from.now p.old) p.new r.new }
    ensures moved { MovesOne Q.SharedQueue from.now to.now lines.now stage p.old r.old p.new r.new result }
    ensures last { IfNone result (QueueEndsWith Q.SharedQueue from.now p.old p.new (λ agent. QueueEntry.Empty agent)) }
{
    for _ in rt.forever() {
        match take_job(rt, from, p) {
            None => return None,
            Some((job, _)) => {
                if is_item(lines, job) {
                    return Some(StageReply {
                        stage,
                        line: job as u32,
                        value: put_item(rt, to, r, stage, lines, job),
                    });
                }
            }
        }
    }
    unreachable!()
}

// Puts the number of a line that posts a job, and answers its value, or nothing where it found no place.
fn put_item<R: Wait, Q: SharedQueue>(
    rt: &R,
    to: &Q,
    r: &mut Q::Pass,
    stage: u32,
    lines: &Lines,
    job: u64,
) -> Option<u64>
    requires usable { Q.usable to.now r.old }
    requires good { AreGood lines.now }
    requires stage { (1 ≤ stage) × (stage ≤ 6) }
    requires item { IsItem lines.now job }
    ensures usable { Q.usable to.now r.new }
    ensures agent { KeepsQueueAgent Q.SharedQueue to.now r.old r.new }
    ensures put { PutsItem Q.SharedQueue to.now lines.now stage r.old r.new job result }
{
    match put_job(rt, to, r, job) {
        Ok(_) => Some(stage_value(lines.get(job as usize), stage)),
        Err(_) => None,
    }
}

// Whether the line with this number posts a job.
fn is_item(lines: &Lines, job: u64) -> bool
    requires { AreGood lines.now }
    ensures yes { result ≡ true → IsItem lines.now job }
    ensures no { result ≡ false → IsNoItem lines.now job }
{
    if job >= lines.len() as u64 {
        return false;
    }
    match lines.get(job as usize) {
        Line::Post { .. } | Line::Rush { .. } => true,
        Line::Drop { .. } => false,
    }
}

/// Moves jobs until the queue is empty, or until the room for replies is used up.
pub fn move_rest<R: Wait, Q: SharedQueue>(
    rt: &R,
    from: &Q,
    to: &Q,
    p: &mut Q::Pass,
    r: &mut Q::Pass,
    stage: u32,
    lines: &Lines,
    replies: &mut StageList,
)
    requires passes { AreStagePasses Q.SharedQueue from.now to.now (Q.agent_of from.now p.old) p.old r.old }
    requires good { AreGood lines.now }
    requires stage { (1 ≤ stage) × (stage ≤ 6) }
    ensures passes { AreStagePasses Q.SharedQueue from.now to.now (Q.agent_of from.now p.old) p.new r.new }
    ensures moved { MovesMore Q.SharedQueue from.now to.now lines.now stage p.old r.old p.new r.new replies.old.items replies.new.items }
    ensures last { replies.new.spare ≢ 0 → QueueEndsWith Q.SharedQueue from.now p.old p.new (λ agent. QueueEntry.Empty agent) }
    ensures spare { length replies.new.items + replies.new.spare ≡ length replies.old.items + replies.old.spare }
{
    for _ in rt.forever() {
        if replies.spare() == 0 {
            return;
        }
        match move_one(rt, from, to, p, r, stage, lines) {
            Some(reply) => replies.push(reply),
            None => return,
        }
    }
    unreachable!()
}

/// Works as this stage until its replies are as many as the Posts and Rushes of the file, or until it finds its queue empty after
/// it had read that nobody puts into it any more: `before` counts who does. At its end it takes one from `after`.
pub fn run_stage<R: Wait, Q: SharedQueue, G: Gate>(
    rt: &R,
    from: &Q,
    to: &Q,
    p: &mut Q::Pass,
    r: &mut Q::Pass,
    stage: u32,
    lines: &Lines,
    gate: &G,
    before: &AtomicU64,
    after: &AtomicU64,
    replies: &mut StageList,
)
    requires passes { AreStagePasses Q.SharedQueue from.now to.now (Q.agent_of from.now p.old) p.old r.old }
    requires good { AreGood lines.now }
    requires stage { (1 ≤ stage) × (stage ≤ 6) }
    requires none { replies.old.items ≡ [] }
    requires room { jobs_in lines.now ≤ replies.old.spare }
    ensures passes { AreStagePasses Q.SharedQueue from.now to.now (Q.agent_of from.now p.old) p.new r.new }
    ensures moved { Moves Q.SharedQueue from.now to.now lines.now stage p.old r.old p.new r.new replies.new.items }
    ensures few { length replies.new.items ≤ jobs_in lines.now }
    ensures last { length replies.new.items < jobs_in lines.now
        → QueueEndsWith Q.SharedQueue from.now p.old p.new (λ agent. QueueEntry.Empty agent) }
    ensures spare { length replies.new.items + replies.new.spare ≡ replies.old.spare }
{
    let jobs = count_jobs(lines);
    let mut call: u64 = 0;
    for _ in rt.forever() {
        if replies.len() >= jobs {
            after.fetch_sub(1, Ordering::SeqCst);
            return;
        }
        let ended = before.load(Ordering::SeqCst) == 0;
        gate.before(from.agent(p), call);
        call = call.wrapping_add(1);
        match move_one(rt, from, to, p, r, stage, lines) {
            Some(reply) => replies.push(reply),
            None => {
                if ended {
                    after.fetch_sub(1, Ordering::SeqCst);
                    return;
                }
                thread::yield_now();
            }
        }
    }
    unreachable!()
}
