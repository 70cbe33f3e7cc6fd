//! What the caller does once all workers are back.
ghost use Rattle.std.specs.Prelude.{◌≡◌, ◌≢◌, ◌<◌, ◌≤◌, ◌+◌, ◌∷◌, [], length};
ghost use Rattle.orc_history.specs.declared.queue.QueueEntry.{QueueEntry};
ghost use Rattle.orc_board.specs.DeskCalls.{KeepsQueueAgent, QueueEndsWith};
ghost use Rattle.orc_jobs.specs.GoodLines.{AreGood};
ghost use Rattle.orc_stages.specs.{Calls.{TakesOnly}, Caller.{CallerMoved, MovedBetween}, Desks.{ArePasses}};

use crate::{OutList, StageWorker, move_rest};
use orc_board::take_job;
use orc_history::SharedQueue;
use orc_jobs::Lines;
use std::sync::Wait;

/// Takes what has come out of the last queue, until it is empty or the room is used up.
pub fn take_outs<R: Wait, Q: SharedQueue>(rt: &R, queue: &Q, pass: &mut Q::Pass, outs: &mut OutList)
    requires usable { Q.usable queue.now pass.old }
    requires none { outs.old.items ≡ [] }
    ensures usable { Q.usable queue.now pass.new }
    ensures agent { KeepsQueueAgent Q.SharedQueue queue.now pass.old pass.new }
    ensures taken { TakesOnly Q.SharedQueue queue.now pass.old pass.new outs.new.items }
    ensures last { outs.new.spare ≢ 0 → QueueEndsWith Q.SharedQueue queue.now pass.old pass.new (λ agent. QueueEntry.Empty agent) }
    ensures spare { length outs.new.items + outs.new.spare ≡ outs.old.spare }
{
    for _ in rt.forever() {
        if outs.spare() == 0 {
            return;
        }
        match take_job(rt, queue, pass) {
            Some((job, _)) => outs.push(job),
            None => return,
        }
    }
    unreachable!()
}

/// Moves what is left for each of these stages in order, the first of which has this number, until the stage's queue is empty or
/// the room for its replies is used up; and then takes what has come out of the last queue.
pub fn move_all<R: Wait, Q: SharedQueue>(
    rt: &R,
    queues: &[Q],
    passes: &mut [Q::Pass],
    agent: u32,
    stage: u32,
    lines: &Lines,
    stages: &mut [StageWorker<Q::Pass>],
    outs: &mut OutList,
)
    requires passes { ArePasses Q.SharedQueue agent queues.now passes.old }
    requires all { length queues.now ≡ length stages.old + 1 }
    requires good { AreGood lines.now }
    requires stage { (1 ≤ stage) × (stage + length stages.old ≤ 7) }
    requires no_outs { outs.old.items ≡ [] }
    ensures passes { ArePasses Q.SharedQueue agent queues.now passes.new }
    ensures moved { CallerMoved Q.SharedQueue queues.now lines.now stage agent passes.old passes.new stages.old stages.new outs.new }
    ensures spare { length outs.new.items + outs.new.spare ≡ outs.old.spare }
{
    let Some((queue, more)) = queues.split_first() else {
        unreachable!()
    };
    let Some((pass, rest)) = passes.split_first_mut() else {
        unreachable!()
    };
    let Some((first, others)) = stages.split_first_mut() else {
        take_outs(rt, queue, pass, outs);
        return;
    };
    move_between(rt, queue, more, pass, rest, agent, stage, lines, first);
    move_all(rt, more, rest, agent, stage + 1, lines, others, outs)
}

// Moves what is left for this stage between this queue and the first of the others.
fn move_between<R: Wait, Q: SharedQueue>(
    rt: &R,
    queue: &Q,
    more: &[Q],
    pass: &mut Q::Pass,
    rest: &mut [Q::Pass],
    agent: u32,
    stage: u32,
    lines: &Lines,
    worker: &mut StageWorker<Q::Pass>,
)
    requires passes { ArePasses Q.SharedQueue agent (queue.now ∷ more.now) (pass.old ∷ rest.old) }
    requires two { 0 < length more.now }
    requires good { AreGood lines.now }
    requires stage { (1 ≤ stage) × (stage ≤ 6) }
    ensures passes { ArePasses Q.SharedQueue agent (queue.now ∷ more.now) (pass.new ∷ rest.new) }
    ensures moved { MovedBetween Q.SharedQueue queue.now more.now lines.now stage agent pass.old rest.old pass.new rest.new worker.old.replies.takes worker.new.replies.takes }
    ensures kept { worker.new ≡ record worker.old { replies = record worker.old.replies { takes = worker.new.replies.takes } } }
{
    let _ = agent;
    let Some((next, _)) = more.split_first() else {
        unreachable!()
    };
    let Some((pass_of_next, _behind)) = rest.split_first_mut() else {
        unreachable!()
    };
    move_rest(
        rt,
        queue,
        next,
        pass,
        pass_of_next,
        stage,
        lines,
        &mut worker.replies.takes,
    );
}
