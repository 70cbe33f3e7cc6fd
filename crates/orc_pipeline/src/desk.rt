//! The work of a poster and of a stage, each at a desk of its own.
ghost use Rattle.std.specs.Prelude.{◌≡◌, ◌<◌, ◌≤◌, ◌+◌, ◌∷◌, [], length};
ghost use Rattle.orc_jobs.specs.{GoodLines.{AreGood}, Line.{jobs_in}};
ghost use Rattle.orc_board.specs.Follows.{own_records};
ghost use Rattle.orc_stages.specs.Desks.{ArePasses};
ghost use Rattle.orc_pipeline.specs.Desks.{PosterDid, StageDid};

use orc_board::{Gate, PostList};
use orc_history::SharedQueue;
use orc_jobs::Lines;
use orc_stages::{StageList, post_items, run_stage};
use std::sync::Wait;
use std::sync::atomic::{AtomicU64, Ordering};

// Works through the records of a poster with its pass of the first queue. At its end it takes one from `left`.
pub(crate) fn run_poster_at<R: Wait, Q: SharedQueue, G: Gate>(
    rt: &R,
    queues: &[Q],
    passes: &mut [Q::Pass],
    poster: u32,
    posters: u32,
    lines: &Lines,
    gate: &G,
    left: &AtomicU64,
    replies: &mut PostList,
)
    requires passes { ArePasses Q.SharedQueue poster queues.now passes.old }
    requires some { 0 < length queues.now }
    requires good { AreGood lines.now }
    requires poster { (1 ≤ poster) × (poster ≤ posters) }
    requires none { replies.old.items ≡ [] }
    requires room { length (own_records posters poster (length lines.now)) ≤ replies.old.spare }
    ensures passes { ArePasses Q.SharedQueue poster queues.now passes.new }
    ensures did { PosterDid Q.SharedQueue queues.now lines.now posters poster passes.old passes.new replies.new.items }
{
    let Some((queue, _more)) = queues.split_first() else {
        unreachable!()
    };
    let Some((pass, _rest)) = passes.split_first_mut() else {
        unreachable!()
    };
    post_items(rt, queue, pass, poster, posters, lines, gate, replies);
    left.fetch_sub(1, Ordering::SeqCst);
}

// Works as this stage with the passes of the two queues that stand behind `skip` others.
pub(crate) fn run_stage_at<R: Wait, Q: SharedQueue, G: Gate>(
    rt: &R,
    queues: &[Q],
    passes: &mut [Q::Pass],
    agent: u32,
    skip: usize,
    stage: u32,
    lines: &Lines,
    gate: &G,
    putting: &[AtomicU64],
    replies: &mut StageList,
)
    requires passes { ArePasses Q.SharedQueue agent queues.now passes.old }
    requires two { skip + 1 < length queues.now }
    requires good { AreGood lines.now }
    requires stage { (1 ≤ stage) × (stage ≤ 6) }
    requires counts { length putting.now ≡ 7 }
    requires none { replies.old.items ≡ [] }
    requires room { jobs_in lines.now ≤ replies.old.spare }
    ensures passes { ArePasses Q.SharedQueue agent queues.now passes.new }
    ensures did { StageDid Q.SharedQueue queues.now lines.now skip stage agent passes.old passes.new replies.new.items }
    ensures spare { length replies.new.items + replies.new.spare ≡ replies.old.spare }
{
    let Some((queue, more)) = queues.split_first() else {
        unreachable!()
    };
    let Some((pass, rest)) = passes.split_first_mut() else {
        unreachable!()
    };
    if skip > 0 {
        run_stage_at(
            rt,
            more,
            rest,
            agent,
            skip - 1,
            stage,
            lines,
            gate,
            putting,
            replies,
        );
        return;
    }
    run_between(
        rt, queue, more, pass, rest, agent, stage, lines, gate, putting, replies,
    )
}

// Works between this queue and the first of the others.
fn run_between<R: Wait, Q: SharedQueue, G: Gate>(
    rt: &R,
    queue: &Q,
    more: &[Q],
    pass: &mut Q::Pass,
    rest: &mut [Q::Pass],
    agent: u32,
    stage: u32,
    lines: &Lines,
    gate: &G,
    putting: &[AtomicU64],
    replies: &mut StageList,
)
    requires passes { ArePasses Q.SharedQueue agent (queue.now ∷ more.now) (pass.old ∷ rest.old) }
    requires two { 0 < length more.now }
    requires good { AreGood lines.now }
    requires stage { (1 ≤ stage) × (stage ≤ 6) }
    requires counts { length putting.now ≡ 7 }
    requires none { replies.old.items ≡ [] }
    requires room { jobs_in lines.now ≤ replies.old.spare }
    ensures passes { ArePasses Q.SharedQueue agent (queue.now ∷ more.now) (pass.new ∷ rest.new) }
    ensures did { StageDid Q.SharedQueue (queue.now ∷ more.now) lines.now 0 stage agent (pass.old ∷ rest.old) (pass.new ∷ rest.new) replies.new.items }
    ensures spare { length replies.new.items + replies.new.spare ≡ replies.old.spare }
{
    let _ = agent;
    let Some((next, _)) = more.split_first() else {
        unreachable!()
    };
    let Some((pass_of_next, _behind)) = rest.split_first_mut() else {
        unreachable!()
    };
    run_stage(
        rt,
        queue,
        next,
        pass,
        pass_of_next,
        stage,
        lines,
        gate,
        &putting[stage as usize - 1],
        &putting[stage as usize],
        replies,
    );
}
