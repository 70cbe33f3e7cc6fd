//! Rows of a pipeline over plain queues, by one agent.
ghost use Rattle.std.specs.Prelude.{◌≡◌, [], IfOk, length};
ghost use Rattle.orc_jobs.specs.{GoodLines.{AreGood}, Line.{jobs_in}};
ghost use Rattle.orc_stages.specs.Calls.{AreStagePasses};

use super::super::{lines_of, plain_queue};
use super::{moved, posted};
use orc_board::{OpenGate, PostList, PostReply, PostWord};
use orc_fault::NoMemory;
use orc_history::SharedQueue;
use orc_jobs::Lines;
use orc_stages::{OutList, StageList, StageReply, move_rest, post_items, run_stage, take_outs};
use orc_workers::count_jobs;
use std::alloc::Global;
use std::sync::Wait;
use std::sync::atomic::AtomicU64;
use std::test::Fail;

// What came of a run of two stages.
#[derive(Drop)]
struct TwoStages {
    posts: PostList,
    first: StageList,
    second: StageList,
    outs: OutList,
}

// What is wanted of it.
#[derive(Clone, Copy)]
struct Wanted<'a> {
    posts: &'a [PostReply],
    first: &'a [StageReply],
    second: &'a [StageReply],
    outs: &'a [u64],
}

// Empty lists, with room for what comes of these lines.
fn empty_lists(alloc: Global, lines: &Lines) -> Result<TwoStages, NoMemory>
    ensures posts { IfOk result (λ d. (d.posts.items ≡ []) × (d.posts.spare ≡ length lines.now)) }
    ensures first { IfOk result (λ d. (d.first.items ≡ []) × (d.first.spare ≡ jobs_in lines.now)) }
    ensures second { IfOk result (λ d. (d.second.items ≡ []) × (d.second.spare ≡ jobs_in lines.now)) }
    ensures outs { IfOk result (λ d. d.outs.items ≡ []) }
{
    let jobs = count_jobs(lines);
    Ok(TwoStages {
        posts: PostList::new(alloc, lines.len())?,
        first: StageList::new(alloc, jobs)?,
        second: StageList::new(alloc, jobs)?,
        outs: OutList::new(alloc, jobs)?,
    })
}

// Agent 1 works as the first stage, or as the caller in place of it.
fn first_stage<R: Wait, Q: SharedQueue>(
    rt: &R,
    from: &Q,
    to: &Q,
    p: &mut Q::Pass,
    r: &mut Q::Pass,
    lines: &Lines,
    by_caller: bool,
    moves: &mut StageList,
)
    requires passes { AreStagePasses Q.SharedQueue from.now to.now 1 p.old r.old }
    requires good { AreGood lines.now }
    requires none { moves.old.items ≡ [] }
    requires room { moves.old.spare ≡ jobs_in lines.now }
    ensures passes { AreStagePasses Q.SharedQueue from.now to.now 1 p.new r.new }
{
    if by_caller {
        move_rest(rt, from, to, p, r, 1, lines, moves);
        return;
    }
    let before = AtomicU64::new(0);
    let after = AtomicU64::new(2);
    run_stage(
        rt, from, to, p, r, 1, lines, &OpenGate, &before, &after, moves,
    );
}

// What comes of these lines at three queues, where agent 1 does all: as the poster, as two stages, or as the caller in place of the first,
// and as the caller who takes what has come out.
fn at_queues<R: Wait, Q: SharedQueue>(
    rt: &R,
    lines: &Lines,
    queue0: &Q,
    queue1: &Q,
    queue2: &Q,
    pass0: &mut Q::Pass,
    pass1: &mut Q::Pass,
    pass2: &mut Q::Pass,
    by_caller: bool,
    done: &mut TwoStages,
)
    requires first { AreStagePasses Q.SharedQueue queue0.now queue1.now 1 pass0.old pass1.old }
    requires second { AreStagePasses Q.SharedQueue queue1.now queue2.now 1 pass1.old pass2.old }
    requires good { AreGood lines.now }
    requires posts { (done.old.posts.items ≡ []) × (done.old.posts.spare ≡ length lines.now) }
    requires moves { (done.old.first.items ≡ []) × (done.old.first.spare ≡ jobs_in lines.now) }
    requires more { (done.old.second.items ≡ []) × (done.old.second.spare ≡ jobs_in lines.now) }
    requires outs { done.old.outs.items ≡ [] }
{
    post_items(rt, queue0, pass0, 1, 1, lines, &OpenGate, &mut done.posts);
    first_stage(
        rt,
        queue0,
        queue1,
        pass0,
        pass1,
        lines,
        by_caller,
        &mut done.first,
    );
    let before = AtomicU64::new(0);
    let after = AtomicU64::new(1);
    let second = &mut done.second;
    run_stage(
        rt, queue1, queue2, pass1, pass2, 2, lines, &OpenGate, &before, &after, second,
    );
    take_outs(rt, queue2, pass2, &mut done.outs);
}

// Which lists of a run of this file over plain queues, of which the middle one has room for so many jobs, are those that are wanted.
fn agree<R: Wait>(
    rt: &R,
    alloc: Global,
    text: &[u8],
    middle: u32,
    by_caller: bool,
    wanted: Wanted,
) -> Result<[bool; 4], NoMemory> {
    let lines = lines_of(alloc, text)?;
    let (queue0, mut pass0) = plain_queue(alloc, 8, 0)?;
    let (queue1, mut pass1) = plain_queue(alloc, middle, 0)?;
    let (queue2, mut pass2) = plain_queue(alloc, 8, 0)?;
    let mut done = empty_lists(alloc, &lines)?;
    at_queues(
        rt, &lines, &queue0, &queue1, &queue2, &mut pass0, &mut pass1, &mut pass2, by_caller,
        &mut done,
    );
    Ok([
        done.posts.items() == wanted.posts,
        done.first.items() == wanted.first,
        done.second.items() == wanted.second,
        done.outs.items() == wanted.outs,
    ])
}

#[test]
fn two_posts_go_through_two_stages(rt: HostRuntime) -> Result<(), Fail> {
    let wanted = Wanted {
        posts: &[posted(0, 0), posted(1, 1)],
        first: &[moved(1, 0, Some(3)), moved(1, 1, Some(2))],
        second: &[moved(2, 0, Some(6)), moved(2, 1, Some(4))],
        outs: &[0, 1],
    };
    let text = b"post,3,bytes,abc\npost,3,words,a b\n";
    assert!(rt; agree(&rt, rt.alloc(), text, 8, false, wanted)? == [true; 4]);
    Ok(())
}

#[test]
fn a_drop_is_skipped(rt: HostRuntime) -> Result<(), Fail> {
    let skipped = PostReply {
        poster: 1,
        line: 0,
        what: PostWord::Skipped,
    };
    let wanted = Wanted {
        posts: &[skipped],
        first: &[],
        second: &[],
        outs: &[],
    };
    assert!(rt; agree(&rt, rt.alloc(), b"drop,3\n", 8, false, wanted)? == [true; 4]);
    Ok(())
}

#[test]
fn later_stages_go_on_where_a_job_finds_no_place(rt: HostRuntime) -> Result<(), Fail> {
    let wanted = Wanted {
        posts: &[posted(0, 0), posted(1, 1), posted(2, 2)],
        first: &[moved(1, 0, Some(1)), moved(1, 1, None), moved(1, 2, None)],
        second: &[moved(2, 0, Some(2))],
        outs: &[0],
    };
    let text = b"post,1,bytes,a\nrush,2,bytes,bb\npost,3,bytes,ccc\n";
    assert!(rt; agree(&rt, rt.alloc(), text, 1, false, wanted)? == [true; 4]);
    Ok(())
}

#[test]
fn the_caller_moves_what_is_left(rt: HostRuntime) -> Result<(), Fail> {
    let wanted = Wanted {
        posts: &[posted(0, 0)],
        first: &[moved(1, 0, Some(3))],
        second: &[moved(2, 0, Some(6))],
        outs: &[0],
    };
    let text = b"post,3,bytes,abc\n";
    assert!(rt; agree(&rt, rt.alloc(), text, 8, true, wanted)? == [true; 4]);
    Ok(())
}
