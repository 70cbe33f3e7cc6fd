//! Runs on threads, whose replies are read back, and workers that work beside each other.

ghost use Rattle.std.specs.Prelude.{◌≤◌};

use super::{are_replies, lines_of, posts};
use orc_board::{Gate, OpenGate, PostReply, PostWord, Replies, TakeReply, TakeWord};
use orc_fault::NoMemory;
use orc_run::{Finished, SetChoice, Task, run_lines};
use std::alloc::Global;
use std::sync::Wait;
use std::test::Fail;
use std::thread::Threads;

mod meeting;

const FIVE_LINES: &[u8] =
    b"post,7,bytes,hello\npost,9,sum,1 2 3\ndrop,9\npost,7,words,a b\ndrop,8\n";

// So many rounds, in each of which each of four posters posts a job and drops its id.
fn rounds_of(alloc: Global, rounds: u32) -> Result<String, NoMemory> {
    let mut text = String::new(alloc);
    for _ in 0..rounds {
        text.push_str("post,1,bytes,x\npost,2,bytes,x\npost,3,bytes,x\npost,4,bytes,x\n")?;
        text.push_str("drop,1\ndrop,2\ndrop,3\ndrop,4\n")?;
    }
    Ok(text)
}

// Whether the claims are of the positions from 0 on, so many, each once.
fn each_claimed_once(alloc: Global, takes: &[TakeReply], many: usize) -> Result<bool, NoMemory> {
    if takes.len() != many {
        return Ok(false);
    }
    let mut claimed = vec![in alloc; false; many]?;
    for take in takes {
        let at = take.at as usize;
        if at >= claimed.len() || claimed[at] {
            return Ok(false);
        }
        claimed[at] = true;
    }
    Ok(true)
}

// How many posts were accepted.
fn accepted(posts: &[PostReply]) -> usize {
    posts
        .iter()
        .filter(|post| matches!(post.what, PostWord::Posted(_)))
        .count()
}

// What a run left: the replies; and of the queue's rows and of the set's how many were given, how many freed, and how many are linked.
#[derive(Drop)]
struct Ran {
    replies: Replies,
    queue: (u64, u64, u32),
    set: (u64, u64, u32),
}

// What is told of what a run left.
fn told_of(finished: Finished) -> Ran {
    let Finished {
        queue,
        rush: _,
        set,
        replies,
    } = finished;
    Ran {
        replies,
        queue: (queue.given(), queue.reused(), queue.linked()),
        set: (set.given(), set.reused(), set.linked()),
    }
}

// Runs this file by so many posters and takers, with eight rows a container and a set of so many lists. All tests call here, so that the
// call's contract is looked at in one proof.
fn run<R: Threads + Wait + Sync, G: Gate + Sync>(
    rt: &R,
    alloc: Global,
    text: &[u8],
    posters: u32,
    takers: u32,
    buckets: u32,
    gate: &G,
) -> Result<Ran, NoMemory>
    requires posters { (1 ≤ posters) × (posters ≤ 8) }
    requires takers { takers ≤ 7 }
    requires buckets { (1 ≤ buckets) × (buckets ≤ 256) }
{
    let lines = lines_of(alloc, text)?;
    let task = Task {
        lines: &lines,
        posters,
        takers,
        rows: 8,
    };
    let finished = run_lines(rt, alloc, &task, SetChoice::Lists(buckets), gate)?;
    Ok(told_of(finished))
}

// Runs so many posts.
fn run_posts<R: Threads + Wait + Sync, G: Gate + Sync>(
    rt: &R,
    alloc: Global,
    count: u32,
    posters: u32,
    takers: u32,
    buckets: u32,
    gate: &G,
) -> Result<Ran, NoMemory>
    requires posters { (1 ≤ posters) × (posters ≤ 8) }
    requires takers { takers ≤ 7 }
    requires buckets { (1 ≤ buckets) × (buckets ≤ 256) }
{
    let text = posts(alloc, count)?;
    run(rt, alloc, text.as_bytes(), posters, takers, buckets, gate)
}

#[test]
fn a_drop_closes_an_open_id(rt: HostRuntime) -> Result<(), Fail> {
    let ran = run(&rt, rt.alloc(), FIVE_LINES, 1, 0, 1, &OpenGate)?;
    let words = [
        PostWord::Posted(0),
        PostWord::Posted(1),
        PostWord::Dropped,
        PostWord::Busy,
        PostWord::Unknown,
    ];
    assert!(rt; are_replies(ran.replies.posts.items(), &words));
    let done = TakeReply {
        taker: 0,
        at: 0,
        line: 0,
        rush: false,
        what: TakeWord::Done(5),
    };
    let void = TakeReply {
        taker: 0,
        at: 1,
        line: 1,
        rush: false,
        what: TakeWord::Void,
    };
    assert!(rt; ran.replies.takes.items() == [done, void].as_slice());
    assert!(rt; ran.queue == (3, 2, 1) && ran.set == (2, 2, 0));
    Ok(())
}

#[test]
fn a_small_board_refuses_what_has_no_row(rt: HostRuntime) -> Result<(), Fail> {
    let ran = run_posts(&rt, rt.alloc(), 9, 1, 0, 256, &OpenGate)?;
    assert!(rt; accepted(ran.replies.posts.items()) == 7);
    assert!(rt; ran.queue == (8, 7, 1) && ran.set == (9, 9, 0));
    Ok(())
}

#[test]
fn eight_rows_serve_ten_thousand_posts_and_drops(rt: HostRuntime) -> Result<(), Fail> {
    let text = rounds_of(rt.alloc(), 1250)?;
    let ran = run(&rt, rt.alloc(), text.as_bytes(), 4, 3, 16, &OpenGate)?;
    let posts = ran.replies.posts.items();
    let takes = ran.replies.takes.items();
    assert!(rt; posts.len() == 10000);
    assert!(rt; each_claimed_once(rt.alloc(), takes, accepted(posts))?);
    assert!(rt; ran.queue.1.saturating_add(ran.set.1) >= 1000);
    assert!(rt; ran.queue.2 == 1);
    Ok(())
}
