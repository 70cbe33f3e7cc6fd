//! Whole runs on threads, over reclaiming domains.
ghost use Rattle.std.specs.Prelude.{◌≤◌};

use super::super::gates::comes_to;
use super::super::{lines_of, posts};
use super::{moved, posted};
use orc_board::{Gate, OpenGate, PostList, PostReply, PostWord};
use orc_fault::NoMemory;
use orc_stages::{OutList, StageList, StageReply};
use orc_stages_run::{StagesFinished, run_pipeline};
use std::alloc::Global;
use std::sync::Wait;
use std::sync::atomic::{AtomicU64, Ordering};
use std::test::Fail;
use std::thread::Threads;

// What a run leaves: the replies of posters and stages, the jobs that came out, and how many domains came to rest.
#[derive(Drop)]
struct Outcome {
    posts: PostList,
    moves: StageList,
    outs: OutList,
    queues: usize,
}

// What is told of what a run left.
fn told_of(finished: StagesFinished) -> Outcome {
    let queues = finished.queues.len();
    let done = finished.done;
    Outcome {
        posts: done.posts,
        moves: done.moves,
        outs: done.outs,
        queues,
    }
}

// What a run of this file by so many posters and stages leaves. All tests call here, so that the call's contract is looked at in one
// proof.
fn outcome_of<R: Threads + Wait + Sync, G: Gate + Sync>(
    rt: &R,
    alloc: Global,
    text: &[u8],
    posters: u32,
    stages: u32,
    rows: u32,
    gate: &G,
) -> Result<Outcome, NoMemory>
    requires posters { (1 ≤ posters) × (posters ≤ 8) }
    requires stages { (1 ≤ stages) × (stages ≤ 6) }
    requires rows { (2 ≤ rows) × (rows ≤ 65535) }
{
    let lines = lines_of(alloc, text)?;
    let finished = run_pipeline(rt, alloc, &lines, posters, stages, rows, gate)?;
    Ok(told_of(finished))
}

// What a run of so many posts leaves.
fn outcome_of_posts<R: Threads + Wait + Sync, G: Gate + Sync>(
    rt: &R,
    alloc: Global,
    count: u32,
    posters: u32,
    stages: u32,
    rows: u32,
    gate: &G,
) -> Result<Outcome, NoMemory>
    requires posters { (1 ≤ posters) × (posters ≤ 8) }
    requires stages { (1 ≤ stages) × (stages ≤ 6) }
    requires rows { (2 ≤ rows) × (rows ≤ 65535) }
{
    let text = posts(alloc, count)?;
    outcome_of(rt, alloc, text.as_bytes(), posters, stages, rows, gate)
}

#[test]
fn a_drop_is_skipped(rt: HostRuntime) -> Result<(), Fail> {
    let got = outcome_of(&rt, rt.alloc(), b"drop,3\n", 1, 2, 8, &OpenGate)?;
    let skipped = PostReply {
        poster: 1,
        line: 0,
        what: PostWord::Skipped,
    };
    assert!(rt; got.posts.items() == [skipped].as_slice());
    assert!(rt; (got.moves.len(), got.outs.len(), got.queues) == (0, 0, 3));
    Ok(())
}

// Whether each of these jobs is that of the next record of its poster, of three, up to these records.
fn in_file_order(outs: &OutList, ends: [u64; 3]) -> bool {
    let mut next = [0, 1, 2];
    for line in outs.items() {
        let poster = (*line % 3) as usize;
        if next[poster] != *line {
            return false;
        }
        next[poster] = line.wrapping_add(3);
    }
    next == ends
}

#[test]
fn a_thousand_posts_come_out_in_file_order(rt: HostRuntime) -> Result<(), Fail> {
    let got = outcome_of_posts(&rt, rt.alloc(), 1000, 3, 6, 2000, &OpenGate)?;
    assert!(rt; (got.posts.len(), got.moves.len()) == (1000, 6000));
    assert!(rt; (got.outs.len(), got.queues) == (1000, 7));
    assert!(rt; in_file_order(&got.outs, [1002, 1000, 1001]));
    Ok(())
}

// How many jobs are posted where the middle queue has too few rows.
const JOBS: u64 = 16;

// Keeps stage 1 one job behind the poster, and the poster at most three ahead of it, and holds stage 2 until stage 1 has come to the
// last job.
#[derive(Drop)]
struct SecondStageWaits {
    posted: AtomicU64,
    tried: AtomicU64,
}

impl Gate for SecondStageWaits {
    fn before(&self, worker: u32, call: u64) {
        match worker {
            1 => {
                self.posted.store(call, Ordering::SeqCst);
                let _came = comes_to(&self.tried, call.saturating_sub(2));
            }
            2 => {
                self.tried.store(call, Ordering::SeqCst);
                if call < JOBS - 1 {
                    let _came = comes_to(&self.posted, call + 1);
                }
            }
            _ => {
                let _came = comes_to(&self.tried, JOBS - 1);
            }
        }
    }
}

// Whether these are the moves of the first jobs at this stage, of which seven got a place with this value, and later ones none.
fn seven_placed(moves: &[StageReply], stage: u32, value: u64) -> bool {
    for (line, reply) in (0..).zip(moves) {
        let value = if line < 7 { Some(value) } else { None };
        if *reply != moved(stage, line, value) {
            return false;
        }
    }
    true
}

// Whether the first seven jobs went through both stages and came out in their order, and the next eight found no place behind the
// first stage.
fn seven_come_out(moves: &[StageReply], outs: &[u64]) -> bool {
    moves.len() >= 23
        && seven_placed(&moves[..15], 1, 1)
        && seven_placed(&moves[16..23], 2, 2)
        && outs.starts_with(&[0, 1, 2, 3, 4, 5, 6])
}

// How many jobs found a place behind this stage.
fn placed_by(moves: &[StageReply], stage: u32) -> usize {
    let mut count: usize = 0;
    for reply in moves {
        if reply.stage == stage && reply.value.is_some() {
            count = count.wrapping_add(1);
        }
    }
    count
}

// What the first stage gave a place is moved by the second, and what that gave a place comes out. The last job finds one behind the
// first stage where the second has taken a job before, and may then find none behind the second.
#[test]
fn later_stages_go_on_where_jobs_find_no_place(rt: HostRuntime) -> Result<(), Fail> {
    let gate = SecondStageWaits {
        posted: AtomicU64::new(0),
        tried: AtomicU64::new(0),
    };
    let got = outcome_of_posts(&rt, rt.alloc(), 16, 1, 2, 8, &gate)?;
    assert!(rt; got.posts.items().last() == Some(&posted(15, 15)));
    let moves = got.moves.items();
    assert!(rt; seven_come_out(moves, got.outs.items()));
    let (by_first, by_second) = (placed_by(moves, 1), placed_by(moves, 2));
    assert!(rt; by_second >= 7 && got.outs.len() == by_second);
    assert!(rt; moves.len() == by_first.wrapping_add(16));
    Ok(())
}

// Holds each of stages 1 to 3 before its first take until all of them have come there, and counts who saw all of them come.
#[derive(Drop)]
struct StagesMeet {
    came: AtomicU64,
    met: AtomicU64,
}

impl Gate for StagesMeet {
    fn before(&self, worker: u32, call: u64) {
        if worker == 1 || call != 0 {
            return;
        }
        self.came.fetch_add(1, Ordering::SeqCst);
        if comes_to(&self.came, 3) {
            self.met.fetch_add(1, Ordering::SeqCst);
        }
    }
}

#[test]
fn each_stage_has_a_worker_of_its_own(rt: HostRuntime) -> Result<(), Fail> {
    let gate = StagesMeet {
        came: AtomicU64::new(0),
        met: AtomicU64::new(0),
    };
    let got = outcome_of_posts(&rt, rt.alloc(), 3, 1, 3, 8, &gate)?;
    assert!(rt; gate.met.load(Ordering::SeqCst) == 3 && got.outs.len() == 3);
    Ok(())
}
