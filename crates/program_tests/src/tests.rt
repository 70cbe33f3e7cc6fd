//! What is run, and what was worked out by hand.

ghost use Rattle.std.specs.Prelude.{◌≡◌, ◌≤◌, ◌^◌, IfOk};
ghost use Rattle.orc_jobs.specs.GoodLines.{AreGood};

use orc_board::{PostReply, PostWord};
use orc_fault::NoMemory;
use orc_history::{PlainQueue, PlainQueuePass, PlainSet, PlainSetPass, SharedQueue, SharedSet};
use orc_job_files::read_jobs;
use orc_jobs::{Lines, MOST_BYTES};
use std::alloc::Global;

mod board;
mod decimals;
mod feed;
mod gates;
mod histories;
mod jobs;
mod options;
mod report;
mod runs;
mod stages;
mod watch;

// The lines of a job file.
fn lines_of(alloc: Global, bytes: &[u8]) -> Result<Lines, NoMemory>
    ensures { IfOk result AreGood }
{
    if bytes.len() > MOST_BYTES {
        return Err(NoMemory);
    }
    match read_jobs(alloc, bytes) {
        Ok(lines) => Ok(lines),
        Err(_) => Err(NoMemory),
    }
}

// A job file of so many posts of one byte.
fn posts(alloc: Global, count: u32) -> Result<String, NoMemory> {
    let mut text = String::new(alloc);
    for id in 0..count {
        let line = format!(in alloc; "post,{id},bytes,x\n")?;
        text.push_str(line.as_str())?;
    }
    Ok(text)
}

// A file of this record between two others.
fn between(alloc: Global, first: &[u8], record: &[u8], last: &[u8]) -> Result<Vec<u8>, NoMemory> {
    let mut bytes = first.to_vec(alloc)?;
    bytes.extend_from_slice(record)?;
    bytes.extend_from_slice(last)?;
    Ok(bytes)
}

// Whether these are the replies of poster 1 to the first lines, one after another.
fn are_replies(posts: &[PostReply], words: &[PostWord]) -> bool {
    for (line, (reply, what)) in (0..).zip(posts.iter().zip(words)) {
        let wanted = PostReply {
            poster: 1,
            line,
            what: *what,
        };
        if *reply != wanted {
            return false;
        }
    }
    posts.len() == words.len()
}

// An empty plain queue whose first job gets this position, and its pass as agent 1.
fn plain_queue(
    alloc: Global,
    room: u32,
    first: u64,
) -> Result<(PlainQueue, PlainQueuePass), NoMemory>
    requires { first ≤ 2 ^ 62 }
    ensures usable { IfOk result (λ r. ⟦<PlainQueue as SharedQueue>⟧.usable r.0 r.1) }
    ensures agent { IfOk result (λ r. ⟦<PlainQueue as SharedQueue>⟧.agent_of r.0 r.1 ≡ 1) }
{
    let (queue, mut pass) = PlainQueue::new(alloc, room, first)?.pass();
    pass.act_as(1);
    Ok((queue, pass))
}

// An empty plain set, and its pass as agent 1.
fn plain_set(alloc: Global, room: u32) -> Result<(PlainSet, PlainSetPass), NoMemory>
    ensures usable { IfOk result (λ r. ⟦<PlainSet as SharedSet>⟧.usable r.0 r.1) }
    ensures agent { IfOk result (λ r. ⟦<PlainSet as SharedSet>⟧.agent_of r.0 r.1 ≡ 1) }
{
    let (set, mut pass) = PlainSet::new(alloc, room)?.pass();
    pass.act_as(1);
    Ok((set, pass))
}
