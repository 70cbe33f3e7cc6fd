//! One poster: it puts the jobs of its lines into the first queue.
ghost use Rattle.std.specs.Prelude.{◌≡◌, ◌≤◌, ◌+◌, ◌∷◌, [], length, map};
ghost use Rattle.orc_jobs.specs.GoodLines.{AreGood};
ghost use Rattle.orc_board.specs.Follows.{own_records};
ghost use Rattle.orc_stages.specs.Calls.{PostsItem, PostsItems};

use orc_board::{Gate, PostList, PostReply, PostWord, put_job};
use orc_history::{QueueRefused, SharedQueue};
use orc_jobs::{Line, Lines};
use std::sync::Wait;

// Puts the number of a line that posts a job. A drop is skipped.
fn post_item<R: Wait, Q: SharedQueue>(
    rt: &R,
    queue: &Q,
    pass: &mut Q::Pass,
    poster: u32,
    index: u32,
    line: &Line,
) -> PostReply
    requires usable { Q.usable queue.now pass.old }
    ensures usable { Q.usable queue.now pass.new }
    ensures agent { Q.agent_of queue.now pass.new ≡ Q.agent_of queue.now pass.old }
    ensures reply { (result.poster ≡ poster) × (result.line ≡ index) }
    ensures posted { PostsItem Q.SharedQueue queue.now pass.old pass.new index line.now result.what }
{
    let what = match line {
        Line::Post { .. } | Line::Rush { .. } => match put_job(rt, queue, pass, u64::from(index)) {
            Ok(at) => PostWord::Posted(at),
            Err(QueueRefused::Positions) => PostWord::Positions,
            Err(_) => PostWord::NoNode,
        },
        Line::Drop { .. } => PostWord::Skipped,
    };
    PostReply {
        poster,
        line: index,
        what,
    }
}

/// Works through the records of a poster in file order: record i belongs to poster 1 + (i mod `posters`).
pub fn post_items<R: Wait, Q: SharedQueue, G: Gate>(
    rt: &R,
    queue: &Q,
    pass: &mut Q::Pass,
    poster: u32,
    posters: u32,
    lines: &Lines,
    gate: &G,
    replies: &mut PostList,
)
    requires usable { Q.usable queue.now pass.old }
    requires agent { Q.agent_of queue.now pass.old ≡ poster }
    requires good { AreGood lines.now }
    requires poster { (1 ≤ poster) × (poster ≤ posters) }
    requires none { replies.old.items ≡ [] }
    requires room { length (own_records posters poster (length lines.now)) ≤ replies.old.spare }
    ensures usable { Q.usable queue.now pass.new }
    ensures agent { Q.agent_of queue.now pass.new ≡ poster }
    ensures posted { PostsItems Q.SharedQueue queue.now lines.now poster pass.old pass.new replies.new.items }
    ensures in_file_order { map (λ r. r.line) replies.new.items ≡ own_records posters poster (length lines.now) }
    ensures spare { length replies.new.items + replies.new.spare ≡ replies.old.spare }
{
    for index in 0..lines.len() {
        if index as u32 % posters == poster - 1 {
            gate.before(poster, replies.len() as u64);
            replies.push(post_item(rt, queue, pass, poster, index as u32, lines.get(index)));
        }
    }
}
