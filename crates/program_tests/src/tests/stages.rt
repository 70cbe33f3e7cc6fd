//! Rows of a pipeline over plain queues, and whole runs on threads over reclaiming domains.

use orc_board::{PostReply, PostWord};
use orc_stages::StageReply;

mod plain;
mod runs;

// What a poster and a stage say of a line.
fn posted(line: u32, at: u64) -> PostReply {
    PostReply {
        poster: 1,
        line,
        what: PostWord::Posted(at),
    }
}

fn moved(stage: u32, line: u32, value: Option<u64>) -> StageReply {
    StageReply { stage, line, value }
}
