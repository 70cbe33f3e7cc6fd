//! Replies of posters and takers.
use crate::{PostList, TakeList};

/// What came of a line.
#[derive(Clone, Copy, Debug, PartialEq, Eq, Drop)]
pub enum PostWord {
    /// A post: the id was opened, and the record was queued at this position.
    Posted(u64),
    /// A rush: the id was opened, and the record was queued at this position of the rush queue.
    Rushed(u64),
    /// A post or a rush: the id was open already.
    Busy,
    /// A post or a rush: a container had no room.
    NoNode,
    /// A post or a rush: no position was left.
    Positions,
    /// A post or a rush: a row could take no further link.
    Spent,
    /// A drop: the id was open, and is closed.
    Dropped,
    /// A drop: the id wasn't open.
    Unknown,
    /// A drop, where the queues form a pipeline: nothing was done. At a board it never comes.
    Skipped,
}

/// A poster's reply.
#[derive(Clone, Copy, Debug, PartialEq, Eq, Drop)]
pub struct PostReply {
    pub poster: u32,
    /// The number of the record.
    pub line: u32,
    pub what: PostWord,
}

/// What came of a job.
#[derive(Clone, Copy, Debug, PartialEq, Eq, Drop)]
pub enum TakeWord {
    /// The claim closed the opening of the id; the value of the line.
    Done(u64),
    /// The id was closed already.
    Void,
}

/// A taker's reply.
#[derive(Clone, Copy, Debug, PartialEq, Eq, Drop)]
pub struct TakeReply {
    pub taker: u32,
    /// The position that the job was put at.
    pub at: u64,
    /// The number of its record.
    pub line: u32,
    /// Whether the rush queue gave it.
    pub rush: bool,
    pub what: TakeWord,
}

/// The replies of a run.
#[derive(Drop)]
pub struct Replies {
    pub posts: PostList,
    pub takes: TakeList,
}
