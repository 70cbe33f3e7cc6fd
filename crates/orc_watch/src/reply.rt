use orc_board::ReplyList;

/// What came of a line.
#[derive(Clone, Copy, Drop)]
pub enum WatchWord {
    /// A publish: both parts as they are since.
    Set(u64, u64),
    /// A read: both parts.
    Saw(u64, u64),
    /// A publish: no node could be had.
    NoNode,
    /// A publish: a row could take no further link.
    Spent,
}

/// A worker's reply.
#[derive(Clone, Copy, Drop)]
pub struct WatchReply {
    /// The number of the worker, from 1.
    pub worker: u32,
    /// The number of the record, from 0.
    pub line: u32,
    pub what: WatchWord,
}

/// The replies of workers.
pub type WatchList = ReplyList<WatchReply>;
