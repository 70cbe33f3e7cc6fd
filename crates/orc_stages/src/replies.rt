//! What posters and stages are handed, and what they hand back.
use orc_board::ReplyList;
use orc_team::{Room, Worker};

/// What a stage did with the job of a line.
#[derive(Clone, Copy, PartialEq, Eq, Drop)]
pub struct StageReply {
    /// The number of the stage, from 1.
    pub stage: u32,
    /// The number of the record.
    pub line: u32,
    /// The line's value at this stage, or none where the job found no place in the next queue.
    pub value: Option<u64>,
}

/// The replies of stages.
pub type StageList = ReplyList<StageReply>;

/// The jobs that came out of the last queue.
pub type OutList = ReplyList<u64>;

/// The passes of one agent, one of each queue in their order.
#[derive(Drop)]
pub struct StageDesk<P> {
    pub passes: Vec<P>,
}

/// Poster p is agent p, and the worker of stage s is agent s behind the posters.
pub type StageWorker<P> = Worker<StageDesk<P>, Room<StageReply>>;
