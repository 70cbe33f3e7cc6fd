//! What a run leaves for its caller.

use orc_run::Finished;
use orc_stages_run::StagesFinished;
use orc_watch_domain::WatchFinished;

/// What has ended: each domain of it at rest, with the journal of all that happened on it, and the replies.
#[derive(Drop)]
pub enum Ended {
    /// Nothing has.
    Nothing,
    /// A run, over a queue, a rush queue and a set.
    Run(Finished),
    /// A watch, over a cell.
    Watch(WatchFinished),
    /// A run of a pipeline of queues.
    Stages(StagesFinished),
}

impl Ended {
    /// Lets go of it. So its destructor is written out and proved once, and not where a caller has one.
    pub fn let_go(self) {}
}
