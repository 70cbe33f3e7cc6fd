//! The parts of a pipeline: a poster puts jobs into the first queue, a stage takes from one queue and puts into the next, and the
//! caller moves what is left.
#![tactic(auto)]

mod caller;
mod poster;
mod replies;
mod stage;

pub use caller::{move_all, take_outs};
pub use poster::post_items;
pub use replies::{OutList, StageDesk, StageList, StageReply, StageWorker};
pub use stage::{move_rest, run_stage, stage_value};
