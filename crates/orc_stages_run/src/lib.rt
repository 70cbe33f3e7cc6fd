//! A run of the pipeline on threads: Michael and Scott's queues in a row, each over a reclaiming domain of its own.
#![tactic(auto)]

mod ending;
mod making;
mod over;
mod run;

pub use ending::RestList;
pub use run::{StagesFinished, run_pipeline};
