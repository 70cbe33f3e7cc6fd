//! A run of the job board on threads: two of Michael and Scott's queues and a set, each over a reclaiming domain of its own. The set
//! is one of Harris's lists a bucket, or Shalev and Shavit's split-ordered one.
#![tactic(auto)]

mod desks;
mod ending;
mod over;
mod run;
mod set;
mod task;
mod work;

pub use run::{Finished, run_lines};
pub use set::{SetChoice, SetRest};
pub use task::Task;
