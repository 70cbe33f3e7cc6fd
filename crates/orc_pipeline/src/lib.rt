//! A pipeline of queues: each stage, on a thread of its own, takes from one queue and puts into the next.
#![tactic(auto)]

mod at_queues;
mod desk;
mod laws;
mod queues;
mod run;
mod team;

pub use laws::{all_come_out, runs_are_pipelines};
pub use queues::{add_queue, empty_desks, take_first};
pub use run::{StagesDone, run_stages};
pub use team::run_worker;
