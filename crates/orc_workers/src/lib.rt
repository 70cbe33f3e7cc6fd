//! Posters and takers on threads, over a queue, a rush queue and a set.
#![tactic(auto)]

mod at_board;
mod board;
mod desks;
mod team;
mod work;

pub use board::run_at_desks;
pub use desks::fresh_desks;
pub use orc_team::run_workers;
pub use work::{count_jobs, run_poster, run_taker};
