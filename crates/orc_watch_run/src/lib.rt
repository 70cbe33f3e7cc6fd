//! Workers on threads over one cell: each publishes and reads as its lines say.
#![tactic(auto)]

mod answer;
mod at_cell;
mod lines;
mod run;
mod team;

pub use answer::{publish_parts, read_parts};
pub use lines::watch_lines;
pub use run::{Watched, run_watch};
