//! The report of a run: the board, and every worker's replies.
#![tactic(auto)]

mod posts;
mod report;
mod summary;

pub use posts::push_posts;
pub use report::{RestNumbers, report_text};
pub use summary::summary_text;
