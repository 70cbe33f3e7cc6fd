//! Any domain of nodes, from its making to its rest; the names of its words, and where its searches begin.
#![tactic(auto)]

mod domain;
mod learning;
mod names;
mod turns;

pub use domain::{Domain, RowCounts};
pub use learning::learn_all;
pub use names::{row_link, target_link, word_at};
pub use turns::{around, first_row};
