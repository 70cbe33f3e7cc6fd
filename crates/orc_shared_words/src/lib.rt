//! Shared words under a rule, for any machine and any discipline, with one journal for all threads.
#![tactic(auto)]

mod each;
mod journal;
mod last_words;
mod machine;
mod moves;
mod operation;
mod rule;
mod shared_words;

pub use each::each_made;
pub use journal::{JournalStep, View};
pub use last_words::LastWords;
pub use machine::Machine;
pub use operation::PlacedOperation;
pub use rule::Shown;
pub use shared_words::{SharedPass, SharedWords};
