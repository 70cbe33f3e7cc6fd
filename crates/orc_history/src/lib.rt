//! Histories of shared queues and sets, the traits of such containers, and two of them on one thread.
#![tactic(auto)]

mod learn;
mod plain_queue;
mod plain_set;
mod queue;
mod set;
mod sorted_keys;
mod stored_history;

pub use learn::{LearnQueue, LearnSet};
pub use plain_queue::{PlainQueue, PlainQueuePass};
pub use plain_set::{PlainSet, PlainSetPass};
pub use queue::{QueueEntry, QueueRefused, SharedQueue};
pub use set::{ListRefused, SetEntry, SharedSet};
