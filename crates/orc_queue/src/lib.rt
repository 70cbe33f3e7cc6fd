//! Michael and Scott's queue (1996) over any domain of links.
#![tactic(auto)]

mod put;
mod queue;
mod stopped;
mod swings;
mod take;

pub use queue::Queue;
