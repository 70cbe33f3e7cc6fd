//! A watch over a cell of its own: workers on threads publish and read one cell over a reclaiming domain, which is brought to rest.
#![tactic(auto)]

mod cell;
mod over;
mod watch;

pub use watch::{WatchFinished, watch_new_cell};
