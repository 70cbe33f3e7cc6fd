//! The split-ordered set of Shalev and Shavit (2006) over any domain of links.
#![tactic(auto)]

mod answer;
mod begin;
mod bucket;
mod grow;
mod insert;
mod node;
mod order;
mod search;
mod set;
mod size;
mod stop;

pub use set::SplitSet;
