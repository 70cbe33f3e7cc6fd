//! A set of many buckets over any domain of links, each of which is one of Harris's sorted lists.
#![tactic(auto)]

mod set;

pub use set::Set;
