//! A discipline and a program over any domain of links, in the small: each agent keeps a stack at a root of its own.
#![tactic(auto)]

mod own_roots;
mod stack;

pub use own_roots::OwnRoots;
pub use stack::{PushRefused, through_a_stack};
