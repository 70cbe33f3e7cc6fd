//! The heap in which no node is ever reused, its events, and what containers and domains promise each other.
#![tactic(auto)]

mod any_fit;
mod discipline;
mod events;
mod holds;
mod laws;
mod links;
mod seed;

pub use any_fit::AnyFit;
pub use discipline::{Discipline, Ranked};
pub use events::{Act, Event, Link, Place};
pub use holds::{At, Held, Looked, LookedOn, Seen, Want};
pub use laws::{
    a_changed_link_was_moved, a_node_tells_its_journal, journals_go_on, once_linked_nodes_stay,
    roots_lead_to_linked_nodes,
};
pub use links::Links;
pub use seed::Seed;
