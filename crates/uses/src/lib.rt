//! The containers in their smallest uses, over any domain: each public call, as a program makes it. What is answered is asserted by the
//! crate of tests above.
#![tactic(auto)]

mod asking;
mod crew;
mod doubling;
mod hold_in_queue;
mod learning;
mod many_threads;
mod mark_in_list;
mod on_threads;
mod passes;
mod stopping;
mod wearing;

pub use asking::{QueueCase, SetCase, first_other_answer, first_other_reply};
pub use doubling::{Doubling, doubles_and_rests};
pub use hold_in_queue::{HeldQueue, calls_beside_a_held_dummy};
pub use learning::{each_sees_the_others, each_takes_the_others};
pub use mark_in_list::{HeldList, calls_beside_a_held_node};
pub use on_threads::{QueueWork, SetWork, queue_on_threads, set_on_threads};
pub use stopping::{goes_past_marked_nodes, helps_a_lagging_tail_on};
pub use wearing::{serves_to_the_last_position, wears_a_row_out};
