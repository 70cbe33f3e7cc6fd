//! The board of twenty kinds: the machine's words, shared by agents that step beside each other.
#![tactic(auto)]

mod board;
mod counts;
mod kept;
mod laws;
mod links;
mod machine;
mod make;
mod passes;
mod rows;
mod step;

pub use board::{MachineBoard, MachineBoardPass};
pub use kept::{due_by, to_count};
pub use laws::{a_held_row_keeps_its_node, a_pass_that_took_in_all_steps_next};
pub use machine::{MachineShape, Reclaiming, Request};
