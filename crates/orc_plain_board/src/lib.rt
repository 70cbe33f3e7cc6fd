//! A heap over shared words.
#![tactic(auto)]

mod laws;
mod links;
mod machine;
mod make;
mod pass;
mod passes;
mod rows;
mod shape;
mod step;

pub use laws::{a_pass_that_took_in_all_is_alone, rows_keep_their_nodes, words_show_the_heap};
pub use machine::{Plain, PlainOp, PlainStep};
pub use pass::{PlainBoard, PlainBoardPass};
pub use shape::PlainShape;
