//! The lines of a trace, as text: the shape of a table, and the steps of its agents.
#![tactic(auto)]

mod argument;
mod cut;
mod kind;
mod line;
mod shape_line;

pub use line::first_step;
pub use shape_line::{ShapeWord, read_shape};
