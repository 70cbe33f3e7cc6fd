//! A cell of two parts that are published at once, over any domain of links.
#![tactic(auto)]

mod cell;
mod new_parts;
mod publish;
mod read;
mod refused;
mod with_pair;

pub use cell::Cell;
pub use refused::CellRefused;
