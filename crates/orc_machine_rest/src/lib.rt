//! Coming to rest on the machine's board: settling, draining, and counting its rows.
#![tactic(auto)]

mod count;
mod handovers;
mod rounds;
mod steps;

pub use count::count_rows;
pub use handovers::drain;
pub use rounds::settle;
