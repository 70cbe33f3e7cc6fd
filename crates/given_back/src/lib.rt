//! Values that threads give back, each to a place of its own, for the one who comes last.
#![tactic(auto)]

mod places;

pub use places::{GivenBack, Keeps, Unfinished};
