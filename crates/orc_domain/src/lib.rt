//! A domain of links whose rows are reclaimed: each row is counted, retired, scanned for, freed and given again.
#![tactic(auto)]

mod as_domain;
mod at_rest;
mod changes;
mod counts;
mod domain;
mod ends;
mod laws;
mod links;
mod make;
mod reached;
mod rest;
mod search;
mod steps;

pub use at_rest::OrcRest;
pub use domain::{OrcDomain, OrcPass};
pub use make::MadeOrcDomain;
pub use reached::what_is_left_is_reached;
