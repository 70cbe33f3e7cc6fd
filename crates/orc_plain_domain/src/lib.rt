//! Domains of links, over shared words.
#![tactic(auto)]

mod as_domain;
mod domain;
mod ends;
mod laws;
mod links;
mod make;
mod rest;
mod steps;
pub mod twins;

pub use domain::{PlainDomain, PlainPass, PlainRest};
pub use make::MadePlainDomain;
