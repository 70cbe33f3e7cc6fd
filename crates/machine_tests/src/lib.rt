//! Tests of the machine: its words, its steps, what holds in every state that steps reach, and its traces.
#![tactic(auto)]

#[cfg(test)]
mod tests;
