//! Tests of the heap, the boards and both domains.
#![tactic(auto)]

#[cfg(test)]
mod tests;
