//! Tests of the containers over both domains, of the rules that their links follow, and of what is given back.
#![tactic(auto)]

#[cfg(test)]
mod tests;
