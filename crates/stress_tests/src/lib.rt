//! Tests of what drives containers and judges them: words, containers of one agent that do right and wrong, and pairs.
#![tactic(auto)]

#[cfg(test)]
mod tests;
