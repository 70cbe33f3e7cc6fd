//! Tests of what the programs are made of: texts, histories, the board and its runs, the pipeline and its runs, watch files and
//! watches, reports and options.
#![tactic(auto)]

#[cfg(test)]
mod tests;
