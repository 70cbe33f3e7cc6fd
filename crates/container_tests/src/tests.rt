//! Worked examples of the definitions, the laws called once, calls over both domains, and what crosses threads.

mod cell;
mod chain_rule;
mod fifo_rule;
mod giving_back;
mod list;
mod ordered_chains;
mod over_domains;
mod pairs_rule;
mod queue;
mod set;
mod split;
mod split_rule;
