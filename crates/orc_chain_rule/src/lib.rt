//! The discipline of Harris's sorted list (2001): which events it allows, and what they keep.
#![tactic(auto)]

mod chain;
mod laws;

pub use chain::{Chain, ChainNote};
pub use laws::{
    a_node_is_reached_from_one_root, a_removed_may_come, absent_answers_may_come,
    allowed_events_obey_the_discipline, an_added_may_come, an_unlink_may_come,
    facts_of_chains_stay, keys_absent_and_present, moves_are_of_three_kinds, moves_cost_entries,
    nodes_of_a_run_leave_the_chain, present_answers_may_come, set_histories_are_legal,
    unlinks_cost_removes,
};
