//! Chains of linked nodes in order of rank, whose nodes are taken out in two steps: one proof for Harris's list (2001) and
//! for the split-ordered set of Shalev and Shavit (2006).
#![tactic(auto)]

mod laws;

pub use laws::{
    a_node_is_reached_from_one_root, chains_stay_in_order, ranks_left_out_are_absent,
    unmarked_nodes_stand_in_order,
};
