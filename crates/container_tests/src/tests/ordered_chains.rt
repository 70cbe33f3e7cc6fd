//! The laws of ordered chains.

use orc_ordered_chains::*;

#[test]
fn the_laws_stand() {
    chains_stay_in_order();
    a_node_is_reached_from_one_root();
    unmarked_nodes_stand_in_order();
    ranks_left_out_are_absent();
}
