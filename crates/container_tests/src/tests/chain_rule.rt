//! Notes, and worked examples of the definitions.

use orc_chain_rule::*;

mod examples;
mod refusals;

#[test]
fn the_laws_stand() {
    allowed_events_obey_the_discipline();
    set_histories_are_legal();
    a_node_is_reached_from_one_root();
    keys_absent_and_present();
    facts_of_chains_stay();
    an_added_may_come();
    a_removed_may_come();
    an_unlink_may_come();
    absent_answers_may_come();
    present_answers_may_come();
    nodes_of_a_run_leave_the_chain();
    unlinks_cost_removes();
    moves_are_of_three_kinds();
    moves_cost_entries();
}
