//! Notes, and worked examples of the definitions.

use orc_fifo_rule::*;

mod examples;

#[test]
fn the_laws_stand() {
    allowed_events_obey_the_discipline();
    queue_histories_are_legal();
    the_last_node_says_the_next_position();
    a_node_is_linked_at_most_three_times();
    swings_cost_puts();
    moves_cost_entries();
    facts_of_nodes_stay();
    an_empty_may_come();
    a_swing_may_come();
    a_took_may_come();
    a_put_may_come();
}
