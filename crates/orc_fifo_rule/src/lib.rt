//! The discipline of Michael and Scott's queue (1996): which events it allows, and what they keep.
#![tactic(auto)]

mod fifo;
mod laws;

pub use fifo::{Fifo, FifoNote};
pub use laws::{
    a_node_is_linked_at_most_three_times, a_put_may_come, a_swing_may_come, a_took_may_come,
    allowed_events_obey_the_discipline, an_empty_may_come, facts_of_nodes_stay, moves_cost_entries,
    queue_histories_are_legal, swings_cost_puts, the_last_node_says_the_next_position,
};
