//! How a machine comes to rest, and what it is then: agents settle and drain, nothing leaks, and the gates tell what was given.
#![tactic(auto)]

mod laws;

pub use laws::{
    a_drain_takes_in_and_settles, a_settling_step_is_a_turn, drains_lead_to_rest,
    each_life_is_a_taking, nothing_leaks_at_rest, settling_hands_nothing_over,
    settling_uses_up_the_work, turns_follow_one_another,
};
