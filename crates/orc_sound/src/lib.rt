//! Soundness of the machine, over every list of steps that it allows.
#![tactic(auto)]

mod agent_tests;
mod counting;
mod laws;
mod parts;
mod row_tests;
mod soundness;
mod steps;

pub use counting::{backlog_of, is_held, linked_of, tokens_of};
pub use laws::{
    a_freed_row_is_unreachable, a_row_is_freed_once_a_life, every_journal_is_sound,
    every_run_is_sound, journals_go_on, no_sum_wraps, records_are_in_order, the_backlog_is_bounded,
    work_lists_have_room,
};
pub use soundness::sound;
pub use steps::Step;
