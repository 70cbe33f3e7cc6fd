//! The machine: a table's words, the agents' records, and the kinds of step.
#![tactic(auto)]

mod actions;
mod counting;
mod counts;
mod laws;
mod ops;
mod outcome;
mod parts;
mod permission;
mod records;
mod state;
mod work_list;

pub use actions::{Action, action_of};
pub use counting::census;
pub use counts::Census;
pub use laws::{
    a_decrement_under_a_hold_is_a_decrement, a_look_at_nothing_is_a_take_in_of_nothing,
    a_step_writes_one_word_and_one_record, every_run_is_whole,
    moving_on_is_clearing_and_publishing, pending_changes_come_first,
    permission_lies_in_the_record, runs_go_on,
};
pub use ops::{CounterUse, Op};
pub use outcome::advance;
pub use parts::SEQUENCE;
pub use permission::may_step;
pub use records::{Agent, Doom, Reading, Scan, SlotUse};
pub use state::{NotAllowed, State, allowed, apply};
pub use work_list::WorkList;
