//! The discipline of the split-ordered set of Shalev and Shavit (2006): which events it allows, and what they keep.
#![tactic(auto)]

mod laws;
mod split;

pub use laws::{
    a_bucket_may_come, a_grow_may_come, a_removed_may_come, absent_answers_may_come,
    allowed_events_obey_the_discipline, an_added_may_come, an_anchor_may_come, an_unlink_may_come,
    dummies_are_never_marked, facts_of_the_chain_stay, keys_absent_and_present,
    present_answers_may_come, searches_may_begin_at_dummies, set_histories_are_legal, sizes_double,
    the_set_stands_on_the_chain,
};
pub use split::{Split, SplitNote};
