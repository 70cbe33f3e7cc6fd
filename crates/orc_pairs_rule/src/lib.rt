//! The discipline of a cell of two parts that are published at once: which events it allows, and what they keep.
#![tactic(auto)]

mod entry;
mod laws;
mod pairs;

pub use entry::CellEntry;
pub use laws::{
    a_move_of_the_pair_has_an_entry, a_published_may_come, a_seen_may_come, a_stage_may_come,
    allowed_events_obey_the_discipline, cell_histories_are_legal, facts_of_a_cell_stay,
    legal_histories_show_one_version,
};
pub use pairs::{Pairs, PairsNote};
