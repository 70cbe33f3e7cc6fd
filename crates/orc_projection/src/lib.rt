//! What a list of steps of the machine does to the heap that is never reused.
#![tactic(auto)]

mod laws;

pub use laws::{
    a_worn_row_was_linked, each_node_lies_in_one_row, every_journal_projects_to_a_heap_journal,
    links_of_two_rows_are_links_of_two_nodes, projections_go_on,
};
