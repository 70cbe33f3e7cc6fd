//! Each container in one call, over any domain: how it is made, with a pass for each agent, and how it comes to rest.
#![tactic(auto)]

mod cell;
mod queue;
mod set;
mod split;
mod unmade;

pub use cell::{cell_at_rest, cell_over, new_cell};
pub use orc_any_domain::{Domain, RowCounts};
pub use queue::{new_queue, queue_at_rest, queue_over};
pub use set::{new_list, new_set, set_at_rest, set_over};
pub use split::{new_split_set, split_set_at_rest, split_set_over};
pub use unmade::Unmade;
